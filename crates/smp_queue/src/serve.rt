//! Handling, a call at a time: a CPU takes its interrupt and its queue as `handle` does, and hands out each call of its
//! batch. Its caller runs that call between two steps of the CPU.

ghost use Rattle.std.specs.Prelude.{◌≡◌, ◌⊎◌, true, false, List};
ghost use Rattle.smp_words.specs.declared.call.Call.{Call};
ghost use Rattle.smp_queue.specs.Seat.{InHandle};
ghost use Rattle.smp_queue.specs.Cells.{cells};
ghost use Rattle.smp_queue.specs.Cpu.{cpu_of};
ghost use Rattle.smp_queue.specs.Handling.{asks};
ghost use Rattle.smp_queue.specs.declared.serving.Next.TheVariants as next;
ghost use Rattle.smp_queue.specs.HandsOut.{NextIs};
ghost use Rattle.smp_queue.specs.Serving.{IsKeptInside, StandsNow, IsNext, ends, takes, begins_at};

use crate::cpu::CallCpu;
use crate::handle::{begin, go_on};
use crate::run::Place;
use crate::seat::SharedCallWords;
use crate::seat::call_steps::{Returned, begin_call, end_call};
use crate::serving::{Given, InsideSeat, Next, Serving};
use crate::table::CallTable;
use smp_words::size::NR_CPUS;
use std::alloc::Allocator;

/// The call at which a CPU is begins, and is handed out.
fn hand_out(
    words: SharedCallWords,
    inside: InsideSeat,
    queued: [u64; NR_CPUS as usize],
    ran: [u64; NR_CPUS as usize],
    place: Place,
) -> Serving
    requires kept { IsKeptInside inside.seat.known inside.number queued ran }
    requires at { InHandle words.shared.now.table_id inside.seat (begins_at place) }
    ensures { IsNext (cpu_of inside.seat) result }
{
    let mut cpu = inside;
    let begun = begin_call(words, &mut cpu.seat, cpu.number, place, &Given);
    Serving {
        cpu,
        queued,
        ran,
        place,
        begun,
    }
}

/// The call at which a CPU is begins, and is handed out; where it is at none, it is outside.
fn next_of(
    words: SharedCallWords,
    cpu: InsideSeat,
    queued: [u64; NR_CPUS as usize],
    ran: [u64; NR_CPUS as usize],
    found: Option<Place>,
) -> Next
    requires kept { IsKeptInside cpu.seat.known cpu.number queued ran }
    requires at { StandsNow words.shared.now.table_id cpu.seat found }
    ensures { NextIs (cpu_of cpu.seat) result }
{
    match found {
        Some(place) => Next::Run(hand_out(words, cpu, queued, ran, place)),
        None => {
            let InsideSeat { seat, number } = cpu;
            Next::Done(CallCpu {
                seat,
                number,
                queued,
                ran,
            })
        }
    }
}

/// Takes the interrupt of a CPU and, where one was pending, its queue, whose first call is handed out.
fn start(words: SharedCallWords, me: CallCpu) -> Next
    requires table { me.table ≡ words.shared.now.table_id }
    requires sized { words.shared.now.table_id.words ≡ cells }
    ensures { (result ≡ next.Idle (asks false me)) ⊎ ((queue : List Call) × NextIs (takes queue (asks true me)) result) }
{
    let CallCpu {
        mut seat,
        number,
        queued,
        ran,
    } = me;
    match begin(words, &mut seat, number) {
        None => Next::Idle(CallCpu {
            seat,
            number,
            queued,
            ran,
        }),
        Some(batch) => {
            let cpu = InsideSeat { seat, number };
            next_of(words, cpu, queued, ran, batch.first)
        }
    }
}

/// The call that is out ends, and the next one of the batch is handed out.
fn go_on_from(words: SharedCallWords, serving: Serving) -> Next
    requires table { serving.cpu.table ≡ words.shared.now.table_id }
    requires sized { words.shared.now.table_id.words ≡ cells }
    ensures { NextIs (ends serving.call serving.cpu) result }
{
    let Serving {
        mut cpu,
        queued,
        mut ran,
        place,
        begun,
    } = serving;
    let number = cpu.number;
    let returned = Returned {
        place,
        begun,
        handler: &Given,
    };
    end_call(words, &mut cpu.seat, number, &mut ran, returned);
    let found = go_on(words, &mut cpu.seat, number, place.pass, place.next);
    next_of(words, cpu, queued, ran, found)
}

impl<A: Allocator> CallTable<A> {
    /// Begins to handle, for a caller that runs the calls itself: takes the CPU's interrupt and, where one was pending, its
    /// whole queue, and hands out the first call of that batch. Run it, then call `resume`, and so on up to `Done`. The calls
    /// are handed out in the order in which `handle` runs them, each once (`laws::steps_are_handle`). That the caller has run
    /// a call that it was handed is known to nobody.
    ///
    /// It takes effect at the steps of `handle` up to the one before the call; it waits for no other CPU, and wakes none.
    pub fn begin_handle(&self, me: CallCpu) -> Next
        requires { me.table ≡ self.now.table }
        ensures { (result ≡ next.Idle (asks false me)) ⊎ ((queue : List Call) × NextIs (takes queue (asks true me)) result) }
    {
        start(self.words(), me)
    }

    /// The call that is out has run: it is counted, and a SYNC call's record is unlocked. Then the next call of the batch is
    /// handed out, of which an ASYNC call's record is unlocked before; where none is left, the CPU is outside.
    ///
    /// It takes effect at the steps of `handle` up to the one before the next call; it waits for no other CPU, and wakes none.
    pub fn resume(&self, serving: Serving) -> Next
        requires { serving.cpu.table ≡ self.now.table }
        ensures { NextIs (ends serving.call serving.cpu) result }
    {
        go_on_from(self.words(), serving)
    }
}
