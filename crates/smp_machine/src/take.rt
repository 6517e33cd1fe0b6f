//! A CPU takes the front of its own queue.

ghost use Rattle.std.specs.Prelude.{◌≡◌, Some, None};
ghost use Rattle.smp_words.specs.Limits.{AreLimits};
ghost use Rattle.smp_multi.specs.Cpu.{IsAt as IsAtStops};
ghost use Rattle.smp_machine.specs.MachineCpu.{IsAt, HasNotLeft, on_there};
ghost use Rattle.smp_machine.specs.Takes.{EntersFront, TakesNext, TakesWork};

use crate::cpu::Cpu;
use crate::machine::Machine;
use crate::machine_cpu::MachineCpu;
use crate::work_queue::Item;
use smp_multi::{StopCpu, StopTable};
use std::alloc::Allocator;
use std::sync::Wait;

/// Enters the stop of a work that was taken: its slot. None where the stop calls this CPU no more.
#[inline(never)]
fn enter_front<A: Allocator>(table: &StopTable<A>, me: &mut StopCpu, item: Item) -> Option<u32>
    requires at { IsAtStops table.now me.old }
    requires limits { AreLimits table.now.nr table.now.setting.online }
    requires outside { me.old.inside ≡ None }
    requires irq { me.old.irq ≡ on_there me.old.inside }
    ensures stops { EntersFront table.now me.old me.new (Some item) result }
    ensures number { me.new.number ≡ me.old.number }
    ensures not_left { HasNotLeft me.new.inside }
    ensures irq { me.new.irq ≡ on_there me.new.inside }
{
    match table.enter(me, item.slot) {
        Ok(_) => Some(item.slot),
        Err(_) => None,
    }
}

/// Takes the front of the own queue and enters its stop.
#[inline(never)]
fn take_front<A: Allocator, R: Wait>(
    machine: &Machine<A>,
    rt: &R,
    me: &mut MachineCpu<A>,
) -> Option<u32>
    requires at { IsAt machine.now me.old }
    requires outside { me.old.stops.inside ≡ None }
    ensures { TakesNext machine.now me.old me.new result }
{
    let item = machine.queues.take(rt, &mut me.passes)?;
    machine.stalls.answers(me.calls.number());
    me.source = item.slot;
    enter_front(&machine.stops, &mut me.stops, item)
}

/// Takes the front of the own queue and enters its stop: the slot of that. None where the queue was empty, and where the
/// stop calls this CPU no more: that work is dropped. It may wait while another CPU is between two steps of a put into
/// this queue.
#[inline(always)]
pub(crate) fn take_next<A: Allocator, R: Wait>(
    machine: &Machine<A>,
    rt: &R,
    me: &mut MachineCpu<A>,
) -> Option<u32>
    requires at { IsAt machine.now me.old }
    requires outside { me.old.stops.inside ≡ None }
    ensures { TakesNext machine.now me.old me.new result }
{
    if machine.queues.is_empty(&mut me.passes) {
        return None;
    }
    take_front(machine, rt, me)
}

/// Takes the next work unless one is in hand. Returns whether one is in hand afterwards.
#[inline(always)]
pub(crate) fn take_work<A: Allocator, R: Wait>(
    machine: &Machine<A>,
    rt: &R,
    me: &mut MachineCpu<A>,
) -> bool
    requires at { IsAt machine.now me.old }
    ensures { TakesWork machine.now me.old me.new result }
{
    me.in_hand() || take_next(machine, rt, me).is_some()
}

impl<A: Allocator> Machine<A> {
    /// Where no work is in hand, takes the front of the CPU's own queue and enters its stop
    /// (`kernel/stop_machine.c: cpu_stopper_thread`); a work whose stop calls the CPU no more is dropped. True where a work is
    /// in hand afterwards.
    ///
    /// The front is taken at the compare-exchange of the queue's head, and entered at the fetch_and that takes the CPU's bit
    /// from its roll; an empty queue is only looked at. It may wait while another CPU is between two steps of a put into
    /// this queue. That it finds a work that is there is not promised.
    pub fn take_work<R: Wait>(&self, rt: &R, me: &mut Cpu<A>) -> bool
        requires at { IsAt self.now me.old }
        ensures { TakesWork self.now me.old me.new result }
    {
        take_work(self, rt, &mut me.place)
    }
}
