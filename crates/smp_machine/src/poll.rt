//! A poll: what a CPU does while it waits, and each idle CPU over and over.

ghost use Rattle.std.specs.Prelude.{◌≡◌, ◌∷◌, ◌++◌, true, false, None, []};
ghost use Rattle.smp_machine.specs.Own.{own_of};
ghost use Rattle.smp_machine.specs.MachineCpu.{IsAt};
ghost use Rattle.smp_machine.specs.Polls.{Polls};
ghost use Rattle.smp_machine.specs.Works.{Works, LooksOnceOrMore};

use crate::cpu::Cpu;
use crate::hearing::{set_alarm, wake};
use crate::machine::Machine;
use crate::machine_cpu::MachineCpu;
use crate::take::take_work;
use crate::turn::{finish_work, turn_and_tell};
use smp_multi::StopFunc;
use smp_queue::Handler;
use std::alloc::Allocator;
use std::sync::Wait;

/// A turn; then, where a work can be taken, turns until it is completed. Afterwards no work is in hand. It may wait; the
/// CPUs of the work's mask must poll. It answers false only where no work was in hand, and it has looked for an interrupt and
/// found none, and then has taken no work.
#[tactic(auto, using(crate::proofs::Polls::works_poll))]
pub(crate) fn poll<A: Allocator, R: Wait, H: Handler, F: StopFunc>(
    machine: &Machine<A>,
    rt: &R,
    me: &mut MachineCpu<A>,
    handler: &mut H,
    run: &mut F,
) -> bool
    requires at { IsAt machine.now me.old }
    ensures works { Works H.leads F.leads me.old handler.old run.old me.new handler.new run.new (own_of me.old) }
    ensures polls { Polls H.leads F.leads machine.now me.old handler.old run.old me.new handler.new run.new }
    ensures outside { me.new.stops.inside ≡ None }
    ensures once { me.old.stops.irq ≡ true → LooksOnceOrMore me.old.calls me.new.calls }
    ensures told { result ≡ false → me.new.calls.part.asked ≡ me.old.calls.part.asked ++ false ∷ [] }
{
    let was_in_hand = me.in_hand();
    let (_, interrupted) = turn_and_tell(machine, me, handler, run);
    if take_work(machine, rt, me) {
        finish_work(machine, rt, me, handler, run);
        return true;
    }
    was_in_hand || interrupted
}

/// A poll; then, where that found neither an interrupt nor a work, it sleeps until the CPU's alarm rings.
fn rest<A: Allocator, R: Wait, H: Handler, F: StopFunc>(
    machine: &Machine<A>,
    rt: &R,
    me: &mut MachineCpu<A>,
    handler: &mut H,
    run: &mut F,
)
    requires at { IsAt machine.now me.old }
    ensures works { Works H.leads F.leads me.old handler.old run.old me.new handler.new run.new (own_of me.old) }
    ensures polls { Polls H.leads F.leads machine.now me.old handler.old run.old me.new handler.new run.new }
    ensures outside { me.new.stops.inside ≡ None }
    ensures once { me.old.stops.irq ≡ true → LooksOnceOrMore me.old.calls me.new.calls }
{
    let alarm = set_alarm(machine, me);
    if !poll(machine, rt, me, handler, run) {
        alarm.sleep(rt);
    }
}

impl<A: Allocator> Machine<A> {
    /// A turn, as [`Machine::turn`]; then, where a work can be taken ([`Machine::take_work`]), turns until it is completed.
    /// Afterwards no work is in hand. One poll takes at most one work.
    ///
    /// It takes effect at the steps of these. It may wait: with a stop of several CPUs for the other CPUs of its mask, which
    /// must poll too.
    pub fn poll<R: Wait, H: Handler, F: StopFunc>(
        &self,
        rt: &R,
        me: &mut Cpu<A>,
        handler: &mut H,
        run: &mut F,
    )
        requires at { IsAt self.now me.old }
        ensures works { Works H.leads F.leads me.old handler.old run.old me.new handler.new run.new (own_of me.old) }
        ensures polls { Polls H.leads F.leads self.now me.old handler.old run.old me.new handler.new run.new }
        ensures outside { me.new.stops.inside ≡ None }
        ensures once { me.old.stops.irq ≡ true → LooksOnceOrMore me.old.calls me.new.calls }
    {
        poll(self, rt, &mut me.place, handler, run);
    }

    /// A poll, as [`Machine::poll`]; then, where that found neither an interrupt nor a work, it sleeps until another CPU sends
    /// one to this CPU, or wakes it ([`Machine::wake`]). It is what an idle CPU repeats that is to leave its processor to others
    /// (`kernel/sched/idle.c: do_idle`).
    ///
    /// It takes effect at the steps of a poll, and sleeps behind them. It promises all that a poll promises. That a sleeping
    /// CPU is woken is not promised by a clause. It may wait as a poll does, and it may sleep as long as nothing is for it.
    pub fn rest<R: Wait, H: Handler, F: StopFunc>(
        &self,
        rt: &R,
        me: &mut Cpu<A>,
        handler: &mut H,
        run: &mut F,
    )
        requires at { IsAt self.now me.old }
        ensures works { Works H.leads F.leads me.old handler.old run.old me.new handler.new run.new (own_of me.old) }
        ensures polls { Polls H.leads F.leads self.now me.old handler.old run.old me.new handler.new run.new }
        ensures outside { me.new.stops.inside ≡ None }
        ensures once { me.old.stops.irq ≡ true → LooksOnceOrMore me.old.calls me.new.calls }
    {
        rest(self, rt, &mut me.place, handler, run);
    }

    /// Wakes a CPU that sleeps, in [`Machine::rest`] or while it waits, and does nothing where it is awake. A CPU that looks at
    /// something else and then rests can miss it in between. So what it is to see beside its interrupts and works, as the end of
    /// a program, is told by a call, which stays pending. It makes no step, and does not wait.
    pub fn wake(&self, cpu: u32) {
        wake(self, cpu);
    }
}
