//! One CPU of a machine, inside the crate.

ghost use Rattle.std.specs.Prelude.{◌≡◌, ◌≢◌, ◌<◌, None, true, false};
ghost use Rattle.smp_words.specs.Size.{cpus};
ghost use Rattle.smp_multi.specs.Laws.{StopsAreShown};
ghost use Rattle.smp_machine.specs.MachineCpu.{HasNotLeft, on_there};

use crate::heard_at::HeardAt;
use crate::stoppers::Passes;
use smp_multi::{StopCpu, StopTable};
use smp_queue::CallCpu;
use std::alloc::Allocator;
use std::marker::Model;

/// One CPU: its part of the calls, of the stops and of the queues.
#[derive(Drop)]
pub(crate) struct MachineCpu<A: Allocator> {
    pub(crate) calls: CallCpu,
    pub(crate) stops: StopCpu,
    pub(crate) passes: Passes<A>,
    /// When it looked at its own interrupt word, for clauses alone.
    pub(crate) heard: HeardAt,
    /// The source of the work that it has taken last: the CPU to wake once that is completed.
    pub(crate) source: u32,
}

impl<A: Allocator> Model for MachineCpu<A> {
    ghost use Rattle.smp_machine.specs.MachineCpu.{MachineCpuValue, IsMachineCpu};

    ghost Value = { MachineCpuValue };

    ghost view = { λ p. record { calls = p.calls; stops = p.stops; passes = p.passes; heard_at = p.heard.at } };

    ghost invariant = { λ p. IsMachineCpu (record { calls = p.calls; stops = p.stops; passes = p.passes; heard_at = p.heard.at }) };
}

impl<A: Allocator> MachineCpu<A> {
    /// The CPU's number.
    pub(crate) fn number(&self) -> u32
        ensures number { (result ≡ self.now.calls.number) × (result ≡ self.now.stops.number) × (result ≡ self.now.passes.number) }
        ensures below { result < cpus }
    {
        self.calls.number()
    }

    /// Some words of the stop table show its part of the stops; and it has not left its stop. It makes no step.
    pub(crate) fn is_shown(&self, table: &StopTable<A>)
        ensures shown { StopsAreShown self.now.stops }
        ensures not_left { HasNotLeft self.now.stops.inside }
        ensures irq { self.now.stops.irq ≡ on_there self.now.stops.inside }
    {
        smp_multi::laws::is_shown(table, &self.stops);
    }

    /// Whether a work is in hand. Where none is, interrupts are on.
    pub(crate) fn in_hand(&self) -> bool
        ensures yes { result ≡ true → self.now.stops.inside ≢ None }
        ensures no { result ≡ false → self.now.stops.inside ≡ None }
        ensures on { result ≡ false → self.now.stops.irq ≡ true }
    {
        // Interrupts are on outside a stop.
        let _on = self.stops.interrupts_on();
        self.stops.in_stop()
    }
}
