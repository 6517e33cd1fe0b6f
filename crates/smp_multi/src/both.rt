//! Two CPUs of one table, at one moment.

ghost use Rattle.std.specs.Prelude.{◌≡◌};
ghost use Rattle.smp_multi.specs.Together.{AreTogether, AreInStep, WaitsFor};

use crate::cpu::StopCpu;
use crate::seat::together;
use crate::table::StopTable;
use std::alloc::Allocator;

impl<A: Allocator> StopTable<A> {
    /// Two CPUs at one moment, whatever other threads do: their values are their parts of the same stops, to which steps that the
    /// CPUs may make lead from no stop begun (`same`). In the stop of one source they have the same work, and neither has
    /// acknowledged more than one phase more than the other (`step`). While the one is in the stop of the other, the other has
    /// this work pending (`waits`).
    ///
    /// It makes no step and does not wait, and nobody must poll.
    pub fn together(&self, one: &mut StopCpu, other: &mut StopCpu)
        requires { (one.old.table ≡ self.now.table) × (other.old.table ≡ self.now.table) }
        ensures kept { (one.new ≡ one.old) × (other.new ≡ other.old) }
        ensures same { AreTogether one.old other.old }
        ensures step { AreInStep one.old other.old }
        ensures waits { WaitsFor one.old other.old × WaitsFor other.old one.old }
    {
        together(self.owner.words(), &mut one.seat, &mut other.seat);
    }
}
