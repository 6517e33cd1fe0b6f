//! Two CPUs of one table, at one moment.

ghost use Rattle.std.specs.Prelude.{◌≡◌};
ghost use Rattle.smp_queue.specs.Together.{AreTogether, RunsWhatIsSent};

use crate::cpu::CallCpu;
use crate::seat::together;
use crate::table::CallTable;
use std::alloc::Allocator;

impl<A: Allocator> CallTable<A> {
    /// Two CPUs at one moment, whatever other threads do: their values are their parts of the same calls, to which steps that
    /// the CPUs may make lead from nothing called (`same`). In each class, the calls of the one that have begun on the other are
    /// the first of those that the one has sent to it (`runs`).
    ///
    /// It makes no step and does not wait, and nobody must poll.
    pub fn together(&self, one: &mut CallCpu, other: &mut CallCpu)
        requires { (one.old.table ≡ self.now.table) × (other.old.table ≡ self.now.table) }
        ensures kept { (one.new ≡ one.old) × (other.new ≡ other.old) }
        ensures same { AreTogether one.old other.old }
        ensures runs { RunsWhatIsSent one.old other.old × RunsWhatIsSent other.old one.old }
    {
        together(self.words(), &mut one.seat, &mut other.seat);
    }
}
