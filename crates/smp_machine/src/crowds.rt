//! CPUs of one machine, all at one moment.

ghost use Rattle.std.specs.Prelude.{◌≡◌};
ghost use Rattle.smp_queue.specs.Together.{AreAllTogether as CallsAllTogether, values as calls_in};
ghost use Rattle.smp_multi.specs.Together.{AreAllTogether as StopsAllTogether, values as stops_in};
ghost use Rattle.smp_machine.specs.Crowds.{AreAt, calls_of, stops_of, in_order};

use crate::cpu::Cpu;
use crate::machine::Machine;
use smp_multi::StopCrowd;
use smp_queue::CallCrowd;
use std::alloc::Allocator;

/// Takes these CPUs into both crowds, looks at all of them, and gives them back. It makes no step.
pub(crate) fn meet<A: Allocator>(
    machine: &Machine<A>,
    calls: &mut CallCrowd,
    stops: &mut StopCrowd,
    cpus: &mut [Cpu<A>],
)
    requires tables { (calls.old.table ≡ machine.now.calls.table) × (stops.old.table ≡ machine.now.stops.table) }
    requires at { AreAt machine.now cpus.old }
    ensures crowds { (calls.new ≡ calls.old) × (stops.new ≡ stops.old) }
    ensures kept { cpus.new ≡ cpus.old }
    ensures calls { CallsAllTogether (in_order (calls_in calls.old.cpus) (calls_of cpus.old)) }
    ensures stops { StopsAllTogether (in_order (stops_in stops.old.cpus) (stops_of cpus.old)) }
{
    match cpus.split_first_mut() {
        Some((first, rest)) => {
            calls.take(&mut first.place.calls);
            stops.take(&mut first.place.stops);
            meet(machine, calls, stops, rest);
            stops.give(&mut first.place.stops);
            calls.give(&mut first.place.calls);
        }
        None => {
            machine.calls.all_together(calls);
            machine.stops.all_together(stops);
        }
    }
}
