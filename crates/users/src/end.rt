//! How a program ends: one of its CPUs closes the machine, and all calls that were queued have run.

ghost use Rattle.users.specs.Ends.{AreAt};

use smp_machine::{Machine, Played};
use smp_mask::SmpError;
use smp_multi::StopFunc;
use smp_queue::{Audit, Handler};
use std::alloc::Global;

/// Shuts the machine down by one of its CPUs: how many calls have run. E2 (`SmpError::Busy`) where calls are left.
pub fn calls_run<H: Handler + Drop, F: StopFunc + Drop>(
    machine: Machine<Global>,
    mut played: Vec<Played<H, F, Global>, Global>,
) -> Result<u64, SmpError>
    requires { AreAt machine played.items }
{
    let Some(last) = played.pop() else {
        return Err(SmpError::NoCpu);
    };
    let Audit::Drained(tally) = machine.shutdown(last.cpu) else {
        return Err(SmpError::Busy);
    };
    let mut sum = 0u64;
    for row in &tally.ran {
        for ran in row {
            sum = sum.wrapping_add(*ran);
        }
    }
    Ok(sum)
}
