//! The CPUs of a machine.

ghost use Rattle.std.specs.Prelude.{◌≡◌, IfOk};
ghost use Rattle.smp_machine.specs.Seats.{IsSameSeat};
ghost use Rattle.load.specs.Ends.{AreFirst};

use smp_machine::Seat;
use smp_mask::{CpuMask, SmpError};
use smp_multi::StopFunc;
use smp_queue::Handler;
use std::alloc::Global;
use std::sync::Wait;

/// This number of CPUs, from 0 on.
pub fn first_cpus(count: u32) -> Result<CpuMask, SmpError>
    ensures { IfOk result (λ mask. AreFirst count mask) }
{
    let mut mask = CpuMask::empty();
    for number in 0..count {
        mask = mask.with(number)?;
    }
    Ok(mask)
}

/// Handles and turns; then runs a work of the CPU's queue, if there is one: whether there was.
pub fn turn_and_poll<R: Wait, H: Handler + Drop, F: StopFunc + Drop>(
    seat: &mut Seat<'_, Global, R, H, F>,
) -> bool
    ensures { IsSameSeat seat.old seat.new }
{
    seat.turn();
    let taken = seat.take_work();
    if taken {
        seat.poll();
    }
    taken
}
