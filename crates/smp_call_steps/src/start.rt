//! When a command of the call half may start, and where it begins.

ghost use Rattle.std.specs.Prelude.{◌≡◌, ◌<◌, ◌-◌, ◌^◌};
ghost use Rattle.smp_mask.specs.Mask.{has};
ghost use Rattle.smp_words.specs.Size.{cpus};
ghost use Rattle.smp_call_steps.specs.Start.{command_refusal, first_stage as stage_at_first, fits_record as record_fits, has_record as has_record_in};
ghost use Rattle.smp_call_steps.specs.Start.{NamesRecord};
ghost use Rattle.smp_words.specs.Commands.{FitsCommand};

use crate::handle::HandleStage;
use crate::post::{PostStage, Posting};
use crate::stage::Stage;
use smp_mask::{CpuMask, SmpError};
use smp_words::call::Class;
use smp_words::command::Command;
use smp_words::size::{FIRST_OF_ONE, RECORDS_OF_ONE, USER, record_of};

/// The own refusal of a command of the call half where there are `nr` CPUs; none where it may start on this
/// CPU, and for a command of the stop half.
pub fn refusal(command: &Command, nr: u32, online: CpuMask, cpu: u32) -> Option<SmpError>
    ensures { result ≡ command_refusal nr online cpu command.now }
{
    let is_good = match *command {
        Command::Post(k, to, class, _, _, tries) => {
            k < RECORDS_OF_ONE && tries != 0 && to != cpu && fits_record(nr, k, to, class)
        }
        Command::Done(k) => has_record(nr, k),
        Command::Send(to) => {
            return if online.contains(to) {
                None
            } else {
                Some(SmpError::NoCpu)
            };
        }
        _ => true,
    };
    if is_good {
        None
    } else {
        Some(SmpError::BadArgument)
    }
}

/// Where a command of the call half begins that may start; none for one of the stop half.
pub fn first_stage(command: &Command, online: CpuMask, cpu: u32) -> Option<Stage>
    requires known { cpu < cpus }
    requires record { NamesRecord command.now }
    ensures { result ≡ stage_at_first online cpu command.now }
{
    match *command {
        Command::Post(k, to, class, func, info, tries) => {
            let posting = Posting {
                id: record_of(cpu, k),
                to,
                is_online: online.contains(to),
                class,
                func,
                info,
                tries,
            };
            Some(Stage::Post(posting, PostStage::LoadFlags))
        }
        Command::Send(to) => Some(Stage::Send(to)),
        Command::Done(k) => Some(Stage::Done(record_of(cpu, k))),
        Command::Handle => Some(Stage::Handle(HandleStage::Enter)),
        _ => None,
    }
}

/// Whether a source's record `k` may carry a call of this class to this CPU: record 0 carries SYNC calls, 1 and
/// the user's two ASYNC calls, the others calls of either class to one of the `nr` CPUs each.
pub fn fits_record(nr: u32, k: u32, to: u32, class: Class) -> bool
    ensures { result ≡ record_fits nr k to class }
{
    if k == 0 {
        class == Class::Sync
    } else if k == 1 || USER <= k && k < FIRST_OF_ONE {
        class == Class::Async
    } else if k < USER {
        k - 2 == to
    } else {
        k - 4 == to && to < nr
    }
}

/// Whether a source has a record `k` where there are `nr` CPUs: a further record is of a CPU that there is.
pub fn has_record(nr: u32, k: u32) -> bool
    ensures { result ≡ has_record_in nr k }
{
    k < FIRST_OF_ONE || k < RECORDS_OF_ONE && k - 4 < nr
}
