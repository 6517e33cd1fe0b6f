//! The works of patches.

ghost use Rattle.std.specs.Prelude.{◌≡◌, ◌≢◌, ◌<◌};
ghost use Rattle.smp_machine.specs.Keys.{IsPatchOf, state_of};
ghost use Rattle.smp_machine.specs.Stops.{MayBegin};

use crate::stop_work::first_of;
use smp_labels::Change;
use smp_multi::StopTable;
use smp_words::work::{Kind, Work};
use std::alloc::Allocator;

/// The change that turns a key on or off.
pub(crate) fn state(on: bool) -> Change
    ensures { result ≡ state_of on }
{
    if on { Change::On } else { Change::Off }
}

/// The work of a patch that makes this change of a key.
pub(crate) fn patch_work<A: Allocator>(table: &StopTable<A>, k: u32, change: Change) -> Work
    requires { k < table.now.setting.labels.keys }
    ensures patch { IsPatchOf table.now k change result }
    ensures begins { MayBegin table.now result }
    ensures several { result.kind ≢ Kind.One }
{
    // There are few keys.
    let _keys = table.keys();
    let mask = table.online();
    Work {
        kind: Kind::Patch,
        mask,
        active: first_of(mask),
        func: k as u16,
        arg: change.word(),
    }
}
