//! A replay, and the run of the model that it is.

ghost use Rattle.std.specs.Prelude.{◌≡◌, ◌⊎◌, ◌↔◌, IfOk, IfErr, IsErrOf};
ghost use Rattle.std.specs.List.{AllByRecursion};
ghost use Rattle.smp_labels.specs.declared.words.LabelWords.{LabelWords};
ghost use Rattle.smp_core.specs.New.{new_core};
ghost use Rattle.smp_core.specs.Runs.{IsReplay};
ghost use Rattle.trace_model.specs.declared.without.Setting.{Setting};
ghost use Rattle.smp_words.specs.Limits.{AreLimits};
ghost use Rattle.trace_laws.specs.AcceptedReplays.{AreWordsOf, CallsAreAccepted, Fits, FitsCpus, IsAccepted, IsOf};

use smp_core::events::{Replayed, replay};
use smp_core::machine::Core;
use smp_labels::LabelMap;
use smp_mask::{CpuMask, SmpError};
use smp_words::command::Event;
use std::alloc::Allocator;

/// Replays these events on a new machine, up to the first that is refused. All events that its steps tell are accepted, and so are
/// those of calls alone. E4 (`SmpError::BadArgument`) exactly where the limits of the machine are broken, and E6
/// (`SmpError::NoMemory`) where a growth is refused.
pub fn replay_accepted<A: Allocator + Copy>(
    alloc: A,
    nr: u32,
    online: CpuMask,
    labels: &LabelMap,
    events: &[Event],
) -> Result<Replayed<A>, SmpError>
    ensures run { IfOk result (λ r. IsReplay (new_core nr online labels.now) events.now r.core r.seen.items r.stopped) }
    ensures accepted { IfOk result (λ r. (u : Setting) (words : LabelWords) → AllByRecursion FitsCpus events.now → IsOf u online →
        AreWordsOf u words (new_core nr online labels.now).stops → IsAccepted u words r.seen.items r.core) }
    ensures calls { IfOk result (λ r. (u : Setting) (words : LabelWords) → AllByRecursion Fits events.now → IsOf u online →
        CallsAreAccepted u words r.seen.items r.core) }
    ensures refused { IsErrOf result SmpError.BadArgument ↔ (¬ (AreLimits nr online)) }
    ensures only { IfErr result (λ e. (e ≡ SmpError.BadArgument) ⊎ (e ≡ SmpError.NoMemory)) }
{
    let core = Core::with_labels(alloc, nr, online, labels)?;
    core.is_whole();
    replay(alloc, core, events)
}
