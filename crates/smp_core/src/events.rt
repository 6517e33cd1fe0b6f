//! A list of events, one after the other.

ghost use Rattle.std.specs.Prelude.{◌≡◌, ◌++◌, IfOk, IfErr, OnOk, OnErr};
ghost use Rattle.smp_call_steps.specs.Calls.{CallState, tells_all};
ghost use Rattle.smp_call_steps.specs.Functions.{SaysWhatBegins};
ghost use Rattle.smp_core.specs.Value.{Shown};
ghost use Rattle.smp_core.specs.Offline.{AreIdle};
ghost use Rattle.smp_core.specs.OfflineStops.{AreInNoStop};
ghost use Rattle.smp_core.specs.Runs.{IsReplay};
ghost use Rattle.smp_core.specs.Replay.{answers_from, seen_list};
ghost use Rattle.smp_core.specs.Machine.{setup_in};
ghost use Rattle.smp_stop_steps.specs.Notes.{AllNotesFit};
ghost use Rattle.smp_stop_steps.specs.State.{StopState};
ghost use Rattle.smp_stop_steps.specs.Tells.{tells_all as tells_stops};
ghost use Rattle.smp_stop_steps.specs.Value.{StopShown};

use crate::machine::Core;
use smp_mask::SmpError;
use smp_words::command::Event;
use smp_words::seen::Seen;
use std::alloc::Allocator;

/// What a replay leaves: the core, the steps that were made, and where an event was refused its position, from
/// 0, and why.
#[derive(Drop)]
pub struct Replayed<A: Allocator> {
    pub core: Core<A>,
    pub seen: Vec<Seen, A>,
    pub stopped: Option<(usize, SmpError)>,
}

/// Runs the events one after the other, up to the first that is refused. CPUs that are not online do nothing in them. E6
/// where a growth is refused.
pub fn replay<A: Allocator>(
    alloc: A,
    mut core: Core<A>,
    events: &[Event],
) -> Result<Replayed<A>, SmpError>
    ensures run { IfOk result (λ r. IsReplay core events.now r.core r.seen.items r.stopped) }
    ensures told { IfOk result (λ r. (calls : CallState) → Shown calls core → Shown (tells_all calls r.seen.items) r.core) }
    ensures said { IfOk result (λ r. (calls : CallState) → Shown calls core → SaysWhatBegins calls r.seen.items (tells_all calls r.seen.items)) }
    ensures stops { IfOk result (λ r. (p : StopState) → StopShown p core.stops →
        StopShown (tells_stops (setup_in core) p r.seen.items (answers_from core events.now)) r.core.stops) }
    ensures stop_notes { IfOk result (λ r. (p : StopState) → StopShown p core.stops →
        AllNotesFit (setup_in core) p r.seen.items (answers_from core events.now)) }
    // CPUs that are not online do nothing: where they had done nothing, as at first, so they have in all that is told.
    ensures offline { IfOk result (λ r. (calls : CallState) → Shown calls core → AreIdle core.online calls →
        AreIdle core.online (tells_all calls r.seen.items)) }
    ensures offline_stops { IfOk result (λ r. (p : StopState) → StopShown p core.stops → AreInNoStop core.online p →
        AreInNoStop core.online (tells_stops (setup_in core) p r.seen.items (answers_from core events.now))) }
    ensures err { IfErr result (λ e. e ≡ SmpError.NoMemory) }
{
    let mut seen = Vec::new(alloc);
    for (position, event) in events.iter().enumerate() {
        core.is_whole();
        match core.apply(*event) {
            Ok(step) => note_step(&mut seen, step)?,
            Err(error) => {
                return Ok(Replayed {
                    core,
                    seen,
                    stopped: Some((position, error)),
                });
            }
        }
    }
    core.is_whole();
    Ok(Replayed {
        core,
        seen,
        stopped: None,
    })
}

fn note_step<A: Allocator>(seen: &mut Vec<Seen, A>, step: Option<Seen>) -> Result<(), SmpError>
    ensures ok { OnOk result (seen.new.items ≡ seen.old.items ++ seen_list step) }
    ensures err { IfErr result (λ e. e ≡ SmpError.NoMemory) }
{
    if let Some(step) = step {
        if seen.push(step).is_err() {
            return Err(SmpError::NoMemory);
        }
    }
    Ok(())
}
