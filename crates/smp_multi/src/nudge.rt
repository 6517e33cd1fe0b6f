//! A CPU with its interrupts on moves a key's count by one, where the key stays on
//! (`kernel/jump_label.c`: the loop of `static_key_slow_inc_cpuslocked`, `static_key_slow_try_dec`).

ghost use Rattle.std.specs.Prelude.{◌≡◌, ℕ, ◌<◌, ◌==◌, if◌then◌else◌};
ghost use Rattle.smp_labels.specs.declared.words.TheConstants.{MOST_KEYS};
ghost use Rattle.smp_stop_steps.specs.Threads.Known.{stepped};
ghost use Rattle.smp_multi.specs.Lives.{Lives, StopMoment};
ghost use Rattle.smp_stop_steps.specs.Threads.KnownAfter.{counted};
ghost use Rattle.smp_stop_steps.specs.Sits.{IsNudge};
ghost use Rattle.smp_stop_steps.specs.Stages.{nudge_of};
ghost use Rattle.smp_multi.specs.Names.{Key};
ghost use Rattle.smp_multi.specs.Nudges.{NudgeKnown, lost_known};
ghost use Rattle.smp_multi.specs.Reads.{MayRead};

use crate::read::load_count;
use crate::seat::{SharedStopWords, StopSeat, exchange};
use smp_labels::{Change, is_on};
use smp_mask::SmpError;
use smp_words::word::Word;

/// How a nudge of a key's count went.
#[derive(Clone, Copy, Debug, PartialEq, Eq)]
pub enum Nudge {
    /// The count has gone up or down by one.
    Done,
    /// Another CPU has changed it meanwhile.
    Lost,
    /// The key would turn on or off, which takes a stop.
    Stop,
}

/// The change that a nudge makes.
fn change_of(up: bool) -> Change
    ensures { result ≡ nudge_of up }
{
    if up { Change::Up } else { Change::Down }
}

/// Puts another count in a key's word, where this one is found: whether it was.
fn exchange_count(
    words: SharedStopWords<'_>,
    seat: &mut StopSeat,
    k: u32,
    count: u64,
    next: u64,
) -> bool
    requires at { MayRead words.shared.now.table_id seat.old }
    requires low { k < MOST_KEYS }
    requires nudge { IsNudge count next }
    ensures table { seat.new.table ≡ words.entry.shared.now.table_id }
    ensures lives { Lives seat.new.known }
    ensures known { seat.new.known ≡ if result then stepped 1 (record (seat.old.known) {
      part = record (seat.old.known.part) {
        nudged = counted seat.old.known.part.nudged k count next;
      };
    }) else lost_known k seat.old.known }
    ensures then { (found : ℕ) × StopMoment seat.old.known (Key k) found × (result ≡ (found == count)) }
{
    exchange(words, seat, Word::Key(k), count, next) == count
}

/// Moves a key's count up or down by one.
pub(crate) fn try_key(
    words: SharedStopWords<'_>,
    seat: &mut StopSeat,
    k: u32,
    up: bool,
) -> Result<Nudge, SmpError>
    requires at { MayRead words.shared.now.table_id seat.old }
    requires low { k < MOST_KEYS }
    ensures table { seat.new.table ≡ words.entry.shared.now.table_id }
    ensures lives { Lives seat.new.known }
    ensures known { NudgeKnown k up seat.old.known seat.new.known result }
{
    let change = change_of(up);
    let count = load_count(words, seat, k);
    let Some(next) = change.count_after(count) else {
        return Err(SmpError::KeyRange(change.edge()));
    };
    if is_on(next) != is_on(count) {
        return Ok(Nudge::Stop);
    }
    if exchange_count(words, seat, k, count, next) {
        Ok(Nudge::Done)
    } else {
        Ok(Nudge::Lost)
    }
}
