//! A CPU makes the patch of its stop, and acknowledges `RUN` (`kernel/jump_label.c: jump_label_update`).

ghost use Rattle.std.specs.Prelude.{◌≡◌, ◌+◌, ◌<◌, ℕ, false, length, slice_index};
ghost use Rattle.smp_labels.specs.Entries.{IsEntryWord};
ghost use Rattle.smp_labels.specs.Keys.{change_of};
ghost use Rattle.smp_labels.specs.Plans.{plan_of};
ghost use Rattle.smp_labels.specs.declared.words.TheConstants.{MOST_KEYS, MOST_SITES};
ghost use Rattle.smp_stop_steps.specs.Threads.Known.{stepped};
ghost use Rattle.smp_multi.specs.Lives.{Lives, StopMoment};
ghost use Rattle.smp_stop_steps.specs.Labels.{answer_for as answer_of_patch};
ghost use Rattle.smp_stop_steps.specs.Stages.{visit_acked};
ghost use Rattle.smp_multi.specs.Names.{Key, Patch, Rests};
ghost use Rattle.smp_multi.specs.Cells.{cells};
ghost use Rattle.smp_multi.specs.Patches.{AtPatch, IsInPatch, begins_with, entries_in};
ghost use Rattle.smp_multi.specs.Places.{work_in};
ghost use Rattle.smp_multi.specs.Rounds.{AloneWhile, AtRun, AtTurn};
ghost use Rattle.smp_multi.specs.StepCounts.{loading, patching};
ghost use Rattle.smp_multi.specs.Turns.{patched_by};

use crate::round::pass;
use crate::seat::patch_steps::{acknowledge_patch, store_plan};
use crate::seat::{SharedStopWords, StopSeat, load};
use arrayvec::ArrayVec;
use smp_labels::{Change, Entry, MOST_CHANGES, MOST_SITES, Place, is_on, kind_of};
use smp_stop_steps::stage::Visit;
use smp_words::field::Field;
use smp_words::word::Word;

/// Loads the key and the change of the patch.
fn load_change(words: SharedStopWords<'_>, seat: &mut StopSeat, visit: Visit) -> (u32, Change)
    requires { AtRun words.shared.now.table_id seat.old visit Patch }
    ensures at { AtRun words.entry.shared.now.table_id seat.new visit Patch }
    ensures lives { Lives seat.new.known }
    ensures known { seat.new.known ≡ stepped 2 seat.old.known }
    ensures key { result.0 ≡ (work_in seat.old.known.seat).func }
    ensures low { result.0 < MOST_KEYS }
    ensures change { result.1 ≡ change_of (work_in seat.old.known.seat).arg }
{
    let key = load(words, seat, Word::Slot(visit.slot, Field::Func));
    let change = load(words, seat, Word::Slot(visit.slot, Field::Arg));
    (key as u32, Change::from_word(change))
}

/// Loads the key: the patch leads from the count that is found here. From here until the CPU acknowledges the phase,
/// whatever others do, every CPU of the mask has acknowledged disabled interrupts, and has them off.
fn begin_patch(words: SharedStopWords<'_>, seat: &mut StopSeat, visit: Visit, key: u32) -> u64
    requires at { AtRun words.shared.now.table_id seat.old visit Patch }
    requires key { key ≡ (work_in seat.old.known.seat).func }
    requires low { key < MOST_KEYS }
    ensures at { AtPatch words.entry.shared.now.table_id seat.new visit }
    ensures lives { Lives seat.new.known }
    ensures alone { AloneWhile seat.new.known visit.slot }
    ensures then { StopMoment seat.old.known (Key key) result }
    ensures known { seat.new.known ≡ stepped 1 (begins_with result seat.old.known.seat seat.old.known) }
{
    load(words, seat, Word::Key(key))
}

/// Loads the entry of a site.
fn load_entry(words: SharedStopWords<'_>, seat: &mut StopSeat, site: u32) -> u64
    requires table { seat.old.table ≡ words.shared.now.table_id }
    requires sized { words.shared.now.table_id.words ≡ cells }
    requires inside { IsInPatch seat.old.known }
    requires low { site < MOST_SITES }
    ensures table { seat.new.table ≡ words.entry.shared.now.table_id }
    ensures lives { Lives seat.new.known }
    ensures known { seat.new.known ≡ stepped 1 seat.old.known }
    ensures word { result ≡ slice_index (entries_in seat.old.known) site }
    ensures form { IsEntryWord result }
{
    load(words, seat, Word::Entry(site))
}

/// The stores that lead from one count of a key to another: none where they are the same, the key's alone where it stays
/// on, else those of its sites too, for which it loads the entries.
fn load_plan(
    words: SharedStopWords<'_>,
    seat: &mut StopSeat,
    key: u32,
    count: u64,
    next: u64,
) -> ArrayVec<(Place, u64), MOST_CHANGES>
    requires table { seat.old.table ≡ words.shared.now.table_id }
    requires sized { words.shared.now.table_id.words ≡ cells }
    requires inside { IsInPatch seat.old.known }
    requires lives { Lives seat.old.known }
    ensures table { seat.new.table ≡ words.entry.shared.now.table_id }
    ensures lives { Lives seat.new.known }
    ensures known { seat.new.known ≡ stepped (loading count next (length (entries_in seat.old.known))) seat.old.known }
    ensures plan { result.items ≡ plan_of key count next (entries_in seat.old.known) }
{
    let mut plan = ArrayVec::new();
    if count == next {
        return plan;
    }
    plan.push((Place::Key(key), next));
    if is_on(next) == is_on(count) {
        return plan;
    }
    for site in 0..MOST_SITES as u32 {
        let word = load_entry(words, seat, site);
        let Some(entry) = Entry::from_word(word) else {
            return plan;
        };
        if entry.key == key {
            let kind = kind_of(is_on(next), entry.branch);
            plan.push((Place::Site(site), kind.word()));
        }
    }
    plan
}

/// What a patch answers: 1 where the count is at the end of its range, so that there is no next one.
fn answer_for(next: Option<u64>) -> u64
    ensures { result ≡ answer_of_patch next }
{
    match next {
        None => 1,
        Some(_) => 0,
    }
}

/// Makes the patch of a stop, acknowledges `RUN`, and stores the next phase as the last. It answers 1 where the key's
/// count is at the end of its range, so that nothing is stored, else 0.
///
/// The patch stores while the phase is `RUN`. Every other CPU has acknowledged `DISABLE_IRQ` by then, and waits for the phase
/// behind `RUN`. So no CPU reads a site whose key has changed while the site has not.
pub(crate) fn patch_on(words: SharedStopWords<'_>, seat: &mut StopSeat, visit: Visit) -> Visit
    requires { AtRun words.shared.now.table_id seat.old visit Patch }
    ensures at { AtTurn words.entry.shared.now.table_id seat.new result result.acked Rests }
    ensures lives { Lives seat.new.known }
    ensures patched { (count : ℕ) × StopMoment (stepped 2 seat.old.known) (Key (work_in seat.old.known.seat).func) count
        × (seat.new.known ≡ stepped (4 + patching seat.old.known.setting (work_in seat.old.known.seat) count)
        (patched_by count seat.old.known.seat seat.old.known))
        × (result ≡ visit_acked visit 0 false) }
{
    let (key, change) = load_change(words, seat, visit);
    let count = begin_patch(words, seat, visit, key);
    let next = change.count_after(count);
    let plan = load_plan(words, seat, key, count, next.unwrap_or(count));
    store_plan(words, seat, visit, &plan);
    let found = acknowledge_patch(words, seat, visit, answer_for(next));
    let visit = visit.acknowledged(0, false);
    pass(words, seat, visit, found);
    visit
}
