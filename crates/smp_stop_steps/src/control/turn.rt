//! A CPU's turn in a stop: what it does next, by the word that its last step found.

ghost use Rattle.std.specs.Prelude.{◌≡◌, ◌<◌, true, Some, None, []};
ghost use Rattle.smp_labels.specs.Keys.{count_after};
ghost use Rattle.smp_stop_steps.specs.Stages.{acked_on, entry_on, key_on, looked_on, round_outcome, stop_goes};
ghost use Rattle.smp_stop_steps.specs.Stages.{turn_ends, FitsRound};

use super::StopControl;
use crate::mask::has_bit;
use crate::stage::{RoundStage, StopStage, Visit};
use smp_labels::{Change, Entry, MOST_SITES, Place, is_on, kind_of};
use smp_words::phase::{DISABLE_IRQ, EXIT, RUN};
use smp_words::seen::Note;
use smp_words::work::Kind;

/// The load of a site's entry in the patch of a key.
#[derive(Clone, Copy)]
struct EntryLoad {
    key: u16,
    /// The key's new count.
    word: u64,
    site: u32,
}

impl StopControl {
    /// What follows a step of a turn.
    pub(super) fn advance_round(
        &mut self,
        me: u32,
        visit: Visit,
        stage: RoundStage,
        found: u64,
    ) -> Option<Note>
        requires cpu { me < 64 }
        requires fits { FitsRound self.old visit stage found }
        ensures note { result ≡ (round_outcome me self.old visit stage found).note }
        ensures control { self.new ≡ (round_outcome me self.old visit stage found).control }
    {
        match stage {
            RoundStage::Look { answer } => {
                if found == u64::from(visit.acked) {
                    self.end(Note::Same)
                } else {
                    self.look_on(me, visit, answer, found)
                }
            }
            RoundStage::LoadFunc { answer } => {
                let func = found as u16;
                self.go_on(StopStage::Advance(visit, RoundStage::LoadArg { answer, func }))
            }
            RoundStage::LoadArg { answer, func } => self.arg_on(visit, answer, func, found),
            RoundStage::LoadKey { key, change } => self.key_on(visit, key, change, found),
            RoundStage::LoadEntry { key, word, site } => {
                self.entry_on(visit, EntryLoad { key, word, site }, found)
            }
            RoundStage::StoreChange { made } => self.stored_on(visit, made),
            RoundStage::Acknowledge { answer, ran } => {
                self.ack_on(visit.acknowledged(answer, ran), ran, found)
            }
            RoundStage::Refill { ran } => {
                self.go_on(StopStage::Advance(visit, RoundStage::Raise { ran }))
            }
            RoundStage::Raise { ran } => self.end_turn(visit.acked, ran),
        }
    }

    /// A new phase was looked at.
    fn look_on(&mut self, me: u32, visit: Visit, answer: u64, phase: u64) -> Option<Note>
        requires { me < 64 }
        ensures note { result ≡ (looked_on me self.old visit answer phase).note }
        ensures control { self.new ≡ (looked_on me self.old visit answer phase).control }
    {
        if phase == u64::from(DISABLE_IRQ) {
            self.interrupts = false;
        }
        let next = if phase == u64::from(RUN) && has_bit(visit.active, me) {
            RoundStage::LoadFunc { answer }
        } else {
            RoundStage::Acknowledge { answer, ran: false }
        };
        self.go_on(StopStage::Advance(visit, next))
    }

    /// The phase is acknowledged.
    fn ack_on(&mut self, visit: Visit, ran: bool, found: u64) -> Option<Note>
        ensures note { result ≡ (acked_on self.old visit ran found).note }
        ensures control { self.new ≡ (acked_on self.old visit ran found).control }
    {
        self.visit = Some(visit);
        if found == 1 {
            self.go_on(StopStage::Advance(visit, RoundStage::Refill { ran }))
        } else {
            self.end_turn(visit.acked, ran)
        }
    }

    /// A turn ends, with this phase acknowledged.
    fn end_turn(&mut self, phase: u32, ran: bool) -> Option<Note>
        ensures note { result ≡ (turn_ends self.old phase ran).note }
        ensures control { self.new ≡ (turn_ends self.old phase ran).control }
    {
        if phase == EXIT {
            self.interrupts = true;
            return self.end(Note::Left);
        }
        self.end(if ran { Note::Ran } else { Note::Moved(phase) })
    }

    /// The argument was loaded: a function runs now, or a patch begins.
    fn arg_on(&mut self, visit: Visit, answer: u64, func: u16, found: u64) -> Option<Note>
        ensures note { result ≡ (round_outcome 0 self.old visit (RoundStage.LoadArg answer func) found).note }
        ensures control { self.new ≡ (round_outcome 0 self.old visit (RoundStage.LoadArg answer func) found).control }
    {
        if visit.kind == Kind::Multi {
            let next = RoundStage::Acknowledge { answer, ran: true };
            self.stage = Some(StopStage::Advance(visit, next));
            return Some(Note::Run(func, found));
        }
        let next = RoundStage::LoadKey {
            key: func,
            change: Change::from_word(found),
        };
        self.go_on(StopStage::Advance(visit, next))
    }

    /// The first load of a patch. Where the count is at the end of its range nothing is stored, and the answer is 1;
    /// else the count is stored where it changes, and the entries are loaded first where the key goes on or off.
    fn key_on(&mut self, visit: Visit, key: u16, change: Change, found: u64) -> Option<Note>
        ensures note { result ≡ (round_outcome 0 self.old visit (RoundStage.LoadKey key change) found).note }
        ensures control { self.new ≡ (round_outcome 0 self.old visit (RoundStage.LoadKey key change) found).control }
    {
        self.changes.clear();
        let next = match change.count_after(found) {
            None => RoundStage::Acknowledge {
                answer: 1,
                ran: true,
            },
            Some(word) => self.count_on(key, word, found),
        };
        self.go_on(StopStage::Advance(visit, next))
    }

    /// The step of a patch after the load of its key's count, which is to be this word.
    fn count_on(&mut self, key: u16, word: u64, found: u64) -> RoundStage
        requires { self.old.changes ≡ [] }
        ensures stage { (visit : Visit) → (stop_goes self.new (StopStage.Advance visit result)).control ≡
            (key_on self.old visit key found (Some word)).control }
        ensures same { (visit : Visit) → None ≡ (key_on self.old visit key found (Some word)).note }
    {
        if found == word {
            return RoundStage::Acknowledge {
                answer: 0,
                ran: true,
            };
        }
        self.changes.push((Place::Key(u32::from(key)), word));
        if is_on(found) == is_on(word) {
            RoundStage::StoreChange { made: 0 }
        } else {
            RoundStage::LoadEntry { key, word, site: 0 }
        }
    }

    /// An entry was loaded: the change of its site, where that is of the key, and then the next entry or the stores.
    fn entry_on(&mut self, visit: Visit, load: EntryLoad, found: u64) -> Option<Note>
        requires { FitsRound self.old visit (RoundStage.LoadEntry load.key load.word load.site) found }
        ensures note { result ≡ (entry_on self.old visit load.key load.word load.site found).note }
        ensures control { self.new ≡ (entry_on self.old visit load.key load.word load.site found).control }
    {
        let EntryLoad { key, word, site } = load;
        if let Some(entry) = Entry::from_word(found)
            && entry.key == u32::from(key)
        {
            let number = kind_of(is_on(word), entry.branch).word();
            self.changes.push((Place::Site(site), number));
        }
        let next = if found == 0 || site as usize + 1 == MOST_SITES {
            RoundStage::StoreChange { made: 0 }
        } else {
            RoundStage::LoadEntry {
                key,
                word,
                site: site + 1,
            }
        };
        self.go_on(StopStage::Advance(visit, next))
    }

    /// A store of the patch was made.
    fn stored_on(&mut self, visit: Visit, made: u32) -> Option<Note>
        requires { FitsRound self.old visit (RoundStage.StoreChange made) 0 }
        ensures note { result ≡ (round_outcome 0 self.old visit (RoundStage.StoreChange made) 0).note }
        ensures control { self.new ≡ (round_outcome 0 self.old visit (RoundStage.StoreChange made) 0).control }
    {
        let next = if made as usize + 1 == self.changes.len() {
            RoundStage::Acknowledge {
                answer: 0,
                ran: true,
            }
        } else {
            RoundStage::StoreChange { made: made + 1 }
        };
        self.go_on(StopStage::Advance(visit, next))
    }
}
