//! When a command of the stop half may start, and where it begins.

ghost use Rattle.std.specs.Prelude.{◌≡◌};
ghost use Rattle.smp_stop_steps.specs.Start.{begin_refusal as refusal_of_begin, fits_patch as is_fit_patch};
ghost use Rattle.smp_stop_steps.specs.Start.{fits_work as is_fit_work, may_advance as can_advance};
ghost use Rattle.smp_stop_steps.specs.Start.{may_finish as can_finish, may_run as can_run, refusal_on, stop_first};
ghost use Rattle.smp_stop_steps.specs.Start.{has_slot as has_slot_in, unless as error_unless};
ghost use Rattle.smp_stop_steps.specs.Start.{answer_word as word_of_answer};

use crate::control::StopControl;
use crate::mask::{first_of, mask_word, weight};
use crate::stage::{CompletionStage, RoundStage, StopStage, Visit};
use smp_mask::{CpuMask, SmpError};
use smp_words::command::Command;
use smp_words::field::Field;
use smp_words::phase::EXIT;
use smp_words::size::{FIRST_TARGETS, NR_CPUS};
use smp_words::work::{Kind, Work};

/// What a refusal depends on beside where the CPU is: the CPUs online, how many keys and sites there are, and
/// whether the CPU holds the gate.
#[derive(Clone, Copy)]
pub struct Terms {
    pub nr: u32,
    pub online: CpuMask,
    pub keys: u32,
    pub sites: u32,
    pub holds_gate: bool,
}

/// The error where a test has failed.
fn unless(test: bool, error: SmpError) -> Option<SmpError>
    ensures { result ≡ error_unless test error }
{
    if test { None } else { Some(error) }
}

/// Whether a slot may be entered where there are `nr` CPUs: one of the first eight, or that of a CPU.
pub fn has_slot(nr: u32, slot: u32) -> bool
    ensures { result ≡ has_slot_in nr slot }
{
    slot < NR_CPUS && (slot < FIRST_TARGETS || slot < nr)
}

impl Terms {
    /// Whether a patch is of all online CPUs, runs on the first of them, and makes one of the four changes to a key of
    /// this table.
    fn fits_patch(self, work: Work) -> bool
        ensures { result ≡ is_fit_patch self work }
    {
        mask_word(work.mask) == mask_word(self.online)
            && mask_word(work.active) == 1 << first_of(self.online)
            && u32::from(work.func) < self.keys
            && work.arg < 4
    }

    /// Whether a work has some CPUs, and as many as its kind may have.
    fn fits_work(self, work: Work) -> bool
        ensures { result ≡ is_fit_work self work }
    {
        let many = weight(mask_word(work.mask));
        let fits_kind = match work.kind {
            Kind::One => many == 1,
            Kind::Multi => true,
            Kind::Patch => self.fits_patch(work),
        };
        many != 0 && fits_kind
    }

    /// Why a stop may not begin; none where it may.
    pub fn begin_refusal(self, work: Work, is_open: bool) -> Option<SmpError>
        ensures { result ≡ refusal_of_begin self work is_open }
    {
        if is_open {
            return Some(SmpError::SlotBusy);
        }
        if !(self.holds_gate && self.fits_work(work)) {
            return Some(SmpError::BadArgument);
        }
        let mask = mask_word(work.mask);
        unless(mask & mask_word(self.online) == mask, SmpError::NoStopper)
    }

    /// The own refusal of a command of the stop half by a CPU at such a place, and of a handle while interrupts are
    /// off; none where it may start, and for another command.
    pub fn refusal(self, control: &StopControl, command: &Command) -> Option<SmpError>
        ensures { result ≡ refusal_on self control.now command.now }
    {
        let visit = control.visit();
        let is_good = match *command {
            Command::Begin(work) => return self.begin_refusal(work, control.is_open()),
            Command::Enter(slot) => {
                return unless(visit.is_none() && has_slot(self.nr, slot), SmpError::Stale);
            }
            Command::Handle => control.interrupts(),
            Command::Ungate => self.holds_gate,
            Command::Advance(_) => may_advance(visit),
            Command::RunOne(_) => may_run(visit),
            Command::Finish => may_finish(visit),
            Command::Poll => control.is_open(),
            Command::Key(key) | Command::Nudge(key, _) => {
                control.interrupts() && key < self.keys
            }
            Command::Site(site) => control.interrupts() && site < self.sites,
            _ => true,
        };
        unless(is_good, SmpError::BadArgument)
    }
}

/// Whether a CPU is in a stop of several CPUs and has not left it.
fn may_advance(visit: Option<Visit>) -> bool
    ensures { result ≡ can_advance visit }
{
    match visit {
        Some(visit) => visit.kind != Kind::One && visit.acked != EXIT,
        None => false,
    }
}

/// Whether it is in a stop of one CPU.
fn may_run(visit: Option<Visit>) -> bool
    ensures { result ≡ can_run visit }
{
    match visit {
        Some(visit) => visit.kind == Kind::One,
        None => false,
    }
}

/// Whether it has left a stop of several CPUs and has not completed.
fn may_finish(visit: Option<Visit>) -> bool
    ensures { result ≡ can_finish visit }
{
    match visit {
        Some(visit) => visit.acked == EXIT,
        None => false,
    }
}

impl StopControl {
    /// Where a command of the stop half begins; none for another command.
    pub fn first_stage(&self, command: &Command) -> Option<StopStage>
        ensures { result ≡ stop_first self.now command.now }
    {
        let visit = self.visit();
        match *command {
            Command::Gate => Some(StopStage::TakeGate),
            Command::Ungate => Some(StopStage::OpenGate),
            Command::Begin(work) => Some(StopStage::Begin(work, Field::Kind)),
            Command::Enter(slot) => Some(StopStage::Enter(slot)),
            Command::Advance(answer) => {
                let answer = answer_word(answer);
                visit.map(|visit| StopStage::Advance(visit, RoundStage::Look { answer }))
            }
            Command::RunOne(answer) => {
                let answer = answer_word(answer);
                visit.map(|visit| StopStage::Complete(visit, CompletionStage::LoadFunc { answer }))
            }
            Command::Finish => visit.map(|visit| StopStage::Complete(visit, visit.completion())),
            Command::Poll => Some(StopStage::LoadDone),
            Command::Key(key) => Some(StopStage::ReadKey(key)),
            Command::Site(site) => Some(StopStage::ReadSite(site)),
            Command::Nudge(key, up) => Some(StopStage::NudgeKey(key, up)),
            _ => None,
        }
    }
}

/// The answer of a stop function, as the result word has it.
pub fn answer_word(answer: i32) -> u64
    ensures { result ≡ word_of_answer answer }
{
    u64::from(answer.cast_unsigned())
}
