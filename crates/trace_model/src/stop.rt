//! One stop of the model.

ghost use Rattle.std.specs.Prelude.{◌≡◌};
ghost use Rattle.smp_mask.specs.Mask.{has};
ghost use Rattle.trace_model.specs.Cpu.{Makes};
ghost use Rattle.trace_model.specs.Stop.{acknowledged, answer_of, answer_wanted, at_phase, closed, collected};
ghost use Rattle.trace_model.specs.Stop.{completed, entered, first_of, giver, gives, has_run, is_answer, is_cpu};
ghost use Rattle.trace_model.specs.Stop.{is_only, is_work, late, offline_in, opened, raised, ran_function, through};
ghost use Rattle.trace_model.specs.Stop.{unfinished};

use crate::reason::Reason;
use crate::table::{at, put};
use crate::without::Setting;
use smp_mask::CpuMask;
use smp_words::phase::{EXIT, PREPARE, RUN};
use smp_words::work::Kind;

/// What a stop is to do, as its `open` tells it.
#[derive(Clone, Copy, Debug, PartialEq, Eq)]
pub struct Task {
    pub kind: Kind,
    pub mask: CpuMask,
    pub active: CpuMask,
    pub func: u64,
    pub arg: u64,
}

/// What is left of a patch: its key's new count, whether that is to be stored, whether sites are, from which site on, and
/// whether the count stood at the end of its range.
#[derive(Clone, Copy, Debug, PartialEq, Eq)]
pub struct Patch {
    pub count: u64,
    pub counts: bool,
    pub turns: bool,
    pub from: u32,
    pub at_edge: bool,
}

/// The stop of one number.
#[derive(Clone, Copy)]
pub struct Stop {
    pub is_open: bool,
    pub task: Task,
    pub phase: u32,
    /// The last to acknowledge, until it has raised the phase.
    pub raiser: Option<u32>,
    /// Those that have entered.
    pub entered: [bool; 32],
    /// The last phase that each has acknowledged.
    pub acked: [u32; 32],
    /// Those whose function has run.
    pub ran: [bool; 32],
    /// The answers of those who have completed.
    pub answers: [Option<i32>; 32],
    /// What is left of its patch, once it is known.
    pub patch: Option<Patch>,
}

/// The least member of a mask.
#[tactic(auto, using(crate::proofs::Least::first_hit, crate::proofs::Least::first_miss, crate::proofs::Least::first_end))]
pub(crate) fn first_of(mask: CpuMask) -> Option<u32>
    ensures { result ≡ first_of mask }
{
    for cpu in 0..32 {
        if mask.contains(cpu) {
            return Some(cpu);
        }
    }
    None
}

/// Whether a mask has this member alone.
fn is_only(mask: CpuMask, cpu: Option<u32>) -> bool
    ensures { result ≡ is_only mask cpu }
{
    match cpu {
        Some(cpu) => mask.weight() == 1 && mask.contains(cpu),
        None => false,
    }
}

/// The least CPU of the mask that is not online.
#[tactic(auto, using(crate::proofs::Least::first_hit, crate::proofs::Least::first_miss, crate::proofs::Least::first_end))]
fn offline_in(setting: &Setting, mask: CpuMask) -> Option<u32>
    ensures { result ≡ offline_in setting.now mask }
{
    for cpu in 0..32 {
        if mask.contains(cpu) && !setting.online.contains(cpu) {
            return Some(cpu);
        }
    }
    None
}

/// Whether there is such a work.
fn is_work(setting: &Setting, task: &Task) -> bool
    ensures { result ≡ is_work setting.now task.now }
{
    match task.kind {
        Kind::One => task.mask.weight() == 1,
        Kind::Multi => task.mask.weight() > 0,
        Kind::Patch => {
            task.mask.bits() == setting.online.bits()
                && is_only(task.active, first_of(setting.online))
                && task.func < setting.keys as u64
                && task.arg <= 3
        }
    }
}

impl Stop {
    /// A stop that is not open, of this mask.
    pub(crate) fn closed(mask: CpuMask) -> Stop
        ensures { result ≡ closed mask }
    {
        Stop {
            is_open: false,
            task: Task {
                kind: Kind::One,
                mask,
                active: mask,
                func: 0,
                arg: 0,
            },
            phase: 0,
            raiser: None,
            entered: [false; 32],
            acked: [0; 32],
            ran: [false; 32],
            answers: [None; 32],
            patch: None,
        }
    }

    /// Opens a stop that is not open, with such a work of CPUs that are online.
    #[tactic(auto, unfolding(crate::specs::Stop::opened))]
    pub(crate) fn open(&mut self, setting: &Setting, task: Task) -> Result<(), Reason>
        ensures { Makes result self.new (opened setting.now task) }
    {
        if !is_work(setting, &task) {
            return Err(Reason::NoSuchWork);
        }
        if let Some(cpu) = offline_in(setting, task.mask) {
            return Err(Reason::NotOnline(cpu));
        }
        *self = Stop {
            is_open: true,
            task,
            phase: if task.kind == Kind::One { 0 } else { PREPARE },
            ..Stop::closed(task.mask)
        };
        Ok(())
    }

    /// The least CPU of the mask that has not acknowledged a phase.
    #[tactic(auto, using(crate::proofs::Least::first_hit, crate::proofs::Least::first_miss, crate::proofs::Least::first_end))]
    pub(crate) fn late(&self, phase: u32) -> Option<u32>
        ensures { result ≡ late self.now phase }
    {
        for cpu in 0..32 {
            if self.task.mask.contains(cpu) && at(&self.acked, cpu, 0) < phase {
                return Some(cpu);
            }
        }
        None
    }

    /// Whether a CPU is an active one.
    pub(crate) fn is_active(&self, cpu: u32) -> bool
        ensures { result ≡ has self.now.task.active cpu }
    {
        self.task.active.contains(cpu)
    }

    /// Refuses where a CPU may not act on a phase: it is that phase, and the CPU has not acknowledged it.
    pub(crate) fn at_phase(&self, cpu: u32, phase: u32) -> Result<(), Reason>
        ensures { result ≡ at_phase self.now cpu phase }
    {
        let acked = at(&self.acked, cpu, 0);
        if acked >= phase {
            return Err(Reason::Acknowledged(cpu, phase));
        }
        if self.phase == phase {
            return Ok(());
        }
        let before = phase.saturating_sub(1);
        if acked < before {
            return Err(Reason::NotAcknowledged(cpu, before));
        }
        match self.late(before) {
            Some(other) => Err(Reason::NotAcknowledged(other, before)),
            None => Err(Reason::PhaseIs(self.phase)),
        }
    }

    /// Refuses where a CPU has not acknowledged EXIT, or is to raise it.
    pub(crate) fn through(&self, cpu: u32) -> Result<(), Reason>
        ensures { result ≡ through self.now cpu }
    {
        if at(&self.acked, cpu, 0) < EXIT {
            return Err(Reason::NotAcknowledged(cpu, EXIT));
        }
        if self.raiser == Some(cpu) {
            return Err(Reason::PhaseIs(self.phase));
        }
        Ok(())
    }

    /// A CPU enters.
    #[tactic(auto, unfolding(crate::specs::Stop::entered))]
    pub(crate) fn enter(&mut self, cpu: u32) -> Result<(), Reason>
        ensures { Makes result self.new (entered cpu self.old) }
    {
        if !self.task.mask.contains(cpu) || at(&self.entered, cpu, false) {
            return Err(Reason::NotCalled(cpu));
        }
        put(&mut self.entered, cpu, true);
        Ok(())
    }

    /// A CPU acknowledges a phase; the last to do so raises it, or has raised it where that is left out.
    #[tactic(auto, unfolding(crate::specs::Stop::acknowledged))]
    pub(crate) fn acknowledge(&mut self, cpu: u32, phase: u32, raises: bool)
        ensures { self.new ≡ acknowledged cpu phase raises self.old }
    {
        put(&mut self.acked, cpu, phase);
        if self.late(phase).is_some() {
            return;
        }
        if raises {
            self.raiser = Some(cpu);
        } else {
            self.phase = self.phase.saturating_add(1);
        }
    }

    /// A CPU raises the phase.
    #[tactic(auto, unfolding(crate::specs::Stop::raised))]
    pub(crate) fn raise(&mut self, cpu: u32, phase: u32) -> Result<(), Reason>
        ensures { Makes result self.new (raised cpu phase self.old) }
    {
        let before = phase.saturating_sub(1);
        if self.phase != before {
            return Err(Reason::PhaseIs(self.phase));
        }
        match self.raiser {
            Some(last) if last == cpu => {
                self.phase = phase;
                self.raiser = None;
                Ok(())
            }
            Some(last) => Err(Reason::AcknowledgedLast(last)),
            None => {
                let late = self.late(before).unwrap_or(cpu);
                Err(Reason::NotAcknowledged(late, before))
            }
        }
    }

    /// A CPU enters the function.
    #[tactic(auto, unfolding(crate::specs::Stop::ran_function))]
    pub(crate) fn run(&mut self, cpu: u32, func: u64, arg: u64) -> Result<(), Reason>
        ensures { Makes result self.new (ran_function cpu func arg self.old) }
    {
        if self.task.kind == Kind::Multi {
            if !self.is_active(cpu) {
                return Err(Reason::NotActive(cpu));
            }
            self.at_phase(cpu, RUN)?;
        }
        if at(&self.ran, cpu, false) {
            return Err(Reason::FunctionHasRun);
        }
        if self.task.func != func || self.task.arg != arg {
            return Err(Reason::CallIs(self.task.func, self.task.arg));
        }
        put(&mut self.ran, cpu, true);
        Ok(())
    }

    /// The answer of a CPU whose function has not run: 1 of the one that patches, where its key stood at the end of its
    /// range.
    fn answer_wanted(&self, cpu: u32) -> i32
        ensures { result ≡ answer_wanted self.now cpu }
    {
        match self.patch {
            Some(patch) if self.is_active(cpu) && patch.at_edge => 1,
            _ => 0,
        }
    }

    /// A CPU completes with an answer; `irq` says whether its interrupts are on.
    #[tactic(auto, unfolding(crate::specs::Stop::completed))]
    pub(crate) fn complete(&mut self, cpu: u32, answer: i32, irq: bool) -> Result<(), Reason>
        ensures { Makes result self.new (completed cpu answer irq self.old) }
    {
        let ran = at(&self.ran, cpu, false);
        if self.task.kind == Kind::One {
            if !ran {
                return Err(Reason::FunctionHasNotRun);
            }
        } else {
            self.through(cpu)?;
            if !irq {
                return Err(Reason::InterruptsOff);
            }
        }
        let wanted = self.answer_wanted(cpu);
        if !ran && answer != wanted {
            return Err(Reason::AnswerIs(wanted));
        }
        put(&mut self.answers, cpu, Some(answer));
        Ok(())
    }

    /// The least CPU of the mask that has not completed.
    #[tactic(auto, using(crate::proofs::Least::first_hit, crate::proofs::Least::first_miss, crate::proofs::Least::first_end))]
    fn unfinished(&self) -> Option<u32>
        ensures { result ≡ unfinished self.now }
    {
        for cpu in 0..32 {
            if self.task.mask.contains(cpu) && at(&self.answers, cpu, None).is_none() {
                return Some(cpu);
            }
        }
        None
    }

    /// Whether a CPU has completed with this answer.
    fn is_answer(&self, cpu: u32, answer: i32) -> bool
        ensures { result ≡ is_answer (answer_of self.now cpu) answer }
    {
        match at(&self.answers, cpu, None) {
            Some(given) => given == answer,
            None => false,
        }
    }

    /// The least CPU of the mask that has given this answer, or another one.
    #[tactic(auto, using(crate::proofs::Least::first_hit, crate::proofs::Least::first_miss, crate::proofs::Least::first_end))]
    fn giver(&self, answer: i32, same: bool) -> Option<u32>
        ensures { result ≡ giver self.now answer same }
    {
        for cpu in 0..32 {
            if self.task.mask.contains(cpu) && self.is_answer(cpu, answer) == same {
                return Some(cpu);
            }
        }
        None
    }

    /// Whether the answers give a result: one of those that are not 0, or 0 where all are.
    fn gives(&self, answer: i32) -> bool
        ensures { result ≡ gives self.now answer }
    {
        if answer == 0 {
            self.giver(0, false).is_none()
        } else {
            self.giver(answer, true).is_some()
        }
    }

    /// The result is collected, and the stop is closed.
    #[tactic(auto, unfolding(crate::specs::Stop::collected))]
    pub(crate) fn collect(&mut self, answer: i32) -> Result<(), Reason>
        ensures { Makes result self.new (collected answer self.old) }
    {
        if let Some(cpu) = self.unfinished() {
            return Err(Reason::NotCompleted(cpu));
        }
        if !self.gives(answer) {
            return Err(Reason::AnswersDoNotGive(answer));
        }
        self.is_open = false;
        Ok(())
    }

    /// Whether a CPU has run the function.
    pub(crate) fn has_run(&self, cpu: u32) -> bool
        ensures { result ≡ has_run self.now cpu }
    {
        at(&self.ran, cpu, false)
    }

    /// Whether a CPU is to raise the phase.
    pub(crate) fn is_raiser(&self, cpu: u32) -> bool
        ensures { result ≡ is_cpu self.now.raiser cpu }
    {
        match self.raiser {
            Some(last) => last == cpu,
            None => false,
        }
    }
}
