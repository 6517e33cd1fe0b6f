//! The stops that are open, as the lines of a text show them.

ghost use Rattle.std.specs.Prelude.{◌≡◌, ◌<◌, ◌^◌, length, IfSome};
ghost use Rattle.std.specs.Int.Bits.{bit_or};
ghost use Rattle.trace_ftrace.specs.Stops.{active_in, alone, chosen, found_from, free_number, is_active, is_entered, is_free, is_wanted, joined};
ghost use Rattle.trace_ftrace.specs.Stops.{least_of, pair, plan_of, queued_data, queued_mask, rendezvous, task_step};
ghost use Rattle.trace_model.specs.Ending.{joined_if};
ghost use Rattle.trace_model.specs.Stop.{first_of};

use crate::kept::{Mark, Stamp};
use crate::sign::Sign;
use crate::stop_sign::{Opening, StopSign, Work};
use smp_mask::CpuMask;
use smp_words::work::Kind;

/// What a stop that is opened is to do.
#[derive(Clone, Copy)]
pub struct Plan {
    pub kind: Kind,
    pub mask: CpuMask,
    pub active: CpuMask,
    pub work: Work,
    /// The data of its rendezvous, where that is known.
    pub ident: Option<u64>,
    /// The task that waits for it, where one does.
    pub task: Option<u64>,
}

/// A stop that is open.
#[derive(Clone, Copy)]
pub struct OpenStop {
    /// Its number.
    pub number: u32,
    pub plan: Plan,
    /// Whether its only CPU has begun its work.
    pub has_begun: bool,
}

/// An open stop that was found, and its place among the others.
#[derive(Clone, Copy)]
pub struct Found {
    pub place: usize,
    pub stop: OpenStop,
}

/// Which open stop is looked for.
#[derive(Clone, Copy)]
pub enum Wanted {
    /// The rendezvous that this CPU enters, with this data and function.
    Entered(u32, u64, u64),
    /// The stop of one CPU whose work this CPU begins.
    Begun(u32, Work),
    /// That for which this task waits.
    OfTask(u64),
    /// That of this number.
    Of(u32),
}

/// What a line shows of the works that a task queues.
#[derive(Clone, Copy)]
enum TaskStep {
    /// The task opens a stop, or has the answer of one.
    Over,
    /// It queues a work for this CPU, with this argument.
    Queues(u32, u64),
    Nothing,
}

/// The set of no CPU.
#[tactic(auto, using(smp_mask::proofs::Sets::none_empty))]
fn no_cpu() -> CpuMask
    ensures { result ≡ 0 }
{
    CpuMask::empty()
}

/// A mask with one CPU more.
fn joined_below(mask: CpuMask, cpu: u32) -> CpuMask
    requires { cpu < 32 }
    ensures { result ≡ bit_or mask (2 ^ cpu) }
{
    match mask.with(cpu) {
        Ok(more) => more,
        Err(_) => mask,
    }
}

/// A mask with one CPU more, where there can be that CPU.
fn joined(mask: CpuMask, cpu: u32) -> CpuMask
    ensures { result ≡ joined mask cpu }
{
    if cpu < 32 {
        joined_below(mask, cpu)
    } else {
        mask
    }
}

/// A mask with one CPU more, where that is wanted.
fn joined_if(mask: CpuMask, cpu: u32, is_wanted: bool) -> CpuMask
    requires { cpu < 32 }
    ensures { result ≡ joined_if is_wanted mask cpu }
{
    if is_wanted {
        joined_below(mask, cpu)
    } else {
        mask
    }
}

/// Whether a CPU is in a mask, and its bit is 1.
fn is_active(mask: CpuMask, bits: u64, cpu: u32) -> bool
    requires { cpu < 32 }
    ensures { result ≡ is_active mask bits cpu }
{
    mask.contains(cpu) && (bits >> cpu) & 1 == 1
}

/// The CPUs of a mask whose bits are 1.
#[tactic(auto, unfolding(crate::specs::Stops::active_in))]
fn active_in(mask: CpuMask, bits: u64) -> CpuMask
    ensures { result ≡ active_in mask bits }
{
    let mut active = CpuMask::empty();
    for cpu in 0..32 {
        active = joined_if(active, cpu, is_active(mask, bits, cpu));
    }
    active
}

/// The least CPU of a mask.
#[tactic(auto, using(trace_model::proofs::Least::first_hit, trace_model::proofs::Least::first_miss, trace_model::proofs::Least::first_end))]
fn first_of(mask: CpuMask) -> Option<u32>
    ensures { result ≡ first_of mask }
{
    for cpu in 0..32 {
        if mask.contains(cpu) {
            return Some(cpu);
        }
    }
    None
}

/// The set of the least CPU of a mask.
fn least_of(mask: CpuMask) -> CpuMask
    ensures { result ≡ least_of mask }
{
    match first_of(mask) {
        Some(cpu) => joined(no_cpu(), cpu),
        None => no_cpu(),
    }
}

/// The CPUs of a mask that are active: those with these bits, or else the least.
fn chosen(mask: CpuMask, bits: Option<u64>) -> CpuMask
    ensures { result ≡ chosen mask bits }
{
    match bits {
        Some(bits) => active_in(mask, bits),
        None => least_of(mask),
    }
}

/// What a mark shows of the works that a task queues.
fn task_step(task: u64, mark: &Mark) -> TaskStep
    ensures { result ≡ task_step task mark.now }
{
    if mark.at.task != task {
        return TaskStep::Nothing;
    }
    match mark.sign {
        Sign::Stop(StopSign::Open(..)) => TaskStep::Over,
        Sign::Stop(StopSign::Close(_)) => TaskStep::Over,
        Sign::Stop(StopSign::Queue(cpu, arg)) => TaskStep::Queues(cpu, arg),
        _ => TaskStep::Nothing,
    }
}

/// The CPUs for which a task queues works, and these, by the marks up to where it opens a stop or has an answer.
fn queued_mask(task: u64, marks: &[Mark], from: CpuMask) -> CpuMask
    ensures { result ≡ queued_mask task from marks.now }
{
    let mut mask = from;
    let mut rest = marks;
    while let [mark, after @ ..] = rest {
        match task_step(task, mark) {
            TaskStep::Over => return mask,
            TaskStep::Queues(cpu, _) => mask = joined(mask, cpu),
            TaskStep::Nothing => {}
        }
        rest = after;
    }
    mask
}

/// The argument of the first work that a task queues, by the same marks.
fn queued_data(task: u64, marks: &[Mark]) -> Option<u64>
    ensures { result ≡ queued_data task marks.now }
{
    let mut rest = marks;
    while let [mark, after @ ..] = rest {
        match task_step(task, mark) {
            TaskStep::Over => return None,
            TaskStep::Queues(_, ident) => return Some(ident),
            TaskStep::Nothing => {}
        }
        rest = after;
    }
    None
}

/// A rendezvous of these CPUs and those for which the task then queues works; none where it queues none.
fn rendezvous(
    from: CpuMask,
    bits: Option<u64>,
    work: Work,
    task: u64,
    behind: &[Mark],
) -> Option<Plan>
    ensures { result ≡ rendezvous from bits work task behind.now }
{
    let Some(ident) = queued_data(task, behind) else {
        return None;
    };
    let mask = queued_mask(task, behind, from);
    Some(Plan {
        kind: Kind::Multi,
        mask,
        active: chosen(mask, bits),
        work,
        ident: Some(ident),
        task: Some(task),
    })
}

/// The stop of one CPU.
fn alone(cpu: u32, work: Work, task: Option<u64>) -> Plan
    ensures { result ≡ alone cpu work task }
{
    Plan {
        kind: Kind::One,
        mask: joined(no_cpu(), cpu),
        active: no_cpu(),
        work,
        ident: None,
        task,
    }
}

/// The rendezvous of two CPUs, of which the first is active.
fn pair(first: u32, second: u32, work: Work, task: u64) -> Plan
    ensures { result ≡ pair first second work task }
{
    let active = joined(no_cpu(), first);
    Plan {
        kind: Kind::Multi,
        mask: joined(active, second),
        active,
        work,
        ident: None,
        task: Some(task),
    }
}

/// What a stop that is opened is to do, by the marks behind; none where it is not begun there.
pub(crate) fn plan_of(opening: Opening, work: Work, at: Stamp, behind: &[Mark]) -> Option<Plan>
    ensures { result ≡ plan_of opening work at behind.now }
{
    match opening {
        Opening::Machine(bits) => rendezvous(no_cpu(), bits, work, at.task, behind),
        Opening::Inactive(bits) => {
            rendezvous(joined(no_cpu(), at.cpu), bits, work, at.task, behind)
        }
        Opening::Two(first, second) => Some(pair(first, second, work, at.task)),
        Opening::One(cpu) => Some(alone(cpu, work, Some(at.task))),
        Opening::NoWait(cpu) => Some(alone(cpu, work, None)),
    }
}

/// Whether a rendezvous is the one with this data, or may be it, since its data is not known yet.
fn is_entered(plan: &Plan, cpu: u32, ident: u64, func: u64) -> bool
    ensures { result ≡ is_entered plan.now cpu ident func }
{
    match plan.ident {
        Some(known) => known == ident,
        None => plan.mask.contains(cpu) && plan.work.func == func,
    }
}

/// Whether an open stop is the one that is looked for.
fn is_wanted(wanted: Wanted, stop: &OpenStop) -> bool
    ensures { result ≡ is_wanted wanted stop.now }
{
    let plan = &stop.plan;
    match wanted {
        Wanted::Entered(cpu, ident, func) => {
            plan.kind == Kind::Multi && is_entered(plan, cpu, ident, func)
        }
        Wanted::Begun(cpu, work) => {
            plan.kind == Kind::One
                && plan.mask.contains(cpu)
                && plan.work.func == work.func
                && plan.work.arg == work.arg
                && !stop.has_begun
        }
        Wanted::OfTask(task) => match plan.task {
            Some(waits) => waits == task,
            None => false,
        },
        Wanted::Of(number) => stop.number == number,
    }
}

/// The first of these that is looked for.
pub(crate) fn find(wanted: Wanted, stops: &[OpenStop]) -> Option<Found>
    ensures first { result ≡ found_from 0 wanted stops.now }
    ensures within { IfSome result (λ f. f.place < length stops.now) }
{
    let mut place = 0;
    let mut rest = stops;
    while let [first, after @ ..] = rest {
        if is_wanted(wanted, first) {
            return Some(Found {
                place,
                stop: *first,
            });
        }
        place += 1;
        rest = after;
    }
    None
}

/// Whether a number is that of none of these.
fn is_free(number: u32, stops: &[OpenStop]) -> bool
    ensures { result ≡ is_free stops.now number }
{
    find(Wanted::Of(number), stops).is_none()
}

/// The least of the 64 numbers that is that of none of these.
#[tactic(auto, using(trace_model::proofs::Least::first_hit, trace_model::proofs::Least::first_miss, trace_model::proofs::Least::first_end))]
pub(crate) fn free_number(stops: &[OpenStop]) -> Option<u32>
    ensures { result ≡ free_number stops.now }
{
    for number in 0..64 {
        if is_free(number, stops) {
            return Some(number);
        }
    }
    None
}
