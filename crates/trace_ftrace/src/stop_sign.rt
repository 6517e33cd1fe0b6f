//! What a line shows of stops.

ghost use Rattle.std.specs.Prelude.{◌≡◌, map};
ghost use Rattle.trace_ftrace.specs.StopSigns.{active_of, answer_of, answer_sign, enter_sign, is_close, needed_answer, needed_phase};
ghost use Rattle.trace_ftrace.specs.StopSigns.{needed_work, open_sign, pair_sign, phase_of, queue_sign, step_sign, stop_sign};

use crate::field::{address, field, needed_address, needed_low_cpu};
use crate::number::number;
use crate::wrong::Wrong;
use smp_script::line::is_word;

/// A function and its argument.
#[derive(Clone, Copy, Debug, PartialEq, Eq)]
pub struct Work {
    pub func: u64,
    pub arg: u64,
}

/// How a stop is opened.
#[derive(Clone, Copy, Debug, PartialEq, Eq)]
pub enum Opening {
    /// Of the CPUs to which the task then queues works. Those with these bits are active, or else the least.
    Machine(Option<u64>),
    /// Of these CPUs and the one that opens it, which runs no stopper itself. The active ones are chosen alike.
    Inactive(Option<u64>),
    /// Of two CPUs, of which the first is active.
    Two(u32, u32),
    /// Of one CPU, on which the task waits.
    One(u32),
    /// Of one CPU, on which nobody waits.
    NoWait(u32),
}

/// What a line shows of stops.
#[derive(Clone, Copy, Debug, PartialEq, Eq)]
pub enum StopSign {
    Open(Opening, Work),
    /// A work with this argument is queued for a CPU.
    Queue(u32, u64),
    /// A rendezvous with this data and function is entered.
    Enter(u64, u64),
    Ack(u32),
    Run(Work),
    /// A rendezvous is left with this answer.
    Leave(i32),
    /// A stopper begins a work.
    Start(Work),
    /// It is done, with this answer.
    Done(i32),
    /// The task that opened a stop has this answer.
    Close(i32),
}

/// The function and the argument in fields.
#[tactic(auto, unfolding(crate::specs::StopSigns::needed_work))]
fn needed_work(fields: &[&[u8]]) -> Result<Work, Wrong>
    ensures { result ≡ needed_work (map (λ f. f.now) fields.now) }
{
    let func = needed_address(b"fn", fields)?;
    let arg = needed_address(b"arg", fields)?;
    Ok(Work { func, arg })
}

/// The answer that is a word of 32 bits.
#[tactic(auto, unfolding(crate::specs::StopSigns::answer_of))]
fn answer_of(word: u64) -> i32
    ensures { result ≡ answer_of word }
{
    let low = word & 0xffff_ffff;
    if low < 0x8000_0000 {
        low as i32
    } else {
        (low as i64 - 0x1_0000_0000) as i32
    }
}

/// The answer in fields.
#[tactic(auto, unfolding(crate::specs::StopSigns::needed_answer))]
fn needed_answer(fields: &[&[u8]]) -> Result<i32, Wrong>
    ensures { result ≡ needed_answer (map (λ f. f.now) fields.now) }
{
    let word = needed_address(b"ret", fields)?;
    Ok(answer_of(word))
}

/// A phase that can be acknowledged.
#[tactic(auto, unfolding(crate::specs::StopSigns::phase_of))]
fn phase_of(phase: u64) -> Result<u32, Wrong>
    ensures { result ≡ phase_of phase }
{
    if phase >= 1 && phase <= 4 {
        Ok(phase as u32)
    } else {
        Err(Wrong::Field)
    }
}

/// The phase in fields.
#[tactic(auto, unfolding(crate::specs::StopSigns::needed_phase))]
fn needed_phase(fields: &[&[u8]]) -> Result<u32, Wrong>
    ensures { result ≡ needed_phase (map (λ f. f.now) fields.now) }
{
    let Some(text) = field(b"state", fields) else {
        return Err(Wrong::Field);
    };
    match number(10, text) {
        Some(phase) => phase_of(phase),
        None => Err(Wrong::Field),
    }
}

/// The bits of the CPUs that are active, where fields say that there is a mask of them.
#[tactic(auto, unfolding(crate::specs::StopSigns::active_of))]
fn active_of(fields: &[&[u8]]) -> Result<Option<u64>, Wrong>
    ensures { result ≡ active_of (map (λ f. f.now) fields.now) }
{
    let Some(text) = field(b"cpus", fields) else {
        return Ok(None);
    };
    match address(text) {
        Some(0) => Ok(None),
        Some(_) => {
            let bits = needed_address(b"active", fields)?;
            Ok(Some(bits))
        }
        None => Err(Wrong::Field),
    }
}

/// Two CPUs that meet.
#[tactic(auto, unfolding(crate::specs::StopSigns::pair_sign))]
fn pair_sign(fields: &[&[u8]]) -> Result<Opening, Wrong>
    ensures { result ≡ pair_sign (map (λ f. f.now) fields.now) }
{
    let first = needed_low_cpu(b"cpu1", fields)?;
    let second = needed_low_cpu(b"cpu2", fields)?;
    Ok(Opening::Two(first, second))
}

/// How a line with this event opens a stop; nothing where it opens none.
#[tactic(auto, unfolding(crate::specs::StopSigns::open_sign))]
fn open_sign(event: &[u8], fields: &[&[u8]]) -> Result<Option<Opening>, Wrong>
    ensures { result ≡ open_sign event.now (map (λ f. f.now) fields.now) }
{
    if is_word(event, b"stop_open") {
        let active = active_of(fields)?;
        return Ok(Some(Opening::Machine(active)));
    }
    if is_word(event, b"inactive_open") {
        let active = active_of(fields)?;
        return Ok(Some(Opening::Inactive(active)));
    }
    if is_word(event, b"two_open") {
        let pair = pair_sign(fields)?;
        return Ok(Some(pair));
    }
    if is_word(event, b"one_open") {
        let cpu = needed_low_cpu(b"cpu", fields)?;
        return Ok(Some(Opening::One(cpu)));
    }
    if is_word(event, b"nowait_open") {
        let cpu = needed_low_cpu(b"cpu", fields)?;
        return Ok(Some(Opening::NoWait(cpu)));
    }
    Ok(None)
}

/// Whether an event is that a task has the answer of a stop that it opened.
fn is_close(event: &[u8]) -> bool
    ensures { result ≡ is_close event.now }
{
    is_word(event, b"stop_close")
        || is_word(event, b"one_close")
        || is_word(event, b"two_close")
        || is_word(event, b"inactive_close")
}

/// A work that is queued.
#[tactic(auto, unfolding(crate::specs::StopSigns::queue_sign))]
fn queue_sign(fields: &[&[u8]]) -> Result<StopSign, Wrong>
    ensures { result ≡ queue_sign (map (λ f. f.now) fields.now) }
{
    let cpu = needed_low_cpu(b"cpu", fields)?;
    let arg = needed_address(b"arg", fields)?;
    Ok(StopSign::Queue(cpu, arg))
}

/// A rendezvous that is entered.
#[tactic(auto, unfolding(crate::specs::StopSigns::enter_sign))]
fn enter_sign(fields: &[&[u8]]) -> Result<StopSign, Wrong>
    ensures { result ≡ enter_sign (map (λ f. f.now) fields.now) }
{
    let data = needed_address(b"data", fields)?;
    let func = needed_address(b"fn", fields)?;
    Ok(StopSign::Enter(data, func))
}

/// What a line shows of a stop that is open; nothing where that is nothing.
#[tactic(auto, unfolding(crate::specs::StopSigns::step_sign))]
fn step_sign(event: &[u8], fields: &[&[u8]]) -> Result<Option<StopSign>, Wrong>
    ensures { result ≡ step_sign event.now (map (λ f. f.now) fields.now) }
{
    if is_word(event, b"stop_queue") {
        let sign = queue_sign(fields)?;
        return Ok(Some(sign));
    }
    if is_word(event, b"stop_enter") {
        let sign = enter_sign(fields)?;
        return Ok(Some(sign));
    }
    if is_word(event, b"stop_ack") {
        let phase = needed_phase(fields)?;
        return Ok(Some(StopSign::Ack(phase)));
    }
    if is_word(event, b"stop_run") {
        let work = needed_work(fields)?;
        return Ok(Some(StopSign::Run(work)));
    }
    if is_word(event, b"stop_work") {
        let work = needed_work(fields)?;
        return Ok(Some(StopSign::Start(work)));
    }
    answer_sign(event, fields)
}

/// What a line shows that tells an answer; nothing where it tells none.
#[tactic(auto, unfolding(crate::specs::StopSigns::answer_sign))]
fn answer_sign(event: &[u8], fields: &[&[u8]]) -> Result<Option<StopSign>, Wrong>
    ensures { result ≡ answer_sign event.now (map (λ f. f.now) fields.now) }
{
    if is_word(event, b"stop_leave") {
        let answer = needed_answer(fields)?;
        return Ok(Some(StopSign::Leave(answer)));
    }
    if is_word(event, b"stop_done") {
        let answer = needed_answer(fields)?;
        return Ok(Some(StopSign::Done(answer)));
    }
    if is_close(event) {
        let answer = needed_answer(fields)?;
        return Ok(Some(StopSign::Close(answer)));
    }
    Ok(None)
}

/// What a line with this event and these fields shows of stops; nothing where that is nothing.
#[tactic(auto, unfolding(crate::specs::StopSigns::stop_sign))]
pub(crate) fn read_stop_sign(event: &[u8], fields: &[&[u8]]) -> Result<Option<StopSign>, Wrong>
    ensures { result ≡ stop_sign event.now (map (λ f. f.now) fields.now) }
{
    match open_sign(event, fields)? {
        Some(opening) => {
            let work = needed_work(fields)?;
            Ok(Some(StopSign::Open(opening, work)))
        }
        None => step_sign(event, fields),
    }
}
