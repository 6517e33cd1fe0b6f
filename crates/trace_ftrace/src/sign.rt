//! What a line shows.

ghost use Rattle.std.specs.Prelude.{◌≡◌, map, codes};
ghost use Rattle.trace_ftrace.specs.Signs.{begin_sign, class_of, class_sign, end_sign, is_entry, is_exit, is_queue, is_symbol, is_wakes};
ghost use Rattle.trace_ftrace.specs.Signs.{is_interrupt, is_passed, is_probe, passed_sign, queue_sign, shown_sort, sign_of, sort_of};

use crate::field::{address, field, needed_address, needed_cpu, symbol};
use crate::stop_sign::{StopSign, read_stop_sign};
use crate::wrong::Wrong;
use smp_script::line::is_word;
use smp_words::call::Class;

/// What is queued.
#[derive(Clone, Copy, Debug, PartialEq, Eq)]
pub enum Sort {
    /// A call, and no line shows its class.
    Unshown,
    Async,
    Sync,
    /// The wakes of a CPU, which are no call.
    Wake,
    /// Irq work, or what else is no call.
    Other,
}

/// What a line shows.
#[derive(Clone, Copy, Debug, PartialEq, Eq)]
pub enum Sign {
    /// A record is queued for this CPU, by its address; whether a line of its own has told the sort.
    Queue(u32, u64, Sort, bool),
    /// Of this sort is the record that was queued last.
    Class(u64, Sort),
    /// The function of a record's call is entered.
    Begin(u64),
    /// The function of a direct call is entered, which no queue has had.
    Direct,
    /// It has returned.
    End(u64),
    /// The function of the call that the CPU runs has returned.
    EndLast,
    /// It is of a stop.
    Stop(StopSign),
    /// The interrupt of calls is entered.
    Interrupt,
    /// It is of a probe behind an append, as Linux 6.1 needs it.
    Probe,
    /// It is of another event of calls or stops, which tells nothing.
    Passed,
}

/// The sort of a record with these flags.
fn sort_of(flags: u64) -> Sort
    ensures { result ≡ sort_of flags }
{
    match flags & 0xf0 {
        0 => Sort::Async,
        0x10 => Sort::Sync,
        _ => Sort::Other,
    }
}

/// The class of a call, ASYNC where no line shows it, since that asks less; none of what is no call.
pub(crate) fn class_of(sort: Sort) -> Option<Class>
    ensures { result ≡ class_of sort }
{
    match sort {
        Sort::Async | Sort::Unshown => Some(Class::Async),
        Sort::Sync => Some(Class::Sync),
        Sort::Wake | Sort::Other => None,
    }
}

/// Whether the field of this name has that function.
#[tactic(auto, unfolding(crate::specs::Signs::is_symbol))]
pub(crate) fn is_symbol(name: &[u8], of: &[u8], fields: &[&[u8]]) -> bool
    ensures { result ≡ is_symbol name.now of.now (map (λ f. f.now) fields.now) }
{
    match field(name, fields) {
        Some(text) => is_word(symbol(text), of),
        None => false,
    }
}

/// Whether fields have the function by which a CPU wakes tasks.
fn is_wakes(fields: &[&[u8]]) -> bool
    ensures { result ≡ is_wakes (map (λ f. f.now) fields.now) }
{
    is_symbol(b"func", b"sched_ttwu_pending", fields)
}

/// The sort that fields show.
#[tactic(auto, unfolding(crate::specs::Signs::shown_sort))]
fn shown_sort(fields: &[&[u8]]) -> Result<Sort, Wrong>
    ensures { result ≡ shown_sort (map (λ f. f.now) fields.now) }
{
    if is_wakes(fields) {
        return Ok(Sort::Wake);
    }
    if let Some(text) = field(b"flags", fields) {
        return match address(text) {
            Some(flags) => Ok(sort_of(flags)),
            None => Err(Wrong::Field),
        };
    }
    if is_symbol(b"callsite", b"irq_work_queue_on", fields) {
        return Ok(Sort::Other);
    }
    Ok(Sort::Unshown)
}

/// What a line shows that queues a record.
#[tactic(auto, unfolding(crate::specs::Signs::queue_sign))]
fn queue_sign(fields: &[&[u8]]) -> Result<Sign, Wrong>
    ensures { result ≡ queue_sign (map (λ f. f.now) fields.now) }
{
    let to = needed_cpu(b"cpu", fields)?;
    let address = needed_address(b"csd", fields)?;
    let sort = shown_sort(fields)?;
    Ok(Sign::Queue(to, address, sort, false))
}

/// What a line shows that tells the class.
#[tactic(auto, unfolding(crate::specs::Signs::class_sign))]
fn class_sign(fields: &[&[u8]]) -> Result<Sign, Wrong>
    ensures { result ≡ class_sign (map (λ f. f.now) fields.now) }
{
    let address = needed_address(b"csd", fields)?;
    let flags = needed_address(b"flags", fields)?;
    Ok(Sign::Class(address, sort_of(flags)))
}

/// What a line shows by which a function is entered.
#[tactic(auto, unfolding(crate::specs::Signs::begin_sign))]
fn begin_sign(fields: &[&[u8]]) -> Result<Option<Sign>, Wrong>
    ensures { result ≡ begin_sign (map (λ f. f.now) fields.now) }
{
    let address = needed_address(b"csd", fields)?;
    if is_wakes(fields) {
        return Ok(Some(Sign::Passed));
    }
    if address == 0 {
        return Ok(Some(Sign::Direct));
    }
    Ok(Some(Sign::Begin(address)))
}

/// What a line shows by which a function has returned.
#[tactic(auto, unfolding(crate::specs::Signs::end_sign))]
fn end_sign(fields: &[&[u8]]) -> Result<Option<Sign>, Wrong>
    ensures { result ≡ end_sign (map (λ f. f.now) fields.now) }
{
    let address = needed_address(b"csd", fields)?;
    if address == 0 || is_wakes(fields) {
        return Ok(Some(Sign::Passed));
    }
    Ok(Some(Sign::End(address)))
}

/// Whether an event is that a record is queued: the tracepoint, or a probe in a function that queues one call or many.
fn is_queue(event: &[u8]) -> bool
    ensures { result ≡ is_queue event.now }
{
    is_word(event, b"csd_queue_cpu")
        || is_word(event, b"one_queue")
        || is_word(event, b"many_queue")
}

/// Whether an event is that the function of a call is entered: the tracepoint, or a probe where calls of this class are run.
fn is_entry(event: &[u8]) -> bool
    ensures { result ≡ is_entry event.now }
{
    is_word(event, b"csd_function_entry")
        || is_word(event, b"sync_entry2")
        || is_word(event, b"async_entry")
}

/// Whether an event is that the function of a record's call has returned.
fn is_exit(event: &[u8]) -> bool
    ensures { result ≡ is_exit event.now }
{
    is_word(event, b"csd_function_exit") || is_word(event, b"sync_exit2")
}

/// Whether an event is that a CPU enters the interrupt by which calls are sent.
fn is_interrupt(event: &[u8]) -> bool
    ensures { result ≡ is_interrupt event.now }
{
    is_word(event, b"call_function_entry") || is_word(event, b"call_function_single_entry")
}

/// Whether an event is a probe behind an append, as Linux 6.1 needs it.
fn is_probe(event: &[u8]) -> bool
    ensures { result ≡ is_probe event.now }
{
    is_word(event, b"csd_queued") || is_word(event, b"one_queued") || is_word(event, b"many_queued")
}

/// Whether an event is of calls or stops, by its first letters.
fn is_passed(event: &[u8]) -> bool
    ensures { result ≡ is_passed event.now }
{
    match event {
        [b'c', b's', b'd', b'_', ..] => true,
        [b's', b't', b'o', b'p', b'_', ..] => true,
        [b'i', b'p', b'i', b'_', b's', b'e', b'n', b'd', ..] => true,
        [
            b'c',
            b'a',
            b'l',
            b'l',
            b'_',
            b'f',
            b'u',
            b'n',
            b'c',
            b't',
            b'i',
            b'o',
            b'n',
            ..
        ] => true,
        _ => false,
    }
}

/// What a line shows that tells no event; none where it is not of calls or stops.
fn passed_sign(event: &[u8]) -> Option<Sign>
    ensures { result ≡ passed_sign event.now }
{
    if is_interrupt(event) {
        return Some(Sign::Interrupt);
    }
    if is_probe(event) {
        return Some(Sign::Probe);
    }
    if is_passed(event) {
        return Some(Sign::Passed);
    }
    None
}

/// What a line with this event and these fields shows.
#[tactic(auto, unfolding(crate::specs::Signs::sign_of))]
pub(crate) fn read_sign(event: &[u8], fields: &[&[u8]]) -> Result<Option<Sign>, Wrong>
    ensures { result ≡ sign_of event.now (map (λ f. f.now) fields.now) }
{
    if is_queue(event) {
        let sign = queue_sign(fields)?;
        return Ok(Some(sign));
    }
    if is_word(event, b"csd_class") {
        let sign = class_sign(fields)?;
        return Ok(Some(sign));
    }
    if is_entry(event) {
        return begin_sign(fields);
    }
    if is_exit(event) {
        return end_sign(fields);
    }
    if is_word(event, b"async_exit") {
        return Ok(Some(Sign::EndLast));
    }
    match read_stop_sign(event, fields)? {
        Some(sign) => Ok(Some(Sign::Stop(sign))),
        None => Ok(passed_sign(event)),
    }
}
