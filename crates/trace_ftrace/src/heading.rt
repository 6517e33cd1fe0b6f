//! The task, the CPU, the time, the event and the fields of a line.

ghost use Rattle.std.specs.Prelude.{◌≡◌, ◌<◌, ◌^◌, map, IfSome, MatchOption};
ghost use Rattle.trace_ftrace.specs.Headings.{cpu_of, depth_of, event_of, heading_at, heading_of, nanos_of, parts_time, past_last};
ghost use Rattle.trace_ftrace.specs.Headings.{stamped, task_of, time_of};
ghost use Rattle.trace_ftrace.specs.HeadingView.{heading_value};

use crate::number::number;
use crate::words::{front, two_parts};

/// The task, the CPU, the time, the event and its fields that a line tells.
#[derive(Clone, Copy)]
pub(crate) struct Heading<'w, 'a> {
    /// 0 where the line names none.
    pub(crate) task: u64,
    pub(crate) cpu: u64,
    /// How deep the CPU is in interrupts: 0 in a task, 1 in a soft and 2 in a hard one; none where no flags show it.
    pub(crate) context: Option<u32>,
    /// In nanoseconds, or in whatever unit the clock counts.
    pub(crate) time: u128,
    pub(crate) event: &'a [u8],
    pub(crate) fields: &'w [&'a [u8]],
}

/// The CPU of a word, as `[003]`.
#[tactic(auto, unfolding(crate::specs::Headings::cpu_of))]
fn cpu_of(word: &[u8]) -> Option<u64>
    ensures { result ≡ cpu_of word.now }
{
    let [b'[', behind @ ..] = word else {
        return None;
    };
    match front(behind, b']') {
        Some(digits) => number(10, digits),
        None => None,
    }
}

/// What is behind the point of a time, of six places or nine, in nanoseconds.
#[tactic(auto, unfolding(crate::specs::Headings::nanos_of))]
fn nanos_of(part: &[u8]) -> Option<u128>
    ensures value { result ≡ nanos_of part.now }
    ensures within { IfSome result (λ n. n < 2 ^ 80) }
{
    let scale = match part.len() {
        6 => 1000,
        9 => 1,
        _ => return None,
    };
    match number(10, part) {
        Some(digits) => Some(digits as u128 * scale),
        None => None,
    }
}

/// The time of these seconds and this part of one.
fn parts_time(seconds: &[u8], part: &[u8]) -> Option<u128>
    ensures { result ≡ parts_time seconds.now part.now }
{
    let Some(whole) = number(10, seconds) else {
        return None;
    };
    match nanos_of(part) {
        Some(nanos) => Some(whole as u128 * 1_000_000_000 + nanos),
        None => None,
    }
}

/// The time of a word, as `31.633368:`, `31.633368001:` or `11150:`.
#[tactic(auto, unfolding(crate::specs::Headings::time_of))]
fn time_of(word: &[u8]) -> Option<u128>
    ensures { result ≡ time_of word.now }
{
    let Some(text) = front(word, b':') else {
        return None;
    };
    if let Some((seconds, part)) = two_parts(text, b'.') {
        return parts_time(seconds, part);
    }
    match number(10, text) {
        Some(count) => Some(count as u128),
        None => None,
    }
}

/// The name of an event in a word, as `csd_class:` or `smp:csd_class:`.
#[tactic(auto, unfolding(crate::specs::Headings::event_of))]
fn event_of(word: &[u8]) -> Option<&[u8]>
    ensures { MatchOption result (event_of word.now ≡ None) (λ e. event_of word.now ≡ Some e.now) }
{
    let Some(text) = front(word, b':') else {
        return None;
    };
    match two_parts(text, b':') {
        Some((_, name)) => Some(name),
        None => Some(text),
    }
}

/// What is behind the last of these marks; the whole text where there is none.
fn past_last(text: &[u8], mark: u8) -> &[u8]
    ensures { result.now ≡ past_last mark text.now text.now }
{
    let mut last = text;
    let mut rest = text;
    while let [byte, after @ ..] = rest {
        if *byte == mark {
            last = after;
        }
        rest = after;
    }
    last
}

/// The task that a word names, as `sh-177`, `177` or `177/177`.
#[tactic(auto, unfolding(crate::specs::Headings::task_of))]
fn task_of(word: &[u8]) -> Option<u64>
    ensures { result ≡ task_of word.now }
{
    let part = past_last(word, b'-');
    match two_parts(part, b'/') {
        Some((task, _)) => number(10, task),
        None => number(10, part),
    }
}

/// How deep in interrupts a CPU is whose line has these flags, by the third of them.
fn depth_of(flags: &[u8]) -> u32
    ensures { result ≡ depth_of flags.now }
{
    match flags {
        [_, _, b's', ..] => 1,
        [_, _, b'h', ..] => 2,
        [_, _, b'H', ..] => 3,
        [_, _, b'z', ..] => 4,
        [_, _, b'Z', ..] => 5,
        _ => 0,
    }
}

/// What words tell of this task and CPU, of which the first is a time.
#[tactic(auto, unfolding(crate::specs::Headings::stamped))]
fn stamped<'w, 'a>(
    task: u64,
    cpu: u64,
    context: Option<u32>,
    words: &'w [&'a [u8]],
) -> Option<Heading<'w, 'a>>
    ensures { let told = stamped task cpu context (map (λ w. w.now) words.now) in
        MatchOption result (told ≡ None) (λ h. told ≡ Some (heading_value h)) }
{
    let [time, event, fields @ ..] = words else {
        return None;
    };
    let Some(time) = time_of(time) else {
        return None;
    };
    match event_of(event) {
        Some(event) => Some(Heading {
            task,
            cpu,
            context,
            time,
            event,
            fields,
        }),
        None => None,
    }
}

/// What words tell of this task, of which the first is a CPU. Flags may be between that and the time.
#[tactic(auto, unfolding(crate::specs::Headings::heading_at))]
fn heading_at<'w, 'a>(task: u64, words: &'w [&'a [u8]]) -> Option<Heading<'w, 'a>>
    ensures { let told = heading_at task (map (λ w. w.now) words.now) in
        MatchOption result (told ≡ None) (λ h. told ≡ Some (heading_value h)) }
{
    let [first, rest @ ..] = words else {
        return None;
    };
    let Some(cpu) = cpu_of(first) else {
        return None;
    };
    if let Some(found) = stamped(task, cpu, None, rest) {
        return Some(found);
    }
    match rest {
        [flags, after @ ..] => stamped(task, cpu, Some(depth_of(flags)), after),
        [] => None,
    }
}

/// What the words of a line tell behind its first word: from the first place on where they tell something. The task is that of
/// the last word before it that names one.
pub(crate) fn find_heading<'w, 'a>(words: &'w [&'a [u8]]) -> Option<Heading<'w, 'a>>
    ensures { let told = heading_of (map (λ w. w.now) words.now) in
        MatchOption result (told ≡ None) (λ h. told ≡ Some (heading_value h)) }
{
    let mut task = 0;
    let mut rest = words;
    while let [word, after @ ..] = rest {
        task = task_of(word).unwrap_or(task);
        if let Some(found) = heading_at(task, after) {
            return Some(found);
        }
        rest = after;
    }
    None
}
