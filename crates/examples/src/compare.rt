//! What an example prints, beside what it is to print.

ghost use Rattle.std.specs.Prelude.{◌≡◌, false};
ghost use Rattle.std.specs.Str.{bytes_eq};
ghost use Rattle.smp_script.specs.Watched.{failed_of};

use crate::kind::Kind;
use explore::Unwatched;
use explore_text::explore_script;
use smp_mask::{Cause, SmpError};
use smp_replay::replay_script;
use smp_run::{FreePace, run_script};
use smp_script::Watched;
use smp_script::line::parts;
use std::alloc::Global;
use std::sync::Wait;
use std::thread::Threads;
use trace_events::show_events;
use trace_ftrace::print::print_kernel;
use trace_ftrace::text::{MOST_WAIT, judge_kernel, judge_ordered};
use trace_ftrace::wrong::Refusal;
use trace_judge::{Ruling, judge_trace};
use trace_page::{NoPicture, picture_of_kernel};
use view::{Choice, show_lanes};

/// What is between two texts of a file.
const FORM_FEED: u8 = 12;

// Whether these are the same bytes.
fn are_same(printed: &[u8], expected: &[u8]) -> bool
    ensures { result ≡ bytes_eq printed.now expected.now }
{
    printed == expected
}

// Takes an example as its kind says.
fn take<T: Threads + Wait + Sync>(
    threads: &T,
    alloc: Global,
    kind: Kind,
    reader: &mut Watched<&[u8]>,
    writer: &mut Watched<Vec<u8>>,
) -> Option<SmpError>
    requires reads { failed_of reader.old ≡ false }
    requires writes { failed_of writer.old ≡ false }
{
    match kind {
        Kind::Replay => replay_script(alloc, reader, writer).err(),
        Kind::Run => run_script(threads, alloc, reader, writer, &FreePace).err(),
        Kind::Lanes => show_lanes(alloc, &Choice::ALL, reader, writer).err(),
        Kind::Explore(task) => {
            explore_script(alloc, task, reader, writer, &mut Unwatched(threads)).err()
        }
        Kind::Judge
        | Kind::Kernel
        | Kind::KernelOrder
        | Kind::KernelTrace
        | Kind::KernelPicture(_) => judge_trace(alloc, reader, writer).err(),
        Kind::Events => show_events(alloc, reader, writer).err(),
    }
}

// Why what a kernel's tracer wrote is not taken.
fn refused(why: Refusal) -> SmpError {
    match why {
        Refusal::Wrong(line, _) => SmpError::BadScript {
            line,
            cause: Cause::Word,
        },
        _ => SmpError::NoMemory,
    }
}

// The trace that such a text tells.
fn traced(alloc: Global, text: &[u8]) -> Result<Vec<u8>, SmpError> {
    match print_kernel(alloc, 0, text) {
        Ok(trace) => Ok(trace),
        Err(why) => Err(refused(why)),
    }
}

// The picture of such a text around a line.
fn pictured(alloc: Global, line: u32, text: &[u8]) -> Result<Vec<u8>, SmpError> {
    match picture_of_kernel(alloc, 0, line, text) {
        Ok(picture) => Ok(picture),
        Err(NoPicture::Line) | Err(NoPicture::Events) => Err(SmpError::BadScript {
            line,
            cause: Cause::Range,
        }),
        Err(NoPicture::Text(why)) => Err(refused(why)),
    }
}

// Whether the trace that such a text tells has this ruling.
fn trace_is(alloc: Global, text: &[u8], ruling: Ruling) -> Result<bool, SmpError> {
    let trace = traced(alloc, text)?;
    let mut reader = Watched::new(trace.as_slice());
    let mut writer = Watched::new(Vec::new(alloc));
    let found = judge_trace(alloc, &mut reader, &mut writer)?;
    Ok(found == ruling)
}

// Appends what is printed of the verdict on what a kernel's tracer wrote, and answers whether the trace of it has the same ruling.
fn push_verdict(alloc: Global, out: &mut Vec<u8>, text: &[u8]) -> Result<bool, SmpError> {
    match judge_kernel(alloc, 0, text) {
        Ok((printed, ruling)) => {
            if out.extend_from_slice(printed.as_slice()).is_err() {
                return Err(SmpError::NoMemory);
            }
            trace_is(alloc, text, ruling)
        }
        Err(why) => Err(refused(why)),
    }
}

// Whether the verdicts on the texts between form feeds, with their order, are printed as these bytes.
fn orders_print(alloc: Global, text: &[u8], expected: &[u8]) -> Result<bool, SmpError> {
    let Ok(texts) = parts(alloc, text, FORM_FEED) else {
        return Err(SmpError::NoMemory);
    };
    let mut out = Vec::new(alloc);
    for one in texts.iter() {
        let printed = match judge_ordered(alloc, 0, MOST_WAIT, one) {
            Ok((printed, _)) => printed,
            Err(why) => return Err(refused(why)),
        };
        if out.extend_from_slice(printed.as_slice()).is_err() {
            return Err(SmpError::NoMemory);
        }
    }
    Ok(are_same(out.as_slice(), expected))
}

// Whether the verdicts on the texts between form feeds are printed as these bytes, and the trace of each has the same ruling.
fn verdicts_print(alloc: Global, text: &[u8], expected: &[u8]) -> Result<bool, SmpError> {
    let Ok(texts) = parts(alloc, text, FORM_FEED) else {
        return Err(SmpError::NoMemory);
    };
    let mut out = Vec::new(alloc);
    let mut all = true;
    for one in texts.iter() {
        all = push_verdict(alloc, &mut out, one)? && all;
    }
    Ok(all && are_same(out.as_slice(), expected))
}

/// Whether an example of this kind prints these bytes, to the last. `BadScript` where its text is none of this kind,
/// `NoMemory` where a growth was refused or a thread can't be started.
pub fn prints<T: Threads + Wait + Sync>(
    threads: &T,
    alloc: Global,
    kind: Kind,
    text: &[u8],
    expected: &[u8],
) -> Result<bool, SmpError> {
    match kind {
        Kind::Kernel => return verdicts_print(alloc, text, expected),
        Kind::KernelOrder => return orders_print(alloc, text, expected),
        Kind::KernelTrace => return Ok(are_same(traced(alloc, text)?.as_slice(), expected)),
        Kind::KernelPicture(line) => {
            return Ok(are_same(pictured(alloc, line, text)?.as_slice(), expected));
        }
        _ => {}
    }
    let mut reader = Watched::new(text);
    let mut writer = Watched::new(Vec::new(alloc));
    if let Some(error) = take(threads, alloc, kind, &mut reader, &mut writer) {
        return Err(error);
    }
    let printed = writer.into_inner();
    Ok(are_same(printed.as_slice(), expected))
}
