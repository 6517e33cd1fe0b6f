//! The verdict on a text of the tracer.

ghost use Rattle.std.specs.Prelude.{◌≡◌, map, List, ℕ, Ok};
ghost use Rattle.trace_ftrace.specs.Asked.{order_judged, PrintsAsked, RulesBy};
ghost use Rattle.trace_ftrace.specs.KeptView.{kept_value};
ghost use Rattle.trace_ftrace.specs.Offline.{made_of, unless_hidden};
ghost use Rattle.trace_ftrace.specs.Reading.{reading_of};
ghost use Rattle.trace_ftrace.specs.SourceView.{source_value};
ghost use Rattle.trace_ftrace.specs.Text.{ruling_of, Prints, PrintsInOrder, PrintsSeen};
ghost use Rattle.trace_ftrace.specs.ThinText.{lines_shown, ShowSame};
ghost use Rattle.trace_ftrace.specs.ToldView.{telling_value};

use crate::bounds::shows_order;
use crate::kept::{Mark, functions_of};
use crate::names::Names;
use crate::offline::hidden_by;
use crate::ordered::judge_in_order;
use crate::verdict::{Reading, judge_told, read_told};
use crate::verdict_text::{OrderJudged, Source, shown};
use crate::wrong::{Refusal, Wrong};
use std::alloc::Allocator;
use trace_judge::{Ruling, Verdict};

/// A call that waits for no more nanoseconds is not told where no other number is asked for.
pub const MOST_WAIT: u64 = 100_000_000;

/// What is asked of a text: its first `skip` nanoseconds are left out, each call is told that is not begun or waited for more than
/// `slow` nanoseconds, and the order of its appends is judged or not.
///
/// Order is judged where the lines show class and context of each call that is queued. An append is where its line is, or behind
/// that and before the next line of its CPU in no deeper context; of a trap before its own probe. The verdict is that on one such
/// order, with the takes of the CPUs in it. Where that is not lawful, none is known that is.
#[derive(Clone, Copy, Debug, PartialEq, Eq)]
pub struct Asked {
    pub skip: u64,
    pub slow: u64,
    pub order: bool,
}

/// Whether a verdict is that the text is lawful.
fn ruling_of<A: Allocator>(verdict: &Verdict<A>) -> Ruling
    ensures { result ≡ ruling_of verdict.now }
{
    match verdict {
        Verdict::Lawful(..) => Ruling::Lawful,
        Verdict::Broken(..) => Ruling::Broken,
    }
}

/// What is printed of a verdict, where no line hides it, and whether the text is lawful.
#[tactic(auto, using(crate::proofs::Printing::falls))]
fn said<A: Allocator + Copy>(
    alloc: A,
    source: &Source<'_>,
    verdict: &Verdict<A>,
) -> Result<(Vec<u8, A>, Ruling), Refusal>
    ensures { PrintsSeen result (source_value source.now) (unless_hidden source.now.offline (made_of verdict.now)) }
{
    match hidden_by(source.offline, verdict) {
        Some(line) => Err(Refusal::Wrong(line, Wrong::Offline)),
        None => match shown(alloc, source, verdict) {
            Ok(bytes) => Ok((bytes, ruling_of(verdict))),
            Err(_) => Err(Refusal::NoMemory),
        },
    }
}

/// Whether the order of appends is judged of these lines, where it is asked for or not.
fn order_judged(order: bool, marks: &[Mark]) -> OrderJudged
    ensures { result ≡ order_judged order marks.now }
{
    if !order {
        OrderJudged::Unasked
    } else if shows_order(marks) {
        OrderJudged::Judged
    } else {
        OrderJudged::Hidden
    }
}

/// What was read, with the lines of a text.
fn source_of<'a, A: Allocator>(
    text: &'a [u8],
    functions: &'a [&'a [u8]],
    reading: &'a Reading<A>,
    order: OrderJudged,
    slow: u64,
) -> Source<'a>
    ensures { source_value result ≡ record {
      text = text.now;
      names = record { addresses = reading.now.telling.addresses; functions = map (λ f. f.now) functions.now };
      marks = reading.now.kept.marks.items;
      offline = reading.now.kept.offline;
      told = reading.now.telling.told.items;
      order = order;
      slow = slow;
    } }
{
    let names = Names {
        addresses: reading.telling.addresses.as_slice(),
        functions,
    };
    Source {
        text,
        names,
        marks: reading.kept.marks.as_slice(),
        offline: reading.kept.offline,
        told: reading.telling.told.as_slice(),
        order,
        slow,
    }
}

/// The verdict on the events that what was read of a text tells. Where order is judged, it is that on an order of them.
///
/// Refusals: `TooLong`; `Wrong` where an event's CPU is above 511; `Unplaced`, which was never seen; `NoMemory`.
pub fn verdict_asked<A: Allocator + Copy>(
    alloc: A,
    order: bool,
    reading: &Reading<A>,
) -> Result<Verdict<A>, Refusal>
    ensures { let marks = reading.now.kept.marks.items in RulesBy result (order_judged order marks) marks reading.now.telling.told.items }
{
    let marks = reading.kept.marks.as_slice();
    let told = reading.telling.told.as_slice();
    match order_judged(order, marks) {
        OrderJudged::Judged => judge_in_order(alloc, marks, told),
        OrderJudged::Unasked | OrderJudged::Hidden => judge_told(alloc, told),
    }
}

/// What is printed of this verdict on what was read of a text, and whether the text is lawful. This text may be a thin one: what is
/// printed is that of each text with the same of the lines that are shown.
///
/// Refusals: `Wrong` where a CPU goes offline and may have caused the event that is refused; `NoMemory`.
pub fn print_verdict<A: Allocator + Copy>(
    alloc: A,
    asked: Asked,
    reading: &Reading<A>,
    verdict: &Verdict<A>,
    thin: &[u8],
) -> Result<(Vec<u8, A>, Ruling), Refusal>
    requires { let marks = reading.now.kept.marks.items in
        RulesBy (Ok verdict.now) (order_judged asked.order marks) marks reading.now.telling.told.items }
    ensures { (text : List ℕ) → ShowSame (lines_shown reading.now.telling.told.items verdict.now) text thin.now
        → PrintsAsked result asked text (Ok (kept_value reading.now.kept, telling_value reading.now.telling)) }
{
    let Ok(functions) = functions_of(alloc, &reading.kept) else {
        return Err(Refusal::NoMemory);
    };
    let order = order_judged(asked.order, reading.kept.marks.as_slice());
    let source = source_of(thin, functions.as_slice(), reading, order, asked.slow);
    said(alloc, &source, verdict)
}

/// Judges what was read of a text that a kernel's tracer wrote: what is printed of the verdict, with the lines of this text, and
/// whether the text that was read is lawful.
///
/// Refusals: those of `verdict_asked` and `print_verdict`.
#[tactic(auto, using(crate::proofs::ThinPrinting::fails_with, crate::proofs::ThinPrinting::same_lines))]
pub fn judge_read<A: Allocator + Copy>(
    alloc: A,
    asked: Asked,
    reading: &Reading<A>,
    text: &[u8],
) -> Result<(Vec<u8, A>, Ruling), Refusal>
    ensures { PrintsAsked result asked text.now (Ok (kept_value reading.now.kept, telling_value reading.now.telling)) }
{
    match verdict_asked(alloc, asked.order, reading) {
        Ok(verdict) => print_verdict(alloc, asked, reading, &verdict, text),
        Err(why) => Err(why),
    }
}

/// Judges a text that a kernel's tracer wrote: what is printed of the verdict, and whether the text is lawful.
///
/// Refusals: `TooLong`; `Wrong` with the first line at fault, or with the line that shows that a CPU has gone offline, where that may
/// have caused the event that is refused; where order is judged `Unplaced`, which was never seen; `NoMemory`.
#[tactic(auto, using(crate::proofs::ThinPrinting::fails_read))]
pub fn judge_asked<A: Allocator + Copy>(
    alloc: A,
    asked: Asked,
    text: &[u8],
) -> Result<(Vec<u8, A>, Ruling), Refusal>
    ensures { PrintsAsked result asked text.now (reading_of asked.skip text.now) }
{
    match read_told(alloc, asked.skip, text) {
        Ok(reading) => judge_read(alloc, asked, &reading, text),
        Err(why) => Err(why),
    }
}

/// Judges such a text as `judge_asked` does, without the order of its appends.
pub fn judge_waits<A: Allocator + Copy>(
    alloc: A,
    skip: u64,
    slow: u64,
    text: &[u8],
) -> Result<(Vec<u8, A>, Ruling), Refusal>
    ensures { Prints result text.now slow (reading_of skip text.now) }
{
    let order = false;
    judge_asked(alloc, Asked { skip, slow, order }, text)
}

/// Judges such a text as `judge_asked` does, with the order of its appends.
pub fn judge_ordered<A: Allocator + Copy>(
    alloc: A,
    skip: u64,
    slow: u64,
    text: &[u8],
) -> Result<(Vec<u8, A>, Ruling), Refusal>
    ensures { PrintsInOrder result text.now slow (reading_of skip text.now) }
{
    let order = true;
    judge_asked(alloc, Asked { skip, slow, order }, text)
}

/// Judges such a text as `judge_waits` does. It tells each call that waited for more than 100 milliseconds.
pub fn judge_kernel<A: Allocator + Copy>(
    alloc: A,
    skip: u64,
    text: &[u8],
) -> Result<(Vec<u8, A>, Ruling), Refusal>
    ensures { Prints result text.now 100000000 (reading_of skip text.now) }
{
    judge_waits(alloc, skip, MOST_WAIT, text)
}
