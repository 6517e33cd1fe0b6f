//! A script from a reader, and what is shown of it to a writer.

ghost use Rattle.std.specs.Prelude.{◌≡◌, IfOk, IfErr, IfSome, None, true, false, Err, OnOk};
ghost use Rattle.smp_script.specs.Watched.{inner_of, failed_of, flushed_of};
ghost use Rattle.smp_script.specs.Transforms.{HasFault, Makes};
ghost use Rattle.smp_mask.specs.declared.error.Side.TheVariants.{Read as ReadSide};
ghost use Rattle.view.specs.Explains.{Explains, IsExplained, NeverFaults, SaysLine, no_fault_text};
ghost use Rattle.view.specs.Kinds.{mode_of};
ghost use Rattle.view.specs.Pages.{Pages};
ghost use Rattle.view.specs.Shows.{IsShown, Shows};

use crate::choice::{Choice, Mark};
use crate::explain::explanation;
use crate::fault::{Fault, first_fault};
use crate::json::json;
use crate::lanes::{chosen_columns, lanes};
use crate::page::paged;
use crate::svg::draw;
use crate::text_kind::{TextKind, kind_of};
use smp_mask::SmpError;
use smp_script::line::parts;
use smp_script::script::{Script, read_script};
use smp_script::stream::{read_text, write_made};
use smp_script::{Mode, Outcome, Watched};
use std::alloc::{AllocError, Allocator};
use std::io::{Read, Write};
use trace_events::replay::{ending, rows_of_script};
use trace_events::rows::Row;

/// A script that was read, and what is seen of its replay.
#[derive(Drop)]
pub struct Replay<'a, A: Allocator> {
    pub text: &'a [u8],
    pub script: Script<A>,
    pub rows: Vec<Row, A>,
}

/// How a replay is shown.
#[derive(Clone, Copy)]
enum Form {
    Lanes,
    Svg,
    Json,
}

// The table of what is chosen of a replay.
fn table<A: Allocator + Copy>(
    alloc: A,
    choice: &Choice,
    replay: &Replay<'_, A>,
) -> Result<String<A>, AllocError> {
    let cpus = chosen_columns(alloc, choice, replay.script.online)?;
    let chosen = choice.chosen(alloc, replay.rows.as_slice())?;
    let lines = parts(alloc, replay.text, b'\n')?;
    lanes(alloc, cpus.as_slice(), lines.as_slice(), chosen.as_slice())
}

// What is chosen of a replay, in this form.
fn drawn<A: Allocator + Copy>(
    alloc: A,
    form: Form,
    choice: &Choice,
    replay: &Replay<'_, A>,
) -> Result<String<A>, AllocError> {
    match form {
        Form::Lanes => table(alloc, choice, replay),
        Form::Svg => draw(alloc, choice, replay),
        Form::Json => json(alloc, choice, replay),
    }
}

// What is chosen of the replay of the script in this text, in this form, and how the replay ended.
fn shown<A: Allocator + Copy>(
    alloc: A,
    form: Form,
    choice: &Choice,
    text: &[u8],
) -> Result<(Vec<u8, A>, Outcome), SmpError>
    ensures { Makes IsShown (HasFault Mode.Replay) text.now result }
{
    let script = read_script(alloc, Mode::Replay, text)?;
    let rows = rows_of_script(alloc, &script)?;
    let ended = ending(rows.as_slice());
    let replay = Replay { text, script, rows };
    let Ok(out) = drawn(alloc, form, choice, &replay) else {
        return Err(SmpError::NoMemory);
    };
    Ok((out.into_bytes(), ended))
}

/// Reads a script, and writes what is chosen of its replay with one column for each CPU.
///
/// Refusals, in this order: `StreamFailed(Read)` where the reader failed, `BadScript` with the first fault where
/// the script is not lawful, `NoMemory` where a growth was refused, `StreamFailed(Write)` where the writer failed. Only at
/// the last has anything been written.
pub fn show_lanes<A: Allocator + Copy, R: Read, W: Write>(
    alloc: A,
    choice: &Choice,
    reader: &mut Watched<R>,
    writer: &mut Watched<W>,
) -> Result<Outcome, SmpError>
    requires reads { failed_of reader.old ≡ false }
    ensures order { failed_of reader.new ≡ true → result ≡ Err (SmpError.StreamFailed ReadSide) }
    ensures shows { Shows (R.remaining (inner_of reader.old)) (R.remaining (inner_of reader.new))
        (W.contents (inner_of writer.old)) (W.contents (inner_of writer.new)) (writer.new ≡ writer.old)
        (failed_of reader.new) (failed_of writer.new) result }
    ensures kept { OnOk result (failed_of writer.new ≡ failed_of writer.old) }
    ensures flushed { OnOk result (flushed_of writer.new ≡ true) }
{
    let text = read_text(alloc, reader)?;
    write_made(writer, shown(alloc, Form::Lanes, choice, text.as_slice()))
}

/// Reads a script, and writes a picture of what is chosen of its replay.
///
/// Refusals as those of `show_lanes`.
pub fn show_svg<A: Allocator + Copy, R: Read, W: Write>(
    alloc: A,
    choice: &Choice,
    reader: &mut Watched<R>,
    writer: &mut Watched<W>,
) -> Result<Outcome, SmpError>
    requires reads { failed_of reader.old ≡ false }
    ensures order { failed_of reader.new ≡ true → result ≡ Err (SmpError.StreamFailed ReadSide) }
    ensures shows { Shows (R.remaining (inner_of reader.old)) (R.remaining (inner_of reader.new))
        (W.contents (inner_of writer.old)) (W.contents (inner_of writer.new)) (writer.new ≡ writer.old)
        (failed_of reader.new) (failed_of writer.new) result }
    ensures kept { OnOk result (failed_of writer.new ≡ failed_of writer.old) }
    ensures flushed { OnOk result (flushed_of writer.new ≡ true) }
{
    let text = read_text(alloc, reader)?;
    write_made(writer, shown(alloc, Form::Svg, choice, text.as_slice()))
}

/// Reads a script, and writes what is chosen of its replay in the trace-event format.
///
/// Refusals as those of `show_lanes`.
pub fn show_json<A: Allocator + Copy, R: Read, W: Write>(
    alloc: A,
    choice: &Choice,
    reader: &mut Watched<R>,
    writer: &mut Watched<W>,
) -> Result<Outcome, SmpError>
    requires reads { failed_of reader.old ≡ false }
    ensures order { failed_of reader.new ≡ true → result ≡ Err (SmpError.StreamFailed ReadSide) }
    ensures shows { Shows (R.remaining (inner_of reader.old)) (R.remaining (inner_of reader.new))
        (W.contents (inner_of writer.old)) (W.contents (inner_of writer.new)) (writer.new ≡ writer.old)
        (failed_of reader.new) (failed_of writer.new) result }
    ensures kept { OnOk result (failed_of writer.new ≡ failed_of writer.old) }
    ensures flushed { OnOk result (flushed_of writer.new ≡ true) }
{
    let text = read_text(alloc, reader)?;
    write_made(writer, shown(alloc, Form::Json, choice, text.as_slice()))
}

/// Reads a script, and writes its replay as one page of HTML to step through. The page opens at the event that is marked,
/// else at the first. Its own script, which is not proved, draws what the page's lines of events have.
///
/// Refusals as those of `show_lanes`.
pub fn show_page<A: Allocator + Copy, R: Read, W: Write>(
    alloc: A,
    mark: Option<Mark>,
    reader: &mut Watched<R>,
    writer: &mut Watched<W>,
) -> Result<Outcome, SmpError>
    requires reads { failed_of reader.old ≡ false }
    ensures order { failed_of reader.new ≡ true → result ≡ Err (SmpError.StreamFailed ReadSide) }
    ensures pages { Pages mark (R.remaining (inner_of reader.old)) (R.remaining (inner_of reader.new))
        (W.contents (inner_of writer.old)) (W.contents (inner_of writer.new)) (writer.new ≡ writer.old)
        (failed_of reader.new) (failed_of writer.new) result }
    ensures kept { OnOk result (failed_of writer.new ≡ failed_of writer.old) }
    ensures flushed { OnOk result (flushed_of writer.new ≡ true) }
{
    let text = read_text(alloc, reader)?;
    write_made(writer, paged(alloc, mark, text.as_slice()))
}

// The kind of script that a text is explained as: a run where its first line says so, else a replay.
fn mode_of(text: &[u8]) -> Mode
    ensures { result ≡ mode_of text.now }
{
    match kind_of(text) {
        Some(TextKind::Run) => Mode::Run,
        _ => Mode::Replay,
    }
}

/// What is said of a text by its first fault, and how that ends: with `Done` where it has none, else with `Stopped`. E6 where
/// a growth is refused.
pub fn explained<A: Allocator + Copy>(
    alloc: A,
    text: &[u8],
    found: Option<Fault>,
) -> Result<(Vec<u8, A>, Outcome), SmpError>
    ensures none { IfOk result (λ r. found ≡ None → (r.0.items ≡ no_fault_text) × (r.1 ≡ Outcome.Done)) }
    ensures line { IfOk result (λ r. IfSome found (λ f. SaysLine f.line r.0.items × (r.1 ≡ Outcome.Stopped))) }
    ensures err { IfErr result (λ e. e ≡ SmpError.NoMemory) }
{
    let Ok(said) = explanation(alloc, text, found) else {
        return Err(SmpError::NoMemory);
    };
    let ending = if found.is_some() {
        Outcome::Stopped
    } else {
        Outcome::Done
    };
    Ok((said.into_bytes(), ending))
}

// What is said of the script in this text by its first fault, and how that ends.
fn explained_script<A: Allocator + Copy>(
    alloc: A,
    text: &[u8],
) -> Result<(Vec<u8, A>, Outcome), SmpError>
    ensures { Makes IsExplained NeverFaults text.now result }
{
    let found = first_fault(alloc, mode_of(text), text)?;
    explained(alloc, text, found)
}

/// Reads a script of either kind, and writes what its first fault is and what may be there. It ends with `Done` where the
/// script is lawful, else with `Stopped`.
///
/// Refusals, in this order: `StreamFailed(Read)` where the reader failed, `NoMemory` where a growth was refused,
/// `StreamFailed(Write)` where the writer failed. Only at the last has anything been written.
pub fn explain_script<A: Allocator + Copy, R: Read, W: Write>(
    alloc: A,
    reader: &mut Watched<R>,
    writer: &mut Watched<W>,
) -> Result<Outcome, SmpError>
    requires reads { failed_of reader.old ≡ false }
    ensures order { failed_of reader.new ≡ true → result ≡ Err (SmpError.StreamFailed ReadSide) }
    ensures explains { Explains (R.remaining (inner_of reader.old)) (R.remaining (inner_of reader.new))
        (W.contents (inner_of writer.old)) (W.contents (inner_of writer.new)) (writer.new ≡ writer.old)
        (failed_of reader.new) (failed_of writer.new) result }
    ensures kept { OnOk result (failed_of writer.new ≡ failed_of writer.old) }
    ensures flushed { OnOk result (flushed_of writer.new ≡ true) }
{
    let text = read_text(alloc, reader)?;
    write_made(writer, explained_script(alloc, text.as_slice()))
}
