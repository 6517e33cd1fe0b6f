//! What is wrong with a text of any kind.

use explore_text::exploration::read_exploration;
use smp_mask::SmpError;
use smp_script::stream::write_made;
use smp_script::{Outcome, Watched};
use std::alloc::Global;
use std::io::Write;
use trace_judge::judge;
use view::fault::Fault;
use view::text_kind::{TextKind, kind_of};
use view::{explain_script, explained};

// The fault that a reader of texts has told of, if it has.
fn fault_told<T: Drop>(read: Result<T, SmpError>) -> Result<Option<Fault>, SmpError> {
    match read {
        Ok(_) => Ok(None),
        Err(SmpError::BadScript { line, cause }) => Ok(Some(Fault { line, cause })),
        Err(error) => Err(error),
    }
}

/// Writes what the first fault of a text is, by the kind that its first line names: `Done` where it has none.
pub fn explain_text<W: Write>(
    alloc: Global,
    text: &[u8],
    writer: &mut Watched<W>,
) -> Result<Outcome, SmpError> {
    let found = match kind_of(text) {
        Some(TextKind::Exploration) => fault_told(read_exploration(alloc, text))?,
        Some(TextKind::Trace) => fault_told(judge(alloc, text))?,
        _ => return explain_script(alloc, &mut Watched::new(text), writer),
    };
    write_made(writer, explained(alloc, text, found))
}
