//! The verdict on a file of a kernel's tracer, whose text is not held as a whole.

ghost use Rattle.std.specs.Prelude.{List, ℕ, Ok, IfSome};
ghost use Rattle.trace_ftrace.specs.Asked.{PrintsAsked};
ghost use Rattle.trace_ftrace.specs.Reading.{reading_of};

use std::fs::File;
use trace_ftrace::reader::judge_twice;
use trace_ftrace::text::Asked;
use trace_judge::Ruling;

/// What is printed of a text in a regular file, which is read in pieces, and again where it is not lawful. None where it is refused,
/// can't be read, or has another length when it was read: then its whole text says what is printed.
pub fn judge_file(rt: &HostRuntime, path: &str, asked: Asked) -> Option<(Vec<u8>, Ruling)>
    ensures { IfSome result (λ r. (text shown : List ℕ) × PrintsAsked (Ok r) asked shown (reading_of asked.skip text)) }
{
    let mut file = File::open(rt, path).ok()?;
    let before = file.metadata().ok()?;
    if !before.is_file() {
        return None;
    }
    let mut again = File::open(rt, path).ok()?;
    let (out, ruling) = judge_twice(rt.alloc(), asked, &mut file, &mut again)?;
    if ruling == Ruling::Broken && again.metadata().ok()?.len() != before.len() {
        return None;
    }
    Some((out, ruling))
}
