//! The proved machine for C and Rust: a static library with the exports of `include/smp.h`.
//!
//! Each call reads its input, writes what there is to print into the caller's bytes, and keeps nothing. No memory is handed
//! out, and none is left behind. The status is 0 where the answer is yes, 1 where it is no, and 2 where it could not be done.
//!
//! C keeps to the types alone: each pointer with a length has that many bytes, and no pointer is null, also where the length
//! is 0. The bytes to write lie apart from all else that is passed.
//!
//! - `report`: What is reported of a script, a trace of steps or a trace of events.
//! - `answer`: How a report is put into the caller's memory.
#![tactic(auto)]

mod answer;
mod report;

ghost use Rattle.trace_judge.specs.Verdict.{verdict_of};
ghost use Rattle.smp_script.specs.Script.{script_of};
ghost use Rattle.smp_script.specs.declared.mode.Mode.TheVariants.{Replay};
ghost use Rattle.trace_c.specs.Exports.{IsChecked, IsJudged, IsReplayed};
ghost use Rattle.trace_c.specs.Reports.{Answers};

use crate::answer::{SmpAnswer, give};
use crate::report::{check, judge, replay};
use std::alloc::Global;

/// Judges a trace of events, as `smp judge` does: 0 where some run of the model has these events, 1 where none has the
/// event of `line`, 2 where the text is no trace or memory was refused.
#[unsafe(no_mangle)]
pub extern "C" fn smp_judge(
    alloc: Global,
    trace: &[u8],
    out: &mut [u8],
    answer: &mut SmpAnswer,
) -> i32
    ensures { Answers (IsJudged (verdict_of trace.now)) result answer.new out.old out.new }
{
    give(judge(alloc, trace), out, answer)
}

/// Replays a script, as `smp_runner replay` does: 0 where all its events were made, 1 where one was refused, as the last
/// line of the text says, 2 where the text is no lawful script or memory was refused.
#[unsafe(no_mangle)]
pub extern "C" fn smp_replay(
    alloc: Global,
    script: &[u8],
    out: &mut [u8],
    answer: &mut SmpAnswer,
) -> i32
    ensures { Answers (IsReplayed (script_of Replay script.now)) result answer.new out.old out.new }
{
    give(replay(alloc, script), out, answer)
}

/// Holds a trace of steps against a script, as `smp check` does: 0 where the replay prints just that, 1 where `line` is the
/// first that differs, 2 where the script is not lawful or memory was refused.
#[unsafe(no_mangle)]
pub extern "C" fn smp_check(
    alloc: Global,
    script: &[u8],
    trace: &[u8],
    out: &mut [u8],
    answer: &mut SmpAnswer,
) -> i32
    ensures { Answers (IsChecked (script_of Replay script.now) trace.now) result answer.new out.old out.new }
{
    give(check(alloc, script, trace), out, answer)
}
