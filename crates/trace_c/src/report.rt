//! What is reported of an input.

ghost use Rattle.std.specs.Prelude.{◌≡◌};
ghost use Rattle.trace_judge.specs.Verdict.{verdict_of};
ghost use Rattle.smp_script.specs.Script.{script_of};
ghost use Rattle.smp_script.specs.declared.mode.Mode.TheVariants.{Replay};
ghost use Rattle.trace_c.specs.Exports.{IsChecked, IsJudged, IsReplayed, no, yes};
ghost use Rattle.trace_c.specs.Reports.{Finds, report_of};

use smp_mask::SmpError;
use smp_replay::difference::difference_text;
use smp_replay::{check_steps, print_script};
use std::alloc::Global;
use trace_judge::Verdict;
use trace_judge::verdict::write_verdict;

/// What is reported of an input.
#[derive(Drop)]
pub struct Report {
    /// Whether the answer is yes.
    pub is_yes: bool,
    /// The line that the answer names; 0 where it names none.
    pub line: usize,
    /// What there is to print.
    pub text: Vec<u8>,
}

impl Report {
    fn yes(text: Vec<u8>) -> Report
        ensures { report_of result ≡ yes text.items }
    {
        Report {
            is_yes: true,
            line: 0,
            text,
        }
    }

    fn no(line: usize, text: Vec<u8>) -> Report
        ensures { report_of result ≡ no line text.items }
    {
        Report {
            is_yes: false,
            line,
            text,
        }
    }
}

/// The verdict on a trace of events.
pub fn judge(alloc: Global, trace: &[u8]) -> Result<Report, SmpError>
    ensures { Finds (IsJudged (verdict_of trace.now)) result }
{
    let verdict = trace_judge::judge(alloc, trace)?;
    let mut text = String::new(alloc);
    let Ok(()) = write_verdict(&mut text, &verdict) else {
        return Err(SmpError::NoMemory);
    };
    let text = text.into_bytes();
    match &verdict {
        Verdict::Lawful(..) => Ok(Report::yes(text)),
        Verdict::Broken(line, ..) => Ok(Report::no(*line as usize, text)),
    }
}

/// What a script prints.
pub fn replay(alloc: Global, script: &[u8]) -> Result<Report, SmpError>
    ensures { Finds (IsReplayed (script_of Replay script.now)) result }
{
    let printed = print_script(alloc, script)?;
    let stopped = printed.stopped;
    Ok(Report {
        is_yes: !stopped,
        line: 0,
        text: printed.text.into_bytes(),
    })
}

/// How a trace of steps differs from what a script prints.
pub fn check(alloc: Global, script: &[u8], trace: &[u8]) -> Result<Report, SmpError>
    ensures { Finds (IsChecked (script_of Replay script.now) trace.now) result }
{
    let checked = check_steps(alloc, script, trace)?;
    let Some(difference) = checked.difference else {
        return Ok(Report::yes(Vec::new(alloc)));
    };
    match difference_text(alloc, difference, checked.printed.as_bytes(), trace) {
        Ok(text) => Ok(Report::no(difference.line, text)),
        Err(_) => Err(SmpError::NoMemory),
    }
}
