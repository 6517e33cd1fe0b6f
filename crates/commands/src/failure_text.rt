//! Why a text was not shown, explored or judged to its end, on standard error.

use crate::failure::Failure;
use explore::WalkEnd;
use std::io;
use trace_ftrace::wrong::{Refusal, Wrong};
use view::explain::explanation;
use view::fault::Fault;
use view::text_kind::TextKind;

// The fault of a text of this name, as `smp explain` explains it.
fn tell_fault(rt: &HostRuntime, name: &str, text: &[u8], fault: Fault) -> io::Result<()> {
    match explanation(rt.alloc(), text, Some(fault)) {
        Ok(said) => eprint!(rt; "smp: {name}: {said}"),
        Err(_) => eprintln!(rt; "smp: no memory"),
    }
}

// The kind of a text that is of another kind than is taken, and what takes it.
fn tell_kind(rt: &HostRuntime, name: &str, kind: TextKind) -> io::Result<()> {
    let (what, takers) = (kind.name(), kind.takers());
    eprintln!(rt; "smp: {name}: line 1 is that of {what}: {takers}")
}

// What is wrong with a line that a kernel's tracer wrote.
fn wrong_text(why: Wrong) -> &'static str {
    match why {
        Wrong::Form => "this is no line of ftrace, or says that events were lost",
        Wrong::Lost => "the buffers hold fewer events than were written",
        Wrong::Time => "the time of its CPU goes back",
        Wrong::Field => "a field is missing or is no number",
        Wrong::Cpu => "it names a CPU above 511, or above 31 in a stop",
        Wrong::Class => "csd_class without a csd_queue_cpu of this csd before it",
        Wrong::Records => "this is one csd more than 65536",
        Wrong::Stops => "more than 64 stops are open",
        Wrong::Offline => "a CPU goes off: what it queues then is not recorded",
    }
}

// Why what a kernel's tracer wrote is not judged.
fn tell_kernel(rt: &HostRuntime, name: &str, why: Refusal) -> io::Result<()> {
    match why {
        Refusal::Wrong(line, why) => {
            let said = wrong_text(why);
            eprintln!(rt; "smp: {name}: line {line}: {said}")
        }
        Refusal::TooLong => {
            eprintln!(rt; "smp: {name}: it has more than 536870912 bytes or 1000000 events")
        }
        Refusal::LongTrace => eprintln!(rt;
            "smp: {name}: the trace that it tells has more than 1000000 lines or 16777216 bytes"
        ),
        Refusal::Unplaced => {
            eprintln!(rt; "smp: {name}: the order that was chosen is none that its lines allow")
        }
        Refusal::NoMemory => eprintln!(rt; "smp: no memory"),
    }
}

/// Says why this text, which has this name, was not shown, explored or judged to its end.
pub fn tell(rt: &HostRuntime, name: &str, text: &[u8], failure: Failure) -> io::Result<()> {
    match failure {
        Failure::Unread(reason) => eprintln!(rt; "smp: {name}: {reason}"),
        Failure::Unwritten(Some(reason)) => eprintln!(rt; "smp: standard output: {reason}"),
        Failure::Unwritten(None) => eprintln!(rt; "smp: standard output takes no more"),
        Failure::NoTrace(reason) => eprintln!(rt; "smp: the trace of steps: {reason}"),
        Failure::NoFolder(Some(reason)) => eprintln!(rt; "smp: the folder of --scripts: {reason}"),
        Failure::NoFolder(None) => eprintln!(rt; "smp: the folder of --scripts is a file"),
        Failure::Unsaved => eprintln!(rt; "smp: {name}: not each script is in its file"),
        Failure::NoWord => eprintln!(rt;
            "smp: a WORD is none of this table; head.2 and queued.0.1 are such words"
        ),
        Failure::NoOutcome => eprintln!(rt; "smp: {name}: no outcome has the number of --only"),
        Failure::NoExpectation => {
            eprintln!(rt; "smp: {name}: there is no expectation on the line of --only")
        }
        Failure::OtherKind(kind) => tell_kind(rt, name, kind),
        Failure::Fault(fault) => tell_fault(rt, name, text, fault),
        Failure::Kernel(why) => tell_kernel(rt, name, why),
        Failure::NoLine => eprintln!(rt; "smp: {name}: there is no line of the number of --around"),
        Failure::NoEvent => eprintln!(rt; "smp: {name}: no line tells an event of calls or stops"),
        Failure::NoMemory => eprintln!(rt; "smp: no memory"),
    }
}

/// Says why the file of this path has no script.
pub fn tell_unsaved(rt: &HostRuntime, path: &str, reason: io::Error) -> io::Result<()> {
    eprintln!(rt; "smp: {path}: {reason}")
}

/// Says how a run ended that was written down.
pub fn tell_end(rt: &HostRuntime, end: WalkEnd) -> io::Result<()> {
    match end {
        WalkEnd::Over => eprintln!(rt; "smp: the run has ended: all programs are over"),
        WalkEnd::Broken => {
            eprintln!(rt; "smp: the run is stuck: no CPU can move, and a program is not over")
        }
        WalkEnd::Cut => eprintln!(rt; "smp: the run is cut: it has made as many steps as it may"),
    }
}

/// Says which limit was met, where nothing else is printed: this line, which has its line feed.
pub fn tell_limit(rt: &HostRuntime, line: &str) -> io::Result<()> {
    eprint!(rt; "smp: {line}")
}
