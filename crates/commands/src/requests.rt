//! Does what the words of the command line ask for.

ghost use Rattle.std.specs.Prelude.{◌≡◌, false};
ghost use Rattle.smp_script.specs.Watched.{failed_of};

use crate::arguments::{Job, Request, View, read_words};
use crate::check::check_trace;
use crate::explain::explain_text;
use crate::failure::{Failure, failure_of};
use crate::failure_text::{tell, tell_end};
use crate::kernel_file::judge_file;
use crate::outcomes::{Question, print_outcomes};
use crate::searches::{Search, print};
use crate::status::{Answer, status_of};
use crate::streams::{Remembering, read_text};
use explore::{ManyThreads, Unwatched};
use explore_text::{Ending, Run, Task, explore_script};
use smp_mask::SmpError;
use smp_script::{Outcome, Watched};
use std::io;
use std::io::Write;
use std::thread::Threads;
use trace_events::show_events;
use trace_ftrace::json::json_of_kernel;
use trace_ftrace::print::print_kernel;
use trace_ftrace::text::judge_asked;
use trace_ftrace::verdict::MOST_KERNEL_BYTES;
use trace_ftrace::wrong::Refusal;
use trace_judge::body::MOST_TRACE_BYTES;
use trace_judge::{Ruling, judge_trace};
use trace_page::{NoPicture, page_of_kernel, page_of_trace, picture_of_kernel};
use view::text_kind::kind_of;
use view::{Choice, show_json, show_lanes, show_page, show_svg};

/// Shows a script.
fn show<W: Write>(
    rt: &HostRuntime,
    view: View,
    choice: &Choice,
    text: &[u8],
    writer: &mut Watched<W>,
) -> Result<Outcome, SmpError> {
    let mut reader = Watched::new(text);
    match view {
        View::Lanes => show_lanes(rt.alloc(), choice, &mut reader, writer),
        View::Svg => show_svg(rt.alloc(), choice, &mut reader, writer),
        View::Json => show_json(rt.alloc(), choice, &mut reader, writer),
        View::Page => show_page(rt.alloc(), choice.mark, &mut reader, writer),
    }
}

/// Writes down one run of an exploration, and says how it ended.
fn write_run<R: Threads + Sync, W: Write>(
    rt: &HostRuntime,
    by: &R,
    run: Run,
    text: &[u8],
    writer: &mut Watched<W>,
) -> Result<Ending, SmpError>
    requires { failed_of writer.old ≡ false }
{
    let mut reader = Watched::new(text);
    let ending = explore_script(
        rt.alloc(),
        Task::Write(run),
        &mut reader,
        writer,
        &mut Unwatched(by),
    )?;
    if let Ending::Written(end) = ending {
        tell_end(rt, end).is_ok();
    }
    Ok(ending)
}

// How a text was shown or explained.
fn shown(done: Result<Outcome, SmpError>) -> Result<Answer, Failure> {
    match done {
        Ok(outcome) => Ok(Answer::Shown(outcome)),
        Err(error) => Err(failure_of(error)),
    }
}

// How a run of an exploration was written down.
fn written(done: Result<Ending, SmpError>) -> Result<Answer, Failure> {
    match done {
        Ok(ending) => Ok(Answer::Explored(ending)),
        Err(error) => Err(failure_of(error)),
    }
}

// How a trace was judged.
fn judged(done: Result<Ruling, SmpError>) -> Result<Answer, Failure> {
    match done {
        Ok(ruling) => Ok(Answer::Judged(ruling)),
        Err(error) => Err(failure_of(error)),
    }
}

/// Writes the verdict on what a kernel's tracer wrote.
fn write_verdict<W: Write>(
    verdict: Result<(Vec<u8>, Ruling), Refusal>,
    writer: &mut Watched<W>,
) -> Result<Answer, Failure> {
    match verdict {
        Ok((out, ruling)) => {
            print(writer, out.as_slice())?;
            Ok(Answer::Judged(ruling))
        }
        Err(why) => Err(Failure::Kernel(why)),
    }
}

/// Writes what was made of the events of such a text.
fn write_events<W: Write>(
    made: Result<Vec<u8>, Refusal>,
    writer: &mut Watched<W>,
) -> Result<Answer, Failure> {
    match made {
        Ok(out) => {
            print(writer, out.as_slice())?;
            Ok(Answer::Shown(Outcome::Done))
        }
        Err(why) => Err(Failure::Kernel(why)),
    }
}

/// Writes the page of a trace, or of what a kernel's tracer wrote.
fn write_page<W: Write>(
    page: Result<(Vec<u8>, Ruling), Failure>,
    writer: &mut Watched<W>,
) -> Result<Answer, Failure> {
    let (out, ruling) = page?;
    print(writer, out.as_slice())?;
    Ok(Answer::Judged(ruling))
}

// The page of a trace.
fn trace_page(rt: &HostRuntime, text: &[u8]) -> Result<(Vec<u8>, Ruling), Failure> {
    match page_of_trace(rt.alloc(), text) {
        Ok(made) => Ok(made),
        Err(error) => Err(failure_of(error)),
    }
}

// The page of what a kernel's tracer wrote.
fn kernel_page(rt: &HostRuntime, skip: u64, text: &[u8]) -> Result<(Vec<u8>, Ruling), Failure> {
    match page_of_kernel(rt.alloc(), skip, text) {
        Ok(made) => Ok(made),
        Err(why) => Err(Failure::Kernel(why)),
    }
}

/// Writes the picture of what a kernel's tracer wrote around a line.
fn write_picture<W: Write>(
    made: Result<Vec<u8>, NoPicture>,
    writer: &mut Watched<W>,
) -> Result<Answer, Failure> {
    match made {
        Ok(out) => {
            print(writer, out.as_slice())?;
            Ok(Answer::Shown(Outcome::Done))
        }
        Err(NoPicture::Line) => Err(Failure::NoLine),
        Err(NoPicture::Events) => Err(Failure::NoEvent),
        Err(NoPicture::Text(why)) => Err(Failure::Kernel(why)),
    }
}

// The most bytes of a text that is read for this.
fn most_of(job: &Job<'_>) -> u32 {
    match job {
        Job::JudgeKernel(_) | Job::PrintKernel(_) => MOST_KERNEL_BYTES,
        Job::PageKernel(_) | Job::JsonKernel(_) | Job::DrawKernel(..) => MOST_KERNEL_BYTES,
        _ => MOST_TRACE_BYTES,
    }
}

/// Shows, explains or judges a script or a trace, and writes what is found.
fn do_script<W: Write>(
    rt: &HostRuntime,
    job: &Job<'_>,
    text: &[u8],
    writer: &mut Watched<W>,
) -> Result<Answer, Failure>
    requires { failed_of writer.old ≡ false }
{
    match job {
        Job::Show(view, choice) => shown(show(rt, *view, choice, text, writer)),
        Job::Events => shown(show_events(rt.alloc(), &mut Watched::new(text), writer)),
        Job::Check(trace) => Ok(Answer::Shown(check_trace(rt, trace, text, writer)?)),
        Job::Judge => judged(judge_trace(rt.alloc(), &mut Watched::new(text), writer)),
        Job::JudgeKernel(asked) => write_verdict(judge_asked(rt.alloc(), *asked, text), writer),
        Job::PrintKernel(skip) => write_events(print_kernel(rt.alloc(), *skip, text), writer),
        Job::JsonKernel(skip) => write_events(json_of_kernel(rt.alloc(), *skip, text), writer),
        Job::DrawKernel(skip, line) => {
            write_picture(picture_of_kernel(rt.alloc(), *skip, *line, text), writer)
        }
        Job::PageTrace => write_page(trace_page(rt, text), writer),
        Job::PageKernel(skip) => write_page(kernel_page(rt, *skip, text), writer),
        _ => shown(explain_text(rt.alloc(), text, writer)),
    }
}

/// The threads that work out the steps of a search.
fn threading_of<'r, R>(by: &'r R, request: &Request<'_>) -> ManyThreads<'r, R> {
    ManyThreads {
        rt: by,
        threads: request.threads as usize,
    }
}

/// Does this with a text, and writes what is found.
fn do_text<R: Threads + Sync, W: Write>(
    rt: &HostRuntime,
    by: &R,
    request: &Request<'_>,
    text: &[u8],
    writer: &mut Watched<W>,
) -> Result<Answer, Failure>
    requires { failed_of writer.old ≡ false }
{
    match &request.job {
        Job::Write(run) => written(write_run(rt, by, *run, text, writer)),
        Job::Outcomes(most, scripts) => {
            let question = Question {
                names: request.words.as_slice(),
                most: *most,
                scripts: *scripts,
                threading: threading_of(by, request),
            };
            Ok(Answer::Explored(print_outcomes(rt, &question, text, writer)?))
        }
        Job::Explore(orders, scripts) => {
            let search = Search {
                rt,
                orders: *orders,
                text,
                scripts: *scripts,
                threading: threading_of(by, request),
            };
            Ok(Answer::Explored(search.run(writer)?))
        }
        job => do_script(rt, job, text, writer),
    }
}

/// Does this with a text of the kind that it takes, and writes what is found to standard output.
fn do_kind<R: Threads + Sync>(
    rt: &HostRuntime,
    by: &R,
    request: &Request<'_>,
    text: &[u8],
) -> Result<Answer, Failure> {
    match (request.job.takes(), kind_of(text)) {
        (Some(taken), Some(kind)) if taken != kind => return Err(Failure::OtherKind(kind)),
        _ => {}
    }
    let mut writer = Watched::new(Remembering::new(rt.stdout()));
    let done = do_text(rt, by, request, text, &mut writer);
    match done {
        Err(Failure::Unwritten(_)) => Err(Failure::Unwritten(writer.into_inner().reason())),
        done => done,
    }
}

/// Writes the verdict on a text of a kernel's tracer in a file, without holding it; none where its whole text has to say more.
fn do_pieces(rt: &HostRuntime, request: &Request<'_>) -> Option<Result<Answer, Failure>> {
    let (Job::JudgeKernel(asked), Some(path)) = (&request.job, request.file) else {
        return None;
    };
    let (out, ruling) = judge_file(rt, path, *asked)?;
    let mut writer = Watched::new(Remembering::new(rt.stdout()));
    match print(&mut writer, out.as_slice()) {
        Ok(()) => Some(Ok(Answer::Judged(ruling))),
        Err(Failure::Unwritten(_)) => {
            Some(Err(Failure::Unwritten(writer.into_inner().reason())))
        }
        Err(failure) => Some(Err(failure)),
    }
}

/// Does what is asked for. Why it was not done is said on standard error.
fn do_request<R: Threads + Sync>(
    rt: &HostRuntime,
    by: &R,
    request: &Request<'_>,
) -> io::Result<Result<Answer, Failure>> {
    let name = request.file.unwrap_or("standard input");
    if let Some(done) = do_pieces(rt, request) {
        if let Err(failure) = done {
            tell(rt, name, &[], failure)?;
        }
        return Ok(done);
    }
    let text = match read_text(rt, most_of(&request.job), request.file) {
        Ok(text) => text,
        Err(reason) => {
            let failure = Failure::Unread(reason);
            tell(rt, name, &[], failure)?;
            return Ok(Err(failure));
        }
    };
    let done = do_kind(rt, by, request, text.as_slice());
    if let Err(failure) = done {
        tell(rt, name, text.as_slice(), failure)?;
    }
    Ok(done)
}

/// Does what the words of the command line ask for, the program's own name first, and answers the status: 0 where it is done, 1
/// where the answer is no, 2 where it could not be done.
///
/// `by` starts the threads of a search. What is found goes to standard output, and why it could not be done to standard error. The error is that of a stream to
/// which help, the version or such a reason could not be written.
pub fn do_words<R: Threads + Sync>(rt: &HostRuntime, by: &R, words: &[&str]) -> io::Result<u8> {
    let request = match read_words(rt.alloc(), words) {
        Ok(request) => request,
        Err(error) => {
            error.print(rt)?;
            return Ok(if error.use_stderr() { 2 } else { 0 });
        }
    };
    Ok(status_of(do_request(rt, by, &request)?))
}
