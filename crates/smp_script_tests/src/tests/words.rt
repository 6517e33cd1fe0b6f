//! Words of the command line, and what they ask for.

use clap::error::ErrorKind;
use commands::arguments::{Job, Request, View};
use commands::read_words;
use commands::searches::Scripts;
use explore::Most;
use explore_text::Orders;
use std::alloc::Global;
use std::test::*;
use trace_ftrace::text::Asked;
use view::Mark;

// What these words are refused as; none where they are taken.
fn refused(alloc: Global, words: &[&str]) -> Option<ErrorKind> {
    read_words(alloc, words).err().map(|e| e.kind())
}

#[test]
fn words_that_are_none_of_this_program(rt: HostRuntime) {
    let cases: [(&[&str], ErrorKind); 49] = [
        (&["smp"], ErrorKind::MissingSubcommand),
        (&["smp", "jump"], ErrorKind::InvalidSubcommand),
        (&["smp", "lanes", "one", "two"], ErrorKind::UnknownArgument),
        (
            &["smp", "explain", "--states", "9"],
            ErrorKind::UnknownArgument,
        ),
        (
            &["smp", "explore", "one", "two"],
            ErrorKind::UnknownArgument,
        ),
        (
            &["smp", "explore", "--stats", "9"],
            ErrorKind::UnknownArgument,
        ),
        (
            &["smp", "explore", "--states", "many"],
            ErrorKind::ValueValidation,
        ),
        (
            &["smp", "explore", "--states", "0"],
            ErrorKind::ValueValidation,
        ),
        (
            &["smp", "explore", "--states", "4294967296"],
            ErrorKind::ValueValidation,
        ),
        (
            &["smp", "explore", "--memory", "many"],
            ErrorKind::ValueValidation,
        ),
        (
            &["smp", "explore", "--memory", "0"],
            ErrorKind::ValueValidation,
        ),
        (
            &["smp", "explore", "--memory", "4294967296"],
            ErrorKind::ValueValidation,
        ),
        (
            &["smp", "explore", "--seed", "1"],
            ErrorKind::UnknownArgument,
        ),
        (
            &["smp", "explore", "--states", "5", "--states", "6"],
            ErrorKind::ArgumentConflict,
        ),
        (
            &["smp", "sample", "--memory", "64"],
            ErrorKind::UnknownArgument,
        ),
        (
            &["smp", "sample", "--runs", "0"],
            ErrorKind::ValueValidation,
        ),
        (
            &["smp", "sample", "--steps", "0"],
            ErrorKind::ValueValidation,
        ),
        (
            &["smp", "sample", "--seed", "18446744073709551616"],
            ErrorKind::ValueValidation,
        ),
        (
            &["smp", "script", "--runs", "7"],
            ErrorKind::UnknownArgument,
        ),
        (
            &["smp", "script", "--run", "4294967296"],
            ErrorKind::ValueValidation,
        ),
        (&["smp", "page", "--cpus", "0"], ErrorKind::UnknownArgument),
        (
            &["smp", "page", "--from", "perf"],
            ErrorKind::ValueValidation,
        ),
        (&["smp", "page", "--skip", "2"], ErrorKind::ValueValidation),
        (
            &["smp", "page", "--from", "trace", "--skip", "2"],
            ErrorKind::ValueValidation,
        ),
        (
            &["smp", "page", "--from", "ftrace", "--mark", "last"],
            ErrorKind::ValueValidation,
        ),
        (
            &["smp", "json", "--from", "perf"],
            ErrorKind::ValueValidation,
        ),
        (
            &["smp", "json", "--from", "4294967296"],
            ErrorKind::ValueValidation,
        ),
        (&["smp", "json", "--skip", "2"], ErrorKind::ValueValidation),
        (
            &["smp", "json", "--from", "ftrace", "--to", "5"],
            ErrorKind::ValueValidation,
        ),
        (
            &["smp", "json", "--from", "ftrace", "--cpus", "0"],
            ErrorKind::ValueValidation,
        ),
        (&["smp", "svg", "--skip", "2"], ErrorKind::ValueValidation),
        (&["smp", "svg", "--around", "2"], ErrorKind::ValueValidation),
        (
            &["smp", "svg", "--from", "ftrace"],
            ErrorKind::ValueValidation,
        ),
        (
            &["smp", "svg", "--from", "ftrace", "--around", "0"],
            ErrorKind::ValueValidation,
        ),
        (
            &[
                "smp", "svg", "--from", "ftrace", "--around", "2", "--to", "5",
            ],
            ErrorKind::ValueValidation,
        ),
        (
            &[
                "smp", "svg", "--from", "ftrace", "--around", "2", "--mark", "last",
            ],
            ErrorKind::ValueValidation,
        ),
        (&["smp", "check", "one"], ErrorKind::MissingRequiredArgument),
        (&["smp", "check", "-", "-"], ErrorKind::ValueValidation),
        (
            &["smp", "judge", "--from", "perf"],
            ErrorKind::ValueValidation,
        ),
        (&["smp", "judge", "--skip", "2"], ErrorKind::ValueValidation),
        (&["smp", "judge", "--slow", "2"], ErrorKind::ValueValidation),
        (&["smp", "judge", "--print"], ErrorKind::ValueValidation),
        (&["smp", "judge", "--order"], ErrorKind::ValueValidation),
        (
            &["smp", "judge", "--print", "--slow", "2"],
            ErrorKind::ArgumentConflict,
        ),
        (
            &["smp", "judge", "--order", "--print"],
            ErrorKind::ArgumentConflict,
        ),
        (&["smp", "--help"], ErrorKind::DisplayHelp),
        (&["smp", "svg", "-h"], ErrorKind::DisplayHelp),
        (&["smp", "--version"], ErrorKind::DisplayVersion),
        (&["smp", "judge", "-V"], ErrorKind::DisplayVersion),
    ];
    for (words, kind) in cases {
        assert_eq!(rt; refused(rt.alloc(), words), Some(kind));
    }
}

// The file that these words name, where they are taken: none for standard input.
fn file_of<'a>(alloc: Global, words: &'a [&'a str]) -> Result<Option<&'a str>, ErrorKind> {
    match read_words(alloc, words) {
        Ok(request) => Ok(request.file),
        Err(error) => Err(error.kind()),
    }
}

#[test]
fn from_a_file_or_standard_input(rt: HostRuntime) {
    for name in [
        "lanes", "svg", "page", "explain", "explore", "sample", "script", "events", "judge",
    ] {
        assert_eq!(rt;
            file_of(rt.alloc(), &["smp", name, "file"]),
            Ok(Some("file"))
        );
        assert_eq!(rt; file_of(rt.alloc(), &["smp", name, "-"]), Ok(None));
        assert_eq!(rt; file_of(rt.alloc(), &["smp", name]), Ok(None));
    }
}

// Whether these words ask for the page of a replay that opens at this event.
fn opens_at(alloc: Global, words: &[&str], mark: Option<Mark>) -> bool {
    match read_words(alloc, words) {
        Ok(request) => is_page(&request.job, mark),
        Err(_) => false,
    }
}

fn is_page(job: &Job, mark: Option<Mark>) -> bool {
    match job {
        Job::Show(View::Page, choice) => choice.mark == mark,
        _ => false,
    }
}

#[test]
fn a_page_opens_at_the_mark(rt: HostRuntime) {
    assert!(rt; opens_at(rt.alloc(), &["smp", "page", "file"], None));
    assert!(rt;
        opens_at(
            rt.alloc(),
            &["smp", "page", "--mark", "last"],
            Some(Mark::Last)
        )
    );
    assert!(rt;
        opens_at(
            rt.alloc(),
            &["smp", "page", "--mark", "21"],
            Some(Mark::Event(21))
        )
    );
}

// Whether these words ask so for the judge of what a kernel's tracer wrote.
fn judges(alloc: Global, words: &[&str], asked: Asked) -> bool {
    match read_words(alloc, words) {
        Ok(request) => request.job == Job::JudgeKernel(asked),
        Err(_) => false,
    }
}

// Whether they ask for the trace that it tells.
fn prints(alloc: Global, words: &[&str], skip: u64) -> bool {
    match read_words(alloc, words) {
        Ok(request) => request.job == Job::PrintKernel(skip),
        Err(_) => false,
    }
}

#[test]
fn what_a_kernel_wrote(rt: HostRuntime) {
    assert!(rt;
        judges(
            rt.alloc(),
            &["smp", "judge", "--from", "ftrace", "file"],
            Asked {
                skip: 0,
                slow: 100_000_000,
                order: false,
            },
        )
    );
    assert!(rt;
        judges(
            rt.alloc(),
            &[
                "smp", "judge", "--from", "ftrace", "--skip", "2", "--slow", "30",
            ],
            Asked {
                skip: 2_000_000_000,
                slow: 30_000_000,
                order: false,
            },
        )
    );
    assert!(rt;
        judges(
            rt.alloc(),
            &["smp", "judge", "--from", "ftrace", "--order", "--slow", "1"],
            Asked {
                skip: 0,
                slow: 1_000_000,
                order: true,
            },
        )
    );
    assert!(rt;
        prints(
            rt.alloc(),
            &["smp", "judge", "--from", "ftrace", "--skip", "3", "--print"],
            3_000_000_000,
        )
    );
}

// Whether these words ask for the page of a trace.
fn pages(alloc: Global, words: &[&str]) -> bool {
    match read_words(alloc, words) {
        Ok(request) => request.job == Job::PageTrace,
        Err(_) => false,
    }
}

// Whether they ask for that of what a kernel's tracer wrote, without this number of nanoseconds.
fn pages_without(alloc: Global, words: &[&str], skip: u64) -> bool {
    match read_words(alloc, words) {
        Ok(request) => request.job == Job::PageKernel(skip),
        Err(_) => false,
    }
}

#[test]
fn pages_of_traces(rt: HostRuntime) {
    assert!(rt; pages(rt.alloc(), &["smp", "page", "--from", "trace"]));
    assert!(rt; pages_without(rt.alloc(), &["smp", "page", "--from", "ftrace"], 0));
    assert!(rt;
        pages_without(
            rt.alloc(),
            &["smp", "page", "--from", "ftrace", "--skip", "3"],
            3_000_000_000,
        )
    );
}

// What of a script's replay these words show in the trace-event format, or how many nanoseconds of a kernel's text they leave out.
fn json_of(alloc: Global, words: &[&str]) -> Option<Result<usize, u64>> {
    let Request {
        job,
        file: _,
        words: _,
        threads: _,
    } = read_words(alloc, words).ok()?;
    match job {
        Job::Show(View::Json, choice) => Some(Ok(choice.from)),
        Job::JsonKernel(skip) => Some(Err(skip)),
        _ => None,
    }
}

#[test]
fn events_in_the_trace_event_format(rt: HostRuntime) {
    assert_eq!(rt; json_of(rt.alloc(), &["smp", "json", "file"]), Some(Ok(0)));
    assert_eq!(rt;
        json_of(rt.alloc(), &["smp", "json", "--from", "7"]),
        Some(Ok(7))
    );
    assert_eq!(rt;
        json_of(rt.alloc(), &["smp", "json", "--from", "ftrace"]),
        Some(Err(0))
    );
    assert_eq!(rt;
        json_of(
            rt.alloc(),
            &["smp", "json", "--from", "ftrace", "--skip", "3"]
        ),
        Some(Err(3_000_000_000))
    );
}

// Whether these words ask for an exploration by these orders.
fn is_asked(alloc: Global, words: &[&str], orders: Orders) -> bool {
    match read_words(alloc, words) {
        Ok(request) => request.job == Job::Explore(orders, Scripts::Behind),
        Err(_) => false,
    }
}

// A report as JSON has the scripts, so none is printed alone and no folder takes them. A sample has none.
#[test]
fn a_report_as_json_is_asked_for(rt: HostRuntime) {
    let alloc = rt.alloc();
    let request = read_words(alloc, &["smp", "explore", "--json", "a.smp"]);
    let job = request.map(|r| r.job).ok();
    assert!(rt; matches!(job, Some(Job::Explore(Orders::All(_), Scripts::Json))));
    for option in ["--only", "--scripts"] {
        assert!(rt;
            read_words(alloc, &["smp", "explore", "--json", option, "1"]).is_err(),
            "{option}"
        );
    }
    assert_eq!(rt;
        refused(alloc, &["smp", "sample", "--json"]),
        Some(ErrorKind::UnknownArgument)
    );
}

#[test]
fn merged_moves_only_where_they_are_asked_for(rt: HostRuntime) {
    let most = Most {
        states: 100_000,
        bytes: usize::MAX,
    };
    assert!(rt; is_asked(rt.alloc(), &["smp", "explore"], Orders::All(most)));
    assert!(rt;
        is_asked(
            rt.alloc(),
            &["smp", "explore", "--merge"],
            Orders::Merged(most)
        )
    );
}
