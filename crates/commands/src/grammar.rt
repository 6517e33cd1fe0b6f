//! The words that the command line may have, and what help says of them.

use clap::builder::ValueParser;
use clap::{Arg, ArgAction, Command};
use std::alloc::{AllocError, Global};

/// The version of the program.
const VERSION: &str = "0.1.0-dev";

const ABOUT: &str =
    "Shows, explains, explores, checks and judges texts of cross-processor calls and stops.";

/// What comes behind the help of the program and of each subcommand.
const STATUSES: &str = "Exit statuses:
  0  done: all lines were run, there is no fault, all expectations hold, the trace is lawful, the steps are the same
  1  the answer is no: a refused event, a fault explained, a broken expectation, an unlawful trace, a step that differs
  2  it could not be done: standard error says why, or the output names the limit that was met";

/// What is said of the last word.
const FILE: &str = "The text; standard input where it is - or left out";

/// What is said of the trace behind it.
const TRACE: &str =
    "The steps that were seen, as a replay prints them; standard input where it is -";

/// What an option takes.
#[derive(Clone, Copy)]
enum Value {
    /// A number from the first to the second; the last is what it is where no word says.
    Number(u64, u64, Option<&'static str>),
    Text,
    Nothing,
}

/// An option, and what help says of it.
#[derive(Clone, Copy)]
struct Choice {
    name: &'static str,
    /// The name of its value.
    value: &'static str,
    takes: Value,
    help: &'static str,
}

const MOST_32: u64 = 4_294_967_295;

const STATES: Choice = Choice {
    name: "states",
    value: "N",
    takes: Value::Number(1, MOST_32, Some("100000")),
    help: "Keeps at most N states, 1 to 4294967295",
};

const MEMORY: Choice = Choice {
    name: "memory",
    value: "MIB",
    takes: Value::Number(1, MOST_32, None),
    help: "Keeps states of at most MIB times 2^20 bytes, 1 to 4294967295; no limit without it",
};

const THREADS: Choice = Choice {
    name: "threads",
    value: "N",
    takes: Value::Number(1, 64, Some("1")),
    help: "Works out steps with N threads, 1 to 64",
};

const MERGE: Choice = Choice {
    name: "merge",
    value: "",
    takes: Value::Nothing,
    help: "Makes private steps together with the step before them: fewer states, and a search for each expectation",
};

const SEED: Choice = Choice {
    name: "seed",
    value: "N",
    takes: Value::Number(0, u64::MAX, Some("1")),
    help: "Draws the orders by this number: the same number gives the same orders",
};

const RUNS: Choice = Choice {
    name: "runs",
    value: "M",
    takes: Value::Number(1, MOST_32, Some("100")),
    help: "Makes M runs for each expectation, 1 to 4294967295",
};

const RUN: Choice = Choice {
    name: "run",
    value: "R",
    takes: Value::Number(0, MOST_32, Some("0")),
    help: "Writes down the run of this number, 0 to 4294967295",
};

const STEPS: Choice = Choice {
    name: "steps",
    value: "S",
    takes: Value::Number(1, MOST_32, Some("10000")),
    help: "Ends a run after S steps, 1 to 4294967295",
};

const ONLY: Choice = Choice {
    name: "only",
    value: "LINE",
    takes: Value::Number(0, MOST_32, None),
    help: "Judges the expectation of this line alone, or at 0 that the programs go on and at 1 that they end, and prints its script and nothing else",
};

const OUTCOME: Choice = Choice {
    name: "only",
    value: "N",
    takes: Value::Number(1, MOST_32, None),
    help: "Prints the script of the outcome of this number, and nothing else",
};

const FROM: Choice = Choice {
    name: "from",
    value: "N",
    takes: Value::Number(0, MOST_32, Some("0")),
    help: "Shows events from this number on, 0 to 4294967295",
};

const TO: Choice = Choice {
    name: "to",
    value: "N",
    takes: Value::Number(0, MOST_32, None),
    help: "Shows events up to this number, 0 to 4294967295; all without it",
};

const CPUS: Choice = Choice {
    name: "cpus",
    value: "LIST",
    takes: Value::Text,
    help: "Shows these CPUs alone, as 0-2,5",
};

const MARK: Choice = Choice {
    name: "mark",
    value: "EVENT",
    takes: Value::Text,
    help: "Marks the event of this number, or the last: that of a broken expectation",
};

const SCRIPTS: Choice = Choice {
    name: "scripts",
    value: "FOLDER",
    takes: Value::Text,
    help: "Writes the script of each broken expectation into a file in this folder, as FOLDER/never-12.smp",
};

const AS_JSON: Choice = Choice {
    name: "json",
    value: "",
    takes: Value::Nothing,
    help: "Prints a line of JSON for each expectation, with the script that breaks it",
};

const OUTCOMES_TO: Choice = Choice {
    name: "scripts",
    value: "FOLDER",
    takes: Value::Text,
    help: "Writes the script of each outcome into a file in this folder, as FOLDER/outcome-1.smp",
};

/// What comes behind the options of a subcommand.
#[derive(Clone, Copy)]
enum Behind {
    /// The file alone.
    File,
    /// The file and a trace of steps.
    Trace,
    /// The file and words of the table.
    Words,
}

/// A subcommand, and what help says of it.
#[derive(Clone, Copy)]
struct Named {
    name: &'static str,
    about: &'static str,
    behind: Behind,
}

const LANES: Named = Named {
    name: "lanes",
    about: "Prints a replay as a table with a column for each CPU",
    behind: Behind::File,
};

const SVG: Named = Named {
    name: "svg",
    about: "Draws a replay, or what Linux's own tracer wrote around a line, as an SVG picture with a lane for each CPU",
    behind: Behind::File,
};

const JSON: Named = Named {
    name: "json",
    about: "Writes a replay, or what Linux's own tracer wrote, in the trace-event format of Perfetto and chrome://tracing",
    behind: Behind::File,
};

const PAGE: Named = Named {
    name: "page",
    about: "Writes a replay or a trace as one page of HTML to step through, with the queues and stops after each event",
    behind: Behind::File,
};

const EXPLAIN: Named = Named {
    name: "explain",
    about: "Says what the first fault of a text is, and what may be there",
    behind: Behind::File,
};

const EXPLORE: Named = Named {
    name: "explore",
    about: "Judges each expectation of an exploration by every order of the steps",
    behind: Behind::File,
};

const SAMPLE: Named = Named {
    name: "sample",
    about: "Judges each expectation of an exploration by random orders of the steps",
    behind: Behind::File,
};

const OUTCOMES: Named = Named {
    name: "outcomes",
    about: "Prints all numbers that these words have where all programs of an exploration have ended, with a script to each",
    behind: Behind::Words,
};

const SCRIPT: Named = Named {
    name: "script",
    about: "Writes down one random order of the steps of an exploration as a replay",
    behind: Behind::File,
};

const EVENTS: Named = Named {
    name: "events",
    about: "Writes a replay as a trace of events, which judge takes",
    behind: Behind::File,
};

const CHECK: Named = Named {
    name: "check",
    about: "Says whether a trace of steps is what a replay prints, or the first line that differs",
    behind: Behind::Trace,
};

const JUDGE: Named = Named {
    name: "judge",
    about: "Says whether the model has a run with the events of a trace",
    behind: Behind::File,
};

const WRITER: Choice = Choice {
    name: "from",
    value: "ftrace",
    takes: Value::Text,
    help: "FILE is what Linux's own tracer wrote: trace, trace_pipe, trace-cmd report or perf script",
};

const SKIP: Choice = Choice {
    name: "skip",
    value: "SECONDS",
    takes: Value::Number(0, MOST_32, None),
    help: "Takes what the tracer wrote from that time after its first line on, 0 to 4294967295",
};

const FROM_OR_WRITER: Choice = Choice {
    name: "from",
    value: "N",
    takes: Value::Text,
    help: "Shows events from this number on, 0 to 4294967295; or FILE is what Linux's own tracer wrote: ftrace",
};

const AROUND: Choice = Choice {
    name: "around",
    value: "LINE",
    takes: Value::Number(1, MOST_32, None),
    help: "Draws of what the tracer wrote the event of this line of FILE, or the next that has one, and 100 events before and behind it",
};

const SOURCE: Choice = Choice {
    name: "from",
    value: "KIND",
    takes: Value::Text,
    help: "FILE is a trace of events: trace; or what Linux's own tracer wrote: ftrace. The page opens where it is not lawful",
};

const SLOW: Choice = Choice {
    name: "slow",
    value: "MS",
    takes: Value::Number(0, MOST_32, None),
    help: "Tells each call that waited for more milliseconds before it was begun, 0 to 4294967295; 100 without it",
};

const PRINT: Choice = Choice {
    name: "print",
    value: "",
    takes: Value::Nothing,
    help: "Writes the trace that FILE tells, and does not judge it",
};

const ORDER: Choice = Choice {
    name: "order",
    value: "",
    takes: Value::Nothing,
    help: "Judges the order of the queues too, where FILE shows the class and the context of each call",
};

// An option.
fn option<'a>(alloc: Global, choice: Choice) -> Arg<'a> {
    let arg = Arg::new(alloc, choice.name)
        .long(choice.name)
        .help(choice.help);
    if let Value::Nothing = choice.takes {
        return arg.action(ArgAction::SetTrue);
    }
    let arg = arg.value_name(choice.value).action(ArgAction::Set);
    match choice.takes {
        Value::Number(low, high, None) => arg.value_parser(ValueParser::unsigned(low, high)),
        Value::Number(low, high, Some(usual)) => {
            arg.value_parser(ValueParser::unsigned(low, high))
                .default_value(usual)
        }
        Value::Text | Value::Nothing => arg,
    }
}

// A subcommand with this option too. Where a script alone is printed, no file takes it, and where JSON is, neither is asked for.
// Where a trace is printed, no call that waits is told and no order judged.
fn with_option<'a>(
    alloc: Global,
    command: Command<'a>,
    choice: Choice,
) -> Result<Command<'a>, AllocError> {
    let arg = option(alloc, choice);
    if choice.name == SCRIPTS.name {
        return command.arg(arg.conflicts_with(ONLY.name)?);
    }
    if choice.name == AS_JSON.name {
        let arg = arg.conflicts_with(ONLY.name)?;
        return command.arg(arg.conflicts_with(SCRIPTS.name)?);
    }
    if choice.name == PRINT.name {
        return command.arg(arg.conflicts_with(SLOW.name)?);
    }
    if choice.name == ORDER.name {
        return command.arg(arg.conflicts_with(PRINT.name)?);
    }
    command.arg(arg)
}

// The file, which has to be there where something is behind it.
fn file<'a>(alloc: Global, behind: Behind) -> Arg<'a> {
    let is_required = match behind {
        Behind::File => false,
        Behind::Trace | Behind::Words => true,
    };
    Arg::new(alloc, "FILE").help(FILE).required(is_required)
}

// What is behind the file.
fn last<'a>(alloc: Global, behind: Behind) -> Option<Arg<'a>> {
    match behind {
        Behind::File => None,
        Behind::Trace => Some(Arg::new(alloc, "TRACE").help(TRACE).required(true)),
        Behind::Words => Some(
            Arg::new(alloc, "WORD")
                .help("Words as head.2, queued.0.1 or key.0")
                .required(true)
                .num_args(1..)
                .action(ArgAction::Append),
        ),
    }
}

// A subcommand with the file, and with what is behind it.
fn with_words<'a>(
    alloc: Global,
    command: Command<'a>,
    behind: Behind,
) -> Result<Command<'a>, AllocError> {
    let command = command.arg(file(alloc, behind))?;
    match last(alloc, behind) {
        Some(arg) => command.arg(arg),
        None => Ok(command),
    }
}

// A subcommand with these options, and then a file.
fn subcommand<'a>(
    alloc: Global,
    named: Named,
    choices: &[Choice],
) -> Result<Command<'a>, AllocError> {
    let mut command = Command::new(alloc, named.name)
        .about(named.about)
        .after_help(STATUSES);
    for choice in choices {
        command = with_option(alloc, command, *choice)?;
    }
    with_words(alloc, command, named.behind)
}

// A grammar with this subcommand too.
fn with_subcommand<'a>(
    alloc: Global,
    grammar: Command<'a>,
    named: Named,
    choices: &[Choice],
) -> Result<Command<'a>, AllocError> {
    let command = subcommand(alloc, named, choices)?;
    grammar.subcommand(command)
}

// A grammar without subcommands.
fn front<'a>(alloc: Global) -> Result<Command<'a>, AllocError> {
    let grammar = Command::new(alloc, "smp").bin_name("smp")?;
    Ok(
        grammar
            .about(ABOUT)
            .version(VERSION)
            .propagate_version(true)
            .subcommand_required(true)
            .after_help(STATUSES),
    )
}

/// All that the command line may have.
pub fn grammar<'a>(alloc: Global) -> Result<Command<'a>, AllocError> {
    let commands: [(Named, &[Choice]); 12] = [
        (LANES, &[FROM, TO, CPUS]),
        (SVG, &[FROM_OR_WRITER, AROUND, TO, CPUS, MARK, SKIP]),
        (JSON, &[FROM_OR_WRITER, TO, CPUS, SKIP]),
        (PAGE, &[MARK, SOURCE, SKIP]),
        (EXPLAIN, &[]),
        (
            EXPLORE,
            &[MERGE, STATES, MEMORY, THREADS, ONLY, SCRIPTS, AS_JSON],
        ),
        (SAMPLE, &[SEED, RUNS, STEPS, ONLY, SCRIPTS]),
        (OUTCOMES, &[STATES, MEMORY, THREADS, OUTCOME, OUTCOMES_TO]),
        (SCRIPT, &[SEED, RUN, STEPS]),
        (EVENTS, &[]),
        (CHECK, &[]),
        (JUDGE, &[WRITER, SKIP, SLOW, PRINT, ORDER]),
    ];
    let mut grammar = front(alloc)?;
    for (named, choices) in commands {
        grammar = with_subcommand(alloc, grammar, named, choices)?;
    }
    Ok(grammar)
}
