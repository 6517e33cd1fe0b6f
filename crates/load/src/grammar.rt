//! The words that the command line may have, and what help says of them.

use crate::bench::workload::Workload;
use clap::builder::ValueParser;
use clap::{Arg, ArgAction, Command};
use std::alloc::{AllocError, Global};

/// The version of the program.
const VERSION: &str = "0.1.0-dev";

const ABOUT: &str = "Loads the library's machine with calls and stops, by threads.";

/// What help says of the program's statuses.
const STATUSES: &str = "Exit statuses:
  0  all was measured; all counts are right, and the machine is drained
  1  a count is off, or the machine is not drained
  2  it could not be done: standard error says why";

/// A command, and what help says of it.
#[derive(Clone, Copy)]
struct Named {
    name: &'static str,
    about: &'static str,
    /// What comes behind its words.
    more: &'static str,
}

const BENCH: Named = Named {
    name: "bench",
    about: "Measures calls and stops. A line is printed for each workload",
    more: "A line of time has the workload, its threads, its operations, and the nanoseconds of one operation: the median over
batches, what a tenth of the batches stays below, and the processor's time of the whole process. A line of count has the
operations, and the calls that have run.

Workloads, with the threads that they have whatever THREADS is:
  post-1, post-8 (1)        a call is posted, sent and handled; eight calls to one handling
  trip (2)                  a call with wait, between two threads that poll
  wake (2)                  a call with wait to a thread that sleeps
  async, many (31 at most)  calls without wait to one thread; calls to all others with wait
  stop, stop-one (2)        a stop of all CPUs, or of one
  set-key                   a key is turned on and off, each time in a stop
  key-inc-1 (1), key-inc    a key is counted up and down, by one thread or by all
  idle (1)                  a poll that finds nothing
  rest                      all threads sleep for LIMIT, and then the first calls all others with wait

Exit statuses:
  0  all workloads were measured
  2  one could not be: standard error says why",
};

const TORTURE: Named = Named {
    name: "torture",
    about: "Tortures a machine by random calls and stops from all of its CPUs, and counts what was heard",
    more: "Kinds:
  single, single-wait    a call to one CPU
  async                  a call by a record of the user, again while the record is busy
  any, any-wait          a call to some CPU of a mask
  many, many-wait        a call to all other CPUs of a mask
  each, each-wait        a call to each CPU of a mask of which a condition holds
  stop-one, stop-two     a stop of one CPU, or of two
  stop-machine           a stop of all CPUs
  set-key                a key is turned on or off
  key-inc, key-dec       a key is counted up or down
  read-key, read-site    a key is read, or a key and one of its sites, which have to agree
  sleep, poll            the CPU sleeps, or polls

Standard error is told each second what was done, and which CPUs keep others waiting in a stop.

Exit statuses:
  0  all counts are right, and the machine is drained
  1  a count is off, or the machine is not drained
  2  it could not be done: standard error says why",
};

const SMOKE: Named = Named {
    name: "smoke",
    about: "Counts a few operations of each workload, then tortures for a second, and prints only what never differs",
    more: STATUSES,
};

/// How a word of the command line comes.
#[derive(Clone, Copy)]
enum Form<'a> {
    /// At its place. Whether it has to be there.
    Placed(ValueParser<'a>, bool),
    /// Behind its name: its value, what help writes for that, and what it is where no word says.
    Valued(ValueParser<'a>, &'static str, &'static str),
    /// As its name alone.
    Flag,
}

/// A word of the command line, and what help says of it.
#[derive(Clone, Copy)]
struct Word<'a> {
    name: &'static str,
    form: Form<'a>,
    help: &'static str,
}

/// What LIMIT may be.
const MODES: [&'static str; 2] = ["time", "count"];

// The words of a bench.
fn bench_words<'a>() -> [Word<'a>; 4] {
    let modes: &'a [&'a str] = &MODES;
    let workloads: &'a [&'a str] = &Workload::NAMES;
    [
        Word {
            name: "MODE",
            form: Form::Placed(ValueParser::Names(modes), true),
            help: "What LIMIT is, and what is printed",
        },
        Word {
            name: "THREADS",
            form: Form::Placed(ValueParser::Unsigned(2, 32), true),
            help: "The threads of workloads that take any number, 2 to 32",
        },
        Word {
            name: "LIMIT",
            form: Form::Placed(ValueParser::Unsigned(0, 4_294_967_295), true),
            help: "The milliseconds, or for count the operations, of each workload",
        },
        Word {
            name: "WORKLOAD",
            form: Form::Placed(ValueParser::Names(workloads), false),
            help: "The only workload to be measured",
        },
    ]
}

/// The weights where no word says: each call and reading as often as each other, stops, changes of keys and sleeps less often,
/// and polls more often.
pub const USUAL: &str =
    "single=16,single-wait=16,async=16,any=16,any-wait=16,many=16,many-wait=16,each=16,each-wait=16,\
stop-one=2,stop-two=2,stop-machine=2,set-key=2,key-inc=2,key-dec=2,read-key=16,read-site=16,sleep=2,poll=32";

/// The words of a torture.
const TORTURE_WORDS: [Word<'static>; 7] = [
    Word {
        name: "threads",
        form: Form::Valued(ValueParser::Unsigned(2, 32), "N", "4"),
        help: "Makes N CPUs, each on a thread of its own, 2 to 32",
    },
    Word {
        name: "seconds",
        form: Form::Valued(ValueParser::Unsigned(1, 3600), "N", "1"),
        help: "Ends after N seconds, 1 to 3600",
    },
    Word {
        name: "seed",
        form: Form::Valued(ValueParser::Unsigned(0, u64::MAX), "N", "1"),
        help: "Draws by this number what each CPU does",
    },
    Word {
        name: "report",
        form: Form::Valued(ValueParser::Unsigned(1, 3600), "N", "1"),
        help: "Tells standard error of it each N seconds, 1 to 3600",
    },
    Word {
        name: "weights",
        form: Form::Valued(ValueParser::String, "KIND=W,..", USUAL),
        help: "Draws these kinds by these weights, 0 to 65535, and no other kind",
    },
    Word {
        name: "waits-sleep",
        form: Form::Flag,
        help: "Lets CPUs sleep while they wait, after 100 looks in vain",
    },
    Word {
        name: "quiet",
        form: Form::Flag,
        help: "Prints only what does not depend on the schedule",
    },
];

// A word of the command line.
fn arg_of<'a>(alloc: Global, word: Word<'a>) -> Arg<'a> {
    let arg = Arg::new(alloc, word.name).help(word.help);
    match word.form {
        Form::Placed(value, required) => arg.value_parser(value).required(required),
        Form::Valued(value, shown, usual) => arg
            .long(word.name)
            .value_name(shown)
            .action(ArgAction::Set)
            .value_parser(value)
            .default_value(usual),
        Form::Flag => arg.long(word.name).action(ArgAction::SetTrue),
    }
}

// A command with these words.
fn command_of<'a>(
    alloc: Global,
    named: Named,
    words: &[Word<'a>],
) -> Result<Command<'a>, AllocError> {
    let mut command = Command::new(alloc, named.name)
        .about(named.about)
        .after_help(named.more);
    for word in words {
        command = command.arg(arg_of(alloc, *word))?;
    }
    Ok(command)
}

// The program without its commands.
fn program<'a>(alloc: Global) -> Result<Command<'a>, AllocError> {
    let program = Command::new(alloc, "load").bin_name("load")?;
    Ok(
        program
            .about(ABOUT)
            .version(VERSION)
            .propagate_version(true)
            .subcommand_required(true)
            .after_help(STATUSES),
    )
}

/// All that the command line may have.
pub fn grammar<'a>(alloc: Global) -> Result<Command<'a>, AllocError> {
    let bench = bench_words();
    let commands: [(Named, &[Word<'a>]); 3] = [
        (BENCH, &bench),
        (TORTURE, &TORTURE_WORDS),
        (SMOKE, &[]),
    ];
    let mut program = program(alloc)?;
    for (named, words) in commands {
        program = program.subcommand(command_of(alloc, named, words)?)?;
    }
    Ok(program)
}
