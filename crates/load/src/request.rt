//! What the command line asks for.

ghost use Rattle.std.specs.Prelude.{◌≡◌, ◌≤◌, IfSome, IfNone};
ghost use Rattle.load.specs.Requests.{AreThreads, AreSeconds};

use crate::bench::workload::Workload;
use crate::grammar::{USUAL, grammar};
use crate::torture::kind::{KINDS, Kind};
use crate::torture::weights::Weights;
use clap::error::ErrorKind;
use clap::{ArgMatches, Error};
use std::alloc::{AllocError, Global};

/// What is said of weights that are none.
const WEIGHTS: &str =
    "invalid value for '--weights <KIND=W,..>': it is a list as single=4,stop-one=1 with weights from 0 to 65535, not all 0, \
     and no kind twice; --help names the kinds";

/// What is said of a number that the grammar refuses.
const NUMBER: &str = "invalid value: there are 2 to 32 threads, and 1 to 3600 seconds";

/// How long a workload goes on.
#[derive(Clone, Copy)]
pub enum Limit {
    /// At least this number of operations, and less than a whole batch more.
    Operations(u32),
    Milliseconds(u32),
}

/// What a bench measures: all workloads, or one only.
#[derive(Clone, Copy)]
pub struct Bench {
    pub limit: Limit,
    pub threads: u32,
    pub only: Option<Workload>,
    ghost lawful: { AreThreads threads },
}

impl Bench {
    pub fn asks(&self, workload: Workload) -> bool {
        match self.only {
            Some(only) => only == workload,
            None => true,
        }
    }
}

/// A torture: how many CPUs, each on a thread of its own, how long, and what they do.
#[derive(Clone, Copy)]
pub struct Torture {
    pub threads: u32,
    pub seconds: u32,
    pub seed: u64,
    pub weights: Weights,
    /// The seconds between two reports on standard error.
    pub report: u32,
    /// Whether CPUs sleep while they wait.
    pub sleeps: bool,
    /// Whether to print only what does not depend on the schedule.
    pub quiet: bool,
    ghost lawful: { AreThreads threads × AreSeconds seconds },
}

/// What the command line asks for: the one, or the other, or both in turn.
#[derive(Clone, Copy)]
pub struct Request {
    pub bench: Option<Bench>,
    pub torture: Option<Torture>,
}

/// A number from `low` to `high`; none where it is not.
fn within(low: u32, high: u32, number: u32) -> Option<u32>
    ensures some { IfSome result (λ n. (n ≡ number) × (low ≤ n) × (n ≤ high)) }
    ensures none { IfNone result (¬ ((low ≤ number) × (number ≤ high))) }
{
    if low <= number && number <= high {
        Some(number)
    } else {
        None
    }
}

/// The number of this name, where it is from `low` to `high`.
fn number(found: &ArgMatches<'_>, name: &str, low: u32, high: u32) -> Option<u32>
    ensures { IfSome result (λ n. (low ≤ n) × (n ≤ high)) }
{
    within(low, high, found.get_one::<u32>(name)?)
}

/// The grammar takes no mode but time and count.
fn limit_of(found: &ArgMatches<'_>) -> Limit {
    let number = found.get_one::<u32>("LIMIT").unwrap_or(0);
    match found.get_str("MODE") {
        Some("count") => Limit::Operations(number),
        _ => Limit::Milliseconds(number),
    }
}

/// The workload of this name. The grammar takes no other names.
fn workload_of(name: &str) -> Option<Workload> {
    Workload::ALL.iter().find(|w| w.name() == name).copied()
}

/// What is to be measured. None where there are too many threads or too few, which the grammar refuses.
fn bench_of(found: &ArgMatches<'_>) -> Option<Bench> {
    Some(Bench {
        limit: limit_of(found),
        threads: number(found, "THREADS", 2, 32)?,
        only: found.get_str("WORKLOAD").and_then(workload_of),
    })
}

/// A kind by its name, and the weight behind `=`.
fn weight_of(word: &str) -> Option<(Kind, u16)> {
    let (name, number) = word.split_once('=')?;
    let kind = Kind::ALL.iter().find(|k| k.name() == name).copied()?;
    Some((kind, number.parse::<u16>().ok()?))
}

/// The weights that are named, each once, and 0 for each other kind (as `kernel/scftorture.c`).
fn weights_of(words: &str) -> Option<Weights> {
    let mut of = [0u16; KINDS];
    let mut is_named = [false; KINDS];
    for word in words.split(',') {
        let (kind, weight) = weight_of(word)?;
        if is_named[kind.index()] {
            return None;
        }
        is_named[kind.index()] = true;
        of[kind.index()] = weight;
    }
    Weights::new(of)
}

/// What is to be tortured, by these weights. None where a number is out of its range, which the grammar refuses.
fn torture_of(found: &ArgMatches<'_>, weights: Weights) -> Option<Torture> {
    let threads = number(found, "threads", 2, 32)?;
    let seconds = number(found, "seconds", 1, 3600)?;
    let report = number(found, "report", 1, 3600)?;
    Some(Torture {
        threads,
        seconds,
        seed: found.get_one::<u64>("seed").unwrap_or(1),
        weights,
        report,
        sleeps: found.get_flag("waits-sleep"),
        quiet: found.get_flag("quiet"),
    })
}

/// A little of both, of which all that is printed is the same each time.
fn smoke(weights: Weights) -> Request {
    let bench = Bench {
        limit: Limit::Operations(300),
        threads: 3,
        only: None,
    };
    let torture = Torture {
        threads: 4,
        seconds: 1,
        seed: 7,
        weights,
        report: 1,
        sleeps: false,
        quiet: true,
    };
    Request {
        bench: Some(bench),
        torture: Some(torture),
    }
}

/// What a command other than `bench` asks for, by these weights.
fn with_weights(name: &str, found: &ArgMatches<'_>, weights: Weights) -> Option<Request> {
    if name == "torture" {
        let torture = Some(torture_of(found, weights)?);
        return Some(Request {
            bench: None,
            torture,
        });
    }
    Some(smoke(weights))
}

/// What a command asks for, by its name and the words behind it, or what is said of them.
fn request_of(name: &str, found: &ArgMatches<'_>) -> Result<Request, &'static str> {
    if name == "bench" {
        let bench = Some(bench_of(found).ok_or(NUMBER)?);
        return Ok(Request {
            bench,
            torture: None,
        });
    }
    let words = found.get_str("weights").unwrap_or(USUAL);
    let weights = weights_of(words).ok_or(WEIGHTS)?;
    with_weights(name, found, weights).ok_or(NUMBER)
}

/// The error of `clap` that says this.
fn refusal(alloc: Global, text: &'static str) -> Result<Error, AllocError> {
    grammar(alloc)?.error(ErrorKind::ValueValidation, text)
}

/// What `clap` finds in the words.
fn matches_of<'a>(alloc: Global, words: &'a [String]) -> Result<ArgMatches<'a>, Error> {
    grammar(alloc)?.try_get_matches_from(words)
}

/// What the words of the command line ask for, the program's own name first. Where they are no command line, or ask for help
/// or the version, the answer is what `clap` says.
pub fn read_words(alloc: Global, words: &[String]) -> Result<Request, Error> {
    let found = matches_of(alloc, words)?;
    let asked = match found.subcommand() {
        Some((name, behind)) => request_of(name, behind),
        // The grammar asks for a command.
        None => Err("there is no command"),
    };
    match asked {
        Ok(request) => Ok(request),
        Err(text) => Err(refusal(alloc, text)?),
    }
}
