//! What the words of the command line ask for.

ghost use Rattle.std.specs.Prelude.{◌≡◌, ◌*◌};
ghost use Rattle.commands.specs.Jobs.{kind_taken};

use crate::grammar::grammar;
use crate::searches::Scripts;
use clap::error::ErrorKind;
use clap::{ArgMatches, Error};
use explore::Most;
use explore_text::{Orders, Run, Sample};
use smp_mask::CpuMask;
use std::alloc::{AllocError, Global};
use trace_ftrace::text::{Asked, MOST_WAIT};
use view::text_kind::TextKind;
use view::{Choice, Mark};

/// How many bytes there are in one MiB.
const MIB: usize = 1_048_576;

/// A list of CPUs has no more bytes than this.
const MOST_LIST: usize = 1000;

/// A value that `clap` takes and that is wrong all the same.
#[derive(Clone, Copy)]
enum Wrong {
    Cpus,
    Mark,
    Input,
    Writer,
    Skip,
    Source,
    Marked,
    Slow,
    Print,
    Order,
    From,
    Shown,
    Around,
    NoLine,
}

impl Wrong {
    fn text(self) -> &'static str {
        match self {
            Wrong::Cpus => {
                "invalid value for '--cpus <LIST>': it is a list of CPUs from 0 to 31 that is not empty, as 0-2,5"
            }
            Wrong::Mark => {
                "invalid value for '--mark <EVENT>': it is last, or a number from 0 to 4294967295"
            }
            Wrong::Input => {
                "invalid value for '<TRACE>': only one of FILE and TRACE can be standard input"
            }
            Wrong::Writer => "invalid value for '--from <ftrace>': it is ftrace",
            Wrong::Skip =>
                "invalid value for '--skip <SECONDS>': it goes with '--from ftrace' alone",
            Wrong::Source => "invalid value for '--from <KIND>': it is trace or ftrace",
            Wrong::Marked => "invalid value for '--mark <EVENT>': it goes with a replay alone",
            Wrong::Slow => "invalid value for '--slow <MS>': it goes with '--from ftrace' alone",
            Wrong::Print => "'--print' goes with '--from ftrace' alone",
            Wrong::Order => "'--order' goes with '--from ftrace' alone",
            Wrong::From => {
                "invalid value for '--from <N>': it is a number from 0 to 4294967295, or ftrace"
            }
            Wrong::Shown => "'--to' and '--cpus' go with a replay alone",
            Wrong::Around =>
                "invalid value for '--around <LINE>': it goes with '--from ftrace' alone",
            Wrong::NoLine => "'svg --from ftrace' asks for '--around <LINE>'",
        }
    }
}

/// How a script is shown.
#[derive(Clone, Copy, Debug, PartialEq, Eq)]
pub enum View {
    /// Its replay, with one column for each CPU.
    Lanes,
    /// A picture of its replay.
    Svg,
    /// Its replay in the trace-event format.
    Json,
    /// Its replay as a page to step through.
    Page,
}

/// What to do with a text.
#[derive(Clone, Copy, Debug, PartialEq, Eq)]
pub enum Job<'a> {
    /// Shows what is chosen of a script's replay.
    Show(View, Choice),
    /// Says what is wrong with a text of any kind.
    Explain,
    /// Judges what an exploration expects.
    Explore(Orders, Scripts<'a>),
    /// Finds all final numbers of words of an exploration.
    Outcomes(Most, Scripts<'a>),
    /// Writes down one run of an exploration.
    Write(Run),
    /// Judges a trace.
    Judge,
    /// Judges what a kernel's own tracer wrote, as is asked.
    JudgeKernel(Asked),
    /// Writes the trace that such a text tells, without this number of nanoseconds at its start.
    PrintKernel(u64),
    /// Shows a trace as a page to step through.
    PageTrace,
    /// Shows so what a kernel's own tracer wrote, without this number of nanoseconds at its start.
    PageKernel(u64),
    /// Writes its events so in the trace-event format, without this number of nanoseconds at its start.
    JsonKernel(u64),
    /// Draws its events around a line of this number, without this number of nanoseconds at its start.
    DrawKernel(u64, u32),
    /// Tells the events of a script's replay.
    Events,
    /// Holds the trace of steps of this name against a script's replay.
    Check(&'a str),
}

impl<'a> Job<'a> {
    /// The kind of text that it takes; none where it takes each.
    pub fn takes(&self) -> Option<TextKind>
        ensures { result ≡ kind_taken self.now }
    {
        match self {
            Job::Show(..) | Job::Events | Job::Check(_) => Some(TextKind::Replay),
            Job::Explore(..) | Job::Outcomes(..) | Job::Write(_) => Some(TextKind::Exploration),
            Job::Judge | Job::PageTrace => Some(TextKind::Trace),
            Job::PageKernel(_) | Job::PrintKernel(_) | Job::JsonKernel(_) => None,
            Job::Explain | Job::DrawKernel(..) => None,
            Job::JudgeKernel(_) => None,
        }
    }
}

/// What to do with the text of a file.
#[derive(Drop)]
pub struct Request<'a> {
    pub job: Job<'a>,
    /// The name of the file; none for standard input.
    pub file: Option<&'a str>,
    /// The words behind it.
    pub words: Vec<&'a str>,
    /// How many threads work out the steps of a search.
    pub threads: u32,
}

// The number behind a word; that of the grammar where the word is not there.
fn number(matches: &ArgMatches<'_>, name: &str) -> u32 {
    matches.get_one::<u32>(name).unwrap_or(0)
}

// How many bytes of states are kept: no word, no limit.
fn bytes_of(matches: &ArgMatches<'_>) -> usize {
    match matches.get_one::<u32>("memory") {
        Some(count) => count as usize * MIB,
        None => usize::MAX,
    }
}

fn seed_of(matches: &ArgMatches<'_>) -> u64 {
    matches.get_one::<u64>("seed").unwrap_or(0)
}

// How much an exploration keeps.
fn most_of(matches: &ArgMatches<'_>) -> Most {
    Most {
        states: number(matches, "states") as usize,
        bytes: bytes_of(matches),
    }
}

// How every order is gone through.
fn orders_of(matches: &ArgMatches<'_>) -> Orders {
    let most = most_of(matches);
    if matches.get_flag("merge") {
        Orders::Merged(most)
    } else {
        Orders::All(most)
    }
}

fn sample_of(matches: &ArgMatches<'_>) -> Sample {
    Sample {
        seed: seed_of(matches),
        runs: number(matches, "runs"),
        steps: number(matches, "steps"),
    }
}

fn run_of(matches: &ArgMatches<'_>) -> Run {
    Run {
        seed: seed_of(matches),
        number: number(matches, "run"),
        steps: number(matches, "steps"),
    }
}

// Where the scripts of broken expectations go.
fn scripts_of<'a>(matches: &ArgMatches<'a>) -> Scripts<'a> {
    match (matches.get_one::<u32>("only"), matches.get_str("scripts")) {
        (Some(line), _) => Scripts::Only(line),
        (None, Some(folder)) => Scripts::Folder(folder),
        (None, None) => Scripts::Behind,
    }
}

// Where they go in a search of every order, whose report may be JSON.
fn searched_to<'a>(matches: &ArgMatches<'a>) -> Scripts<'a> {
    if matches.get_flag("json") {
        Scripts::Json
    } else {
        scripts_of(matches)
    }
}

// The CPUs behind `--cpus`; none where it is not there.
fn cpus_of(matches: &ArgMatches<'_>) -> Result<Option<CpuMask>, Wrong> {
    let Some(list) = matches.get_str("cpus") else {
        return Ok(None);
    };
    if list.len() > MOST_LIST {
        return Err(Wrong::Cpus);
    }
    match CpuMask::parse(list.as_bytes()) {
        Ok(cpus) if cpus.first().is_some() => Ok(Some(cpus)),
        _ => Err(Wrong::Cpus),
    }
}

// The event behind `--mark`; none where it is not there.
fn mark_of(matches: &ArgMatches<'_>) -> Result<Option<Mark>, Wrong> {
    match matches.get_str("mark") {
        None => Ok(None),
        Some("last") => Ok(Some(Mark::Last)),
        Some(number) => match number.parse::<u32>() {
            Ok(number) => Ok(Some(Mark::Event(number as usize))),
            Err(_) => Err(Wrong::Mark),
        },
    }
}

// What is shown of a replay, from the event of this number on.
fn choice_from(from: u32, matches: &ArgMatches<'_>) -> Result<Choice, Wrong> {
    Ok(Choice {
        from: from as usize,
        to: matches.get_one::<u32>("to").unwrap_or(u32::MAX) as usize,
        cpus: cpus_of(matches)?,
        mark: mark_of(matches)?,
    })
}

// What is shown of a replay.
fn choice_of(matches: &ArgMatches<'_>) -> Result<Choice, Wrong> {
    choice_from(number(matches, "from"), matches)
}

// The trace that is held against a script, where not both are standard input.
fn trace_of<'a>(matches: &ArgMatches<'a>) -> Result<&'a str, Wrong> {
    let trace = matches.get_str("TRACE").unwrap_or("-");
    if trace == "-" && file_of(matches).is_none() {
        return Err(Wrong::Input);
    }
    Ok(trace)
}

// How a subcommand shows a script; none where it does not.
fn view_of(name: &str) -> Option<View> {
    match name {
        "lanes" => Some(View::Lanes),
        _ => None,
    }
}

// What a subcommand does, whose options can't be wrong, by its name and the words behind it.
fn plain_job<'a>(name: &str, matches: &ArgMatches<'a>) -> Job<'a> {
    match name {
        "explain" => Job::Explain,
        "explore" => Job::Explore(orders_of(matches), searched_to(matches)),
        "sample" => Job::Explore(Orders::Sampled(sample_of(matches)), scripts_of(matches)),
        "outcomes" => Job::Outcomes(most_of(matches), scripts_of(matches)),
        "script" => Job::Write(run_of(matches)),
        _ => Job::Events,
    }
}

// How many nanoseconds there are in some seconds.
fn nanoseconds(seconds: u32) -> u64
    ensures { result ≡ seconds * 1000000000 }
{
    u64::from(seconds) * 1_000_000_000
}

// How many nanoseconds there are in some milliseconds.
fn nanoseconds_of(milliseconds: u32) -> u64
    ensures { result ≡ milliseconds * 1000000 }
{
    u64::from(milliseconds) * 1_000_000
}

// The most nanoseconds that a call waits untold.
fn slow_of(matches: &ArgMatches<'_>) -> u64 {
    match matches.get_one::<u32>("slow") {
        Some(milliseconds) => nanoseconds_of(milliseconds),
        None => MOST_WAIT,
    }
}

// What is done with what a kernel's tracer wrote.
fn kernel_job<'a>(matches: &ArgMatches<'a>) -> Job<'a> {
    let skip = nanoseconds(number(matches, "skip"));
    if matches.get_flag("print") {
        return Job::PrintKernel(skip);
    }
    Job::JudgeKernel(Asked {
        skip,
        slow: slow_of(matches),
        order: matches.get_flag("order"),
    })
}

// How a trace is judged that no kernel's tracer wrote: with none of the options of one.
fn plain_judge<'a>(matches: &ArgMatches<'a>) -> Result<Job<'a>, Wrong> {
    if matches.get_one::<u32>("skip").is_some() {
        return Err(Wrong::Skip);
    }
    if matches.get_one::<u32>("slow").is_some() {
        return Err(Wrong::Slow);
    }
    if matches.get_flag("print") {
        return Err(Wrong::Print);
    }
    if matches.get_flag("order") {
        return Err(Wrong::Order);
    }
    Ok(Job::Judge)
}

// How a trace is judged, by who wrote it.
fn judge_of<'a>(matches: &ArgMatches<'a>) -> Result<Job<'a>, Wrong> {
    match matches.get_str("from") {
        Some("ftrace") => Ok(kernel_job(matches)),
        Some(_) => Err(Wrong::Writer),
        None => plain_judge(matches),
    }
}

// What a page shows that has no mark, by who wrote its text.
fn traced_page<'a>(writer: &str, matches: &ArgMatches<'a>) -> Result<Job<'a>, Wrong> {
    match (writer, matches.get_one::<u32>("skip")) {
        ("ftrace", skip) => Ok(Job::PageKernel(nanoseconds(skip.unwrap_or(0)))),
        ("trace", None) => Ok(Job::PageTrace),
        ("trace", Some(_)) => Err(Wrong::Skip),
        _ => Err(Wrong::Source),
    }
}

// What a page shows.
fn page_of<'a>(matches: &ArgMatches<'a>) -> Result<Job<'a>, Wrong> {
    match matches.get_str("from") {
        Some(_) if matches.get_str("mark").is_some() => Err(Wrong::Marked),
        Some(writer) => traced_page(writer, matches),
        None if matches.get_one::<u32>("skip").is_some() => Err(Wrong::Skip),
        None => Ok(Job::Show(View::Page, choice_of(matches)?)),
    }
}

// The first event that is shown, by the word behind `--from`.
fn first_of(from: Option<&str>) -> Result<u32, Wrong> {
    match from {
        None => Ok(0),
        Some(number) => match number.parse::<u32>() {
            Ok(number) => Ok(number),
            Err(_) => Err(Wrong::From),
        },
    }
}

// How what a kernel's tracer wrote is written in the trace-event format: with none of the options of a replay.
fn kernel_json<'a>(matches: &ArgMatches<'a>) -> Result<Job<'a>, Wrong> {
    if matches.get_one::<u32>("to").is_some() || matches.get_str("cpus").is_some() {
        return Err(Wrong::Shown);
    }
    Ok(Job::JsonKernel(nanoseconds(number(matches, "skip"))))
}

// What is written in the trace-event format.
fn json_of<'a>(matches: &ArgMatches<'a>) -> Result<Job<'a>, Wrong> {
    match matches.get_str("from") {
        Some("ftrace") => kernel_json(matches),
        _ if matches.get_one::<u32>("skip").is_some() => Err(Wrong::Skip),
        from => {
            let choice = choice_from(first_of(from)?, matches)?;
            Ok(Job::Show(View::Json, choice))
        }
    }
}

// What is drawn of what a kernel's tracer wrote: with none of the options of a replay.
fn kernel_svg<'a>(matches: &ArgMatches<'a>) -> Result<Job<'a>, Wrong> {
    if matches.get_one::<u32>("to").is_some() || matches.get_str("cpus").is_some() {
        return Err(Wrong::Shown);
    }
    if matches.get_str("mark").is_some() {
        return Err(Wrong::Marked);
    }
    match matches.get_one::<u32>("around") {
        Some(line) => Ok(Job::DrawKernel(nanoseconds(number(matches, "skip")), line)),
        None => Err(Wrong::NoLine),
    }
}

// What is drawn.
fn svg_of<'a>(matches: &ArgMatches<'a>) -> Result<Job<'a>, Wrong> {
    match matches.get_str("from") {
        Some("ftrace") => kernel_svg(matches),
        _ if matches.get_one::<u32>("skip").is_some() => Err(Wrong::Skip),
        _ if matches.get_one::<u32>("around").is_some() => Err(Wrong::Around),
        from => {
            let choice = choice_from(first_of(from)?, matches)?;
            Ok(Job::Show(View::Svg, choice))
        }
    }
}

// What a subcommand does, by its name and the words behind it.
fn job_of<'a>(name: &str, matches: &ArgMatches<'a>) -> Result<Job<'a>, Wrong> {
    if let Some(view) = view_of(name) {
        return Ok(Job::Show(view, choice_of(matches)?));
    }
    match name {
        "check" => Ok(Job::Check(trace_of(matches)?)),
        "json" => json_of(matches),
        "judge" => judge_of(matches),
        "page" => page_of(matches),
        "svg" => svg_of(matches),
        _ => Ok(plain_job(name, matches)),
    }
}

// The name of a file, where it is not standard input.
fn file_of<'a>(matches: &ArgMatches<'a>) -> Option<&'a str> {
    match matches.get_str("FILE") {
        Some("-") => None,
        name => name,
    }
}

// The words behind the file.
fn words_of<'a>(alloc: Global, matches: &ArgMatches<'a>) -> Result<Vec<&'a str>, AllocError> {
    let mut words = Vec::new(alloc);
    if let Some(found) = matches.get_strs("WORD") {
        for word in found {
            words.push(*word)?;
        }
    }
    Ok(words)
}

// What is said of a value that is wrong.
fn refusal(alloc: Global, wrong: Wrong) -> Result<Error, AllocError> {
    grammar(alloc)?.error(ErrorKind::ValueValidation, wrong.text())
}

// What is said where there is no subcommand.
fn no_subcommand(alloc: Global) -> Result<Error, AllocError> {
    grammar(alloc)?.error(ErrorKind::MissingSubcommand, "there is no subcommand")
}

// What these ask for.
fn request_of<'a>(alloc: Global, matches: &ArgMatches<'a>) -> Result<Request<'a>, Error> {
    // The grammar asks for a subcommand.
    let Some((name, found)) = matches.subcommand() else {
        return Err(no_subcommand(alloc)?);
    };
    match job_of(name, found) {
        Ok(job) => {
            let words = words_of(alloc, found)?;
            let file = file_of(found);
            let threads = number(found, "threads");
            Ok(Request {
                job,
                file,
                words,
                threads,
            })
        }
        Err(wrong) => Err(refusal(alloc, wrong)?),
    }
}

/// What the words ask for. Where they are no command line, or ask for help or the version, the answer is what `clap` says.
pub fn read_words<'a>(alloc: Global, words: &'a [&'a str]) -> Result<Request<'a>, Error> {
    let matches = grammar(alloc)?.try_get_matches_from(words)?;
    request_of(alloc, &matches)
}
