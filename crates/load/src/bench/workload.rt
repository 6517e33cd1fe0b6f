//! What is measured.

ghost use Rattle.load.specs.Requests.{AreThreads, AreThreadsOf};

/// How many workloads there are.
const WORKLOADS: usize = 13;

/// What is measured: one operation of it, and who takes part.
#[derive(Clone, Copy, PartialEq, Eq)]
pub enum Workload {
    /// One thread posts one call, sends and handles it. An operation is one call.
    PostOne,
    /// A post and its handling with eight calls to one handling: four sources with two records each.
    PostEight,
    /// A call with wait between two threads that poll.
    RoundTrip,
    /// A call with wait, from one thread to another, which sleeps where nothing is pending.
    Wake,
    /// Calls without wait from all threads but one to that one. An operation is a call that has run.
    Async,
    /// A call to many with wait, from one thread to all others, which poll.
    Many,
    /// A stop of all CPUs by one thread, while all others poll.
    Stop,
    /// A stop of one CPU by another.
    StopOne,
    /// A key is turned on and off in turn by one thread, each time in a stop, while all others poll.
    SetKey,
    /// A key that is on is counted up and down in turn, outside any stop, by one thread. An operation is one change.
    CountOne,
    /// A key that is on is counted up and down by all threads, each for itself. An operation is a change by the first of them.
    CountAll,
    /// A CPU polls, and finds neither an interrupt nor a work.
    Idle,
    /// All threads have nothing to do and sleep, until the first calls all others, with wait. An operation is one such rest.
    Rest,
}

impl Workload {
    pub const ALL: [Workload; WORKLOADS] = [
        Workload::PostOne,
        Workload::PostEight,
        Workload::RoundTrip,
        Workload::Wake,
        Workload::Async,
        Workload::Many,
        Workload::Stop,
        Workload::StopOne,
        Workload::SetKey,
        Workload::CountOne,
        Workload::CountAll,
        Workload::Idle,
        Workload::Rest,
    ];

    /// The names of all, in the order of [`Workload::ALL`].
    pub const NAMES: [&'static str; WORKLOADS] = [
        "post-1",
        "post-8",
        "trip",
        "wake",
        "async",
        "many",
        "stop",
        "stop-one",
        "set-key",
        "key-inc-1",
        "key-inc",
        "idle",
        "rest",
    ];

    pub fn name(self) -> &'static str {
        Workload::NAMES[self as usize]
    }

    /// Whether it is measured on a table of calls, and not on a machine.
    pub fn is_of_calls(self) -> bool {
        match self {
            Workload::PostOne
            | Workload::PostEight
            | Workload::RoundTrip
            | Workload::Wake
            | Workload::Async
            | Workload::Many => true,
            _ => false,
        }
    }

    /// How many threads it has, where this number is asked for. One CPU of a table of calls keeps the table's last value, so
    /// 31 are the most of a workload of calls.
    pub fn threads(self, asked: u32) -> u32
        requires { AreThreads asked }
        ensures { AreThreadsOf asked result }
    {
        match self {
            Workload::PostOne | Workload::PostEight | Workload::CountOne | Workload::Idle => 1,
            Workload::RoundTrip | Workload::Wake | Workload::StopOne => 2,
            Workload::Async | Workload::Many => asked.min(31),
            _ => asked,
        }
    }
}
