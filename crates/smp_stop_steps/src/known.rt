//! Where a CPU is with the stops, and what it knows of them. No value of these types is made when the program runs:
//! the laws of the stop half speak of them, and tables that threads share speak of them in their rules and contracts.

use smp_labels::{LabelMap, Place};
use smp_mask::CpuMask;
use smp_words::work::Work;
use std::collections::LinkedList;

/// What a CPU is to do for the next phase.
pub enum Duty {
    Rests,
    /// It was the last to acknowledge, and is to fill the count again.
    Fills,
    /// It has filled it, and is to store the phase.
    Sets,
}

/// Where a CPU is with the stops.
pub enum StopRole {
    /// In no stop.
    Free,
    /// In this source's stop, with the last phase that it acknowledged and the last that it looked at.
    In {
        slot: u32,
        work: Work,
        acked: u32,
        looked: u32,
        duty: Duty,
    },
    /// Its answer is in the result word, and it has not counted itself.
    Gives {
        slot: u32,
        work: Work,
        acked: u32,
        answer: u64,
    },
    /// Inside the function of a patch, with the count that it found, the stores made and those to be made.
    Alters {
        slot: u32,
        work: Work,
        count: u64,
        made: LinkedList<(Place, u64)>,
        rest: LinkedList<(Place, u64)>,
    },
    /// It has completed as the last of all.
    Closes {
        slot: u32,
    },
}

/// Where a source is with its own stop.
pub enum Source {
    /// Its slot is closed.
    Shut,
    /// It holds the gate, and has stored this number of fields of this work.
    Drafts { work: Work, stored: u32 },
    /// Its stop is open.
    Owns { work: Work },
    /// And it has found done set.
    Collects { work: Work },
}

/// A key or a site that was read.
pub enum Reading {
    ReadKey { key: u32, on: bool },
    ReadSite { site: u32, jumps: bool },
}

/// A call of a stop function, with its answer.
pub struct StopCall {
    pub func: u16,
    pub arg: u64,
    pub answer: u64,
}

/// How far a CPU is with the function of the stop that it is in.
pub enum Calling {
    /// It calls none, or has not called it yet.
    Idle,
    /// It has loaded the function and its argument, and calls it: with the answer that the function gives.
    Calls { call: StopCall },
    /// It has acknowledged `RUN`, and is to complete with its function's answer.
    Carries { answer: u64 },
}

/// By how much a CPU has moved the count of a key: up in all, and down in all.
pub struct Moved {
    pub up: u64,
    pub down: u64,
}

/// A step of a CPU at the gate, at its own stop, or at a key: what the access has told.
pub enum OwnMove {
    /// It has tried the gate, and has found a holder.
    Busy,
    /// It has taken the gate.
    Took,
    /// It has given the gate up.
    Gave,
    /// It has opened its own slot for a stop of this work.
    Began { work: Work },
    /// It has looked at done of its own stop, and has found it not set.
    NotDone,
    /// It has collected the result of its own stop.
    Collected { result: u64 },
    /// It has loaded a key with its interrupts on, and has found this count.
    Found { key: u32, count: u64 },
    /// Its exchange of a key has found another count.
    Lost { key: u32 },
}

/// An attempt of a CPU to enter the stop of a slot: the step that takes its bit from the roll.
pub struct Attempt {
    pub slot: u32,
    /// Whether the roll had the CPU, which is in the stop then.
    pub entered: bool,
}

/// What a table is made with.
#[derive(Drop)]
pub struct StopSetting {
    pub online: CpuMask,
    pub labels: LabelMap,
}

/// A CPU's part of the state of all stops.
pub struct StopPart {
    /// Whether it holds the gate.
    pub holds: bool,
    /// The works that it has begun, and the results that it has collected.
    pub begun: LinkedList<Work>,
    pub collected: LinkedList<u64>,
    /// For each source, what it has answered to its stops.
    pub answers: LinkedList<LinkedList<u64>>,
    /// The phases that it has looked at.
    pub looks: LinkedList<u64>,
    /// The stop functions that it has called, in the stops that it has completed.
    pub calls: LinkedList<StopCall>,
    /// How far it is with the function of its stop. No step before the completion tells its answer, which is put as 0.
    pub calling: Calling,
    /// What it has read since its interrupts last went on.
    pub readings: LinkedList<Reading>,
    /// By how much it has moved each key's count, outside any stop, and as the runner of patches.
    pub nudged: LinkedList<Moved>,
    pub patched: LinkedList<Moved>,
}

/// What a CPU knows: where it is with the stops, as far as its steps have told, and its own part of their state.
pub struct KnownStops {
    pub setting: StopSetting,
    pub number: u32,
    pub seat: StopRole,
    /// The fields that it has not yet stored are put as 0.
    pub source: Source,
    pub part: StopPart,
    /// The answer that it carries from its acknowledgement of `RUN` to its completion, else 0. No word has it, and no step
    /// tells it: the acknowledgement puts it.
    pub carried: u64,
    /// Its steps at the gate, at its own stop and at keys, in the order in which it has made them.
    pub moves: LinkedList<OwnMove>,
    /// Its attempts to enter a stop, in the same way.
    pub attempts: LinkedList<Attempt>,
    /// How many steps it has made: one for each access.
    pub steps: u64,
}
