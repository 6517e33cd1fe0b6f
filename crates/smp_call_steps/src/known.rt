//! What one CPU knows of the calls. No value of these types is made when the program runs: tables that threads
//! share speak of them in their rules and contracts.

use crate::drain::Drain;
use crate::stage::Stage;
use smp_mask::CpuMask;
use smp_words::call::Call;
use std::collections::LinkedList;

/// What a table is made with: how many CPUs it has, and those online.
#[derive(Clone, Copy)]
pub struct CallSetting {
    /// How many CPUs it has.
    pub nr: u32,
    /// Those of them that are online.
    pub online: CpuMask,
}

/// A call that was queued, where it went, and whether the queue was empty.
pub struct Sending {
    /// The call.
    pub call: Call,
    /// The CPU in whose queue it was put.
    pub to: u32,
    /// Whether that queue was empty.
    pub is_first: bool,
}

/// What a CPU has sent to another one.
pub enum Logged {
    /// A call, into this CPU's queue.
    Queued(u32),
    /// An interrupt, to this CPU.
    Interrupted(u32),
}

/// When a CPU has run a function itself, with no queue.
pub struct DirectCall {
    /// How many steps outside `handle` it had made by then.
    pub steps: u64,
    /// How often it had taken its interrupt word.
    pub asked: u64,
    /// How many calls it had queued and interrupts it had sent.
    pub logged: u64,
}

/// What a CPU has seen of a head.
pub enum HeadSeen {
    /// This number, by a load.
    Loaded(u64),
    /// By a compare-exchange: which number it expected, and which it found.
    Exchanged { expected: u64, found: u64 },
}

/// The call that a CPU runs.
pub enum Running {
    /// None.
    Nothing,
    /// A SYNC call, whose record is locked until it ends.
    SyncCall(Call),
    /// A SYNC call whose function has run, and which is counted.
    CountedCall(Call),
    /// An ASYNC call, whose record is free.
    AsyncCall(Call),
}

/// A CPU's own part of the calls.
pub struct CallPart {
    /// The calls that it has queued, each with its destination and whether the queue was empty.
    pub sent: LinkedList<Sending>,
    /// The batches that it has taken, each as it stood in the queue.
    pub taken: LinkedList<LinkedList<Call>>,
    /// What is left to run of the last batch.
    pub batch: LinkedList<Call>,
    /// The call that it runs.
    pub running: Running,
    /// The calls that it has run.
    pub ran: LinkedList<Call>,
    /// For each CPU, whether it is owed an interrupt.
    pub owes: LinkedList<bool>,
    /// Whether it has accepted an interrupt and not yet taken its queue.
    pub accepted: bool,
    /// For each time that it took its interrupt word, whether an interrupt was pending.
    pub asked: LinkedList<bool>,
    /// For each record, whether its last call is seen confirmed.
    pub confirmed: LinkedList<bool>,
}

/// What a CPU knows: what its table is made with, where it is, as far as its steps have told, its own part of the
/// calls, and what it has done to other CPUs.
pub struct KnownCalls {
    /// What its table is made with.
    pub setting: CallSetting,
    /// The CPU's number.
    pub number: u32,
    /// The step that it makes next, or none outside a command.
    pub stage: Option<Stage>,
    /// How many calls it has reversed of its batch.
    pub drain: Drain,
    /// Its own part of the calls.
    pub part: CallPart,
    /// How many compare-exchanges of heads it has made, won and lost.
    pub tried: u64,
    /// What its posts have found in heads, by loads and by compare-exchanges, in order.
    pub heads: LinkedList<HeadSeen>,
    /// The calls that it has queued and the interrupts that it has sent, in the order in which it did so.
    pub log: LinkedList<Logged>,
    /// Its direct calls, in order.
    pub direct: LinkedList<DirectCall>,
    /// How many steps it has made outside `handle`.
    pub steps: u64,
    /// How many of these it had made when it last queued a call or sent an interrupt, that step included.
    pub sent_at: u64,
    /// How often it had taken its interrupt word by then.
    pub asked_at: u64,
    /// For each time that it took its interrupt word, how many steps outside `handle` it had made by then.
    pub asked_after: LinkedList<u64>,
}
