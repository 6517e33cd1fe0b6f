//! A step, as it was seen.

use crate::word::Word;

/// What a step does to its word.
#[derive(Clone, Copy, Debug, PartialEq, Eq)]
pub enum Act {
    Load,
    Store,
    Swap,
    /// Takes 1 away.
    Sub,
    /// Keeps some of the bits.
    And,
    Cas,
}

/// What the step means for the command.
#[derive(Clone, Copy, Debug, PartialEq, Eq)]
pub enum Note {
    /// The record is locked: nothing is posted.
    Busy,
    /// The destination is not online: nothing is posted.
    NoCpu,
    /// The call is queued, and an interrupt is owed.
    Owed,
    /// The call is queued behind others.
    Queued,
    /// The tries are used up, and the record is free again.
    Contended,
    /// The interrupt is pending.
    Sent,
    /// The record is unlocked, or the key's count has changed.
    Done,
    /// The record is locked.
    Locked,
    /// No interrupt was pending.
    Idle,
    /// After this step the function runs: source, function, info.
    Call(u32, u16, u64),
    /// The batch has run: how many calls.
    Handled(u32),
    /// The gate is this CPU's.
    Gate,
    /// Somebody holds the gate.
    Taken,
    /// The gate is given up.
    Open,
    /// The stop is open.
    Begun,
    /// This CPU may not enter that slot now.
    Stale,
    /// This CPU is in the stop.
    Entered,
    /// There is no new phase.
    Same,
    /// This phase is acknowledged.
    Moved(u32),
    /// After this step the stop function runs: function, argument.
    Run(u16, u64),
    /// Phase 3 is acknowledged, by an active CPU.
    Ran,
    /// Phase 4 is acknowledged, and interrupts are on.
    Left,
    /// This CPU has completed, and is in no stop.
    Finished,
    /// Not all have completed.
    Pending,
    /// The stop is collected: its result.
    Result(i32),
    /// The key is on.
    On,
    /// The key is off.
    Off,
    /// The site goes on.
    Nop,
    /// The site jumps.
    Jmp,
    /// The key's count is at that end of its range.
    KeyRange,
    /// The key would go on or off, which takes a stop.
    Stop,
    /// The key's count was changed meanwhile.
    Lost,
}

/// One atomic step: what CPU `cpu` did to `word`, what it found there and what it put. A store has no
/// `found`, a load and a lost compare-exchange have no `put`.
#[derive(Clone, Copy, Debug, PartialEq, Eq)]
pub struct Seen {
    pub cpu: u32,
    pub act: Act,
    pub word: Word,
    pub found: Option<u64>,
    pub put: Option<u64>,
    pub note: Option<Note>,
}
