//! Why a call was refused.

use thiserror::Error;

/// Why a call was refused. A refused call has changed nothing, unless its own text says otherwise.
#[derive(Clone, Copy, Debug, PartialEq, Eq, Error)]
pub enum SmpError {
    /// There is no such CPU, or it is not online: Linux's ENXIO, 6.
    #[error("E1 no such CPU")]
    NoCpu,
    /// The record is locked, the CPU's value was given out before, or the CPU is inside a command:
    /// Linux's EBUSY, 16.
    #[error("E2 busy")]
    Busy,
    /// A CPU of the stop is not online, so it has no stopper: Linux's ENOENT, 2.
    #[error("E3 no stopper")]
    NoStopper,
    /// An argument that the call does not take: Linux's EINVAL, 22.
    #[error("E4 bad argument")]
    BadArgument,
    /// The tries were used up. Nothing is queued, and the record is free again.
    #[error("E5 contended")]
    Contended,
    /// A growth was refused by the allocator.
    #[error("E6 no memory")]
    NoMemory,
    /// This CPU may not enter that slot now.
    #[error("E7 stale")]
    Stale,
    /// This source's stop is not collected yet.
    #[error("E8 slot busy")]
    SlotBusy,
    /// The script is not lawful: the first line at fault, counted from 1, and what is wrong with it.
    #[error("E9 line {line} {cause}")]
    BadScript { line: u32, cause: Cause },
    /// This CPU has no command of which a step could be made.
    #[error("E10 idle step")]
    IdleStep,
    /// The text is no CPU list. Its first `position` bytes are the longest that some CPU list begins with.
    #[error("E11 bad mask at {position}")]
    BadMask { position: u32 },
    /// The reader or the writer failed.
    #[error("E12 {0} failed")]
    StreamFailed(Side),
    /// A key's count is at that end of its range.
    #[error("E13 key {0}")]
    KeyRange(Edge),
}

/// What is wrong with a line of a script.
#[derive(Clone, Copy, Debug, PartialEq, Eq, Error)]
pub enum Cause {
    /// The script has too many bytes, lines or events.
    #[error("TooLong")]
    TooLong,
    /// The script ends before this line does.
    #[error("Cut")]
    Cut,
    /// A wrong word, or too few or too many fields.
    #[error("Word")]
    Word,
    /// A field that is no decimal number.
    #[error("Number")]
    Number,
    /// A number outside the range of its field.
    #[error("Range")]
    Range,
    /// A field that is no CPU list.
    #[error("Mask")]
    Mask,
    /// A key that more than one CPU sets.
    #[error("SharedKey")]
    SharedKey,
}

/// Which device failed.
#[derive(Clone, Copy, Debug, PartialEq, Eq, Error)]
pub enum Side {
    /// The reader that gives the script.
    #[error("read")]
    Read,
    /// The writer that takes the output.
    #[error("write")]
    Write,
}

/// Which end of its range a key's count is at.
#[derive(Clone, Copy, Debug, PartialEq, Eq, Error)]
pub enum Edge {
    /// It can't go up.
    #[error("full")]
    Full,
    /// It can't go down.
    #[error("zero")]
    Zero,
}
