//! What a line of a trace tells.

use crate::stop::Task;
use smp_words::call::Class;

/// What shares the queue of a CPU with calls, and is no call (`CSD_TYPE_TTWU`, `CSD_TYPE_IRQ_WORK`).
#[derive(Clone, Copy, Debug, PartialEq, Eq)]
pub enum OtherNode {
    /// A task that is to be woken.
    Wake,
    IrqWork,
}

/// An event of calls.
#[derive(Clone, Copy, Debug, PartialEq, Eq)]
pub enum CallEvent {
    /// A call by this record, with its destination, class, function and argument, joins a queue.
    Queue(u16, u32, Class, u64, u64),
    /// What is no call joins the queue of a CPU.
    QueueOther(u32, OtherNode),
    /// The record is seen unlocked.
    Free(u16),
    Send(u32),
    Accept,
    Idle,
    Take,
    Unlock(u16),
    /// The function of the record's call is entered, with its number and argument.
    Begin(u16, u64, u64),
    End(u16),
}

/// An event of stops.
#[derive(Clone, Copy, Debug, PartialEq, Eq)]
pub enum StopEvent {
    Gate,
    Ungate,
    /// The stop of this number is opened.
    Open(u32, Task),
    /// A CPU is in the stop of this number.
    Enter(u32),
    Ack(u32),
    Raise(u32),
    Off,
    On,
    /// The function of a stop is entered, with its number and argument.
    Run(u64, u64),
    Complete(i32),
    /// The result of the stop of this number is collected.
    Collect(u32, i32),
}

/// An event of keys and sites.
#[derive(Clone, Copy, Debug, PartialEq, Eq)]
pub enum LabelEvent {
    /// A patch stores a key's count.
    Set(u32, u64),
    /// A patch turns a site to a jump, or to none.
    Turn(u32, bool),
    /// A key reads on, or off.
    Key(u32, bool),
    /// A site reads as a jump, or as none.
    Site(u32, bool),
    /// A count goes up by one, or down.
    Nudge(u32, bool),
}

/// An event of a CPU.
#[derive(Clone, Copy, Debug, PartialEq, Eq)]
pub enum Event {
    Call(CallEvent),
    Stop(StopEvent),
    Label(LabelEvent),
}
