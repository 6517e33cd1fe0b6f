//! Why a text is not judged.

/// Why a line, and with it the text, is not judged.
#[derive(Clone, Copy, Debug, PartialEq, Eq)]
pub enum Wrong {
    /// It is no line of the tracer's text.
    Form,
    /// Events were lost.
    Lost,
    /// The time goes back.
    Time,
    /// A field is missing or is no number.
    Field,
    /// It names a CPU from 512 on, or it is of a stop and names one from 32 on.
    Cpu,
    /// It shows the class of a call, and no line before it queues that call.
    Class,
    /// It has one record more than there can be.
    Records,
    /// It opens a stop while 64 are open.
    Stops,
    /// It shows that a CPU has gone offline, and an event is refused that this may have caused.
    Offline,
}

/// Why a text is not judged to its end.
#[derive(Clone, Copy, Debug, PartialEq, Eq)]
pub enum Refusal {
    /// What is wrong with the line of this number.
    Wrong(u32, Wrong),
    /// It has more bytes or events than are judged.
    TooLong,
    /// The trace that it tells has more lines or bytes than one may have.
    LongTrace,
    /// The order that was chosen of its appends is none that its lines allow.
    Unplaced,
    NoMemory,
}
