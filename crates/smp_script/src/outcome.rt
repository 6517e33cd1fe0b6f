//! How a script ended.

/// How a script ended.
#[derive(Clone, Copy, Debug, PartialEq, Eq)]
pub enum Outcome {
    /// Every line was run.
    Done,
    /// An event was refused: only a replay ends so.
    Stopped,
    /// Calls are left on the machine: no replay ends so.
    Left,
}
