//! Kinds of scripts.

ghost use Rattle.std.specs.Prelude.{◌≡◌};
ghost use Rattle.smp_script.specs.Modes.{mode_text};

/// The kind of a script, which its first line tells.
#[derive(Clone, Copy, Debug, PartialEq, Eq)]
pub enum Mode {
    /// The order of the atomic steps of several CPUs.
    Replay,
    /// What several CPUs call, each in its own order.
    Run,
}

impl Mode {
    /// The word of it in the first line.
    pub fn word(self) -> &'static [u8]
        ensures { result.now ≡ mode_text self }
    {
        match self {
            Mode::Replay => b"replay",
            Mode::Run => b"run",
        }
    }
}
