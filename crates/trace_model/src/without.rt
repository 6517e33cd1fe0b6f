//! What a trace is of, and what it leaves out.

ghost use Rattle.std.specs.Prelude.{◌≡◌};
ghost use Rattle.trace_model.specs.Online.{is_online};

use smp_mask::CpuMask;

/// The groups of events that a trace leaves out: the judge makes those steps itself.
#[derive(Clone, Copy, Debug, PartialEq, Eq)]
pub struct Without {
    /// `gate` and `ungate`.
    pub gate: bool,
    /// `send`, `accept` and `idle`.
    pub interrupts: bool,
    /// `take`.
    pub order: bool,
    /// `raise`.
    pub raises: bool,
    /// `off` and `on`.
    pub switches: bool,
    /// `unlock`.
    pub unlocks: bool,
}

/// What a trace is of: its CPUs, how many keys and sites there are, and what is left out.
#[derive(Clone, Copy, Debug, PartialEq, Eq)]
pub struct Setting {
    /// How many CPUs there are, at most 512.
    pub cpus: u32,
    /// Those below 32 that are online. All from 32 on are.
    pub online: CpuMask,
    pub keys: u32,
    pub sites: u32,
    /// Whether it is of version 3, where stops have numbers of their own. Else each has that of the CPU that opens it.
    pub is_third: bool,
    pub without: Without,
}

impl Setting {
    /// Whether a CPU is online.
    pub fn is_online(&self, cpu: u32) -> bool
        ensures { result ≡ is_online self.now cpu }
    {
        if cpu < 32 {
            self.online.contains(cpu)
        } else {
            cpu < self.cpus && cpu < 512
        }
    }
}
