//! The words of one rendezvous slot.

ghost use Rattle.std.specs.Prelude.{◌≡◌};
ghost use Rattle.smp_words.specs.Put.{place_of};

/// A word of a rendezvous slot (`kernel/stop_machine.c: struct multi_stop_data`, `struct cpu_stop_done`).
#[derive(Clone, Copy, Debug, PartialEq, Eq)]
pub enum Field {
    /// 0 for one CPU, 1 for several, 2 for a patch of labels.
    Kind,
    /// The CPUs of the stop: bit c for CPU c.
    Mask,
    /// The CPUs that call the function (`active_cpus`).
    Active,
    /// The function, or of a patch the key.
    Func,
    /// The argument, or of a patch the number of its change.
    Arg,
    /// The phase (`state`).
    State,
    /// How many CPUs have not acknowledged the phase (`thread_ack`).
    Ack,
    /// The CPUs that have not entered: bit c for CPU c.
    Roll,
    /// How many CPUs have not completed (`nr_todo`).
    Todo,
    /// The last answer that is not 0: the 32 bits of the i32 (`ret`).
    Result,
    /// 1 once all have completed (`completion`).
    Done,
}

impl Field {
    /// Its place in the slot.
    pub fn place(self) -> usize
        ensures { result ≡ place_of self }
    {
        self as usize
    }
}
