//! What a CPU may be told to do.

use crate::call::Class;
use crate::work::Work;

/// A command of one CPU. `Core::start` says when it is refused.
#[derive(Clone, Copy, Debug, PartialEq, Eq)]
pub enum Command {
    /// Queue a call: the own record's local number, the destination, class, function, info, and how many
    /// compare-exchanges may be tried (`kernel/smp.c: generic_exec_single`).
    Post(u32, u32, Class, u16, u64, u32),
    /// Send an interrupt to a CPU (`arch_send_call_function_single_ipi`).
    Send(u32),
    /// Ask whether the record of this local number is unlocked (one turn of `csd_lock_wait`).
    Done(u32),
    /// Take the own interrupt and, where there was one, run the own queue (`__flush_smp_call_function_queue`).
    Handle,
    /// Take the gate that orders all stops, where nobody holds it (`stop_cpus_mutex`).
    Gate,
    /// Give the gate up.
    Ungate,
    /// Open the stop of the own slot (`queue_stop_cpus_work`).
    Begin(Work),
    /// Enter the stop of this source's slot (`cpu_stopper_thread`).
    Enter(u32),
    /// Make one turn of the loop of a stop of several CPUs; a function that it calls answers this number
    /// (`multi_cpu_stop`).
    Advance(i32),
    /// Run the function of a stop of one CPU, which answers this number, and complete.
    RunOne(i32),
    /// Complete with the answer of the own function, 0 where it ran none (`cpu_stop_signal_done`).
    Finish,
    /// Ask whether the own stop is complete and, where it is, collect its result.
    Poll,
    /// Read a label key (`static_key_enabled`).
    Key(u32),
    /// Read a label site.
    Site(u32),
    /// Move the count of a label key up or down by one, where the key stays on
    /// (`static_key_fast_inc_not_disabled`).
    Nudge(u32, bool),
}

/// One event of a replay.
#[derive(Clone, Copy, Debug, PartialEq, Eq)]
pub enum Event {
    /// This CPU begins a command; no step is made.
    Start(u32, Command),
    /// This CPU makes one atomic step of its command.
    Step(u32),
}
