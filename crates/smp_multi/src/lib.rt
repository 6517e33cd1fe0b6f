//! The stop table: words that the CPUs' threads change in single steps.
//!
//! The stops are those of `smp_stop_steps`: the same states, the same laws, between any two steps of any threads. Each
//! CPU is driven through one value, `StopCpu`.
//!
//! Which calls of one table may run together, in the form of `include/linux/llist.h`:
//!
//! | | | 1 | 2 | 3 | 4 | 5 | 6 | 7 | 8 | 9 |
//! |---|---|---|---|---|---|---|---|---|---|---|
//! | 1 | `try_gate` | - | - | - | - | - | - | - | - | x |
//! | 2 | `open_gate` | | g | g | - | - | - | - | - | x |
//! | 3 | `begin` | | | g | - | - | - | - | - | x |
//! | 4 | `enter` | | | | - | - | - | - | - | x |
//! | 5 | `run_one`, `advance`, `finish`, `begin_one`, `turn`, `answer` | | | | | - | - | - | - | x |
//! | 6 | `poll_done` | | | | | | - | - | - | x |
//! | 7 | `read_key`, `read_site`, `try_key` | | | | | | | - | - | x |
//! | 8 | `StopBoot::cpu` | | | | | | | | x | x |
//! | 9 | `new` | | | | | | | | | x |
//!
//! Where the row's call may run together with the one of the column's number, on two threads: `-` where no lock is
//! needed; `g` where the gate orders them, since each is E4 without it; `x` where the types refuse it, since `new` makes
//! the table, and `StopBoot::cpu` takes the one `StopBoot` by `&mut`. All but the last two take the caller's `StopCpu`
//! by `&mut` or by value. So `-` is about two CPUs, and a CPU makes one call at a time.
//!
//! No call waits. What its CPU or another has to do for the stop to go on is in the third column.
//!
//! | Call | Where it takes effect | Who polls for it | In the kernel |
//! |---|---|---|---|
//! | `try_gate` | the compare-exchange of the gate | the caller, at false | `mutex_lock(&stop_cpus_mutex)` |
//! | `open_gate` | the store of the gate | nobody | `mutex_unlock(&stop_cpus_mutex)` |
//! | `begin` | the store of the roll | its CPUs by `enter`, the source by `poll_done` | `queue_stop_cpus_work` |
//! | `enter` | the fetch_and of the roll | nobody | `cpu_stopper_thread` |
//! | `run_one` | the fetch_sub of the count | nobody | `cpu_stopper_thread` |
//! | `advance` | the load of the phase, and the fetch_sub that acknowledges it | each CPU of the mask, until it has left | `multi_cpu_stop` |
//! | `turn` | as `advance`, up to the call of a function | as `advance` | `multi_cpu_stop` |
//! | `begin_one` | the load of the argument | nobody | `cpu_stopper_thread` |
//! | `answer` | the fetch_sub of `RUN`, or of the count | nobody | `multi_cpu_stop`, `cpu_stopper_thread` |
//! | `finish` | the fetch_sub of the count | nobody | `cpu_stop_signal_done` |
//! | `poll_done` | the load of the result | the source, until it is Some | `wait_for_completion` |
//! | `read_key`, `read_site` | the load | nobody | `static_key_enabled`, `arch_static_branch` |
//! | `try_key` | the compare-exchange of the count | the caller, at `Lost` | `static_key_slow_inc_cpuslocked`, `static_key_slow_try_dec` |
#![tactic(auto)]

mod answer;
mod answering;
mod begin;
mod boot;
mod both;
mod cell;
mod complete;
mod cpu;
mod crowd;
mod enter;
mod func;
mod gate;
pub mod laws;
mod nudge;
mod patch;
mod poll;
mod read;
mod round;
mod rule;
mod run;
mod seat;
mod seat_view;
mod table;
mod turn;

pub use answering::{Answering, Turned};
pub use boot::StopBoot;
pub use cpu::StopCpu;
pub use crowd::StopCrowd;
pub use func::{Called, StopFunc};
pub use nudge::Nudge;
pub use table::StopTable;
pub use turn::Turn;
