//! The call table: words that the CPUs' threads change in single steps.
//!
//! The machine is that of `smp_call_steps`: the same stages, the same steps, the same laws, between any two steps of
//! any threads. Each CPU is driven through one value, `CallCpu`.
//!
//! Which calls of one table may run together, in the form of `include/linux/llist.h`; `post` is also `post_within`, `send`
//! also `interrupt`, and `handle` also `rest`, `begin_handle` and `resume`:
//!
//! | | `post` | `send` | `is_done` | `tally` | `handle` | `Boot::cpu` | `new` | `audit` |
//! |---|---|---|---|---|---|---|---|---|
//! | `post` | - | - | - | - | - | - | x | x |
//! | `send` | | - | - | - | - | - | x | x |
//! | `is_done` | | | - | - | - | - | x | x |
//! | `tally` | | | | - | - | - | x | x |
//! | `handle` | | | | | - | - | x | x |
//! | `Boot::cpu` | | | | | | x | x | - |
//! | `new` | | | | | | | x | x |
//! | `audit` | | | | | | | | x |
//!
//! Where the row's call may run together with the column's, on two threads: `-` where no lock is needed, `x` where the
//! types refuse it, since `new` makes the table, `audit` takes it, and `Boot::cpu` takes the one `Boot` by `&mut`. The
//! first five take the caller's `CallCpu` by `&mut` or by value. So `-` is about two CPUs, and a CPU makes one call at a time.
//!
//! `wake`, `wake_waiting`, `wake_next`, `set_alarm`, `pause`, `pause_alone`, `line`, `call_here`, `together`, `crowd` and
//! `all_together` make no step. They may run together with all calls but `new` and `audit`.
//! `sleep_after` takes the table by `&mut`, so it comes before threads share the table.
//!
//! A caller that can lend no handler runs a batch itself. `begin_handle` takes a `CallCpu` and gives a `Next`. At `Next::Run`
//! run `Serving::call`, and give the `Serving` to `resume`, until that gives `Next::Done`. `Idle` and `Done` give the
//! `CallCpu` back. Then `wake_waiting` wakes those that wait for a call of the batch. A `Serving` that is dropped leaves its
//! CPU inside `handle` for ever. It is some 600 bytes that move at each call; `handle` moves none.
//!
//! Each call says at which step it takes effect, whether it may wait, and which CPUs must poll. A CPU polls where it calls
//! `handle` time and again. One that calls `rest` in its place sleeps until an interrupt is sent to it.
#![tactic(auto)]

mod alarms;
mod audit;
mod boot;
mod both;
mod cell;
mod closing;
mod cpu;
mod crowd;
mod handle;
mod handler;
pub mod laws;
mod line;
mod line_wait;
mod noted;
mod pause;
mod post;
mod reverse;
mod rule;
mod run;
mod seat;
mod seat_view;
mod serve;
mod serving;
mod table;

pub use alarms::Alarm;
pub use audit::{Audit, Left, Tally};
pub use boot::Boot;
pub use closing::ClosedTable;
pub use cpu::CallCpu;
pub use crowd::CallCrowd;
pub use handle::Handled;
pub use handler::{Handler, Heard};
pub use line_wait::LineWait;
pub use pause::Pause;
pub use seat::call_steps;
pub use serving::{Next, Serving};
pub use table::CallTable;
