//! The machine: calls and stops together, with the stopper queues.
//!
//! | Call of a [`Machine`] | What it waits for | CPUs that must poll | Where it takes effect | In the kernel |
//! |---|---|---|---|---|
//! | `call_single`, `call_any` | the record's last call; with `wait` its own | the CPU called | the call's exchange | `smp_call_function_single`, `_any` |
//! | `call_async` | no call | the CPU called | the call's exchange | `smp_call_function_single_async` |
//! | `call_many`, `each_cpu_cond` | as `call_single`, each record | the CPUs called | each call's exchange | `smp_call_function_many`, `on_each_cpu_cond` |
//! | `stop_one`, `stop_two` | the gate, then its stop | its CPUs, and the CPU that holds the gate | the store of its roll | `stop_one_cpu`, `stop_two_cpus` |
//! | `stop_machine` | the gate, then its stop | all online CPUs | the store of its roll | `stop_machine` |
//! | `set_key` | the gate, then its stop | all online CPUs | the patch, or the load of the count | `static_key_enable`, `static_key_disable` |
//! | `key_inc`, `key_dec` | nothing, or as `set_key` | none, or all online CPUs | the exchange of the count, or the patch | `static_key_slow_inc`, `_dec` |
//! | `read_key`, `read_site` | nothing | none | the load | `static_key_enabled`, `arch_static_branch` |
//! | `turn` | nothing | none | its own steps | one pass of `multi_cpu_stop` |
//! | `poll` | the stop that it takes part in | the CPUs of that stop | its own steps | an interrupt, and the stopper thread |
//! | `rest` | as `poll`; then, where that found nothing, for an interrupt or a work | the CPUs of that stop | its own steps | `do_idle` |
//!
//! Each call but `turn`, `poll`, `rest` and the readings refuses with E4 (`SmpError::BadArgument`) where a work is in hand. A CPU that
//! waits in a call of the first three rows handles its interrupts, and takes part in no stop. One that waits in a stop
//! polls.
//!
//! A [`Seat`] holds a CPU with its machine, its runtime, its handler and its stop function, and has each call as a method,
//! also by the names `on_each_cpu`, `on_each_cpu_mask`, `smp_call_function` and `kick_all_cpus_sync`. [`run_cpus`] runs each
//! CPU on a thread of its own, and gives all of them back.
#![tactic(auto)]

mod boot;
mod calls;
mod calls_within;
mod context;
mod cpu;
mod crew;
mod crowds;
mod heard_at;
mod hearing;
mod idle;
mod key;
mod key_calls;
mod key_count;
mod key_work;
pub mod laws;
mod machine;
mod machine_cpu;
mod member;
mod open;
mod poll;
mod read;
mod seat;
mod seat_calls;
mod seat_keys;
mod seat_names;
mod seat_polls;
mod seat_stops;
mod seat_within;
mod stalls;
mod stop;
mod stop_calls;
mod stop_work;
mod stoppers;
mod take;
mod threads;
mod turn;
mod work_queue;

pub use boot::MachineBoot;
pub use cpu::Cpu;
pub use crew::{Crew, Played};
pub use idle::{NoStop, Silent};
pub use machine::Machine;
pub use seat::Seat;
pub use threads::run_cpus;
