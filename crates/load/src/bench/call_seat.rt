//! One CPU of a workload, and what a table says at its end.

ghost use Rattle.std.specs.Prelude.{◌≡◌, IfOk};
ghost use Rattle.load.specs.Tallies.{row_added, sum_of, HaveRun};

use crate::error::LoadError;
use crate::flag::Flag;
use smp_calls::{call_many, call_single};
use smp_mask::CpuMask;
use smp_queue::{Audit, Boot, CallCpu, CallTable, Handler, Tally};
use smp_words::call::Class;
use std::alloc::Global;
use std::sync::Wait;

/// The function that all calls name, and its info.
const FUNC: u16 = 7;

const INFO: u64 = 42;

/// Counts the calls that it hears, modulo 2^64.
#[derive(Drop)]
pub struct Counter {
    pub calls: u64,
}

impl Handler for Counter {
    ghost use Rattle.std.specs.Prelude.{◌≡◌, ◌+◌, ◌%◌, ◌^◌};

    ghost leads = { λ before _ after. after.calls ≡ (before.calls + 1) % 2 ^ 64 };

    fn call(&mut self, _src: u32, _func: u16, _info: u64) {
        self.calls = self.calls.wrapping_add(1);
    }
}

/// A CPU at its table, with its handler.
#[derive(Drop)]
pub struct CallSeat<'a> {
    table: &'a CallTable<Global>,
    cpu: CallCpu,
    counter: Counter,
    ghost own: { cpu.table ≡ table.now.table },
}

impl<'a> CallSeat<'a> {
    /// Posts a call by one of the user's records and sends the interrupt where it is owed: whether it was queued.
    pub fn post(&mut self, k: u32, to: u32) -> bool {
        let cpu = &mut self.cpu;
        match self
            .table
            .post_within(cpu, k, to, Class::Async, FUNC, INFO, 1)
        {
            Ok(true) => self.table.send(cpu, to).is_ok(),
            Ok(false) => true,
            Err(_) => false,
        }
    }

    /// Handles the CPU's interrupt, if one is pending: how many calls it ran.
    pub fn poll(&mut self) -> u32 {
        self.table.handle(&mut self.cpu, &mut self.counter).ran
    }

    /// Handles the CPU's interrupt, and sleeps where none was pending, unless all are to stop: whether they are.
    pub fn rest<R: Wait>(&mut self, rt: &R, stop: &Flag) -> bool {
        let alarm = self.table.set_alarm(&self.cpu);
        let is_stopped = stop.is_set();
        let handled = self.table.handle(&mut self.cpu, &mut self.counter);
        if !is_stopped && !handled.interrupted {
            alarm.sleep(rt);
        }
        is_stopped
    }

    /// Wakes a CPU that sleeps.
    pub fn wake(&self, cpu: u32) {
        self.table.wake(cpu);
    }

    pub fn single<R: Wait>(&mut self, rt: &R, dst: u32, wait: bool) -> bool {
        let (cpu, counter) = (&mut self.cpu, &mut self.counter);
        call_single(self.table, rt, cpu, counter, dst, FUNC, INFO, wait).is_ok()
    }

    /// Calls all other CPUs of the mask, and waits for them.
    pub fn many<R: Wait>(&mut self, rt: &R, mask: CpuMask) {
        let (cpu, counter) = (&mut self.cpu, &mut self.counter);
        call_many(self.table, rt, cpu, counter, mask, FUNC, INFO, true);
    }
}

/// The CPUs of a table that have no seat yet.
#[derive(Drop)]
pub struct CallRoom<'a> {
    table: &'a CallTable<Global>,
    boot: Boot<Global>,
    ghost own: { boot.table.table ≡ table.now.table },
}

impl<'a> CallRoom<'a> {
    pub fn new(table: &'a CallTable<Global>, boot: Boot<Global>) -> CallRoom<'a>
        requires { boot.table.table ≡ table.now.table }
    {
        CallRoom { table, boot }
    }

    /// The seat of this CPU. E1 where it is not online, E2 where it has one.
    pub fn seat(&mut self, number: u32) -> Result<CallSeat<'a>, LoadError> {
        let cpu = self.boot.cpu(number)?;
        let counter = Counter { calls: 0 };
        Ok(CallSeat {
            table: self.table,
            cpu,
            counter,
        })
    }

    /// The seats of the CPUs from 1 up to below this number.
    pub fn seats(
        &mut self,
        alloc: Global,
        end: u32,
    ) -> Result<Vec<CallSeat<'a>, Global>, LoadError> {
        let mut seats = Vec::new(alloc);
        for number in 1..end {
            seats.push(self.seat(number)?)?;
        }
        Ok(seats)
    }
}

/// A number with those of a row added, modulo 2^64.
fn added(sum: u64, row: &[u64]) -> u64
    ensures { result ≡ row_added sum row.now }
{
    let mut all = sum;
    for ran in row {
        all = all.wrapping_add(*ran);
    }
    all
}

/// All calls that have run, modulo 2^64.
fn sum_of(tally: &Tally) -> u64
    ensures { result ≡ sum_of tally.now.ran }
{
    let mut sum = 0u64;
    for row in &tally.ran {
        sum = added(sum, row.as_slice());
    }
    sum
}

/// How many calls have run, where all that were queued have.
pub fn calls_run(audit: Audit) -> Result<u64, LoadError>
    ensures { IfOk result (λ calls. HaveRun audit calls) }
{
    match audit {
        Audit::Drained(tally) => Ok(sum_of(&tally)),
        Audit::Left(_) => Err(LoadError::NotDrained),
    }
}
