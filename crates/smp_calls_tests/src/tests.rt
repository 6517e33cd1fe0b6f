ghost use Rattle.std.specs.Prelude.{◌≡◌, IfOk};

mod batches;
mod conditions;
mod others;
mod resting;
mod sleeping;
mod threads;
mod users;
mod waiting;
mod wide;
mod within;

use smp_calls::*;
use smp_mask::{CpuMask, SmpError};
use smp_queue::{Audit, Boot, CallCpu, CallTable, Handler, Heard, Tally};
use smp_words::size::NR_CPUS;
use std::alloc::Global;
use std::marker::Model;
use std::process::Abort;
use std::sync::Wait;
use std::sync::atomic::{AtomicU64, Ordering};
use std::test::*;

/// No wait of a test takes more turns than this, so that a fault fails and does not hang.
const TURNS: u32 = 100_000_000;

/// The calls that a CPU's handler has heard, as long as there was memory for them.
#[derive(Drop)]
struct Recorder {
    calls: Vec<Heard, Global>,
    whole: bool,
}

impl Recorder {
    fn new(alloc: Global) -> Recorder {
        Recorder {
            calls: Vec::new(alloc),
            whole: true,
        }
    }
}

impl Handler for Recorder {
    ghost use Rattle.std.specs.Prelude.{◌≡◌, ◌∷◌, ◌++◌, [], true};

    ghost leads = { λ before call after. after.whole ≡ true → (before.whole ≡ true) × (after.calls.items ≡ before.calls.items ++ call ∷ []) };

    fn call(&mut self, src: u32, func: u16, info: u64) {
        if self.calls.push(Heard { src, func, info }).is_err() {
            self.whole = false;
        }
    }
}

/// A call of the CPUs of a mask of which a condition holds.
#[derive(Clone, Copy)]
struct CondCall {
    mask: CpuMask,
    func: u16,
    wait: bool,
}

/// A CPU with its table and its handler.
#[derive(Drop)]
struct Driver<'a> {
    table: &'a CallTable<Global>,
    cpu: CallCpu,
    heard: Recorder,
}

impl<'a> Model for Driver<'a> {
    ghost use Rattle.std.specs.Prelude.{◌≡◌};
    ghost use Rattle.smp_queue.specs.Cpu.{CpuValue};

    ghost Value = { CpuValue };

    ghost view = { λ d. d.cpu };

    ghost invariant = { λ d. d.cpu.table ≡ d.table.now.table };
}

impl<'a> Driver<'a> {
    fn new(table: &'a CallTable<Global>, cpu: CallCpu, alloc: Global) -> Driver<'a>
        requires { cpu.table ≡ table.now.table }
    {
        let heard = Recorder::new(alloc);
        Driver { table, cpu, heard }
    }

    fn single<R: Wait>(&mut self, rt: &R, dst: u32, func: u16, wait: bool) -> Result<(), SmpError> {
        call_single(
            self.table,
            rt,
            &mut self.cpu,
            &mut self.heard,
            dst,
            func,
            6,
            wait,
        )
    }

    fn by_user<R: Wait>(&mut self, rt: &R, u: u32, dst: u32, func: u16) -> Result<(), SmpError> {
        call_async(
            self.table,
            rt,
            &mut self.cpu,
            &mut self.heard,
            u,
            dst,
            func,
            6,
        )
    }

    fn any<R: Wait>(
        &mut self,
        rt: &R,
        mask: CpuMask,
        func: u16,
        wait: bool,
    ) -> Result<u32, SmpError> {
        call_any(
            self.table,
            rt,
            &mut self.cpu,
            &mut self.heard,
            mask,
            func,
            6,
            wait,
        )
    }

    fn many<R: Wait>(&mut self, rt: &R, mask: CpuMask, func: u16, wait: bool) -> CpuMask {
        call_many(
            self.table,
            rt,
            &mut self.cpu,
            &mut self.heard,
            mask,
            func,
            6,
            wait,
        )
    }

    fn each<R: Wait, C: Fn(u32, u64) -> bool>(
        &mut self,
        rt: &R,
        call: CondCall,
        cond: &C,
    ) -> CpuMask
        requires { C.IsAlwaysCallable cond.now }
    {
        each_cpu_cond(
            self.table,
            rt,
            &mut self.cpu,
            &mut self.heard,
            call.mask,
            call.func,
            6,
            cond,
            call.wait,
        )
    }

    fn poll(&mut self) {
        self.table.handle(&mut self.cpu, &mut self.heard);
    }

    fn interrupt(&mut self, to: u32) -> Result<(), SmpError> {
        self.table.send(&mut self.cpu, to)
    }

    fn is_done(&mut self, k: u32) -> Result<bool, SmpError> {
        self.table.is_done(&mut self.cpu, k)
    }

    fn tally(&mut self, other: u32) -> (u64, u64) {
        self.table.tally(&mut self.cpu, other)
    }

    /// How often the handler has heard this function from this CPU.
    fn times(&self, src: u32, func: u16) -> usize {
        self.heard
            .calls
            .iter()
            .filter(|call| call.src == src && call.func == func)
            .count()
    }
}

/// A new table, and one of its CPUs.
fn table_of(
    alloc: Global,
    nr: u32,
    online: CpuMask,
    number: u32,
) -> Result<(CallTable<Global>, CallCpu), SmpError>
    ensures { IfOk result (λ t. t.1.table ≡ t.0.table) }
{
    let (table, mut boot) = CallTable::new(alloc, nr, online)?;
    let cpu = boot.cpu(number)?;
    Ok((table, cpu))
}

/// These CPUs, which are not given out.
fn two_of(boot: &mut Boot<Global>, first: u32, second: u32) -> Result<(CallCpu, CallCpu), SmpError>
    ensures ok { IfOk result (λ c. (c.0.table ≡ boot.old.table.table) × (c.1.table ≡ boot.old.table.table)) }
    ensures left { IfOk result (λ _. boot.new.table ≡ boot.old.table) }
{
    let first = boot.cpu(first)?;
    let second = boot.cpu(second)?;
    Ok((first, second))
}

/// A new table, and its CPUs 0 and 1.
fn table_and_two(
    alloc: Global,
    nr: u32,
    online: &str,
) -> Result<(CallTable<Global>, CallCpu, CallCpu), SmpError>
    ensures { IfOk result (λ t. (t.1.table ≡ t.0.table) × (t.2.table ≡ t.0.table)) }
{
    let (table, mut boot) = CallTable::new(alloc, nr, online.parse()?)?;
    let (zero, one) = two_of(&mut boot, 0, 1)?;
    Ok((table, zero, one))
}

/// A new table, and three of its CPUs.
fn table_and_three(
    alloc: Global,
    nr: u32,
    online: &str,
    numbers: [u32; 3],
) -> Result<(CallTable<Global>, CallCpu, CallCpu, CallCpu), SmpError>
    ensures { IfOk result (λ t. (t.1.table ≡ t.0.table) × (t.2.table ≡ t.0.table) × (t.3.table ≡ t.0.table)) }
{
    let (table, mut boot) = CallTable::new(alloc, nr, online.parse()?)?;
    let (first, second) = two_of(&mut boot, numbers[0], numbers[1])?;
    let third = boot.cpu(numbers[2])?;
    Ok((table, first, second, third))
}

/// The CPUs of a table that are not given out.
#[derive(Drop)]
struct Room<'a> {
    table: &'a CallTable<Global>,
    boot: Boot<Global>,
    alloc: Global,
    ghost own: { boot.table.table ≡ table.now.table },
}

impl<'a> Room<'a> {
    fn new(table: &'a CallTable<Global>, boot: Boot<Global>, alloc: Global) -> Room<'a>
        requires { boot.table.table ≡ table.now.table }
    {
        Room { table, boot, alloc }
    }

    /// This CPU, with its handler.
    fn drive(&mut self, number: u32) -> Result<Driver<'a>, SmpError> {
        let cpu = self.boot.cpu(number)?;
        Ok(Driver::new(self.table, cpu, self.alloc))
    }

    /// Adds this CPU, with its handler.
    fn drive_one(
        &mut self,
        drivers: &mut Vec<Driver<'a>, Global>,
        number: u32,
    ) -> Result<(), SmpError> {
        let driver = self.drive(number)?;
        if drivers.push(driver).is_err() {
            return Err(SmpError::NoMemory);
        }
        Ok(())
    }

    /// These CPUs, each with its handler.
    fn drive_all(&mut self, numbers: &[u32]) -> Result<Vec<Driver<'a>, Global>, SmpError> {
        let mut drivers = Vec::new(self.alloc);
        for number in numbers {
            self.drive_one(&mut drivers, *number)?;
        }
        Ok(drivers)
    }
}

/// Three CPUs of one table.
#[derive(Drop)]
struct Three<'a> {
    first: Driver<'a>,
    second: Driver<'a>,
    third: Driver<'a>,
}

impl<'a> Three<'a> {
    fn new(
        table: &'a CallTable<Global>,
        first: CallCpu,
        second: CallCpu,
        third: CallCpu,
        alloc: Global,
    ) -> Three<'a>
        requires { (first.table ≡ table.now.table) × (second.table ≡ table.now.table) × (third.table ≡ table.now.table) }
    {
        Three {
            first: Driver::new(table, first, alloc),
            second: Driver::new(table, second, alloc),
            third: Driver::new(table, third, alloc),
        }
    }
}

#[test]
fn the_only_cpu_calls_itself(rt: HostRuntime) -> Result<(), Fail> {
    for nr in [1, 8, 32] {
        let (table, mut zero) = table_of(rt.alloc(), nr, "0".parse()?, 0)?;
        calls_itself(&rt, rt.alloc(), &table, &mut zero);
        assert_eq!(rt; table.audit(zero), Audit::Drained(no_calls()), "{nr}");
    }
    Ok(())
}

fn calls_itself<R: Wait + Abort>(
    rt: &R,
    alloc: Global,
    table: &CallTable<Global>,
    zero: &mut CallCpu,
)
    requires { zero.old.table ≡ table.now.table }
    ensures { zero.new.table ≡ table.now.table }
{
    let mut heard = Recorder::new(alloc);
    let answer = call_single(table, rt, zero, &mut heard, 0, 5, 6, true);
    assert_eq!(rt; (answer, table.tally(zero, 0)), (Ok(()), (0, 0)));
    let call = Heard {
        src: 0,
        func: 5,
        info: 6,
    };
    assert!(rt; heard.calls.as_slice() == &[call][..]);
}

/// The tally where no CPU has queued a call.
fn no_calls() -> Tally {
    Tally {
        queued: [[0; NR_CPUS as usize]; NR_CPUS as usize],
        ran: [[0; NR_CPUS as usize]; NR_CPUS as usize],
    }
}

#[test]
fn calls_to_one_cpu_are_refused_in_order(rt: HostRuntime) -> Result<(), Fail> {
    for nr in [4, 8, 32] {
        let (table, boot) = CallTable::new(rt.alloc(), nr, "0-1,3".parse()?)?;
        calls_one_cpu(&rt, &mut Room::new(&table, boot, rt.alloc()))?;
    }
    Ok(())
}

fn calls_one_cpu<R: Wait + Abort>(rt: &R, room: &mut Room) -> Result<(), SmpError> {
    let mut zero = room.drive(0)?;
    is_refused_in_order(rt, &mut zero);
    calls_itself_at_once(rt, &mut zero);
    calls_by_users_in_order(rt, &mut zero);
    let mut one = room.drive(1)?;
    runs_the_call_of(rt, &mut one, &mut zero);
    Ok(())
}

fn is_refused_in_order<R: Wait + Abort>(rt: &R, zero: &mut Driver) {
    for dst in [7, 2, 31, 32] {
        let answer = (dst, zero.single(rt, dst, 1, true));
        assert_eq!(rt; answer, (dst, Err(SmpError::NoCpu)));
    }
    assert_eq!(rt; zero.is_done(0), Ok(true));
}

fn calls_itself_at_once<R: Wait + Abort>(rt: &R, zero: &mut Driver) {
    assert_eq!(rt; zero.single(rt, 0, 1, true), Ok(()));
    assert_eq!(rt; zero.times(0, 1), 1);
}

fn calls_by_users_in_order<R: Wait + Abort>(rt: &R, zero: &mut Driver) {
    for (u, dst, answer) in [
        (0, 7, Err(SmpError::NoCpu)),
        (0, 1, Ok(())),
        (0, 7, Err(SmpError::Busy)),
        (2, 1, Err(SmpError::BadArgument)),
    ] {
        assert_eq!(rt; (dst, zero.by_user(rt, u, dst, 1)), (dst, answer));
    }
}

/// CPU 1 runs the call, and the record is free again.
fn runs_the_call_of<R: Wait + Abort>(rt: &R, one: &mut Driver, zero: &mut Driver) {
    one.poll();
    let after = (one.times(0, 1), zero.by_user(rt, 0, 7, 1));
    assert_eq!(rt; after, (1, Err(SmpError::NoCpu)));
}

#[test]
fn any_is_the_own_cpu_else_the_lowest(rt: HostRuntime) -> Result<(), Fail> {
    for nr in [4, 8, 32] {
        let (table, zero) = table_of(rt.alloc(), nr, "0-1,3".parse()?, 0)?;
        calls_any(&rt, &mut Driver::new(&table, zero, rt.alloc()));
    }
    Ok(())
}

fn calls_any<R: Wait + Abort>(rt: &R, zero: &mut Driver) {
    for (mask, called) in [
        ("0,3", Ok(0)),
        ("2", Err(SmpError::NoCpu)),
        ("", Err(SmpError::NoCpu)),
        ("1,3", Ok(1)),
    ] {
        assert_eq!(rt; any_of(rt, zero, mask, 1), called, "{mask}");
    }
}

fn any_of<R: Wait>(rt: &R, driver: &mut Driver, mask: &str, func: u16) -> Result<u32, SmpError> {
    driver.any(rt, mask.parse()?, func, false)
}

#[test]
fn many_are_all_but_this_cpu(rt: HostRuntime) -> Result<(), Fail> {
    let all: CpuMask = "0-7".parse()?;
    let others: CpuMask = "0-1,3-7".parse()?;
    let (table, two) = table_of(rt.alloc(), 8, all, 2)?;
    let mut two = Driver::new(&table, two, rt.alloc());
    calls_seven(&rt, &mut two, all, others);
    Ok(())
}

fn calls_seven<R: Wait + Abort>(rt: &R, two: &mut Driver, all: CpuMask, others: CpuMask) {
    assert!(rt; two.many(rt, all, 1, false) == others);
    assert_eq!(rt; (two.heard.calls.len(), two.tally(7)), (0, (1, 0)));
}
