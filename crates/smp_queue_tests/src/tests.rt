ghost use Rattle.std.specs.Prelude.{◌≡◌, IfOk};

mod audits;
mod handling;
mod line;
mod locks;
mod steps;

use self::line::Act::{Done, Post, Queue, Send, Tally as Counts};
use self::line::{Case, Line, play};
use crossbeam_utils::Backoff;
use linked_list_allocator::LocalHeap;
use smp_mask::{CpuMask, SmpError};
use smp_queue::*;
use smp_words::call::Class;
use smp_words::size::NR_CPUS;
use std::alloc::Global;
use std::marker::Model;
use std::process::Abort;
use std::sync::Wait;
use std::sync::atomic::{AtomicU64, Ordering};
use std::test::*;
use std::thread;
use std::thread::Threads;

const BAD: SmpError = SmpError::BadArgument;

/// A CPU with its table.
#[derive(Drop)]
struct Driver<'a> {
    table: &'a CallTable<Global>,
    cpu: CallCpu,
}

impl<'a> Model for Driver<'a> {
    ghost use Rattle.std.specs.Prelude.{◌≡◌};
    ghost use Rattle.smp_queue.specs.Cpu.{CpuValue};

    ghost Value = { CpuValue };

    ghost view = { λ d. d.cpu };

    ghost invariant = { λ d. d.cpu.table ≡ d.table.now.table };
}

impl<'a> Driver<'a> {
    /// Posts a call of function 1 with 1, by this number of tries.
    fn try_call(&mut self, k: u32, to: u32, class: Class, tries: u32) -> Result<bool, SmpError> {
        self.table
            .post_within(&mut self.cpu, k, to, class, 1, 1, tries)
    }

    /// Posts a call of this function with 0, by one try.
    fn call(&mut self, k: u32, to: u32, class: Class, func: u16) -> Result<bool, SmpError> {
        self.table
            .post_within(&mut self.cpu, k, to, class, func, 0, 1)
    }

    fn post(&mut self, k: u32, to: u32, tries: u32) -> Result<bool, SmpError> {
        self.try_call(k, to, Class::Async, tries)
    }

    fn post_at_any_time<R: Wait>(&mut self, rt: &R, k: u32, to: u32) -> Result<bool, SmpError> {
        self.table
            .post(rt, &mut self.cpu, k, to, Class::Async, 1, 1)
    }

    fn handle<H: Handler>(&mut self, handler: &mut H) -> Handled {
        self.table.handle(&mut self.cpu, handler)
    }

    fn call_here<H: Handler>(&mut self, handler: &mut H, func: u16, info: u64) {
        self.table.call_here(&mut self.cpu, handler, func, info);
    }

    fn is_done(&mut self, k: u32) -> Result<bool, SmpError> {
        self.table.is_done(&mut self.cpu, k)
    }

    fn send(&mut self, to: u32) -> Result<(), SmpError> {
        self.table.send(&mut self.cpu, to)
    }

    fn tally(&mut self, other: u32) -> (u64, u64) {
        self.table.tally(&mut self.cpu, other)
    }
}

/// A CPU that the table gives out. The boot stays the table's.
fn seat(
    table: &CallTable<Global>,
    boot: &mut Boot<Global>,
    number: u32,
) -> Result<CallCpu, SmpError>
    requires { boot.old.table ≡ table.now }
    ensures left { boot.new.table ≡ table.now }
    ensures ok { IfOk result (λ c. c.table ≡ table.now.table) }
{
    boot.cpu(number)
}

/// Posts one call of function 7 with 9, by one try.
fn post_one(
    table: &CallTable<Global>,
    cpu: &mut CallCpu,
    k: u32,
    to: u32,
    class: Class,
) -> Result<bool, SmpError>
    requires { cpu.old.table ≡ table.now.table }
    ensures { cpu.new.table ≡ table.now.table }
{
    table.post_within(cpu, k, to, class, 7, 9, 1)
}

/// Gives up the table and this CPU.
fn audit_by(table: CallTable<Global>, last: CallCpu) -> Audit
    requires { last.table ≡ table.table }
{
    table.audit(last)
}

/// The CPUs of a table that are not given out.
#[derive(Drop)]
struct Room<'a> {
    table: &'a CallTable<Global>,
    boot: Boot<Global>,
    ghost whole: { boot.table ≡ table.now },
}

impl<'a> Room<'a> {
    fn new(table: &'a CallTable<Global>, boot: Boot<Global>) -> Room<'a>
        requires { boot.table ≡ table.now }
    {
        Room { table, boot }
    }

    /// This CPU.
    fn drive(&mut self, number: u32) -> Result<Driver<'a>, SmpError> {
        let table = self.table;
        let cpu = seat(table, &mut self.boot, number)?;
        Ok(Driver { table, cpu })
    }

    /// Adds this CPU.
    fn drive_one(
        &mut self,
        drivers: &mut Vec<Driver<'a>, Global>,
        number: u32,
    ) -> Result<(), SmpError> {
        let driver = self.drive(number)?;
        if drivers.push(driver).is_err() {
            return Err(SmpError::NoMemory);
        }
        Ok(())
    }

    /// These CPUs.
    fn drive_all(
        &mut self,
        alloc: Global,
        numbers: &[u32],
    ) -> Result<Vec<Driver<'a>, Global>, SmpError> {
        let mut drivers = Vec::new(alloc);
        for &number in numbers {
            self.drive_one(&mut drivers, number)?;
        }
        Ok(drivers)
    }
}

/// A table that is made so says that these CPUs are online.
fn online_of(alloc: Global, nr: u32, online: CpuMask) -> Result<CpuMask, SmpError> {
    let (table, _boot) = CallTable::new(alloc, nr, online)?;
    Ok(table.online())
}

#[test]
fn a_table_has_lawful_limits(rt: HostRuntime) -> Result<(), Fail> {
    for (nr, cpus, is_lawful) in [
        (0, "0", false),
        (33, "0", false),
        (2, "", false),
        (2, "2", false),
        (1, "0", true),
        (32, "0-31", true),
    ] {
        let online: CpuMask = cpus.parse()?;
        let wanted = if is_lawful { Ok(online) } else { Err(BAD) };
        assert_eq!(rt; online_of(rt.alloc(), nr, online), wanted, "{nr} {cpus}");
    }
    Ok(())
}

/// With ample memory, a table of any number of CPUs is made.
#[test]
fn a_table_of_each_size_is_made(rt: HostRuntime) -> Result<(), Fail> {
    let mut online = CpuMask::empty();
    for last in 0..NR_CPUS {
        online = online.with(last)?;
        assert_eq!(rt;
            online_of(rt.alloc(), last + 1, online),
            Ok(online),
            "{last}"
        );
    }
    Ok(())
}

#[test]
fn each_growth_may_be_refused(rt: HostRuntime) -> Result<(), Fail> {
    let online: CpuMask = "0-31".parse()?;
    // No growth is smaller than 256 bytes, so that each is the first to be refused by some heap.
    for steps in 0..100_000usize {
        let size = steps * 256;
        let heap = LocalHeap::new(rt.alloc(), size)?;
        match CallTable::new(&heap, NR_CPUS, online) {
            Ok(_) => {
                // A table has 6,752 words of 8 bytes.
                assert!(rt; size > 6_752 * 8, "{size} bytes");
                return Ok(());
            }
            Err(error) => {
                assert_eq!(rt; error, SmpError::NoMemory, "{size} bytes");
                assert_eq!(rt; heap.used(), 0, "{size} bytes");
            }
        }
    }
    assert!(rt; false, "no heap was large enough");
    Ok(())
}

#[test]
fn each_online_cpu_is_given_out_once(rt: HostRuntime) -> Result<(), Fail> {
    let (_table, mut boot) = CallTable::new(rt.alloc(), 4, "0-1,3".parse()?)?;
    give_out(&rt, &mut boot);
    Ok(())
}

fn give_out(rt: &impl Abort, boot: &mut Boot<Global>) {
    for (number, once, again) in [
        (0, Ok(0), SmpError::Busy),
        (1, Ok(1), SmpError::Busy),
        (3, Ok(3), SmpError::Busy),
        (2, Err(SmpError::NoCpu), SmpError::NoCpu),
        (4, Err(SmpError::NoCpu), SmpError::NoCpu),
        (31, Err(SmpError::NoCpu), SmpError::NoCpu),
        (32, Err(SmpError::NoCpu), SmpError::NoCpu),
    ] {
        assert_eq!(rt; boot.cpu(number).map(|cpu| cpu.number()), once, "{number}");
        assert_eq!(rt; boot.cpu(number).err(), Some(again), "{number}");
    }
}

#[test]
fn misuse_is_refused(rt: HostRuntime) -> Result<(), Fail> {
    let lines = [
        (0, Done(0, Ok(true))),
        (0, Done(12, Err(BAD))),
        (0, Post(12, 1, Class::Async, 1, Err(BAD))),
        (0, Post(10, 1, Class::Async, 0, Err(BAD))),
        (0, Post(10, 0, Class::Async, 1, Err(BAD))),
        (0, Post(0, 1, Class::Async, 1, Err(BAD))),
    ];
    let case = Case {
        nr: 2,
        online: "0-1",
        cpus: &[0],
    };
    let fault = play(&rt, rt.alloc(), case, &[&lines], &[])?;
    assert_eq!(rt; fault, None);
    Ok(())
}

/// CPU 0 calls this CPU by this record, or is refused; to CPU 1 that carries no call.
fn calls_by_record(k: u32, to: u32, is_there: bool) -> [Line; 4] {
    let (before, owed, after) = if is_there {
        (Ok(true), Ok(true), Ok(false))
    } else {
        (Err(BAD), Err(BAD), Err(BAD))
    };
    [
        (0, Done(k, before)),
        (0, Post(k, to, Class::Async, 1, owed)),
        (0, Done(k, after)),
        (0, Post(k, 1, Class::Async, 1, Err(BAD))),
    ]
}

#[test]
fn each_cpu_that_there_is_has_a_record_of_its_own(rt: HostRuntime) -> Result<(), Fail> {
    // By its number of CPUs, whether a table has these records, and they carry calls to these CPUs.
    for (nr, online, k, to, is_there) in [
        (32, "0-31", 12, 8, true),
        (32, "0-31", 35, 31, true),
        (32, "0-31", 36, 31, false),
        (10, "0-9", 13, 9, true),
        (10, "0-9", 14, 9, false),
        (8, "0-7", 9, 7, true),
        (8, "0-7", 12, 7, false),
    ] {
        let lines = calls_by_record(k, to, is_there);
        let case = Case {
            nr,
            online,
            cpus: &[0],
        };
        let fault = play(&rt, rt.alloc(), case, &[&lines], &[])?;
        assert_eq!(rt; fault, None, "{k} {to}");
    }
    Ok(())
}

#[test]
fn a_post_appends_one_call(rt: HostRuntime) -> Result<(), Fail> {
    // The record is locked while its call is queued, which comes before that CPU 3 is not online.
    let lines = [
        (0, Post(10, 2, Class::Async, 1, Ok(true))),
        (1, Post(10, 2, Class::Async, 1, Ok(false))),
        (0, Done(10, Ok(false))),
        (0, Done(11, Ok(true))),
        (0, Post(10, 2, Class::Async, 1, Err(SmpError::Busy))),
        (0, Post(10, 3, Class::Async, 1, Err(SmpError::Busy))),
        (0, Queue(11, 1, Ok(true))),
        (0, Counts(2, (1, 0))),
        (0, Counts(1, (1, 0))),
        (0, Counts(3, (0, 0))),
        (1, Counts(2, (1, 0))),
        (1, Counts(0, (0, 0))),
    ];
    let case = Case {
        nr: 4,
        online: "0-2",
        cpus: &[0, 1],
    };
    let fault = play(&rt, rt.alloc(), case, &[&lines], &[])?;
    assert_eq!(rt; fault, None);
    Ok(())
}

/// A CPU that is offline is called.
fn calls_in_vain(to: u32) -> [Line; 4] {
    [
        (0, Send(to, Err(SmpError::NoCpu))),
        (0, Post(10, to, Class::Async, 1, Err(SmpError::NoCpu))),
        (0, Done(10, Ok(true))),
        (0, Counts(to, (0, 0))),
    ]
}

#[test]
fn an_offline_cpu_gets_no_call(rt: HostRuntime) -> Result<(), Fail> {
    let parts: [&[Line]; 3] = [
        &calls_in_vain(2),
        &calls_in_vain(7),
        &[(0, Send(3, Ok(()))), (0, Send(0, Ok(())))],
    ];
    let case = Case {
        nr: 4,
        online: "0-1,3",
        cpus: &[0],
    };
    let fault = play(&rt, rt.alloc(), case, &parts, &[])?;
    assert_eq!(rt; fault, None);
    Ok(())
}

/// Waits until another thread is here too, so that both go on at once; or for many turns, on a busy machine.
fn meet(here: &AtomicU64) {
    here.fetch_add(1, Ordering::SeqCst);
    for _ in 0..1_000_000u32 {
        if here.load(Ordering::SeqCst) >= 2 {
            return;
        }
    }
}

/// How often each answer was seen.
#[derive(Drop)]
struct Answers {
    here: AtomicU64,
    owed: AtomicU64,
    queued: AtomicU64,
    busy: AtomicU64,
    other: AtomicU64,
}

impl Answers {
    fn none() -> Answers {
        Answers {
            here: AtomicU64::new(0),
            owed: AtomicU64::new(0),
            queued: AtomicU64::new(0),
            busy: AtomicU64::new(0),
            other: AtomicU64::new(0),
        }
    }

    fn count(&self, answer: Result<bool, SmpError>) {
        let seen = match answer {
            Ok(true) => &self.owed,
            Ok(false) => &self.queued,
            Err(SmpError::Busy) => &self.busy,
            Err(_) => &self.other,
        };
        seen.fetch_add(1, Ordering::SeqCst);
    }

    /// How many calls were owed an interrupt, queued without, and refused as busy; and what else happened.
    fn counts(&self) -> (u64, u64, u64, u64) {
        (
            self.owed.load(Ordering::SeqCst),
            self.queued.load(Ordering::SeqCst),
            self.busy.load(Ordering::SeqCst),
            self.other.load(Ordering::SeqCst),
        )
    }
}

/// Posts one call to CPU 2 at the same time as another CPU, and then again while its record is busy.
fn race(mut cpu: Driver, answers: &Answers, repeats: u32) {
    meet(&answers.here);
    // The other CPU changes the head once, so at most one try is lost.
    answers.count(cpu.post(10, 2, 2));
    for _ in 0..repeats {
        answers.count(cpu.post(10, 2, 1));
    }
    if cpu.tally(2) != (1, 0) {
        answers.other.fetch_add(1, Ordering::SeqCst);
    }
}

/// Runs each of the CPUs on a thread of its own, to the end.
fn race_in_threads<R: Wait + Threads>(
    rt: &R,
    drivers: Vec<Driver, Global>,
    answers: &Answers,
    repeats: u32,
) {
    let mut started = true;
    thread::scope(thread::scope_env(), rt, |scope| {
        for driver in drivers {
            let spawned = scope.spawn(move || race(driver, answers, repeats));
            started = started && spawned.is_ok();
        }
    });
    if !started {
        answers.other.fetch_add(1, Ordering::SeqCst);
    }
}

/// Lets two CPUs of a new table race for the queue of a third.
fn race_once<R: Wait + Threads>(
    rt: &R,
    alloc: Global,
    repeats: u32,
) -> Result<(u64, u64, u64, u64), SmpError> {
    let (table, boot) = CallTable::new(alloc, 3, "0-2".parse()?)?;
    let drivers = Room::new(&table, boot).drive_all(alloc, &[0, 1])?;
    let answers = Answers::none();
    race_in_threads(rt, drivers, &answers, repeats);
    Ok(answers.counts())
}

#[test]
fn one_of_two_racing_cpus_owes_the_interrupt(rt: HostRuntime) -> Result<(), Fail> {
    for round in 0..200u32 {
        assert_eq!(rt;
            race_once(&rt, rt.alloc(), 0)?,
            (1, 1, 0, 0),
            "round {round}"
        );
    }
    Ok(())
}

#[test]
fn a_record_in_a_queue_stays_busy(rt: HostRuntime) -> Result<(), Fail> {
    assert_eq!(rt; race_once(&rt, rt.alloc(), 10_000)?, (1, 1, 20_000, 0));
    Ok(())
}
