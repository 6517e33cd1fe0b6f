ghost use Rattle.std.specs.Prelude.{◌≡◌};

mod labels;
mod line;
mod meetings;
mod nudges;
mod patches;
mod rounds;
mod steps;
mod threads;
mod witness;

use self::line::Act::{Answer, Begin, Called, Enter, Gate, InStop, Open, Poll, Run};
use self::line::{Case, Line, play, play_stops};
use linked_list_allocator::LocalHeap;
use smp_labels::{Entry, LabelMap, SiteKind};
use smp_mask::{CpuMask, SmpError};
use smp_multi::*;
use smp_words::size::NR_CPUS;
use smp_words::work::{Kind, Work};
use std::alloc::Global;
use std::marker::Model;
use std::process::Abort;
use std::test::*;

/// No wait of a test takes more turns than this, so that a fault fails and does not hang.
const TURNS: u32 = 100_000_000;

/// A CPU with its table.
#[derive(Drop)]
struct Driver<'a> {
    table: &'a StopTable<Global>,
    cpu: StopCpu,
}

impl<'a> Model for Driver<'a> {
    ghost use Rattle.smp_multi.specs.Cpu.{CpuValue, IsAt};

    ghost Value = { CpuValue };

    ghost view = { λ d. d.cpu };

    ghost invariant = { λ d. IsAt d.table.now d.cpu };
}

impl<'a> Driver<'a> {
    fn try_gate(&mut self) -> bool {
        self.table.try_gate(&mut self.cpu)
    }

    fn open_gate(&mut self) -> Result<(), SmpError> {
        self.table.open_gate(&mut self.cpu)
    }

    fn begin(&mut self, work: Work) -> Result<(), SmpError> {
        self.table.begin(&mut self.cpu, work)
    }

    fn enter(&mut self, slot: u32) -> Result<Kind, SmpError> {
        self.table.enter(&mut self.cpu, slot)
    }

    fn run_one<F: StopFunc>(&mut self, func: &mut F) -> Result<i32, SmpError> {
        self.table.run_one(&mut self.cpu, func)
    }

    fn advance<F: StopFunc>(&mut self, func: &mut F) -> Result<Turn, SmpError> {
        self.table.advance(&mut self.cpu, func)
    }

    fn finish(&mut self) -> Result<(), SmpError> {
        self.table.finish(&mut self.cpu)
    }

    fn poll_done(&mut self) -> Result<Option<i32>, SmpError> {
        self.table.poll_done(&mut self.cpu)
    }

    fn read_key(&mut self, k: u32) -> Result<bool, SmpError> {
        self.table.read_key(&mut self.cpu, k)
    }

    fn read_site(&mut self, i: u32) -> Result<SiteKind, SmpError> {
        self.table.read_site(&mut self.cpu, i)
    }

    fn try_key(&mut self, k: u32, up: bool) -> Result<Nudge, SmpError> {
        self.table.try_key(&mut self.cpu, k, up)
    }

    /// The count of key 0: how often it can be lowered while it stays on, and 1 more where it is on. It is raised again
    /// as often. Nobody else moves it meanwhile.
    fn count_of_key(&mut self) -> Result<u64, SmpError> {
        let mut lowered = 0u64;
        for _ in 0..MOST_COUNT {
            if self.try_key(0, false) != Ok(Nudge::Done) {
                break;
            }
            lowered = lowered.saturating_add(1);
        }
        for _ in 0..lowered {
            self.try_key(0, true)?;
        }
        let is_on = self.read_key(0)?;
        Ok(lowered.saturating_add(u64::from(is_on)))
    }
}

/// No case raises a key so high.
const MOST_COUNT: u64 = 100;

/// A CPU that the table gives out, with its table.
fn drive<'a>(
    table: &'a StopTable<Global>,
    boot: &mut StopBoot<Global>,
    number: u32,
) -> Result<Driver<'a>, SmpError>
    requires { (boot.old.table ≡ table.now.table) × (boot.old.setting ≡ table.now.setting) }
    ensures { (boot.new.table ≡ table.now.table) × (boot.new.setting ≡ table.now.setting) }
{
    let cpu = boot.cpu(number)?;
    Ok(Driver { table, cpu })
}

/// The CPUs of a table that are not given out.
#[derive(Drop)]
struct Room<'a> {
    table: &'a StopTable<Global>,
    boot: StopBoot<Global>,
    ghost whole: { (boot.table ≡ table.now.table) × (boot.setting ≡ table.now.setting) },
}

impl<'a> Room<'a> {
    fn new(table: &'a StopTable<Global>, boot: StopBoot<Global>) -> Room<'a>
        requires { (boot.table ≡ table.now.table) × (boot.setting ≡ table.now.setting) }
    {
        Room { table, boot }
    }

    /// This CPU.
    fn drive(&mut self, number: u32) -> Result<Driver<'a>, SmpError> {
        drive(self.table, &mut self.boot, number)
    }

    /// Adds this CPU.
    fn drive_one(
        &mut self,
        drivers: &mut Vec<Driver<'a>, Global>,
        number: u32,
    ) -> Result<(), SmpError> {
        let driver = self.drive(number)?;
        if drivers.push(driver).is_err() {
            return Err(SmpError::NoMemory);
        }
        Ok(())
    }

    /// So many CPUs, from 0 on.
    fn drive_all(
        &mut self,
        alloc: Global,
        count: u32,
    ) -> Result<Vec<Driver<'a>, Global>, SmpError> {
        let mut drivers = Vec::new(alloc);
        for number in 0..count {
            self.drive_one(&mut drivers, number)?;
        }
        Ok(drivers)
    }
}

/// Answers always the same. How often it was called, and by what the last time.
#[derive(Drop)]
struct Answerer {
    answer: i32,
    calls: u32,
    last: (u32, u16, u64),
}

impl Answerer {
    fn new(answer: i32) -> Answerer {
        Answerer {
            answer,
            calls: 0,
            last: (0, 0, 0),
        }
    }
}

impl StopFunc for Answerer {
    ghost leads = { λ _ _ _. Unit {0} };

    fn run(&mut self, cpu: u32, func: u16, arg: u64) -> i32 {
        self.calls = self.calls.saturating_add(1);
        self.last = (cpu, func, arg);
        self.answer
    }
}

/// A stop of one CPU.
fn one(cpu: u32, func: u16, arg: u64) -> Result<Work, SmpError> {
    let mask = CpuMask::of(cpu)?;
    Ok(Work {
        kind: Kind::One,
        mask,
        active: mask,
        func,
        arg,
    })
}

/// A stop of these CPUs, of which some are active.
fn work_of(kind: Kind, mask: &str, active: &str, func: u16, arg: u64) -> Result<Work, SmpError> {
    Ok(Work {
        kind,
        mask: mask.parse()?,
        active: active.parse()?,
        func,
        arg,
    })
}

/// A Multi stop of function 1.
fn multi(mask: &str, active: &str) -> Result<Work, SmpError> {
    work_of(Kind::Multi, mask, active, 1, 0)
}

/// A table that is made so says that these CPUs are online.
fn online_of(
    alloc: Global,
    nr: u32,
    online: CpuMask,
    labels: &LabelMap,
) -> Result<CpuMask, SmpError> {
    let (table, _boot) = StopTable::new(alloc, nr, online, labels)?;
    Ok(table.online())
}

/// Whether a table of these limits has these CPUs online, or is refused where they are not lawful.
fn is_made(
    alloc: Global,
    nr: u32,
    cpus: &str,
    labels: &LabelMap,
    is_lawful: bool,
) -> Result<bool, SmpError> {
    let online: CpuMask = cpus.parse()?;
    let wanted = if is_lawful {
        Ok(online)
    } else {
        Err(SmpError::BadArgument)
    };
    Ok(online_of(alloc, nr, online, labels) == wanted)
}

#[test]
fn a_table_has_lawful_limits(rt: HostRuntime) -> Result<(), Fail> {
    let off = Entry {
        key: 0,
        branch: false,
    };
    let on = Entry {
        key: 0,
        branch: true,
    };
    let labels = LabelMap::new(&[off, on], 1)?;
    for (nr, cpus, is_lawful) in [
        (0, "0", false),
        (33, "0", false),
        (2, "", false),
        (2, "2", false),
        (1, "0", true),
        (2, "0-1", true),
        (32, "0-31", true),
    ] {
        let is_right = is_made(rt.alloc(), nr, cpus, &labels, is_lawful)?;
        assert!(rt; is_right, "{nr} {cpus}");
    }
    Ok(())
}

/// With ample memory, a table of any number of CPUs is made.
#[test]
fn a_table_of_each_size_is_made(rt: HostRuntime) -> Result<(), Fail> {
    let none = LabelMap::empty();
    let mut online = CpuMask::empty();
    for last in 0..NR_CPUS {
        online = online.with(last)?;
        let made = online_of(rt.alloc(), last + 1, online, &none);
        assert_eq!(rt; made, Ok(online), "{last}");
    }
    Ok(())
}

/// A table that is made in this heap, and let go.
fn table_in(heap: &LocalHeap, online: CpuMask) -> Result<(), SmpError> {
    let (_table, _boot) = StopTable::new(heap, NR_CPUS, online, &LabelMap::empty())?;
    Ok(())
}

#[test]
fn each_growth_may_be_refused(rt: HostRuntime) -> Result<(), Fail> {
    let online: CpuMask = "0-31".parse()?;
    // No growth is smaller than 16 bytes, so that each is the first to be refused by some heap.
    for steps in 0..100_000usize {
        let size = steps * 16;
        let heap = LocalHeap::new(rt.alloc(), size)?;
        match table_in(&heap, online) {
            Ok(()) => {
                // A table has 2,092 words of 8 bytes.
                assert!(rt; size > 2_092 * 8, "{size} bytes");
                return Ok(());
            }
            Err(error) => assert_eq!(rt; error, SmpError::NoMemory, "{size} bytes"),
        }
        assert_eq!(rt; heap.used(), 0, "{size} bytes");
    }
    assert!(rt; false, "no heap was large enough");
    Ok(())
}

#[test]
fn each_online_cpu_is_given_out_once(rt: HostRuntime) -> Result<(), Fail> {
    let none = LabelMap::empty();
    let (_table, mut boot) = StopTable::new(rt.alloc(), 4, "0-1,3".parse()?, &none)?;
    give_out(&rt, &mut boot);
    Ok(())
}

/// What there is of a CPU that is given out: its number, whether its interrupts are on, and whether it is in a stop.
fn given_out(boot: &mut StopBoot<Global>, number: u32) -> Result<(u32, bool, bool), SmpError> {
    let cpu = boot.cpu(number)?;
    Ok((cpu.number(), cpu.interrupts_on(), cpu.in_stop()))
}

fn give_out(rt: &impl Abort, boot: &mut StopBoot<Global>) {
    let gone = Err(SmpError::NoCpu);
    let again = Err(SmpError::Busy);
    for (number, first, second) in [
        (0, Ok((0, true, false)), again),
        (1, Ok((1, true, false)), again),
        (3, Ok((3, true, false)), again),
        (2, gone, gone),
        (4, gone, gone),
        (31, gone, gone),
        (32, gone, gone),
    ] {
        assert_eq!(rt; given_out(boot, number), first, "{number}");
        assert_eq!(rt; given_out(boot, number), second, "{number}");
    }
}

const BAD: SmpError = SmpError::BadArgument;

#[test]
fn the_gate_has_one_holder(rt: HostRuntime) -> Result<(), Fail> {
    let lines = [
        (0, Open(Err(BAD))),
        (0, Begin(one(1, 3, 4)?, Err(BAD))),
        (0, Gate(true)),
        (0, Gate(false)),
        (1, Gate(false)),
        (1, Open(Err(BAD))),
        (0, Open(Ok(()))),
        (1, Gate(true)),
    ];
    assert_eq!(rt; play_stops(rt.alloc(), 2, &[&lines])?, None);
    Ok(())
}

#[test]
fn a_stop_is_entered_by_its_cpus_once(rt: HostRuntime) -> Result<(), Fail> {
    let work = multi("0", "0")?;
    let lines = [
        (0, Gate(true)),
        (0, Begin(work, Ok(()))),
        (1, Enter(0, Err(SmpError::Stale))),
        (1, Enter(1, Err(SmpError::Stale))),
        (1, Enter(8, Err(SmpError::Stale))),
        (1, Enter(32, Err(SmpError::Stale))),
        (0, Begin(work, Err(SmpError::SlotBusy))),
        (0, Enter(0, Ok(Kind::Multi))),
        (0, InStop(true)),
        (0, Enter(0, Err(SmpError::Stale))),
        (0, Run(Err(BAD))),
    ];
    assert_eq!(rt; play_stops(rt.alloc(), 2, &[&lines])?, None);
    Ok(())
}

// E4 before E3: an empty mask, several CPUs in a stop of one, and patches that do not fit.
#[test]
fn a_work_that_no_stop_may_have_is_refused(rt: HostRuntime) -> Result<(), Fail> {
    let off = Entry {
        key: 0,
        branch: false,
    };
    let labels = LabelMap::new(&[off], 1)?;
    for (kind, mask, active, func, arg, refusal) in [
        (Kind::Multi, "", "", 0, 0, BAD),
        (Kind::One, "0,2", "0,2", 0, 0, BAD),
        (Kind::One, "0-1", "0-1", 0, 0, BAD),
        (Kind::One, "1", "1", 0, 0, SmpError::NoStopper),
        (Kind::Multi, "0-2", "0", 0, 0, SmpError::NoStopper),
        (Kind::Patch, "0", "0", 0, 1, BAD),
        (Kind::Patch, "0,2", "2", 0, 1, BAD),
        (Kind::Patch, "0,2", "0", 1, 1, BAD),
        (Kind::Patch, "0,2", "0", 0, 4, BAD),
    ] {
        let work = work_of(kind, mask, active, func, arg)?;
        let lines = [(0, Gate(true)), (0, Begin(work, Err(refusal)))];
        let case = Case {
            nr: 4,
            online: "0,2",
            labels: &labels,
            cpus: 1,
        };
        let fault = play(rt.alloc(), case, &[&lines])?;
        assert_eq!(rt; fault, None, "{mask} {active} {func} {arg}");
    }
    Ok(())
}

#[test]
fn a_stop_of_one_cpu_runs_its_function_there(rt: HostRuntime) -> Result<(), Fail> {
    let work = one(1, 3, 4)?;
    let lines = [
        (0, Gate(true)),
        (0, Begin(work, Ok(()))),
        (0, Poll(Ok(None))),
        (1, Run(Err(BAD))),
        (1, Enter(0, Ok(Kind::One))),
        (1, Run(Ok(9))),
        (1, Called(1, (1, 3, 4))),
        (1, Run(Err(BAD))),
        (0, Poll(Ok(Some(9)))),
        (0, Poll(Err(BAD))),
        (0, Begin(work, Ok(()))),
    ];
    assert_eq!(rt; play_stops(rt.alloc(), 2, &[&lines])?, None);
    Ok(())
}

/// CPU 0 stops itself, with this answer.
fn stop_itself(work: Work, answer: i32) -> [Line; 6] {
    [
        (0, Answer(answer)),
        (0, Begin(work, Ok(()))),
        (0, Enter(0, Ok(Kind::One))),
        (0, Run(Ok(answer))),
        (0, Poll(Ok(Some(answer)))),
        (0, Called(1, (0, 65_535, u64::MAX))),
    ]
}

#[test]
fn a_cpu_stops_itself(rt: HostRuntime) -> Result<(), Fail> {
    let work = one(0, 65_535, u64::MAX)?;
    let parts: [&[Line]; 5] = [
        &[(0, Gate(true))],
        &stop_itself(work, 0),
        &stop_itself(work, -1),
        &stop_itself(work, i32::MIN),
        &stop_itself(work, i32::MAX),
    ];
    assert_eq!(rt; play_stops(rt.alloc(), 1, &parts)?, None);
    Ok(())
}
