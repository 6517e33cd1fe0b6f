//! What runs, in which order, and what others see meanwhile.

ghost use Rattle.std.specs.Prelude.{◌≡◌};
ghost use Rattle.smp_queue.specs.declared.handler.Heard.{Heard};

use super::line::Act::{Call, Handle};
use super::*;

/// Writes down the calls that it hears.
#[derive(Drop)]
pub struct Recorder {
    heard: Vec<Heard, Global>,
    /// Whether it has missed none.
    whole: bool,
}

impl Recorder {
    pub fn new(alloc: Global) -> Recorder {
        Recorder {
            heard: Vec::new(alloc),
            whole: true,
        }
    }

    pub fn has_heard(&self, calls: &[(u32, u16, u64)]) -> bool {
        let mut same = self.whole && self.heard.len() == calls.len();
        for (heard, call) in self.heard.iter().zip(calls) {
            same = same && (heard.src, heard.func, heard.info) == *call;
        }
        same
    }
}

impl Handler for Recorder {
    ghost leads = { λ _ _ _. Unit {0} };

    fn call(&mut self, src: u32, func: u16, info: u64) {
        let pushed = self.heard.push(Heard { src, func, info });
        self.whole = self.whole && pushed.is_ok();
    }
}

pub fn handled(ran: u32) -> Handled {
    Handled {
        ran,
        interrupted: true,
    }
}

const IDLE: Handled = Handled {
    ran: 0,
    interrupted: false,
};

#[test]
fn calls_of_two_cpus_run_in_their_order(rt: HostRuntime) -> Result<(), Fail> {
    // Without an interrupt nothing runs, and CPU 0 owes it. Any other CPU may send what is owed: then that of CPU 0 comes
    // late, and finds nothing to run.
    let lines = [
        (0, Call(1, 2, Class::Async, 1, Ok(true))),
        (1, Call(1, 2, Class::Async, 2, Ok(false))),
        (2, Handle(IDLE)),
        (0, Send(2, Ok(()))),
        (2, Handle(handled(2))),
        (2, Counts(0, (0, 1))),
        (2, Counts(1, (0, 1))),
        (0, Call(10, 2, Class::Async, 3, Ok(true))),
        (1, Send(2, Ok(()))),
        (2, Handle(handled(1))),
        (0, Send(2, Ok(()))),
        (2, Handle(handled(0))),
        (2, Handle(IDLE)),
    ];
    let calls = [(0, 1, 0), (1, 2, 0), (0, 3, 0)];
    let case = Case {
        nr: 3,
        online: "0-2",
        cpus: &[0, 1, 2],
    };
    let fault = play(&rt, rt.alloc(), case, &[&lines], &calls)?;
    assert_eq!(rt; fault, None);
    Ok(())
}

#[test]
fn sync_calls_run_first(rt: HostRuntime) -> Result<(), Fail> {
    let lines = [
        (0, Call(1, 1, Class::Async, 1, Ok(true))),
        (0, Call(0, 1, Class::Sync, 2, Ok(false))),
        (0, Call(10, 1, Class::Async, 3, Ok(false))),
        (0, Call(3, 1, Class::Sync, 4, Ok(false))),
        (0, Send(1, Ok(()))),
        (1, Handle(handled(4))),
    ];
    let calls = [(0, 2, 0), (0, 4, 0), (0, 1, 0), (0, 3, 0)];
    let case = Case {
        nr: 2,
        online: "0-1",
        cpus: &[0, 1],
    };
    let fault = play(&rt, rt.alloc(), case, &[&lines], &calls)?;
    assert_eq!(rt; fault, None);
    Ok(())
}

/// A call by each of the records by which a CPU may call CPU 31, of which the first owes an interrupt or does not.
fn five(cpu: usize, class: Class, owed: bool) -> [Line; 5] {
    [
        (cpu, Call(1, 31, Class::Async, 1, Ok(owed))),
        (cpu, Call(0, 31, Class::Sync, 2, Ok(false))),
        (cpu, Call(35, 31, class, 3, Ok(false))),
        (cpu, Call(10, 31, Class::Async, 4, Ok(false))),
        (cpu, Call(11, 31, Class::Async, 5, Ok(false))),
    ]
}

/// The calls of two batches of ten, five of each of two CPUs, of which two of the first and one of the second are SYNC:
/// SYNC calls first, then ASYNC calls, both oldest first. The second batch has the same records once more, in another
/// order and of other classes.
const TWICE_TEN: [(u32, u16, u64); 20] = [
    (0, 2, 0),
    (0, 3, 0),
    (8, 2, 0),
    (0, 1, 0),
    (0, 4, 0),
    (0, 5, 0),
    (8, 1, 0),
    (8, 3, 0),
    (8, 4, 0),
    (8, 5, 0),
    (8, 2, 0),
    (8, 3, 0),
    (0, 2, 0),
    (8, 1, 0),
    (8, 4, 0),
    (8, 5, 0),
    (0, 1, 0),
    (0, 3, 0),
    (0, 4, 0),
    (0, 5, 0),
];

#[test]
fn a_long_batch_runs_in_its_order(rt: HostRuntime) -> Result<(), Fail> {
    let parts: [&[Line]; 7] = [
        &five(0, Class::Sync, true),
        &five(1, Class::Async, false),
        &[(0, Send(31, Ok(()))), (2, Handle(handled(10)))],
        &five(1, Class::Sync, true),
        &five(0, Class::Async, false),
        &[(1, Send(31, Ok(()))), (2, Handle(handled(10)))],
        &[(2, Counts(0, (0, 10))), (2, Counts(8, (0, 10)))],
    ];
    let case = Case {
        nr: 32,
        online: "0-31",
        cpus: &[0, 8, 31],
    };
    let fault = play(&rt, rt.alloc(), case, &parts, &TWICE_TEN)?;
    assert_eq!(rt; fault, None);
    Ok(())
}

#[test]
fn a_record_is_busy_until_its_call_has_run(rt: HostRuntime) -> Result<(), Fail> {
    let lines = [
        (0, Call(10, 1, Class::Async, 1, Ok(true))),
        (0, Call(10, 1, Class::Async, 1, Err(SmpError::Busy))),
        (0, Send(1, Ok(()))),
        (1, Handle(handled(1))),
        (0, Done(10, Ok(true))),
        (0, Call(10, 1, Class::Async, 1, Ok(true))),
        (0, Counts(1, (2, 0))),
        (1, Counts(0, (0, 1))),
    ];
    let case = Case {
        nr: 2,
        online: "0-1",
        cpus: &[0, 1],
    };
    let fault = play(&rt, rt.alloc(), case, &[&lines], &[(0, 1, 0)])?;
    assert_eq!(rt; fault, None);
    Ok(())
}

#[test]
fn a_direct_call_is_heard_and_touches_no_queue(rt: HostRuntime) -> Result<(), Fail> {
    let (table, mut boot) = CallTable::new(rt.alloc(), 2, "0-1".parse()?)?;
    let cpu = seat(&table, &mut boot, 1)?;
    let mut one = Driver { table: &table, cpu };
    let mut heard = Recorder::new(rt.alloc());
    one.call_here(&mut heard, 5, 6);
    one.call_here(&mut heard, 7, 8);
    assert!(rt; heard.has_heard(&[(1, 5, 6), (1, 7, 8)]));
    assert!(rt; one.handle(&mut heard) == IDLE);
    assert_eq!(rt; (one.tally(0), one.tally(1)), ((0, 0), (0, 0)));
    assert_eq!(rt; one.is_done(0), Ok(true));
    Ok(())
}

#[test]
fn a_table_is_drained_once_its_call_has_run(rt: HostRuntime) -> Result<(), Fail> {
    let (table, mut boot) = CallTable::new(rt.alloc(), 2, "0-1".parse()?)?;
    let mut zero = seat(&table, &mut boot, 0)?;
    let mut one = seat(&table, &mut boot, 1)?;
    let mut heard = Recorder::new(rt.alloc());
    let called = (
        post_one(&table, &mut zero, 1, 1, Class::Async),
        send_from(&table, &mut zero, 1),
    );
    assert_eq!(rt; called, (Ok(true), Ok(())));
    assert_eq!(rt; handle_on(&table, &mut one, &mut heard), handled(1));
    assert_eq!(rt; handle_on(&table, &mut one, &mut heard), IDLE);
    assert!(rt; heard.has_heard(&[(0, 7, 9)]));
    assert_eq!(rt; audit_by(table, one), Audit::Drained(one_call_tally()));
    Ok(())
}

/// Sends an interrupt.
fn send_from(table: &CallTable<Global>, cpu: &mut CallCpu, to: u32) -> Result<(), SmpError>
    requires { cpu.old.table ≡ table.now.table }
    ensures { cpu.new.table ≡ table.now.table }
{
    table.send(cpu, to)
}

/// Handles what there is.
fn handle_on(table: &CallTable<Global>, cpu: &mut CallCpu, heard: &mut Recorder) -> Handled
    requires { cpu.old.table ≡ table.now.table }
    ensures { cpu.new.table ≡ table.now.table }
{
    table.handle(cpu, heard)
}

/// The tally where CPU 0 has queued one call for CPU 1, and it has run.
fn one_call_tally() -> Tally {
    let mut tally = Tally {
        queued: [[0; NR_CPUS as usize]; NR_CPUS as usize],
        ran: [[0; NR_CPUS as usize]; NR_CPUS as usize],
    };
    tally.queued[0][1] = 1;
    tally.ran[1][0] = 1;
    tally
}

/// Counts the calls that it hears.
#[derive(Drop)]
struct Counter {
    calls: u64,
}

impl Handler for Counter {
    ghost leads = { λ _ _ _. Unit {0} };

    fn call(&mut self, _src: u32, _func: u16, _info: u64) {
        self.calls = self.calls.wrapping_add(1);
    }
}

/// No wait takes more turns than this.
const TURNS: u32 = 100_000_000;

/// Posts one call, and handles its own interrupts until the record and the queue allow it; true where it did.
fn post_at_last(cpu: &mut Driver, k: u32, to: u32, counter: &mut Counter) -> bool {
    let backoff = Backoff::new();
    for _ in 0..TURNS {
        match cpu.post(k, to, 1) {
            Ok(owed) => return !owed || cpu.send(to).is_ok(),
            Err(SmpError::Busy) | Err(SmpError::Contended) => {}
            Err(_) => return false,
        }
        cpu.handle(counter);
        backoff.snooze();
    }
    false
}

/// Handles its own interrupts until it has heard this number of calls. True where it has.
fn handle_until(cpu: &mut Driver, counter: &mut Counter, calls: u64) -> bool {
    let backoff = Backoff::new();
    for _ in 0..TURNS {
        if counter.calls >= calls {
            return counter.calls == calls;
        }
        cpu.handle(counter);
        backoff.snooze();
    }
    false
}

/// The record for calls to many by which a CPU calls this one.
fn record_for(to: u32) -> u32 {
    match to {
        0..8 => to + 2,
        8..32 => to + 4,
        _ => 0,
    }
}

/// Posts one call to each other CPU of these: how many that were, where none was refused.
fn post_round(cpu: &mut Driver, counter: &mut Counter, cpus: &[u32]) -> Option<u64> {
    let number = cpu.cpu.number();
    let mut posted = 0u64;
    for &to in cpus {
        if to != number {
            if !post_at_last(cpu, record_for(to), to, counter) {
                return None;
            }
            posted = posted.wrapping_add(1);
        }
    }
    Some(posted)
}

/// Posts this number of calls to each other CPU of these while it handles those that they post to it.
fn post_to_all(mut cpu: Driver, cpus: &[u32], calls: u32, right: &AtomicU64) {
    let mut counter = Counter { calls: 0 };
    let mut due = 0u64;
    for _ in 0..calls {
        match post_round(&mut cpu, &mut counter, cpus) {
            Some(posted) => due = due.wrapping_add(posted),
            None => return,
        }
    }
    if handle_until(&mut cpu, &mut counter, due) {
        right.fetch_add(1, Ordering::SeqCst);
    }
}

/// Runs each of the CPUs on a thread of its own, to the end.
fn post_in_threads<R: Wait + Threads>(
    rt: &R,
    drivers: Vec<Driver, Global>,
    cpus: &[u32],
    right: &AtomicU64,
) {
    thread::scope(thread::scope_env(), rt, |scope| {
        for driver in drivers {
            let _ = scope.spawn(move || post_to_all(driver, cpus, 100, right));
        }
    });
}

/// The tally where each CPU of these has queued this number of calls for each other of them, and all have run.
fn all_pairs(cpus: &[u32], calls: u64) -> Tally {
    let mut tally = Tally {
        queued: [[0; NR_CPUS as usize]; NR_CPUS as usize],
        ran: [[0; NR_CPUS as usize]; NR_CPUS as usize],
    };
    for one in 0..NR_CPUS {
        for other in 0..NR_CPUS {
            if one != other && cpus.contains(&one) && cpus.contains(&other) {
                tally.queued[one as usize][other as usize] = calls;
                tally.ran[one as usize][other as usize] = calls;
            }
        }
    }
    tally
}

/// Lets these four CPUs of a new table post to each other: how many of them saw what they should, and the audit
/// with a fifth CPU, 4.
fn all_to_all<R: Wait + Threads>(
    rt: &R,
    alloc: Global,
    nr: u32,
    online: CpuMask,
    cpus: &[u32],
) -> Result<(u64, Audit), SmpError> {
    let (table, mut boot) = CallTable::new(alloc, nr, online)?;
    let last = seat(&table, &mut boot, 4)?;
    let right = AtomicU64::new(0);
    let drivers = Room::new(&table, boot).drive_all(alloc, cpus)?;
    post_in_threads(rt, drivers, cpus, &right);
    Ok((right.load(Ordering::SeqCst), audit_by(table, last)))
}

#[test]
fn four_threads_post_to_each_other(rt: HostRuntime) -> Result<(), Fail> {
    for (nr, online, cpus) in [
        (5, "0-4", [0, 1, 2, 3]),
        (32, "0-31", [0, 8, 16, 31]),
        (32, "0-31", [7, 15, 23, 30]),
    ] {
        let (right, audit) = all_to_all(&rt, rt.alloc(), nr, online.parse()?, &cpus)?;
        assert_eq!(rt; right, 4, "{nr}");
        assert_eq!(rt; audit, Audit::Drained(all_pairs(&cpus, 100)), "{nr}");
    }
    Ok(())
}

/// Queues 1,000 calls for CPU 0.
fn post_to_zero(mut cpu: Driver, right: &AtomicU64) {
    let mut counter = Counter { calls: 0 };
    let mut whole = true;
    for _ in 0..1_000u32 {
        whole = post_at_last(&mut cpu, 10, 0, &mut counter) && whole;
    }
    if whole && counter.calls == 0 {
        right.fetch_add(1, Ordering::SeqCst);
    }
}

/// Handles 3,000 calls, 1,000 of each other CPU.
fn handle_all(mut cpu: Driver, right: &AtomicU64) {
    let mut counter = Counter { calls: 0 };
    let heard = handle_until(&mut cpu, &mut counter, 3_000);
    if heard && (cpu.tally(1), cpu.tally(2), cpu.tally(3)) == ((0, 1_000), (0, 1_000), (0, 1_000)) {
        right.fetch_add(1, Ordering::SeqCst);
    }
}

/// What one thread does: CPU 0 handles what the others post.
fn crowd(cpu: Driver, right: &AtomicU64) {
    if cpu.cpu.number() == 0 {
        handle_all(cpu, right);
    } else {
        post_to_zero(cpu, right);
    }
}

/// Runs each of the CPUs on a thread of its own, to the end.
fn crowd_in_threads<R: Wait + Threads>(rt: &R, drivers: Vec<Driver, Global>, right: &AtomicU64) {
    thread::scope(thread::scope_env(), rt, |scope| {
        for driver in drivers {
            let _ = scope.spawn(move || crowd(driver, right));
        }
    });
}

/// The tally where CPUs 1 to 3 have each queued 1,000 calls for CPU 0, and all have run.
fn three_to_zero() -> Tally {
    let mut tally = all_pairs(&[], 0);
    for source in 1..4 {
        tally.queued[source][0] = 1_000;
        tally.ran[0][source] = 1_000;
    }
    tally
}

/// Lets three CPUs of a new table post to the fourth: how many of them saw what they should, and the audit with a
/// fifth CPU, 4.
fn all_to_one<R: Wait + Threads>(rt: &R, alloc: Global) -> Result<(u64, Audit), SmpError> {
    let (table, mut boot) = CallTable::new(alloc, 5, "0-4".parse()?)?;
    let last = seat(&table, &mut boot, 4)?;
    let right = AtomicU64::new(0);
    let drivers = Room::new(&table, boot).drive_all(alloc, &[0, 1, 2, 3])?;
    crowd_in_threads(rt, drivers, &right);
    Ok((right.load(Ordering::SeqCst), audit_by(table, last)))
}

#[test]
fn three_cpus_crowd_one_queue(rt: HostRuntime) -> Result<(), Fail> {
    let (right, audit) = all_to_one(&rt, rt.alloc())?;
    assert_eq!(rt; right, 4);
    assert_eq!(rt; audit, Audit::Drained(three_to_zero()));
    Ok(())
}
