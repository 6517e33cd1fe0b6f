//! Of whom a condition is asked and when, with wait and without, and what a CPU does on itself.

use super::others::Others;
use super::*;
use std::sync::Mutex;
use std::thread;
use std::thread::Threads;

/// A call of function 1 on CPUs of a mask, where some are wanted: those that are asked are the digits of a number to this base.
#[derive(Drop)]
struct Asking {
    mask: CpuMask,
    wanted: CpuMask,
    base: u64,
    wait: bool,
}

/// Makes the call, where the others poll all the time: which CPUs were called, and which were asked, behind a 9.
fn call_wanted<R: Wait + Threads + Sync>(
    rt: &R,
    driver: &mut Driver,
    others: &Others,
    asking: &Asking,
) -> (CpuMask, u64) {
    let asked = AtomicU64::new(9);
    let cond = |cpu: u32, _: u64| {
        note_asked(&asked, asking.base, cpu);
        asking.wanted.contains(cpu)
    };
    let call = CondCall {
        mask: asking.mask,
        func: 1,
        wait: asking.wait,
    };
    let mut called = CpuMask::empty();
    others.let_go_on();
    thread::scope(thread::scope_env(), rt, |scope| {
        if scope.spawn(move || others.poll_to_the_end()).is_ok() {
            called = driver.each(rt, call, &cond);
        }
        others.over.store(1, Ordering::SeqCst);
    });
    (called, asked.load(Ordering::SeqCst))
}

/// Notes that a CPU is asked.
fn note_asked(asked: &AtomicU64, base: u64, cpu: u32) {
    let before = asked.load(Ordering::SeqCst);
    let after = before.wrapping_mul(base).wrapping_add(cpu as u64);
    asked.store(after, Ordering::SeqCst);
}

/// No CPU is asked about that is not in the mask, or not online; this CPU is not in the mask.
#[test]
fn the_condition_is_asked_of_cpus_of_the_mask_that_are_online(rt: HostRuntime) -> Result<(), Fail> {
    for wait in [false, true] {
        let (table, boot) = CallTable::new(rt.alloc(), 6, "0-1,3,5".parse()?)?;
        asks_of_three(&rt, &mut Room::new(&table, boot, rt.alloc()), wait)?;
    }
    Ok(())
}

fn asks_of_three<R: Wait + Threads + Sync + Abort>(
    rt: &R,
    room: &mut Room,
    wait: bool,
) -> Result<(), SmpError> {
    let mask: CpuMask = "1-5".parse()?;
    let called: CpuMask = "1,3,5".parse()?;
    let asking = Asking {
        mask,
        wanted: mask,
        base: 10,
        wait,
    };
    let mut zero = room.drive(0)?;
    let others = Others::of(room, &[1, 3, 5])?;
    let answer = call_wanted(rt, &mut zero, &others, &asking);
    assert_eq!(rt; (answer, zero.times(0, 1)), ((called, 9_135), 0));
    Ok(())
}

/// The condition is asked of 31 other CPUs, ascending, and then of this one.
#[test]
fn the_condition_is_asked_of_thirty_one_others_and_then_of_this_cpu(
    rt: HostRuntime,
) -> Result<(), Fail> {
    for wait in [false, true] {
        let (table, boot) = CallTable::new(rt.alloc(), 32, "0-31".parse()?)?;
        asks_of_thirty_two(&rt, &mut Room::new(&table, boot, rt.alloc()), wait)?;
    }
    Ok(())
}

fn asks_of_thirty_two<R: Wait + Threads + Sync + Abort>(
    rt: &R,
    room: &mut Room,
    wait: bool,
) -> Result<(), SmpError> {
    let all: CpuMask = "0-31".parse()?;
    let fourth: CpuMask = "0,4,8,12,16,20,24,28".parse()?;
    let asking = Asking {
        mask: all,
        wanted: fourth,
        base: 33,
        wait,
    };
    let mut twenty = room.drive(20)?;
    let others = Others::of(room, &[0, 4, 8, 12, 16, 24, 28])?;
    let answer = call_wanted(rt, &mut twenty, &others, &asking);
    assert_eq!(rt; answer, (fourth, asked_last(all, 20)));
    let tallies = (twenty.tally(4), twenty.tally(28), twenty.tally(31));
    assert_eq!(rt;
        (twenty.times(20, 1), tallies),
        (1, ((1, 0), (1, 0), (0, 0)))
    );
    Ok(())
}

/// The number where the others are asked in order, and then this CPU.
fn asked_last(all: CpuMask, this: u32) -> u64 {
    let asked = AtomicU64::new(9);
    for cpu in all.without(this).iter() {
        note_asked(&asked, 33, cpu);
    }
    note_asked(&asked, 33, this);
    asked.load(Ordering::SeqCst)
}

/// When a CPU that is not called yet polls in the condition.
#[derive(Drop)]
struct Moment {
    mask: CpuMask,
    /// It polls as the condition is asked of this CPU.
    asked: u32,
    wait: bool,
}

/// CPU 0 calls CPUs of the mask. As the moment's CPU is asked, CPU 1 polls, once CPU 2 has sent it an interrupt, if it is there:
/// how often CPU 1 has then heard the call.
fn heard_at<R: Wait + Threads + Sync>(
    rt: &R,
    zero: &mut Driver,
    others: &Others,
    at: &Moment,
) -> u64 {
    let heard = AtomicU64::new(0);
    let cond = |cpu: u32, _: u64| {
        if cpu == at.asked {
            others.interrupt(1, 1);
            let times = others.hears(0, 0).unwrap_or(9);
            heard.store(times as u64, Ordering::SeqCst);
            others.let_go_on();
        }
        true
    };
    let call = CondCall {
        mask: at.mask,
        func: 1,
        wait: at.wait,
    };
    thread::scope(thread::scope_env(), rt, |scope| {
        if scope.spawn(move || others.poll_to_the_end()).is_ok() {
            zero.each(rt, call, &cond);
        }
        others.over.store(1, Ordering::SeqCst);
    });
    heard.load(Ordering::SeqCst)
}

/// This CPU is asked once the interrupts are sent.
#[test]
fn this_cpu_is_asked_after_the_interrupts_are_sent(rt: HostRuntime) -> Result<(), Fail> {
    for wait in [false, true] {
        let (table, boot) = CallTable::new(rt.alloc(), 2, "0-1".parse()?)?;
        let mut room = Room::new(&table, boot, rt.alloc());
        asks_of_itself_last(&rt, &mut room, wait)?;
    }
    Ok(())
}

fn asks_of_itself_last<R: Wait + Threads + Sync + Abort>(
    rt: &R,
    room: &mut Room,
    wait: bool,
) -> Result<(), SmpError> {
    let mut zero = room.drive(0)?;
    let others = Others::of(room, &[1])?;
    let at = Moment {
        mask: "0-1".parse()?,
        asked: 0,
        wait,
    };
    let heard = heard_at(rt, &mut zero, &others, &at);
    assert_eq!(rt; (heard, zero.times(0, 1)), (1, 1));
    Ok(())
}

/// Each CPU is asked about once the calls to those before it are queued. CPU 0 has sent nothing yet, so CPU 2 sends the interrupt.
#[test]
fn each_cpu_is_asked_once_the_calls_before_it_are_queued(rt: HostRuntime) -> Result<(), Fail> {
    for wait in [false, true] {
        let (table, boot) = CallTable::new(rt.alloc(), 4, "0-3".parse()?)?;
        let mut room = Room::new(&table, boot, rt.alloc());
        asks_of_three_last(&rt, &mut room, wait)?;
    }
    Ok(())
}

fn asks_of_three_last<R: Wait + Threads + Sync + Abort>(
    rt: &R,
    room: &mut Room,
    wait: bool,
) -> Result<(), SmpError> {
    let mut zero = room.drive(0)?;
    let others = Others::of(room, &[1, 2, 3])?;
    let at = Moment {
        mask: "1,3".parse()?,
        asked: 3,
        wait,
    };
    assert_eq!(rt; heard_at(rt, &mut zero, &others, &at), 1);
    Ok(())
}

/// Handles the calls of a CPU, and notes how often it has heard function 1 from CPU 0.
fn poll_and_note(other: &Mutex<Driver>, heard: &AtomicU64) {
    if let Some(mut other) = other.try_lock() {
        other.poll();
        heard.store(other.times(0, 1) as u64, Ordering::SeqCst);
    }
}

/// A handler that lets another CPU handle its calls.
#[derive(Drop)]
struct LetsPoll<'a, 'b> {
    other: &'a Mutex<Driver<'b>>,
    heard: AtomicU64,
}

impl<'a, 'b> Handler for LetsPoll<'a, 'b> {
    ghost leads = { λ _ _ _. Unit {0} };

    fn call(&mut self, _src: u32, _func: u16, _info: u64) {
        poll_and_note(self.other, &self.heard);
    }
}

/// CPU 0 calls these CPUs and waits, where CPU 1 polls in CPU 0's own function alone: whom it has called, and how often
/// CPU 1 has heard the call.
fn call_where_one_polls<R: Wait>(
    rt: &R,
    zero: &mut Driver,
    one: Driver,
    mask: CpuMask,
) -> (CpuMask, u64) {
    let one = Mutex::new(one);
    let mut handler = LetsPoll {
        other: &one,
        heard: AtomicU64::new(0),
    };
    let (table, cpu) = (zero.table, &mut zero.cpu);
    let called = each_cpu_cond(table, rt, cpu, &mut handler, mask, 1, 6, &|_, _| true, true);
    (called, handler.heard.load(Ordering::SeqCst))
}

/// A CPU that waited before it ran its own function would wait for ever: CPU 1 handles in that function alone.
#[test]
fn this_cpu_runs_its_function_before_it_waits(rt: HostRuntime) -> Result<(), Fail> {
    let both: CpuMask = "0-1".parse()?;
    let (table, zero, one) = table_and_two(rt.alloc(), 2, "0-1")?;
    let mut zero = Driver::new(&table, zero, rt.alloc());
    let one = Driver::new(&table, one, rt.alloc());
    let (called, heard) = call_where_one_polls(&rt, &mut zero, one, both);
    assert!(rt; called == both);
    assert_eq!(rt; heard, 1);
    Ok(())
}

#[test]
fn calls_of_cpu_2_to_itself_have_it_as_their_source(rt: HostRuntime) -> Result<(), Fail> {
    let (table, two) = table_of(rt.alloc(), 3, "0-2".parse()?, 2)?;
    let mut two = Driver::new(&table, two, rt.alloc());
    two_hears_its_own_calls(&rt, &mut two);
    a_busy_record_refuses_even_two(&rt, &mut two);
    Ok(())
}

fn two_hears_its_own_calls<R: Wait + Abort>(rt: &R, two: &mut Driver) {
    assert_eq!(rt; two.single(rt, 2, 3, true), Ok(()));
    assert_eq!(rt; any_of(rt, two, "2", 4), Ok(2));
    assert_eq!(rt; two.by_user(rt, 0, 2, 5), Ok(()));
    assert_eq!(rt;
        (two.times(2, 3), two.times(2, 4), two.times(2, 5)),
        (1, 1, 1)
    );
}

/// Even a call to itself is refused while its record is busy.
fn a_busy_record_refuses_even_two<R: Wait + Abort>(rt: &R, two: &mut Driver) {
    assert_eq!(rt; two.by_user(rt, 0, 1, 7), Ok(()));
    assert_eq!(rt; two.by_user(rt, 0, 2, 5), Err(SmpError::Busy));
    assert_eq!(rt; two.times(2, 5), 1);
}
