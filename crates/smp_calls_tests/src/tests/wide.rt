//! Tables on which CPUs call others by their further records.

use super::*;

/// Of all records that the CPU may call by, these are done or not, and the others are not or are.
fn records_are(rt: &impl Abort, cpu: &mut Driver, these: &[u32], done: bool) {
    for k in 0..36u32 {
        let expected = these.contains(&k) == done;
        assert_eq!(rt; (k, cpu.is_done(k)), (k, Ok(expected)));
    }
}

#[test]
fn many_lock_the_record_for_each_destination(rt: HostRuntime) -> Result<(), Fail> {
    let others: CpuMask = "3,20".parse()?;
    let (table, two, three, twenty) = table_and_three(rt.alloc(), 32, "0-31", [2, 3, 20])?;
    let mut cpus = Three::new(&table, two, three, twenty, rt.alloc());
    locks_two_records(&rt, &mut cpus.first, others);
    each_frees_its_record(&rt, &mut cpus);
    calls_both_again(&rt, &mut cpus, others);
    has_called_both_twice(&rt, &mut cpus);
    Ok(())
}

fn locks_two_records<R: Wait + Abort>(rt: &R, two: &mut Driver, others: CpuMask) {
    assert!(rt; two.many(rt, others, 1, false) == others);
    assert_eq!(rt; (two.tally(3), two.tally(20)), ((1, 0), (1, 0)));
    // The record for CPU 3 is 5, that for CPU 20 is 24.
    records_are(rt, two, &[5, 24], false);
}

fn each_frees_its_record(rt: &impl Abort, cpus: &mut Three) {
    let (two, three, twenty) = (&mut cpus.first, &mut cpus.second, &mut cpus.third);
    twenty.poll();
    assert_eq!(rt; (two.is_done(5), two.is_done(24)), (Ok(false), Ok(true)));
    three.poll();
    assert_eq!(rt; (two.is_done(5), two.is_done(24)), (Ok(true), Ok(true)));
}

/// Both records are free for the next calls.
fn calls_both_again<R: Wait + Abort>(rt: &R, cpus: &mut Three, others: CpuMask) {
    let (two, three, twenty) = (&mut cpus.first, &mut cpus.second, &mut cpus.third);
    assert!(rt; two.many(rt, others, 1, false) == others);
    three.poll();
    twenty.poll();
    assert_eq!(rt; (three.times(2, 1), twenty.times(2, 1)), (2, 2));
}

fn has_called_both_twice(rt: &impl Abort, cpus: &mut Three) {
    let (two, three, twenty) = (&mut cpus.first, &mut cpus.second, &mut cpus.third);
    assert_eq!(rt; (two.tally(3), three.tally(2)), ((2, 0), (0, 2)));
    assert_eq!(rt; (two.tally(20), twenty.tally(2)), ((2, 0), (0, 2)));
}

#[test]
fn many_are_all_but_this_cpu_of_thirty_two(rt: HostRuntime) -> Result<(), Fail> {
    let all: CpuMask = "0-31".parse()?;
    // A CPU, the others, and its record for calls to itself, which it does not use.
    for (this, others, own) in [(2, "0-1,3-31", 4), (20, "0-19,21-31", 24)] {
        let others: CpuMask = others.parse()?;
        let (table, cpu) = table_of(rt.alloc(), 32, all, this)?;
        let mut cpu = Driver::new(&table, cpu, rt.alloc());
        calls_all_others(&rt, &mut cpu, all, others, own);
    }
    Ok(())
}

fn calls_all_others<R: Wait + Abort>(
    rt: &R,
    cpu: &mut Driver,
    all: CpuMask,
    others: CpuMask,
    own: u32,
) {
    let this = cpu.cpu.number();
    assert!(rt; cpu.many(rt, all, 1, false) == others);
    let tallies = (cpu.tally(7), cpu.tally(31), cpu.tally(this));
    assert_eq!(rt;
        (cpu.heard.calls.len(), tallies),
        (0, ((1, 0), (1, 0), (0, 0)))
    );
    records_are(rt, cpu, &[0, 1, 10, 11, own], true);
}

#[test]
fn the_last_cpu_of_a_table_has_the_last_record(rt: HostRuntime) -> Result<(), Fail> {
    // How many CPUs, the last of them, the record for it, and the first number that is no record.
    for (nr, cpu, record, none) in [(8, 7, 9, 12), (9, 8, 12, 13), (32, 31, 35, 36)] {
        let last = CpuMask::of(cpu)?;
        let (table, zero) = table_of(rt.alloc(), nr, last.with(0)?, 0)?;
        let mut zero = Driver::new(&table, zero, rt.alloc());
        calls_the_last(&rt, &mut zero, last, record, none);
    }
    Ok(())
}

fn calls_the_last<R: Wait + Abort>(
    rt: &R,
    zero: &mut Driver,
    last: CpuMask,
    record: u32,
    none: u32,
) {
    assert!(rt; zero.many(rt, last, 1, false) == last);
    let done = (record, zero.is_done(record), zero.is_done(none));
    assert_eq!(rt; done, (record, Ok(false), Err(SmpError::BadArgument)));
}
