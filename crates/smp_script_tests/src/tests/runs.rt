mod failures;
mod paces;

use crate::tests::runs::paces::{Asks, Counts, Finds, Follows, Holds, Lets, Meets, Stays};
use smp_mask::SmpError;
use smp_run::*;
use smp_script::{Outcome, Watched};
use std::alloc::Global;
use std::sync::Wait;
use std::test::*;
use std::thread::Threads;

/// How the run of a script ends, and what it writes.
fn run<R: Threads + Wait + Sync, P: Pace + Sync>(
    rt: &R,
    alloc: Global,
    script: &[u8],
    pace: &P,
) -> (Result<Outcome, SmpError>, Vec<u8, Global>) {
    let mut reader = Watched::new(script);
    let mut writer = Watched::new(Vec::new(alloc));
    let answer = run_script(rt, alloc, &mut reader, &mut writer, pace);
    (answer, writer.into_inner())
}

const FOUR: &[u8] = b"\
    smp 1 run\n\
    cpus 4 0-3\n\
    do 0 100 many wait 0-3 1 0\n\
    do 0 100 many nowait 0-3 1 0\n\
    do 1 100 many wait 0-3 1 0\n\
    do 1 100 many nowait 0-3 1 0\n\
    do 2 100 many wait 0-3 1 0\n\
    do 2 100 many nowait 0-3 1 0\n\
    do 3 100 many wait 0-3 1 0\n\
    do 3 100 many nowait 0-3 1 0\n\
    ";

const FOUR_PRINT: &[u8] = b"\
    3 1-3\n\
    4 1-3\n\
    5 0,2-3\n\
    6 0,2-3\n\
    7 0-1,3\n\
    8 0-1,3\n\
    9 0-2\n\
    10 0-2\n\
    tally 0 1 200 200\n\
    tally 0 2 200 200\n\
    tally 0 3 200 200\n\
    tally 1 0 200 200\n\
    tally 1 2 200 200\n\
    tally 1 3 200 200\n\
    tally 2 0 200 200\n\
    tally 2 1 200 200\n\
    tally 2 3 200 200\n\
    tally 3 0 200 200\n\
    tally 3 1 200 200\n\
    tally 3 2 200 200\n\
    drained\n\
    ";

const STOPS: &[u8] = b"\
    smp 1 run\n\
    cpus 4 0,1,3\n\
    labels 1 0:0,0:1\n\
    do 0 1 set 0 on\n\
    do 0 1 set 0 on\n\
    do 1 1 two 3 1 2 7\n\
    do 3 1 one 2 5 5\n\
    do 3 1 sync 2 5 5\n\
    do 0 1 machine none 1 0\n\
    ";

const STOPS_PRINT: &[u8] = b"\
    4 true\n\
    5 false\n\
    6 7\n\
    7 E3\n\
    8 E1\n\
    9 0\n\
    tally 0 1 0 0\n\
    tally 0 3 0 0\n\
    tally 1 0 0 0\n\
    tally 1 3 0 0\n\
    tally 3 0 0 0\n\
    tally 3 1 0 0\n\
    key 0 on\n\
    site 0 JMP\n\
    site 1 NOP\n\
    drained\n\
    ";

#[test]
fn runs_of_four_cpus(rt: HostRuntime) {
    let (answer, written) = run(&rt, rt.alloc(), FOUR, &FreePace);
    assert_eq!(rt; answer, Ok(Outcome::Done));
    assert_eq!(rt; written.as_slice(), FOUR_PRINT);
}

#[test]
fn stops_keys_and_refusals(rt: HostRuntime) {
    let (answer, written) = run(&rt, rt.alloc(), STOPS, &FreePace);
    assert_eq!(rt; answer, Ok(Outcome::Done));
    assert_eq!(rt; written.as_slice(), STOPS_PRINT);
}

// Row by row: a key that is so already makes no stop; one raised from 0 or lowered to 0 turns; below 0 there is no count.
#[test]
fn keys_that_are_counted(rt: HostRuntime) {
    let script: &[u8] = b"\
        smp 1 run\n\
        cpus 2 0-1\n\
        labels 1 0:0\n\
        do 0 2 inc 0\n\
        do 0 1 dec 0\n\
        do 0 1 set 0 on\n\
        do 0 1 dec 0\n\
        do 0 1 dec 0\n\
        do 0 3 inc 0\n\
        do 0 1 set 0 off\n\
        ";
    let print: &[u8] = b"\
        4 false\n\
        5 false\n\
        6 false\n\
        7 true\n\
        8 E13\n\
        9 false\n\
        10 true\n\
        tally 0 1 0 0\n\
        tally 1 0 0 0\n\
        key 0 off\n\
        site 0 NOP\n\
        drained\n\
        ";
    let (answer, written) = run(&rt, rt.alloc(), script, &FreePace);
    assert_eq!(rt; answer, Ok(Outcome::Done));
    assert_eq!(rt; written.as_slice(), print);
}

// 65,535 is the last count.
#[test]
fn a_key_that_is_full(rt: HostRuntime) {
    let script: &[u8] = b"\
        smp 1 run\n\
        cpus 2 0-1\n\
        labels 1 0:0\n\
        do 0 10000 inc 0\n\
        do 0 10000 inc 0\n\
        do 0 10000 inc 0\n\
        do 0 10000 inc 0\n\
        do 0 10000 inc 0\n\
        do 0 10000 inc 0\n\
        do 0 10000 inc 0\n\
        ";
    let print: &[u8] = b"\
        4 false\n\
        5 false\n\
        6 false\n\
        7 false\n\
        8 false\n\
        9 false\n\
        10 E13\n\
        tally 0 1 0 0\n\
        tally 1 0 0 0\n\
        key 0 on\n\
        site 0 JMP\n\
        drained\n\
        ";
    let (answer, written) = run(&rt, rt.alloc(), script, &FreePace);
    assert_eq!(rt; answer, Ok(Outcome::Done));
    assert_eq!(rt; written.as_slice(), print);
}

// Each family, each stop and each change of a key, with each refusal.
#[test]
fn each_request_and_its_refusals(rt: HostRuntime) {
    let script: &[u8] = b"\
        smp 1 run\n\
        cpus 4 0-1,3\n\
        labels 1 -\n\
        do 3 1 sync 2 5 5\n\
        do 0 2 sync 1 5 5\n\
        do 0 3 sync 0 5 5\n\
        do 1 9 user 1 3 5 5\n\
        do 1 1 user 0 2 5 5\n\
        do 0 1 any wait 2-3 5 5\n\
        do 3 1 any nowait 2-3 5 5\n\
        do 3 1 any wait 2 5 5\n\
        do 0 1 cond even wait 0-3 5 5\n\
        do 1 1 cond odd nowait 0-3 5 5\n\
        do 1 1 many wait 2 5 5\n\
        do 3 2 cond all wait 0-7 5 5\n\
        do 0 1 one 3 5 2147483647\n\
        do 0 1 one 2 5 1\n\
        do 1 1 two 1 1 5 1\n\
        do 1 1 two 1 2 5 1\n\
        do 1 1 two 0 3 5 9\n\
        do 3 1 machine 2 5 7\n\
        do 3 1 machine 1-3 5 7\n\
        do 0 1 set 1 on\n\
        do 0 1 inc 1\n\
        do 0 1 dec 4\n\
        do 0 1 dec 0\n\
        ";
    let print: &[u8] = b"\
        4 E1\n\
        5 ok\n\
        6 ok\n\
        7 ok\n\
        8 E1\n\
        9 3\n\
        10 3\n\
        11 E1\n\
        12 0\n\
        13 1,3\n\
        14 -\n\
        15 0-1,3\n\
        16 2147483647\n\
        17 E3\n\
        18 E4\n\
        19 E3\n\
        20 9\n\
        21 0\n\
        22 7\n\
        23 E4\n\
        24 E4\n\
        25 E4\n\
        26 E13\n\
        tally 0 1 2 2\n\
        tally 0 3 1 1\n\
        tally 1 0 0 0\n\
        tally 1 3 10 10\n\
        tally 3 0 2 2\n\
        tally 3 1 2 2\n\
        key 0 off\n\
        drained\n\
        ";
    let (answer, written) = run(&rt, rt.alloc(), script, &FreePace);
    assert_eq!(rt; answer, Ok(Outcome::Done));
    assert_eq!(rt; written.as_slice(), print);
}

// One call of CPU 0 to each of the 31 others: each repetition has its own tally.
#[test]
fn runs_of_all_cpus(rt: HostRuntime) -> Result<(), Fail> {
    let alloc = rt.alloc();
    let script: &[u8] = b"smp 2 run\ncpus 32 0-31\ndo 0 1 many wait 0-31 1 0\n";
    let mut print = String::new(alloc);
    write!(print, "3 1-31\n")?;
    for source in 0..32u32 {
        for to in 0..32u32 {
            if source != to {
                let count = u32::from(source == 0);
                write!(print, "tally {source} {to} {count} {count}\n")?;
            }
        }
    }
    write!(print, "drained\n")?;
    assert_eq!(rt; print.as_str().lines().count(), 1 + 992 + 1);
    let (answer, written) = run(&rt, alloc, script, &FreePace);
    assert_eq!(rt; answer, Ok(Outcome::Done));
    assert_eq!(rt; written.as_slice(), print.as_bytes());
    Ok(())
}

#[test]
fn two_handlers_at_once(rt: HostRuntime) {
    let script: &[u8] = b"smp 1 run\ncpus 3 0-2\ndo 2 1 many nowait 0-1 1 0\n";
    let print: &[u8] = b"\
        3 0-1\n\
        tally 0 1 0 0\n\
        tally 0 2 0 0\n\
        tally 1 0 0 0\n\
        tally 1 2 0 0\n\
        tally 2 0 1 1\n\
        tally 2 1 1 1\n\
        drained\n\
        ";
    let pace = Meets::new();
    let (answer, written) = run(&rt, rt.alloc(), script, &pace);
    assert_eq!(rt; answer, Ok(Outcome::Done));
    assert_eq!(rt; written.as_slice(), print);
    assert!(rt; pace.have_met());
}

#[test]
fn a_call_is_run_and_counted(rt: HostRuntime) {
    let script: &[u8] = b"smp 1 run\ncpus 2 0-1\ndo 0 1 async 1 7 9\n";
    let print: &[u8] = b"3 ok\ntally 0 1 1 1\ntally 1 0 0 0\ndrained\n";
    let (answer, written) = run(&rt, rt.alloc(), script, &FreePace);
    assert_eq!(rt; answer, Ok(Outcome::Done));
    assert_eq!(rt; written.as_slice(), print);
}

// A line that waits for its calls ends after their functions, however slow these are: the next line finds their marks.
#[test]
fn waited_calls_have_ended(rt: HostRuntime) {
    let cases: [(&[u8], u64); 4] = [
        (
            b"smp 1 run\ncpus 3 0-2\ndo 0 1 sync 1 1 0\ndo 0 1 sync 0 2 0\n",
            1,
        ),
        (
            b"smp 1 run\ncpus 3 0-2\ndo 0 1 any wait 1-2 1 0\ndo 0 1 sync 0 2 0\n",
            1,
        ),
        (
            b"smp 1 run\ncpus 3 0-2\ndo 0 1 many wait 0-2 1 0\ndo 0 1 sync 0 2 0\n",
            2,
        ),
        (
            b"smp 1 run\ncpus 3 0-2\ndo 0 1 cond all wait 1-2 1 0\ndo 0 1 sync 0 2 0\n",
            2,
        ),
    ];
    for (script, marks) in cases {
        let pace = Finds::new();
        let (answer, _written) = run(&rt, rt.alloc(), script, &pace);
        assert_eq!(rt; answer, Ok(Outcome::Done));
        assert_eq!(rt; pace.found(), marks);
    }
}

// CPU 1 is in a function until CPU 0 has made all its calls: so `user 1` does not wait for the record of `user 0`.
#[test]
fn the_records_of_the_user_are_two(rt: HostRuntime) {
    let script: &[u8] = b"\
        smp 1 run\n\
        cpus 2 0-1\n\
        do 0 1 async 1 1 0\n\
        do 0 1 user 0 1 3 0\n\
        do 0 1 user 1 1 3 0\n\
        do 0 1 sync 0 2 0\n\
        ";
    let print: &[u8] = b"3 ok\n4 ok\n5 ok\n6 ok\ntally 0 1 3 3\ntally 1 0 0 0\ndrained\n";
    let pace = Lets::new();
    let (answer, written) = run(&rt, rt.alloc(), script, &pace);
    assert_eq!(rt; answer, Ok(Outcome::Done));
    assert_eq!(rt; written.as_slice(), print);
    assert!(rt; pace.was_let());
}

// The record of `user 0` is busy until CPU 0 has run function 2: so CPU 0 polls while it waits for the record.
#[test]
fn a_cpu_polls_for_a_busy_record(rt: HostRuntime) {
    let script: &[u8] =
        b"smp 1 run\ncpus 3 0-2\ndo 0 1 async 1 1 0\ndo 0 2 user 0 1 3 0\ndo 2 1 async 0 2 0\n";
    let pace = Lets::new();
    let (answer, _written) = run(&rt, rt.alloc(), script, &pace);
    assert_eq!(rt; answer, Ok(Outcome::Done));
    assert!(rt; pace.was_let());
}

// CPU 0 makes a call, a stop of CPU 1, and a call. CPU 1 is in function 1 from the first call on, and this gives up before function
// 2 runs: the stop waits for it, and the last call is made after the stop.
#[test]
fn calls_and_stops_are_in_the_order_of_the_script(rt: HostRuntime) {
    let script: &[u8] = b"\
        smp 1 run\n\
        cpus 3 0-2\n\
        do 0 1 sync 0 3 0\n\
        do 0 1 one 1 5 6\n\
        do 0 1 sync 0 2 0\n\
        do 2 1 sync 2 4 0\n\
        do 2 1 async 1 1 0\n\
        ";
    let pace = Holds::new();
    let (answer, written) = run(&rt, rt.alloc(), script, &pace);
    assert_eq!(rt; answer, Ok(Outcome::Done));
    assert!(rt;
        written
            .as_slice()
            .starts_with(b"3 ok\n4 6\n5 ok\n6 ok\n7 ok\n")
    );
    assert_eq!(rt; pace.late(), 1);
}

// All CPUs are done before CPU 1 polls for the first time, and its one poll runs what was queued for it.
#[test]
fn a_cpu_polls_once_more(rt: HostRuntime) {
    let script: &[u8] = b"smp 1 run\ncpus 2 0-1\ndo 0 1 async 1 7 9\n";
    let print: &[u8] = b"3 ok\ntally 0 1 1 1\ntally 1 0 0 0\ndrained\n";
    let pace = Follows::new();
    let (answer, written) = run(&rt, rt.alloc(), script, &pace);
    assert!(rt; pace.has_followed());
    assert_eq!(rt; answer, Ok(Outcome::Done));
    assert_eq!(rt; written.as_slice(), print);
}

/// Each CPU is asked once whether it polls: CPU 1 has no line of its own, and makes a poll for each of 1,000 calls that end one
/// after the other.
#[test]
fn a_cpu_is_asked_once_whether_it_polls(rt: HostRuntime) {
    let script: &[u8] = b"smp 1 run\ncpus 2 0-1\ndo 0 1000 sync 1 7 9\n";
    let print: &[u8] = b"3 ok\ntally 0 1 1000 1000\ntally 1 0 0 0\ndrained\n";
    let pace = Asks::new();
    let (answer, written) = run(&rt, rt.alloc(), script, &pace);
    assert_eq!(rt; answer, Ok(Outcome::Done));
    assert_eq!(rt; written.as_slice(), print);
    assert_eq!(rt; pace.asked(), (1, 1));
}

// A CPU that does not poll at the end leaves what is queued for it; the labels are told all the same.
#[test]
fn a_cpu_that_does_not_poll(rt: HostRuntime) {
    let cases: [(&[u8], &[u8]); 2] = [
        (
            b"smp 1 run\ncpus 2 0-1\ndo 0 1 async 1 7 9\n",
            b"3 ok\nleft 1 1 0\n",
        ),
        (
            b"smp 1 run\ncpus 2 0-1\nlabels 1 0:1\ndo 0 1 async 1 7 9\n",
            b"4 ok\nkey 0 off\nsite 0 JMP\nleft 1 1 0\n",
        ),
    ];
    for (script, print) in cases {
        let (answer, written) = run(&rt, rt.alloc(), script, &Stays(1));
        assert_eq!(rt; answer, Ok(Outcome::Left));
        assert_eq!(rt; written.as_slice(), print);
    }
}

// Each repetition runs, on the CPU that is called, with what its line says: 7 calls of function 3 from CPU 0 on CPU 1, given
// 5, and 2 of function 4 on CPU 0 itself, given 6.
#[test]
fn each_repetition_is_made(rt: HostRuntime) {
    let script: &[u8] = b"smp 1 run\ncpus 2 0-1\ndo 0 7 sync 1 3 5\ndo 0 2 any wait 0-1 4 6\n";
    let pace = Counts::new();
    let (answer, _written) = run(&rt, rt.alloc(), script, &pace);
    assert_eq!(rt; answer, Ok(Outcome::Done));
    assert_eq!(rt; pace.calls(), 9);
    assert_eq!(rt; pace.sum(), 7 * 1_003_005 + 2 * 4_006);
}

// No line makes a CPU that is not online, and the last repetition is the one that is told: the first `set` turns the key.
#[test]
fn the_last_repetition_is_told(rt: HostRuntime) {
    let script: &[u8] = b"smp 1 run\ncpus 1 0\nlabels 1 0:0\ndo 0 2 set 0 on\ndo 0 1 set 0 on\n";
    let print: &[u8] = b"4 false\n5 false\nkey 0 on\nsite 0 JMP\ndrained\n";
    let (answer, written) = run(&rt, rt.alloc(), script, &FreePace);
    assert_eq!(rt; answer, Ok(Outcome::Done));
    assert_eq!(rt; written.as_slice(), print);
}
