//! Runs that are refused, and runs in which a read or a write fails.

use crate::tests::refusing::Refusing;
use crate::tests::replays::devices::{Narrow, Slow};
use crate::tests::runs::run;
use smp_mask::{Cause, Side, SmpError};
use smp_run::*;
use smp_script::{Outcome, Watched};
use std::alloc::Global;
use std::sync::Wait;
use std::test::*;
use std::thread::Threads;

const SHORT: &[u8] = b"smp 1 run\ncpus 2 0-1\nlabels 1 0:0\ndo 0 2 sync 1 7 9\ndo 0 1 set 0 on\n";

const SHORT_PRINT: &[u8] =
    b"4 ok\n5 true\ntally 0 1 2 2\ntally 1 0 0 0\nkey 0 on\nsite 0 JMP\ndrained\n";

#[test]
fn each_read_of_a_run_fails_in_turn(rt: HostRuntime) {
    let mut done = false;
    for fails_at in 0..80 {
        let slow = Slow {
            left: SHORT,
            reads: 0,
            fails_at,
        };
        let mut reader = Watched::new(slow);
        let mut writer = Watched::new(Vec::new(rt.alloc()));
        let answer = run_script(&rt, rt.alloc(), &mut reader, &mut writer, &FreePace);
        let written = writer.into_inner();
        if reader.failed() {
            assert_eq!(rt; answer, Err(SmpError::StreamFailed(Side::Read)));
            assert!(rt; written.is_empty());
        } else {
            assert_eq!(rt; answer, Ok(Outcome::Done));
            assert_eq!(rt; written.as_slice(), SHORT_PRINT);
            done = true;
        }
    }
    assert!(rt; done);
}

#[test]
fn each_write_of_a_run_fails_in_turn(rt: HostRuntime) {
    // a write for each byte, and a flush
    let calls = SHORT_PRINT.len() + 1;
    for fails_at in 0..=calls {
        let narrow = Narrow {
            taken: Vec::new(rt.alloc()),
            writes: 0,
            fails_at,
        };
        let mut reader = Watched::new(SHORT);
        let mut writer = Watched::new(narrow);
        let answer = run_script(&rt, rt.alloc(), &mut reader, &mut writer, &FreePace);
        let failed = writer.failed();
        let written = writer.into_inner().taken;
        if fails_at < calls {
            assert!(rt; failed);
            assert_eq!(rt; answer, Err(SmpError::StreamFailed(Side::Write)));
            assert_eq!(rt; written.len(), fails_at);
            assert!(rt; SHORT_PRINT.starts_with(written.as_slice()));
        } else {
            assert!(rt; !failed);
            assert_eq!(rt; answer, Ok(Outcome::Done));
            assert_eq!(rt; written.as_slice(), SHORT_PRINT);
        }
    }
}

/// How a run in this memory ends, and what it writes, which is in memory of its own.
fn run_in<R: Threads + Wait + Sync>(
    rt: &R,
    alloc: Global,
    memory: &Refusing<Global>,
) -> (Result<Outcome, SmpError>, Vec<u8>) {
    let mut reader = Watched::new(SHORT);
    let mut writer = Watched::new(Vec::new(alloc));
    let answer = run_script(rt, memory, &mut reader, &mut writer, &FreePace);
    (answer, writer.into_inner())
}

// A run has at least 16 growths: of its text, its lines, the words of two tables, three lists of CPUs that are yet to be given
// out, the answers of all lines, of CPU 0 and of CPU 1, the lists of what starts, runs and is back, keys, sites, and its output.
#[test]
fn each_growth_of_a_run_is_refused_in_turn(rt: HostRuntime) {
    for refused in 0..1_000u64 {
        let memory = Refusing::new(rt.alloc(), refused);
        let (answer, written) = run_in(&rt, rt.alloc(), &memory);
        assert!(rt; memory.is_whole(), "growth {refused}");
        if !memory.has_refused() {
            assert_eq!(rt; answer, Ok(Outcome::Done));
            assert_eq!(rt; written.as_slice(), SHORT_PRINT);
            assert!(rt; refused >= 16, "{refused} growths");
            return;
        }
        assert_eq!(rt; answer, Err(SmpError::NoMemory), "growth {refused}");
        assert!(rt; written.is_empty(), "growth {refused}");
        // Another run in the same memory is refused nothing.
        let (again, written) = run_in(&rt, rt.alloc(), &memory);
        assert_eq!(rt; again, Ok(Outcome::Done), "after growth {refused}");
        assert_eq!(rt; written.as_slice(), SHORT_PRINT, "after growth {refused}");
    }
    assert!(rt; false, "a run has 1,000 growths");
}

#[test]
fn scripts_that_are_not_lawful(rt: HostRuntime) {
    let cases: [(&[u8], u32, Cause); 8] = [
        (b"", 1, Cause::Cut),
        (b"smp 1 run", 1, Cause::Cut),
        (b"smp 1 run\n", 2, Cause::Cut),
        (b"smp 1 replay\ncpus 1 0\n", 1, Cause::Word),
        (b"smp 1 run\ncpus 2 0\ndo 1 1 sync 0 1 0\n", 3, Cause::Range),
        (
            b"smp 1 run\ncpus 2 0-1\ndo 0 1 set 0 on\ndo 1 1 inc 0\n",
            4,
            Cause::SharedKey,
        ),
        (
            b"smp 1 run\ncpus 2 0-1\ndo 0 1 set 0 on\ndo 1 1 set 0 off\n",
            4,
            Cause::SharedKey,
        ),
        (b"smp 1 run\ncpus 2 0-1\ndo 0 1 set 0 on", 3, Cause::Cut),
    ];
    for (script, line, cause) in cases {
        let (answer, written) = run(&rt, rt.alloc(), script, &FreePace);
        assert_eq!(rt; answer, Err(SmpError::BadScript { line, cause }));
        assert!(rt; written.is_empty());
    }
}
