pub mod devices;
mod further;
mod scripts;
mod worked;

use devices::{Again, Narrow, Slow};
use further::*;
use linked_list_allocator::LocalHeap;
use scripts::*;
use smp_mask::{Cause, Side, SmpError};
use smp_replay::*;
use smp_script::{Outcome, Watched};
use std::io;
use std::test::*;
use worked::*;

/// Replays a script into memory: the answer, and what was written.
fn replayed(rt: &HostRuntime, script: &[u8]) -> (Result<Outcome, SmpError>, Vec<u8>) {
    let mut reader = Watched::new(script);
    let mut writer = Watched::new(Vec::new(rt.alloc()));
    let answer = replay_script(rt.alloc(), &mut reader, &mut writer);
    (answer, writer.into_inner())
}

#[test]
fn one_call(rt: HostRuntime) {
    let (answer, written) = replayed(&rt, ONE_CALL);
    assert_eq!(rt; answer, Ok(Outcome::Done));
    assert_eq!(rt; written.as_slice(), ITS_OUTPUT);
}

#[test]
fn worked_cases(rt: HostRuntime) {
    let cases: [(&[u8], &[u8]); 10] = [
        (MARKS, MARKS_PRINTS),
        (TWO_CLASSES, TWO_CLASSES_PRINTS),
        (BUSY_RECORD, BUSY_RECORD_PRINTS),
        (CONTENDED, CONTENDED_PRINTS),
        (STOP_OF_TWO, STOP_OF_TWO_PRINTS),
        (FREE_RECORD, FREE_RECORD_PRINTS),
        (EQUAL_HEADS, EQUAL_HEADS_PRINTS),
        (LATE_POST, LATE_POST_PRINTS),
        (FIVE_TRIES, FIVE_TRIES_PRINTS),
        (SECOND_KEY, SECOND_KEY_PRINTS),
    ];
    for (script, prints) in cases {
        let (answer, written) = replayed(&rt, script);
        assert_eq!(rt; answer, Ok(Outcome::Done));
        assert_eq!(rt; written.as_slice(), prints);
    }
}

#[test]
fn one_stop(rt: HostRuntime) {
    let (answer, written) = replayed(&rt, ONE_STOP);
    assert_eq!(rt; answer, Ok(Outcome::Done));
    assert_eq!(rt; written.as_slice(), ITS_STEPS);
}

#[test]
fn one_patch(rt: HostRuntime) {
    let (answer, written) = replayed(&rt, ONE_PATCH);
    assert_eq!(rt; answer, Ok(Outcome::Done));
    assert!(rt; written.as_slice().ends_with(ITS_LAST_STEPS));
}

#[test]
fn stale_and_refused_stops(rt: HostRuntime) {
    let gate =
        b"smp 1 replay\ncpus 2 0-1\nstart 0 gate\nstep 0 1\nstart 0 begin multi 0 0 1 0\nstep 0 11\n";
    let cases: [(&[u8], &[u8], Outcome); 3] = [
        (
            b"start 1 enter 0\nstep 1 1\n",
            b"1 and slot.0.roll 1 ; E7\n",
            Outcome::Done,
        ),
        (
            b"start 0 begin multi 0 0 1 0\nshow\n",
            b"stopped 14 E8\n",
            Outcome::Stopped,
        ),
        (
            b"start 0 enter 0\nstep 0 4\nstart 0 enter 0\n",
            b" ; entered\nstopped 19 E7\n",
            Outcome::Stopped,
        ),
    ];
    for (more, end, outcome) in cases {
        let mut script = Vec::new(rt.alloc());
        assert!(rt; script.extend_from_slice(gate).is_ok());
        assert!(rt; script.extend_from_slice(more).is_ok());
        let (answer, written) = replayed(&rt, script.as_slice());
        assert_eq!(rt; answer, Ok(outcome));
        assert!(rt; written.as_slice().ends_with(end));
    }
}

#[test]
fn faults_of_labels_stops_and_nudges(rt: HostRuntime) {
    let cases: [(&[u8], Cause); 16] = [
        (b"labels 5 0:2\n", Cause::Word),
        (b"labels 1 0:0,\n", Cause::Word),
        (b"labels 01 0\n", Cause::Word),
        (b"labels 1 0:00\n", Cause::Word),
        (b"labels 5 x:0\n", Cause::Range),
        (b"labels 1 :0\n", Cause::Number),
        (b"labels 1 1:0\n", Cause::Range),
        (
            b"labels 1 0:0,0:0,0:0,0:0,0:0,0:0,0:0,0:0,0:0,0:0,0:0,0:0,0:0,0:0,0:0,0:0,0:0\n",
            Cause::Range,
        ),
        (b"start 0 begin fun 0- 0 9 5\n", Cause::Word),
        (b"start 0 begin one 0- 0 9 5\n", Cause::Mask),
        (b"start 0 advance -0\n", Cause::Number),
        (b"start 0 runone -2147483649\n", Cause::Range),
        (b"start 0 nudge 0\n", Cause::Word),
        (b"start 0 nudge x left\n", Cause::Word),
        (b"start 0 nudge x up\n", Cause::Number),
        (b"start 0 nudge 4294967296 down\n", Cause::Range),
    ];
    for (line_3, cause) in cases {
        let mut script = Vec::new(rt.alloc());
        assert!(rt;
            script
                .extend_from_slice(b"smp 1 replay\ncpus 2 0-1\n")
                .is_ok()
        );
        assert!(rt; script.extend_from_slice(line_3).is_ok());
        let (answer, written) = replayed(&rt, script.as_slice());
        assert_eq!(rt; answer, Err(SmpError::BadScript { line: 3, cause }));
        assert!(rt; written.is_empty());
    }
}

#[test]
fn records_of_far_calls(rt: HostRuntime) {
    let cases: [(&[u8], &[u8]); 2] = [
        (
            b"smp 2 replay\ncpus 32 0-31\nstart 31 post 12 8 async 1 0 1\nstep 31 8\n",
            b"\n31 cas head.8 0 > 1129 ; owed\n",
        ),
        (
            b"smp 2 replay\ncpus 32 0-31\nstart 0 post 35 31 async 1 0 1\nstep 0 8\n",
            b"\n0 cas head.31 0 > 408 ; owed\n",
        ),
    ];
    for (script, end) in cases {
        let (answer, written) = replayed(&rt, script);
        assert_eq!(rt; answer, Ok(Outcome::Done));
        assert!(rt; written.as_slice().ends_with(end));
    }
}

#[test]
fn nudges(rt: HostRuntime) {
    let (answer, written) = replayed(&rt, NUDGES);
    assert_eq!(rt; answer, Ok(Outcome::Done));
    assert!(rt; written.as_slice().starts_with(FIRST_NUDGES));
    assert!(rt; written.as_slice().ends_with(LAST_NUDGES));
}

#[test]
fn faults_by_version(rt: HostRuntime) {
    let cases: [(&[u8], u32, Cause); 11] = [
        (b"smp 3 replay\ncpus 1 0\n", 1, Cause::Word),
        (b"smp 02 replay\ncpus 1 0\n", 1, Cause::Word),
        (b"smp 1 replay\ncpus 9 0\n", 2, Cause::Range),
        (b"smp 2 replay\ncpus 33 0\n", 2, Cause::Range),
        (b"smp 1 replay\ncpus 2 8\n", 2, Cause::Mask),
        (b"smp 2 replay\ncpus 2 8\n", 2, Cause::Range),
        (b"smp 1 replay\ncpus 2 0-10\n", 2, Cause::Mask),
        (b"smp 2 replay\ncpus 2 32\n", 2, Cause::Mask),
        (
            b"smp 1 replay\ncpus 2 0\nstart 0 begin one 8 - 0 0\n",
            3,
            Cause::Mask,
        ),
        (
            b"smp 1 replay\ncpus 2 0\nstart 0 begin one 7 8 0 0\n",
            3,
            Cause::Mask,
        ),
        (
            b"smp 2 replay\ncpus 2 0\nstart 0 begin one 8 31-32 0 0\n",
            3,
            Cause::Mask,
        ),
    ];
    for (script, line, cause) in cases {
        let (answer, written) = replayed(&rt, script);
        assert_eq!(rt; answer, Err(SmpError::BadScript { line, cause }));
        assert!(rt; written.is_empty());
    }
}

#[test]
fn stops_at_a_refused_event(rt: HostRuntime) {
    let cases: [(&[u8], &[u8]); 4] = [
        (
            b"smp 1 replay\ncpus 2 0-1\nstep 1 1\nshow\n",
            b"stopped 0 E10\n",
        ),
        (
            b"smp 1 replay\ncpus 2 0-1\nstart 0 handle\nstart 0 handle\nshow\n",
            b"stopped 1 E2\n",
        ),
        (
            b"smp 1 replay\ncpus 3 0-1\nstart 2 handle\n",
            b"stopped 0 E1\n",
        ),
        (
            b"smp 1 replay\ncpus 3 0-1\nstart 0 send 2\n",
            b"stopped 0 E1\n",
        ),
    ];
    for (script, output) in cases {
        let (answer, written) = replayed(&rt, script);
        assert_eq!(rt; answer, Ok(Outcome::Stopped));
        assert_eq!(rt; written.as_slice(), output);
    }
}

#[test]
fn first_faults(rt: HostRuntime) {
    let last = ONE_CALL.len() - 1;
    let cases: [(&[u8], u32, Cause); 13] = [
        (b"", 1, Cause::Cut),
        (b"smp 1 replay\n", 2, Cause::Cut),
        (&ONE_CALL[..last], 11, Cause::Cut),
        (b"smp 1 replay\ncpus 9 0\n", 2, Cause::Range),
        (b"smp 1 replay\ncpus 2 -\n", 2, Cause::Range),
        (b"smp 1 replay\ncpus 2 0,2\n", 2, Cause::Range),
        (b"smp 1 replay\ncpus 2 0-\n", 2, Cause::Mask),
        (b"smp 1 replay\ncpus 02 0\n", 2, Cause::Number),
        (
            b"smp 1 replay\ncpus 2 0\nstart 0 post 0 1 sync 65536 0 1\n",
            3,
            Cause::Range,
        ),
        (b"smp 1 replay\ncpus 2 0\nstart 0 send\n", 3, Cause::Word),
        (b"smp 1 replay\ncpus 2 0\nstep 0 10001\n", 3, Cause::Range),
        (
            b"smp 1 replay\ncpus 2 0-1\nshow\nstep 0 0\n",
            4,
            Cause::Range,
        ),
        (b"smp 1 replay\ncpus 2 0-1\njump 0\n", 3, Cause::Word),
    ];
    for (text, line, cause) in cases {
        let (answer, written) = replayed(&rt, text);
        assert_eq!(rt; answer, Err(SmpError::BadScript { line, cause }));
        assert!(rt; written.is_empty());
    }
}

const FRONT: &[u8] = b"smp 1 replay\ncpus 1 0\n";

// 65,536 bytes (a list of one CPU, again and again), 100,000 events and 2,000 lines are taken, one more is not.
#[test]
fn largest_scripts(rt: HostRuntime) {
    let list: &[u8] = b"smp 1 replay\ncpus 1 ";
    let idle: &[u8] = b"stopped 0 E10\n";
    let stops = Ok(Outcome::Stopped);
    let cases: [(&[u8], &[u8], u32, &[u8], Result<Outcome, u32>, &[u8]); 6] = [
        (list, b"0,", 32_757, b"0\n", Ok(Outcome::Done), b""),
        (list, b"0,", 32_757, b"0\n\n", Err(0), b""),
        (FRONT, b"step 0 10000\n", 10, b"", stops, idle),
        (FRONT, b"step 0 10000\n", 11, b"", Err(13), b""),
        (FRONT, b"step 0 1\n", 1998, b"", stops, idle),
        (FRONT, b"step 0 1\n", 1999, b"", Err(2001), b""),
    ];
    for (left, piece, times, tail, outcome, output) in cases {
        let mut reader = Watched::new(Again {
            left,
            piece,
            times,
            tail,
        });
        let mut writer = Watched::new(Vec::new(rt.alloc()));
        let answer = replay_script(rt.alloc(), &mut reader, &mut writer);
        let cause = Cause::TooLong;
        let expected = outcome.map_err(|line| SmpError::BadScript { line, cause });
        assert_eq!(rt; answer, expected);
        assert_eq!(rt; writer.into_inner().as_slice(), output);
    }
}

/// The lines that end in a text.
fn lines_in(text: &[u8]) -> u32 {
    let mut lines = 0u32;
    for byte in text {
        if *byte == b'\n' {
            lines = lines.wrapping_add(1);
        }
    }
    lines
}

#[test]
fn each_prefix(rt: HostRuntime) {
    for length in 0..ONE_CALL.len() {
        let prefix = &ONE_CALL[..length];
        let lines = lines_in(prefix);
        let (answer, written) = replayed(&rt, prefix);
        if lines >= 2 && prefix.ends_with(b"\n") {
            assert_eq!(rt; answer, Ok(Outcome::Done));
            assert!(rt; ITS_OUTPUT.starts_with(written.as_slice()));
        } else {
            let line = lines.wrapping_add(1);
            let cause = Cause::Cut;
            assert_eq!(rt; answer, Err(SmpError::BadScript { line, cause }));
            assert!(rt; written.is_empty());
        }
    }
}

#[test]
fn each_read_fails_in_turn(rt: HostRuntime) {
    let mut done = false;
    for fails_at in 0..170 {
        let slow = Slow {
            left: ONE_CALL,
            reads: 0,
            fails_at,
        };
        let mut reader = Watched::new(slow);
        let mut writer = Watched::new(Vec::new(rt.alloc()));
        let answer = replay_script(rt.alloc(), &mut reader, &mut writer);
        let written = writer.into_inner();
        if reader.failed() {
            assert_eq!(rt; answer, Err(SmpError::StreamFailed(Side::Read)));
            assert!(rt; written.is_empty());
        } else {
            assert_eq!(rt; answer, Ok(Outcome::Done));
            assert_eq!(rt; written.as_slice(), ITS_OUTPUT);
            done = true;
        }
    }
    assert!(rt; done);
}

#[test]
fn each_write_fails_in_turn(rt: HostRuntime) {
    // a write for each byte, and a flush
    let calls = ITS_OUTPUT.len() + 1;
    for fails_at in 0..=calls {
        let narrow = Narrow {
            taken: Vec::new(rt.alloc()),
            writes: 0,
            fails_at,
        };
        let mut reader = Watched::new(ONE_CALL);
        let mut writer = Watched::new(narrow);
        let answer = replay_script(rt.alloc(), &mut reader, &mut writer);
        let failed = writer.failed();
        let written = writer.into_inner().taken;
        if fails_at < calls {
            assert!(rt; failed);
            assert_eq!(rt; answer, Err(SmpError::StreamFailed(Side::Write)));
            assert_eq!(rt; written.len(), fails_at);
            assert!(rt; ITS_OUTPUT.starts_with(written.as_slice()));
        } else {
            assert!(rt; !failed);
            assert_eq!(rt; answer, Ok(Outcome::Done));
            assert_eq!(rt; written.as_slice(), ITS_OUTPUT);
        }
    }
}

// Whether a heap of this number of blocks of 16 bytes is enough for a call; `None` where it answers anything but its
// output, or the want of memory with nothing written, or keeps some of the heap.
fn is_enough(rt: &HostRuntime, blocks: usize) -> Result<Option<bool>, Fail> {
    let heap = LocalHeap::new(rt.alloc(), blocks.wrapping_mul(16))?;
    let mut reader = Watched::new(ONE_CALL);
    let mut writer = Watched::new(Vec::new(rt.alloc()));
    let answer = replay_script(&heap, &mut reader, &mut writer);
    let written = writer.into_inner();
    if heap.used() > 0 {
        return Ok(None);
    }
    Ok(match answer {
        Ok(Outcome::Done) if written.as_slice() == ITS_OUTPUT => Some(true),
        Err(SmpError::NoMemory) if written.is_empty() => Some(false),
        _ => None,
    })
}

// The growths of the script come first, then one for each of the table's parts, and then those of the output.
#[test]
fn each_growth_may_be_refused(rt: HostRuntime) -> Result<(), Fail> {
    let mut few = 0usize;
    let mut enough = 1usize << 17;
    assert_eq!(rt; is_enough(&rt, enough)?, Some(true));
    for _ in 0..20 {
        let blocks = few / 2 + enough / 2;
        let found = is_enough(&rt, blocks)?;
        assert!(rt; found.is_some());
        if found == Some(true) {
            enough = blocks;
        } else {
            few = blocks;
        }
    }
    for step in 0..200usize {
        assert_eq!(rt; is_enough(&rt, step)?, Some(false));
        assert_eq!(rt; is_enough(&rt, few / 200 * step)?, Some(false));
        assert_eq!(rt; is_enough(&rt, few.saturating_sub(step))?, Some(false));
    }
    Ok(())
}
