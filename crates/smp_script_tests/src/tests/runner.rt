use smp_mask::{Cause, Side, SmpError};
use smp_run::command_line::{RunRequest, read_words};
use smp_run::runner::{run_file, run_from, tell};
use smp_run::status::{Refusal, status_of};
use smp_script::{Mode, Outcome, Watched};
use std::alloc::Global;
use std::cell::RefCell;
use std::fmt::Display;
use std::io;
use std::io::{Eprint, Error, ErrorKind};
use std::sync::Wait;
use std::test::*;
use std::thread::Threads;

/// How a script of memory ends, and what it writes.
fn played<T: Threads + Wait + Sync>(
    threads: &T,
    alloc: Global,
    mode: Mode,
    script: &[u8],
) -> (Result<Outcome, SmpError>, Vec<u8, Global>) {
    let mut reader = Watched::new(script);
    let mut writer = Watched::new(Vec::new(alloc));
    let answer = run_from(threads, alloc, mode, &mut reader, &mut writer);
    (answer, writer.into_inner())
}

#[test]
fn the_kind_is_the_first_word(rt: HostRuntime) {
    for (word, mode) in [("replay", Mode::Replay), ("run", Mode::Run)] {
        let words = ["smp_runner", word, "a.smp"];
        let request = read_words(rt.alloc(), &words);
        assert_eq!(rt;
            request.map(|r| (r.mode, r.file)),
            Ok((mode, Some("a.smp")))
        );
        let words = ["smp_runner", word];
        let request = read_words(rt.alloc(), &words);
        assert_eq!(rt; request.map(|r| (r.mode, r.file)), Ok((mode, None)));
    }
}

#[test]
fn statuses_of_scripts(rt: HostRuntime) {
    let cases: [(Mode, &[u8], u8); 8] = [
        (Mode::Replay, b"smp 1 replay\ncpus 1 0\nshow\n", 0),
        (Mode::Replay, b"smp 1 replay\ncpus 1 0\nstep 0 1\n", 1),
        (Mode::Replay, b"smp 1 replay\ncpus 1 0\nstep 0 0\n", 1),
        (Mode::Replay, b"smp 1 run\ncpus 1 0\n", 1),
        (Mode::Replay, b"", 1),
        (Mode::Run, b"smp 1 run\ncpus 2 0\ndo 0 1 sync 1 1 0\n", 0),
        (Mode::Run, b"smp 1 run\ncpus 2 0\ndo 1 1 sync 0 1 0\n", 1),
        (Mode::Run, b"smp 1 replay\ncpus 1 0\nshow\n", 1),
    ];
    for (mode, script, status) in cases {
        let (answer, _written) = played(&rt, rt.alloc(), mode, script);
        assert_eq!(rt; status_of(answer.map_err(|e| Refusal::Failed(e))), status);
    }
}

// A call of each class, a stop and a key that is turned: all that a run prints is there, or no memory and nothing.
#[test]
fn a_run_prints_all_or_nothing(rt: HostRuntime) {
    let script: &[u8] =
        b"smp 1 run\ncpus 3 0-2\nlabels 1 0:1\ndo 0 3 sync 1 7 42\ndo 2 2 many nowait 0-2 8 0\ndo 1 1 machine none 5 9\ndo 0 1 set 0 on\n";
    let print: &[u8] =
        b"4 ok\n5 0-1\n6 9\n7 true\ntally 0 1 3 3\ntally 0 2 0 0\ntally 1 0 0 0\ntally 1 2 0 0\ntally 2 0 2 2\ntally 2 1 2 2\nkey 0 on\nsite 0 NOP\ndrained\n";
    let mut page = [0u8; 200];
    let mut reader = Watched::new(script);
    let mut writer = Watched::new(page.as_mut_slice());
    let answer = run_from(&rt, rt.alloc(), Mode::Run, &mut reader, &mut writer);
    let room = writer.into_inner().len();
    match answer {
        Ok(outcome) => {
            assert_eq!(rt; outcome, Outcome::Done);
            assert_eq!(rt; room.checked_add(print.len()), Some(200));
            assert!(rt; page.starts_with(print));
        }
        Err(error) => {
            assert_eq!(rt; error, SmpError::NoMemory);
            assert_eq!(rt; room, 200);
        }
    }
}

#[test]
fn statuses_of_refusals(rt: HostRuntime) {
    let cause = Cause::Cut;
    for error in [
        SmpError::NoMemory,
        SmpError::StreamFailed(Side::Read),
        SmpError::StreamFailed(Side::Write),
        SmpError::BadScript { line: 0, cause },
    ] {
        assert_eq!(rt; status_of(Err(Refusal::Failed(error))), 1);
    }
    assert_eq!(rt; status_of(Err(Refusal::Usage)), 2);
}

/// Keeps what it is told.
#[derive(Drop)]
struct Told {
    text: RefCell<String<Global>>,
}

impl Eprint for Told {
    fn eprint<D: Display + Drop>(&self, value: D) -> io::Result<()> {
        let Ok(mut text) = self.text.try_borrow_mut() else {
            return Err(Error::from(ErrorKind::Other));
        };
        match write!(text, "{value}") {
            Ok(()) => Ok(()),
            Err(_) => Err(Error::from(ErrorKind::Other)),
        }
    }

    fn eprintln<D: Display + Drop>(&self, value: D) -> io::Result<()> {
        self.eprint(format_args!("{value}\n"))
    }
}

#[test]
fn each_refusal_is_told_in_a_line(rt: HostRuntime) {
    let line = 7;
    let cause = Cause::SharedKey;
    let cases = [
        (Refusal::Usage, "usage: smp_runner replay|run [FILE]\n"),
        (
            Refusal::Failed(SmpError::NoMemory),
            "smp_runner: E6 no memory\n",
        ),
        (
            Refusal::Failed(SmpError::StreamFailed(Side::Read)),
            "smp_runner: E12 read failed\n",
        ),
        (
            Refusal::Failed(SmpError::StreamFailed(Side::Write)),
            "smp_runner: E12 write failed\n",
        ),
        (
            Refusal::Failed(SmpError::BadScript { line, cause }),
            "smp_runner: E9 line 7 SharedKey\n",
        ),
    ];
    for (refusal, wanted) in cases {
        let told = Told {
            text: RefCell::new(String::new(rt.alloc())),
        };
        assert!(rt; tell(&told, refusal).is_ok());
        let Told { text } = told;
        assert_eq!(rt; text.into_inner().as_str(), wanted);
    }
}

#[test]
fn a_file_that_is_none(rt: HostRuntime) {
    for mode in [Mode::Replay, Mode::Run] {
        let file = Some("no/such/file");
        let answer = run_file(&rt, &rt, RunRequest { mode, file });
        assert_eq!(rt; answer, Err(SmpError::StreamFailed(Side::Read)));
    }
}

#[test]
fn words_that_are_none_of_this_program(rt: HostRuntime) {
    let cases: [&[&str]; 7] = [
        &[],
        &["smp_runner"],
        &["smp_runner", "jump"],
        &["smp_runner", "replay", "one", "two"],
        &["smp_runner", "run", "one", "two"],
        &["smp_runner", "replay", "--fast"],
        &["smp_runner", "--help"],
    ];
    for words in cases {
        assert_eq!(rt; read_words(rt.alloc(), words).err(), Some(Refusal::Usage));
    }
}
