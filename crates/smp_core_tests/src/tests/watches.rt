//! Watches of a search, and walks by picks.

use crate::tests::search::{NOTHING, once, post, states, until};
use explore::walk::walk;
use explore::{
    Answered, Atom, Conditions, Expected, ManyThreads, Part, Start, Verdict, WalkEnd, Walked,
    Watch, explore, explore_each,
};
use smp_core::{Command, Core, RecPlace, Word};
use smp_mask::SmpError;
use std::alloc::Global;
use std::test::*;
use std::thread::Threads;

// Notes what it sees of a search by two threads.
#[derive(Drop)]
struct Noted<'r, R> {
    rt: &'r R,
    calls: u32,
    states: usize,
    steps: u64,
}

impl<'r, R: Threads + Sync> Watch for Noted<'r, R> {
    type Threading = ManyThreads<'r, R>;

    fn threading(&self) -> ManyThreads<'r, R> {
        ManyThreads {
            rt: self.rt,
            threads: 2,
        }
    }

    fn look(&mut self, states: usize, steps: u64) {
        self.calls = self.calls.wrapping_add(1);
        self.states = states;
        self.steps = steps;
    }
}

// A watch looks on at each of the 4 states; when the last is at hand all 4 steps are followed.
#[test]
fn a_watch_sees_each_state(rt: HostRuntime) -> Result<(), Fail> {
    let alloc = rt.alloc();
    let core = Core::new(alloc, 2, "0-1".parse()?)?;
    let lines = &[once(0, Command::Send(1)), once(1, Command::Send(0))];
    let start = Start { core, lines };
    let all = Conditions { expected: NOTHING };
    let mut noted = Noted {
        rt: &rt,
        calls: 0,
        states: 0,
        steps: 0,
    };
    explore(alloc, start, all, states(4), &mut noted)?;
    assert_eq!(rt; (noted.calls, noted.states, noted.steps), (4, 4, 4));
    Ok(())
}

// The numbers of broken expectations, in the order in which they are told.
#[derive(Drop)]
struct Breaks<'r, R> {
    rt: &'r R,
    numbers: Vec<usize, Global>,
}

impl<'r, R: Threads + Sync> Watch for Breaks<'r, R> {
    type Threading = ManyThreads<'r, R>;

    fn threading(&self) -> ManyThreads<'r, R> {
        ManyThreads {
            rt: self.rt,
            threads: 2,
        }
    }

    fn look(&mut self, _states: usize, _steps: u64) {}

    fn broken(&mut self, number: usize) {
        let _ = self.numbers.push(number);
    }
}

// How long the shortest schedule is that breaks an expectation, where one does.
fn breach(answered: &Answered<'_, Global>) -> Option<usize> {
    match &answered.verdict {
        Verdict::Broken(schedule) => Some(schedule.len()),
        _ => None,
    }
}

// One search for five expectations, of which all but the first are broken. The record is free at first, held after 2 steps,
// in the queue after 8, and its function runs after 19, so they are told in this order.
#[test]
fn each_break_is_told_by_its_number(rt: HostRuntime) -> Result<(), Fail> {
    let lines = [
        post(0, 1, 1),
        once(0, Command::Send(1)),
        until(1, Command::Handle),
    ];
    let running = [Part::Is(Atom::Place(0, RecPlace::Running(1)))];
    let held = [Part::Is(Atom::Place(0, RecPlace::Held))];
    let queued = [Part::Is(Atom::Place(0, RecPlace::Queued(1)))];
    let free = [Part::Is(Atom::Place(0, RecPlace::Free))];
    let expected = [
        Expected::Goes,
        Expected::Never(&running),
        Expected::Never(&held),
        Expected::Never(&queued),
        Expected::Never(&free),
    ];
    let mut breaks = Breaks {
        rt: &rt,
        numbers: Vec::new(rt.alloc()),
    };
    let core = Core::new(rt.alloc(), 3, "0-1".parse()?)?;
    let start = Start {
        core,
        lines: &lines,
    };
    let answers = explore_each(rt.alloc(), start, &expected, states(1_000), &mut breaks)?;
    assert_eq!(rt; breaks.numbers.as_slice(), [4, 2, 3, 1].as_slice());
    let wanted = [None, Some(19), Some(2), Some(8), Some(0)];
    assert_eq!(rt; answers.len(), wanted.len());
    for (answered, steps) in answers.iter().zip(wanted) {
        assert_eq!(rt; breach(answered), steps);
    }
    Ok(())
}

// The walk of these picks, of two CPUs that send each other an interrupt.
fn walked(alloc: Global, picks: &[u32]) -> Result<Walked<Global>, SmpError> {
    let core = Core::new(alloc, 2, "0-1".parse()?)?;
    let lines = [once(0, Command::Send(1)), once(1, Command::Send(0))];
    let never = Expected::Never(&[Part::Is(Atom::Word(Word::Intr(0), 1))]);
    walk(alloc, core, &lines, &never, picks)
}

// Each send is one step, and both CPUs can move until they have sent. The interrupt of CPU 0 is not to be expected.
#[test]
fn picks_say_who_moves(rt: HostRuntime) -> Result<(), Fail> {
    let alloc = rt.alloc();
    let cut = walked(alloc, &[6])?;
    assert_eq!(rt; cut.schedule.as_slice(), [0].as_slice());
    assert_eq!(rt; cut.end, WalkEnd::Cut);
    let broken = walked(alloc, &[6, 5, 4])?;
    assert_eq!(rt; broken.schedule.as_slice(), [0, 1].as_slice());
    assert_eq!(rt; broken.end, WalkEnd::Broken);
    let sooner = walked(alloc, &[7, 7])?;
    assert_eq!(rt; sooner.schedule.as_slice(), [1].as_slice());
    assert_eq!(rt; sooner.end, WalkEnd::Broken);
    Ok(())
}
