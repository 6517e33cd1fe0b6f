use crate::tests::search::once;
use explore::{
    Atom, Conditions, Expected, Line, ManyThreads, Most, Part, Start, UnwatchedBy, Verdict,
    are_blind, explore_merged, is_blind,
};
use smp_core::{Class, Command, Core, Note, Word};
use smp_mask::SmpError;
use std::alloc::Global;
use std::test::*;
use std::thread::Threads;

// What a search said: how many states and steps there are, and how deep they are; or a schedule of a break. Nothing where
// it met a limit, or the expectations are not blind.
#[derive(Drop)]
enum Found {
    All(usize, u64, usize),
    Broken(Vec<u32, Global>),
    Nothing,
}

fn explored<R: Threads + Sync>(
    by: (&R, Global),
    cpus: &str,
    lines: &[Line],
    expected: &[Expected<'_>],
) -> Result<Found, SmpError> {
    if !are_blind(expected) {
        return Ok(Found::Nothing);
    }
    let (rt, alloc) = by;
    let core = Core::new(alloc, 4, cpus.parse()?)?;
    let most = Most {
        states: 10000,
        bytes: 100000000,
    };
    let all = Conditions { expected };
    let start = Start { core, lines };
    let mut watch = UnwatchedBy(ManyThreads { rt, threads: 3 });
    Ok(match explore_merged(alloc, start, all, most, &mut watch)? {
        Verdict::All {
            states,
            steps,
            depth,
        } => Found::All(states, steps, depth),
        Verdict::Broken(schedule) => Found::Broken(schedule),
        Verdict::Limit(_) => Found::Nothing,
    })
}

// A post of one call to this CPU.
fn post_to(cpu: u32, to: u32) -> Line {
    once(cpu, Command::Post(0, to, Class::Sync, 5, 42, 3))
}

fn is_all(found: Found, states: usize, steps: u64, depth: usize) -> bool {
    match found {
        Found::All(s, t, d) => s == states && t == steps && d == depth,
        _ => false,
    }
}

fn is_broken_by(found: Found, schedule: &[u32]) -> bool {
    match found {
        Found::Broken(found) => found.as_slice() == schedule,
        _ => false,
    }
}

// Three CPUs post to a fourth. By single steps there are 1,064 states and 2,514 steps, and the
// farthest is 27 steps away.
#[test]
fn three_posts(rt: HostRuntime) -> Result<(), SmpError> {
    let lines = [post_to(0, 3), post_to(1, 3), post_to(2, 3)];
    let found = explored((&rt, rt.alloc()), "0-3", &lines, &[Expected::Goes])?;
    assert!(rt; is_all(found, 156, 279, 10));
    Ok(())
}

// Two CPUs post to a third, which handles. By single steps there are 1,107 states and 2,282 steps, and the farthest is 44
// steps away.
#[test]
fn posts_and_handles(rt: HostRuntime) -> Result<(), SmpError> {
    let lines = [
        post_to(0, 2),
        once(0, Command::Send(2)),
        once(1, Command::Post(0, 2, Class::Sync, 6, 43, 3)),
        once(1, Command::Send(2)),
        Line {
            cpu: 2,
            command: Command::Handle,
            again: None,
            between: None,
            number: 0,
        },
        once(2, Command::Handle),
    ];
    let found = explored((&rt, rt.alloc()), "0-2", &lines, &[Expected::Goes])?;
    assert!(rt; is_all(found, 376, 703, 22));
    Ok(())
}

// A break is told by its single steps: all steps of a post.
#[test]
fn a_break(rt: HostRuntime) -> Result<(), SmpError> {
    let lines = [post_to(1, 3)];
    let parts = [Part::Is(Atom::Queue(3, 1))];
    let found = explored(
        (&rt, rt.alloc()),
        "0-3",
        &lines,
        &[Expected::Goes, Expected::Never(&parts)],
    )?;
    assert!(rt; is_broken_by(found, [1, 1, 1, 1, 1, 1, 1, 1].as_slice()));
    Ok(())
}

// An expectation is not blind that asks for a function, or for what a step said.
#[test]
fn not_blind(rt: HostRuntime) {
    let parts = [Part::IsNot(Atom::Word(Word::Func(0), 5))];
    assert!(rt; !is_blind(&Expected::Always(&parts)));
    assert!(rt; is_blind(&Expected::Finally(&parts)));
    let parts = [
        Part::Is(Atom::Word(Word::Head(3), 1)),
        Part::Or,
        Part::Is(Atom::Said(Note::Owed)),
    ];
    assert!(rt; !is_blind(&Expected::Never(&parts)));
}
