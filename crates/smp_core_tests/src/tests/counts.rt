use super::line::Line::{Begin, Goes, Holds, Refused};
use super::line::*;
use super::stops::{slot, work};
use super::*;
use smp_labels::{Change, Entry, LabelMap};

// One key with one site.
fn one_key<A: Allocator + Copy>(alloc: A, nr: u32) -> Result<Core<A>, SmpError> {
    let entry = Entry {
        key: 0,
        branch: false,
    };
    Core::with_labels(alloc, nr, all_online(nr)?, &LabelMap::new(&[entry], 1)?)
}

const GATE: Line = Goes(0, Command::Gate, 1, Note::Gate);

// A patch by the only CPU, as far as its function.
fn lone_patch(change: Change) -> Result<[Line; 4], SmpError> {
    let one = CpuMask::of(0)?;
    Ok([
        Goes(
            0,
            work(Kind::Patch, one, one, 0, change.word()),
            11,
            Note::Begun,
        ),
        Goes(0, Command::Enter(0), 4, Note::Entered),
        Goes(0, Command::Advance(0), 4, Note::Moved(1)),
        Goes(0, Command::Advance(0), 4, Note::Moved(2)),
    ])
}

// What follows its function, with this result.
fn leaves(finish: u32, answer: i32) -> [Line; 3] {
    [
        Goes(0, Command::Advance(0), 4, Note::Left),
        Goes(0, Command::Finish, finish, Note::Finished),
        Goes(0, Command::Poll, 2, Note::Result(answer)),
    ]
}

// The step of its function, and what follows that, with this result.
fn rest(run: u32, finish: u32, answer: i32) -> [Line; 4] {
    let [left, finished, result] = leaves(finish, answer);
    [
        Goes(0, Command::Advance(0), run, Note::Ran),
        left,
        finished,
        result,
    ]
}

// The step of a patch up from 0, at phase 3.
fn up_from_zero() -> [Line; 12] {
    [
        Begin(0, Command::Advance(0)),
        load(0, slot(Field::State), 3),
        load(0, slot(Field::Func), 0),
        load(0, slot(Field::Arg), 2),
        load(0, Word::Key(0), 0),
        load(0, Word::Entry(0), 1),
        load(0, Word::Entry(1), 0),
        store(0, Word::Key(0), 1),
        store(0, Word::Site(0), 1),
        sub(0, slot(Field::Ack), 1),
        store(0, slot(Field::Ack), 1),
        noted(store(0, slot(Field::State), 4), Note::Ran),
    ]
}

#[test]
fn a_nudge_needs_a_key_that_stays_on(rt: HostRuntime) -> Result<(), Fail> {
    let off = [
        Begin(0, Command::Nudge(0, true)),
        noted(load(0, Word::Key(0), 0), Note::Stop),
        Begin(0, Command::Nudge(0, false)),
        noted(load(0, Word::Key(0), 0), Note::KeyRange),
        Refused(0, Command::Nudge(1, true), SmpError::BadArgument),
        GATE,
    ];
    let (up, run, end) = (lone_patch(Change::Up)?, up_from_zero(), leaves(2, 0));
    let nudges = [
        Goes(0, Command::Site(0), 1, Note::Jmp),
        Begin(0, Command::Nudge(0, true)),
        load(0, Word::Key(0), 1),
        noted(cas(0, Word::Key(0), 1, Some(2)), Note::Done),
        Goes(0, Command::Nudge(0, false), 2, Note::Done),
        Begin(0, Command::Nudge(0, false)),
        noted(load(0, Word::Key(0), 1), Note::Stop),
    ];
    let core = one_key(rt.alloc(), 1)?;
    play(&rt, &[&off, &up, &run, &end, &nudges], core);
    Ok(())
}

#[test]
fn a_patch_down_to_zero_turns_the_key_off(rt: HostRuntime) -> Result<(), Fail> {
    let (up, down, end) = (
        lone_patch(Change::Up)?,
        lone_patch(Change::Down)?,
        rest(11, 2, 0),
    );
    let reads = [
        Goes(0, Command::Key(0), 1, Note::Off),
        Goes(0, Command::Site(0), 1, Note::Nop),
        Goes(0, Command::Nudge(0, false), 1, Note::KeyRange),
    ];
    let core = one_key(rt.alloc(), 1)?;
    play(&rt, &[&[GATE], &up, &end, &down, &end, &reads], core);
    Ok(())
}

// A patch of two CPUs that turns the key on.
fn patch_by_two() -> Result<[Line; 12], SmpError> {
    let on = work(Kind::Patch, all_online(2)?, CpuMask::of(0)?, 0, 1);
    Ok([
        Goes(0, Command::Gate, 1, Note::Gate),
        Goes(0, on, 11, Note::Begun),
        Goes(0, Command::Enter(0), 4, Note::Entered),
        Goes(1, Command::Enter(0), 4, Note::Entered),
        Goes(0, Command::Advance(0), 2, Note::Moved(1)),
        Goes(1, Command::Advance(0), 4, Note::Moved(1)),
        Goes(0, Command::Advance(0), 2, Note::Moved(2)),
        Goes(1, Command::Advance(0), 4, Note::Moved(2)),
        Goes(0, Command::Advance(0), 9, Note::Ran),
        Goes(1, Command::Advance(0), 4, Note::Moved(3)),
        Goes(0, Command::Advance(0), 2, Note::Left),
        Goes(1, Command::Advance(0), 4, Note::Left),
    ])
}

// Another CPU nudges between the load and the exchange.
#[test]
fn a_nudge_is_lost_to_another(rt: HostRuntime) -> Result<(), Fail> {
    let patch = patch_by_two()?;
    let nudges = [
        Begin(0, Command::Nudge(0, true)),
        load(0, Word::Key(0), 1),
        Goes(1, Command::Nudge(0, true), 2, Note::Done),
        noted(cas(0, Word::Key(0), 2, None), Note::Lost),
        Goes(0, Command::Nudge(0, true), 2, Note::Done),
        Holds(Word::Key(0), Some(3)),
    ];
    play(&rt, &[&patch, &nudges], one_key(rt.alloc(), 2)?);
    Ok(())
}

// The count is raised between the begin of a stop that lowers it and its run: nothing is patched.
#[test]
fn a_patch_counts_from_what_it_finds(rt: HostRuntime) -> Result<(), Fail> {
    let one = CpuMask::of(0)?;
    let (on, end) = (lone_patch(Change::On)?, rest(11, 2, 0));
    let down = work(Kind::Patch, one, one, 0, Change::Down.word());
    let nudged = [
        Goes(0, down, 11, Note::Begun),
        Goes(0, Command::Nudge(0, true), 2, Note::Done),
        Goes(0, Command::Enter(0), 4, Note::Entered),
        Goes(0, Command::Nudge(0, true), 2, Note::Done),
        Goes(0, Command::Advance(0), 4, Note::Moved(1)),
        Goes(0, Command::Advance(0), 4, Note::Moved(2)),
        Refused(0, Command::Nudge(0, true), SmpError::BadArgument),
    ];
    let short = rest(8, 2, 0);
    let counts = [Holds(Word::Key(0), Some(2)), Holds(Word::Site(0), Some(1))];
    let core = one_key(rt.alloc(), 1)?;
    play(&rt, &[&[GATE], &on, &end, &nudged, &short, &counts], core);
    Ok(())
}

#[test]
fn a_patch_at_an_edge_answers_one(rt: HostRuntime) -> Result<(), Fail> {
    let (down, end) = (lone_patch(Change::Down)?, rest(7, 3, 1));
    let count = [Holds(Word::Key(0), Some(0))];
    let core = one_key(rt.alloc(), 1)?;
    play(&rt, &[&[GATE], &down, &end, &count], core);
    Ok(())
}
