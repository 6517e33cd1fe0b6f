use super::line::Line::{Begin, Goes, Holds, Phase, Queue, Refused, Stands, Steps, Tally};
use super::line::*;
use super::*;

fn asynchronous(k: u32, to: u32, func: u16) -> Command {
    Command::Post(k, to, Class::Async, func, 0, 1)
}

fn synchronous(k: u32, to: u32, func: u16) -> Command {
    Command::Post(k, to, Class::Sync, func, 0, 1)
}

// CPU 0 queues a call of CPU 1 and sends the interrupt.
fn one_post() -> [Line; 12] {
    [
        Begin(0, Command::Post(0, 1, Class::Sync, 7, 42, 1)),
        load(0, Word::Flags(0), 0),
        store(0, Word::Flags(0), 17),
        store(0, Word::Func(0), 7),
        store(0, Word::Info(0), 42),
        store(0, Word::Queued(0, 1), 1),
        load(0, Word::Head(1), 0),
        store(0, Word::Next(0), 0),
        noted(cas(0, Word::Head(1), 0, Some(1)), Note::Owed),
        Stands(0, RecPlace::Queued(1)),
        Begin(0, Command::Send(1)),
        noted(store(0, Word::Intr(1), 1), Note::Sent),
    ]
}

#[test]
fn one_sync_call(rt: HostRuntime) -> Result<(), Fail> {
    let handle = [
        Queue(1, Some(0), None),
        Begin(1, Command::Handle),
        store(1, Word::Hand(1), 1),
        swap(1, Word::Intr(1), 1, 0),
        swap(1, Word::Head(1), 1, 0),
        Stands(0, RecPlace::Batch(1)),
        load(1, Word::Next(0), 0),
        Stands(0, RecPlace::Batch(1)),
        store(1, Word::Next(0), 0),
        load(1, Word::Next(0), 0),
        load(1, Word::Flags(0), 17),
        load(1, Word::Func(0), 7),
        load(1, Word::Info(0), 42),
        Stands(0, RecPlace::Batch(1)),
        noted(store(1, Word::Hand(1), 2), Note::Call(0, 7, 42)),
        Stands(0, RecPlace::Running(1)),
        store(1, Word::Ran(1, 0), 1),
        store(1, Word::Flags(0), 0),
        noted(store(1, Word::Hand(1), 0), Note::Handled(1)),
        Begin(0, Command::Done(0)),
        noted(load(0, Word::Flags(0), 0), Note::Done),
        Stands(0, RecPlace::Free),
        Tally(0, 1, (1, 1)),
        Queue(1, None, None),
    ];
    play(&rt, &[&one_post(), &handle], core_of(rt.alloc(), 2)?);
    Ok(())
}

// CPU 0 queues ASYNC, SYNC, ASYNC and SYNC calls of CPU 1, which takes them.
fn four_posts() -> [Line; 9] {
    [
        Goes(0, asynchronous(1, 1, 1), 8, Note::Owed),
        Goes(0, synchronous(0, 1, 2), 8, Note::Queued),
        Goes(0, asynchronous(10, 1, 3), 8, Note::Queued),
        Goes(0, synchronous(3, 1, 4), 8, Note::Queued),
        Goes(0, Command::Send(1), 1, Note::Sent),
        Begin(1, Command::Handle),
        store(1, Word::Hand(1), 1),
        swap(1, Word::Intr(1), 1, 0),
        swap(1, Word::Head(1), 4, 0),
    ]
}

// An interrupt with no call: the drain takes nothing, and no record is touched.
#[test]
fn a_drain_of_nothing(rt: HostRuntime) -> Result<(), Fail> {
    let lines = [
        Goes(0, Command::Send(1), 1, Note::Sent),
        Begin(1, Command::Handle),
        store(1, Word::Hand(1), 1),
        swap(1, Word::Intr(1), 1, 0),
        swap(1, Word::Head(1), 0, 0),
        noted(store(1, Word::Hand(1), 0), Note::Handled(0)),
    ];
    play(&rt, &[&lines], core_of(rt.alloc(), 2)?);
    Ok(())
}

// The interrupt of a call is taken for another's, which comes first; its own finds nothing.
#[test]
fn another_interrupts_first(rt: HostRuntime) -> Result<(), Fail> {
    let lines = [
        Goes(0, asynchronous(10, 1, 1), 8, Note::Owed),
        Goes(2, Command::Send(1), 1, Note::Sent),
        Goes(1, Command::Handle, 13, Note::Handled(1)),
        Goes(0, Command::Send(1), 1, Note::Sent),
        Goes(1, Command::Handle, 4, Note::Handled(0)),
    ];
    play(&rt, &[&lines], core_of(rt.alloc(), 3)?);
    Ok(())
}

// So many steps, and then where the records 1, 0, 10 and 3 are.
fn places_after(steps: u32, places: [RecPlace; 4]) -> [Line; 5] {
    [
        Steps(1, steps),
        Stands(1, places[0]),
        Stands(0, places[1]),
        Stands(10, places[2]),
        Stands(3, places[3]),
    ]
}

// Each record is in the batch until its call begins, wherever the walk is.
fn places_of_four() -> [[Line; 5]; 8] {
    let (batch, running, free) = (RecPlace::Batch(1), RecPlace::Running(1), RecPlace::Free);
    [
        places_after(7, [batch, batch, batch, batch]),
        places_after(8, [batch, batch, batch, batch]),
        places_after(1, [batch, running, batch, batch]),
        places_after(2, [batch, free, batch, batch]),
        places_after(7, [batch, free, batch, batch]),
        places_after(1, [batch, free, batch, running]),
        places_after(5, [batch, free, batch, free]),
        places_after(1, [free, free, batch, free]),
    ]
}

#[test]
fn places_inside_a_drain(rt: HostRuntime) -> Result<(), Fail> {
    let (posts, places) = (four_posts(), places_of_four());
    play(
        &rt,
        &[&posts, places.as_flattened()],
        core_of(rt.alloc(), 2)?,
    );
    Ok(())
}

// The head is what the post has found there, but over another chain.
#[test]
fn the_head_equal_again(rt: HostRuntime) -> Result<(), Fail> {
    let lines = [
        Goes(1, asynchronous(10, 2, 1), 8, Note::Owed),
        Goes(1, Command::Send(2), 1, Note::Sent),
        Begin(0, asynchronous(10, 2, 2)),
        Steps(0, 6),
        store(0, Word::Next(10), 23),
        Stands(10, RecPlace::Held),
        Begin(2, Command::Handle),
        Steps(2, 10),
        noted(store(2, Word::Flags(22), 0), Note::Call(1, 1, 0)),
        Steps(2, 1),
        noted(store(2, Word::Hand(2), 0), Note::Handled(1)),
        Begin(1, asynchronous(10, 2, 3)),
        Steps(1, 7),
        noted(cas(1, Word::Head(2), 0, Some(23)), Note::Owed),
        noted(cas(0, Word::Head(2), 23, Some(11)), Note::Queued),
        Queue(2, Some(22), Some(10)),
        Holds(Word::Flags(10), Some(1)),
        Holds(Word::Flags(1151), Some(0)),
        Holds(Word::Flags(1152), None),
        Phase(0, 0),
    ];
    play(&rt, &[&lines], core_of(rt.alloc(), 3)?);
    Ok(())
}

// A record for a far destination, by the last CPU; and the last record of the first.
#[test]
fn records_of_thirty_two_cpus(rt: HostRuntime) -> Result<(), Fail> {
    let lines = [
        Begin(31, asynchronous(12, 8, 1)),
        load(31, Word::Flags(1128), 0),
        store(31, Word::Flags(1128), 1),
        store(31, Word::Func(1128), 1),
        store(31, Word::Info(1128), 0),
        store(31, Word::Queued(31, 8), 1),
        load(31, Word::Head(8), 0),
        store(31, Word::Next(1128), 0),
        noted(cas(31, Word::Head(8), 0, Some(1129)), Note::Owed),
        Begin(0, asynchronous(35, 31, 1)),
        Steps(0, 6),
        store(0, Word::Next(407), 0),
        noted(cas(0, Word::Head(31), 0, Some(408)), Note::Owed),
        Stands(1128, RecPlace::Queued(8)),
        Stands(407, RecPlace::Queued(31)),
    ];
    play(&rt, &[&lines], core_of(rt.alloc(), 32)?);
    Ok(())
}

// A record for a destination that is not below the number of CPUs, and one that is none, are refused.
#[test]
fn records_that_a_source_has_not(rt: HostRuntime) -> Result<(), Fail> {
    let lines = [
        Goes(0, asynchronous(12, 8, 1), 8, Note::Owed),
        Refused(0, asynchronous(13, 9, 1), SmpError::BadArgument),
        Refused(0, Command::Done(13), SmpError::BadArgument),
        Refused(0, Command::Done(36), SmpError::BadArgument),
        Goes(0, Command::Done(12), 1, Note::Locked),
    ];
    play(&rt, &[&lines], core_of(rt.alloc(), 9)?);
    Ok(())
}
