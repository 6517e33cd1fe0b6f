use super::line::Line::{Begin, Goes, Refused, Steps};
use super::line::*;
use super::stops::{slot, work};
use super::*;
use smp_labels::{Entry, LabelMap};

// Of key 0: a site with branch false, and one with branch true.
fn two_sites<A: Allocator + Copy>(alloc: A, nr: u32) -> Result<Core<A>, SmpError> {
    let key = 0;
    let labels = LabelMap::new(
        &[Entry { key, branch: false }, Entry { key, branch: true }],
        1,
    )?;
    Core::with_labels(alloc, nr, all_online(nr)?, &labels)
}

// A patch by the only CPU, which makes the change of this number to key 0, as far as its function.
fn lone_patch(change: u64) -> Result<[Line; 5], SmpError> {
    let one = CpuMask::of(0)?;
    Ok([
        Goes(0, Command::Gate, 1, Note::Gate),
        Goes(0, work(Kind::Patch, one, one, 0, change), 11, Note::Begun),
        Goes(0, Command::Enter(0), 4, Note::Entered),
        Goes(0, Command::Advance(0), 4, Note::Moved(1)),
        Goes(0, Command::Advance(0), 4, Note::Moved(2)),
    ])
}

#[test]
fn a_patch_to_the_same_count_stores_nothing(rt: HostRuntime) -> Result<(), Fail> {
    let patch = lone_patch(0)?;
    let run = [
        Begin(0, Command::Advance(0)),
        load(0, slot(Field::State), 3),
        load(0, slot(Field::Func), 0),
        load(0, slot(Field::Arg), 0),
        load(0, Word::Key(0), 0),
        sub(0, slot(Field::Ack), 1),
        store(0, slot(Field::Ack), 1),
        noted(store(0, slot(Field::State), 4), Note::Ran),
    ];
    play(&rt, &[&patch, &run], two_sites(rt.alloc(), 1)?);
    Ok(())
}

// One CPU, and sixteen sites of key 0.
fn sixteen_sites<A: Allocator + Copy>(alloc: A) -> Result<Core<A>, SmpError> {
    let entry = Entry {
        key: 0,
        branch: false,
    };
    let labels = LabelMap::new(&[entry; 16], 1)?;
    Core::with_labels(alloc, 1, all_online(1)?, &labels)
}

#[test]
fn a_patch_of_all_sites_loads_each_entry_once(rt: HostRuntime) -> Result<(), Fail> {
    let patch = lone_patch(1)?;
    let run = [
        Goes(0, Command::Advance(0), 40, Note::Ran),
        Goes(0, Command::Advance(0), 4, Note::Left),
        Goes(0, Command::Site(15), 1, Note::Jmp),
    ];
    play(&rt, &[&patch, &run], sixteen_sites(rt.alloc())?);
    Ok(())
}

// A patch of two CPUs, as far as one of them has its interrupts off.
fn half_a_patch() -> Result<[Line; 8], SmpError> {
    let patch = work(Kind::Patch, all_online(2)?, CpuMask::of(0)?, 0, 1);
    Ok([
        Goes(0, Command::Gate, 1, Note::Gate),
        Goes(0, patch, 11, Note::Begun),
        Goes(0, Command::Enter(0), 4, Note::Entered),
        Goes(1, Command::Enter(0), 4, Note::Entered),
        Goes(0, Command::Advance(0), 2, Note::Moved(1)),
        Goes(0, Command::Advance(0), 1, Note::Same),
        Goes(1, Command::Advance(0), 4, Note::Moved(1)),
        Goes(1, Command::Advance(0), 2, Note::Moved(2)),
    ])
}

#[test]
fn patch_of_two_cpus(rt: HostRuntime) -> Result<(), Fail> {
    let half = half_a_patch()?;
    let rest = [
        Goes(0, Command::Key(0), 1, Note::Off),
        Goes(0, Command::Advance(0), 4, Note::Moved(2)),
        Goes(0, Command::Advance(0), 11, Note::Ran),
        Goes(1, Command::Advance(0), 4, Note::Moved(3)),
        Goes(1, Command::Advance(0), 2, Note::Left),
        Goes(0, Command::Advance(0), 4, Note::Left),
        Goes(0, Command::Finish, 1, Note::Finished),
        Goes(0, Command::Poll, 1, Note::Pending),
        Goes(1, Command::Finish, 2, Note::Finished),
        Goes(0, Command::Poll, 2, Note::Result(0)),
        Goes(1, Command::Key(0), 1, Note::On),
        Goes(0, Command::Site(0), 1, Note::Jmp),
        Goes(1, Command::Site(1), 1, Note::Nop),
    ];
    play(&rt, &[&half, &rest], two_sites(rt.alloc(), 2)?);
    Ok(())
}

#[test]
fn interrupts_are_off_in_a_rendezvous(rt: HostRuntime) -> Result<(), Fail> {
    let half = half_a_patch()?;
    let post = Command::Post(1, 0, Class::Async, 3, 4, 1);
    let lines = [
        Refused(1, Command::Handle, SmpError::BadArgument),
        Refused(1, Command::Key(0), SmpError::BadArgument),
        Refused(1, Command::Site(1), SmpError::BadArgument),
        Refused(0, Command::Finish, SmpError::BadArgument),
        Goes(1, post, 8, Note::Owed),
        Goes(1, Command::Send(0), 1, Note::Sent),
        Goes(1, Command::Done(1), 1, Note::Locked),
        Goes(1, Command::Gate, 1, Note::Taken),
        Goes(0, Command::Handle, 13, Note::Handled(1)),
    ];
    play(&rt, &[&half, &lines], two_sites(rt.alloc(), 2)?);
    Ok(())
}

#[test]
fn begin_refuses_patches_in_order(rt: HostRuntime) -> Result<(), Fail> {
    let all = all_online(2)?;
    let first = CpuMask::of(0)?;
    let offline = first.with(2)?;
    let bad = SmpError::BadArgument;
    let lines = [
        Begin(0, Command::Gate),
        Steps(0, 1),
        Refused(0, work(Kind::Patch, offline, first, 0, 1), bad),
        Refused(0, work(Kind::Patch, all, all, 0, 1), bad),
        Refused(0, work(Kind::Patch, all, first, 1, 1), bad),
        Refused(0, work(Kind::Patch, all, first, 0, 4), bad),
    ];
    play(&rt, &[&lines], two_sites(rt.alloc(), 2)?);
    Ok(())
}
