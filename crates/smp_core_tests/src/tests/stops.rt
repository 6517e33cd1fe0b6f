use super::line::Line::{Begin, Goes, Phase, Refused, Steps};
use super::line::*;
use super::*;

pub fn slot(field: Field) -> Word {
    Word::Slot(0, field)
}

pub fn work(kind: Kind, mask: CpuMask, active: CpuMask, func: u16, arg: u64) -> Command {
    Command::Begin(Work {
        kind,
        mask,
        active,
        func,
        arg,
    })
}

#[test]
fn begin_refuses_in_order(rt: HostRuntime) -> Result<(), Fail> {
    let all = all_online(2)?;
    let none = CpuMask::empty();
    let first = CpuMask::of(0)?;
    let offline = CpuMask::of(2)?;
    let both = first.with(2)?;
    let good = work(Kind::Multi, all, first, 1, 0);
    let (bad, absent) = (SmpError::BadArgument, SmpError::NoStopper);
    let lines = [
        Refused(0, good, bad),
        Begin(0, Command::Gate),
        Steps(0, 1),
        Refused(0, work(Kind::Multi, none, first, 1, 0), bad),
        Refused(0, work(Kind::One, both, first, 1, 0), bad),
        Refused(0, work(Kind::Multi, both, first, 1, 0), absent),
        Refused(0, work(Kind::One, offline, first, 1, 0), absent),
        Begin(0, good),
        Refused(0, Command::Poll, SmpError::Busy),
    ];
    play(&rt, &[&lines], Core::new(rt.alloc(), 3, all)?);
    Ok(())
}

#[test]
fn slots_are_entered_once_and_begun_once(rt: HostRuntime) -> Result<(), Fail> {
    let first = CpuMask::of(0)?;
    let stop = work(Kind::Multi, first, first, 1, 0);
    let lines = [
        Goes(0, Command::Gate, 1, Note::Gate),
        Goes(0, Command::Gate, 1, Note::Taken),
        Goes(0, stop, 11, Note::Begun),
        Goes(0, Command::Ungate, 1, Note::Open),
        Goes(1, Command::Enter(0), 1, Note::Stale),
        Goes(1, Command::Enter(5), 1, Note::Stale),
        Refused(0, stop, SmpError::SlotBusy),
        Refused(0, Command::Ungate, SmpError::BadArgument),
        Refused(0, Command::Enter(8), SmpError::Stale),
        Goes(0, Command::Enter(0), 4, Note::Entered),
        Refused(0, Command::Enter(0), SmpError::Stale),
        Refused(0, Command::RunOne(1), SmpError::BadArgument),
    ];
    play(&rt, &[&lines], core_of(rt.alloc(), 2)?);
    Ok(())
}

// The first eight slots may be entered whatever CPUs there are, and the others where there is such a CPU.
#[test]
fn slots_are_those_of_the_cpus(rt: HostRuntime) -> Result<(), Fail> {
    let first = CpuMask::of(0)?;
    let of_all = [
        Goes(8, Command::Gate, 1, Note::Gate),
        Goes(8, work(Kind::Multi, first, first, 1, 0), 11, Note::Begun),
        Goes(0, Command::Enter(8), 4, Note::Entered),
        Goes(1, Command::Enter(31), 1, Note::Stale),
        Refused(1, Command::Enter(32), SmpError::Stale),
    ];
    let of_nine = [
        Goes(0, Command::Enter(8), 1, Note::Stale),
        Refused(0, Command::Enter(9), SmpError::Stale),
    ];
    let of_two = [
        Goes(0, Command::Enter(7), 1, Note::Stale),
        Refused(0, Command::Enter(8), SmpError::Stale),
    ];
    play(&rt, &[&of_all], core_of(rt.alloc(), 32)?);
    play(&rt, &[&of_nine], core_of(rt.alloc(), 9)?);
    play(&rt, &[&of_two], core_of(rt.alloc(), 2)?);
    Ok(())
}

// Stops of one CPU each, by two CPUs for each other.
fn two_single_stops() -> Result<[Line; 8], SmpError> {
    let none = CpuMask::empty();
    let of_one = work(Kind::One, CpuMask::of(1)?, none, 3, 4);
    let of_zero = work(Kind::One, CpuMask::of(0)?, none, 5, 6);
    Ok([
        Goes(0, Command::Gate, 1, Note::Gate),
        Goes(0, of_one, 11, Note::Begun),
        Goes(0, Command::Ungate, 1, Note::Open),
        Goes(1, Command::Gate, 1, Note::Gate),
        Goes(1, of_zero, 11, Note::Begun),
        Goes(1, Command::Enter(0), 4, Note::Entered),
        Goes(0, Command::Poll, 1, Note::Pending),
        Refused(1, Command::Advance(0), SmpError::BadArgument),
    ])
}

#[test]
fn stops_of_one_cpu_each_are_open_at_once(rt: HostRuntime) -> Result<(), Fail> {
    let opening = two_single_stops()?;
    let run = [
        Phase(0, 0),
        Begin(1, Command::RunOne(-1)),
        load(1, slot(Field::Func), 3),
        noted(load(1, slot(Field::Arg), 4), Note::Run(3, 4)),
        store(1, slot(Field::Result), 4_294_967_295),
        sub(1, slot(Field::Todo), 1),
        noted(store(1, slot(Field::Done), 1), Note::Finished),
        Goes(0, Command::Poll, 2, Note::Result(-1)),
        Refused(0, Command::Poll, SmpError::BadArgument),
    ];
    play(&rt, &[&opening, &run], core_of(rt.alloc(), 2)?);
    Ok(())
}

#[test]
fn who_is_not_active_runs_nothing(rt: HostRuntime) -> Result<(), Fail> {
    let stop = work(Kind::Multi, CpuMask::of(0)?, CpuMask::of(3)?, 9, 5);
    let lines = [
        Goes(0, Command::Gate, 1, Note::Gate),
        Goes(0, stop, 11, Note::Begun),
        Goes(0, Command::Enter(0), 4, Note::Entered),
        Goes(0, Command::Advance(7), 4, Note::Moved(1)),
        Goes(0, Command::Advance(7), 4, Note::Moved(2)),
        Goes(0, Command::Advance(7), 4, Note::Moved(3)),
        Goes(0, Command::Advance(7), 4, Note::Left),
        Refused(0, Command::Advance(7), SmpError::BadArgument),
        Goes(0, Command::Finish, 2, Note::Finished),
        Goes(0, Command::Poll, 2, Note::Result(0)),
    ];
    play(&rt, &[&lines], core_of(rt.alloc(), 1)?);
    Ok(())
}
