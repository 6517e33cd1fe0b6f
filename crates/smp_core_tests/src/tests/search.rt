use explore::{
    Atom, Conditions, Expected, Limit, Line, Most, Part, Start, Unwatched, Verdict, events_of,
    explore, halts_of,
};
use smp_core::{
    Class, Command, Core, Event, Field, Kind, Note, RecPlace, Replayed, Word, Work, replay,
};
use smp_mask::{CpuMask, SmpError};
use std::alloc::Global;
use std::test::*;
use std::thread::Threads;

// How many states there are, how many steps, and how deep they are.
type Counts = (usize, u64, usize);

// What a search said: what was counted, the shortest schedule, or what there is more of than was allowed.
#[derive(Drop)]
enum Found {
    All(Counts),
    Broken(Vec<u32, Global>),
    More(Limit),
}

fn said<R: Threads + Sync>(
    by: (&R, Global),
    cpus: &str,
    lines: &[Line],
    expected: &[Expected<'_>],
    most: Most,
) -> Result<Found, SmpError> {
    let (rt, alloc) = by;
    let core = Core::new(alloc, 3, cpus.parse()?)?;
    let start = Start { core, lines };
    let all = Conditions { expected };
    let verdict = explore(alloc, start, all, most, &mut Unwatched(rt))?;
    Ok(match verdict {
        Verdict::All {
            states,
            steps,
            depth,
        } => Found::All((states, steps, depth)),
        Verdict::Broken(schedule) => Found::Broken(schedule),
        Verdict::Limit(limit) => Found::More(limit),
    })
}

// So many states, and as much memory as they take.
pub fn states(count: usize) -> Most {
    Most {
        states: count,
        bytes: usize::MAX,
    }
}

// What is counted where all is as expected.
fn counts<R: Threads + Sync>(
    by: (&R, Global),
    cpus: &str,
    lines: &[Line],
    expected: &[Expected<'_>],
) -> Result<Option<Counts>, SmpError> {
    Ok(match said(by, cpus, lines, expected, states(1_000))? {
        Found::All(counts) => Some(counts),
        _ => None,
    })
}

// The shortest schedule to a state that is not as expected.
fn broken<R: Threads + Sync>(
    by: (&R, Global),
    cpus: &str,
    lines: &[Line],
    expected: &[Expected<'_>],
) -> Result<Option<Vec<u32, Global>>, SmpError> {
    Ok(match said(by, cpus, lines, expected, states(1_000))? {
        Found::Broken(schedule) => Some(schedule),
        _ => None,
    })
}

// Nothing but that the programs go on.
pub const NOTHING: &[Expected<'static>] = &[Expected::Goes];

// A command that is made once.
pub fn once(cpu: u32, command: Command) -> Line {
    Line {
        cpu,
        command,
        again: Some(0),
        between: None,
        number: 0,
    }
}

// One that is made until it is not in vain.
pub fn until(cpu: u32, command: Command) -> Line {
    Line {
        cpu,
        command,
        again: None,
        between: None,
        number: 0,
    }
}

pub fn post(cpu: u32, to: u32, tries: u32) -> Line {
    once(cpu, Command::Post(0, to, Class::Sync, 7, 42, tries))
}

// The counts are those of another search, over another simulator of the machine.
#[test]
fn states_of_calls(rt: HostRuntime) -> Result<(), Fail> {
    let alloc = rt.alloc();
    let sends = [once(0, Command::Send(1)), once(1, Command::Send(0))];
    assert_eq!(rt;
        counts((&rt, alloc), "0-1", &sends, NOTHING)?,
        Some((4, 4, 2))
    );
    assert_eq!(rt;
        counts((&rt, alloc), "0-1", &[post(0, 1, 1)], NOTHING)?,
        Some((9, 8, 8))
    );
    let two = [post(0, 2, 2), post(1, 2, 2)];
    assert_eq!(rt;
        counts((&rt, alloc), "0-2", &two, NOTHING)?,
        Some((90, 152, 17))
    );
    let two = [post(0, 2, 1), post(1, 2, 1)];
    assert_eq!(rt;
        counts((&rt, alloc), "0-2", &two, NOTHING)?,
        Some((92, 152, 18))
    );
    let gates = [
        until(0, Command::Gate),
        once(0, Command::Ungate),
        until(1, Command::Gate),
        once(1, Command::Ungate),
    ];
    assert_eq!(rt;
        counts((&rt, alloc), "0-1", &gates, NOTHING)?,
        Some((8, 10, 4))
    );
    Ok(())
}

// A call to the other CPU that is waited for, with this between two tries, and its interrupt.
fn waiting_call(cpu: u32, to: u32, between: Option<Command>) -> [Line; 3] {
    let wait = Line {
        cpu,
        command: Command::Done(0),
        again: None,
        between,
        number: 0,
    };
    [post(cpu, to, 1), once(cpu, Command::Send(to)), wait]
}

// Two CPUs call each other and wait. The counts are those of another search, over another simulator of the machine.
#[test]
fn calls_that_are_waited_for(rt: HostRuntime) -> Result<(), Fail> {
    let alloc = rt.alloc();
    let [a, b, c] = waiting_call(0, 1, Some(Command::Handle));
    let [d, e, f] = waiting_call(1, 0, Some(Command::Handle));
    let handled = [a, b, c, d, e, f];
    assert_eq!(rt;
        counts((&rt, alloc), "0-1", &handled, NOTHING)?,
        Some((525, 1028, 50))
    );
    let [a, b, c] = waiting_call(0, 1, None);
    let [d, e, f] = waiting_call(1, 0, None);
    let waits = [a, b, c, d, e, f];
    assert_eq!(rt;
        counts((&rt, alloc), "0-1", &waits, NOTHING)?,
        Some((100, 200, 18))
    );
    Ok(())
}

// Where a CPU's command is refused, it stands at that line with the refusal; one that is inside a command stands nowhere.
#[test]
fn where_cpus_stand(rt: HostRuntime) -> Result<(), Fail> {
    let alloc = rt.alloc();
    let lines = [
        once(0, Command::Send(1)),
        once(0, Command::Ungate),
        once(1, Command::Handle),
    ];
    let core = Core::new(alloc, 2, "0-1".parse()?)?;
    let halts = halts_of(alloc, core, &lines, &[0])?;
    assert_eq!(rt; halts.len(), 2);
    assert!(rt; halts[0].cpu == 0 && halts[0].line == lines[1]);
    assert_eq!(rt; halts[0].refused, Some(SmpError::BadArgument));
    assert!(rt; halts[1].cpu == 1 && halts[1].line == lines[2]);
    assert_eq!(rt; halts[1].refused, None);
    let core = Core::new(alloc, 2, "0-1".parse()?)?;
    let halts = halts_of(alloc, core, &lines, &[0, 1])?;
    assert_eq!(rt; halts.len(), 1);
    Ok(())
}

// Two calls to one queue are both in it at the end, whatever the order.
#[test]
fn no_call_is_lost(rt: HostRuntime) -> Result<(), Fail> {
    let lines = [post(0, 2, 2), post(1, 2, 2)];
    let both = [
        Expected::Goes,
        Expected::Finally(&[Part::Is(Atom::Queue(2, 2))]),
    ];
    assert_eq!(rt;
        counts((&rt, rt.alloc()), "0-2", &lines, &both)?,
        Some((90, 152, 17))
    );
    Ok(())
}

// How soon the record of a SYNC call can be at each of its places: locked by the second step of the post, in the queue by
// its exchange, the eighth; then the send, and in the batch by the third step of the handle; its function runs after the tenth.
#[test]
fn a_record_is_at_its_places(rt: HostRuntime) -> Result<(), Fail> {
    let lines = [
        post(0, 1, 1),
        once(0, Command::Send(1)),
        until(1, Command::Handle),
    ];
    let places = [
        (RecPlace::Free, 0),
        (RecPlace::Held, 2),
        (RecPlace::Queued(1), 8),
        (RecPlace::Batch(1), 12),
        (RecPlace::Running(1), 19),
    ];
    for (place, steps) in places {
        let never = [Expected::Never(&[Part::Is(Atom::Place(0, place))])];
        let found = broken((&rt, rt.alloc()), "0-1", &lines, &never)?;
        assert_eq!(rt; found.map(|schedule| schedule.len()), Some(steps));
    }
    Ok(())
}

// A call that is posted while its target handles: at the end it has run, or an interrupt is pending.
#[test]
fn no_interrupt_is_lost(rt: HostRuntime) -> Result<(), Fail> {
    let lines = [
        post(0, 1, 1),
        once(0, Command::Send(1)),
        until(1, Command::Handle),
    ];
    let told = [
        Expected::Goes,
        Expected::Finally(&[
            Part::Is(Atom::Word(Word::Ran(1, 0), 1)),
            Part::IsNot(Atom::Word(Word::Queued(0, 1), 0)),
            Part::Or,
            Part::Is(Atom::Word(Word::Intr(1), 1)),
        ]),
    ];
    assert_eq!(rt;
        counts((&rt, rt.alloc()), "0-1", &lines, &told)?,
        Some((42, 68, 22))
    );
    Ok(())
}

// A stop of two CPUs: each order ends in its last phase.
#[test]
fn a_stop_ends(rt: HostRuntime) -> Result<(), Fail> {
    let two: CpuMask = "0-1".parse()?;
    let work = Work {
        kind: Kind::Multi,
        mask: two,
        active: CpuMask::of(0)?,
        func: 5,
        arg: 9,
    };
    let lines = [
        once(0, Command::Gate),
        once(0, Command::Begin(work)),
        once(0, Command::Enter(0)),
        until(0, Command::Advance(0)),
        until(0, Command::Advance(0)),
        until(0, Command::Advance(0)),
        until(0, Command::Advance(0)),
        once(0, Command::Finish),
        until(0, Command::Poll),
        until(1, Command::Enter(0)),
        until(1, Command::Advance(0)),
        until(1, Command::Advance(0)),
        until(1, Command::Advance(0)),
        until(1, Command::Advance(0)),
        once(1, Command::Finish),
    ];
    let over = [
        Expected::Goes,
        Expected::Finally(&[Part::Is(Atom::Word(Word::Slot(0, Field::State), 5))]),
    ];
    assert_eq!(rt;
        counts((&rt, rt.alloc()), "0-1", &lines, &over)?,
        Some((122, 234, 51))
    );
    Ok(())
}

// What these events leave of the head of CPU 2's queue, where a replay accepts them all.
fn head_after(alloc: Global, events: &[Event]) -> Result<Option<u64>, SmpError> {
    let core = Core::new(alloc, 3, "0-2".parse()?)?;
    let Replayed {
        core,
        seen: _,
        stopped,
    } = replay(alloc, core, events)?;
    if stopped.is_some() {
        return Ok(None);
    }
    Ok(core.word(Word::Head(2)))
}

// A wrong expectation: the head of a queue to which two CPUs post stays 0. The shortest way to another is one whole post,
// of the first CPU: record 0 is linked as 1.
#[test]
fn the_shortest_schedule_is_told(rt: HostRuntime) -> Result<(), Fail> {
    let alloc = rt.alloc();
    let lines = [post(0, 2, 2), post(1, 2, 2)];
    let empty = [Expected::Always(&[Part::Is(Atom::Word(Word::Head(2), 0))])];
    let schedule = broken((&rt, alloc), "0-2", &lines, &empty)?.ok_or("a schedule")?;
    assert_eq!(rt; schedule.as_slice(), [0, 0, 0, 0, 0, 0, 0, 0].as_slice());
    let core = Core::new(alloc, 3, "0-2".parse()?)?;
    let events = events_of(alloc, core, &lines, schedule.as_slice())?;
    assert_eq!(rt; events.len(), 9);
    assert_eq!(rt; head_after(alloc, events.as_slice())?, Some(1));
    Ok(())
}

// A CPU that waits for its own stop, which is not open, can't move.
#[test]
fn a_program_that_is_stuck_is_told(rt: HostRuntime) -> Result<(), Fail> {
    let alloc = rt.alloc();
    let lines = [once(0, Command::Send(1)), until(0, Command::Poll)];
    let schedule = broken((&rt, alloc), "0-1", &lines, NOTHING)?.ok_or("a schedule")?;
    assert_eq!(rt; schedule.as_slice(), [0].as_slice());
    Ok(())
}

// Two CPUs call each other and ask until their calls have run. None has, where neither handles: by another search no fewer
// steps lead there. Where CPU 1 only handles, all end.
#[test]
fn who_waits_for_ever_is_told(rt: HostRuntime) -> Result<(), Fail> {
    let alloc = rt.alloc();
    let lines = [
        post(0, 1, 1),
        once(0, Command::Send(1)),
        until(0, Command::Done(0)),
        post(1, 0, 1),
        once(1, Command::Send(0)),
        until(1, Command::Done(0)),
    ];
    let schedule = broken((&rt, alloc), "0-1", &lines, &[Expected::Ends])?.ok_or("a schedule")?;
    assert_eq!(rt; schedule.len(), 18);
    assert_eq!(rt;
        counts((&rt, alloc), "0-1", &lines, NOTHING)?,
        Some((100, 200, 18))
    );
    let handled = [lines[0], lines[1], lines[2], until(1, Command::Handle)];
    let ends = counts((&rt, alloc), "0-1", &handled, &[Expected::Ends])?;
    assert_eq!(rt; ends, Some((44, 84, 23)));
    Ok(())
}

// An interrupt is owed for the first call of a queue alone, whatever the order; two posts can't both owe one.
#[test]
fn what_a_step_said(rt: HostRuntime) -> Result<(), Fail> {
    let lines = [post(0, 2, 2), post(1, 2, 2)];
    let owed = Part::Is(Atom::Said(Note::Owed));
    let once = [
        Expected::Never(&[owed, Part::IsNot(Atom::Queue(2, 1))]),
        Expected::Never(&[
            Part::Is(Atom::Said(Note::Queued)),
            Part::IsNot(Atom::Queue(2, 2)),
        ]),
    ];
    assert_eq!(rt;
        counts((&rt, rt.alloc()), "0-2", &lines, &once)?,
        Some((90, 152, 17))
    );
    let never = [Expected::Never(&[owed])];
    let schedule = broken((&rt, rt.alloc()), "0-2", &lines, &never)?.ok_or("a schedule")?;
    assert_eq!(rt; schedule.len(), 8);
    Ok(())
}

// So many states are kept and no more: of two posts there are 90.
#[test]
fn a_limit_is_told(rt: HostRuntime) -> Result<(), Fail> {
    let lines = [post(0, 2, 2), post(1, 2, 2)];
    for (most, all) in [(0, false), (1, false), (89, false), (90, true), (91, true)] {
        let answer = said((&rt, rt.alloc()), "0-2", &lines, NOTHING, states(most))?;
        let is_as_wanted = match answer {
            Found::All(counts) => all && counts == (90, 152, 17),
            Found::More(limit) => !all && limit == Limit::States,
            Found::Broken(_) => false,
        };
        assert!(rt; is_as_wanted, "{most}");
    }
    Ok(())
}

// Two sends have 4 states: the first takes 448 bytes; after a send 24 more for the CPU that is on, and 16 for the word that
// is written, so 488; after both 528. So 1,952 in all.
#[test]
fn a_limit_of_memory_is_told(rt: HostRuntime) -> Result<(), Fail> {
    let lines = [once(0, Command::Send(1)), once(1, Command::Send(0))];
    let cases: [(usize, usize, Option<Limit>); 8] = [
        (4, 1_952, None),
        (4, usize::MAX, None),
        (4, 1_951, Some(Limit::Memory)),
        (4, 448, Some(Limit::Memory)),
        (4, 0, Some(Limit::Memory)),
        (1, 0, Some(Limit::Memory)),
        (0, 0, Some(Limit::States)),
        (3, 1_951, Some(Limit::States)),
    ];
    for (states, bytes, limit) in cases {
        let most = Most { states, bytes };
        let answer = said((&rt, rt.alloc()), "0-1", &lines, NOTHING, most)?;
        let is_as_wanted = match answer {
            Found::All(counts) => limit.is_none() && counts == (4, 4, 2),
            Found::More(found) => limit == Some(found),
            Found::Broken(_) => false,
        };
        assert!(rt; is_as_wanted, "{states} {bytes}");
    }
    Ok(())
}
