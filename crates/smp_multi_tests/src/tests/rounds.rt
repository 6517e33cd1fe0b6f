//! Stops of several CPUs, on one thread.

use super::line::Act::*;
use super::line::{Line, play_stops};
use super::*;

/// CPU 0 opens this stop and enters it.
fn opening(work: Work) -> [Line; 4] {
    [
        (0, Gate(true)),
        (0, Begin(work, Ok(()))),
        (0, Open(Ok(()))),
        (0, Enter(0, Ok(Kind::Multi))),
    ]
}

/// A CPU that is in no stop of several CPUs makes no turn of one, and completes none.
const OUTSIDE: [Line; 2] = [(0, Advance(Err(BAD))), (0, Finish(Err(BAD)))];

/// A turn of a CPU that stops alone, and whether its interrupts are on then; it could not complete before.
fn turn_alone(turn: Turn, are_on: bool) -> [Line; 3] {
    [
        (0, Finish(Err(BAD))),
        (0, Advance(Ok(turn))),
        (0, Interrupts(are_on)),
    ]
}

/// A CPU that has left its stop completes it, once.
const END_ALONE: [Line; 6] = [
    (0, Advance(Err(BAD))),
    (0, Poll(Ok(None))),
    (0, Finish(Ok(()))),
    (0, Finish(Err(BAD))),
    (0, Poll(Ok(Some(7)))),
    (0, Called(1, (0, 9, 5))),
];

#[test]
fn a_cpu_stops_alone(rt: HostRuntime) -> Result<(), Fail> {
    let work = Work {
        func: 9,
        arg: 5,
        ..multi("0", "0")?
    };
    let parts: [&[Line]; 8] = [
        &[(0, Answer(7))],
        &OUTSIDE,
        &opening(work),
        &turn_alone(Turn::Moved(1), true),
        &turn_alone(Turn::Moved(2), false),
        &turn_alone(Turn::Ran, false),
        &turn_alone(Turn::Left, true),
        &END_ALONE,
    ];
    assert_eq!(rt; play_stops(rt.alloc(), 1, &parts)?, None);
    Ok(())
}

// A CPU in a stop of one CPU makes no turn of it.
#[test]
fn a_stop_of_one_cpu_has_no_turns(rt: HostRuntime) -> Result<(), Fail> {
    let lines = [
        (0, Answer(-7)),
        (0, Gate(true)),
        (0, Begin(one(0, 1, 0)?, Ok(()))),
        (0, Enter(0, Ok(Kind::One))),
        (0, Advance(Err(BAD))),
        (0, Finish(Err(BAD))),
        (0, Run(Ok(-7))),
    ];
    assert_eq!(rt; play_stops(rt.alloc(), 1, &[&lines])?, None);
    Ok(())
}

// CPU 1 alone is active: CPU 0 acknowledges RUN with no call.
#[test]
fn an_inactive_cpu_calls_nothing(rt: HostRuntime) -> Result<(), Fail> {
    let turns = [
        (1, Enter(0, Ok(Kind::Multi))),
        (0, Advance(Ok(Turn::Moved(1)))),
        (0, Advance(Ok(Turn::Same))),
        (1, Advance(Ok(Turn::Moved(1)))),
        (1, Advance(Ok(Turn::Moved(2)))),
        (1, Advance(Ok(Turn::Same))),
        (0, Advance(Ok(Turn::Moved(2)))),
        (0, Advance(Ok(Turn::Moved(3)))),
        (0, Advance(Ok(Turn::Same))),
        (1, Advance(Ok(Turn::Ran))),
        (1, Advance(Ok(Turn::Left))),
        (0, Advance(Ok(Turn::Left))),
        (0, Finish(Ok(()))),
        (0, Poll(Ok(None))),
        (1, Finish(Ok(()))),
        (0, Poll(Ok(Some(9)))),
        (0, Called(1, (1, 1, 0))),
    ];
    let opened = opening(multi("0-1", "1")?);
    assert_eq!(rt; play_stops(rt.alloc(), 2, &[&opened, &turns])?, None);
    Ok(())
}
