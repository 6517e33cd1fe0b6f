//! Tables that are given up.

use super::line::{Case, audit_after};
use super::*;

/// No calls at all.
fn no_calls() -> Tally {
    Tally {
        queued: [[0; NR_CPUS as usize]; NR_CPUS as usize],
        ran: [[0; NR_CPUS as usize]; NR_CPUS as usize],
    }
}

/// No queue and no record but these, and no CPU in `handle`.
fn left(heads: u32, locked: u32) -> Audit {
    Audit::Left(Left {
        heads,
        locked,
        handling: 0,
    })
}

#[test]
fn a_table_with_no_calls_is_drained(rt: HostRuntime) -> Result<(), Fail> {
    for (nr, cpus) in [(1, "0"), (32, "0-31")] {
        let (table, mut boot) = CallTable::new(rt.alloc(), nr, cpus.parse()?)?;
        let zero = seat(&table, &mut boot, 0)?;
        assert_eq!(rt;
            audit_by(table, zero),
            Audit::Drained(no_calls()),
            "{nr} {cpus}"
        );
    }
    Ok(())
}

#[test]
fn a_queued_call_is_left(rt: HostRuntime) -> Result<(), Fail> {
    let (table, mut boot) = CallTable::new(rt.alloc(), 2, "0-1".parse()?)?;
    let mut zero = seat(&table, &mut boot, 0)?;
    assert_eq!(rt; post_one(&table, &mut zero, 1, 1, Class::Async), Ok(true));
    assert_eq!(rt; audit_by(table, zero), left(1, 1));
    Ok(())
}

#[test]
fn each_queue_and_each_record_is_left(rt: HostRuntime) -> Result<(), Fail> {
    for (nr, online, top) in [(8, "0-7", 7), (32, "0-31", 31)] {
        let lines = [
            (1, Post(10, top - 1, Class::Async, 1, Ok(true))),
            (1, Post(11, top - 1, Class::Async, 1, Ok(false))),
            (0, Post(0, top, Class::Sync, 1, Ok(true))),
        ];
        let case = Case {
            nr,
            online,
            cpus: &[0, top],
        };
        let after = audit_after(&rt, rt.alloc(), case, 1, &lines)?;
        assert_eq!(rt; after, (None, left(2, 3)), "{nr}");
    }
    Ok(())
}

#[test]
fn the_last_records_of_the_last_cpus_are_left(rt: HostRuntime) -> Result<(), Fail> {
    let lines = [
        (0, Post(34, 30, Class::Sync, 1, Ok(true))),
        (1, Post(35, 31, Class::Async, 1, Ok(true))),
    ];
    let case = Case {
        nr: 32,
        online: "0-31",
        cpus: &[31, 30],
    };
    let after = audit_after(&rt, rt.alloc(), case, 0, &lines)?;
    assert_eq!(rt; after, (None, left(2, 2)));
    Ok(())
}
