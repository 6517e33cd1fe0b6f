//! Which records are locked while their functions run.

ghost use Rattle.std.specs.Prelude.{◌≡◌};

use super::handling::handled;
use super::*;

/// Asks, whenever it hears a call, whether the record of that call is done. Each call has the number of its record as its
/// function.
#[derive(Drop)]
struct Asker<'a> {
    source: Driver<'a>,
    /// By record: what was answered, where its call was heard.
    answers: [Option<bool>; 36],
}

impl<'a> Handler for Asker<'a> {
    ghost leads = { λ _ _ _. Unit {0} };

    fn call(&mut self, _src: u32, func: u16, _info: u64) {
        let answer = self.source.is_done(func as u32).ok();
        if let Some(kept) = self.answers.get_mut(func as usize) {
            *kept = answer;
        }
    }
}

/// Calls a CPU by a record of each kind, by `own` with this class, and lets it run these calls: the record of a SYNC call is
/// locked then, that of an ASYNC call is free.
fn asks_of_each_kind(
    rt: &impl Abort,
    asker: &mut Asker,
    target: &mut Driver,
    own: u32,
    class: Class,
) {
    let to = target.cpu.number();
    let calls = [
        (0, Class::Sync),
        (own, class),
        (1, Class::Async),
        (10, Class::Async),
        (11, Class::Async),
    ];
    for (i, (k, class)) in calls.iter().enumerate() {
        let func = u16::try_from(*k).unwrap_or(u16::MAX);
        let owed = asker.source.call(*k, to, *class, func);
        assert_eq!(rt; owed, Ok(i == 0), "{k}");
    }
    assert_eq!(rt; asker.source.send(to), Ok(()));
    assert_eq!(rt; target.handle(asker), handled(5));
    for (k, class) in calls {
        let answer = asker.answers.get(k as usize).copied();
        assert_eq!(rt; answer, Some(Some(class == Class::Async)), "{k}");
    }
}

/// A SYNC call's record is locked while its function runs, and an ASYNC call's record is free then: for records of each kind, and
/// sources below and above 8.
#[test]
fn sync_records_stay_locked_while_their_functions_run(rt: HostRuntime) -> Result<(), Fail> {
    // How many CPUs, the source, the target, and the source's record for calls to that alone.
    for (nr, cpus, source, to, own) in [
        (2, "0-1", 0, 1, 3),
        (10, "0-9", 8, 9, 13),
        (32, "0-31", 0, 31, 35),
        (32, "0-31", 30, 31, 35),
        (32, "0-31", 9, 7, 9),
        (32, "0-31", 31, 8, 12),
    ] {
        for class in [Class::Sync, Class::Async] {
            let (table, boot) = CallTable::new(rt.alloc(), nr, cpus.parse()?)?;
            let mut room = Room::new(&table, boot);
            let source = room.drive(source)?;
            let mut target = room.drive(to)?;
            let mut asker = Asker {
                source,
                answers: [None; 36],
            };
            asks_of_each_kind(&rt, &mut asker, &mut target, own, class);
        }
    }
    Ok(())
}
