//! Handling step by step, with the CPU by value, on one thread.

ghost use Rattle.std.specs.Prelude.{◌≡◌};

use super::*;

/// A CPU takes a SYNC call, then an ASYNC call, and ends: whether each was handed out so, with the record of the SYNC call
/// locked while that is out, and that of the ASYNC call free.
fn takes_both(table: &CallTable<Global>, source: &mut CallCpu, target: CallCpu) -> bool
    requires { (source.old.table ≡ table.now.table) × (target.table ≡ table.now.table) }
{
    let Next::Run(serving) = table.begin_handle(target) else {
        return false;
    };
    let first = serving.call();
    let is_locked = table.is_done(source, 0) == Ok(false);
    let Next::Run(serving) = table.resume(serving) else {
        return false;
    };
    let second = serving.call();
    let is_free = table.is_done(source, 0) == Ok(true) && table.is_done(source, 10) == Ok(true);
    let Next::Done(target) = table.resume(serving) else {
        return false;
    };
    let Next::Idle(_) = table.begin_handle(target) else {
        return false;
    };
    (first.src, first.func, first.info) == (1, 8, 80)
        && (second.src, second.func, second.info) == (1, 7, 70)
        && is_locked
        && is_free
}

#[test]
fn calls_are_handed_out_one_by_one(rt: HostRuntime) -> Result<(), Fail> {
    let (table, mut boot) = CallTable::new(rt.alloc(), 2, "0-1".parse()?)?;
    let mut source = boot.cpu(1)?;
    let target = boot.cpu(0)?;
    assert_eq!(rt;
        table.post_within(&mut source, 10, 0, Class::Async, 7, 70, 1),
        Ok(true)
    );
    assert_eq!(rt;
        table.post_within(&mut source, 0, 0, Class::Sync, 8, 80, 1),
        Ok(false)
    );
    assert_eq!(rt; table.interrupt(&mut source, 0), Ok(()));
    assert!(rt; takes_both(&table, &mut source, target));
    Ok(())
}
