//! Stops step by step, with the CPU by value, on one thread.

ghost use Rattle.std.specs.Prelude.{◌≡◌};

use super::*;

// The function of a stop of one CPU is the caller's to call.
#[test]
fn a_call_of_one_cpu_is_handed_out(rt: HostRuntime) -> Result<(), Fail> {
    let (table, mut boot) = StopTable::new(rt.alloc(), 1, "0".parse()?, &LabelMap::empty())?;
    let mut cpu = boot.cpu(0)?;
    assert!(rt; table.try_gate(&mut cpu));
    assert_eq!(rt; table.begin(&mut cpu, one(0, 9, 5)?), Ok(()));
    assert_eq!(rt; table.enter(&mut cpu, 0), Ok(Kind::One));
    let Ok(answering) = table.begin_one(cpu) else {
        assert!(rt; false, "no call");
        return Ok(());
    };
    assert_eq!(rt;
        (answering.number(), answering.func(), answering.arg()),
        (0, 9, 5)
    );
    let mut cpu = table.answer(answering, -7);
    assert_eq!(rt; table.poll_done(&mut cpu), Ok(Some(-7)));
    Ok(())
}

/// A CPU alone in its Multi stop makes its turns by value, up to the end, and answers 7: whether each went so.
fn goes_round(table: &StopTable<Global>, cpu: StopCpu) -> bool
    requires { (cpu.table ≡ table.now.table) × (cpu.setting ≡ table.now.setting) }
{
    let Ok(Turned::Moved(cpu, 1)) = table.turn(cpu) else {
        return false;
    };
    let Ok(Turned::Moved(cpu, 2)) = table.turn(cpu) else {
        return false;
    };
    let Ok(Turned::Call(answering)) = table.turn(cpu) else {
        return false;
    };
    let cpu = table.answer(answering, 7);
    let Ok(Turned::Left(mut cpu)) = table.turn(cpu) else {
        return false;
    };
    table.finish(&mut cpu) == Ok(()) && table.poll_done(&mut cpu) == Ok(Some(7))
}

#[test]
fn a_stop_goes_round_by_value(rt: HostRuntime) -> Result<(), Fail> {
    let (table, mut boot) = StopTable::new(rt.alloc(), 1, "0".parse()?, &LabelMap::empty())?;
    let mut cpu = boot.cpu(0)?;
    assert!(rt; table.try_gate(&mut cpu));
    assert_eq!(rt; table.begin(&mut cpu, multi("0", "0")?), Ok(()));
    assert_eq!(rt; table.enter(&mut cpu, 0), Ok(Kind::Multi));
    assert!(rt; goes_round(&table, cpu));
    Ok(())
}
