//! A function of a rendezvous runs while the other CPUs of its mask wait, with their interrupts off.

use super::*;

/// Makes, when it runs, two turns of another CPU of its stop: what they answer, and whether its interrupts are on then.
#[derive(Drop)]
struct Witness<'a> {
    other: Driver<'a>,
    turns: (Option<Turn>, Option<Turn>),
    are_on: bool,
}

impl<'a> StopFunc for Witness<'a> {
    ghost leads = { λ _ _ _. Unit {0} };

    fn run(&mut self, _cpu: u32, _func: u16, _arg: u64) -> i32 {
        let first = self.other.advance(&mut Answerer::new(0)).ok();
        self.turns = (first, self.other.advance(&mut Answerer::new(0)).ok());
        self.are_on = self.other.cpu.interrupts_on();
        0
    }
}

/// Turns of a CPU that call no function: whether each answered this.
fn turns_as(driver: &mut Driver, turns: &[Turn]) -> bool {
    turns
        .iter()
        .all(|turn| driver.advance(&mut Answerer::new(0)) == Ok(*turn))
}

/// CPU 0 begins a stop of both and enters it: whether that went well.
fn begins(zero: &mut Driver, work: Work) -> bool {
    zero.try_gate() && zero.begin(work) == Ok(()) && zero.enter(0) == Ok(Kind::Multi)
}

#[test]
fn the_others_wait_while_a_function_runs(rt: HostRuntime) -> Result<(), Fail> {
    let (table, boot) = StopTable::new(rt.alloc(), 2, "0-1".parse()?, &LabelMap::empty())?;
    let mut room = Room::new(&table, boot);
    let mut zero = room.drive(0)?;
    let mut one = room.drive(1)?;
    assert!(rt; begins(&mut zero, multi("0-1", "0")?));
    assert_eq!(rt; one.enter(0), Ok(Kind::Multi));
    assert!(rt; turns_as(&mut zero, &[Turn::Moved(1)]));
    assert!(rt; turns_as(&mut one, &[Turn::Moved(1), Turn::Moved(2)]));
    assert!(rt; turns_as(&mut zero, &[Turn::Moved(2)]));
    runs_before(&rt, &mut zero, one);
    Ok(())
}

/// CPU 0 is to run the function. While it does, CPU 1 acknowledges `RUN` and then waits, since CPU 0 has not.
fn runs_before(rt: &impl Abort, zero: &mut Driver, one: Driver) {
    let mut witness = Witness {
        other: one,
        turns: (None, None),
        are_on: true,
    };
    assert_eq!(rt; zero.advance(&mut witness), Ok(Turn::Ran));
    assert_eq!(rt; witness.turns, (Some(Turn::Moved(3)), Some(Turn::Same)));
    assert!(rt; !witness.are_on);
    assert!(rt; turns_as(&mut witness.other, &[Turn::Left]));
}
