//! One CPU of a machine, with what it calls.

ghost use Rattle.std.specs.Prelude.{◌≡◌, ◌+◌, ◌%◌, ◌^◌};
ghost use Rattle.smp_machine.specs.Seats.{IsSameSeat};

use crate::bench::call_seat::Counter;
use crate::bench::meter::Measured;
use crate::error::LoadError;
use smp_labels::{Entry, LabelMap};
use smp_machine::Seat;
use smp_multi::StopFunc;
use std::alloc::Global;
use std::sync::Wait;

/// Answers 0, and counts its calls modulo 2^64.
#[derive(Drop)]
pub struct StopCounter {
    calls: u64,
    /// Changes of the key's count by its CPU that took no stop, modulo 2^64.
    nudges: u64,
    /// What its CPU has measured, where it is the first.
    pub measured: Option<Result<Measured, LoadError>>,
}

impl StopCounter {
    pub fn new() -> StopCounter {
        StopCounter {
            calls: 0,
            nudges: 0,
            measured: None,
        }
    }

    /// How many stop functions have run here, and changes of the key's count were made without a stop, modulo 2^64.
    pub fn done(&self) -> u64
        ensures { result ≡ (self.now.calls + self.now.nudges) % 2 ^ 64 }
    {
        self.calls.wrapping_add(self.nudges)
    }
}

impl StopFunc for StopCounter {
    ghost use Rattle.std.specs.Prelude.{◌≡◌, ◌+◌, ◌%◌, ◌^◌};

    ghost leads = { λ before _ after. after.calls ≡ (before.calls + 1) % 2 ^ 64 };

    fn run(&mut self, _cpu: u32, _func: u16, _arg: u64) -> i32 {
        self.calls = self.calls.wrapping_add(1);
        0
    }
}

/// A key with two sites, of which one is a jump where it is off.
pub fn label() -> Result<LabelMap, LoadError> {
    let sites = [false, true].map(|branch| Entry { key: 0, branch });
    Ok(LabelMap::new(&sites, 1)?)
}

/// A CPU at its machine, with its handler and its stop function.
pub type BenchSeat<'m, R> = Seat<'m, Global, R, Counter, StopCounter>;

/// Counts the key up or down by one.
pub fn count<R: Wait>(seat: &mut BenchSeat<'_, R>, up: bool)
    ensures { IsSameSeat seat.old seat.new }
{
    let turned = if up { seat.key_inc(0) } else { seat.key_dec(0) };
    if let Ok(false) = turned {
        seat.functions.nudges = seat.functions.nudges.wrapping_add(1);
    }
}
