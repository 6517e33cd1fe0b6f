//! A handler and a stop function that do nothing, for users of calls alone, or of stops alone.

ghost use Rattle.std.specs.Prelude.{◌≡◌, pos};

use smp_multi::StopFunc;
use smp_queue::Handler;

/// A handler that does nothing, whatever is called: for CPUs that are only stopped, and for calls that are made for their end
/// alone.
#[derive(Debug, Drop)]
pub struct Silent;

impl Handler for Silent {
    // Each call leaves it as it was.
    ghost leads = { λ old _ new. new ≡ old };

    fn call(&mut self, _src: u32, _func: u16, _info: u64) {}
}

/// A stop function that answers 0, whatever is run: for CPUs that make no stops but those of keys.
#[derive(Debug, Drop)]
pub struct NoStop;

impl StopFunc for NoStop {
    // Each run leaves it as it was, and answers 0.
    ghost leads = { λ old run new. (new ≡ old) × (run.answer ≡ pos 0) };

    fn run(&mut self, _cpu: u32, _func: u16, _arg: u64) -> i32 {
        0
    }
}
