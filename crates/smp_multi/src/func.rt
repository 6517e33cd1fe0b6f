//! What a stop runs: the functions that stops call belong to the user.

ghost use Rattle.smp_multi.specs.Running.{called};
ghost use Rattle.smp_multi.specs.declared.func.Called.{Called};

/// A call of a stop function: on which CPU, the function and its argument, and what it answered.
#[derive(Clone, Copy, Debug, PartialEq, Eq)]
pub struct Called {
    pub cpu: u32,
    pub func: u16,
    pub arg: u64,
    pub answer: i32,
}

/// Runs the functions of stops (`cpu_stop_fn_t`).
pub trait StopFunc {
    /// To which values a call may lead from each value.
    ghost leads: { Self → Called → Self → Type 0 };

    /// Runs function `func` with this argument, on CPU `cpu`.
    fn run(&mut self, cpu: u32, func: u16, arg: u64) -> i32
        ensures { leads self.old (called cpu func arg result) self.new };
}
