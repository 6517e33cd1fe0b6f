//! What runs a call: the functions that CPUs queue for each other belong to the user.

ghost use Rattle.smp_queue.specs.Handling.{heard};
ghost use Rattle.smp_queue.specs.declared.handler.Heard.{Heard};

/// A call as its function hears it: the CPU that queued it, the function and its info.
#[derive(Clone, Copy, Debug, PartialEq, Eq)]
pub struct Heard {
    /// The CPU that queued it, or that called it directly.
    pub src: u32,
    /// The function's number.
    pub func: u16,
    /// What the function is told.
    pub info: u64,
}

/// Runs the calls of a CPU (`smp_call_func_t`).
pub trait Handler {
    /// To which values a call may lead from each value.
    ghost leads: { Self → Heard → Self → Type 0 };

    /// Runs one call: function `func` with this info, queued by CPU `src`.
    fn call(&mut self, src: u32, func: u16, info: u64)
        ensures { leads self.old (heard src func info) self.new };
}
