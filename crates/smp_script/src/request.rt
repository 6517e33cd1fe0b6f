//! What a `do` line asks a CPU to call.

use smp_mask::CpuMask;

/// Of which CPUs a condition says yes.
#[derive(Clone, Copy, Debug, PartialEq, Eq)]
pub enum Which {
    All,
    /// Those whose number is even.
    Even,
    Odd,
}

/// A call that a CPU makes. What it waits for comes first, the function and what it is given last.
#[derive(Clone, Copy, Debug, PartialEq, Eq)]
pub enum Request {
    /// `sync` or `async`: a function on that CPU, with wait or without.
    Single(bool, u32, u16, u64),
    /// `user`: the same by one of the two records of the user, without wait.
    User(u32, u32, u16, u64),
    /// `any`: on one CPU of the mask.
    Any(bool, CpuMask, u16, u64),
    /// `many`: on the other CPUs of the mask.
    Many(bool, CpuMask, u16, u64),
    /// `cond`: on the CPUs of the mask of which the condition says yes.
    Cond(Which, bool, CpuMask, u16, u64),
    /// `one`: a stop of that CPU, which calls a stop function.
    One(u32, u16, u32),
    /// `two`: a stop of these two.
    Two(u32, u32, u16, u32),
    /// `machine`: a stop of all that are online. Those of the mask call the function, or the lowest where there is none.
    Machine(Option<CpuMask>, u16, u32),
    /// `set`: the key is turned on or off.
    Set(u32, bool),
    /// `inc`: the key is raised.
    Inc(u32),
    /// `dec`: the key is lowered.
    Dec(u32),
}
