//! What the first two lines of a script settle for the others.

use crate::mode::Mode;
use smp_mask::CpuMask;

/// What the first two lines of a script settle for the others.
#[derive(Clone, Copy)]
pub struct Setting {
    pub mode: Mode,
    /// The numbers of CPUs are below.
    pub limit: u32,
    /// The CPUs that are online.
    pub online: CpuMask,
}
