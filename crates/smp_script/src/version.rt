//! Versions of scripts.

ghost use Rattle.std.specs.Prelude.{◌≡◌, ◌≤◌};
ghost use Rattle.smp_script.specs.Versions.{limit_of, version_of};

use crate::line::is_word;
use smp_mask::{Cause, NR_CPUS};

/// The version of a script, which its first line tells.
#[derive(Clone, Copy, Debug, PartialEq, Eq)]
pub enum Version {
    One,
    Two,
}

impl Version {
    /// How many CPUs a script of this version may speak of: their numbers are below.
    pub fn limit(self) -> u32
        ensures value { result ≡ limit_of self }
        ensures within { result ≤ NR_CPUS }
    {
        match self {
            Version::One => 8,
            Version::Two => NR_CPUS,
        }
    }
}

/// `1` or `2`.
pub fn read_version(text: &[u8]) -> Result<Version, Cause>
    ensures { result ≡ version_of text.now }
{
    if is_word(text, b"1") {
        return Ok(Version::One);
    }
    if is_word(text, b"2") {
        return Ok(Version::Two);
    }
    Err(Cause::Word)
}
