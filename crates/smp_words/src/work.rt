//! What a stop is to do.

ghost use Rattle.std.specs.Prelude.{◌≡◌};
ghost use Rattle.smp_words.specs.Kinds.{kind_word, kind_at};

use smp_mask::CpuMask;

/// What kind of stop it is.
#[derive(Clone, Copy, Debug, PartialEq, Eq)]
pub enum Kind {
    /// A function runs on one CPU (`stop_one_cpu`).
    One,
    /// All CPUs of the mask go through the phases together; the active ones call the function
    /// (`multi_cpu_stop`).
    Multi,
    /// As `Multi`; in place of the function, the first CPU changes a key and its sites.
    Patch,
}

impl Kind {
    /// The number of the kind, as a slot has it.
    pub fn word(self) -> u64
        ensures { result ≡ kind_word self }
    {
        match self {
            Kind::One => 0,
            Kind::Multi => 1,
            Kind::Patch => 2,
        }
    }

    /// The kind of this number; all but 0 and 1 are of a patch.
    pub fn of_word(word: u64) -> Kind
        ensures { result ≡ kind_at word }
    {
        match word {
            0 => Kind::One,
            1 => Kind::Multi,
            _ => Kind::Patch,
        }
    }
}

/// What a stop is to do.
#[derive(Clone, Copy, Debug, PartialEq, Eq)]
pub struct Work {
    pub kind: Kind,
    /// The CPUs that stop.
    pub mask: CpuMask,
    /// Those of them that call the function.
    pub active: CpuMask,
    /// The function, or of a patch the key.
    pub func: u16,
    /// The function's argument, or of a patch the number of its change ([`smp_labels::Change`]).
    pub arg: u64,
}
