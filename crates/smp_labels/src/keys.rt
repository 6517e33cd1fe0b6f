//! The word of a key: its count.

ghost use Rattle.std.specs.Prelude.{◌≡◌, ◌↔◌, IsTrue};
ghost use Rattle.smp_labels.specs.Keys.{change_of, change_word, count_after, edge_of, is_on, IsKeyWord};

use smp_mask::Edge;

/// No key has a higher count. That is this project's own choice: Linux's `static_key_fast_inc_not_disabled`
/// (`kernel/jump_label.c`) goes on to INT_MAX.
pub const MOST_COUNT: u64 = 65_535;

/// Whether the key of this word is on, as Linux's `static_key_enabled`
/// (`include/linux/jump_label.h: static_key_count`): where the word is above 0.
pub fn is_on(word: u64) -> bool
    ensures { result ≡ is_on word }
{
    word > 0
}

/// Whether a key can have this word.
pub(crate) fn is_key_word(word: u64) -> bool
    ensures { IsTrue result ↔ IsKeyWord word }
{
    word <= MOST_COUNT
}

/// What is to become of a key's count.
#[derive(Clone, Copy, Debug, PartialEq, Eq)]
pub enum Change {
    /// 0, as `kernel/jump_label.c: static_key_disable_cpuslocked`.
    Off = 0,
    /// 1 where it is 0, as `static_key_enable_cpuslocked`.
    On = 1,
    /// One more, as `static_key_slow_inc_cpuslocked`.
    Up = 2,
    /// One less, as `__static_key_slow_dec_cpuslocked`.
    Down = 3,
}

impl Change {
    /// The change of this number; all but 0 to 2 are `Down`.
    pub fn from_word(word: u64) -> Change
        ensures { result ≡ change_of word }
    {
        match word {
            0 => Change::Off,
            1 => Change::On,
            2 => Change::Up,
            _ => Change::Down,
        }
    }

    /// The number of the change, as a stop has it.
    pub fn word(self) -> u64
        ensures { result ≡ change_word self }
    {
        self as u64
    }

    /// The count after the change; none where the count is at that end of its range: `Up` at
    /// [`MOST_COUNT`], `Down` at 0.
    pub fn count_after(self, count: u64) -> Option<u64>
        ensures { result ≡ count_after self count }
    {
        match self {
            Change::Off => Some(0),
            Change::On => Some(if count == 0 { 1 } else { count }),
            Change::Up => {
                if count < MOST_COUNT {
                    Some(count + 1)
                } else {
                    None
                }
            }
            Change::Down => { if count == 0 { None } else { Some(count - 1) } }
        }
    }

    /// Which end of its range stops it.
    pub fn edge(self) -> Edge
        ensures { result ≡ edge_of self }
    {
        if self == Change::Up {
            Edge::Full
        } else {
            Edge::Zero
        }
    }
}
