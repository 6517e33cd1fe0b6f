//! Reading the text of a mask, a CPU list.

ghost use Rattle.std.specs.Prelude.{◌≡◌, ℕ, ◌+◌, ◌<◌, ◌≤◌, ◌^◌, true, length, IfOk, IfErr, IfSome};
ghost use Rattle.smp_mask.specs.CpuList.{IsMaskOf, IsRefusedAt, lowest, highest};
ghost use Rattle.smp_mask.specs.Reading.{after, answered, digit, finished, is_live, longer, mask_of_text, reaches, step, whole};

use crate::error::SmpError;
use crate::item::Item;
use crate::mask::{CpuMask, NR_CPUS};
use std::str::FromStr;

/// Where in a CPU list the reader is, with the numbers of the item that it is in.
#[derive(Clone, Copy)]
enum Place {
    /// Before the first byte.
    Start,
    /// After a comma.
    Item,
    /// In the digits of a CPU, or of the low end of a run.
    Low(u32),
    /// After the hyphen of a run from that CPU.
    Dash(u32),
    /// In the digits of the high end of a run, the second number.
    High(u32, u32),
}

impl Place {
    // The item that is whole here.
    fn whole(self) -> Option<Item>
        requires { is_live NR_CPUS self ≡ true }
        ensures item { result ≡ whole self }
        ensures up { IfSome result (λ i. lowest i ≤ highest i) }
        ensures within { IfSome result (λ i. highest i < NR_CPUS) }
    {
        match self {
            Place::Low(cpu) => Some(Item::One(cpu)),
            Place::High(low, high) if low <= high => Some(Item::Run(low, high)),
            _ => None,
        }
    }

    // The place after a byte that is no comma, whether or not a CPU list goes on from there.
    fn after(self, byte: u8) -> Option<Place>
        requires { is_live NR_CPUS self ≡ true }
        ensures { result ≡ after self byte }
    {
        Some(match self {
            Place::Start | Place::Item => Place::Low(digit(byte)?),
            Place::Low(low) if byte == b'-' => Place::Dash(low),
            Place::Low(low) => Place::Low(longer(low, byte)?),
            Place::Dash(low) => Place::High(low, digit(byte)?),
            Place::High(low, high) => Place::High(low, longer(high, byte)?),
        })
    }

    // Whether some CPU list goes on from here.
    fn is_live(self) -> bool
        ensures { result ≡ is_live NR_CPUS self }
    {
        match self {
            Place::Start | Place::Item => true,
            Place::Low(low) | Place::Dash(low) => low < NR_CPUS,
            Place::High(low, high) => low < NR_CPUS && reaches(low, high),
        }
    }
}

fn digit(byte: u8) -> Option<u32>
    ensures { result ≡ digit byte }
{
    match byte {
        b'0'..=b'9' => Some((byte - b'0') as u32),
        _ => None,
    }
}

// The number with one digit more. A lone zero has none.
fn longer(number: u32, byte: u8) -> Option<u32>
    requires { number < NR_CPUS }
    ensures { result ≡ longer number byte }
{
    if number == 0 {
        return None;
    }
    Some(number * 10 + digit(byte)?)
}

// Whether a number from `low` on and below NR_CPUS begins with the digits of `high`: each digit
// more takes the numbers that begin so, from `least` to below `past`, to ten times as many.
fn reaches(low: u32, high: u32) -> bool
    requires { low < NR_CPUS }
    ensures { result ≡ reaches NR_CPUS low high }
{
    if high >= NR_CPUS {
        return false;
    }
    let mut least = high;
    let mut past = high + 1;
    while past <= low && least > 0 {
        least *= 10;
        past *= 10;
    }
    low < past && least < NR_CPUS
}

// A CPU list as far as it is read: the place, and the CPUs of the items before it.
#[derive(Clone, Copy)]
struct Reader {
    place: Place,
    mask: CpuMask,
}

impl Reader {
    // The reader after one byte, or `None` where no CPU list goes on so.
    fn step(self, byte: u8) -> Option<Reader>
        requires { is_live NR_CPUS self.place ≡ true }
        ensures reads { result ≡ step NR_CPUS self byte }
        ensures live { IfSome result (λ r. is_live NR_CPUS r.place ≡ true) }
    {
        if byte == b',' {
            let item = self.place.whole()?;
            return Some(Reader {
                place: Place::Item,
                mask: self.mask.with_run(item.lowest(), item.highest()),
            });
        }
        let place = self.place.after(byte)?;
        place.is_live().then_some(Reader {
            place,
            mask: self.mask,
        })
    }

    // The mask of the text, or `None` where the text can't end here.
    fn finish(self) -> Option<CpuMask>
        requires { is_live NR_CPUS self.place ≡ true }
        ensures { result ≡ finished self.place self.mask }
    {
        if let Place::Start = self.place {
            return Some(self.mask);
        }
        let item = self.place.whole()?;
        Some(self.mask.with_run(item.lowest(), item.highest()))
    }
}

// Reads a whole text: its mask, or the position where it goes wrong.
fn read(text: &[u8]) -> Result<CpuMask, usize>
    ensures accepted { IfOk result (λ m. IsMaskOf NR_CPUS text.now m) }
    ensures refused { IfErr result (λ at. IsRefusedAt NR_CPUS text.now at) }
    ensures reads { answered result ≡ mask_of_text NR_CPUS text.now }
{
    let mut reader = Reader {
        place: Place::Start,
        mask: CpuMask::empty(),
    };
    for (i, byte) in text.iter().enumerate() {
        let Some(next) = reader.step(*byte) else {
            return Err(i);
        };
        reader = next;
    }
    reader.finish().ok_or(text.len())
}

impl CpuMask {
    /// Reads a CPU list: empty, or items joined by commas, each a CPU or `low-high` with `low` at
    /// most `high`, in any order and overlapping, without leading zeros or spaces. It is Linux's
    /// `cpulist_parse` (`lib/bitmap.c: bitmap_parselist`) without spaces, strides and groups.
    ///
    /// `BadMask` where the text is none. Its position is the length of the longest prefix of the
    /// text that is also a prefix of a CPU list: so `1,` goes wrong at 2, where it ends.
    pub fn parse(text: &[u8]) -> Result<CpuMask, SmpError>
        requires { length text.now < 2 ^ 32 }
        ensures accepted { IfOk result (λ m. IsMaskOf NR_CPUS text.now m) }
        ensures refused { IfErr result (λ e. (p : ℕ) × (e ≡ SmpError.BadMask p) × IsRefusedAt NR_CPUS text.now p) }
        ensures reads { result ≡ mask_of_text NR_CPUS text.now }
    {
        match read(text) {
            Ok(mask) => Ok(mask),
            Err(at) => Err(SmpError::BadMask {
                position: at as u32,
            }),
        }
    }
}

/// As [`CpuMask::parse`], for a text of any length: a position past `u32::MAX` is told as `u32::MAX`.
impl FromStr for CpuMask {
    ghost use Rattle.std.specs.Prelude.{◌≡◌, ℕ, ◌-◌, ◌^◌, min, MatchResult};
    ghost use Rattle.smp_mask.specs.CpuList.{IsMaskOf, IsRefusedAt};
    ghost use Rattle.smp_mask.specs.declared.error.SmpError.TheVariants.{BadMask};
    ghost use Rattle.smp_mask.specs.declared.mask.TheConstants.{NR_CPUS};

    type Err = SmpError;

    ghost from_str_gives = { λ text result.
        MatchResult result (λ m. IsMaskOf NR_CPUS text m)
        (λ e. (p : ℕ) × (e ≡ BadMask (min p (2 ^ 32 - 1))) × IsRefusedAt NR_CPUS text p) };

    fn from_str(s: &str) -> Result<CpuMask, SmpError> {
        match read(s.as_bytes()) {
            Ok(mask) => Ok(mask),
            Err(at) => Err(SmpError::BadMask {
                position: at.min(u32::MAX as usize) as u32,
            }),
        }
    }
}
