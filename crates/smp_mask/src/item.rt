//! The items of a CPU list.

ghost use Rattle.std.specs.Prelude.{◌≡◌, Some};
ghost use Rattle.smp_mask.specs.CpuList.{item_text, lowest, highest};
ghost use Rattle.smp_mask.specs.ListText.{item_between};

use std::fmt;

/// A CPU, or a run of CPUs from the lowest to the highest.
#[derive(Clone, Copy)]
pub(crate) enum Item {
    One(u32),
    Run(u32, u32),
}

impl Item {
    // The item of the CPUs from `low` to `high`.
    pub(crate) fn between(low: u32, high: u32) -> Item
        ensures { result ≡ item_between low high }
    {
        if low == high {
            Item::One(low)
        } else {
            Item::Run(low, high)
        }
    }

    pub(crate) fn lowest(self) -> u32
        ensures { result ≡ lowest self }
    {
        match self {
            Item::One(cpu) => cpu,
            Item::Run(low, _) => low,
        }
    }

    pub(crate) fn highest(self) -> u32
        ensures { result ≡ highest self }
    {
        match self {
            Item::One(cpu) => cpu,
            Item::Run(_, high) => high,
        }
    }
}

impl fmt::Display for Item {
    ghost output = { λ i. Some (item_text i) };

    fn fmt<W: fmt::Write>(&self, f: &mut fmt::Formatter<W>) -> fmt::Result {
        match *self {
            Item::One(cpu) => write!(f, "{cpu}"),
            Item::Run(low, high) => write!(f, "{low}-{high}"),
        }
    }
}
