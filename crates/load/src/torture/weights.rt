//! How often each kind is drawn.

ghost use Rattle.std.specs.Prelude.{◌≡◌, ◌≢◌, IfSome, length};
ghost use Rattle.load.specs.Kinds.{kinds, weight_of};

use crate::torture::kind::{KINDS, Kind};

/// The weights of all kinds. Some kind has one that is not 0.
#[derive(Clone, Copy)]
pub struct Weights {
    of: [u16; KINDS],
    /// A kind that has a weight.
    some: Kind,
    ghost lawful: { weight_of of some ≢ 0 },
}

/// A kind that has a weight.
fn some_kind(of: &[u16; KINDS]) -> Option<Kind>
    ensures { IfSome result (λ k. weight_of of.now k ≢ 0) }
{
    for kind in Kind::ALL {
        if of[kind.index()] > 0 {
            return Some(kind);
        }
    }
    None
}

impl Weights {
    /// These weights; none where all are 0.
    pub fn new(of: [u16; KINDS]) -> Option<Weights>
        ensures { IfSome result (λ w. w.of ≡ of) }
    {
        let some = some_kind(&of)?;
        Some(Weights { of, some })
    }

    pub fn weight(&self, kind: Kind) -> u16
        ensures { result ≡ weight_of self.now.of kind }
    {
        self.of[kind.index()]
    }

    /// The sum of all weights.
    fn total(&self) -> u32 {
        let mut total = 0u32;
        for weight in self.of {
            total = total.saturating_add(u32::from(weight));
        }
        total
    }

    /// A kind for a random number. It has a weight.
    pub fn draw(&self, random: u32) -> Kind
        ensures { weight_of self.now.of result ≢ 0 }
    {
        let mut left = random % self.total().max(1);
        for kind in Kind::ALL {
            let weight = u32::from(self.weight(kind));
            if left < weight {
                return kind;
            }
            left -= weight;
        }
        self.some
    }
}
