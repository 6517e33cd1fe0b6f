//! What a CPU chooses at random.

ghost use Rattle.std.specs.Prelude.{◌≢◌, ◌<◌};
ghost use Rattle.load.specs.Kinds.{weight_of};
ghost use Rattle.load.specs.Requests.{AreThreads};

use crate::torture::kind::Kind;
use crate::torture::weights::Weights;
use rand_core::Rng;
use rand_pcg::Pcg32;
use smp_mask::CpuMask;

/// What a CPU chooses at random, among this number of CPUs.
#[derive(Drop)]
pub struct Choice {
    random: Pcg32,
    cpus: u32,
    ghost lawful: { AreThreads cpus },
}

impl Choice {
    /// The choices of one CPU: a stream of its own from the seed of all.
    pub fn new(seed: u64, number: u32, cpus: u32) -> Choice
        requires { AreThreads cpus }
    {
        let random = Pcg32::new(seed, u64::from(number));
        Choice { random, cpus }
    }

    /// A kind that has a weight.
    pub fn kind(&mut self, weights: &Weights) -> Kind
        ensures { weight_of weights.now.of result ≢ 0 }
    {
        weights.draw(self.random.next_u32())
    }

    pub fn value(&mut self) -> u64 {
        self.random.next_u64()
    }

    pub fn flip(&mut self) -> bool {
        self.random.next_u32() % 2 == 0
    }

    /// One of this number of numbers, from 0 on.
    pub fn below(&mut self, count: u32) -> u32
        requires { 0 < count }
        ensures { result < count }
    {
        self.random.next_u32() % count
    }

    /// A CPU.
    pub fn cpu(&mut self) -> u32
        ensures { result < self.old.cpus }
    {
        self.random.next_u32() % self.cpus
    }

    /// Each CPU as often as not.
    pub fn mask(&mut self) -> CpuMask {
        let bits = self.random.next_u32();
        let mut mask = CpuMask::empty();
        for number in 0..self.cpus {
            if (bits >> number) % 2 == 1 {
                mask = mask.with(number).unwrap_or(mask);
            }
        }
        mask
    }
}
