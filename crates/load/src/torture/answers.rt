//! How often a CPU has made a kind, how that was answered, and how long it took.

ghost use Rattle.std.specs.Prelude.{◌≡◌, ◌-◌, ◌^◌, min};
ghost use Rattle.std.specs.Duration.{as_nanos};
ghost use Rattle.load.specs.Counts.{answers_with, answers_sum};

use std::time::Duration;

/// What a CPU has made of one kind, modulo 2^64.
#[derive(Clone, Copy)]
pub struct Answers {
    pub count: u64,
    /// How many were answered otherwise than they should be.
    pub wrong: u64,
    /// The time of all of them, and of the longest.
    pub nanos: u64,
    pub longest: u64,
}

impl Answers {
    pub const NONE: Answers = Answers {
        count: 0,
        wrong: 0,
        nanos: 0,
        longest: 0,
    };

    /// One more that took so long.
    pub fn note(&mut self, right: bool, took: Duration)
        ensures { self.new ≡ answers_with self.old right (min (as_nanos took) (2 ^ 64 - 1)) }
    {
        let nanos = u64::try_from(took.as_nanos()).unwrap_or(u64::MAX);
        self.count = self.count.wrapping_add(1);
        self.wrong = self.wrong.wrapping_add(u64::from(!right));
        self.nanos = self.nanos.wrapping_add(nanos);
        self.longest = self.longest.max(nanos);
    }

    /// What both have made.
    pub fn plus(self, other: Answers) -> Answers
        ensures { result ≡ answers_sum self other }
    {
        Answers {
            count: self.count.wrapping_add(other.count),
            wrong: self.wrong.wrapping_add(other.wrong),
            nanos: self.nanos.wrapping_add(other.nanos),
            longest: self.longest.max(other.longest),
        }
    }
}
