//! What a start line shows to those that wait at it.

ghost use Rattle.std.specs.Prelude.{◌≡◌, Some};
ghost use Rattle.smp_start.specs.Sign.{sign_of};

/// What a start line shows to those that wait at it.
#[derive(Clone, Copy, Debug, PartialEq, Eq)]
pub enum Sign {
    /// All may begin.
    Open,
    /// None may begin.
    Cancelled,
}

impl Sign {
    /// The number of a sign, by which the threads read it.
    pub fn number(self) -> u64
        ensures { sign_of result ≡ Some self }
    {
        match self {
            Sign::Open => 1,
            Sign::Cancelled => 2,
        }
    }

    /// The sign of a number.
    pub fn of_number(number: u64) -> Option<Sign>
        ensures { result ≡ sign_of number }
    {
        if number == 1 {
            Some(Sign::Open)
        } else if number == 2 {
            Some(Sign::Cancelled)
        } else {
            None
        }
    }
}
