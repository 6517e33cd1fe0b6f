//! The times of batches, and what is told of them.

ghost use Rattle.std.specs.Prelude.{◌≡◌, ◌<◌, ◌≤◌, ◌/◌, ◌*◌, ◌^◌, length, slice_index, IsSorted, IsPermutation};
ghost use Rattle.std.specs.Ordering.{nat_cmp};

/// Tenths of a nanosecond that one operation took, rounded down, of this number. More than 58 years count as these.
pub fn tenths_of_one(nanos: u64, operations: u64) -> u64
    requires { 0 < operations }
    ensures { nanos * 10 < 2 ^ 64 → result ≡ nanos * 10 / operations }
{
    nanos.saturating_mul(10) / operations
}

/// Tenths of a nanosecond that one operation took.
#[derive(Clone, Copy)]
pub struct Times {
    /// Half of the batches stay below, or are the same.
    pub median: u64,
    /// A tenth of the batches stay below, or are the same.
    pub lowest_tenth: u64,
}

/// Sorts the times of batches, and tells of them.
pub fn times_of(samples: &mut [u64]) -> Times
    requires { 0 < length samples.old }
    ensures kept { IsPermutation samples.old samples.new }
    ensures sorted { IsSorted nat_cmp samples.new }
    ensures median { result.median ≡ slice_index samples.new (length samples.old / 2) }
    ensures lowest { result.lowest_tenth ≡ slice_index samples.new (length samples.old / 10) }
{
    samples.sort_unstable();
    Times {
        median: samples[samples.len() / 2],
        lowest_tenth: samples[samples.len() / 10],
    }
}
