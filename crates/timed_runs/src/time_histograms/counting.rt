//! How many times are below a bound, and percentiles.

ghost use Rattle.std.specs.Prelude.{◌≡◌, ◌≤◌, ◌<◌, ◌^◌, ◌⊎◌, length, IfSome, IfNone, IsPermutation};
ghost use Rattle.timed_runs.specs.time_histograms.Counts.{below, IsPercentile};

use std::marker::Model;

/// How many of the times are below the bound.
pub fn count_below(times: &[u64], bound: u64) -> usize
    ensures count { result ≡ below bound times.now }
    ensures few { result ≤ length times.now }
{
    let mut count = 0;
    for time in times {
        if *time < bound {
            count += 1;
        }
    }
    count
}

/// Times in order.
#[derive(Debug, Drop)]
pub struct Times {
    sorted: Vec<u64>,
}

impl Model for Times {
    ghost use Rattle.std.specs.Prelude.{ℕ, List, IsSorted};
    ghost use Rattle.std.specs.Ordering.{nat_cmp};

    ghost Value = { List ℕ };

    ghost view = { λ a. a.sorted.items };

    ghost invariant = { λ a. IsSorted nat_cmp a.sorted.items };
}

impl Times {
    /// Puts times in order.
    pub fn new(times: Vec<u64>) -> Times
        ensures { IsPermutation times.items result }
    {
        let mut sorted = times;
        sorted.sort_unstable();
        Times { sorted }
    }

    /// The times in order.
    pub fn as_slice(&self) -> &[u64]
        ensures { result.now ≡ self.now }
    {
        self.sorted.as_slice()
    }

    /// The percentile by the nearest rank, where there are times, and no more than 2^32.
    pub fn percentile(&self, thousandths: usize) -> Option<u64>
        requires some { 0 < thousandths }
        requires most { thousandths ≤ 1000 }
        ensures is { IfSome result (IsPercentile thousandths self.now) }
        ensures none { IfNone result ((length self.now ≡ 0) ⊎ (2 ^ 32 < length self.now)) }
        ensures much { 2 ^ 32 < length self.now → result ≡ None }
    {
        let times = self.sorted.as_slice();
        let count = times.len();
        if count == 0 || count > 4_294_967_296 {
            return None;
        }
        let rank = (count * thousandths).div_ceil(1000) - 1;
        Some(times[rank])
    }
}
