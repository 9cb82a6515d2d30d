//! A histogram by powers of two.

ghost use Rattle.std.specs.Prelude.{ℕ, ◌≡◌, ◌<◌, ◌≤◌, ◌*◌, ◌^◌};
ghost use Rattle.timed_runs.specs.time_histograms.Counts.{between, IsOneOf};
ghost use Rattle.timed_runs.specs.time_histograms.BarTexts.{marks_of};
ghost use Rattle.timed_runs.specs.declared.time_histograms.bars.TheConstants.{CLASSES};

use crate::time_histograms::counting::count_below;
use std::fmt;

/// How many classes there are: all times below 2^63 but 0 are in one of them.
pub const CLASSES: u32 = 63;

/// The most marks of a row.
const MARKS: u64 = 60;

/// How many times are at least a number and below its double, and how many are so in the fullest
/// row. As text it is a row of marks in proportion, rounded up, so that no row with times is bare.
#[derive(Clone, Copy, Debug)]
pub struct Bar {
    pub least: u64,
    pub count: usize,
    pub most: usize,
}

/// The bar of a power of two, or of any other number below 2^63.
pub fn bucket_of(times: &[u64], least: u64, most: usize) -> Bar
    ensures least { result.least ≡ least }
    ensures count { least < 2 ^ 63 → result.count ≡ between least (2 * least) times.now }
    ensures most { result.most ≡ most }
{
    let bound = least.saturating_mul(2);
    let count = count_below(times, bound).saturating_sub(count_below(times, least));
    Bar { least, count, most }
}

/// How many times the fullest of the bars of powers of two has.
pub fn fullest(times: &[u64]) -> usize
    ensures most { (k : ℕ) → k < CLASSES → between (2 ^ k) (2 * 2 ^ k) times.now ≤ result }
    ensures one { IsOneOf times.now CLASSES result }
{
    let mut most = 0;
    for class in 0..CLASSES {
        most = most.max(bucket_of(times, power(class), 0).count);
    }
    most
}

/// This power of two; 0 past 2^63.
pub fn power(class: u32) -> u64
    ensures in_range { class < 64 → result ≡ 2 ^ class }
    ensures beyond { 64 ≤ class → result ≡ 0 }
{
    1u64.checked_shl(class).unwrap_or(0)
}

impl fmt::Display for Bar {
    ghost use Rattle.std.specs.Prelude.{Some};
    ghost use Rattle.timed_runs.specs.time_histograms.BarTexts.{row_of};

    ghost output = { λ bar. Some (row_of bar) };

    fn fmt<W: fmt::Write>(&self, f: &mut fmt::Formatter<W>) -> fmt::Result {
        let (least, count) = (self.least, self.count);
        let marks = Hashes(marks(count as u64, self.most as u64));
        write!(f, "{least:>16} ns {count:>10} {marks}\n")
    }
}

/// So many marks in a row.
#[derive(Clone, Copy)]
struct Hashes(u64);

impl fmt::Display for Hashes {
    ghost use Rattle.std.specs.Prelude.{Some, replicate};

    ghost output = { λ m. Some (replicate m.0 35) };

    fn fmt<W: fmt::Write>(&self, f: &mut fmt::Formatter<W>) -> fmt::Result {
        for _mark in 0..self.0 {
            write!(f, "#")?;
        }
        Ok(())
    }
}

/// How many marks a row has with so many times, where the fullest has so many.
fn marks(count: u64, most: u64) -> u64
    ensures { result ≡ marks_of count most }
{
    let scaled = u128::from(count) * u128::from(MARKS);
    scaled
        .div_ceil(u128::from(most.max(1)))
        .min(u128::from(MARKS)) as u64
}
