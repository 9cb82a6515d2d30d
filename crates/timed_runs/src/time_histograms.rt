//! Counts of times: percentiles, and how many lie between powers of two.

mod bars;
mod counting;

pub use bars::{Bar, CLASSES, bucket_of, fullest, power};
pub use counting::{Times, count_below};
