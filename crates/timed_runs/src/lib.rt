//! How long each command of a run takes: a pace that reads the clock before each command, and what
//! is told of the times after the run.
#![tactic(auto)]

mod bounds;
mod counted;
mod kinds;
mod samples;
mod stamps;
mod telling;
mod time_histograms;
mod top;

pub use bounds::turns_alone;
pub use counted::Counted;
pub use kinds::{KINDS, Kind, a_command_is_of_one_kind};
pub use stamps::Stamps;
pub use time_histograms::{Bar, CLASSES, Times, bucket_of, count_below, fullest, power};
pub use top::{TimedExit, timed};
