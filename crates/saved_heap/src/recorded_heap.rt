//! A heap for one thread that writes what it is asked as the text of a job.

mod recorder;

pub use recorder::{Ended, RecordFault, Recorder};
