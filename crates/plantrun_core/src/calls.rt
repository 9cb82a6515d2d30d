//! What threads did, and what they were answered.

use array_tables::tag_table::Operation;

/// An operation that a thread did, with its answer, what the tag was before, and the stamp that the
/// thread drew when the operation had returned.
#[derive(Clone, Copy, PartialEq, Eq)]
pub struct Done {
    pub operation: Operation,
    pub answer: Option<(u64, u64)>,
    pub stamp: u64,
}

/// An operation of one of the threads.
#[derive(Clone, Copy)]
pub struct Step {
    pub thread: u32,
    pub done: Done,
}

/// What the four threads did, each in its order.
#[derive(Drop)]
pub struct Logs {
    pub input: Vec<Done>,
    pub control: Vec<Done>,
    pub alarms: Vec<Done>,
    pub history: Vec<Done>,
}

impl Logs {
    /// The log of a thread; that of the last one from 3 on.
    pub fn of(&self, thread: u32) -> &[Done] {
        match thread {
            0 => self.input.as_slice(),
            1 => self.control.as_slice(),
            2 => self.alarms.as_slice(),
            _ => self.history.as_slice(),
        }
    }
}
