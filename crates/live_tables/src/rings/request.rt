//! What a worker is asked to do with the rings.

/// A request of a worker.
#[derive(Clone, Copy, Debug, PartialEq, Eq)]
pub enum RingRequest {
    /// Keeps a number in the worker's own ring, in place of the oldest of eight.
    Keep { number: u64 },
    /// Shows what is at a place, 0 to 7, of a thread's ring.
    Recall { thread: u32, place: u32 },
}
