//! Histories as plain values, and programs that answer what a definition of `never_heap` says of
//! one. They are slow: each does what the definition says, from the first item on. They are for
//! tests of the crates above, in which a run is judged by nothing but the definitions.

mod bounds;
mod counts;
mod orders;
mod replays;

pub use bounds::in_bounds;
pub use counts::{after_start, before_start, given_in, is_right_work, starts, work};
use never_heap::Entry;
pub use orders::history_of;
pub use replays::{is_legal, is_licensed, live_at};

/// An item of a history.
#[derive(Clone, Copy, Debug, PartialEq, Eq)]
pub enum Happened {
    /// A cycle started.
    Started,
    /// A command was answered.
    Did(Entry),
}
