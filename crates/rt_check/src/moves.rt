//! Orders of commands.

use never_heap::Command;

/// A command of a thread, at its place in an order.
#[derive(Clone, Copy, Debug, PartialEq, Eq)]
pub struct Move {
    pub thread: u32,
    pub command: Command,
}
