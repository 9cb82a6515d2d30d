//! What is sent, and what each end knows of it.

use std::collections::LinkedList;

/// A number, and the thread that sent it.
#[derive(Clone, Copy, Debug, PartialEq, Eq)]
pub struct Letter {
    pub thread: u32,
    pub number: u64,
}

/// What a sender sent in all. It is in the proofs alone.
pub struct Whole {
    pub thread: u32,
    pub sent: LinkedList<u64>,
}

/// What a pass of the queue knows. No value of it is made.
pub enum View {
    /// The pass may do nothing more.
    Spent,
    /// A sender's: its thread, and the numbers that it sent.
    Sending(u32, LinkedList<u64>),
    /// The taker's: how many senders there are, the letters that were taken, and the senders that
    /// were gathered.
    Taking(u32, LinkedList<Letter>, LinkedList<Whole>),
}
