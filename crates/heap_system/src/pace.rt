//! A call before each command of a running thread.

use std::sync::Wait;

/// Is called before the first event of each command, outside the gate. With it a test makes threads
/// meet.
pub trait Pace: Sync {
    /// Before the command of this number, from 0, of a thread.
    fn before<R: Wait>(&self, rt: &R, thread: u32, command: u64);
}

/// Does nothing before a command.
#[derive(Clone, Copy, Debug)]
pub struct NoPace;

impl Pace for NoPace {
    fn before<R: Wait>(&self, _rt: &R, _thread: u32, _command: u64) {}
}
