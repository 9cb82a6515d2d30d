//! What a call answers.

use atom_board::Closed;

/// What became of a call. `due` is the status by all but the writing: 0 where the script was run, 2
/// where there were words, 3 for an input that is no script, 4 for a heap without a rate, 5 for a read
/// fault, 7 for want of memory. `status` is `due`, or 6 where writing failed. `run` is there where
/// `due` is 0.
#[derive(Drop)]
pub struct ScriptExit {
    pub status: u8,
    pub due: u8,
    pub run: Option<Closed>,
}
