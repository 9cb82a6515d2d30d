//! What a call answers.

use crate::mail_post::Taken;
use atom_board::Closed;

/// What became of a call. `due` is the status by all but the writing: 0 where the numbers were
/// sent and kept, 2 where there were words, 3 for an input that is no job, or a job of too many
/// threads or too many `say` commands, 4 for a heap without a rate, 5 for a read fault, 7 for
/// want of memory. `status` is `due`, or 6 where writing failed. Where `due` is 0, and only
/// there, `first` and `second` are the runs of the two heaps, and `taken` is what came of each
/// thread.
#[derive(Drop)]
pub struct MailExit {
    pub status: u8,
    pub due: u8,
    pub first: Option<Closed>,
    pub taken: Option<Taken>,
    pub second: Option<Closed>,
}
