//! A board, its post, and how many of its mail threads have ended.

ghost use Rattle.std.specs.Prelude.{◌≡◌, length, map, IfOk};
ghost use Rattle.rt_mail.specs.said_numbers.Said.{numbers_said};
ghost use Rattle.atom_board.specs.Mutators.{IsFinishedBy};
ghost use Rattle.rt_mail.specs.mail_runs.MailThreads.{zipped, IsReceived};

use crate::mail_post::{Post, Sender, Taken, Taker};
use crate::mail_runs::mail_thread::MailThread;
use atom_board::{AtomBoard, Closed, Mutator};
use block_store::OutOfMemory;
use std::alloc::Global;
use std::sync::atomic::AtomicU64;

/// The board of a job, the post by which its threads send, and how many of them have ended.
#[derive(Drop)]
pub(crate) struct MailBoard {
    pub(crate) board: AtomBoard,
    pub(crate) post: Post,
    pub(crate) ended: AtomicU64,
}

/// Each mutator with a sender, in order.
pub(crate) fn paired(
    alloc: Global,
    mutators: Vec<Mutator>,
    senders: Vec<Sender>,
) -> Result<Vec<MailThread>, OutOfMemory>
    requires { length mutators.items ≡ length senders.items }
    ensures { IfOk result (λ v. v.items ≡ zipped mutators.items senders.items) }
{
    let mut senders = senders;
    let mut mail_threads = Vec::new(alloc);
    for mutator in mutators {
        let sender = senders.remove(0);
        mail_threads.push(MailThread { mutator, sender })?;
    }
    Ok(mail_threads)
}

/// Closes board and post, when all was done and taken.
pub(crate) fn closed(mail_board: MailBoard, mutators: Vec<Mutator>, taker: Taker) -> (Closed, Taken)
    requires { IsReceived mail_board mutators.items taker }
    ensures config { result.0.config ≡ mail_board.board.config }
    ensures counted { IsFinishedBy mail_board.board.config mail_board.board.traces mutators.items
        result.0.logs result.0.cycles }
    ensures taken { result.1.taken ≡ map numbers_said result.0.logs }
    ensures sent { result.1.sent ≡ map numbers_said result.0.logs }
{
    let MailBoard {
        board,
        post,
        ended: _,
    } = mail_board;
    (board.close(mutators), post.close(taker))
}
