//! A thread that sends what it says.

ghost use Rattle.std.specs.Prelude.{◌≡◌, ◌++◌, ◌∷◌, []};
ghost use Rattle.rt_mail.specs.said_numbers.Said.{numbers_said};
ghost use Rattle.rt_mail.specs.mail_runs.MailThreads.{IsMailThread, HasSentAll};

use crate::mail_post::{Post, Sender};
use crate::mail_runs::mail_board::MailBoard;
use crate::said_numbers::number_said;
use atom_board::Mutator;
use crossbeam_utils::Backoff;
use heap_system::{Pace, Turn};
use never_heap::Entry;
use std::sync::Wait;
use std::thread;

/// A mutator, and the sender that sends what it says.
#[derive(Drop)]
pub(crate) struct MailThread {
    pub(crate) mutator: Mutator,
    pub(crate) sender: Sender,
}

impl MailThread {
    /// Makes a turn of the mutator, and sends the numbers by which its log has grown.
    fn turn<R: Wait>(&mut self, rt: &R, mail_board: &MailBoard) -> Turn
        requires { IsMailThread mail_board.now self.old.mutator.local.thread self.old }
        ensures { IsMailThread mail_board.now self.old.mutator.local.thread self.new }
    {
        let told = self.mutator.log().len();
        let answer = mail_board.board.turn(&mut self.mutator);
        tell(
            rt,
            &mail_board.post,
            &mut self.sender,
            &self.mutator.log()[told..],
        );
        answer
    }

    /// Makes turns until the mutator is done, and tells the pace before each command. After a turn
    /// that waited it pauses, longer each time until it has ended a command.
    pub(crate) fn send_all<R: Wait, Q: Pace>(
        self,
        rt: &R,
        mail_board: &MailBoard,
        pace: &Q,
    ) -> MailThread
        requires { IsMailThread mail_board.now self.mutator.local.thread self }
        ensures { HasSentAll mail_board.now self.mutator.local.thread result }
    {
        let mut who = self;
        let backoff = Backoff::new();
        for _ in rt.forever() {
            let ended = who.mutator.log().len();
            if who.mutator.at_rest() {
                if who.mutator.done() {
                    return who;
                }
                pace.before(rt, who.mutator.thread(), ended as u64);
            }
            if who.turn(rt, mail_board) == Turn::Waited {
                backoff.snooze();
                thread::yield_now();
            } else if who.mutator.log().len() > ended {
                backoff.reset();
            }
        }
        unreachable!()
    }
}

/// Sends the numbers that entries show.
fn tell<R: Wait>(rt: &R, post: &Post, sender: &mut Sender, entries: &[Entry])
    requires { sender.old.post ≡ post.now.id }
    ensures post { sender.new.post ≡ sender.old.post }
    ensures thread { sender.new.thread ≡ sender.old.thread }
    ensures sent { sender.new.sent ≡ sender.old.sent ++ numbers_said entries.now }
{
    for entry in entries {
        tell_one(rt, post, sender, entry);
    }
}

/// The same of one entry.
fn tell_one<R: Wait>(rt: &R, post: &Post, sender: &mut Sender, entry: &Entry)
    requires { sender.old.post ≡ post.now.id }
    ensures post { sender.new.post ≡ sender.old.post }
    ensures thread { sender.new.thread ≡ sender.old.thread }
    ensures sent { sender.new.sent ≡ sender.old.sent ++ numbers_said (entry.now ∷ []) }
{
    if let Some(number) = number_said(entry) {
        post.send(rt, sender, number);
    }
}
