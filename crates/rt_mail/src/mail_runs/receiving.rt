//! The caller, which takes while the threads send.

ghost use Rattle.std.specs.Prelude.{◌≡◌, List, ℕ, Some, None, length, map, IfOk};
ghost use Rattle.rt_mail.specs.mail_post.PostStates.{OfPost, AreAll, all_sent, whole_of};
ghost use Rattle.rt_mail.specs.mail_runs.MailThreads.{mutator_of, sender_of, AreMailThreads, IsFirst, IsReceived};
ghost use Rattle.rt_mail.specs.mail_runs.Spawned.{AreSpawned};

use crate::mail_post::{Post, Sender, Taker};
use crate::mail_runs::mail_board::MailBoard;
use crate::mail_runs::mail_thread::MailThread;
use crate::mail_runs::spawned::{Spawned, begin_all, finish_all};
use atom_board::Mutator;
use block_store::OutOfMemory;
use crossbeam_utils::Backoff;
use heap_system::Pace;
use std::alloc::Global;
use std::sync::Wait;
use std::sync::atomic::Ordering;
use std::thread;
use std::thread::Threads;

/// Takes until the queue is found empty. Once the senders were gathered, all was taken then.
fn take_all<R: Wait>(rt: &R, post: &Post, who: &mut Taker) -> Result<(), OutOfMemory>
    requires { who.old.post ≡ post.now.id }
    ensures post { who.new.post ≡ who.old.post }
    ensures sent { who.new.sent ≡ who.old.sent }
    ensures size { length who.new.taken ≡ length who.old.taken }
    ensures all { IfOk result (λ _. (all : List (List ℕ)) → who.old.sent ≡ Some all
        → who.new.taken ≡ all) }
{
    for _ in rt.forever() {
        if post.take(rt, who)?.is_none() {
            return Ok(());
        }
    }
    unreachable!()
}

/// Takes what the mail threads send until so many have ended. What they sent last may be left.
fn take_while_they_speak<R: Wait>(
    rt: &R,
    mail_board: &MailBoard,
    mail_threads: usize,
    who: &mut Taker,
) -> Result<(), OutOfMemory>
    requires { who.old.post ≡ mail_board.now.post.id }
    ensures post { who.new.post ≡ who.old.post }
    ensures sent { who.new.sent ≡ who.old.sent }
    ensures size { length who.new.taken ≡ length who.old.taken }
{
    let backoff = Backoff::new();
    for _ in rt.forever() {
        if mail_board.post.take(rt, who)?.is_some() {
            backoff.reset();
        } else if mail_board.ended.load(Ordering::SeqCst) >= mail_threads as u64 {
            return Ok(());
        } else {
            backoff.snooze();
            thread::yield_now();
        }
    }
    unreachable!()
}

/// Gathers the senders, and takes what is left of what they sent.
fn take_rest<R: Wait>(
    rt: &R,
    post: &Post,
    who: &mut Taker,
    senders: Vec<Sender>,
) -> Result<(), OutOfMemory>
    requires post { (who.old.post ≡ post.now.id) × OfPost post.now.id senders.items }
    requires all { AreAll (length who.old.taken) senders.items }
    requires first { who.old.sent ≡ None }
    ensures post { who.new.post ≡ who.old.post }
    ensures sent { who.new.sent
        ≡ Some (all_sent (length who.old.taken) (map whole_of senders.items)) }
    ensures taken { IfOk result (λ _. who.new.taken
        ≡ all_sent (length who.old.taken) (map whole_of senders.items)) }
{
    post.gather(rt, who, senders);
    take_all(rt, post, who)
}

/// The mutators and the senders of mail threads, in order.
fn parted(
    alloc: Global,
    mail_threads: Vec<MailThread>,
) -> Result<(Vec<Mutator>, Vec<Sender>), OutOfMemory>
    ensures mutators { IfOk result (λ r. r.0.items ≡ map mutator_of mail_threads.items) }
    ensures senders { IfOk result (λ r. r.1.items ≡ map sender_of mail_threads.items) }
{
    let mut mutators = Vec::new(alloc);
    let mut senders = Vec::new(alloc);
    for who in mail_threads {
        let MailThread { mutator, sender } = who;
        mutators.push(mutator)?;
        senders.push(sender)?;
    }
    Ok((mutators, senders))
}

/// Takes what the threads send while they run, and what is left when they have ended.
fn receive<R: Threads + Wait>(
    rt: &R,
    alloc: Global,
    mail_board: &MailBoard,
    spawned: Vec<Spawned>,
    taker: Taker,
) -> Result<(Vec<Mutator>, Taker), OutOfMemory>
    requires spawned { AreSpawned mail_board.now spawned.items }
    requires taker { IsFirst mail_board.now taker }
    ensures { IfOk result (λ r. IsReceived mail_board.now r.0.items r.1) }
{
    let mut taker = taker;
    take_while_they_speak(rt, mail_board, spawned.len(), &mut taker)?;
    let mail_threads = finish_all(rt, alloc, spawned)?;
    let (mutators, senders) = parted(alloc, mail_threads)?;
    take_rest(rt, &mail_board.post, &mut taker, senders)?;
    Ok((mutators, taker))
}

/// Lets all mail threads of a mail board send, beside each other where threads can be made,
/// and takes all that they send.
pub(crate) fn delivered<R: Threads + Wait + Sync, Q: Pace>(
    rt: &R,
    alloc: Global,
    mail_board: &MailBoard,
    pace: &Q,
    mail_threads: Vec<MailThread>,
    taker: Taker,
) -> Result<(Vec<Mutator>, Taker), OutOfMemory>
    requires mail_threads { AreMailThreads mail_board.now mail_threads.items }
    requires taker { IsFirst mail_board.now taker }
    ensures { IfOk result (λ r. IsReceived mail_board.now r.0.items r.1) }
{
    thread::scope(
        thread::scope_env(),
        rt,
        |scope| -> Result<(Vec<Mutator>, Taker), OutOfMemory>
            requires { AreMailThreads mail_board.now mail_threads.items × IsFirst mail_board.now taker }
            ensures { IfOk result (λ r. IsReceived mail_board.entry.now r.0.items r.1) }
        {
            let spawned = begin_all(scope, rt, alloc, mail_board, pace, mail_threads)?;
            receive(rt, alloc, mail_board, spawned, taker)
        },
    )
}
