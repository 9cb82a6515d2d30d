//! Calls of `rt_mail`: posts of one or two senders, and whole jobs.

ghost use Rattle.std.specs.Prelude.{◌≡◌, ◌≤◌, length, IfOk, IsSome, OnOk};
ghost use Rattle.rate_plan.specs.Rates.{IsAdmitted};
ghost use Rattle.trace_text.specs.Jobs.{IsJobInBounds};

use atom_board::Closed;
use block_store::OutOfMemory;
use heap_system::Pace;
use never_heap::Logs;
use rate_plan::plan;
use rt_mail::{Letter, Post, Sender, Taken, Taker, deliver, deliver_through, mail};
use std::alloc::{AllocError, Global};
use std::marker::Model;
use std::process::Abort;
use std::sync::Wait;
use std::test::Fail;
use std::thread::Threads;
use trace_text::{Job, MemSink, MemSource, read_trace};

// A post with room for so many letters, its only sender, and its taker.
pub fn post_of_one(alloc: Global, room: usize) -> Result<(Post, Sender, Taker), OutOfMemory>
    requires { 1 ≤ room }
    ensures sender { IfOk result (λ r. (r.1.post ≡ r.0.id) × (r.1.thread ≡ 0)) }
    ensures taker { IfOk result (λ r. (r.2.post ≡ r.0.id) × (length r.2.taken ≡ 1)) }
{
    let (post, mut senders, taker) = Post::new(alloc, 1, room)?;
    let sender = senders.remove(0);
    Ok((post, sender, taker))
}

// A post with room for two letters, its two senders, and its taker.
pub fn post_of_two(alloc: Global) -> Result<(Post, Sender, Sender, Taker), OutOfMemory>
    ensures first { IfOk result (λ r. (r.1.post ≡ r.0.id) × (r.1.thread ≡ 0)) }
    ensures second { IfOk result (λ r. (r.2.post ≡ r.0.id) × (r.2.thread ≡ 1)) }
    ensures taker { IfOk result (λ r. (r.3.post ≡ r.0.id) × (length r.3.taken ≡ 2)) }
{
    let (post, mut senders, taker) = Post::new(alloc, 2, 2)?;
    let second = senders.remove(1);
    let first = senders.remove(0);
    Ok((post, first, second, taker))
}

// What a sender does, or which letter, of a thread and a number, comes next.
#[derive(Clone, Copy)]
pub enum Row {
    Sends(u64),
    Comes(Option<(u32, u64)>),
}

// Does these rows with one of the senders.
pub fn works<R: Wait + Abort>(
    rt: &R,
    post: &Post,
    sender: &mut Sender,
    taker: &mut Taker,
    rows: &[Row],
)
    requires sender { sender.old.post ≡ post.now.id }
    requires taker { taker.old.post ≡ post.now.id }
    ensures sender { (sender.new.post ≡ sender.old.post) × (sender.new.thread ≡ sender.old.thread) }
    ensures taker { (taker.new.post ≡ taker.old.post)
        × (length taker.new.taken ≡ length taker.old.taken) }
{
    for row in rows {
        match *row {
            Row::Sends(number) => sends(rt, post, sender, number),
            Row::Comes(letter) => comes(rt, post, taker, letter),
        }
    }
}

fn sends<R: Wait>(rt: &R, post: &Post, sender: &mut Sender, number: u64)
    requires { sender.old.post ≡ post.now.id }
    ensures { (sender.new.post ≡ sender.old.post) × (sender.new.thread ≡ sender.old.thread) }
{
    post.send(rt, sender, number);
}

// The next letter is this one.
fn comes<R: Wait + Abort>(rt: &R, post: &Post, taker: &mut Taker, wanted: Option<(u32, u64)>)
    requires { taker.old.post ≡ post.now.id }
    ensures { (taker.new.post ≡ taker.old.post) × (taker.new.sent ≡ taker.old.sent)
        × (length taker.new.taken ≡ length taker.old.taken) }
{
    match post.take(rt, taker) {
        Ok(letter) => is_letter(rt, letter, wanted),
        Err(_) => panic!(rt; "no memory"),
    }
}

fn is_letter(rt: &impl Abort, letter: Option<Letter>, wanted: Option<(u32, u64)>) {
    let found = match letter {
        Some(Letter { thread, number }) => Some((thread, number)),
        None => None,
    };
    assert_eq!(rt; found, wanted);
}

// Gathers the only sender.
#[tactic(auto, using(crate::proofs::Pairs::one_is_all))]
pub fn gathers_one<R: Wait>(
    rt: &R,
    alloc: Global,
    post: &Post,
    sender: Sender,
    taker: &mut Taker,
) -> Result<(), AllocError>
    requires sender { (sender.post ≡ post.now.id) × (sender.thread ≡ 0) }
    requires taker { (taker.old.post ≡ post.now.id) × (length taker.old.taken ≡ 1) }
    ensures taker { OnOk result ((taker.new.post ≡ taker.old.post) × IsSome taker.new.sent
        × (length taker.new.taken ≡ length taker.old.taken)) }
{
    let senders = vec![in alloc; sender]?;
    post.gather(rt, taker, senders);
    Ok(())
}

// Gathers the two senders, the second one first.
#[tactic(auto, using(crate::proofs::Pairs::two_are_all))]
pub fn gathers_two<R: Wait>(
    rt: &R,
    alloc: Global,
    post: &Post,
    first: Sender,
    second: Sender,
    taker: &mut Taker,
) -> Result<(), AllocError>
    requires first { (first.post ≡ post.now.id) × (first.thread ≡ 0) }
    requires second { (second.post ≡ post.now.id) × (second.thread ≡ 1) }
    requires taker { (taker.old.post ≡ post.now.id) × (length taker.old.taken ≡ 2) }
    ensures taker { OnOk result ((taker.new.post ≡ taker.old.post) × IsSome taker.new.sent
        × (length taker.new.taken ≡ length taker.old.taken)) }
{
    let senders = vec![in alloc; second, first]?;
    post.gather(rt, taker, senders);
    Ok(())
}

// Closes a post after these letters.
pub fn closes<R: Wait + Abort>(
    rt: &R,
    post: Post,
    taker: Taker,
    letters: &[Option<(u32, u64)>],
) -> Taken
    requires post { taker.post ≡ post.id }
    requires gathered { IsSome taker.sent }
    ensures { length result.taken ≡ length taker.taken }
{
    let mut taker = taker;
    for letter in letters {
        comes(rt, &post, &mut taker, *letter);
    }
    post.close(taker)
}

// The job of one or two threads that a text spells.
fn job_of(alloc: Global, text: &str) -> Result<Job, Fail>
    ensures bounds { IfOk result IsJobInBounds }
    ensures admitted { IfOk result (λ job. IsAdmitted job.config) }
    ensures few { IfOk result (λ job. job.config.threads ≤ 2) }
{
    let bytes = Vec::from_slice(alloc, text.as_bytes())?;
    let mut source = MemSource::new(bytes, 4096, Vec::new(alloc));
    let Ok(job) = read_trace(alloc, &mut source) else {
        return Err("no job".into());
    };
    if plan(&job.config).is_err() || job.config.threads > 2 {
        return Err("no job of two threads with a rate".into());
    }
    Ok(job)
}

// What was delivered of a job.
#[derive(Drop)]
pub struct Mail {
    closed: Closed,
    taken: Taken,
}

impl Model for Mail {
    ghost use Rattle.std.specs.Prelude.{◌≡◌, List, ℕ, map};
    ghost use Rattle.rt_mail.specs.said_numbers.Said.{numbers_said};

    ghost Value = { List (List ℕ) };

    ghost view = { λ m. m.taken.taken };

    ghost invariant = { λ m. m.taken.taken ≡ map numbers_said m.closed.logs };
}

// Runs a job with a queue that has room for all letters.
pub fn delivered<R: Threads + Wait + Sync, Q: Pace>(
    rt: &R,
    alloc: Global,
    text: &str,
    pace: &Q,
) -> Result<Mail, Fail> {
    let job = job_of(alloc, text)?;
    match deliver(rt, alloc, job, pace) {
        Ok((closed, taken)) => Ok(Mail { closed, taken }),
        Err(_) => Err("no memory".into()),
    }
}

// Runs a job with a queue that has room for one letter.
pub fn delivered_through_one<R: Threads + Wait + Sync, Q: Pace>(
    rt: &R,
    alloc: Global,
    text: &str,
    pace: &Q,
) -> Result<Mail, Fail> {
    let job = job_of(alloc, text)?;
    match deliver_through(rt, alloc, job, 1, pace) {
        Ok((closed, taken)) => Ok(Mail { closed, taken }),
        Err(_) => Err("no memory".into()),
    }
}

impl Mail {
    // Whether there are so many threads, and of each these numbers were taken.
    pub fn has(&self, wanted: &[&[u64]]) -> bool {
        if self.closed.threads() as usize != wanted.len() {
            return false;
        }
        for t in 0..self.closed.threads() {
            if self.taken.numbers(t) != wanted[t as usize] {
                return false;
            }
        }
        true
    }
}

// A whole call of `mail`: its statuses and its lines.
pub fn called<R: Threads + Wait + Sync, Q: Pace>(
    rt: &R,
    alloc: Global,
    text: &str,
    pace: &Q,
) -> Result<((u8, u8), MemSink), Fail> {
    let bytes = Vec::from_slice(alloc, text.as_bytes())?;
    let mut source = MemSource::new(bytes, 65_536, Vec::new(alloc));
    let mut sink = MemSink::new(alloc, 4096, Vec::new(alloc))
        .ok()
        .ok_or("memory")?;
    let exit = mail(rt, alloc, &[], &mut source, &mut sink, pace);
    Ok(((exit.status, exit.due), sink))
}
