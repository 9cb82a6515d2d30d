//! From a job to its closed board and its letters.

ghost use Rattle.std.specs.Prelude.{◌≡◌, ◌≤◌, ◌+◌, ◌*◌, map, length, IfOk};
ghost use Rattle.rate_plan.specs.Rates.{IsAdmitted};
ghost use Rattle.trace_text.specs.Jobs.{IsJobInBounds};
ghost use Rattle.rt_mail.specs.said_numbers.Said.{numbers_said, says_in};
ghost use Rattle.atom_board.specs.threaded_runs.EndedRuns.{HasHistory, HasTurns, job_of};
ghost use Rattle.rt_mail.specs.mail_runs.Rooms.{room_of};
ghost use Rattle.rt_mail.specs.mail_runs.MailThreads.{AreMailThreads, IsFirst};

use crate::mail_post::{Post, Taken, Taker};
use crate::mail_runs::mail_board::{MailBoard, closed, paired};
use crate::mail_runs::mail_thread::MailThread;
use crate::mail_runs::receiving::delivered;
use crate::said_numbers::says_of;
use atom_board::{AtomBoard, Closed};
use block_store::OutOfMemory;
use heap_system::{Pace, cycles_cost_few_units, cycles_give_few_blocks, fulls_are_licensed};
use std::alloc::Global;
use std::sync::Wait;
use std::sync::atomic::AtomicU64;
use std::thread::Threads;
use trace_text::Job;

/// Runs a job of one or two threads to its end, and tells the pace before each command. Each thread
/// sends the numbers that it says, in order, and the caller takes them until all threads have
/// ended, and then what is left. Gives the board, closed, and the letters: of each thread just the
/// numbers that its log shows by `say`.
///
/// A thread that cannot be made is run by the caller at once. The queue has room for all letters of
/// the job, so that no thread waits for the caller. That the threads come to their ends is not
/// promised, and that letters are taken while they run is tested alone.
///
/// # Errors
///
/// `OutOfMemory` where there is no room for the heap, the logs, the queue or the letters.
pub fn deliver<R: Threads + Wait + Sync, Q: Pace>(
    rt: &R,
    alloc: Global,
    job: Job,
    pace: &Q,
) -> Result<(Closed, Taken), OutOfMemory>
    requires bounds { IsJobInBounds job }
    requires admitted { IsAdmitted job.config }
    requires few { job.config.threads ≤ 2 }
    ensures job { IfOk result (λ r. job_of r.0 ≡ job) }
    ensures ran { IfOk result (λ r. HasHistory r.0) }
    ensures turns { IfOk result (λ r. HasTurns r.0) }
    ensures taken { IfOk result (λ r. r.1.taken ≡ map numbers_said r.0.logs) }
    ensures sent { IfOk result (λ r. r.1.sent ≡ map numbers_said r.0.logs) }
{
    let room = room_for(&job);
    deliver_through(rt, alloc, job, room, pace)
}

/// The same through a queue that has room for so many letters, at least 1. Where it is full, a thread
/// waits until the caller has taken one.
///
/// # Errors
///
/// `OutOfMemory` where there is no room for the heap, the logs, the queue or the letters.
pub fn deliver_through<R: Threads + Wait + Sync, Q: Pace>(
    rt: &R,
    alloc: Global,
    job: Job,
    room: usize,
    pace: &Q,
) -> Result<(Closed, Taken), OutOfMemory>
    requires bounds { IsJobInBounds job }
    requires admitted { IsAdmitted job.config }
    requires few { job.config.threads ≤ 2 }
    requires room { 1 ≤ room }
    ensures job { IfOk result (λ r. job_of r.0 ≡ job) }
    ensures ran { IfOk result (λ r. HasHistory r.0) }
    ensures turns { IfOk result (λ r. HasTurns r.0) }
    ensures taken { IfOk result (λ r. r.1.taken ≡ map numbers_said r.0.logs) }
    ensures sent { IfOk result (λ r. r.1.sent ≡ map numbers_said r.0.logs) }
{
    fulls_are_licensed();
    cycles_give_few_blocks();
    cycles_cost_few_units();
    let (mail_board, mail_threads, taker) = opened(alloc, job, room)?;
    let (mutators, taker) = delivered(rt, alloc, &mail_board, pace, mail_threads, taker)?;
    Ok(closed(mail_board, mutators, taker))
}

/// The board of a job and its post, with a mail thread for each thread, before the first turn. The
/// queue has room for so many letters, at least 1.
fn opened(
    alloc: Global,
    job: Job,
    room: usize,
) -> Result<(MailBoard, Vec<MailThread>, Taker), OutOfMemory>
    requires bounds { IsJobInBounds job }
    requires admitted { IsAdmitted job.config }
    requires few { job.config.threads ≤ 2 }
    requires room { 1 ≤ room }
    ensures board { IfOk result (λ r. (r.0.board.config ≡ job.config)
        × (r.0.board.traces ≡ job.traces)) }
    ensures mail_threads { IfOk result (λ r. AreMailThreads r.0 r.1.items) }
    ensures taker { IfOk result (λ r. IsFirst r.0 r.2) }
    ensures room { IfOk result (λ r. r.0.post.room ≡ room) }
{
    let threads = job.config.threads;
    let (board, mutators) = AtomBoard::new(alloc, job.config, job.traces)?;
    let (post, senders, taker) = Post::new(alloc, threads, room)?;
    let mail_threads = paired(alloc, mutators, senders)?;
    let ended = AtomicU64::new(0);
    Ok((MailBoard { board, post, ended }, mail_threads, taker))
}

/// The room for the letters of a job: as many as it has `say` commands, and one at least.
fn room_for(job: &Job) -> usize
    requires { IsJobInBounds job.now }
    ensures { result ≡ room_of job.now.traces }
{
    let mut says: usize = 0;
    for trace in &job.traces {
        says += says_of(trace);
    }
    says.max(1)
}
