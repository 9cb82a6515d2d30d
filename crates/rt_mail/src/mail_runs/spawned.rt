//! Mail threads in threads of a scope.

ghost use Rattle.std.specs.Prelude.{◌≡◌, length, IfOk};
ghost use Rattle.rt_mail.specs.mail_runs.MailThreads.{IsMailThread, AreMailThreads};
ghost use Rattle.rt_mail.specs.mail_runs.Spawned.{IsSpawned, AreSpawned, Gives, AllGive};

use crate::mail_runs::mail_board::MailBoard;
use crate::mail_runs::mail_thread::MailThread;
use block_store::OutOfMemory;
use heap_system::Pace;
use std::alloc::Global;
use std::snapshot::Snapshot;
use std::sync::Wait;
use std::sync::atomic::Ordering;
use std::thread::{Promise, PromisedHandle, Scope, Threads};

/// What the mail thread of a thread of a mail board comes back as.
#[derive(Drop)]
pub(crate) struct Speaks {
    mail_board: Snapshot<MailBoard>,
    thread: u32,
}

impl Promise<MailThread> for Speaks {
    ghost use Rattle.rt_mail.specs.mail_runs.MailThreads.{HasSentAll};

    ghost kept_by = { λ p r. HasSentAll p.mail_board.value p.thread r };
}

/// A mail thread whose thread runs, or that was run at once.
#[derive(Drop)]
pub(crate) enum Spawned {
    Running(PromisedHandle<MailThread, Speaks>),
    Ended(MailThread),
}

/// Lets a mail thread send in a thread of its own, or at once where none can be made.
fn begin<'s, 'e, R: Threads + Wait + Sync, Q: Pace>(
    scope: &Scope<'s, &'e ()>,
    rt: &'e R,
    mail_board: &'e MailBoard,
    pace: &'e Q,
    who: MailThread,
) -> Spawned
    requires { IsMailThread mail_board.now who.mutator.local.thread who }
    ensures { IsSpawned mail_board.now who.mutator.local.thread result }
{
    let promise = Speaks {
        mail_board: Snapshot::of(mail_board),
        thread: who.mutator.thread(),
    };
    let started = scope.spawn_with(
        promise,
        move ||
            requires { IsMailThread mail_board.now who.mutator.local.thread who }
        {
            let spoken = who.send_all(rt, mail_board, pace);
            mail_board.ended.fetch_add(1, Ordering::SeqCst);
            spoken
        },
    );
    match started {
        Ok(handle) => Spawned::Running(handle),
        Err(refused) => Spawned::Ended((refused.value)()),
    }
}

/// The same of all mail threads of a mail board.
pub(crate) fn begin_all<'s, 'e, R: Threads + Wait + Sync, Q: Pace>(
    scope: &Scope<'s, &'e ()>,
    rt: &'e R,
    alloc: Global,
    mail_board: &'e MailBoard,
    pace: &'e Q,
    mail_threads: Vec<MailThread>,
) -> Result<Vec<Spawned>, OutOfMemory>
    requires { AreMailThreads mail_board.now mail_threads.items }
    ensures { IfOk result (λ v. AreSpawned mail_board.now v.items) }
{
    let mut spawned = Vec::new(alloc);
    for who in mail_threads {
        spawned.push(begin(scope, rt, mail_board, pace, who))?;
    }
    Ok(spawned)
}

/// Waits for the end of a mail thread's thread.
fn finish<R: Threads + Wait>(rt: &R, spawned: Spawned) -> MailThread
    ensures { Gives spawned result }
{
    match spawned {
        Spawned::Running(handle) => handle.join(rt),
        Spawned::Ended(who) => who,
    }
}

/// The same of all.
pub(crate) fn finish_all<R: Threads + Wait>(
    rt: &R,
    alloc: Global,
    spawned: Vec<Spawned>,
) -> Result<Vec<MailThread>, OutOfMemory>
    ensures { IfOk result (λ v. AllGive spawned.items v.items) }
{
    let mut mail_threads = Vec::new(alloc);
    for one in spawned {
        mail_threads.push(finish(rt, one))?;
    }
    Ok(mail_threads)
}
