//! All threads of a heap after one lock: one event is one hold of it.
#![tactic(auto)]

ghost use Rattle.std.specs.Prelude.{◌≡◌, None, map, IfOk, IfErr};
ghost use Rattle.heap_system.specs.Machines.{IsJob};
ghost use Rattle.heap_system.specs.Systems.{IsFinished, IsLeastUndone, items_kept};
ghost use Rattle.lock_board.specs.Logs.{commands_of};

use block_store::{Config, OutOfMemory};
use heap_system::{Finished, Pace, System, Turn, Unfinished};
use never_heap::Command;
use std::alloc::Global;
use std::marker::Model;
use std::sync::{Mutex, Wait};
use std::thread;

// A system that keeps no order.
#[derive(Drop)]
struct Plain {
    system: System,
}

impl Model for Plain {
    ghost use Rattle.std.specs.Prelude.{◌≡◌, None};
    ghost use Rattle.heap_system.specs.Systems.{Whole};

    ghost Value = { Whole };

    ghost view = { λ p. p.system };

    ghost invariant = { λ p. p.system.ordered ≡ None };
}

/// A system after a lock. Of it only its type is known: that it is one after some list of turns,
/// and keeps no order.
#[derive(Drop)]
pub struct LockBoard {
    system: Mutex<Plain>,
}

// What a thread found in one hold of the lock.
enum Held {
    // It begins the command of this number, which the pace is to be told of first.
    Begins(u64),
    // It made an event.
    Made(Turn),
    // It is done, or there is no such thread.
    Over,
}

// Looks at a thread, and makes its event, unless it begins a command that the pace was not told of.
// It was told of this many.
fn one_hold<R: Wait>(rt: &R, plain: &Mutex<Plain>, thread: u32, told: u64) -> Held {
    let mut plain = plain.lock(rt);
    let system = &mut plain.system;
    if thread >= system.config().threads {
        return Held::Over;
    }
    let local = system.local(thread);
    if local.at_rest() {
        if local.done() {
            return Held::Over;
        }
        let command = local.log().len() as u64;
        if command >= told {
            return Held::Begins(command);
        }
    }
    Held::Made(system.turn(thread))
}

// What the run of a system shows, whose traces are the commands of its logs.
fn finished_system(system: System) -> Result<Finished, Unfinished>
    ensures finished { IfOk result (λ f.
        IsFinished f.config (commands_of f.logs) f.logs f.cycles) }
    ensures order { IfOk result (λ f. f.order ≡ items_kept system.ordered) }
    ensures least { IfErr result (λ u. IsLeastUndone u.system.config u.system.state u.thread) }
{
    system.finish()
}

impl LockBoard {
    /// The board of a configuration that has a rate, with a trace for each thread. A trace is one
    /// life: its commands are in bounds, owe at most 2^45 units, and fewer than 2^43 of them make
    /// an object.
    ///
    /// # Errors
    ///
    /// `OutOfMemory` where there is no room for the words, the threads, their logs or the blocks
    /// that they hold while they build an object.
    pub fn new(
        alloc: Global,
        c: Config,
        traces: Vec<Vec<Command>>,
    ) -> Result<LockBoard, OutOfMemory>
        requires { IsJob c (map (λ v. v.items) traces.items) }
    {
        let system = System::new(alloc, c, traces)?;
        Ok(LockBoard {
            system: Mutex::new(Plain { system }),
        })
    }

    /// Makes turns of a thread until it is done, one event for each hold of the lock, and tells the
    /// pace before each command, outside of the lock. Where there is no such thread it does
    /// nothing.
    pub fn drive<R: Wait, Q: Pace>(&self, rt: &R, thread: u32, pace: &Q) {
        let mut told = 0;
        for _ in rt.forever() {
            match one_hold(rt, &self.system, thread, told) {
                Held::Begins(command) => {
                    pace.before(rt, thread, command);
                    told = command.saturating_add(1);
                }
                Held::Made(Turn::Waited) => thread::yield_now(),
                Held::Made(Turn::Went | Turn::Done) => {}
                Held::Over => return,
            }
        }
        unreachable!()
    }

    /// What the run shows, where all threads are done. It is a run of the configuration that it
    /// shows, and of the commands of its logs: the caller compares these with its job.
    ///
    /// # Errors
    ///
    /// The system, where a thread is not done, with the least such thread.
    pub fn close(self) -> Result<Finished, Unfinished>
        ensures finished { IfOk result (λ f.
            IsFinished f.config (commands_of f.logs) f.logs f.cycles) }
        ensures order { IfOk result (λ f. f.order ≡ None) }
        ensures least { IfErr result (λ u.
            IsLeastUndone u.system.config u.system.state u.thread) }
    {
        finished_system(self.system.into_inner().system)
    }
}
