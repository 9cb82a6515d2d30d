//! The loop of a replay.

ghost use Rattle.std.specs.Prelude.{◌≡◌, ◌<◌, ◌≤◌, ℕ, IfSome, IfNone, true};
ghost use Rattle.heap_system.specs.Locals.{is_done};
ghost use Rattle.heap_system.specs.Machines.{local_at};
ghost use Rattle.heap_system.specs.Systems.{AllDone, IsLeastUndone};
ghost use Rattle.rtheap_core.specs.schedules.Schedules.{least_undone, turns_of};
ghost use Rattle.rtheap_core.specs.schedules.Replays.{system_after};
ghost use Rattle.rtheap_core.specs.schedules.Nexts.{next_at, IsNextBelow, thread_next, after_next};

use crate::schedules::Schedule;
use heap_system::System;
use rand_core::utils::NextWord;
use rand_pcg::Lcg64Xsh32;

// What the thread of the next turn is taken from.
#[derive(Drop)]
enum Next {
    // It is this thread's turn.
    Robin(u32),
    Serial,
    // The generator's next word is the turn's.
    Key(Lcg64Xsh32),
}

impl Next {
    // Before the first turn of so many threads.
    #[tactic(auto, unfolding(crate::specs::schedules::Schedules::generator))]
    fn first(schedule: Schedule, threads: u32) -> Next
        requires { 0 < threads }
        ensures { result ≡ next_at schedule threads 0 }
    {
        match schedule {
            Schedule::Robin => Next::Robin(0),
            Schedule::Serial => Next::Serial,
            Schedule::Key(key) => Next::Key(Lcg64Xsh32::new(key, 1)),
        }
    }

    // The thread of this turn, where this is the least that is not done.
    #[tactic(auto, unfolding(crate::specs::schedules::Schedules::word))]
    fn thread(&mut self, threads: u32, least: u32) -> u32
        requires some { 0 < threads }
        requires least { least < threads }
        requires below { IsNextBelow threads self.old }
        ensures thread { result ≡ thread_next threads least self.old }
        ensures next { self.new ≡ after_next threads self.old }
        ensures low { result < threads }
    {
        match self {
            Next::Robin(thread) => {
                let now = *thread;
                *thread = if now + 1 < threads { now + 1 } else { 0 };
                now
            }
            Next::Serial => least,
            Next::Key(words) => words.next_word() % threads,
        }
    }
}

// The least thread that is not done, where those below `from` are.
fn first_undone(system: &System, from: u32) -> Option<u32>
    requires { (t : ℕ) → t < from
        → is_done (local_at system.now.config system.now.state t) ≡ true }
    ensures value { result ≡ least_undone system.now.state }
    ensures undone { IfSome result (λ t. IsLeastUndone system.now.config system.now.state t) }
    ensures done { IfNone result (AllDone system.now.config system.now.state) }
{
    for thread in from..system.config().threads {
        if !system.local(thread).done() {
            return Some(thread);
        }
    }
    None
}

/// Makes at most so many turns of a schedule, and stops as soon as all threads are done. Answers
/// the least thread that is not done: none exactly where all are done. Where the order is kept
/// there is room for as many events.
pub fn replay(system: &mut System, schedule: Schedule, turns: u64) -> Option<u32>
    requires { IfSome system.old.ordered (λ o. turns ≤ o.left) }
    ensures state { system.new
        ≡ system_after system.old (turns_of schedule system.old.config system.old.state turns) }
    ensures undone { IfSome result (λ t. IsLeastUndone system.new.config system.new.state t) }
    ensures done { IfNone result (AllDone system.new.config system.new.state) }
{
    let threads = system.config().threads;
    let mut next = Next::first(schedule, threads);
    let mut least = 0;
    for _turn in 0..turns {
        least = first_undone(system, least)?;
        let thread = next.thread(threads, least);
        system.turn(thread);
    }
    first_undone(system, least)
}
