//! A system whose threads can be held, and for how many turns its order is kept.

ghost use Rattle.rate_plan.specs.Rates.{IsAdmitted};
ghost use Rattle.trace_text.specs.Jobs.{IsJobInBounds};

use block_store::OutOfMemory;
use heap_system::System;
use rtheap_core::Schedule;
use rtheap_core::schedules::replay;
use std::alloc::Global;
use std::marker::Model;
use trace_text::Job;

/// For so many turns the order is kept.
const TURNS: u64 = 1_000_000;

/// A system that keeps its order, and for how many turns at least there is room.
#[derive(Drop)]
pub struct Held {
    pub system: System,
    left: u64,
}

impl Model for Held {
    ghost use Rattle.std.specs.Prelude.{◌≤◌, IfSome};
    ghost use Rattle.heap_system.specs.Systems.{Whole};

    ghost Value = { Whole };

    ghost view = { λ h. h.system };

    ghost invariant = { λ h. IfSome h.system.ordered (λ o. h.left ≤ o.left) };
}

/// The opening of a job.
pub fn opened(alloc: Global, job: Job) -> Result<Held, OutOfMemory>
    requires bounds { IsJobInBounds job }
    requires admitted { IsAdmitted job.config }
{
    let system = System::new_ordered(alloc, job.config, job.traces, TURNS)?;
    Ok(Held {
        system,
        left: TURNS,
    })
}

impl Held {
    /// One turn of a thread, where there is one of that number.
    pub fn turn(&mut self, thread: u32) {
        if self.left > 0 && thread < self.system.config().threads {
            self.system.turn(thread);
            self.left -= 1;
        }
    }

    /// Drawn turns, until all threads are done or as many as there is room for were made.
    pub fn end(&mut self, key: u64) {
        let left = self.left;
        self.left = 0;
        replay(&mut self.system, Schedule::Key(key), left);
    }
}
