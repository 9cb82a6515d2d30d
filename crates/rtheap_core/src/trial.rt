//! A trial of a job: its threads one after another.

ghost use Rattle.std.specs.Prelude.{IfOk};
ghost use Rattle.rate_plan.specs.Rates.{IsAdmitted};
ghost use Rattle.trace_text.specs.Jobs.{IsJobInBounds};
ghost use Rattle.rtheap_core.specs.Outcomes.{HasTotals};

use crate::replay::finished;
use crate::schedules::{Schedule, replay, replays_are_runs, replays_end, replays_stop};
use block_store::OutOfMemory;
use heap_system::System;
use never_heap::Logs;
use rate_plan::one_rate;
use std::alloc::Global;
use trace_text::Job;

/// How many cycles a run started, and how many units it made.
#[derive(Clone, Copy, Debug, PartialEq, Eq)]
pub struct Totals {
    pub cycles: u64,
    pub units: u64,
}

/// Runs a job to its end, each turn being that of the least thread that is not done.
///
/// # Errors
///
/// `OutOfMemory` where there is no room for the heap or the logs.
pub fn trial(alloc: Global, job: Job) -> Result<Totals, OutOfMemory>
    requires bounds { IsJobInBounds job }
    requires admitted { IsAdmitted job.config }
    ensures { IfOk result (HasTotals job) }
{
    one_rate();
    replays_are_runs();
    replays_end();
    replays_stop();
    let mut system = System::new(alloc, job.config, job.traces)?;
    replay(&mut system, Schedule::Serial, u64::MAX);
    let run = finished(system);
    Ok(Totals {
        cycles: run.cycles(),
        units: run.units(),
    })
}
