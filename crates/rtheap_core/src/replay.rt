//! A replay of a job.

ghost use Rattle.std.specs.Prelude.{◌≡◌, ◌≤◌, IfOk, IfErr};
ghost use Rattle.block_store.specs.Phases.{cycle_of};
ghost use Rattle.block_store.specs.Places.{Phase};
ghost use Rattle.heap_system.specs.Machines.{heap_in};
ghost use Rattle.heap_system.specs.Systems.{AllDone, items_kept, logs_of};
ghost use Rattle.rate_plan.specs.Rates.{IsAdmitted};
ghost use Rattle.trace_text.specs.Jobs.{IsJobInBounds};
ghost use Rattle.rtheap_core.specs.declared.exit.RunEnd.TheVariants as ends;
ghost use Rattle.rtheap_core.specs.EndedRuns.{job_of};
ghost use Rattle.rtheap_core.specs.Outcomes.{IsReplayShown, IsReplayFault};
ghost use Rattle.rtheap_core.specs.Tasks.{most_turns};

use crate::schedules::{Schedule, replay, replays_are_runs};
use exit_statuses::Refusal;
use heap_system::{
    Finished, System, cycles_cost_few_units, cycles_give_few_blocks, fulls_are_licensed,
};
use std::alloc::Global;
use trace_text::Job;

/// Makes the turns of a schedule over a job, at most so many, and stops as soon as all threads are
/// done.
///
/// # Errors
///
/// `OutOfMemory` where there is no room for the heap, the logs or the order; `TurnsUsed` where a
/// thread is not done.
pub fn replay_job(
    alloc: Global,
    job: Job,
    schedule: Schedule,
    turns: u64,
) -> Result<Finished, Refusal>
    requires bounds { IsJobInBounds job }
    requires admitted { IsAdmitted job.config }
    requires turns { turns ≤ most_turns }
    ensures job { IfOk result (λ f. job_of (ends.Replayed f) ≡ job) }
    ensures replayed { IfOk result (IsReplayShown schedule turns) }
    ensures fault { IfErr result (IsReplayFault job schedule turns) }
{
    fulls_are_licensed();
    cycles_give_few_blocks();
    cycles_cost_few_units();
    replays_are_runs();
    let mut system = System::new_ordered(alloc, job.config, job.traces, turns)?;
    match replay(&mut system, schedule, turns) {
        Some(thread) => Err(Refusal::TurnsUsed { thread }),
        None => Ok(finished(system)),
    }
}

/// What a system shows whose threads are all done.
#[tactic(auto, using(crate::proofs::Replays::none_is_undone))]
pub fn finished(system: System) -> Finished
    requires { AllDone system.config system.state }
    ensures config { result.config ≡ system.config }
    ensures logs { result.logs ≡ logs_of system.state }
    ensures cycles { result.cycles ≡ cycle_of (heap_in system.config system.state Phase) }
    ensures order { result.order ≡ items_kept system.ordered }
{
    let Ok(run) = system.finish() else {
        unreachable!()
    };
    run
}
