//! Running a job on threads: a call of its own for each of its threads, on shared atomic words.

ghost use Rattle.std.specs.Prelude.{◌≡◌, IfOk, true};
ghost use Rattle.rate_plan.specs.Rates.{IsAdmitted};
ghost use Rattle.trace_text.specs.Jobs.{IsJobInBounds};
ghost use Rattle.heap_system.specs.Locals.{is_done};
ghost use Rattle.atom_board.specs.Mutators.{AreInOrder, AllAreDone, IsLater};
ghost use Rattle.atom_board.specs.threaded_runs.EndedRuns.{HasHistory, HasTurns, job_of};

use crate::{AtomBoard, Closed, Mutator};
use block_store::OutOfMemory;
use heap_system::{Pace, cycles_cost_few_units, cycles_give_few_blocks, fulls_are_licensed};
use std::alloc::Global;
use std::sync::Wait;
use std::thread;
use std::thread::Threads;
use trace_text::Job;

/// Runs a job to its end, each of its threads in a call of its own, and tells the pace before each
/// command. The calls are made beside each other where threads can be made, and else one after
/// another. That they come to their ends is not promised. The history of the run is the order of
/// turns of its threads; where there is one thread they are at most as many as the bounds of its
/// commands sum up to.
///
/// # Errors
///
/// `OutOfMemory` where there is no room for the heap, the logs or the calls.
pub fn run_job<R: Threads + Wait + Sync, Q: Pace>(
    rt: &R,
    alloc: Global,
    job: Job,
    pace: &Q,
) -> Result<Closed, OutOfMemory>
    requires bounds { IsJobInBounds job }
    requires admitted { IsAdmitted job.config }
    ensures job { IfOk result (λ f. job_of f ≡ job) }
    ensures ran { IfOk result HasHistory }
    ensures turns { IfOk result HasTurns }
{
    fulls_are_licensed();
    cycles_give_few_blocks();
    cycles_cost_few_units();
    let (board, mutators) = AtomBoard::new(alloc, job.config, job.traces)?;
    let done = driven(rt, &board, mutators, pace)?;
    Ok(board.close(done))
}

/// Drives each mutator of a board until it is done.
fn driven<R: Threads + Wait + Sync, Q: Pace>(
    rt: &R,
    board: &AtomBoard,
    mutators: Vec<Mutator>,
    pace: &Q,
) -> Result<Vec<Mutator>, OutOfMemory>
    requires { AreInOrder board.now mutators.items }
    ensures mutators { IfOk result (λ v. AreInOrder board.now v.items) }
    ensures done { IfOk result (λ v. AllAreDone v.items) }
{
    let done = thread::map_vec(
        rt,
        mutators,
        &|who: Mutator| -> Mutator
            requires { who.board ≡ board.now.id }
            ensures later { IsLater who result }
            ensures done { is_done result.local ≡ true }
        { board.drive(rt, who, pace) },
    )?;
    Ok(done)
}
