//! The word `run`.

ghost use Rattle.std.specs.Prelude.{◌≡◌, ◌≢◌, ◌⊎◌, List, ℕ, Some, IfOk, IfErr, OnOk};
ghost use Rattle.heap_system.specs.Systems.{units_of as units_in};
ghost use Rattle.trace_text.specs.Faults.{Rose};
ghost use Rattle.trace_text.specs.RunTexts.{run_text};
ghost use Rattle.rtheap_core.specs.declared.exit.RunEnd.TheVariants as ends;
ghost use Rattle.rtheap_core.specs.declared.task.Task.TheVariants.{Run};
ghost use Rattle.rtheap_core.specs.TopCalls.{IsCarriedOut};
ghost use Rattle.exit_statuses.specs.Exits.{IsWritten};
ghost use Rattle.rtheap_core.specs.Outcomes.{HasRun};
ghost use Rattle.exit_statuses.specs.Sides.{sides};
ghost use Rattle.rtheap_core.specs.Tasks.{AsksFor, AskForJob};
ghost use Rattle.rtheap_core.specs.Refusals.{IsCause};

use crate::exit::{Exit, RunEnd};
use crate::reading::planned_job;
use crate::telling::refused;
use atom_board::{Closed, run_job};
use exit_statuses::Refusal;
use heap_system::Pace;
use std::alloc::Global;
use std::sync::Wait;
use std::thread::Threads;
use trace_text::{Sink, Source, WRITE_FAULT, write_run};

/// Reads a job, runs its threads beside each other, and writes the run by threads.
pub fn run_and_report<R: Threads + Wait + Sync, S: Source, K: Sink, Q: Pace>(
    rt: &R,
    alloc: Global,
    source: &mut S,
    sink: &mut K,
    pace: &Q,
) -> Exit
    ensures { (words : List (List ℕ)) → AsksFor words Run → IsCarriedOut (record {
      words = words;
      source = sides S.left S.faults source.old source.new;
      sink = sides K.held K.faults sink.old sink.new;
      exit = result;
    }) }
{
    match ran(rt, alloc, source, pace) {
        Ok(run) => written(run, sink),
        Err(refusal) => refused(refusal, sink),
    }
}

/// Reads a job and runs it.
fn ran<R: Threads + Wait + Sync, S: Source, Q: Pace>(
    rt: &R,
    alloc: Global,
    source: &mut S,
    pace: &Q,
) -> Result<Closed, Refusal>
    ensures ran { IfOk result (λ run.
        HasRun (sides S.left S.faults source.old source.new) (ends.Ran run)) }
    ensures still { OnOk result (S.faults source.new ≡ S.faults source.old) }
    ensures refused { IfErr result (λ refusal. (words : List (List ℕ)) → AskForJob words
        → IsCause words (sides S.left S.faults source.old source.new) refusal) }
{
    let (job, _rate) = planned_job(alloc, source)?;
    let run = run_job(rt, alloc, job, pace)?;
    Ok(run)
}

/// Writes the text of a run.
fn written<K: Sink>(run: Closed, sink: &mut K) -> Exit
    ensures due { result.due ≡ 0 }
    ensures run { result.run ≡ Some (ends.Ran run) }
    ensures status { (result.status ≡ 0) ⊎ (result.status ≡ 6) }
    ensures text { IsWritten (sides K.held K.faults sink.old sink.new) result.status
        (run_text run.logs run.cycles (units_in run.logs)) }
    ensures still { result.status ≢ 6 → K.faults sink.new ≡ K.faults sink.old }
    ensures rose { result.status ≡ 6 → Rose (K.faults sink.old) (K.faults sink.new) }
{
    match write_run(&run, sink) {
        Ok(()) => Exit {
            status: 0,
            due: 0,
            run: Some(RunEnd::Ran(run)),
        },
        Err(_) => Exit {
            status: WRITE_FAULT,
            due: 0,
            run: Some(RunEnd::Ran(run)),
        },
    }
}
