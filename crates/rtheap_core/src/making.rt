//! The words `make` and `trial`.

ghost use Rattle.std.specs.Prelude.{◌≡◌, ◌≢◌, ◌⊎◌, ◌≤◌, List, ℕ, None, IfOk};
ghost use Rattle.trace_text.specs.Faults.{Rose};
ghost use Rattle.trace_text.specs.Jobs.{IsJobInBounds};
ghost use Rattle.trace_text.specs.JobTexts.{job_text};
ghost use Rattle.trace_text.specs.RunTexts.{totals_line};
ghost use Rattle.rtheap_core.specs.declared.task.Task.TheVariants.{Make, Trial};
ghost use Rattle.rtheap_core.specs.TopCalls.{IsCarriedOut};
ghost use Rattle.exit_statuses.specs.Exits.{IsWritten};
ghost use Rattle.rtheap_core.specs.Generated.{generated_job};
ghost use Rattle.rtheap_core.specs.Outcomes.{HasTotals};
ghost use Rattle.exit_statuses.specs.Sides.{Sides, sides, IsUntouched};
ghost use Rattle.rtheap_core.specs.Tasks.{AsksFor, most_lines};

use crate::exit::Exit;
use crate::generated::generate;
use crate::telling::{refused, told};
use crate::trial::{Totals, trial};
use block_store::OutOfMemory;
use exit_statuses::Refusal;
use std::alloc::Global;
use trace_text::{Job, LineBuffer, Sink, WRITE_FAULT, fill_totals, write_job};

/// Writes a generated job.
pub fn make_and_report<K: Sink>(alloc: Global, sink: &mut K, key: u64, lines: u32) -> Exit
    requires { lines ≤ most_lines }
    ensures { (words : List (List ℕ)) (source : Sides) → IsUntouched source
        → AsksFor words (Make key lines) → IsCarriedOut (record {
          words = words;
          source = source;
          sink = sides K.held K.faults sink.old sink.new;
          exit = result;
        }) }
{
    match generate(alloc, key, lines) {
        Ok(job) => written_job(&job, sink),
        Err(_) => refused(Refusal::OutOfMemory, sink),
    }
}

/// Runs a generated job by serial turns, and writes its totals.
pub fn trial_and_report<K: Sink>(alloc: Global, sink: &mut K, key: u64, lines: u32) -> Exit
    requires { lines ≤ most_lines }
    ensures { (words : List (List ℕ)) (source : Sides) → IsUntouched source
        → AsksFor words (Trial key lines) → IsCarriedOut (record {
          words = words;
          source = source;
          sink = sides K.held K.faults sink.old sink.new;
          exit = result;
        }) }
{
    match tried(alloc, key, lines) {
        Ok(totals) => written_totals(totals, sink),
        Err(_) => refused(Refusal::OutOfMemory, sink),
    }
}

/// Generates a job and runs it by serial turns.
fn tried(alloc: Global, key: u64, lines: u32) -> Result<Totals, OutOfMemory>
    requires { lines ≤ most_lines }
    ensures { IfOk result (HasTotals (generated_job key lines)) }
{
    let job = generate(alloc, key, lines)?;
    trial(alloc, job)
}

/// Writes the text of a job.
fn written_job<K: Sink>(job: &Job, sink: &mut K) -> Exit
    requires { IsJobInBounds job.now }
    ensures due { result.due ≡ 0 }
    ensures run { result.run ≡ None }
    ensures status { (result.status ≡ 0) ⊎ (result.status ≡ 6) }
    ensures text { IsWritten (sides K.held K.faults sink.old sink.new) result.status
        (job_text job.now) }
    ensures still { result.status ≢ 6 → K.faults sink.new ≡ K.faults sink.old }
    ensures rose { result.status ≡ 6 → Rose (K.faults sink.old) (K.faults sink.new) }
{
    let status = match write_job(job, sink) {
        Ok(()) => 0,
        Err(_) => WRITE_FAULT,
    };
    Exit {
        status,
        due: 0,
        run: None,
    }
}

/// Writes the line of totals.
fn written_totals<K: Sink>(totals: Totals, sink: &mut K) -> Exit
    ensures due { result.due ≡ 0 }
    ensures run { result.run ≡ None }
    ensures status { (result.status ≡ 0) ⊎ (result.status ≡ 6) }
    ensures text { IsWritten (sides K.held K.faults sink.old sink.new) result.status
        (totals_line totals.cycles totals.units) }
    ensures still { result.status ≢ 6 → K.faults sink.new ≡ K.faults sink.old }
    ensures rose { result.status ≡ 6 → Rose (K.faults sink.old) (K.faults sink.new) }
{
    let mut line = LineBuffer::new();
    fill_totals(&mut line, totals.cycles, totals.units);
    told(&line, sink)
}
