//! The word `plan`.

ghost use Rattle.std.specs.Prelude.{◌≡◌, ◌≢◌, ◌⊎◌, List, ℕ, None, IfOk, IfErr, OnOk};
ghost use Rattle.trace_text.specs.Faults.{Rose};
ghost use Rattle.rtheap_core.specs.declared.task.Task.TheVariants.{Plan};
ghost use Rattle.rtheap_core.specs.TopCalls.{IsCarriedOut};
ghost use Rattle.exit_statuses.specs.Exits.{IsWritten};
ghost use Rattle.rtheap_core.specs.Exits.{rate_text};
ghost use Rattle.rtheap_core.specs.Outcomes.{HasRate};
ghost use Rattle.exit_statuses.specs.Sides.{sides};
ghost use Rattle.rtheap_core.specs.Tasks.{AsksFor, AskForJob};
ghost use Rattle.rtheap_core.specs.Refusals.{IsCause};

use crate::exit::Exit;
use crate::reading::planned_job;
use crate::telling::{refused, told};
use exit_statuses::Refusal;
use std::alloc::Global;
use trace_text::{LineBuffer, Sink, Source};

/// Reads a job and writes its rate.
pub fn plan_and_report<S: Source, K: Sink>(alloc: Global, source: &mut S, sink: &mut K) -> Exit
    ensures { (words : List (List ℕ)) → AsksFor words Plan → IsCarriedOut (record {
      words = words;
      source = sides S.left S.faults source.old source.new;
      sink = sides K.held K.faults sink.old sink.new;
      exit = result;
    }) }
{
    match rated(alloc, source) {
        Ok(rate) => planned(rate, sink),
        Err(refusal) => refused(refusal, sink),
    }
}

/// Reads a job, and gives its rate.
fn rated<S: Source>(alloc: Global, source: &mut S) -> Result<u64, Refusal>
    ensures rated { IfOk result (HasRate (sides S.left S.faults source.old source.new)) }
    ensures still { OnOk result (S.faults source.new ≡ S.faults source.old) }
    ensures refused { IfErr result (λ refusal. (words : List (List ℕ)) → AskForJob words
        → IsCause words (sides S.left S.faults source.old source.new) refusal) }
{
    let (_job, rate) = planned_job(alloc, source)?;
    Ok(rate)
}

/// Writes a rate.
fn planned<K: Sink>(rate: u64, sink: &mut K) -> Exit
    ensures due { result.due ≡ 0 }
    ensures run { result.run ≡ None }
    ensures status { (result.status ≡ 0) ⊎ (result.status ≡ 6) }
    ensures text { IsWritten (sides K.held K.faults sink.old sink.new) result.status
        (rate_text rate) }
    ensures still { result.status ≢ 6 → K.faults sink.new ≡ K.faults sink.old }
    ensures rose { result.status ≡ 6 → Rose (K.faults sink.old) (K.faults sink.new) }
{
    let mut line = LineBuffer::new();
    line.prepend(b"\n");
    line.prepend_number(rate);
    line.prepend(b"rate ");
    told(&line, sink)
}
