//! Reading a job that has a rate.

ghost use Rattle.std.specs.Prelude.{◌≡◌, List, ℕ, IfOk, IfErr, OnOk};
ghost use Rattle.rate_plan.specs.Rates.{IsAdmitted, IsRate};
ghost use Rattle.rtheap_core.specs.Exits.{IsReadAs};
ghost use Rattle.exit_statuses.specs.Sides.{sides};
ghost use Rattle.rtheap_core.specs.Tasks.{AskForJob};
ghost use Rattle.rtheap_core.specs.Refusals.{IsCause};

use exit_statuses::{Refusal, text_of};
use rate_plan::plan;
use std::alloc::Global;
use trace_text::{INPUT_LIMIT, Job, Source, job_of};

/// Reads a job, and finds its rate.
pub fn planned_job<S: Source>(alloc: Global, source: &mut S) -> Result<(Job, u64), Refusal>
    ensures read { IfOk result (λ x. IsReadAs (sides S.left S.faults source.old source.new) x.0) }
    ensures rate { IfOk result (λ x. IsAdmitted x.0.config × IsRate x.0.config x.1) }
    ensures still { OnOk result (S.faults source.new ≡ S.faults source.old) }
    ensures refused { IfErr result (λ refusal. (words : List (List ℕ)) → AskForJob words
        → IsCause words (sides S.left S.faults source.old source.new) refusal) }
{
    let text = text_of(alloc, source, INPUT_LIMIT)?;
    let job = job_of(alloc, &text)?;
    let rate = plan(&job.config)?;
    Ok((job, rate))
}
