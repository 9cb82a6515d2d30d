//! Reading a job that a post can serve, and whose heap has a rate.

ghost use Rattle.std.specs.Prelude.{◌≡◌, [], IfOk, IfErr, MatchResult};
ghost use Rattle.exit_statuses.specs.Sides.{sides};
ghost use Rattle.rate_plan.specs.Rates.{IsAdmitted};
ghost use Rattle.trace_text.specs.Jobs.{IsJobInBounds};
ghost use Rattle.rt_mail.specs.Says.{IsWithin};
ghost use Rattle.rt_mail.specs.RefusedTexts.{IsRefusedJob, IsReadAs, IsCause};

use crate::limits::within_limits;
use exit_statuses::{Refusal, text_of};
use rate_plan::plan;
use std::alloc::Global;
use trace_text::{INPUT_LIMIT, Job, Source, job_of};

/// Reads a source to its end, and then the job that its bytes are. The limits of a post are looked
/// at before the plan.
pub fn read_job<S: Source>(alloc: Global, source: &mut S) -> Result<Job, Refusal>
    ensures read { IfOk result (IsReadAs (sides S.left S.faults source.old source.new)) }
    ensures served { IfOk result (λ job. IsWithin job × IsAdmitted job.config) }
    ensures refused { IfErr result
        (IsCause [] (sides S.left S.faults source.old source.new)) }
{
    let text = text_of(alloc, source, INPUT_LIMIT)?;
    let job = job_of(alloc, &text)?;
    served(&job)?;
    Ok(job)
}

/// Whether a job can be served.
fn served(job: &Job) -> Result<(), Refusal>
    requires { IsJobInBounds job.now }
    ensures { MatchResult result (λ _. IsWithin job.now × IsAdmitted job.now.config)
        (IsRefusedJob job.now) }
{
    within_limits(job)?;
    plan(&job.config)?;
    Ok(())
}
