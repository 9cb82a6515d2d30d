//! The top call.

ghost use Rattle.std.specs.Prelude.{◌≡◌, ◌≢◌, ◌≤◌, ◌⊎◌, [], length, map, string_bytes, IfErr, OnOk};
ghost use Rattle.exit_statuses.specs.Exits.{IsWritten};
ghost use Rattle.exit_statuses.specs.Refusals.{HasRead};
ghost use Rattle.exit_statuses.specs.Sides.{sides};
ghost use Rattle.trace_text.specs.Faults.{Rose};
ghost use Rattle.rt_check.specs.Answers.{IsAccepted, IsCarriedOut, IsCause, IsJudged};
ghost use Rattle.rt_check.specs.Answers.{ok_line, refused_by};
ghost use Rattle.rt_check.specs.Inputs.{check_limit};

use crate::input::parted;
use crate::lines::first_bad;
use exit_statuses::{Refusal, refused, text_of};
use rate_plan::{one_rate, plan};
use std::alloc::Global;
use trace_text::{INPUT_LIMIT, Sink, Source, job_of, put_line};

/// The most bytes that an input may have.
pub const CHECK_LIMIT: usize = 67_108_864;

/// How a check ended.
#[derive(Clone, Copy, Debug, PartialEq, Eq)]
pub struct CheckExit {
    /// The status: `due`, or 6 where the writing failed.
    pub status: u8,
    /// The status by the words, the input and the order.
    pub due: u8,
}

/// Checks an order against a heap that never frees. The source gives a job's text and, after its
/// line `end`, the lines of the order; one line is written that says whether the order is that of a
/// run of the job, or which of its lines is the first that is not good. Words are refused with the
/// line `rt_check: usage`.
pub fn check<S: Source, K: Sink>(
    alloc: Global,
    words: &[String],
    source: &mut S,
    sink: &mut K,
) -> CheckExit
    ensures { IsCarriedOut (map (λ w. string_bytes w) words.now)
        (sides S.left S.faults source.old source.new)
        (sides K.held K.faults sink.old sink.new) result }
{
    match asked(alloc, words, source) {
        Ok(()) => accepted(sink),
        Err(refusal) => CheckExit {
            status: refused(refusal, b"rt_check", sink),
            due: refusal.status(),
        },
    }
}

/// Judges the input, where there are no words.
fn asked<S: Source>(alloc: Global, words: &[String], source: &mut S) -> Result<(), Refusal>
    ensures none { OnOk result (map (λ w. string_bytes w) words.now ≡ []) }
    ensures read { OnOk result
        (HasRead check_limit IsAccepted (sides S.left S.faults source.old source.new)) }
    ensures refused { IfErr result (IsCause (map (λ w. string_bytes w) words.now)
        (sides S.left S.faults source.old source.new)) }
{
    if !words.is_empty() {
        return Err(Refusal::Usage);
    }
    judged(alloc, source)
}

/// Reads the input and looks at it.
fn judged<S: Source>(alloc: Global, source: &mut S) -> Result<(), Refusal>
    ensures read { OnOk result
        (HasRead check_limit IsAccepted (sides S.left S.faults source.old source.new)) }
    ensures refused { IfErr result (IsCause [] (sides S.left S.faults source.old source.new)) }
{
    let input = text_of(alloc, source, CHECK_LIMIT)?;
    judged_bytes(alloc, &input)
}

/// Whether the order of an input is accepted.
fn judged_bytes(alloc: Global, input: &[u8]) -> Result<(), Refusal>
    requires { length input.now ≤ CHECK_LIMIT }
    ensures { IsJudged input.now (refused_by result) }
{
    let (job, order) = parted(input);
    if job.len() > INPUT_LIMIT {
        return Err(Refusal::TooLong);
    }
    let job = job_of(alloc, job)?;
    let rate = plan(&job.config)?;
    one_rate();
    match first_bad(alloc, &job, rate, order)? {
        None => Ok(()),
        Some(line) => Err(Refusal::BadOrder { line }),
    }
}

/// Says that the order is accepted.
fn accepted<K: Sink>(sink: &mut K) -> CheckExit
    ensures due { result.due ≡ 0 }
    ensures status { (result.status ≡ 0) ⊎ (result.status ≡ 6) }
    ensures text { IsWritten (sides K.held K.faults sink.old sink.new) result.status ok_line }
    ensures still { result.status ≢ 6 → K.faults sink.new ≡ K.faults sink.old }
    ensures rose { result.status ≡ 6 → Rose (K.faults sink.old) (K.faults sink.new) }
{
    let status = put_line(b"rt_check: ok\n", 0, sink);
    CheckExit { status, due: 0 }
}
