//! The top call.

ghost use Rattle.std.specs.Prelude.{◌≡◌, ◌≢◌, ◌≤◌, ◌⊎◌, [], true, false, length, map, string_bytes, IfOk, IfErr, OnOk, MatchResult};
ghost use Rattle.exit_statuses.specs.Exits.{IsWritten};
ghost use Rattle.exit_statuses.specs.Refusals.{HasRead};
ghost use Rattle.exit_statuses.specs.Sides.{sides};
ghost use Rattle.trace_text.specs.Faults.{Rose};
ghost use Rattle.trace_text.specs.Jobs.{IsJobInBounds};
ghost use Rattle.trace_text.specs.Lines.{lines_of};
ghost use Rattle.rt_check.specs.rt_limit.Answers.{AreNeeds, HasNoNeeds, HasNeeds, HasNoText};
ghost use Rattle.rt_check.specs.rt_limit.Answers.{IsCarriedOut, IsCause};
ghost use Rattle.never_heap.specs.Graphs.{start_graph};
ghost use Rattle.rt_check.specs.Inputs.{check_limit};
ghost use Rattle.rt_check.specs.Moves.{AreMovesOf};
ghost use Rattle.rt_check.specs.declared.rt_limit.counts.Figures.{Figures};
ghost use Rattle.rt_check.specs.rt_limit.Figures.{AreFigures};
ghost use Rattle.rt_check.specs.rt_limit.NeedTexts.{IsText};

use crate::rt_limit::counts::figures_of;
use crate::rt_limit::orders::thread_by_thread;
use crate::rt_limit::texts::text_of;
use crate::{CHECK_LIMIT, Move, moves_of, parted};
use block_store::OutOfMemory;
use exit_statuses::{Refusal, refused};
use std::alloc::Global;
use trace_text::{INPUT_LIMIT, Job, Sink, Source, first_line, job_of, put_line};

/// How a call ended.
#[derive(Clone, Copy, Debug, PartialEq, Eq)]
pub struct LimitExit {
    /// The status: `due`, or 6 where the writing failed.
    pub status: u8,
    /// The status by the words and the input.
    pub due: u8,
}

/// Tells which heap a job needs: how many blocks are live at most along an order of its commands,
/// and the least numbers of blocks for some rates. The source gives a job's text and, after its
/// line `end`, nothing or the lines of an order. Words are refused with the line `rt_limit: usage`.
pub fn limit<S: Source, K: Sink>(
    alloc: Global,
    words: &[String],
    source: &mut S,
    sink: &mut K,
) -> LimitExit
    ensures { IsCarriedOut (map (λ w. string_bytes w) words.now)
        (sides S.left S.faults source.old source.new)
        (sides K.held K.faults sink.old sink.new) result }
{
    match asked(alloc, words, source) {
        Ok(text) => told(&text, sink),
        Err(refusal) => LimitExit {
            status: refused(refusal, b"rt_limit", sink),
            due: refusal.status(),
        },
    }
}

/// The text of the job's needs, where there are no words.
fn asked<S: Source>(alloc: Global, words: &[String], source: &mut S) -> Result<Vec<u8>, Refusal>
    ensures none { OnOk result (map (λ w. string_bytes w) words.now ≡ []) }
    ensures needs { IfOk result (λ v. HasRead check_limit (λ bytes. HasNeeds bytes v.items)
        (sides S.left S.faults source.old source.new)) }
    ensures refused { IfErr result (IsCause (map (λ w. string_bytes w) words.now)
        (sides S.left S.faults source.old source.new)) }
{
    if !words.is_empty() {
        return Err(Refusal::Usage);
    }
    judged(alloc, source)
}

/// Reads the input and looks at it.
fn judged<S: Source>(alloc: Global, source: &mut S) -> Result<Vec<u8>, Refusal>
    ensures needs { IfOk result (λ v. HasRead check_limit (λ bytes. HasNeeds bytes v.items)
        (sides S.left S.faults source.old source.new)) }
    ensures refused { IfErr result (IsCause [] (sides S.left S.faults source.old source.new)) }
{
    let input = exit_statuses::text_of(alloc, source, CHECK_LIMIT)?;
    judged_bytes(alloc, &input)
}

/// The text for the bytes of an input.
fn judged_bytes(alloc: Global, input: &[u8]) -> Result<Vec<u8>, Refusal>
    requires { length input.now ≤ CHECK_LIMIT }
    ensures { MatchResult result (λ v. HasNeeds input.now v.items) (HasNoText input.now) }
{
    let (job, order) = parted(input);
    if job.len() > INPUT_LIMIT {
        return Err(Refusal::TooLong);
    }
    let job = job_of(alloc, job)?;
    needed(alloc, &job, order)
}

/// The text for a job and the lines of an order, which may be none.
fn needed(alloc: Global, job: &Job, order: &[u8]) -> Result<Vec<u8>, Refusal>
    requires job { IsJobInBounds job.now }
    requires short { length order.now ≤ CHECK_LIMIT }
    ensures { MatchResult result (λ v. AreNeeds (lines_of order.now) job.now v.items)
        (HasNoNeeds (lines_of order.now) job.now) }
{
    if !has_lines(order) {
        let moves = thread_by_thread(alloc, job)?;
        return Ok(counted(alloc, job, false, &moves)?);
    }
    let moves = moves_of(alloc, job, order)?;
    Ok(counted(alloc, job, true, &moves)?)
}

/// Whether there is a line.
fn has_lines(order: &[u8]) -> bool
    ensures some { result ≡ true → lines_of order.now ≢ [] }
    ensures none { result ≡ false → lines_of order.now ≡ [] }
{
    first_line(order).is_some()
}

/// The text for an order of a job's commands.
fn counted(alloc: Global, job: &Job, given: bool, moves: &[Move]) -> Result<Vec<u8>, OutOfMemory>
    requires job { IsJobInBounds job.now }
    requires order { AreMovesOf job.now.traces moves.now }
    ensures { IfOk result (λ v. (f : Figures)
        × AreFigures job.now.config.width (start_graph job.now.config) moves.now f
        × IsText job.now.config given f v.items) }
{
    let figures = figures_of(alloc, &job.config, moves)?;
    text_of(alloc, &job.config, given, &figures)
}

/// Writes the text of a job's needs.
fn told<K: Sink>(text: &[u8], sink: &mut K) -> LimitExit
    ensures due { result.due ≡ 0 }
    ensures status { (result.status ≡ 0) ⊎ (result.status ≡ 6) }
    ensures text { IsWritten (sides K.held K.faults sink.old sink.new) result.status text.now }
    ensures still { result.status ≢ 6 → K.faults sink.new ≡ K.faults sink.old }
    ensures rose { result.status ≡ 6 → Rose (K.faults sink.old) (K.faults sink.new) }
{
    let status = put_line(text, 0, sink);
    LimitExit { status, due: 0 }
}
