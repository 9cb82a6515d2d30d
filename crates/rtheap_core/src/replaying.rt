//! The word `replay`.

ghost use Rattle.std.specs.Prelude.{◌≡◌, ◌≢◌, ◌⊎◌, ◌≤◌, List, ℕ, Some, IfOk, IfErr, OnOk};
ghost use Rattle.heap_system.specs.Systems.{units_of as units_in};
ghost use Rattle.never_heap.specs.declared.Item.{Item};
ghost use Rattle.trace_text.specs.Faults.{Rose};
ghost use Rattle.trace_text.specs.OrderTexts.{order_text};
ghost use Rattle.rtheap_core.specs.declared.exit.RunEnd.TheVariants as ends;
ghost use Rattle.rtheap_core.specs.declared.task.Task.TheVariants.{Replay};
ghost use Rattle.rtheap_core.specs.TopCalls.{IsCarriedOut};
ghost use Rattle.exit_statuses.specs.Exits.{IsWritten};
ghost use Rattle.rtheap_core.specs.Outcomes.{HasReplay, HasOrder};
ghost use Rattle.exit_statuses.specs.Sides.{sides};
ghost use Rattle.rtheap_core.specs.Tasks.{AsksFor, most_turns};
ghost use Rattle.rtheap_core.specs.Refusals.{IsCause};

use crate::exit::{Exit, RunEnd};
use crate::reading::planned_job;
use crate::replay::replay_job;
use crate::schedules::Schedule;
use crate::telling::refused;
use exit_statuses::Refusal;
use heap_system::Finished;
use std::alloc::Global;
use trace_text::{Sink, Source, WRITE_FAULT, orders_tell_histories, write_order};

/// Reads a job, makes the turns of a schedule, at most so many, and writes the run in order.
pub fn replay_and_report<S: Source, K: Sink>(
    alloc: Global,
    source: &mut S,
    sink: &mut K,
    schedule: Schedule,
    turns: u64,
) -> Exit
    requires { turns ≤ most_turns }
    ensures { (words : List (List ℕ)) → AsksFor words (Replay schedule turns)
        → IsCarriedOut (record {
          words = words;
          source = sides S.left S.faults source.old source.new;
          sink = sides K.held K.faults sink.old sink.new;
          exit = result;
        }) }
{
    orders_tell_histories();
    match replayed(alloc, source, schedule, turns) {
        Ok(run) => written_in_order(run, sink),
        Err(refusal) => refused(refusal, sink),
    }
}

/// Reads a job and replays it.
fn replayed<S: Source>(
    alloc: Global,
    source: &mut S,
    schedule: Schedule,
    turns: u64,
) -> Result<Finished, Refusal>
    requires { turns ≤ most_turns }
    ensures replayed { IfOk result
        (HasReplay (sides S.left S.faults source.old source.new) schedule turns) }
    ensures still { OnOk result (S.faults source.new ≡ S.faults source.old) }
    ensures refused { IfErr result (λ refusal. (words : List (List ℕ))
        → AsksFor words (Replay schedule turns)
        → IsCause words (sides S.left S.faults source.old source.new) refusal) }
{
    let (job, _rate) = planned_job(alloc, source)?;
    replay_job(alloc, job, schedule, turns)
}

/// Writes the text of a replay.
fn written_in_order<K: Sink>(run: Finished, sink: &mut K) -> Exit
    requires { HasOrder run }
    ensures due { result.due ≡ 0 }
    ensures run { result.run ≡ Some (ends.Replayed run) }
    ensures status { (result.status ≡ 0) ⊎ (result.status ≡ 6) }
    ensures text { (order : List Item) → run.order ≡ Some order
        → IsWritten (sides K.held K.faults sink.old sink.new) result.status
        (order_text order run.logs run.cycles (units_in run.logs)) }
    ensures still { result.status ≢ 6 → K.faults sink.new ≡ K.faults sink.old }
    ensures rose { result.status ≡ 6 → Rose (K.faults sink.old) (K.faults sink.new) }
{
    let status = put_in_order(&run, sink);
    Exit {
        status,
        due: 0,
        run: Some(RunEnd::Replayed(run)),
    }
}

/// Writes the text of a replay, and gives the status.
fn put_in_order<K: Sink>(run: &Finished, sink: &mut K) -> u8
    requires { HasOrder run.now }
    ensures status { (result ≡ 0) ⊎ (result ≡ 6) }
    ensures text { (order : List Item) → run.now.order ≡ Some order
        → IsWritten (sides K.held K.faults sink.old sink.new) result
        (order_text order run.now.logs run.now.cycles (units_in run.now.logs)) }
    ensures still { result ≢ 6 → K.faults sink.new ≡ K.faults sink.old }
    ensures rose { result ≡ 6 → Rose (K.faults sink.old) (K.faults sink.new) }
{
    let Some(order) = run.order() else {
        unreachable!()
    };
    match write_order(run, order, sink) {
        Ok(()) => 0,
        Err(_) => WRITE_FAULT,
    }
}
