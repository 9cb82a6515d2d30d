//! The top call.

ghost use Rattle.std.specs.Prelude.{◌≡◌, map, string_bytes, IfSome};
ghost use Rattle.rtheap_core.specs.declared.exit.RunEnd.{RunEnd};
ghost use Rattle.rtheap_core.specs.TopCalls.{IsCarriedOut, IsComplete};
ghost use Rattle.rtheap_core.specs.EndedRuns.{logs_of, cycles_of, units_of};
ghost use Rattle.rtheap_core.specs.Exits.{NeverFull};
ghost use Rattle.rtheap_core.specs.OneHistory.{HasOneHistory};
ghost use Rattle.rtheap_core.specs.Owners.{OwnersStand};
ghost use Rattle.exit_statuses.specs.Sides.{sides};

use crate::exit::{Exit, RunEnd};
use crate::laws::{early_cycles_have_no_full, texts_are_lives};
use crate::making::{make_and_report, trial_and_report};
use crate::planning::plan_and_report;
use crate::replaying::replay_and_report;
use crate::running::run_and_report;
use crate::schedules::replays_end;
use crate::task::Task;
use crate::telling::refused;
use exit_statuses::Refusal;
use heap_system::Pace;
use never_heap::Logs;
use std::alloc::Global;
use std::sync::Wait;
use std::thread::Threads;
use trace_text::{Sink, Source};

/// Does what the words ask for:
///
/// - `run` reads a job from the source, runs its threads beside each other, and writes what each
///   command answered, thread by thread, and a line of totals. The pace is told before each
///   command.
/// - `replay SCHEDULE T` reads a job and makes the turns of a schedule, at most T of them, until
///   all threads are done. It writes what each command answered and the start of each cycle, in
///   order, and the totals. The schedule is `robin`, `serial`, or a key from which it is drawn.
/// - `plan` reads a job and writes the rate of its configuration.
/// - `make KEY LINES` writes the generated job of a key, with so many commands for each thread.
/// - `trial KEY LINES` does that job by serial turns, and writes the totals.
///
/// T is at most 1,000,000,000 and LINES at most 131,072. A number has 1 to 19 digits, and a 0 in
/// front only in the number 0. Any other words are refused with the line `rtheap: usage`.
///
/// The entries, cycles and units that an ended run shows by `Logs` are those that `done` is about:
/// the order of one list of turns, each that of a thread of the job. For a replay these are the
/// turns of its schedule; for `run` they are, where the job has one thread, at most as many as the
/// bounds of its commands sum up to. An allocation is
/// answered `full` only where more blocks than the job's live limit were reachable at the start of
/// the cycle that the reply names; so where no cycle of the run began with more, no command was
/// answered `full` (`never_full`). At each moment of the run no name has a serial above 131,072,
/// and the owner words of the objects that are kept are those of such names (`owners`). All this
/// is so of one history, which also has no `full` in cycles 1 and 2 (`one_history`).
///
/// That a call with the word `run` returns is not promised, for it makes turns of the job's threads
/// until each is done. With any other words it calls nothing that waits.
pub fn rtheap<R: Threads + Wait + Sync, S: Source, K: Sink, Q: Pace>(
    rt: &R,
    alloc: Global,
    words: &[String],
    source: &mut S,
    sink: &mut K,
    pace: &Q,
) -> Exit
    ensures shown { (end : RunEnd) → (⟦<RunEnd as Logs>⟧.logs end ≡ logs_of end)
        × (⟦<RunEnd as Logs>⟧.cycle_count end ≡ cycles_of end)
        × (⟦<RunEnd as Logs>⟧.unit_count end ≡ units_of end) }
    ensures done { IsCarriedOut (record {
      words = map (λ w. string_bytes w) words.now;
      source = sides S.left S.faults source.old source.new;
      sink = sides K.held K.faults sink.old sink.new;
      exit = result;
    }) }
    ensures complete { IsComplete (record {
      words = map (λ w. string_bytes w) words.now;
      source = sides S.left S.faults source.old source.new;
      sink = sides K.held K.faults sink.old sink.new;
      exit = result;
    }) }
    ensures never_full { IfSome result.run (NeverFull (sides S.left S.faults source.old source.new)
        (sides K.held K.faults sink.old sink.new) result.status) }
    ensures owners { IfSome result.run (OwnersStand (sides S.left S.faults source.old source.new)
        (sides K.held K.faults sink.old sink.new) result.status) }
    ensures one_history { IfSome result.run (HasOneHistory (map (λ w. string_bytes w) words.now)
        (sides S.left S.faults source.old source.new) (sides K.held K.faults sink.old sink.new)
        result.status) }
{
    replays_end();
    texts_are_lives();
    early_cycles_have_no_full();
    carried_out(rt, alloc, words, source, sink, pace)
}

/// Carries out what the words ask for.
fn carried_out<R: Threads + Wait + Sync, S: Source, K: Sink, Q: Pace>(
    rt: &R,
    alloc: Global,
    words: &[String],
    source: &mut S,
    sink: &mut K,
    pace: &Q,
) -> Exit
    ensures done { IsCarriedOut (record {
      words = map (λ w. string_bytes w) words.now;
      source = sides S.left S.faults source.old source.new;
      sink = sides K.held K.faults sink.old sink.new;
      exit = result;
    }) }
{
    match Task::of(words) {
        None => refused(Refusal::Usage, sink),
        Some(Task::Run) => run_and_report(rt, alloc, source, sink, pace),
        Some(Task::Replay { schedule, turns }) => {
            replay_and_report(alloc, source, sink, schedule, turns)
        }
        Some(Task::Plan) => plan_and_report(alloc, source, sink),
        Some(Task::Make { key, lines }) => make_and_report(alloc, sink, key, lines),
        Some(Task::Trial { key, lines }) => trial_and_report(alloc, sink, key, lines),
    }
}
