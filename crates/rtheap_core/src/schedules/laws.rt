//! What is so of every replay, for the proofs above: each law is the contract of a function that
//! does nothing.

ghost use Rattle.std.specs.Prelude.{◌≡◌, ◌+◌, ◌≤◌, ℕ, List, [], ◌∷◌, IfSome};
ghost use Rattle.block_store.specs.declared.Config.{Config};
ghost use Rattle.rate_plan.specs.Rates.{IsRate};
ghost use Rattle.never_heap.specs.declared.Command.{Command};
ghost use Rattle.never_heap.specs.declared.Item.TheVariants as Item;
ghost use Rattle.heap_system.specs.Locals.{is_done};
ghost use Rattle.heap_system.specs.Machines.{State, Run, local_in, after_turns, IsJob, IsOpening};
ghost use Rattle.heap_system.specs.Serials.{IsSerial, job_bound};
ghost use Rattle.heap_system.specs.Systems.{Whole, logs_of, AllDone, IsReached};
ghost use Rattle.rtheap_core.specs.declared.schedules.Schedule.TheVariants as Schedule;
ghost use Rattle.rtheap_core.specs.schedules.Schedules.{turns_of};
ghost use Rattle.rtheap_core.specs.schedules.Replays.{IsReplayed, ShowsRun, system_after};

use crate::schedules::Schedule;

/// A job, a schedule and a number of turns tell the run: its order, its words, the logs, and which
/// threads are done.
pub fn replays_have_one_order()
    ensures order { (c : Config) (traces : List (List Command)) (schedule : Schedule) (turns : ℕ)
        (r q : Run) → IsReplayed c traces schedule turns r → IsReplayed c traces schedule turns q
        → r.order ≡ q.order }
    ensures words { (c : Config) (traces : List (List Command)) (schedule : Schedule) (turns : ℕ)
        (r q : Run) → IsReplayed c traces schedule turns r → IsReplayed c traces schedule turns q
        → r.state.words ≡ q.state.words }
    ensures logs { (c : Config) (traces : List (List Command)) (schedule : Schedule) (turns : ℕ)
        (r q : Run) → IsReplayed c traces schedule turns r → IsReplayed c traces schedule turns q
        → logs_of r.state ≡ logs_of q.state }
    ensures done { (c : Config) (traces : List (List Command)) (schedule : Schedule) (turns : ℕ)
        (r q : Run) → IsReplayed c traces schedule turns r → IsReplayed c traces schedule turns q
        → (t : ℕ) → is_done (local_in c r t) ≡ is_done (local_in c q t) }
{}

/// A system that is as a job opens, with an order that has no more than the start of cycle 1 where
/// it keeps one, has after the turns of a schedule the state of a replay of that job, and its
/// order.
pub fn replays_are_runs()
    ensures { (w : Whole) (traces : List (List Command)) (schedule : Schedule) (turns : ℕ)
        → IsOpening w.config traces w.state → IfSome w.ordered (λ o. o.items ≡ Item.Start ∷ [])
        → (r : Run) × IsReplayed w.config traces schedule turns r
        × ShowsRun w.config r (system_after w (turns_of schedule w.config w.state turns)) }
{}

/// A serial replay goes on where it stopped: so many turns and then so many more are the turns of
/// one serial replay.
pub fn serial_replays_go_on()
    ensures { (c : Config) (traces : List (List Command)) (few more : ℕ) (r : Run)
        → IsReplayed c traces Schedule.Serial few r
        → IsReplayed c traces Schedule.Serial (few + more)
        (after_turns c r (turns_of Schedule.Serial c r.state more)) }
{}

/// Where all threads are done after some turns of a schedule, more of its turns change nothing. So
/// a replay that stops there has the run of all its turns.
pub fn replays_stop()
    ensures { (c : Config) (schedule : Schedule) (r : Run) (few many : ℕ) → few ≤ many
        → AllDone c (after_turns c r (turns_of schedule c r.state few)).state
        → after_turns c r (turns_of schedule c r.state many)
        ≡ after_turns c r (turns_of schedule c r.state few) }
{}

/// Each turn of the serial schedule is for the least thread that is not done after the turns before
/// it: from every state that a system comes to, and from an opening.
pub fn serial_turns_are_serial()
    ensures reached { (c : Config) (s : State) (turns : ℕ) → IsReached c s
        → IsSerial c s (turns_of Schedule.Serial c s turns) }
    ensures opening { (c : Config) (traces : List (List Command)) (s : State) (turns : ℕ)
        → IsJob c traces → IsOpening c traces s
        → IsSerial c s (turns_of Schedule.Serial c s turns) }
{}

/// After as many turns as the bounds of all commands sum up to, a serial replay has all threads
/// done (`serial`); and where there is one thread, so has a replay by any schedule (`single`).
pub fn replays_end()
    ensures serial { (c : Config) (traces : List (List Command)) (turns rate : ℕ) (r : Run)
        → IsJob c traces → IsRate c rate → IsReplayed c traces Schedule.Serial turns r
        → job_bound c rate traces ≤ turns → AllDone c r.state }
    ensures single { (c : Config) (traces : List (List Command)) (schedule : Schedule)
        (turns rate : ℕ) (r : Run) → IsJob c traces → IsRate c rate → c.threads ≡ 1
        → IsReplayed c traces schedule turns r → job_bound c rate traces ≤ turns
        → AllDone c r.state }
{}
