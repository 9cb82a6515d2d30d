//! How many turns a job takes where one thread has them after the other, and where there is one
//! thread: each law is the contract of a function that does nothing.

ghost use Rattle.std.specs.Prelude.{ℕ, List, length, ◌<◌, ◌≤◌, ◌≡◌, false};
ghost use Rattle.block_store.specs.declared.Config.{Config};
ghost use Rattle.block_store.specs.Counts.{times};
ghost use Rattle.rate_plan.specs.Rates.{IsRate};
ghost use Rattle.never_heap.specs.declared.Command.{Command};
ghost use Rattle.heap_system.specs.Locals.{is_done};
ghost use Rattle.heap_system.specs.Machines.{State, Run, IsJob, IsOpening, opened, after_turns, local_in};
ghost use Rattle.heap_system.specs.Systems.{AllDone};
ghost use Rattle.heap_system.specs.Serials.{IsSerial, job_bound};

/// Where from an opening on each turn is of the least thread that is not done, there are at most
/// as many as the bounds of all commands sum up to (`few`); and after so many all threads are done
/// (`ends`).
pub fn serial_turns_end()
    ensures few { (c : Config) (traces : List (List Command)) (first : State) (rate : ℕ)
        → IsJob c traces → IsOpening c traces first → IsRate c rate
        → (ts : List ℕ) → IsSerial c first ts → length ts ≤ job_bound c rate traces }
    ensures ends { (c : Config) (traces : List (List Command)) (first : State) (rate : ℕ)
        → IsJob c traces → IsOpening c traces first → IsRate c rate
        → (ts : List ℕ) → IsSerial c first ts → job_bound c rate traces ≤ length ts
        → AllDone c (after_turns c (opened c first) ts).state }
{}

/// Where a job has one thread, that thread is done after as many turns as the bounds of all its
/// commands sum up to: while it is not, it had fewer.
pub fn a_single_thread_ends_its_job()
    ensures { (c : Config) (traces : List (List Command)) (first : State) (rate : ℕ)
        → IsJob c traces → IsOpening c traces first → IsRate c rate → c.threads ≡ 1
        → (ts : List ℕ) → is_done (local_in c (after_turns c (opened c first) ts) 0) ≡ false
        → times 0 ts < job_bound c rate traces }
{}
