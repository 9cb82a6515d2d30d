//! What a turn pays, for the proofs above: a law that is the contract of a function that does
//! nothing.

ghost use Rattle.std.specs.Prelude.{ℕ, ◌+◌, ◌==◌, ◌<◌, ◌≡◌, if◌then◌else◌, true};
ghost use Rattle.block_store.specs.declared.Config.{Config};
ghost use Rattle.block_store.specs.Phases.{bit};
ghost use Rattle.never_heap.specs.RightWork.{units_owed};
ghost use Rattle.rate_plan.specs.Rates.{IsRate};
ghost use Rattle.heap_system.specs.Locals.{command_of};
ghost use Rattle.heap_system.specs.Machines.{Run, IsAfterTurns, local_in, next};
ghost use Rattle.heap_system.specs.Units.{is_unit, made_by, decides};

/// Work is paid turn by turn: what a thread has made for its commands, those that were decided and
/// the one in hand, rises by one at each of its turns that is a unit of marking or sweeping, and at
/// no other turn of any thread. A turn decides a command only where all the units that it owes were
/// made for it.
pub fn turns_pay()
    ensures units { (c : Config) (r : Run) → IsAfterTurns c r → (t u : ℕ)
        → made_by c t (next c u r)
        ≡ made_by c t r + (if u == t then bit (is_unit c t r.state) else 0) }
    ensures whole { (c : Config) (r : Run) (rate : ℕ) → IsAfterTurns c r → IsRate c rate
        → (t : ℕ) → t < c.threads → decides c t r.state ≡ true
        → (local_in c r t).spent ≡ units_owed c.width rate (command_of (local_in c r t)) }
{}
