//! What each thread's account says of the cycle that it entered last, for the proofs above: a law
//! that is the contract of a function that does nothing.

ghost use Rattle.std.specs.Prelude.{ℕ, ◌<◌, ◌≤◌, ◌≡◌, true};
ghost use Rattle.block_store.specs.declared.Config.{Config};
ghost use Rattle.block_store.specs.Phases.{cycle_of};
ghost use Rattle.block_store.specs.Places.{Phase};
ghost use Rattle.rate_plan.specs.Rates.{IsRate};
ghost use Rattle.work_account.specs.Accounts.{IsSound};
ghost use Rattle.heap_machine.specs.Gating.{is_inside};
ghost use Rattle.heap_system.specs.Machines.{Run, IsAfterTurns, local_in, heap_in};
ghost use Rattle.heap_system.specs.Pictures.{stand_of};
ghost use Rattle.heap_system.specs.Shares.{units_made_in, given_in};

/// What a thread was given in the cycle that it entered last, at the rate, and what it has paid for
/// the command in hand, are together at most its units in that cycle and the price of one largest
/// object; and it has paid no more than that price. The cycle is none after the present one, and is
/// the present one where the thread is inside. The account's units are the turns of the thread that
/// made a unit in that cycle, and what it was given are the blocks of its commands that were
/// answered new in that cycle. In no later cycle has it made a unit or was it given a block.
pub fn accounts_are_sound()
    ensures sound { (c : Config) (r : Run) (rate : ℕ) → IsAfterTurns c r → IsRate c rate
        → (t : ℕ) → t < c.threads → IsSound rate c.object (local_in c r t).balance }
    ensures entered { (c : Config) (r : Run) → IsAfterTurns c r → (t : ℕ) → t < c.threads
        → (local_in c r t).balance.cycle ≤ cycle_of (heap_in c r.state Phase) }
    ensures present { (c : Config) (r : Run) → IsAfterTurns c r → (t : ℕ) → t < c.threads
        → is_inside (stand_of c (local_in c r t).part) ≡ true
        → (local_in c r t).balance.cycle ≡ cycle_of (heap_in c r.state Phase) }
    ensures units { (c : Config) (r : Run) → (is : IsAfterTurns c r) → (t : ℕ) → t < c.threads
        → (local_in c r t).balance.units
        ≡ units_made_in c r is (local_in c r t).balance.cycle t }
    ensures given { (c : Config) (r : Run) → IsAfterTurns c r → (t : ℕ) → t < c.threads
        → (local_in c r t).balance.given
        ≡ given_in c.width t r.order (local_in c r t).balance.cycle }
    ensures later { (c : Config) (r : Run) → (is : IsAfterTurns c r) → (t : ℕ) → t < c.threads
        → (z : ℕ) → (local_in c r t).balance.cycle < z
        → (units_made_in c r is z t ≡ 0) × (given_in c.width t r.order z ≡ 0) }
{}
