//! What marking and sweeping cost over the cycles of a run, what they pay for, and when an
//! allocation is refused, for the proofs above: each law is the contract of a function that does
//! nothing.

ghost use Rattle.std.specs.Prelude.{ℕ, ◌+◌, ◌-◌, ◌*◌, ◌^◌, ◌<◌, ◌≤◌, ◌≡◌};
ghost use Rattle.block_store.specs.declared.Config.{Config};
ghost use Rattle.block_store.specs.Counts.{total};
ghost use Rattle.rate_plan.specs.Rates.{IsRate};
ghost use Rattle.never_heap.specs.GivenBlocks.{given};
ghost use Rattle.never_heap.specs.Histories.{starts_in, work_in};
ghost use Rattle.never_heap.specs.Licensed.{Licensed, StartsSmall, NoFulls};
ghost use Rattle.never_heap.specs.RightWork.{RightWork};
ghost use Rattle.heap_invariant.specs.cycle_tally.TallyInvariant.{most_given};
ghost use Rattle.heap_system.specs.Costs.{units_so_far};
ghost use Rattle.heap_system.specs.Machines.{Run, IsAfterTurns, opened};
ghost use Rattle.heap_system.specs.Systems.{AllDone};
ghost use Rattle.heap_system.specs.Units.{units_made};

/// An allocation is refused only where more blocks were live than the limit: each `full` names the
/// cycle before the present one, or the first, and more than L blocks were live at its start. So
/// where each cycle that has begun began with at most L live blocks, no command was answered full.
pub fn fulls_are_licensed()
    ensures licensed { (c : Config) (r : Run) → IsAfterTurns c r → Licensed c r.order }
    ensures never { (c : Config) (r : Run) → IsAfterTurns c r
        → StartsSmall c r.order → NoFulls r.order }
{}

/// In each cycle that has begun few blocks are given: as many as two units for each block of the heap
/// pay for, and one object more of each thread.
pub fn cycles_give_few_blocks()
    ensures { (c : Config) (r : Run) (rate : ℕ) → IsAfterTurns c r → IsRate c rate
        → (z : ℕ) → z ≤ starts_in r.order → given c.width r.order z ≤ most_given c rate }
{}

/// Over C cycles that have begun, on m blocks, the units are at least (C - 1) m, as each cycle that
/// has ended passed each block, and at most 2 m C, as no cycle marks or passes a block twice. The
/// units are the works of the commands that were decided with what is made for those in hand: all
/// of them are turns that made a grey block black or passed a block, and where all threads are done
/// they are the works of the order. Each entry has the work that its command owes. The units and
/// the number of the cycle stay below 2^50.
pub fn cycles_cost_few_units()
    ensures least { (c : Config) (r : Run) → IsAfterTurns c r
        → (starts_in r.order - 1) * c.blocks ≤ units_so_far c r }
    ensures most { (c : Config) (r : Run) → IsAfterTurns c r
        → units_so_far c r ≤ 2 * c.blocks * starts_in r.order }
    ensures made { (c : Config) (r : Run) → (is : IsAfterTurns c r)
        → units_so_far c r
        ≡ total c.threads (λ t. units_made c t (opened c is.by_turns.first) is.turns) }
    ensures done { (c : Config) (r : Run) → IsAfterTurns c r → AllDone c r.state
        → units_so_far c r ≡ work_in r.order }
    ensures right { (c : Config) (r : Run) (rate : ℕ) → IsAfterTurns c r → IsRate c rate
        → RightWork c.width rate r.order }
    ensures small { (c : Config) (r : Run) → IsAfterTurns c r
        → (units_so_far c r < 2 ^ 50) × (starts_in r.order < 2 ^ 50) }
{}
