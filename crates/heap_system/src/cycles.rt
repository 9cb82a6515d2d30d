//! What a cycle takes of each block, for the proofs above: a law that is the contract of a function
//! that does nothing.

ghost use Rattle.std.specs.Prelude.{ℕ, suc, ◌<◌, ◌≤◌, ◌≡◌, true, false};
ghost use Rattle.block_store.specs.declared.Config.{Config};
ghost use Rattle.block_store.specs.Counts.{total};
ghost use Rattle.block_store.specs.Phases.{bit, is_sweep};
ghost use Rattle.block_store.specs.Places.{Phase};
ghost use Rattle.never_heap.specs.Histories.{starts_in};
ghost use Rattle.heap_system.specs.Costs.{units_so_far};
ghost use Rattle.heap_system.specs.Cycles.{times_scanned, times_passed, taken_in, is_behind};
ghost use Rattle.heap_system.specs.Machines.{Run, IsAfterTurns, heap_in};

/// In each cycle, over the turns of all threads, a scan makes each block black at most once, and a
/// sweep passes it at most once; and a cycle that has ended passed each block of the heap exactly
/// once. In the present cycle no block is passed while the phase is Mark; in Sweep each was passed
/// that is below the cursor and in no thread's claim, and no other. The units of all cycles are
/// these scans and passes.
pub fn cycles_take_each_block_once()
    ensures scanned { (c : Config) (r : Run) → (is : IsAfterTurns c r) → (z x : ℕ)
        → times_scanned c r is z x ≤ 1 }
    ensures passed { (c : Config) (r : Run) → (is : IsAfterTurns c r) → (z x : ℕ) → 1 ≤ x
        → times_passed c r is z x ≤ 1 }
    ensures ended { (c : Config) (r : Run) → (is : IsAfterTurns c r) → (z x : ℕ)
        → 1 ≤ z → z < starts_in r.order → 1 ≤ x → x ≤ c.blocks
        → times_passed c r is z x ≡ 1 }
    ensures marking { (c : Config) (r : Run) → (is : IsAfterTurns c r) → (x : ℕ) → 1 ≤ x
        → is_sweep (heap_in c r.state Phase) ≡ false
        → times_passed c r is (starts_in r.order) x ≡ 0 }
    ensures sweeping { (c : Config) (r : Run) → (is : IsAfterTurns c r) → (x : ℕ) → 1 ≤ x
        → is_sweep (heap_in c r.state Phase) ≡ true
        → times_passed c r is (starts_in r.order) x ≡ bit (is_behind c r.state x) }
    ensures units { (c : Config) (r : Run) → (is : IsAfterTurns c r)
        → units_so_far c r ≡ total (starts_in r.order) (λ z. taken_in c r is (suc z)) }
{}
