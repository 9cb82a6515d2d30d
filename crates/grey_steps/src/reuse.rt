//! Laws of the rows on Free blocks and on the sweep, for the proofs above: each is the contract of
//! a function that does nothing.

ghost use Rattle.std.specs.Prelude.{◌≡◌, ℕ, false};
ghost use Rattle.block_store.specs.declared.Config.{Config};
ghost use Rattle.block_store.specs.Heaps.{Heap};
ghost use Rattle.block_store.specs.Phases.{is_sweep, cycle_of};
ghost use Rattle.block_store.specs.Places.{extent, Phase};
ghost use Rattle.block_store.specs.Counts.{changed};
ghost use Rattle.heap_machine.specs.Grey.{GreyKept};
ghost use Rattle.heap_machine.specs.WorkInHand.{WorkInHand, grey_held};
ghost use Rattle.heap_machine.specs.Operations.{place_of, heap_after};
ghost use Rattle.heap_machine.specs.PhaseKept.{PhaseKept};
ghost use Rattle.heap_machine.specs.ReuseKept.{ReuseKept};
ghost use Rattle.grey_steps.specs.Rows.{GreyState, grey_want, grey_got, marking_in_hand};
ghost use Rattle.grey_steps.specs.Fits.{GreyFits};

/// While the phase is Mark each event keeps where Free blocks are, what is claimed and what was
/// passed, while the other threads hold what they held.
pub fn rows_keep_reuse()
    ensures { (c : Config) (h : Heap) (hs : ℕ → WorkInHand) (s : GreyState)
        → GreyFits c s → is_sweep (h Phase) ≡ false
        → GreyKept c.threads h (λ t. grey_held (hs t))
        → ReuseKept (extent c) h hs → hs s.pass.thread ≡ marking_in_hand (extent c) s
        → ReuseKept (extent c) (heap_after h (grey_want s))
        (changed hs s.pass.thread
        (marking_in_hand (extent c) (grey_got (extent c) s (h (place_of (grey_want s)))))) }
{}

/// While the phase is Mark, in the cycle of the part, each event keeps all that a heap keeps in
/// either phase, while the other threads hold what they held.
pub fn rows_keep_each_phase()
    ensures { (c : Config) (h : Heap) (hs : ℕ → WorkInHand) (s : GreyState)
        → GreyFits c s → is_sweep (h Phase) ≡ false → cycle_of (h Phase) ≡ s.pass.cycle
        → PhaseKept (extent c) h hs → hs s.pass.thread ≡ marking_in_hand (extent c) s
        → PhaseKept (extent c) (heap_after h (grey_want s))
        (changed hs s.pass.thread
        (marking_in_hand (extent c) (grey_got (extent c) s (h (place_of (grey_want s)))))) }
{}
