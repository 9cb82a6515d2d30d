//! The law of the rows on what the graph reaches, for the proofs above: the contract of a function
//! that does nothing.

ghost use Rattle.std.specs.Prelude.{◌≡◌, ℕ, List};
ghost use Rattle.block_store.specs.declared.Config.{Config};
ghost use Rattle.block_store.specs.Heaps.{Heap};
ghost use Rattle.block_store.specs.Places.{extent};
ghost use Rattle.never_heap.specs.Graphs.{Graph};
ghost use Rattle.never_heap.specs.Histories.{HistoryItem};
ghost use Rattle.heap_invariant.specs.name_invariant.Invariant.{Invariant};
ghost use Rattle.heap_invariant.specs.name_invariant.Pictures.{Task, Names, picture};
ghost use Rattle.heap_machine.specs.WorkInHand.{WorkInHand};
ghost use Rattle.heap_machine.specs.Operations.{heap_after};
ghost use Rattle.heap_machine.specs.ReuseKept.{ReuseKept};
ghost use Rattle.sweep_steps.specs.Fits.{SweepFits, IsSweeping};
ghost use Rattle.sweep_steps.specs.Rows.{SweepState, sweep_want, sweep_in_hand};

/// While the phase is Sweep, in the cycle of the part, each event keeps what is kept of the names,
/// while the other threads hold what they held. No thread is then at anything else.
pub fn rows_keep_the_names()
    ensures { (c : Config) (g : Graph) (order : List HistoryItem) (h : Heap) (names : Names)
        (tasks : ℕ → Task) (s : SweepState) (hs : ℕ → WorkInHand)
        → SweepFits c s → IsSweeping h s
        → ReuseKept (extent c) h hs → hs s.thread ≡ sweep_in_hand s.row
        → Invariant c (picture g order h names tasks)
        → Invariant c (picture g order (heap_after h (sweep_want s)) names tasks) }
{}
