//! Laws of the rows on what the graph reaches, for the proofs above: each is the contract of a
//! function that does nothing.

ghost use Rattle.std.specs.Prelude.{◌≡◌, ℕ, List, true, false};
ghost use Rattle.block_store.specs.declared.Config.{Config};
ghost use Rattle.block_store.specs.Counts.{changed};
ghost use Rattle.block_store.specs.Heaps.{Heap};
ghost use Rattle.block_store.specs.Payloads.{target};
ghost use Rattle.block_store.specs.Phases.{is_sweep, cycle_of};
ghost use Rattle.block_store.specs.Places.{Extent, extent, Phase};
ghost use Rattle.never_heap.specs.Graphs.{Graph};
ghost use Rattle.never_heap.specs.Histories.{HistoryItem};
ghost use Rattle.heap_invariant.specs.graph_relation.Events.{HasValue};
ghost use Rattle.heap_invariant.specs.name_invariant.Events.{loaded_word};
ghost use Rattle.heap_invariant.specs.name_invariant.Invariant.{Invariant};
ghost use Rattle.heap_invariant.specs.name_invariant.Pictures.{Task, Names, picture};
ghost use Rattle.heap_machine.specs.Grey.{GreyKept};
ghost use Rattle.heap_machine.specs.WorkInHand.{WorkInHand, grey_held};
ghost use Rattle.heap_machine.specs.Operations.{place_of, heap_after};
ghost use Rattle.heap_machine.specs.Readings.{IsHeld};
ghost use Rattle.heap_machine.specs.declared.pass.Pass.{Pass};
ghost use Rattle.grey_steps.specs.MarkUnits.{is_shading, block_stored};
ghost use Rattle.grey_steps.specs.Fits.{GreyFits};
ghost use Rattle.grey_steps.specs.Rows.{GreyState, grey_want, grey_got, marking_in_hand, scanning, shading};

/// While the phase is Mark, in the cycle of the part, each event of a scan keeps what is kept of
/// the names, where the thread's task is at the block that its row has found in a payload, and then
/// at that of the next row. Each event of a shading keeps it with the task as it was, where the
/// thread has loaded a value that refers to the block of the shading. A scan stays a scan, and a
/// shading stays one of its block.
pub fn rows_keep_the_names()
    ensures scan { (c : Config) (g : Graph) (order : List HistoryItem) (h : Heap)
        (names : Names) (tasks : ℕ → Task) (s : GreyState) (hs : ℕ → WorkInHand)
        → GreyFits c s → is_sweep (h Phase) ≡ false → cycle_of (h Phase) ≡ s.pass.cycle
        → GreyKept c.threads h (λ u. grey_held (hs u))
        → hs s.pass.thread ≡ marking_in_hand (extent c) s → is_shading s.row ≡ false
        → (tasks s.pass.thread).scan ≡ (marking_in_hand (extent c) s).found
        → Invariant c (picture g order h names tasks)
        → Invariant c (picture g order (heap_after h (grey_want s)) names
        (changed tasks s.pass.thread (record (tasks s.pass.thread) {
          scan = (marking_in_hand (extent c) (grey_got (extent c) s (h (place_of (grey_want s))))).found;
        }))) }
    ensures shade { (c : Config) (g : Graph) (order : List HistoryItem) (h : Heap)
        (names : Names) (tasks : ℕ → Task) (s : GreyState)
        → GreyFits c s → is_sweep (h Phase) ≡ false → cycle_of (h Phase) ≡ s.pass.cycle
        → is_shading s.row ≡ true
        → HasValue (picture g order h names tasks).seen s.pass.thread
        → target (loaded_word (picture g order h names tasks) s.pass.thread) ≡ block_stored s.row
        → Invariant c (picture g order h names tasks)
        → Invariant c (picture g order (heap_after h (grey_want s)) names tasks) }
    ensures scans { (p : Pass) → is_shading (scanning p).row ≡ false }
    ensures still_scans { (e : Extent) (s : GreyState) (w : ℕ) → is_shading s.row ≡ false
        → is_shading (grey_got e s w).row ≡ false }
    ensures shades { (p : Pass) (y : ℕ) → (is_shading (shading p y).row ≡ true)
        × (block_stored (shading p y).row ≡ y) }
    ensures still_shades { (e : Extent) (s : GreyState) (w : ℕ) → is_shading s.row ≡ true
        → (is_shading (grey_got e s w).row ≡ true)
        × (block_stored (grey_got e s w).row ≡ block_stored s.row) }
{}

/// Where each word of the heap is one that its place can hold, it is so after each event.
pub fn rows_keep_the_words()
    ensures { (c : Config) (h : Heap) (s : GreyState) → GreyFits c s → IsHeld c h
        → IsHeld c (heap_after h (grey_want s)) }
{}
