//! Laws of the rows over the rules of kept names: each is the contract of a function that does
//! nothing.

ghost use Rattle.std.specs.Prelude.{◌≡◌, ◌∷◌, ◌++◌, ◌&&◌, nat_lt, IfSome, ℕ, List, [], true, false, Some, None};
ghost use Rattle.block_store.specs.declared.Config.{Config};
ghost use Rattle.block_store.specs.declared.Width.{Width};
ghost use Rattle.block_store.specs.Configs.{IsInBounds};
ghost use Rattle.block_store.specs.Heaps.{Heap};
ghost use Rattle.block_store.specs.Places.{extent, ColourOf};
ghost use Rattle.never_heap.specs.declared.Command.{Command};
ghost use Rattle.never_heap.specs.declared.Reply.TheVariants as replies;
ghost use Rattle.never_heap.specs.Graphs.{Graph, next_name};
ghost use Rattle.never_heap.specs.Histories.{HistoryItem, Did};
ghost use Rattle.never_heap.specs.Steps.{step};
ghost use Rattle.heap_invariant.specs.graph_relation.Words.{block_words};
ghost use Rattle.heap_invariant.specs.name_invariant.Building.{IsBuild};
ghost use Rattle.heap_invariant.specs.name_invariant.Invariant.{Invariant};
ghost use Rattle.heap_invariant.specs.name_invariant.Pictures.{Names, Task, picture};
ghost use Rattle.heap_machine.specs.WorkInHand.{WorkInHand};
ghost use Rattle.heap_machine.specs.Operations.{heap_after};
ghost use Rattle.heap_machine.specs.Readings.{IsHeld};
ghost use Rattle.build_steps.specs.LinearizationPoints.{decides, is_counting, is_publishing, is_built};
ghost use Rattle.build_steps.specs.Fits.{BuildFits};
ghost use Rattle.build_steps.specs.Naming.{HoldsBuild, IsPictured, build_of, built_entry, names_made, with_task_build, word_read};
ghost use Rattle.build_steps.specs.Rows.{BuildState, built_at, build_want, build_got, build_over, build_reply, build_in_hand, building, full_cycle};
ghost use Rattle.build_steps.specs.Standing.{Stands};

/// Each event of a thread that builds keeps the rules of kept names on the picture of the heap. An
/// event that decides nothing leaves the graph, its order and the names, and the thread is at what
/// it builds then. The event that finds too few blocks Free gives the order the command's entry,
/// which is answered full. Publishing makes of the graph what the command's step does, gives the
/// order the entry that is answered as the step says, and the names the new one. After either the
/// thread builds nothing.
pub fn rows_keep_the_names()
    ensures goes_on { (c : Config) (g : Graph) (order : List HistoryItem) (h : Heap) (names : Names)
        (tasks : ℕ → Task) (hs : ℕ → WorkInHand) (s : BuildState) → IsInBounds c
        → IsPictured c g order h names tasks hs s → decides s (word_read c h s) ≡ false
        → Invariant c (picture g order (heap_after h (build_want (extent c) s)) names
        (with_task_build tasks s.thread
        (build_of c.width (build_got (extent c) s (word_read c h s))))) }
    ensures full { (c : Config) (g : Graph) (order : List HistoryItem) (h : Heap) (names : Names)
        (tasks : ℕ → Task) (hs : ℕ → WorkInHand) (s : BuildState) (work : ℕ) → IsInBounds c
        → IsPictured c g order h names tasks hs s
        → (is_counting s.row && nat_lt (word_read c h s) s.blocks) ≡ true
        → Invariant c (picture g
        (order ++ Did (built_entry s (replies.Full (full_cycle s.cycle)) work) ∷ [])
        (heap_after h (build_want (extent c) s)) names
        (with_task_build tasks s.thread None)) }
    ensures published { (c : Config) (g : Graph) (order : List HistoryItem) (h : Heap)
        (names : Names) (tasks : ℕ → Task) (hs : ℕ → WorkInHand) (s : BuildState) (work : ℕ)
        → IsInBounds c → IsPictured c g order h names tasks hs s → is_publishing s.row ≡ true
        → Invariant c (picture (step g s.thread s.command).0
        (order ++ Did (built_entry s (step g s.thread s.command).1 work) ∷ [])
        (heap_after h (build_want (extent c) s))
        (names_made names (next_name g s.thread) (built_at s))
        (with_task_build tasks s.thread None)) }
    ensures reply { (c : Config) (g : Graph) (order : List HistoryItem) (h : Heap) (names : Names)
        (tasks : ℕ → Task) (hs : ℕ → WorkInHand) (s : BuildState) (v : ℕ)
        → IsPictured c g order h names tasks hs s → is_publishing s.row ≡ true
        → (build_reply (build_got (extent c) s v) ≡ Some (step g s.thread s.command).1)
        × ((step g s.thread s.command).1 ≡ replies.New (next_name g s.thread)) }
{}

/// What a state builds, for those rules: nothing at first, nor once the part is over; and what is
/// held for it and not coloured yet is among the Free blocks that the part holds.
pub fn states_build_what_they_hold()
    ensures first { (w : Width) (t n cycle serial : ℕ) (k : Command) (capacity : ℕ)
        → build_of w (building w t n cycle serial k capacity) ≡ None }
    ensures over { (w : Width) (s : BuildState) → build_over s.row ≡ true → build_of w s ≡ None }
    ensures held { (c : Config) (s : BuildState) → BuildFits c s
        → HoldsBuild (build_of c.width s) (build_in_hand s) }
{}

/// Where those rules hold, what a part has written is; and each event keeps that the words are
/// ones that their places can hold.
pub fn written_blocks_stand()
    ensures build { (c : Config) (h : Heap) (s : BuildState) → BuildFits c s
        → IfSome (build_of c.width s) (λ b.
        IsBuild c.width c.threads c.blocks s.cycle (λ x. h (ColourOf x)) (block_words h) b)
        → is_built s.row ≡ false → Stands c.width h s }
    ensures pictured { (c : Config) (g : Graph) (order : List HistoryItem) (h : Heap)
        (names : Names) (tasks : ℕ → Task) (hs : ℕ → WorkInHand) (s : BuildState)
        → IsPictured c g order h names tasks hs s → is_built s.row ≡ false → Stands c.width h s }
    ensures held { (c : Config) (h : Heap) (s : BuildState) → BuildFits c s → IsHeld c h
        → IsHeld c (heap_after h (build_want (extent c) s)) }
{}
