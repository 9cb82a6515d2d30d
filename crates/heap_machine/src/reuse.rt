//! Laws of Free blocks and of the sweep, for the proofs above: each is the contract of a function
//! that does nothing.

ghost use Rattle.std.specs.Prelude.{◌≡◌, ◌≢◌, ◌<◌, ◌≤◌, ◌+◌, ◌==◌, ◌&&◌, ℕ, suc, Bool, List, length, true, false};
ghost use Rattle.block_store.specs.Places.{Extent, Phase, Cursor, FreeCount, FreeList, ColourOf, is_block};
ghost use Rattle.block_store.specs.Colours.{link, is_free, free_word, white_word};
ghost use Rattle.block_store.specs.Phases.{bit, inside_of, is_sweep, cycle_of};
ghost use Rattle.block_store.specs.Heaps.{Heap, put_at};
ghost use Rattle.heap_machine.specs.Operations.{Operation, place_of, heap_after};
ghost use Rattle.block_store.specs.Counts.{changed, times, total};
ghost use Rattle.heap_machine.specs.FreeBlocks.{FreeInHand, no_free, FreeFrom, FreeKept, count_free, is_of_free};
ghost use Rattle.heap_machine.specs.Sweeping.{SweepInHand, no_claim, rest_of, has_claimed, claims, SweepKept, is_of_sweep};
ghost use Rattle.heap_machine.specs.Grey.{GreyKept};
ghost use Rattle.heap_machine.specs.HeapKept.{HeapKept};
ghost use Rattle.heap_machine.specs.WorkInHand.{WorkInHand, grey_held, free_held, sweep_held};
ghost use Rattle.heap_machine.specs.PhaseKept.{PhaseKept};
ghost use Rattle.heap_machine.specs.ReuseKept.{ReuseKept, is_of_reuse};
ghost use Rattle.heap_machine.specs.Gates.{gate_want, GateFits};
ghost use Rattle.heap_machine.specs.Gating.{Gating, GateOf, is_closing};
ghost use Rattle.heap_machine.specs.ChangingPhase.{turns_over, changing_gating, MayTurn};
ghost use Rattle.heap_machine.specs.declared.gate.GateRow.{GateRow};
ghost use Rattle.heap_machine.specs.declared.pass.Pass.{Pass};

/// Each Free block of the heap is in one place: in the chain of one free list, in the chain
/// of the private list of one thread, or among the blocks that one thread has collected and not yet
/// coloured. Free blocks of the heap alone are there. The free count, what is reserved and not
/// yet coloured, and what is freed and not yet credited make up the number of Free blocks. Where
/// a thread knows its own list to be empty, so that it may put its private list there, the list
/// word is 0.
pub fn free_blocks_stand_once()
    ensures once { (e : Extent) (h : Heap) (fs : ℕ → FreeInHand) (k : FreeKept e h fs) (x : ℕ)
        → is_block e x ≡ true → is_free (h (ColourOf x)) ≡ true
        → total e.threads (λ t. times x (k.lists t)) + total e.threads (λ t. times x (k.private_lists t))
        + total e.threads (λ t. times x (fs t).held) ≡ 1 }
    ensures lists { (e : Extent) (h : Heap) (fs : ℕ → FreeInHand)
        (k : FreeKept e h fs) (t x : ℕ) → t < e.threads
        → times x (k.lists t) ≤ bit (is_block e x && is_free (h (ColourOf x))) }
    ensures private_lists { (e : Extent) (h : Heap) (fs : ℕ → FreeInHand)
        (k : FreeKept e h fs) (t x : ℕ) → t < e.threads
        → times x (k.private_lists t) ≤ bit (is_block e x && is_free (h (ColourOf x))) }
    ensures held { (e : Extent) (h : Heap) (fs : ℕ → FreeInHand) → FreeKept e h fs → (t x : ℕ)
        → t < e.threads
        → times x (fs t).held ≤ bit (is_block e x && is_free (h (ColourOf x))) }
    ensures one_held { (e : Extent) (h : Heap) (fs : ℕ → FreeInHand) → FreeKept e h fs
        → (t u x : ℕ)
        → t < e.threads → u < e.threads
        → 1 ≤ times x (fs t).held → 1 ≤ times x (fs u).held → t ≡ u }
    ensures first { (e : Extent) (h : Heap) (fs : ℕ → FreeInHand) → FreeKept e h fs → (t : ℕ)
        → t < e.threads
        → h (FreeList t) ≢ 0
        → (is_block e (h (FreeList t)) && is_free (h (ColourOf (h (FreeList t))))) ≡ true }
    ensures list { (e : Extent) (h : Heap) (fs : ℕ → FreeInHand) → FreeKept e h fs → (t : ℕ)
        → t < e.threads
        → (fs t).list ≢ 0
        → (is_block e (fs t).list && is_free (h (ColourOf (fs t).list))) ≡ true }
    ensures counted { (e : Extent) (h : Heap) (fs : ℕ → FreeInHand) → FreeKept e h fs
        → h FreeCount + total e.threads (λ t. (fs t).reserved) + total e.threads (λ t. (fs t).freed)
        ≡ count_free e (λ x. h (ColourOf x)) }
    ensures few { (e : Extent) (h : Heap) (fs : ℕ → FreeInHand) → FreeKept e h fs → (t : ℕ)
        → t < e.threads
        → h FreeCount + (fs t).reserved + (fs t).freed ≤ e.blocks }
    ensures empty { (e : Extent) (h : Heap) (fs : ℕ → FreeInHand) → FreeKept e h fs → (t : ℕ)
        → t < e.threads
        → (fs t).emptied ≡ true → h (FreeList t) ≡ 0 }
{}

/// So it is in a heap that nobody has used yet: its last blocks are Free, in one ascending list.
pub fn free_blocks_stand_at_the_opening()
    ensures { (e : Extent) (h : Heap) (fs : ℕ → FreeInHand) (a : ℕ) → FreeFrom e h a
        → ((t : ℕ) → t < e.threads → fs t ≡ no_free) → FreeKept e h fs }
{}

/// What keeps that each Free block is in one place and is counted, while the other threads
/// hold what they held: an operation on a word of which the rule does not speak, and a colour
/// where neither the old nor the new one is Free. A thread takes a list into an empty private list;
/// it puts its private list in its own list, which it has taken; it changes the free count as what
/// it has reserved or freed changes; it collects the first block of its private list; it frees a
/// block, which is then the first of its private list; and it colours a block that it has
/// collected, which is then neither held nor reserved.
pub fn what_keeps_free_blocks()
    ensures place { (e : Extent) (h : Heap) (fs : ℕ → FreeInHand) (o : Operation)
        → is_of_free (place_of o) ≡ false
        → FreeKept e h fs → FreeKept e (heap_after h o) fs }
    ensures colour { (e : Extent) (h : Heap) (fs : ℕ → FreeInHand) (x v : ℕ)
        → is_free (h (ColourOf x)) ≡ false → is_free v ≡ false
        → FreeKept e h fs → FreeKept e (put_at h (ColourOf x) v) fs }
    ensures takes { (e : Extent) (h : Heap) (fs : ℕ → FreeInHand) → FreeKept e h fs
        → (t : ℕ) → t < e.threads → (old : FreeInHand) → fs t ≡ old
        → (u : ℕ) (emptied : Bool) → u < e.threads → old.list ≡ 0
        → (emptied ≡ true → put_at h (FreeList u) 0 (FreeList t) ≡ 0)
        → FreeKept e (put_at h (FreeList u) 0)
        (changed fs t (record old { list = h (FreeList u); emptied = emptied })) }
    ensures puts { (e : Extent) (h : Heap) (fs : ℕ → FreeInHand) → FreeKept e h fs
        → (t : ℕ) → t < e.threads → (old : FreeInHand) → fs t ≡ old
        → old.emptied ≡ true
        → FreeKept e (put_at h (FreeList t) old.list)
        (changed fs t (record old { list = 0; emptied = false })) }
    ensures counts { (e : Extent) (h : Heap) (fs : ℕ → FreeInHand) → FreeKept e h fs
        → (t : ℕ) → t < e.threads → (old : FreeInHand) → fs t ≡ old
        → (v reserved freed : ℕ)
        → v + reserved + freed ≡ h FreeCount + old.reserved + old.freed
        → length old.held ≤ reserved
        → FreeKept e (put_at h FreeCount v)
        (changed fs t (record old { reserved = reserved; freed = freed })) }
    ensures lets_go { (e : Extent) (h : Heap) (fs : ℕ → FreeInHand) → FreeKept e h fs
        → (t : ℕ) → t < e.threads → (old : FreeInHand) → fs t ≡ old
        → old.list ≡ 0
        → FreeKept e h (changed fs t (record old { list = 0; emptied = false })) }
    ensures collects { (e : Extent) (h : Heap) (fs : ℕ → FreeInHand) → FreeKept e h fs
        → (t : ℕ) → t < e.threads → (old : FreeInHand) → fs t ≡ old
        → (xs : List ℕ) → old.list ≢ 0
        → ((x : ℕ) → times x xs ≡ bit (x == old.list) + times x old.held)
        → length xs ≤ old.reserved
        → FreeKept e h
        (changed fs t (record old { list = link (h (ColourOf old.list)); held = xs })) }
    ensures frees { (e : Extent) (h : Heap) (fs : ℕ → FreeInHand) → FreeKept e h fs
        → (t : ℕ) → t < e.threads → (old : FreeInHand) → fs t ≡ old
        → (x : ℕ) → 1 ≤ x → x ≤ e.blocks → is_free (h (ColourOf x)) ≡ false
        → FreeKept e (put_at h (ColourOf x) (free_word old.list))
        (changed fs t (record old { list = x; freed = old.freed + 1 })) }
    ensures builds { (e : Extent) (h : Heap) (fs : ℕ → FreeInHand) → FreeKept e h fs
        → (t : ℕ) → t < e.threads → (old : FreeInHand) → fs t ≡ old
        → (x v reserved : ℕ) (xs : List ℕ) → 1 ≤ x → x ≤ e.blocks
        → is_free (h (ColourOf x)) ≡ true → is_free v ≡ false
        → ((y : ℕ) → times y old.held ≡ bit (y == x) + times y xs)
        → suc reserved ≡ old.reserved → length xs ≤ reserved
        → FreeKept e (put_at h (ColourOf x) v)
        (changed fs t (record old { held = xs; reserved = reserved })) }
{}

/// Where a thread puts its private list in its own free list and that list is not empty, not every
/// Free block is in one place any more: the blocks of that list are lost.
pub fn free_lists_are_lost_at_a_put()
    ensures { (e : Extent) (h : Heap) (fs : ℕ → FreeInHand) → FreeKept e h fs
        → (t : ℕ) → t < e.threads → h (FreeList t) ≢ 0
        → FreeKept e (put_at h (FreeList t) (fs t).list)
        (changed fs t (record (fs t) { list = 0; emptied = false }))
        → ⊥ }
{}

/// No block is claimed by two threads, and those that are claimed are below the cursor. While the
/// phase is Sweep no block that was passed is white: one below the cursor that nobody has
/// claimed. So where the cursor is after the last block and nothing is claimed, no block is
/// white. What a thread is about to free is a block that it has claimed, and still white.
pub fn sweep_claims_do_not_overlap()
    ensures once { (e : Extent) (h : Heap) (cs : ℕ → SweepInHand) → SweepKept e h cs → (t u x : ℕ)
        → t < e.threads → u < e.threads
        → has_claimed (cs t) x ≡ true → has_claimed (cs u) x ≡ true → t ≡ u }
    ensures below { (e : Extent) (h : Heap) (cs : ℕ → SweepInHand) → SweepKept e h cs → (t x : ℕ)
        → t < e.threads → has_claimed (cs t) x ≡ true → (1 ≤ x) × (x < h Cursor) }
    ensures passed { (e : Extent) (h : Heap) (cs : ℕ → SweepInHand) → SweepKept e h cs
        → is_sweep (h Phase) ≡ true → (x : ℕ) → 1 ≤ x → x < h Cursor → claims e.threads cs x ≡ 0
        → h (ColourOf x) ≢ white_word (cycle_of (h Phase)) }
    ensures over { (e : Extent) (h : Heap) (cs : ℕ → SweepInHand) → SweepKept e h cs
        → is_sweep (h Phase) ≡ true → h Cursor ≡ e.blocks + 1
        → ((t : ℕ) → t < e.threads → cs t ≡ no_claim)
        → (x : ℕ) → 1 ≤ x → x ≤ e.blocks → h (ColourOf x) ≢ white_word (cycle_of (h Phase)) }
    ensures doomed { (e : Extent) (h : Heap) (cs : ℕ → SweepInHand) → SweepKept e h cs
        → (t : ℕ) → t < e.threads
        → (cs t).doomed ≢ 0
        → (is_sweep (h Phase) ≡ true) × (has_claimed (cs t) (cs t).doomed ≡ true)
        × (h (ColourOf (cs t).doomed) ≡ white_word (cycle_of (h Phase))) }
{}

/// What keeps the rule of the sweep, while the other threads hold what they held: an operation on
/// a word of which the rule does not speak; in Mark any colour, and in Sweep one that is not
/// white on a block that is not; and a phase word of the same phase and cycle. Where nothing is
/// claimed, the phase word becomes any, in Sweep with the cursor at the first block, and in Mark
/// the cursor becomes any. A thread that has claimed nothing claims the blocks from the cursor
/// on, which goes to their end; it finds one of them white; and it passes the first of them,
/// which is not white, or gets a colour that is not.
pub fn what_keeps_the_sweep()
    ensures place { (e : Extent) (h : Heap) (cs : ℕ → SweepInHand) (o : Operation)
        → is_of_sweep (place_of o) ≡ false
        → SweepKept e h cs → SweepKept e (heap_after h o) cs }
    ensures colour { (e : Extent) (h : Heap) (cs : ℕ → SweepInHand) (x v : ℕ)
        → (is_sweep (h Phase) ≡ true
        → (v ≢ white_word (cycle_of (h Phase)))
        × (h (ColourOf x) ≢ white_word (cycle_of (h Phase))))
        → SweepKept e h cs → SweepKept e (put_at h (ColourOf x) v) cs }
    ensures phase { (e : Extent) (h : Heap) (cs : ℕ → SweepInHand) (v : ℕ)
        → cycle_of v ≡ cycle_of (h Phase) → is_sweep v ≡ is_sweep (h Phase)
        → SweepKept e h cs → SweepKept e (put_at h Phase v) cs }
    ensures turns { (e : Extent) (h : Heap) (cs : ℕ → SweepInHand) (v : ℕ)
        → ((t : ℕ) → t < e.threads → cs t ≡ no_claim)
        → (is_sweep v ≡ true → h Cursor ≡ 1)
        → SweepKept e h cs → SweepKept e (put_at h Phase v) cs }
    ensures cursor { (e : Extent) (h : Heap) (cs : ℕ → SweepInHand) (v : ℕ)
        → ((t : ℕ) → t < e.threads → cs t ≡ no_claim) → is_sweep (h Phase) ≡ false
        → (1 ≤ v) × (v ≤ e.blocks + 1)
        → SweepKept e (put_at h Cursor v) cs }
    ensures begins { (e : Extent) (h : Heap) (cs : ℕ → SweepInHand)
        → ((t : ℕ) → t < e.threads → cs t ≡ no_claim) → is_sweep (h Phase) ≡ false
        → (1 ≤ h Cursor) × (h Cursor ≤ e.blocks + 1)
        → SweepKept e h cs }
    ensures claims { (e : Extent) (h : Heap) (cs : ℕ → SweepInHand) → SweepKept e h cs
        → (t : ℕ) → t < e.threads → (old : SweepInHand) → cs t ≡ old
        → (high : ℕ) → h Cursor < high → high ≤ e.blocks + 1 → old ≡ no_claim
        → SweepKept e (put_at h Cursor high)
        (changed cs t (record { low = h Cursor; high = high; doomed = 0 })) }
    ensures dooms { (e : Extent) (h : Heap) (cs : ℕ → SweepInHand) → SweepKept e h cs
        → (t : ℕ) → t < e.threads → (old : SweepInHand) → cs t ≡ old
        → (x : ℕ) → is_sweep (h Phase) ≡ true → old.low ≤ x → x < old.high
        → h (ColourOf x) ≡ white_word (cycle_of (h Phase))
        → SweepKept e h (changed cs t (record old { doomed = x })) }
    ensures passes { (e : Extent) (h : Heap) (cs : ℕ → SweepInHand) → SweepKept e h cs
        → (t : ℕ) → t < e.threads → (old : SweepInHand) → cs t ≡ old
        → old.low < old.high → h (ColourOf old.low) ≢ white_word (cycle_of (h Phase))
        → SweepKept e h (changed cs t (rest_of old)) }
    ensures frees { (e : Extent) (h : Heap) (cs : ℕ → SweepInHand) → SweepKept e h cs
        → (t : ℕ) → t < e.threads → (old : SweepInHand) → cs t ≡ old
        → (v : ℕ) → old.low < old.high → v ≢ white_word (cycle_of (h Phase))
        → SweepKept e (put_at h (ColourOf old.low) v) (changed cs t (rest_of old)) }
{}

/// What keeps both rules at once, in both phases: a thread that goes on and holds of them what it
/// held; an operation on a word of which neither speaks; a colour where neither the old nor the
/// new one is Free, and in Sweep neither is white; a phase word of the same phase and cycle; and,
/// where nothing is claimed, any other, in Sweep with the cursor at the first block, and in Mark
/// any cursor.
pub fn what_keeps_reuse()
    ensures stays { (e : Extent) (h : Heap) (hs : ℕ → WorkInHand) → ReuseKept e h hs
        → (t : ℕ) (w : WorkInHand) → t < e.threads
        → free_held (hs t) ≡ free_held w → sweep_held (hs t) ≡ sweep_held w
        → ReuseKept e h (changed hs t w) }
    ensures place { (e : Extent) (h : Heap) (hs : ℕ → WorkInHand) → ReuseKept e h hs
        → (o : Operation) → is_of_reuse (place_of o) ≡ false
        → ReuseKept e (heap_after h o) hs }
    ensures colour { (e : Extent) (h : Heap) (hs : ℕ → WorkInHand) → ReuseKept e h hs
        → (x v : ℕ) → is_free (h (ColourOf x)) ≡ false → is_free v ≡ false
        → (is_sweep (h Phase) ≡ true
        → (v ≢ white_word (cycle_of (h Phase)))
        × (h (ColourOf x) ≢ white_word (cycle_of (h Phase))))
        → ReuseKept e (put_at h (ColourOf x) v) hs }
    ensures phase { (e : Extent) (h : Heap) (hs : ℕ → WorkInHand) → ReuseKept e h hs
        → (v : ℕ) → cycle_of v ≡ cycle_of (h Phase) → is_sweep v ≡ is_sweep (h Phase)
        → ReuseKept e (put_at h Phase v) hs }
    ensures turns { (e : Extent) (h : Heap) (hs : ℕ → WorkInHand) → ReuseKept e h hs
        → (v : ℕ) → ((t : ℕ) → t < e.threads → sweep_held (hs t) ≡ no_claim)
        → (is_sweep v ≡ true → h Cursor ≡ 1)
        → ReuseKept e (put_at h Phase v) hs }
    ensures cursor { (e : Extent) (h : Heap) (hs : ℕ → WorkInHand) → ReuseKept e h hs
        → (v : ℕ) → ((t : ℕ) → t < e.threads → sweep_held (hs t) ≡ no_claim)
        → is_sweep (h Phase) ≡ false → (1 ≤ v) × (v ≤ e.blocks + 1)
        → ReuseKept e (put_at h Cursor v) hs }
{}

/// The events of the gate keep both rules: to go in and out, where the phase word counts a thread
/// inside; and to close the gate, and change the phase or start a cycle, where nothing is
/// claimed while it is closed, the cursor is at the first block before the flip, and a root that
/// becomes grey was black.
pub fn gate_rows_keep_reuse()
    ensures passes { (e : Extent) (h : Heap) (hs : ℕ → WorkInHand) → ReuseKept e h hs
        → (r : GateRow) → turns_over r ≡ false → GateFits r
        → (r ≡ GateRow.Leave → 1 ≤ inside_of (h Phase))
        → ReuseKept e (heap_after h (gate_want e.width r)) hs }
    ensures turns { (e : Extent) (h : Heap) (hs : ℕ → WorkInHand) → ReuseKept e h hs
        → (gs : ℕ → Gating) → GateOf e.threads (h Phase) gs → (t : ℕ) → t < e.threads
        → (r : GateRow) → turns_over r ≡ true → GateFits r → gs t ≡ changing_gating r
        → (is_closing (changing_gating r).stand ≡ true
        → (u : ℕ) → u < e.threads → sweep_held (hs u) ≡ no_claim)
        → ((p : Pass) → r ≡ GateRow.Flip p → h Cursor ≡ 1) → MayTurn e r h
        → ReuseKept e (heap_after h (gate_want e.width r)) hs }
{}

/// What a heap keeps in each phase: while the phase is Mark it is what marking keeps in the cycle
/// of the phase word, with both rules on reuse; in Sweep it is where grey blocks are, with
/// these. A phase word of the same phase and cycle keeps it, and so does one that turns to Sweep
/// where nothing is claimed and the cursor is at the first block.
pub fn rules_hold_by_the_phase()
    ensures mark { (e : Extent) (h : Heap) (hs : ℕ → WorkInHand) → PhaseKept e h hs
        → is_sweep (h Phase) ≡ false → HeapKept e (cycle_of (h Phase)) h hs }
    ensures marks { (e : Extent) (h : Heap) (hs : ℕ → WorkInHand)
        → (cycle : ℕ) → cycle_of (h Phase) ≡ cycle
        → HeapKept e cycle h hs → ReuseKept e h hs → PhaseKept e h hs }
    ensures sweeps { (e : Extent) (h : Heap) (hs : ℕ → WorkInHand) → is_sweep (h Phase) ≡ true
        → GreyKept e.threads h (λ t. grey_held (hs t)) → ReuseKept e h hs → PhaseKept e h hs }
    ensures phase { (e : Extent) (h : Heap) (hs : ℕ → WorkInHand) → PhaseKept e h hs
        → (v : ℕ) → cycle_of v ≡ cycle_of (h Phase) → is_sweep v ≡ is_sweep (h Phase)
        → PhaseKept e (put_at h Phase v) hs }
    ensures flips { (e : Extent) (h : Heap) (hs : ℕ → WorkInHand) → PhaseKept e h hs
        → (v : ℕ) → is_sweep v ≡ true → h Cursor ≡ 1
        → ((t : ℕ) → t < e.threads → sweep_held (hs t) ≡ no_claim)
        → PhaseKept e (put_at h Phase v) hs }
{}
