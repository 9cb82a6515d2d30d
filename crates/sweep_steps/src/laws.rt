//! Laws of the rows, for the proofs above: each is the contract of a function that does nothing.

ghost use Rattle.std.specs.Prelude.{◌≡◌, ◌≢◌, ◌<◌, ◌≤◌, ◌+◌, ◌-◌, ◌||◌, ◌++◌, ◌⊎◌, ℕ, List, length, min, nat_lt, cond, true, false, is_some};
ghost use Rattle.block_store.specs.declared.Config.{Config};
ghost use Rattle.block_store.specs.Heaps.{Heap};
ghost use Rattle.block_store.specs.Phases.{bit};
ghost use Rattle.block_store.specs.Colours.{is_free, white_word};
ghost use Rattle.block_store.specs.Places.{Extent, Place, extent, in_range, Cursor, FreeList, ColourOf};
ghost use Rattle.block_store.specs.Counts.{changed};
ghost use Rattle.heap_machine.specs.Grey.{GreyKept};
ghost use Rattle.heap_machine.specs.WorkInHand.{WorkInHand, holds_nothing, grey_held};
ghost use Rattle.heap_machine.specs.Operations.{Exchange, place_of, heap_after, Fits};
ghost use Rattle.heap_machine.specs.Readings.{IsHeld};
ghost use Rattle.heap_machine.specs.PhaseKept.{PhaseKept};
ghost use Rattle.heap_machine.specs.ReuseKept.{ReuseKept};
ghost use Rattle.sweep_steps.specs.Rows.{SweepState, sweep_want, sweep_got, sweep_over, sweep_unit, sweep_passed, sweep_nothing, sweeping, sweep_in_hand};
ghost use Rattle.sweep_steps.specs.SweepUnits.{is_reading, is_freeing, is_putting, is_unswept, row_passes, row_claims, unpassed, blocks_from, blocks_left, blocks_passed, blocks_claimed, sweep_after};
ghost use Rattle.sweep_steps.specs.Fits.{SweepFits, SweepReads, IsSweeping};
ghost use Rattle.sweep_steps.specs.declared.rows.SweepRow.{SweepRow};

/// The first state fits its heap, and a state that fits becomes one that fits. Such a state wants a
/// place of the heap, and its sum stays in 64 bits.
pub fn rows_stay_in_the_heap()
    ensures first { (c : Config) (t cycle owed : ℕ) → t < c.threads → c.blocks ≤ 65535 → 1 ≤ owed
        → SweepFits c (sweeping t cycle c.blocks owed) }
    ensures next { (c : Config) (s : SweepState) (w : ℕ) → SweepFits c s → SweepReads c s w
        → SweepFits c (sweep_got s w) }
    ensures place { (c : Config) (s : SweepState) → SweepFits c s
        → in_range (extent c) (place_of (sweep_want s)) ≡ true }
    ensures sum { (c : Config) (s : SweepState) (w : ℕ) → SweepFits c s → SweepReads c s w
        → Fits (sweep_want s) w }
{}

/// Each event keeps that each Free block is in one place and is counted, that no block is
/// claimed twice, and that what was passed is not white, while the other threads hold what they
/// held and the phase is Sweep, in the cycle of the part. A part begins and ends with nothing
/// claimed, and with nothing in hand or freed that is not counted. Where it puts its private list,
/// the list there is empty.
pub fn rows_keep_reuse()
    ensures kept { (c : Config) (h : Heap) (hs : ℕ → WorkInHand) (s : SweepState)
        → SweepFits c s → IsSweeping h s
        → ReuseKept (extent c) h hs → hs s.thread ≡ sweep_in_hand s.row
        → ReuseKept (extent c) (heap_after h (sweep_want s))
        (changed hs s.thread (sweep_in_hand (sweep_got s (h (place_of (sweep_want s)))).row)) }
    ensures sweeping { (h : Heap) (s : SweepState) (w : ℕ) → IsSweeping h s
        → IsSweeping (heap_after h (sweep_want s)) (sweep_got s w) }
    ensures first { (t c m owed : ℕ) → sweep_in_hand (sweeping t c m owed).row ≡ holds_nothing }
    ensures over { (r : SweepRow) → sweep_over r ≡ true → sweep_in_hand r ≡ holds_nothing }
    ensures put { (c : Config) (h : Heap) (hs : ℕ → WorkInHand) (s : SweepState)
        → SweepFits c s → ReuseKept (extent c) h hs → hs s.thread ≡ sweep_in_hand s.row
        → is_putting s.row ≡ true
        → (sweep_want s ≡ Exchange (FreeList s.thread) (sweep_in_hand s.row).free_list)
        × (h (FreeList s.thread) ≡ 0) }
{}

/// Each event keeps all rules of the heap at once, while the other threads hold what they held and
/// the phase is Sweep, in the cycle of the part.
pub fn rows_keep_the_heap()
    ensures { (c : Config) (h : Heap) (hs : ℕ → WorkInHand) (s : SweepState)
        → SweepFits c s → IsSweeping h s
        → PhaseKept (extent c) h hs → hs s.thread ≡ sweep_in_hand s.row
        → PhaseKept (extent c) (heap_after h (sweep_want s))
        (changed hs s.thread (sweep_in_hand (sweep_got s (h (place_of (sweep_want s)))).row)) }
{}

/// Where each word of the heap is one that its place can hold, it is so after each event. The free
/// count in particular is then at most the number of blocks.
pub fn rows_keep_the_words()
    ensures { (c : Config) (h : Heap) (hs : ℕ → WorkInHand) (s : SweepState)
        → SweepFits c s
        → ReuseKept (extent c) h hs → hs s.thread ≡ sweep_in_hand s.row
        → IsHeld c h → IsHeld c (heap_after h (sweep_want s)) }
{}

/// A block that is freed was white. Each event leaves the colour of each other block, and all
/// words but the cursor, the free count, free lists and colours; and it keeps that each grey
/// block is in one place.
pub fn only_white_blocks_are_freed()
    ensures white { (c : Config) (h : Heap) (hs : ℕ → WorkInHand) (s : SweepState)
        → SweepFits c s → IsSweeping h s
        → ReuseKept (extent c) h hs → hs s.thread ≡ sweep_in_hand s.row
        → is_freeing s.row ≡ true
        → (x : ℕ) × (place_of (sweep_want s) ≡ ColourOf x) × (h (ColourOf x) ≡ white_word s.cycle)
        × (is_free (heap_after h (sweep_want s) (ColourOf x)) ≡ true) }
    ensures others { (c : Config) (h : Heap) (hs : ℕ → WorkInHand) (s : SweepState)
        → SweepFits c s → IsSweeping h s
        → ReuseKept (extent c) h hs → hs s.thread ≡ sweep_in_hand s.row
        → (x : ℕ)
        → (heap_after h (sweep_want s) (ColourOf x) ≡ h (ColourOf x))
        ⊎ (is_freeing s.row ≡ true) × (h (ColourOf x) ≡ white_word s.cycle)
        × (is_free (heap_after h (sweep_want s) (ColourOf x)) ≡ true) }
    ensures words { (h : Heap) (s : SweepState) (p : Place) → is_unswept p ≡ true
        → heap_after h (sweep_want s) p ≡ h p }
    ensures grey { (c : Config) (h : Heap) (hs : ℕ → WorkInHand) (s : SweepState)
        → SweepFits c s → IsSweeping h s
        → ReuseKept (extent c) h hs → hs s.thread ≡ sweep_in_hand s.row
        → GreyKept c.threads h (λ u. grey_held (hs u))
        → GreyKept c.threads (heap_after h (sweep_want s))
        (λ u. grey_held (changed hs s.thread
        (sweep_in_hand (sweep_got s (h (place_of (sweep_want s)))).row) u)) }
{}

/// A part is a unit exactly after an event that passed a block, until its next event, and it has
/// passed as many blocks as there were such events: at most eight, and, with those that it has
/// claimed and not yet passed, at most as many as were owed. It has found nothing exactly where the
/// cursor was read after the last block.
pub fn a_unit_is_a_passed_block()
    ensures first { (t c m owed : ℕ) → (sweep_unit (sweeping t c m owed).row ≡ false)
        × (sweep_passed (sweeping t c m owed).row ≡ 0)
        × (sweep_nothing (sweeping t c m owed).row ≡ false) }
    ensures unit { (c : Config) (s : SweepState) (w : ℕ) → SweepFits c s → sweep_over s.row ≡ false
        → sweep_unit (sweep_got s w).row ≡ is_some (row_passes s.cycle s.row w) }
    ensures passed { (s : SweepState) (w : ℕ)
        → sweep_passed (sweep_got s w).row
        ≡ sweep_passed s.row + bit (is_some (row_passes s.cycle s.row w)) }
    ensures few { (c : Config) (s : SweepState) → SweepFits c s
        → (sweep_passed s.row ≤ 8) × (sweep_passed s.row ≤ s.owed) }
    ensures due { (c : Config) (s : SweepState) → SweepFits c s
        → (sweep_in_hand s.row).high + sweep_passed s.row ≤ (sweep_in_hand s.row).low + s.owed }
    ensures nothing { (s : SweepState) (w : ℕ)
        → sweep_nothing (sweep_got s w).row
        ≡ (sweep_nothing s.row || cond (is_reading s.row) (nat_lt s.blocks w) false) }
{}

/// A part claims one range, of at most eight blocks, none of them after the last, and no more
/// than are owed; what it passes are the blocks of that range in their order, once each, and at
/// its end all of them.
pub fn passed_blocks_are_those_claimed()
    ensures claimed { (t c m owed : ℕ) (ws : List ℕ)
        → (x : ℕ) × (n : ℕ) × (blocks_claimed (sweeping t c m owed) ws ≡ blocks_from x n)
        × (n ≤ 8) × (n ≤ owed) × (x + n ≤ m + 1) }
    ensures left { (t c m owed : ℕ) (ws : List ℕ) → 1 ≤ owed
        → blocks_claimed (sweeping t c m owed) ws
        ≡ blocks_passed (sweeping t c m owed) ws
        ++ blocks_left (sweep_after (sweeping t c m owed) ws).row }
    ensures over { (t c m owed : ℕ) (ws : List ℕ) → 1 ≤ owed
        → sweep_over (sweep_after (sweeping t c m owed) ws).row ≡ true
        → blocks_passed (sweeping t c m owed) ws ≡ blocks_claimed (sweeping t c m owed) ws }
    ensures count { (t c m owed : ℕ) (ws : List ℕ)
        → length (blocks_passed (sweeping t c m owed) ws)
        ≡ sweep_passed (sweep_after (sweeping t c m owed) ws).row }
{}

/// Each event moves the cursor on by the blocks that it claims. What its thread has claimed and not
/// yet passed gets more by these, and less by the block that it passes; so the cursor without what
/// is claimed moves exactly with what is passed. A part that finds nothing does so where the cursor
/// is after the last block.
pub fn claims_move_the_cursor()
    ensures claimed { (c : Config) (h : Heap) (s : SweepState) → SweepFits c s
        → heap_after h (sweep_want s) Cursor
        ≡ h Cursor + length (row_claims s.row (h (place_of (sweep_want s)))) }
    ensures left { (c : Config) (s : SweepState) (w : ℕ) → SweepFits c s
        → unpassed (sweep_in_hand s.row) + length (row_claims s.row w)
        ≡ unpassed (sweep_in_hand (sweep_got s w).row)
        + bit (is_some (row_passes s.cycle s.row w)) }
    ensures both { (c : Config) (h : Heap) (s : SweepState) → SweepFits c s
        → heap_after h (sweep_want s) Cursor + unpassed (sweep_in_hand s.row)
        ≡ h Cursor + unpassed (sweep_in_hand (sweep_got s (h (place_of (sweep_want s)))).row)
        + bit (is_some (row_passes s.cycle s.row (h (place_of (sweep_want s))))) }
    ensures nothing { (c : Config) (h : Heap) (s : SweepState) → SweepFits c s
        → sweep_nothing s.row ≡ false
        → sweep_nothing (sweep_got s (h (place_of (sweep_want s)))).row ≡ true
        → c.blocks < h Cursor }
{}
