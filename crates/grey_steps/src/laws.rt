//! Laws of the rows, for the proofs above: each is the contract of a function that does nothing.

ghost use Rattle.std.specs.Prelude.{◌≡◌, ◌≢◌, ◌<◌, ◌≤◌, ◌||◌, ℕ, List, length, true, false, Some};
ghost use Rattle.block_store.specs.declared.Config.{Config};
ghost use Rattle.block_store.specs.Colours.{is_grey, black_word, white_word};
ghost use Rattle.block_store.specs.Heaps.{Heap};
ghost use Rattle.block_store.specs.Widths.{payloads};
ghost use Rattle.block_store.specs.Places.{Extent, extent, in_range, GreyList, ColourOf, PayloadOf, IsBlock};
ghost use Rattle.block_store.specs.Payloads.{target};
ghost use Rattle.block_store.specs.Counts.{changed};
ghost use Rattle.heap_machine.specs.Grey.{GreyInHand, no_grey, GreyKept};
ghost use Rattle.heap_machine.specs.Tricolour.{TricolourInHand, no_tricolour, TricolourKept};
ghost use Rattle.heap_machine.specs.Solid.{SolidKept};
ghost use Rattle.heap_machine.specs.WorkInHand.{WorkInHand, grey_held, tricolour_held};
ghost use Rattle.heap_machine.specs.HeapKept.{HeapKept};
ghost use Rattle.heap_machine.specs.declared.pass.Pass.{Pass};
ghost use Rattle.heap_machine.specs.Operations.{Exchange, place_of, heap_after, Fits};
ghost use Rattle.heap_machine.specs.Readings.{StoresHeld};
ghost use Rattle.grey_steps.specs.Rows.{GreyState, list_of, grey_want, grey_got, grey_over, grey_unit, grey_nothing, marking_in_hand, scanning, shading};
ghost use Rattle.grey_steps.specs.Fits.{GreyFits, GreyReads};
ghost use Rattle.grey_steps.specs.declared.rows.GreyRow.TheVariants.{Shaded};
ghost use Rattle.grey_steps.specs.MarkUnits.{is_blackening, is_putting, grey_after, begins_with_zeros};

/// The first states fit their heap, and a state that fits becomes one that fits. Such a state wants
/// a place of the heap, adds and takes away nothing, and stores what the place can hold.
pub fn rows_stay_in_the_heap()
    ensures scan { (c : Config) (p : Pass) → p.threads ≡ c.threads → p.threads ≤ 16
        → c.blocks ≤ 65535
        → p.thread < p.threads → GreyFits c (scanning p) }
    ensures shade { (c : Config) (p : Pass) (x : ℕ) → p.threads ≡ c.threads → p.threads ≤ 16
        → c.blocks ≤ 65535
        → p.thread < p.threads → IsBlock c x → GreyFits c (shading p x) }
    ensures next { (c : Config) (s : GreyState) (w : ℕ) → GreyFits c s → GreyReads c s w
        → GreyFits c (grey_got (extent c) s w) }
    ensures place { (c : Config) (s : GreyState) → GreyFits c s
        → in_range (extent c) (place_of (grey_want s)) ≡ true }
    ensures sum { (s : GreyState) (w : ℕ) → Fits (grey_want s) w }
    ensures stores { (c : Config) (s : GreyState) → GreyFits c s → StoresHeld c (grey_want s) }
{}

/// Each event keeps that a grey block is in exactly one place, while the other threads hold
/// what they held. A part begins and ends with nothing in hand, and where it puts a list, the list
/// there is empty.
pub fn rows_keep_grey()
    ensures kept { (c : Config) (h : Heap) (hs : ℕ → GreyInHand) (s : GreyState) → GreyFits c s
        → GreyKept c.threads h hs → hs s.pass.thread ≡ grey_held (marking_in_hand (extent c) s)
        → GreyKept c.threads (heap_after h (grey_want s)) (changed hs s.pass.thread (grey_held
        (marking_in_hand (extent c) (grey_got (extent c) s (h (place_of (grey_want s))))))) }
    ensures scan { (e : Extent) (p : Pass) → grey_held (marking_in_hand e (scanning p)) ≡ no_grey }
    ensures shade { (e : Extent) (p : Pass) (x : ℕ)
        → grey_held (marking_in_hand e (shading p x)) ≡ no_grey }
    ensures over { (e : Extent) (s : GreyState) → grey_over s.row ≡ true
        → grey_held (marking_in_hand e s) ≡ no_grey }
    ensures put { (c : Config) (h : Heap) (hs : ℕ → GreyInHand) (s : GreyState) → GreyFits c s
        → GreyKept c.threads h hs → hs s.pass.thread ≡ grey_held (marking_in_hand (extent c) s)
        → is_putting s.row ≡ true
        → (grey_want s ≡ Exchange (GreyList s.pass.thread) (marking_in_hand (extent c) s).list)
        × (h (GreyList s.pass.thread) ≡ 0) }
{}

/// Each event keeps the tricolour rule in the colours of its pass's cycle, while the other threads
/// hold what they held. A scan begins and ends with nothing in hand. A part that shades a block
/// holds at its end that this block is not white, until its caller lets it go. Where a block
/// becomes black none of its payloads refers to a white one.
pub fn rows_keep_tricolour()
    ensures kept { (c : Config) (h : Heap) (hs : ℕ → TricolourInHand) (s : GreyState)
        → GreyFits c s
        → TricolourKept (extent c) s.pass.cycle h hs
        → hs s.pass.thread ≡ tricolour_held (marking_in_hand (extent c) s)
        → TricolourKept (extent c) s.pass.cycle (heap_after h (grey_want s)) (changed hs
        s.pass.thread (tricolour_held (marking_in_hand (extent c) (grey_got (extent c) s (h (place_of
        (grey_want s))))))) }
    ensures scan { (e : Extent) (p : Pass) → tricolour_held (marking_in_hand e (scanning p))
        ≡ no_tricolour }
    ensures shade { (e : Extent) (p : Pass) (y : ℕ)
        → tricolour_held (marking_in_hand e (shading p y)) ≡ no_tricolour }
    ensures scan_over { (e : Extent) (p : Pass) (ws : List ℕ)
        → grey_over (grey_after e (scanning p) ws).row ≡ true
        → tricolour_held (marking_in_hand e (grey_after e (scanning p) ws)) ≡ no_tricolour }
    ensures shade_over { (e : Extent) (p : Pass) (y : ℕ) (ws : List ℕ)
        → grey_over (grey_after e (shading p y) ws).row ≡ true
        → (grey_after e (shading p y) ws).row ≡ Shaded y }
    ensures shaded { (c : Config) (h : Heap) (hs : ℕ → TricolourInHand) (s : GreyState) (y : ℕ)
        → GreyFits c s
        → TricolourKept (extent c) s.pass.cycle h hs
        → hs s.pass.thread ≡ tricolour_held (marking_in_hand (extent c) s) → s.row ≡ Shaded y
        → h (ColourOf y) ≢ white_word s.pass.cycle }
    ensures not_white { (c : Config) (h : Heap) (hs : ℕ
        → TricolourInHand) (p : Pass) (y : ℕ) (ws : List ℕ) (s :
        GreyState)
        → s ≡ grey_after (extent c) (shading p y) ws → GreyFits c s
        → TricolourKept (extent c) s.pass.cycle h hs
        → hs s.pass.thread ≡ tricolour_held (marking_in_hand (extent c) s) → grey_over s.row ≡ true
        → h (ColourOf y) ≢ white_word s.pass.cycle }
    ensures black { (c : Config) (h : Heap) (hs : ℕ → TricolourInHand) (s : GreyState) (x j : ℕ)
        → GreyFits c s
        → TricolourKept (extent c) s.pass.cycle h hs
        → hs s.pass.thread ≡ tricolour_held (marking_in_hand (extent c) s) → is_blackening s.row ≡ true
        → (marking_in_hand (extent c) s).scan ≡ Some x → j < payloads c.width
        → target (h (PayloadOf x j)) ≢ 0
        → h (ColourOf (target (h (PayloadOf x j)))) ≢ white_word s.pass.cycle }
{}

/// Each event keeps that no block that is not Free refers to a Free one, and that each root block
/// is grey or black.
pub fn rows_keep_solid()
    ensures { (c : Config) (h : Heap) (hs : ℕ → GreyInHand) (s : GreyState) → GreyFits c s
        → GreyKept c.threads h hs → hs s.pass.thread ≡ grey_held (marking_in_hand (extent c) s)
        → SolidKept (extent c) s.pass.cycle h
        → SolidKept (extent c) s.pass.cycle (heap_after h (grey_want s)) }
{}

/// A part is a unit exactly after the event that makes the block under scan black, of which there
/// is one at most. That block was grey.
pub fn a_unit_is_a_blackening()
    ensures scan { (p : Pass) → grey_unit (scanning p).row ≡ false }
    ensures shade { (p : Pass) (x : ℕ) → grey_unit (shading p x).row ≡ false }
    ensures after { (e : Extent) (s : GreyState) (w : ℕ)
        → grey_unit (grey_got e s w).row ≡ (grey_unit s.row || is_blackening s.row) }
    ensures once { (s : GreyState) → grey_unit s.row ≡ true → is_blackening s.row ≡ false }
    ensures event { (e : Extent) (s : GreyState) → is_blackening s.row ≡ true
        → (x : ℕ) × ((marking_in_hand e s).scan ≡ Some x)
        × (grey_want s ≡ Exchange (ColourOf x) (black_word s.pass.cycle)) }
    ensures grey { (c : Config) (h : Heap) (hs : ℕ → GreyInHand) (s : GreyState) (x : ℕ)
        → GreyFits c s
        → GreyKept c.threads h hs → hs s.pass.thread ≡ grey_held (marking_in_hand (extent c) s)
        → is_blackening s.row ≡ true → (marking_in_hand (extent c) s).scan ≡ Some x
        → (is_grey (h (ColourOf x)) ≡ true)
        × (heap_after h (grey_want s) (ColourOf x) ≡ black_word s.pass.cycle) }
{}

/// A scan has found nothing exactly where its events read as many zeros as there are threads. They
/// took the list of each thread, their own first. A shading never finds nothing, and makes no unit.
pub fn nothing_is_each_list_empty()
    ensures zeros { (e : Extent) (p : Pass) (ws : List ℕ) → p.thread < p.threads
        → grey_nothing (grey_after e (scanning p) ws).row ≡ begins_with_zeros p.threads ws }
    ensures taken { (e : Extent) (p : Pass) (ws : List ℕ)
        → length ws < p.threads → begins_with_zeros (length ws) ws ≡ true
        → grey_want (grey_after e (scanning p) ws)
        ≡ Exchange (GreyList (list_of p.thread p.threads (length ws))) 0 }
    ensures own { (t n : ℕ) → t < n → list_of t n 0 ≡ t }
    ensures each { (t n v : ℕ) → t < n → v < n → (u : ℕ) × (u < n) × (list_of t n u ≡ v) }
    ensures shade { (e : Extent) (p : Pass) (x : ℕ) (ws : List ℕ)
        → (grey_nothing (grey_after e (shading p x) ws).row ≡ false)
        × (grey_unit (grey_after e (shading p x) ws).row ≡ false) }
{}

/// Each event keeps all rules of the heap at once, while the other threads hold what they held.
pub fn rows_keep_the_heap()
    ensures { (c : Config) (h : Heap) (hs : ℕ → WorkInHand) (s : GreyState)
        → GreyFits c s
        → HeapKept (extent c) s.pass.cycle h hs
        → hs s.pass.thread ≡ marking_in_hand (extent c) s
        → HeapKept (extent c) s.pass.cycle (heap_after h (grey_want s))
        (changed hs s.pass.thread
        (marking_in_hand (extent c) (grey_got (extent c) s (h (place_of (grey_want s)))))) }
{}
