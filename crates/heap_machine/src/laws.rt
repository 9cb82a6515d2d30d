//! Laws of operations, of the gate, of grey blocks, of the tricolour rule and of Free blocks, for
//! the proofs above: each is the contract of a function that does nothing.

ghost use Rattle.std.specs.Prelude.{◌≡◌, ◌≢◌, ◌<◌, ◌≤◌, ◌+◌, ◌-◌, ℕ, List, [], ◌∷◌, ◌++◌, replicate, length, slice_index, true, false, None, Some};
ghost use Rattle.block_store.specs.declared.Config.{Config};
ghost use Rattle.block_store.specs.Places.{Extent, Place, extent, Phase, Cursor, GreyList, ColourOf, PayloadOf, in_range, words_count};
ghost use Rattle.block_store.specs.Colours.{link, is_free, is_grey, white_word, black_word};
ghost use Rattle.block_store.specs.Payloads.{target};
ghost use Rattle.block_store.specs.Phases.{bit, inside_of, is_closed, is_sweep, cycle_of};
ghost use Rattle.block_store.specs.Heaps.{Heap, heap_of, put_at};
ghost use Rattle.heap_machine.specs.Operations.{Operation, Load, Exchange, Fits, place_of, heap_after, op_at, op_place, words_after};
ghost use Rattle.heap_machine.specs.Readings.{CanHold, StoresHeld, IsHeld};
ghost use Rattle.block_store.specs.Counts.{changed, times, total};
ghost use Rattle.heap_machine.specs.Chains.{Chain};
ghost use Rattle.heap_machine.specs.Grey.{GreyInHand, no_grey, GreyKept, is_of_grey};
ghost use Rattle.heap_machine.specs.Tricolour.{TricolourInHand, no_tricolour, NotWhite, TricolourKept, Tricolour, is_of_tricolour};
ghost use Rattle.heap_machine.specs.Solid.{NotFree, IsMarked, SolidKept};
ghost use Rattle.block_store.specs.Registers.{root_block};
ghost use Rattle.block_store.specs.Widths.{payloads};
ghost use Rattle.block_store.specs.declared.Width.{Width};
ghost use Rattle.heap_machine.specs.WorkInHand.{WorkInHand};
ghost use Rattle.heap_machine.specs.HeapKept.{HeapKept, is_ruled, CanColour, CanRefer};
ghost use Rattle.heap_machine.specs.Gating.{Gating, GateOf, Outside, Inside, Closing, is_outside, closed_word, open_word};
ghost use Rattle.heap_machine.specs.Gates.{gate_want, gate_got, gate_started, GateFits, GateAt, IsIdle};
ghost use Rattle.heap_machine.specs.ChangingPhase.{turns_over, changing_gating, lists_read, gate_after, CanClose, HasRoom};
ghost use Rattle.heap_machine.specs.declared.gate.GateRow.{GateRow};
ghost use Rattle.heap_machine.specs.declared.pass.Pass.{Pass};

/// One operation on the list of words is that operation on one place of the heap, and reads the
/// word of that place.
pub fn operations_are_of_places()
    ensures after { (e : Extent) (ws : List ℕ) (o : Operation) → in_range e (place_of o) ≡ true
        → words_count e ≤ length ws
        → heap_of e (words_after (op_at e o) ws) ≡ heap_after (heap_of e ws) o }
    ensures before { (e : Extent) (ws : List ℕ) (o : Operation) → in_range e (place_of o) ≡ true
        → slice_index ws (op_place (op_at e o)) ≡ heap_of e ws (place_of o) }
    ensures below { (e : Extent) (ws : List ℕ) (o : Operation) → in_range e (place_of o) ≡ true
        → words_count e ≤ length ws → op_place (op_at e o) < length ws }
    ensures length { (e : Extent) (ws : List ℕ) (o : Operation)
        → length (words_after (op_at e o) ws) ≡ length ws }
{}

/// The phase word counts the threads inside, so at most all of them, and at least one where one is.
/// A thread closes the gate where nobody is inside, and is then the only one that is not outside,
/// until it opens the gate in either phase. To go in or out, or to close the gate, changes neither
/// the cycle nor the phase. An event that leaves the phase word and where its thread is keeps
/// the gate.
pub fn gate_counts()
    ensures enters { (n phase : ℕ) (gs : ℕ → Gating) → GateOf n phase gs → (t : ℕ) → t < n
        → (g : Gating)
        → n < 255 → is_closed phase ≡ false → (gs t).stand ≡ Outside → g.stand ≡ Inside
        → g.cycle ≡ cycle_of phase → g.sweep ≡ is_sweep phase
        → GateOf n (phase + 1) (changed gs t g) }
    ensures leaves { (n phase : ℕ) (gs : ℕ → Gating) → GateOf n phase gs → (t : ℕ) → t < n
        → (g : Gating)
        → (gs t).stand ≡ Inside → g.stand ≡ Outside → GateOf n (phase - 1) (changed gs t g) }
    ensures most { (n phase : ℕ) (gs : ℕ → Gating) → GateOf n phase gs → inside_of phase ≤ n }
    ensures some { (n phase : ℕ) (gs : ℕ → Gating) → GateOf n phase gs → (t : ℕ) → t < n
        → (gs t).stand ≡ Inside → 1 ≤ inside_of phase }
    ensures closes { (n phase : ℕ) (gs : ℕ → Gating) → GateOf n phase gs → (t : ℕ) → t < n
        → (g : Gating)
        → is_closed phase ≡ false → inside_of phase ≡ 0 → (gs t).stand ≡ Outside → g.stand ≡ Closing
        → g.cycle ≡ cycle_of phase → g.sweep ≡ is_sweep phase
        → GateOf n (closed_word phase) (changed gs t g) }
    ensures flips { (n phase : ℕ) (gs : ℕ → Gating) → GateOf n phase gs → (t : ℕ) → t < n
        → (g : Gating) (c : ℕ)
        → (gs t).stand ≡ Closing → g.stand ≡ Outside
        → GateOf n (open_word c true) (changed gs t g) }
    ensures reopens { (n phase : ℕ) (gs : ℕ → Gating) → GateOf n phase gs → (t : ℕ) → t < n
        → (g : Gating) (c : ℕ)
        → (gs t).stand ≡ Closing → g.stand ≡ Outside
        → GateOf n (open_word c false) (changed gs t g) }
    ensures closed_alone { (n phase : ℕ) (gs : ℕ → Gating) → GateOf n phase gs
        → is_closed phase ≡ true
        → (t : ℕ) × (t < n) × ((gs t).stand ≡ Closing)
        × ((u : ℕ) → u < n → (t ≡ u → ⊥) → (gs u).stand ≡ Outside) }
    ensures closing { (n phase : ℕ) (gs : ℕ → Gating) → GateOf n phase gs → (t : ℕ) → t < n
        → (gs t).stand ≡ Closing
        → (is_closed phase ≡ true) × (inside_of phase ≡ 0)
        × ((u : ℕ) → u < n → (t ≡ u → ⊥) → (gs u).stand ≡ Outside) }
    ensures stays { (n phase : ℕ) (gs : ℕ → Gating) → GateOf n phase gs → (t : ℕ) → t < n
        → (g : Gating)
        → g.stand ≡ (gs t).stand
        → (is_outside g.stand ≡ false → (g.cycle ≡ (gs t).cycle) × (g.sweep ≡ (gs t).sweep))
        → GateOf n phase (changed gs t g) }
    ensures entered_phase { (n phase : ℕ) (gs : ℕ → Gating) → GateOf n phase gs → n < 255
        → (cycle_of (phase + 1) ≡ cycle_of phase) × (is_sweep (phase + 1) ≡ is_sweep phase) }
    ensures left_phase { (n phase : ℕ) (gs : ℕ → Gating) → GateOf n phase gs → (t : ℕ) → t < n
        → (gs t).stand ≡ Inside
        → (cycle_of (phase - 1) ≡ cycle_of phase) × (is_sweep (phase - 1) ≡ is_sweep phase) }
    ensures closed_phase { (phase : ℕ) → inside_of phase ≡ 0
        → (cycle_of (closed_word phase) ≡ cycle_of phase)
        × (is_sweep (closed_word phase) ≡ is_sweep phase) }
{}

/// A row of the gate that fits its heap becomes one that fits. It wants a place of the heap; where
/// the phase word counts a thread inside, nothing falls below 0; and a part that turns the phase
/// over or starts a cycle, which a phase word can hold, stores what the place can hold.
pub fn gate_rows_stay_in_the_heap()
    ensures next { (c : Config) (r : GateRow) (w : ℕ) → GateFits r
        → CanHold (extent c) (place_of (gate_want c.width r)) w → GateFits (gate_got c.width r w) }
    ensures threads { (c : Config) (r : GateRow) (w : ℕ) → GateFits r → GateAt c r
        → GateAt c (gate_got c.width r w) }
    ensures place { (c : Config) (r : GateRow) → GateFits r → GateAt c r
        → in_range (extent c) (place_of (gate_want c.width r)) ≡ true }
    ensures sum { (W : Width) (r : GateRow) (w : ℕ) → 1 ≤ inside_of w → Fits (gate_want W r) w }
    ensures stores { (c : Config) (r : GateRow) → turns_over r ≡ true → GateFits r → GateAt c r
        → HasRoom r → StoresHeld c (gate_want c.width r) }
{}

/// Each event of a part that changes the phase or starts a cycle keeps that the phase word
/// counts the threads inside, while the other threads stay where they are. Its thread has closed
/// the gate from the event that closes it to the one that opens it again.
pub fn turn_over_keeps_the_gate()
    ensures { (W : Width) (n : ℕ) (h : Heap) (gs : ℕ → Gating) → GateOf n (h Phase) gs
        → (t : ℕ) → t < n
        → (r : GateRow) → turns_over r ≡ true → GateFits r → gs t ≡ changing_gating r
        → GateOf n (heap_after h (gate_want W r) Phase) (changed gs t (changing_gating (gate_got W r
        (h (place_of (gate_want W r)))))) }
{}

/// Of the events of a part that changes the phase or starts a cycle only the flip and the start
/// change the phase word's cycle or phase: the flip the phase, from Mark to Sweep, and the start
/// both, to Mark of the next cycle. At both nobody is inside, and each other thread is outside.
pub fn phase_changes_at_the_flip_and_the_start()
    ensures cycle { (W : Width) (n : ℕ) (h : Heap) (gs : ℕ → Gating) → GateOf n (h Phase) gs
        → (t : ℕ) → t < n
        → (r : GateRow) → turns_over r ≡ true → GateFits r → gs t ≡ changing_gating r
        → ((p : Pass) → r ≢ GateRow.Start p)
        → cycle_of (heap_after h (gate_want W r) Phase) ≡ cycle_of (h Phase) }
    ensures phase { (W : Width) (n : ℕ) (h : Heap) (gs : ℕ → Gating) → GateOf n (h Phase) gs
        → (t : ℕ) → t < n
        → (r : GateRow) → turns_over r ≡ true → GateFits r → gs t ≡ changing_gating r
        → ((p : Pass) → r ≢ GateRow.Flip p) → ((p : Pass) → r ≢ GateRow.Start p)
        → is_sweep (heap_after h (gate_want W r) Phase) ≡ is_sweep (h Phase) }
    ensures flip { (W : Width) (n : ℕ) (h : Heap) (gs : ℕ → Gating) → GateOf n (h Phase) gs
        → (t : ℕ) → t < n → (p : Pass)
        → GateFits (GateRow.Flip p) → gs t ≡ changing_gating (GateRow.Flip p)
        → (is_sweep (h Phase) ≡ false)
        × (is_sweep (heap_after h (gate_want W (GateRow.Flip p)) Phase) ≡ true)
        × (inside_of (h Phase) ≡ 0) × ((u : ℕ) → u < n → (t ≡ u → ⊥) → (gs u).stand ≡ Outside) }
    ensures start { (W : Width) (n : ℕ) (h : Heap) (gs : ℕ → Gating) → GateOf n (h Phase) gs
        → (t : ℕ) → t < n → (p : Pass)
        → GateFits (GateRow.Start p) → gs t ≡ changing_gating (GateRow.Start p)
        → (is_sweep (h Phase) ≡ true)
        × (is_sweep (heap_after h (gate_want W (GateRow.Start p)) Phase) ≡ false)
        × (cycle_of (heap_after h (gate_want W (GateRow.Start p)) Phase) ≡ cycle_of (h Phase) + 1)
        × (gate_started (gate_got W (GateRow.Start p) (h Phase)) ≡ Some (cycle_of (h Phase) + 1))
        × (inside_of (h Phase) ≡ 0) × ((u : ℕ) → u < n → (t ≡ u → ⊥) → (gs u).stand ≡ Outside) }
{}

/// A part that changes the phase comes to the flip exactly where it read 0 from the grey list of
/// each thread, after it had read one word of an empty gate of its cycle and phase twice, and so
/// had closed it; and after the lists it set the cursor to 1. At the first list that is not empty
/// it opens the gate again. All of this is of a Mark pass.
pub fn turn_over_checks_every_list()
    ensures flips { (W : Width) (p : Pass) (v x : ℕ) → IsIdle p → CanClose p v
        → gate_after W (GateRow.CloseLook p) (v ∷ v ∷ (replicate p.threads 0 ++ x ∷ []))
        ≡ GateRow.Flip p }
    ensures only { (W : Width) (p : Pass) (ws : List ℕ) → IsIdle p
        → gate_after W (GateRow.CloseLook p) ws ≡ GateRow.Flip p
        → (v : ℕ) × (x : ℕ) × (ws ≡ v ∷ v ∷ (replicate p.threads 0 ++ x ∷ [])) × CanClose p v }
    ensures each { (W : Width) (p : Pass) (v u : ℕ) → IsIdle p → CanClose p v → u < p.threads
        → gate_want W (gate_after W (GateRow.CloseLook p) (v ∷ v ∷ replicate u 0))
        ≡ Load (GreyList u) }
    ensures cursor { (W : Width) (p : Pass) (v : ℕ) → IsIdle p → CanClose p v
        → gate_want W (gate_after W (GateRow.CloseLook p) (v ∷ v ∷ replicate p.threads 0))
        ≡ Exchange Cursor 1 }
    ensures reopens { (W : Width) (p : Pass) (v u w : ℕ) → IsIdle p → CanClose p v → u < p.threads
        → w ≢ 0
        → gate_after W (GateRow.CloseLook p) (v ∷ v ∷ (replicate u 0 ++ w ∷ []))
        ≡ GateRow.Reopen p }
{}

/// Where the grey lists that such a part has read 0 since it closed the gate are empty, those of
/// its next row are empty after its event. So at the flip the list of each thread is empty, where
/// no other thread has changed one since.
pub fn checked_lists_are_empty()
    ensures { (W : Width) (h : Heap) (r : GateRow) → turns_over r ≡ true → GateFits r
        → ((u : ℕ) → u < lists_read r → h (GreyList u) ≡ 0) → (u : ℕ)
        → u < lists_read (gate_got W r (h (place_of (gate_want W r))))
        → heap_after h (gate_want W r) (GreyList u) ≡ 0 }
{}

/// Where each place has a word that it can hold, a write of such a word keeps that, and so does an
/// operation that stores one.
pub fn stores_are_held()
    ensures write { (c : Config) (h : Heap) (p : Place) (v : ℕ) → CanHold (extent c) p v
        → IsHeld c h
        → IsHeld c (put_at h p v) }
    ensures operation { (c : Config) (h : Heap) (o : Operation) → StoresHeld c o → IsHeld c h
        → IsHeld c (heap_after h o) }
{}

/// From a block number the links of colour words lead to one list of blocks at most, which has none
/// twice. A write of the colour of a block outside leaves it, or puts that block in front.
pub fn chains_are_lists()
    ensures empty { (c : ℕ → ℕ) (xs : List ℕ) → Chain c 0 xs → xs ≡ [] }
    ensures next { (c : ℕ → ℕ) (a : ℕ) (xs : List ℕ) → a ≢ 0 → Chain c a xs
        → (ys : List ℕ) × (xs ≡ a ∷ ys) × Chain c (link (c a)) ys }
    ensures one { (c : ℕ → ℕ) (a : ℕ) (xs ys : List ℕ) → Chain c a xs → Chain c a ys → xs ≡ ys }
    ensures once { (c : ℕ → ℕ) (a x : ℕ) (xs : List ℕ) → Chain c a xs → times x xs ≤ 1 }
    ensures outside { (c : ℕ → ℕ) (y v a : ℕ) (xs : List ℕ) → times y xs ≡ 0 → Chain c a xs
        → Chain (changed c y v) a xs }
    ensures front { (c : ℕ → ℕ) (y v a : ℕ) (xs : List ℕ) → y ≢ 0 → link v ≡ a → times y xs ≡ 0
        → Chain c a xs
        → Chain (changed c y v) y (y ∷ xs) }
{}

/// Each grey block is in one place: in the chain of one list, or in the private lists of one
/// thread, which are the block that it scans and the chain of its private list. Grey blocks alone
/// are there.
pub fn grey_blocks_stand_once()
    ensures once { (n : ℕ) (h : Heap) (hs : ℕ → GreyInHand) (k : GreyKept n h hs) (x : ℕ)
        → is_grey (h (ColourOf x)) ≡ true
        → total n (λ t. times x (k.lists t)) + total n (λ t. times x (k.private_lists t)) ≡ 1 }
    ensures lists { (n : ℕ) (h : Heap) (hs : ℕ → GreyInHand) (k : GreyKept n h hs) (t x : ℕ)
        → t < n
        → times x (k.lists t) ≤ bit (is_grey (h (ColourOf x))) }
    ensures private_lists { (n : ℕ) (h : Heap) (hs : ℕ → GreyInHand) (k : GreyKept n h hs) (t x : ℕ)
        → t < n
        → times x (k.private_lists t) ≤ bit (is_grey (h (ColourOf x))) }
    ensures one_list { (n : ℕ) (h : Heap) (hs : ℕ → GreyInHand) (k : GreyKept n h hs) (t u x : ℕ)
        → t < n → u < n
        → 1 ≤ times x (k.lists t) → 1 ≤ times x (k.lists u) → t ≡ u }
    ensures one_private_list { (n : ℕ) (h : Heap) (hs : ℕ → GreyInHand) (k : GreyKept n h hs) (t u x : ℕ)
        → t < n → u < n
        → 1 ≤ times x (k.private_lists t) → 1 ≤ times x (k.private_lists u) → t ≡ u }
    ensures own_or_private { (n : ℕ) (h : Heap) (hs : ℕ
        → GreyInHand) (k : GreyKept n h hs) (t u x : ℕ) → t < n → u < n
        → 1 ≤ times x (k.lists t) → times x (k.private_lists u) ≡ 0 }
    ensures first { (n : ℕ) (h : Heap) (hs : ℕ → GreyInHand) → GreyKept n h hs → (t : ℕ) → t < n
        → h (GreyList t) ≢ 0 → is_grey (h (ColourOf (h (GreyList t)))) ≡ true }
    ensures list { (n : ℕ) (h : Heap) (hs : ℕ → GreyInHand) → GreyKept n h hs → (t : ℕ) → t < n
        → (hs t).list ≢ 0 → is_grey (h (ColourOf (hs t).list)) ≡ true }
    ensures scanned { (n : ℕ) (h : Heap) (hs : ℕ → GreyInHand) → GreyKept n h hs → (t x : ℕ)
        → t < n
        → (hs t).scan ≡ Some x → is_grey (h (ColourOf x)) ≡ true }
    ensures none { (n : ℕ) (h : Heap) (hs : ℕ → GreyInHand) → GreyKept n h hs
        → ((t : ℕ) → t < n → (h (GreyList t) ≡ 0) × ((hs t).list ≡ 0) × ((hs t).scan ≡ None))
        → (x : ℕ) → is_grey (h (ColourOf x)) ≡ false }
{}

/// An operation on a word that is neither a grey list nor a colour keeps that each grey block
/// is in one place, and so does a write of a colour where neither the old nor the new one is
/// grey.
pub fn other_writes_keep_grey()
    ensures place { (n : ℕ) (h : Heap) (hs : ℕ → GreyInHand) (o : Operation)
        → is_of_grey (place_of o) ≡ false
        → GreyKept n h hs → GreyKept n (heap_after h o) hs }
    ensures colour { (n : ℕ) (h : Heap) (hs : ℕ → GreyInHand) (x v : ℕ)
        → is_grey (h (ColourOf x)) ≡ false
        → is_grey v ≡ false → GreyKept n h hs → GreyKept n (put_at h (ColourOf x) v) hs }
{}

/// Where a thread puts its private list in its own list and that list is not empty, not every grey
/// block is in one place any more: the blocks of that list are lost.
pub fn lists_are_lost_at_a_put()
    ensures { (n : ℕ) (h : Heap) (hs : ℕ → GreyInHand) → GreyKept n h hs → (t : ℕ) → t < n
        → (hs t).scan ≡ None → h (GreyList t) ≢ 0
        → GreyKept n (put_at h (GreyList t) (hs t).list) (changed hs t no_grey) → ⊥ }
{}

/// The tricolour rule: no black block refers to a white one, and no payload that the thread has
/// scanned refers to a white block; what it has shaded before a store is not white. So it is while
/// the phase is Mark, in the cycle of the phase word.
pub fn black_blocks_refer_to_none_white()
    ensures black { (e : Extent) (cycle : ℕ) (h : Heap) (hs : ℕ → TricolourInHand)
        → TricolourKept e cycle h hs
        → (x j : ℕ) → h (ColourOf x) ≡ black_word cycle → j < payloads e.width
        → target (h (PayloadOf x j)) ≢ 0
        → h (ColourOf (target (h (PayloadOf x j)))) ≢ white_word cycle }
    ensures mark { (e : Extent) (h : Heap) (hs : ℕ → TricolourInHand) → Tricolour e h hs
        → is_sweep (h Phase) ≡ false → (x j : ℕ) → h (ColourOf x) ≡ black_word (cycle_of (h Phase))
        → j < payloads e.width → target (h (PayloadOf x j)) ≢ 0
        → h (ColourOf (target (h (PayloadOf x j)))) ≢ white_word (cycle_of (h Phase)) }
    ensures scanned { (e : Extent) (cycle : ℕ) (h : Heap) (hs : ℕ → TricolourInHand)
        → TricolourKept e cycle h hs
        → (t j : ℕ) → t < e.threads → j < (hs t).dealt → target (h (PayloadOf (hs t).scan j)) ≢ 0
        → h (ColourOf (target (h (PayloadOf (hs t).scan j)))) ≢ white_word cycle }
    ensures shaded { (e : Extent) (cycle : ℕ) (h : Heap) (hs : ℕ → TricolourInHand)
        → TricolourKept e cycle h hs
        → (t : ℕ) → t < e.threads → (hs t).shaded ≢ 0
        → h (ColourOf (hs t).shaded) ≢ white_word cycle }
{}

/// What keeps the tricolour rule: an operation on a word that is neither a colour nor a payload; a
/// colour that is not white, and is black only where no payload of the block refers to a white one;
/// and a payload that refers to no white block, as one does that a thread has shaded. That a thread
/// lets go what it holds keeps it too. It holds where no block is black and no thread holds
/// anything, as at the opening and at the start of a cycle.
pub fn what_keeps_tricolour()
    ensures place { (e : Extent) (cycle : ℕ) (h : Heap) (hs : ℕ → TricolourInHand) (o : Operation)
        → is_of_tricolour (place_of o) ≡ false → TricolourKept e cycle h hs
        → TricolourKept e cycle (heap_after h o) hs }
    ensures colour { (e : Extent) (cycle : ℕ) (h : Heap) (hs : ℕ → TricolourInHand) (x v : ℕ)
        → v ≢ white_word cycle
        → (v ≡ black_word cycle → (j : ℕ) → j < payloads e.width → NotWhite cycle (λ y. h (ColourOf
        y)) (target (h (PayloadOf x j))))
        → TricolourKept e cycle h hs → TricolourKept e cycle (put_at h (ColourOf x) v) hs }
    ensures payload { (e : Extent) (cycle : ℕ) (h : Heap) (hs : ℕ → TricolourInHand) (x j w : ℕ)
        → NotWhite cycle (λ y. h (ColourOf y)) (target w) → TricolourKept e cycle h hs
        → TricolourKept e cycle (put_at h (PayloadOf x j) w) hs }
    ensures store { (e : Extent) (cycle : ℕ) (h : Heap) (hs : ℕ → TricolourInHand) (t x j w : ℕ)
        → t < e.threads → target w ≡ (hs t).shaded → TricolourKept e cycle h hs
        → TricolourKept e cycle (put_at h (PayloadOf x j) w) hs }
    ensures lets_go { (e : Extent) (cycle : ℕ) (h : Heap) (hs : ℕ → TricolourInHand) (t : ℕ)
        → TricolourKept e cycle h hs → TricolourKept e cycle h (changed hs t no_tricolour) }
    ensures begins { (e : Extent) (cycle : ℕ) (h : Heap) (hs : ℕ → TricolourInHand)
        → ((x : ℕ) → h (ColourOf x) ≢ black_word cycle)
        → ((t : ℕ) → t < e.threads → hs t ≡ no_tricolour) → TricolourKept e cycle h hs }
{}

/// Where a payload that refers to a white block is stored in a black one, the tricolour rule is
/// broken: so a block is shaded before a store in a black block.
pub fn unshaded_stores_break_tricolour()
    ensures { (e : Extent) (cycle : ℕ) (h : Heap) (hs : ℕ → TricolourInHand) (x j w : ℕ)
        → h (ColourOf x) ≡ black_word cycle → j < payloads e.width → target w ≢ 0
        → h (ColourOf (target w)) ≡ white_word cycle
        → TricolourKept e cycle (put_at h (PayloadOf x j) w) hs → ⊥ }
{}

/// What keeps that no block that is not Free refers to a Free one, and that each root block is grey
/// or black: an operation on a word that is neither a colour nor a payload; a colour that is not
/// Free, on a block that was not Free or refers to no Free one, and grey or black on a root block;
/// and a payload that refers to no Free block, or is one of a Free block.
pub fn what_keeps_solid()
    ensures place { (e : Extent) (cycle : ℕ) (h : Heap) (o : Operation)
        → is_of_tricolour (place_of o) ≡ false
        → SolidKept e cycle h → SolidKept e cycle (heap_after h o) }
    ensures colour { (e : Extent) (cycle : ℕ) (h : Heap) (x v : ℕ) → is_free v ≡ false
        → (is_free (h (ColourOf x)) ≡ true → (j : ℕ) → j < payloads e.width → NotFree (λ y. h
        (ColourOf y)) (target (h (PayloadOf x j))))
        → ((t : ℕ) → t < e.threads → x ≡ root_block e.width t → IsMarked cycle v)
        → SolidKept e cycle h → SolidKept e cycle (put_at h (ColourOf x) v) }
    ensures payload { (e : Extent) (cycle : ℕ) (h : Heap) (x j w : ℕ)
        → (is_free (h (ColourOf x)) ≡ false → NotFree (λ y. h (ColourOf y)) (target w))
        → SolidKept e cycle h → SolidKept e cycle (put_at h (PayloadOf x j) w) }
{}

/// What keeps all rules at once: an operation on a word of which no rule speaks; a colour that is
/// neither grey nor Free nor white, on a block that was not grey, black only where no payload of
/// the block refers to a white one, on a block that was not Free or refers to no Free one, and
/// black on a root block; and a payload that refers to no white and to no Free block.
pub fn what_keeps_the_heap()
    ensures place { (e : Extent) (cycle : ℕ) (h : Heap) (hs : ℕ → WorkInHand) (o : Operation)
        → is_ruled (place_of o) ≡ false
        → HeapKept e cycle h hs → HeapKept e cycle (heap_after h o) hs }
    ensures colour { (e : Extent) (cycle : ℕ) (h : Heap) (hs : ℕ → WorkInHand) (x v : ℕ)
        → CanColour e cycle h x v
        → HeapKept e cycle h hs → HeapKept e cycle (put_at h (ColourOf x) v) hs }
    ensures payload { (e : Extent) (cycle : ℕ) (h : Heap) (hs : ℕ → WorkInHand) (x j w : ℕ)
        → CanRefer cycle h (target w)
        → HeapKept e cycle h hs → HeapKept e cycle (put_at h (PayloadOf x j) w) hs }
{}
