//! Laws of a part that closes the gate and changes the phase or starts a cycle, for the proofs
//! above: each is the contract of a function that does nothing.

ghost use Rattle.std.specs.Prelude.{◌≡◌, ◌<◌, ◌≤◌, ◌+◌, ◌⊎◌, ℕ, List, ◌∷◌, length, true, false};
ghost use Rattle.block_store.specs.declared.Config.{Config};
ghost use Rattle.block_store.specs.declared.Width.{Width};
ghost use Rattle.block_store.specs.Colours.{grey_word, is_grey};
ghost use Rattle.block_store.specs.Counts.{changed};
ghost use Rattle.block_store.specs.Heaps.{Heap};
ghost use Rattle.block_store.specs.Phases.{inside_of};
ghost use Rattle.block_store.specs.Places.{Extent, extent, Phase, GreyList, ColourOf};
ghost use Rattle.block_store.specs.Registers.{root_block};
ghost use Rattle.heap_machine.specs.Gates.{gate_want, gate_got, GateFits, GateAt, IsSwept};
ghost use Rattle.heap_machine.specs.Gating.{Gating, GateOf, Closing};
ghost use Rattle.heap_machine.specs.WorkInHand.{WorkInHand};
ghost use Rattle.heap_machine.specs.Operations.{Exchange, place_of, heap_after};
ghost use Rattle.heap_machine.specs.PhaseKept.{PhaseKept};
ghost use Rattle.heap_machine.specs.Readings.{IsHeld};
ghost use Rattle.heap_machine.specs.ChangingPhase.{turns_over, gate_after, root_before, CanClose, changing_in_hand, stands_outside, ChangingPhaseKnows, MayTurn, HasRoom, IsTurnOf, IsChangingPhase};
ghost use Rattle.heap_machine.specs.declared.gate.GateRow.{GateRow};
ghost use Rattle.heap_machine.specs.declared.pass.Pass.{Pass};

/// A part that starts a cycle, after a Sweep pass, comes to the start only where it read one word
/// of an empty gate of its cycle and phase twice, and so had closed it, and then made one event
/// for each thread and one more: they make the root of each thread grey, each with a link to the
/// root before it, and put the last one in the thread's own list.
pub fn start_shades_every_root()
    ensures only { (W : Width) (p : Pass) (ws : List ℕ) → IsSwept p
        → gate_after W (GateRow.CloseLook p) ws ≡ GateRow.Start p
        → (v : ℕ) × (us : List ℕ) × (ws ≡ v ∷ v ∷ us) × (length us ≡ p.threads + 1)
        × CanClose p v }
    ensures each { (W : Width) (p : Pass) (v : ℕ) (us : List ℕ) → IsSwept p → CanClose p v
        → length us < p.threads
        → gate_want W (gate_after W (GateRow.CloseLook p) (v ∷ v ∷ us))
        ≡ Exchange (ColourOf (root_block W (length us))) (grey_word (root_before W (length us))) }
    ensures puts { (W : Width) (p : Pass) (v : ℕ) (us : List ℕ) → IsSwept p → CanClose p v
        → length us ≡ p.threads
        → gate_want W (gate_after W (GateRow.CloseLook p) (v ∷ v ∷ us))
        ≡ Exchange (GreyList p.thread) (root_before W p.threads) }
{}

/// What a thread that has closed the gate knows of the heap stays so over its own events: which
/// grey lists are empty, that the cursor is at the first block before the flip, and which roots
/// are grey before the start. The part stays one of its thread.
pub fn what_the_closing_thread_knows()
    ensures kept { (W : Width) (h : Heap) (r : GateRow) → turns_over r ≡ true → GateFits r
        → ChangingPhaseKnows W r h
        → ChangingPhaseKnows W (gate_got W r (h (place_of (gate_want W r)))) (heap_after h
        (gate_want W r)) }
    ensures own { (W : Width) (t : ℕ) (r : GateRow) (w : ℕ) → IsTurnOf t r
        → IsTurnOf t (gate_got W r w) }
{}

/// While a thread has closed the gate, an event of another thread at the gate changes no word of
/// the heap, and that thread stays outside: it looks again, or its part that turns over ends.
pub fn closed_gates_keep_others_out()
    ensures heap { (W : Width) (n : ℕ) (h : Heap) (gs : ℕ → Gating) → GateOf n (h Phase) gs
        → (t : ℕ) → t < n → (gs t).stand ≡ Closing
        → (r : GateRow) → stands_outside r ≡ true → GateFits r
        → heap_after h (gate_want W r) ≡ h }
    ensures row { (W : Width) (n : ℕ) (h : Heap) (gs : ℕ → Gating) → GateOf n (h Phase) gs
        → (t : ℕ) → t < n → (gs t).stand ≡ Closing
        → (r : GateRow) → stands_outside r ≡ true → GateFits r
        → (gate_got W r (h Phase) ≡ GateRow.Look) ⊎ (gate_got W r (h Phase) ≡ GateRow.KeptOut) }
{}

/// The events of the gate keep that each place has a word that it can hold: to go in and out,
/// where the phase word counts the threads inside; and to close the gate, and change the phase
/// or start a cycle, which a phase word can hold.
pub fn gate_rows_keep_each_word()
    ensures passes { (c : Config) (h : Heap) → IsHeld c h
        → (gs : ℕ → Gating) → GateOf c.threads (h Phase) gs → c.threads ≤ 16
        → (r : GateRow) → turns_over r ≡ false → GateFits r
        → (r ≡ GateRow.Leave → 1 ≤ inside_of (h Phase))
        → IsHeld c (heap_after h (gate_want c.width r)) }
    ensures turns { (c : Config) (h : Heap) → IsHeld c h
        → (r : GateRow) → turns_over r ≡ true → GateFits r → GateAt c r → HasRoom r
        → IsHeld c (heap_after h (gate_want c.width r)) }
{}

/// At the flip no block is grey, as each grey list was read 0 and nobody holds anything.
pub fn nothing_is_grey_at_the_flip()
    ensures { (c : Config) (h : Heap) (gs : ℕ → Gating) (hs : ℕ → WorkInHand) (t : ℕ)
        → PhaseKept (extent c) h hs → (p : Pass) → IsChangingPhase c h gs hs t (GateRow.Flip p)
        → (x : ℕ) → is_grey (h (ColourOf x)) ≡ false }
{}

/// The events of the gate keep what a heap keeps in each phase: to go in and out, where the phase
/// word counts a thread inside; and to close the gate, and change the phase or start the next
/// cycle, where the graph says what it has to. At the start nothing is black in the new cycle, as
/// nothing was white in the old one.
pub fn gate_rows_keep_the_rules()
    ensures passes { (e : Extent) (h : Heap) (hs : ℕ → WorkInHand) → PhaseKept e h hs
        → (r : GateRow) → turns_over r ≡ false → GateFits r
        → (r ≡ GateRow.Leave → 1 ≤ inside_of (h Phase))
        → PhaseKept e (heap_after h (gate_want e.width r)) hs }
    ensures turns { (c : Config) (h : Heap) (gs : ℕ → Gating) (hs : ℕ → WorkInHand) (t : ℕ)
        → PhaseKept (extent c) h hs
        → (r : GateRow) → IsChangingPhase c h gs hs t r → MayTurn (extent c) r h
        → PhaseKept (extent c) (heap_after h (gate_want c.width r)) (changed hs t
        (changing_in_hand (gate_got c.width r (h (place_of (gate_want c.width r)))))) }
{}
