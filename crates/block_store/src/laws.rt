//! Laws of the words and places, for the proofs above: each is the contract of a function that does
//! nothing.

ghost use Rattle.std.specs.Prelude.{◌≢◌, ◌+◌, ◌≡◌, ◌<◌, ◌≤◌, ◌^◌, ℕ, List, length, Some, slice_set, true};
ghost use Rattle.block_store.specs.Payloads.{IsPayload, payload_code, payload_of};
ghost use Rattle.block_store.specs.Owners.{IsOwner, owner_code, owner_of, owner_word};
ghost use Rattle.block_store.specs.WideOwners.{IsWide, wide_code, wide_of, wide_word, widened};
ghost use Rattle.block_store.specs.Shapes.{IsShape, shape_code, shape_of};
ghost use Rattle.block_store.specs.Colours.{IsColour, colour_code, colour_of, black_word, white_word};
ghost use Rattle.block_store.specs.Phases.{phase_code, phase_of};
ghost use Rattle.block_store.specs.Places.{Extent, Place, in_range, index, words_count};
ghost use Rattle.block_store.specs.Heaps.{heap_of, put_at};
ghost use Rattle.block_store.specs.Widths.{payloads, register_blocks};
ghost use Rattle.block_store.specs.Registers.{root_block, register_block, register_slot, registers_end, register_thread, register_ordinal};
ghost use Rattle.block_store.specs.declared.TheConstants.{REGISTERS};
ghost use Rattle.block_store.specs.declared.Width.{Width};
ghost use Rattle.block_store.specs.declared.Payload.{Payload};
ghost use Rattle.block_store.specs.declared.Owner.{Owner};
ghost use Rattle.block_store.specs.declared.WideOwner.{WideOwner};
ghost use Rattle.block_store.specs.declared.Shape.{Shape};
ghost use Rattle.block_store.specs.declared.Colour.{Colour};
ghost use Rattle.block_store.specs.declared.PhaseWord.{PhaseWord};

/// What was written reads back as itself. So each word has one meaning, and two meanings differ in
/// their words.
pub fn words_read_back()
    ensures payload { (p : Payload) → IsPayload p → payload_of (payload_code p) ≡ Some p }
    ensures owner { (o : Owner) → IsOwner o → owner_of (owner_code o) ≡ Some o }
    ensures shape { (s : Shape) → IsShape s → shape_of (shape_code s) ≡ Some s }
    ensures colour { (c : Colour) → IsColour c → colour_of (colour_code c) ≡ Some c }
    ensures phase { (p : PhaseWord) → p.inside < 256 → phase_of (phase_code p) ≡ p }
{}

/// A word that reads as something is the word of it.
pub fn words_are_written()
    ensures payload { (w : ℕ) (p : Payload) → payload_of w ≡ Some p
        → IsPayload p × (payload_code p ≡ w) }
    ensures owner { (w : ℕ) (o : Owner) → owner_of w ≡ Some o → IsOwner o × (owner_code o ≡ w) }
    ensures shape { (w : ℕ) (s : Shape) → shape_of w ≡ Some s → IsShape s × (shape_code s ≡ w) }
    ensures colour { (w : ℕ) (c : Colour) → colour_of w ≡ Some c
        → IsColour c × (colour_code c ≡ w) }
    ensures phase { (w : ℕ) → phase_code (phase_of w) ≡ w }
{}

/// The wide words of owners read back, and the word of 64 bits that reads as an owner is the word
/// of it. They extend the words of owners: those of serials below 2^24 are the same, and what the
/// narrow reader reads of a word, the wide one reads too.
pub fn wide_words_extend()
    ensures back { (o : WideOwner) → IsWide o → wide_of (wide_code o) ≡ Some o }
    ensures written { (w : ℕ) (o : WideOwner) → w < 2 ^ 64 → wide_of w ≡ Some o
        → IsWide o × (wide_code o ≡ w) }
    ensures word { (t s o : ℕ) → s < 2 ^ 24 → wide_word t s o ≡ owner_word t s o }
    ensures owner { (w : ℕ) (o : Owner) → owner_of w ≡ Some o → wide_of w ≡ Some (widened o) }
{}

/// Black and white are told apart in each cycle, and change places with the next.
pub fn colours_turn()
    ensures apart { (c : ℕ) → black_word c ≢ white_word c }
    ensures black { (c : ℕ) → black_word (c + 1) ≡ white_word c }
    ensures white { (c : ℕ) → white_word (c + 1) ≡ black_word c }
{}

/// Distinct places have distinct indices, and all are below the number of words.
pub fn places_differ()
    ensures distinct { (e : Extent) (p q : Place) → in_range e p ≡ true → in_range e q ≡ true
        → index e p ≡ index e q → p ≡ q }
    ensures below { (e : Extent) (p : Place) → in_range e p ≡ true → index e p < words_count e }
{}

/// A write of the word at the index of a place changes that place of the heap, and no other.
pub fn writes_are_of_places()
    ensures { (e : Extent) (ws : List ℕ) (p : Place) (v : ℕ) → in_range e p ≡ true
        → words_count e ≤ length ws
        → heap_of e (slice_set ws (index e p) v) ≡ put_at (heap_of e ws) p v }
{}

/// In blocks of either width the register arrays of threads lie one after the other, from block 1
/// on, and each block of them is of one thread and ordinal. Each register is in a block of its
/// thread's array after the root, and distinct registers at distinct places.
pub fn registers_are_placed()
    ensures first { (w : Width) → root_block w 0 ≡ 1 }
    ensures next { (w : Width) (t : ℕ) → root_block w (t + 1) ≡ root_block w t + register_blocks w }
    ensures last { (w : Width) (n : ℕ) → root_block w n ≡ registers_end w n + 1 }
    ensures inside { (w : Width) (t r : ℕ) → r < REGISTERS
        → (root_block w t < register_block w t r) × (register_block w t r < root_block w (t + 1)) }
    ensures slot { (w : Width) (r : ℕ) → register_slot w r < payloads w }
    ensures distinct { (w : Width) (t r u q : ℕ) → r < REGISTERS → q < REGISTERS
        → register_block w t r ≡ register_block w u q → register_slot w r ≡ register_slot w q
        → (t ≡ u) × (r ≡ q) }
    ensures thread { (w : Width) (t o : ℕ) → o < register_blocks w
        → register_thread w (root_block w t + o) ≡ t }
    ensures ordinal { (w : Width) (t o : ℕ) → o < register_blocks w
        → register_ordinal w (root_block w t + o) ≡ o }
{}
