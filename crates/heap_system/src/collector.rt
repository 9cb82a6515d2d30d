//! What holds of the collector after every list of turns, for the proofs above: where grey and Free
//! blocks are, the tricolour rule, the change between the phases, and the sweep. Each law is the
//! contract of a function that does nothing.

ghost use Rattle.std.specs.Prelude.{◌+◌, ◌≡◌, ◌≢◌, ◌<◌, ◌≤◌, ◌⊎◌, ℕ, Some, true, false};
ghost use Rattle.block_store.specs.declared.Config.{Config};
ghost use Rattle.block_store.specs.Colours.{is_free, is_grey, black_word, white_word};
ghost use Rattle.block_store.specs.Phases.{inside_of, is_closed, is_sweep, cycle_of};
ghost use Rattle.block_store.specs.Places.{Phase, Cursor, GreyList, FreeList, ColourOf, PayloadOf, extent};
ghost use Rattle.block_store.specs.Widths.{payloads};
ghost use Rattle.heap_invariant.specs.graph_relation.Words.{block_words};
ghost use Rattle.heap_invariant.specs.name_invariant.Building.{Build as Building, build_blocks, IsBuild, IsBuilt};
ghost use Rattle.heap_invariant.specs.name_invariant.Colouring.{IfRefers, IsDark, IsShadedRoot};
ghost use Rattle.heap_invariant.specs.name_invariant.Reached.{IsReachedBlock, IsReachedOrMade, IsColouredOf};
ghost use Rattle.heap_machine.specs.FreeBlocks.{FreeKept};
ghost use Rattle.heap_machine.specs.Gating.{open_word};
ghost use Rattle.heap_machine.specs.Grey.{GreyKept};
ghost use Rattle.heap_machine.specs.WorkInHand.{grey_held, free_held, sweep_held, tricolour_held};
ghost use Rattle.heap_machine.specs.Operations.{Exchange};
ghost use Rattle.heap_machine.specs.Solid.{SolidKept};
ghost use Rattle.heap_machine.specs.Sweeping.{claims};
ghost use Rattle.heap_machine.specs.Tricolour.{TricolourKept};
ghost use Rattle.heap_machine.specs.declared.gate.GateRow.TheVariants as GateRow;
ghost use Rattle.heap_machine.specs.declared.pass.Pass.{Pass};
ghost use Rattle.heap_system.specs.Parts.{PhaseChange};
ghost use Rattle.heap_system.specs.Locals.{task, part_want};
ghost use Rattle.heap_system.specs.Machines.{turned, Run, IsAfterTurns, local_in, heap_in};
ghost use Rattle.heap_system.specs.Pictures.{work_in_hand, work_in_hand_of, tasks_in, kept_state};
ghost use Rattle.heap_system.specs.Rounds.{puts_grey, puts_free, turns_phase};
ghost use Rattle.heap_system.specs.Shades.{IsBlack, IsGreyRoot};

/// The grey blocks are in the chains of the lists and of the threads' hands, or are under scan,
/// each once. Where a thread puts its private list in its own list, in a Mark pass, in a write
/// barrier or where it has shaded the roots, that list is empty.
pub fn grey_blocks_stand_once()
    ensures kept { (c : Config) (r : Run) → IsAfterTurns c r
        → GreyKept c.threads (heap_in c r.state) (λ t. grey_held (work_in_hand_of c r.state t)) }
    ensures put { (c : Config) (r : Run) → IsAfterTurns c r → (t : ℕ) → t < c.threads
        → puts_grey (local_in c r t).part ≡ true
        → (part_want c (local_in c r t).part
        ≡ Exchange (GreyList t) (work_in_hand c (local_in c r t).part).list)
        × (heap_in c r.state (GreyList t) ≡ 0) }
{}

/// The Free blocks are in the chains of the free lists and of the threads' hands, or are held to
/// build with, each once, and are counted. Where a thread puts its private list in its own free
/// list, that list is empty.
pub fn free_blocks_stand_once()
    ensures kept { (c : Config) (r : Run) → IsAfterTurns c r
        → FreeKept (extent c) (heap_in c r.state) (λ t. free_held (work_in_hand_of c r.state t)) }
    ensures put { (c : Config) (r : Run) → IsAfterTurns c r → (t : ℕ) → t < c.threads
        → puts_free (local_in c r t).part ≡ true
        → (part_want c (local_in c r t).part
        ≡ Exchange (FreeList t) (work_in_hand c (local_in c r t).part).free_list)
        × (heap_in c r.state (FreeList t) ≡ 0) }
{}

/// While the phase is Mark no black block refers to a white one, nor does what a scan has dealt
/// with, and the reference whose barrier is over is not white; no block that is not Free refers to
/// a Free one, and each root is grey or black. In both phases what a thread builds is written as
/// far as its colours say, and what it has coloured refers to coloured blocks of its own object
/// alone. What is grey or black was reachable at the start of the cycle, or was made since, or a
/// builder has coloured it.
pub fn marking_is_tricolour()
    ensures tricolour { (c : Config) (r : Run) → IsAfterTurns c r
        → is_sweep (heap_in c r.state Phase) ≡ false
        → TricolourKept (extent c) (cycle_of (heap_in c r.state Phase)) (heap_in c r.state)
        (λ t. tricolour_held (work_in_hand_of c r.state t)) }
    ensures solid { (c : Config) (r : Run) → IsAfterTurns c r
        → is_sweep (heap_in c r.state Phase) ≡ false
        → SolidKept (extent c) (cycle_of (heap_in c r.state Phase)) (heap_in c r.state) }
    ensures builds { (c : Config) (r : Run) → IsAfterTurns c r → (t : ℕ) (b : Building)
        → t < c.threads → (task c (local_in c r t).part).build ≡ Some b
        → IsBuild c.width c.threads c.blocks (cycle_of (heap_in c r.state Phase))
        (λ x. heap_in c r.state (ColourOf x)) (block_words (heap_in c r.state)) b }
    ensures built { (c : Config) (r : Run) → IsAfterTurns c r → (t o j : ℕ) (b : Building)
        → t < c.threads → (task c (local_in c r t).part).build ≡ Some b
        → b.left ≤ o → o < build_blocks c.width b → j < payloads c.width
        → IfRefers (IsColouredOf c.width b) (heap_in c r.state (PayloadOf (b.held o) j)) }
    ensures marked { (c : Config) (r : Run) → IsAfterTurns c r → (x : ℕ)
        → IsDark (cycle_of (heap_in c r.state Phase)) (heap_in c r.state (ColourOf x))
        → IsReachedOrMade c (kept_state c r) x
        ⊎ IsBuilt c.width c.threads (λ t. (tasks_in c r.state t).build) x }
{}

/// A turn changes the phase or the cycle only at a flip or a start, where the gate is closed and
/// nobody is inside: from Mark to the same cycle's Sweep, and from Sweep to the next cycle's Mark.
pub fn phases_turn_with_nobody_inside()
    ensures stays { (c : Config) (r : Run) → IsAfterTurns c r → (t : ℕ) → t < c.threads
        → turns_phase (local_in c r t).part ≡ false
        → (cycle_of (heap_in c (turned c t r.state) Phase) ≡ cycle_of (heap_in c r.state Phase))
        × (is_sweep (heap_in c (turned c t r.state) Phase)
        ≡ is_sweep (heap_in c r.state Phase)) }
    ensures flip { (c : Config) (r : Run) → IsAfterTurns c r → (t : ℕ) (p : Pass) → t < c.threads
        → (local_in c r t).part ≡ PhaseChange (GateRow.Flip p)
        → (is_sweep (heap_in c r.state Phase) ≡ false)
        × (heap_in c (turned c t r.state) Phase
        ≡ open_word (cycle_of (heap_in c r.state Phase)) true) }
    ensures start { (c : Config) (r : Run) → IsAfterTurns c r → (t : ℕ) (p : Pass) → t < c.threads
        → (local_in c r t).part ≡ PhaseChange (GateRow.Start p)
        → (is_sweep (heap_in c r.state Phase) ≡ true)
        × (heap_in c (turned c t r.state) Phase
        ≡ open_word (cycle_of (heap_in c r.state Phase) + 1) false) }
    ensures alone { (c : Config) (r : Run) → IsAfterTurns c r → (t : ℕ) → t < c.threads
        → turns_phase (local_in c r t).part ≡ true
        → (is_closed (heap_in c r.state Phase) ≡ true)
        × (inside_of (heap_in c r.state Phase) ≡ 0) }
{}

/// At the flip to Sweep no block is grey, and each block that the graph reaches is black.
pub fn the_flip_finds_what_is_reached()
    ensures grey { (c : Config) (r : Run) → IsAfterTurns c r → (t x : ℕ) (p : Pass)
        → t < c.threads → (local_in c r t).part ≡ PhaseChange (GateRow.Flip p)
        → is_grey (heap_in c r.state (ColourOf x)) ≡ false }
    ensures black { (c : Config) (r : Run) → IsAfterTurns c r → (t x : ℕ) (p : Pass)
        → t < c.threads → (local_in c r t).part ≡ PhaseChange (GateRow.Flip p)
        → IsReachedBlock c (kept_state c r) x
        → heap_in c r.state (ColourOf x) ≡ black_word (cycle_of (heap_in c r.state Phase)) }
{}

/// While the phase is Sweep each block that the graph reaches is black, but for the roots that are
/// shaded for the next cycle, which are grey, and no other block is grey. No black block, and none
/// of those roots, refers to a block that is not black. A block that was passed is not white, and
/// one that a thread is about to free is.
pub fn sweeping_spares_what_is_reached()
    ensures reached { (c : Config) (r : Run) → IsAfterTurns c r → (x : ℕ)
        → is_sweep (heap_in c r.state Phase) ≡ true → IsReachedBlock c (kept_state c r) x
        → IsBlack c r x ⊎ IsGreyRoot c r x }
    ensures grey { (c : Config) (r : Run) → IsAfterTurns c r → (x : ℕ)
        → is_sweep (heap_in c r.state Phase) ≡ true
        → is_grey (heap_in c r.state (ColourOf x)) ≡ true
        → IsShadedRoot c.width c.threads r.names.shaded x }
    ensures refers { (c : Config) (r : Run) → IsAfterTurns c r → (x j : ℕ)
        → is_sweep (heap_in c r.state Phase) ≡ true
        → IsBlack c r x ⊎ IsShadedRoot c.width c.threads r.names.shaded x
        → j < payloads c.width
        → IfRefers (IsBlack c r) (heap_in c r.state (PayloadOf x j)) }
    ensures passed { (c : Config) (r : Run) → IsAfterTurns c r → (x : ℕ)
        → is_sweep (heap_in c r.state Phase) ≡ true → 1 ≤ x → x < heap_in c r.state Cursor
        → claims c.threads (λ t. sweep_held (work_in_hand_of c r.state t)) x ≡ 0
        → heap_in c r.state (ColourOf x) ≢ white_word (cycle_of (heap_in c r.state Phase)) }
    ensures doomed { (c : Config) (r : Run) → IsAfterTurns c r → (t : ℕ) → t < c.threads
        → (work_in_hand c (local_in c r t).part).doomed ≢ 0
        → (is_sweep (heap_in c r.state Phase) ≡ true)
        × (heap_in c r.state (ColourOf (work_in_hand c (local_in c r t).part).doomed)
        ≡ white_word (cycle_of (heap_in c r.state Phase))) }
{}

/// At the start of the next cycle no block is white, and each that is not Free is black, but for
/// the shaded roots, which are grey.
pub fn starts_find_no_white()
    ensures white { (c : Config) (r : Run) → IsAfterTurns c r → (t x : ℕ) (p : Pass)
        → t < c.threads → (local_in c r t).part ≡ PhaseChange (GateRow.Start p)
        → heap_in c r.state (ColourOf x) ≢ white_word (cycle_of (heap_in c r.state Phase)) }
    ensures black { (c : Config) (r : Run) → IsAfterTurns c r → (t x : ℕ) (p : Pass)
        → t < c.threads → (local_in c r t).part ≡ PhaseChange (GateRow.Start p)
        → is_free (heap_in c r.state (ColourOf x)) ≡ false
        → IsBlack c r x ⊎ IsGreyRoot c r x }
{}
