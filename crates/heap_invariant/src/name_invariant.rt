//! The names that a collector keeps: of what the graph reaches, of what is built, and of the
//! colours of blocks, over events that may come where they do. Each law is the contract of a
//! function that does nothing.

ghost use Rattle.std.specs.Prelude.{◌≡◌, ◌<◌, ◌≤◌, ◌⊎◌, ℕ, true, false, Some, List};
ghost use Rattle.block_store.specs.declared.Config.{Config};
ghost use Rattle.block_store.specs.declared.Name.{Name};
ghost use Rattle.block_store.specs.Colours.{is_free, is_grey, black_word};
ghost use Rattle.block_store.specs.declared.TheConstants.{REGISTERS};
ghost use Rattle.block_store.specs.declared.Value.TheVariants.{Ref};
ghost use Rattle.block_store.specs.declared.Width.{Width};
ghost use Rattle.block_store.specs.Configs.{IsInBounds};
ghost use Rattle.block_store.specs.Widths.{payloads};
ghost use Rattle.array_trees.specs.InitialHeaps.{opening_blocks};
ghost use Rattle.never_heap.specs.Graphs.{next_name, register_of};
ghost use Rattle.never_heap.specs.Histories.{Legal, replay};
ghost use Rattle.heap_invariant.specs.graph_relation.Events.{pending_registers};
ghost use Rattle.heap_invariant.specs.graph_relation.GraphOfWords.{Shows};
ghost use Rattle.heap_invariant.specs.name_invariant.Building.{Build, build_blocks, IsBuild, IsBuilt, NotHeld};
ghost use Rattle.heap_invariant.specs.name_invariant.Colouring.{IfRefers, IsDark, IsShadedRoot};
ghost use Rattle.heap_invariant.specs.name_invariant.States.{KeptState, Kept};
ghost use Rattle.heap_invariant.specs.name_invariant.Events.{KeptEvent, apply, Guard, run, Guarded, build_at, held_at};
ghost use Rattle.heap_invariant.specs.name_invariant.Events.KeptEvent.{Flip, Start, WriteColour};
ghost use Rattle.heap_invariant.specs.name_invariant.Invariant.{Invariant, IsOlder};
ghost use Rattle.heap_invariant.specs.name_invariant.InitialHeaps.{OpeningColours, opening_kept};
ghost use Rattle.heap_invariant.specs.name_invariant.Reached.{Reached, IsReachedBlock, IsReachedOrMade, IsColouredOf};
ghost use Rattle.heap_invariant.specs.name_invariant.Example.{one_thread, first_colours, some_events, array_name, record_name, example_start, example_end};

/// Each event that may come keeps it, and so does each list of them.
pub fn events_are_kept()
    ensures step { (c : Config) (s : KeptState) (e : KeptEvent) → IsInBounds c → Invariant c s
        → Guard c s e → Invariant c (apply c s e) }
    ensures run { (c : Config) (s : KeptState) (es : List KeptEvent) → IsInBounds c → Invariant c s
        → Guarded c s es → Invariant c (run c s es) }
{}

/// The opening is kept, and so is what comes after it.
pub fn openings_are_kept()
    ensures first { (c : Config) (colour : ℕ → ℕ) → IsInBounds c → opening_blocks c ≤ c.blocks
        → OpeningColours c colour → Invariant c (opening_kept c colour) }
    ensures after { (c : Config) (colour : ℕ → ℕ) (es : List KeptEvent) → IsInBounds c
        → opening_blocks c ≤ c.blocks → OpeningColours c colour
        → Guarded c (opening_kept c colour) es → Invariant c (run c (opening_kept c colour) es) }
{}

/// The graph is the replay of the order, which is legal. All that it reaches is kept, and the words
/// show what is kept; a register alone is pending whose thread has loaded a value for it that is
/// still to be stored, and it has the value from before that command. No block that the graph
/// reaches is Free, or held by a builder.
pub fn words_show_what_is_reached()
    ensures legal { (c : Config) (s : KeptState) → Invariant c s → Legal c s.order }
    ensures graph { (c : Config) (s : KeptState) → Invariant c s → s.seen.graph ≡ replay c s.order }
    ensures reached { (c : Config) (s : KeptState) (a : Name) → Invariant c s → Reached s a
        → Kept s a }
    ensures words { (c : Config) (s : KeptState) → Invariant c s
        → Shows c.width c.threads c.blocks (Kept s) s.seen.graph s.at s.seen.words
        (pending_registers s.seen.loads) }
    ensures older { (c : Config) (s : KeptState) (t r : ℕ) → Invariant c s → t < c.threads
        → r < REGISTERS → pending_registers s.seen.loads t r ≡ true
        → IsOlder c s.order s.seen.words (Kept s) s.at t r }
    ensures solid { (c : Config) (s : KeptState) (x : ℕ) → Invariant c s → IsReachedBlock c s x
        → is_free (s.colour x) ≡ false }
    ensures not_held { (c : Config) (s : KeptState) (x t : ℕ) (b : Build) → Invariant c s
        → IsReachedBlock c s x → t < c.threads → s.builds t ≡ Some b → NotHeld b x }
{}

/// What is being built: its blocks, and its name, which is the thread's next. A block that is
/// coloured, or next to be coloured, refers to coloured blocks of its own object alone.
pub fn builds_are_written()
    ensures build { (c : Config) (s : KeptState) (t : ℕ) (b : Build) → Invariant c s → t < c.threads
        → s.builds t ≡ Some b
        → IsBuild c.width c.threads c.blocks s.cycle s.colour s.seen.words b }
    ensures name { (c : Config) (s : KeptState) (t : ℕ) (b : Build) → Invariant c s → t < c.threads
        → s.builds t ≡ Some b → b.name ≡ next_name s.seen.graph t }
    ensures coloured { (c : Config) (s : KeptState) (t o j : ℕ) (b : Build) → Invariant c s
        → t < c.threads → s.builds t ≡ Some b → b.left ≤ o → o < build_blocks c.width b
        → j < payloads c.width
        → IfRefers (IsColouredOf c.width b) (s.seen.words.payload (b.held o) j) }
    ensures in_hand { (c : Config) (s : KeptState) (t o j : ℕ) → Invariant c s
        → Guard c s (WriteColour t o) → j < payloads c.width
        → IfRefers (IsColouredOf c.width (build_at s t)) (s.seen.words.payload (held_at s t o) j) }
{}

/// At the flip every block that the graph reaches is black. While the phase is Sweep it stays
/// black, but for the roots that are shaded already, and no other block is grey; neither a black
/// block nor such a root refers to a block that is not black. At the start of a cycle every block
/// that is not Free is black or such a root.
pub fn sweeping_spares_what_is_reached()
    ensures flip { (c : Config) (s : KeptState) (x : ℕ) → Invariant c s → Guard c s Flip
        → IsReachedBlock c s x → s.colour x ≡ black_word s.cycle }
    ensures reached { (c : Config) (s : KeptState) (x : ℕ) → Invariant c s → s.sweep ≡ true
        → IsReachedBlock c s x
        → (s.colour x ≡ black_word s.cycle) ⊎ IsShadedRoot c.width c.threads s.shaded x }
    ensures grey { (c : Config) (s : KeptState) (x : ℕ) → Invariant c s → s.sweep ≡ true
        → is_grey (s.colour x) ≡ true → IsShadedRoot c.width c.threads s.shaded x }
    ensures refers { (c : Config) (s : KeptState) (x j : ℕ) → Invariant c s → s.sweep ≡ true
        → IsDark s.cycle (s.colour x) → j < payloads c.width
        → IfRefers (λ y. s.colour y ≡ black_word s.cycle) (s.seen.words.payload x j) }
    ensures start { (c : Config) (s : KeptState) (x : ℕ) → Invariant c s → Guard c s Start
        → is_free (s.colour x) ≡ false
        → (s.colour x ≡ black_word s.cycle) ⊎ IsShadedRoot c.width c.threads s.shaded x }
{}

/// A block that is grey or black is of a register array, or of an object that was reachable at the
/// start of the cycle or was made since, or a builder has coloured it.
pub fn marked_blocks_were_reached_or_made()
    ensures { (c : Config) (s : KeptState) (x : ℕ) → Invariant c s → IsDark s.cycle (s.colour x)
        → IsReachedOrMade c s x ⊎ IsBuilt c.width c.threads s.builds x }
{}

/// The conditions of these laws are met in blocks of either width: over a cycle of one thread that
/// gives up an array and builds a record in its block, the words go on showing what is reached. In
/// the next cycle it exchanges nil and then a reference for the one in the record's field, which
/// shades what it took, compares the field, and idles.
pub fn the_example_runs()
    ensures bounds { (W : Width) → IsInBounds (one_thread W) }
    ensures room { (W : Width) → opening_blocks (one_thread W) ≤ (one_thread W).blocks }
    ensures colours { (W : Width) → OpeningColours (one_thread W) (first_colours W) }
    ensures events { (W : Width) → Guarded (one_thread W) (example_start W) (some_events W) }
    ensures cycle { (W : Width) → (example_end W).cycle ≡ 2 }
    ensures refers { (W : Width)
        → register_of (example_end W).seen.graph 0 1 ≡ Ref record_name }
    ensures keeps { (W : Width) → Kept (example_end W) record_name }
    ensures loses { (W : Width) → (example_end W).kept array_name ≡ false }
{}
