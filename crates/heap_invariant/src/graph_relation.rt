//! Which graph the words of blocks show: where each object's blocks are, what is in each of
//! their words, and which moves of words and graph go together. Each law is the contract of a
//! function that does nothing.

ghost use Rattle.std.specs.Prelude.{◌≡◌, ◌==◌, ℕ, ◌+◌, ◌<◌, ◌≤◌, Bool, true, false, Some, List, length};
ghost use Rattle.block_store.specs.declared.Config.{Config};
ghost use Rattle.block_store.specs.declared.Name.{Name};
ghost use Rattle.block_store.specs.declared.Shape.{Shape};
ghost use Rattle.block_store.specs.declared.TheConstants.{REGISTERS};
ghost use Rattle.block_store.specs.declared.Value.{Value};
ghost use Rattle.block_store.specs.declared.Value.TheVariants.{Int, Ref};
ghost use Rattle.block_store.specs.declared.Width.{Width};
ghost use Rattle.block_store.specs.declared.Width.TheVariants.{Four, Eight};
ghost use Rattle.block_store.specs.Configs.{IsInBounds};
ghost use Rattle.block_store.specs.WideOwners.{wide_of};
ghost use Rattle.block_store.specs.Payloads.{payload_of, reference_word, target};
ghost use Rattle.block_store.specs.Registers.{register_block, register_slot, registers_end};
ghost use Rattle.block_store.specs.Shapes.{shape_of};
ghost use Rattle.block_store.specs.Widths.{payloads};
ghost use Rattle.object_lists.specs.Layouts.{IsLayout, IsWay};
ghost use Rattle.array_trees.specs.InitialHeaps.{opening_blocks};
ghost use Rattle.never_heap.specs.Graphs.{Graph, ObjectKind, Record, start_graph, object_of, field_of, register_of, has_name, with_register, with_field, with_object, next_name};
ghost use Rattle.never_heap.specs.Steps.{same_value};
ghost use Rattle.heap_invariant.specs.graph_relation.Layouts.{kind_shape, layout_blocks, layout_part, layout_slot, object_part, object_slot};
ghost use Rattle.heap_invariant.specs.graph_relation.Words.{Agrees, BlockWords, with_payload, with_register_word};
ghost use Rattle.heap_invariant.specs.graph_relation.GraphOfWords.{heads, BlockShows, Closed, Shows, every_name, named, none_pending};
ghost use Rattle.heap_invariant.specs.graph_relation.Made.{new_object, with_blocks, and_name, IsMade, IsWritten};
ghost use Rattle.heap_invariant.specs.graph_relation.Snapshots.{Snapshot, IsShown, IsRegister, IsKeptValue, word_of, IsBlockOf, IsMadeIn, referred_new, CatchesUp, FallsBehind};
ghost use Rattle.heap_invariant.specs.graph_relation.InitialHeaps.{opening_at, opening_words};
ghost use Rattle.heap_invariant.specs.graph_relation.Events.{ObjectLoad, ValueLoad, GraphState, Event, object_at, expected_at, HasExpected, IsAtField, run, Guarded, ObjectIs, ValueIs, Follows, opening_state};
ghost use Rattle.heap_invariant.specs.graph_relation.Example.{small_config, wide_config, shared_array, some_events, with_record};
ghost use Rattle.heap_invariant.specs.graph_relation.Read.{value_payload};

/// Objects of each kind and length have a layout in blocks of either width.
pub fn objects_are_laid_out()
    ensures { (W : Width) (k : ObjectKind) (n : ℕ)
        → IsLayout (payloads W) n (layout_blocks W k n) (layout_part W k n) (layout_slot W k n) }
{}

/// The opening words show the start graph.
pub fn opening_is_shown()
    ensures { (c : Config) → IsInBounds c
        → Shows c.width c.threads (opening_blocks c) (every_name (start_graph c)) (start_graph c)
        (opening_at c.width c.threads) (opening_words c) none_pending }
{}

/// Words of the opening heap of one thread and an empty shared array, in blocks of eight: the root
/// of the register array in block 1 refers to blocks 2 and 3, register 0 in block 2 refers to block
/// 4, and that is the shared array `1.0`.
pub fn a_known_opening()
    ensures root { ((opening_words wide_config).payload 1 0 ≡ 4)
        × ((opening_words wide_config).payload 1 1 ≡ 6)
        × ((j : ℕ) → 1 < j → j < 8 → (opening_words wide_config).payload 1 j ≡ 0) }
    ensures registers { ((opening_words wide_config).payload 2 0 ≡ 8)
        × ((j : ℕ) → 0 < j → j < 8 → (opening_words wide_config).payload 2 j ≡ 0) }
    ensures shared { ((opening_words wide_config).owner 4 ≡ 1099511627776)
        × ((opening_words wide_config).shape 4 ≡ 1) }
{}

/// A store of a kept value in a register, and in a field of a kept object. A register may take its
/// value first, and be pending until its word is stored.
pub fn stores_are_shown()
    ensures register { (s : Snapshot) (t r : ℕ) (later : ℕ → ℕ → Bool) (v : Value) → IsShown s
        → IsRegister s t r → IsKeptValue s v → CatchesUp s later t r
        → IsShown (record s {
          graph = with_register s.graph t r v;
          words = with_register_word s.width s.words t r (word_of s v);
          pending = later;
        }) }
    ensures pending { (s : Snapshot) (t r : ℕ) (later : ℕ → ℕ → Bool) (v : Value) → IsShown s
        → IsRegister s t r → IsKeptValue s v → later t r ≡ true → FallsBehind s later
        → IsShown (record s { graph = with_register s.graph t r v; pending = later }) }
    ensures caught_up { (s : Snapshot) (t r : ℕ) (later : ℕ → ℕ → Bool) → IsShown s
        → IsRegister s t r → CatchesUp s later t r
        → IsShown (record s {
          words = with_register_word s.width s.words t r (word_of s (register_of s.graph t r));
          pending = later;
        }) }
    ensures field { (s : Snapshot) (a : Name) (i : ℕ) (v : Value) → IsShown s
        → s.kept a ≡ true → i < length (object_of s.graph a).fields → IsKeptValue s v
        → IsShown (record s {
          graph = with_field s.graph a i v;
          words = with_payload s.words (s.at a (object_slot s.width (object_of s.graph a) i).0)
              (object_slot s.width (object_of s.graph a) i).1 (word_of s v);
        }) }
{}

/// A block of a new object shows its part once its owner, its shape and its links are written, and
/// nil elsewhere.
pub fn written_blocks_are_shown()
    ensures { (W : Width) (n o : ℕ) (head : Name → ℕ) (w : BlockWords) (a : Name) (k : ObjectKind)
        (block_of : ℕ → ℕ) → IsWritten W w a k n block_of o
        → BlockShows W head w a (new_object k n) block_of o }
{}

/// An object that was made block by block gets the next name of its thread, and is kept. With all
/// names kept, a register refers to it at once.
pub fn new_objects_are_shown()
    ensures published { (s : Snapshot) (t f : ℕ) (k : ObjectKind) (block_of : ℕ → ℕ) → IsShown s
        → IsMadeIn s t k f block_of
        → Shows s.width s.threads s.last (and_name (named s.kept) (next_name s.graph t))
        (with_object s.graph t (new_object k f)) (with_blocks s.at (next_name s.graph t) block_of)
        s.words s.pending }
    ensures referred { (s : Snapshot) (t d f : ℕ) (k : ObjectKind) (block_of : ℕ → ℕ)
        → IsShown (record s { kept = has_name s.graph }) → IsMadeIn s t k f block_of → d < REGISTERS
        → IsShown (referred_new s t d k f block_of) }
{}

/// Words that are of no register block and of no kept object may change, as those after the last
/// block. Fewer names may be kept, where these refer to each other alone and no register is
/// pending.
pub fn other_words_are_free()
    ensures words { (s : Snapshot) (u : BlockWords) → IsShown s
        → ((x j : ℕ) → 0 < x → x ≤ registers_end s.width s.threads → j < payloads s.width
        → u.payload x j ≡ s.words.payload x j)
        → ((a : Name) (o : ℕ) → IsBlockOf s a o → Agrees s.width s.words u (s.at a o))
        → IsShown (record s { words = u }) }
    ensures behind { (s : Snapshot) (l : ℕ) (u : BlockWords) → IsShown s
        → registers_end s.width s.threads ≤ s.last → s.last ≤ l
        → ((x : ℕ) → 0 < x → x ≤ s.last → Agrees s.width s.words u x)
        → IsShown (record s { last = l; words = u }) }
    ensures fewer { (s : Snapshot) (fewer : Name → Bool) → IsShown s
        → ((a : Name) → fewer a ≡ true → s.kept a ≡ true)
        → Closed s.threads (named fewer) (object_of s.graph) (register_of s.graph)
        → ((t r : ℕ) → IsRegister s t r → s.pending t r ≡ false)
        → IsShown (record s { kept = fewer }) }
{}

/// What the words show is what is read of them: a name and ordinal, a kind and length, a value, and
/// at the end of a way a field. Blocks of two names or ordinals are two.
pub fn shown_words_are_read()
    ensures owner { (s : Snapshot) (a : Name) (o : ℕ) → IsShown s → IsBlockOf s a o
        → wide_of (s.words.owner (s.at a o))
        ≡ Some (record { thread = a.thread; serial = a.serial; ordinal = o }) }
    ensures length { (s : Snapshot) (a : Name) (o : ℕ) → IsShown s → IsBlockOf s a o
        → shape_of (s.words.shape (s.at a o))
        ≡ Some (kind_shape (object_of s.graph a).kind (length (object_of s.graph a).fields)) }
    ensures value { (s : Snapshot) (v : Value) → IsShown s → s.last ≤ 65535 → IsKeptValue s v
        → payload_of (word_of s v) ≡ Some (value_payload (heads s.at) v) }
    ensures one_value { (s : Snapshot) (v u : Value) → IsShown s → IsKeptValue s v
        → IsKeptValue s u → word_of s v ≡ word_of s u → v ≡ u }
    ensures register { (s : Snapshot) (t r : ℕ) → IsShown s → IsRegister s t r
        → s.pending t r ≡ false
        → s.words.payload (register_block s.width t r) (register_slot s.width r)
        ≡ word_of s (register_of s.graph t r) }
    ensures field { (s : Snapshot) (a : Name) (i steps last : ℕ) (way turn walked : ℕ → ℕ)
        → IsShown s → s.kept a ≡ true → i < length (object_of s.graph a).fields
        → IsWay (object_part s.width (object_of s.graph a)) i steps last way turn
        → walked 0 ≡ s.at a 0
        → ((l : ℕ) → l < steps
        → s.words.payload (walked l) (turn l) ≡ reference_word (walked (l + 1)))
        → (walked steps ≡ s.at a (object_slot s.width (object_of s.graph a) i).0)
        × (s.words.payload (walked steps) last ≡ word_of s (field_of (object_of s.graph a) i)) }
    ensures apart { (s : Snapshot) (a b : Name) (o p : ℕ) → IsShown s → IsBlockOf s a o
        → IsBlockOf s b p → s.at a o ≡ s.at b p → (a ≡ b) × (o ≡ p) }
{}

/// What a thread has loaded reads as the graph says: the value of its register, the name to which
/// that refers, and the kind and length of an object whose shape was read. The word of a field is
/// the one with which it is to be compared exactly where the values are the same.
pub fn loads_are_read()
    ensures value { (W : Width) (n m t : ℕ) (kept : Name → Bool) (at : Name → ℕ → ℕ)
        (s : GraphState) (v : ValueLoad) → Follows W n m (named kept) at s → t < n → m ≤ 65535
        → ValueIs s.graph at t v
        → payload_of v.word ≡ Some (value_payload (heads at) (register_of s.graph t v.origin)) }
    ensures compared { (W : Width) (n m t : ℕ) (kept : Name → Bool) (at : Name → ℕ → ℕ)
        (s : GraphState) (a : Name) (i j : ℕ) → Follows W n m (named kept) at s → t < n
        → IsAtField W s t a i j → HasExpected s t
        → (s.words.payload (object_at s t).block j == (expected_at s t).word)
        ≡ same_value (field_of (object_of s.graph a) i)
        (register_of s.graph t (expected_at s t).origin) }
    ensures name { (W : Width) (n m t : ℕ) (kept : Name → Bool) (at : Name → ℕ → ℕ) (s : GraphState)
        (v : ValueLoad) (a : Name) → Follows W n m (named kept) at s → t < n
        → ValueIs s.graph at t v → register_of s.graph t v.origin ≡ Ref a
        → wide_of (s.words.owner (target v.word))
        ≡ Some (record { thread = a.thread; serial = a.serial; ordinal = 0 }) }
    ensures length { (W : Width) (t : ℕ) (at : Name → ℕ → ℕ) (g : Graph) (l : ObjectLoad)
        (f : Shape) (a : Name) → ObjectIs W g at t l → l.shape ≡ Some f
        → register_of g t l.source ≡ Ref a
        → f ≡ kind_shape (object_of g a).kind (length (object_of g a).fields) }
{}

/// After every list of events of commands that allocate nothing, each of which may come where it
/// does, the words show the graph. So they do at the opening.
pub fn commands_are_shown()
    ensures opening { (c : Config) → IsInBounds c
        → Follows c.width c.threads (opening_blocks c) (every_name (start_graph c))
        (opening_at c.width c.threads) (opening_state c) }
    ensures run { (W : Width) (n m : ℕ) (kept : Name → Bool) (at : Name → ℕ → ℕ) (s : GraphState)
        (es : List Event) → Follows W n m (named kept) at s → Guarded W n s es
        → Follows W n m (named kept) at (run W s es) }
{}

/// The conditions of these laws are met by a small heap of either width: by an array that two
/// threads share, a store in it, a load of what was stored, two exchanges of that field, of which
/// the later one comes before the earlier one has stored what the field held, and a record of two
/// blocks.
pub fn the_example_runs()
    ensures events { (W : Width) → Guarded W 2 (opening_state (small_config W)) some_events }
    ensures result { (W : Width)
        → register_of (run W (opening_state (small_config W)) some_events).graph 1 2 ≡ Int 7 }
    ensures exchanged { (W : Width)
        → (register_of (run W (opening_state (small_config W)) some_events).graph 0 0 ≡ Int 7)
        × (register_of (run W (opening_state (small_config W)) some_events).graph 1 0
        ≡ Ref shared_array) }
    ensures made { (W : Width) → IsMade W 2 13 (start_graph (small_config W))
        (with_record W (opening_words (small_config W))) 0 Record (payloads W) (λ o. 12 + o) }
{}
