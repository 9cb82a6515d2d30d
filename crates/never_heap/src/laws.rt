//! Laws of the graph and of its steps, for the proofs of the crates above.

ghost use Rattle.std.specs.Prelude.{◌≡◌, ◌<◌, ◌≤◌, ◌+◌, ◌⊎◌, ℕ, Bool, true, false, Some, None, length, List};
ghost use Rattle.std.specs.List.{sum_by};
ghost use Rattle.block_store.specs.declared.Config.{Config};
ghost use Rattle.block_store.specs.declared.Name.{Name};
ghost use Rattle.block_store.specs.declared.Width.{Width};
ghost use Rattle.block_store.specs.Configs.{IsInBounds};
ghost use Rattle.block_store.specs.Registers.{registers_end};
ghost use Rattle.array_trees.specs.InitialHeaps.{opening_blocks};
ghost use Rattle.block_store.specs.declared.Value.TheVariants.{Ref};
ghost use Rattle.never_heap.specs.declared.Command.{Command};
ghost use Rattle.never_heap.specs.declared.Reply.TheVariants.{No};
ghost use Rattle.never_heap.specs.Graphs.{Graph, SameShape, start_graph, register_of, object_of, field_of, count_of, has_name, next_name};
ghost use Rattle.never_heap.specs.Histories.{HistoryItem, is_full, is_refusal, replay, replay_from};
ghost use Rattle.never_heap.specs.LiveBlocks.{live_blocks, object_blocks};
ghost use Rattle.never_heap.specs.Reach.{reachable, is_among, IsClosed};
ghost use Rattle.never_heap.specs.Steps.{step, blocks_of, makes_object, stores_in, stored_at};

/// The reachable names are the least set that has each name in a register, and each name in a field
/// of an object that it has.
pub fn reachable_is_least()
    ensures closed { (g : Graph) → IsClosed g (reachable g) }
    ensures least { (g : Graph) (s : Name → Bool) (a : Name)
        → IsClosed g s → reachable g a ≡ true → s a ≡ true }
{}

/// Where names in a list are closed under references, and have all that is in registers, no
/// more blocks are live than theirs and those of the registers.
pub fn live_blocks_are_few()
    ensures { (w : Width) (g : Graph) (some : List Name) → IsClosed g (is_among some)
        → live_blocks w g ≤
        registers_end w (length g.mutators) + sum_by (λ a. object_blocks w (object_of g a)) some }
{}

/// Reachable blocks grow at allocations alone, and by at most the blocks that are made.
pub fn live_grows()
    ensures { (w : Width) (g : Graph) (t : ℕ) (command : Command)
        → live_blocks w (step g t command).0 ≤ live_blocks w g + blocks_of w command }
{}

/// All blocks that the opening has given are live.
pub fn opening_blocks_are_live()
    ensures { (c : Config) → IsInBounds c → live_blocks c.width (start_graph c) ≡ opening_blocks c }
{}

/// A step of thread `t` leaves the registers in which it does not store, all objects where it
/// stores in no field, and else all but the one to which its register refers, of which it leaves
/// the other fields. The threads stay, and so does how many objects each has made, but that a
/// command that makes an object adds one for `t`, where there is such a thread. A command that is
/// refused, or answered no as a lost `cas` is, leaves the whole graph.
pub fn steps_leave()
    ensures registers { (g : Graph) (t : ℕ) (command : Command) (u q : ℕ)
        → (t ≡ u → stores_in command q ≡ false)
        → register_of (step g t command).0 u q ≡ register_of g u q }
    ensures objects { (g : Graph) (t : ℕ) (command : Command) (a : Name)
        → has_name g a ≡ true → stored_at command ≡ None
        → object_of (step g t command).0 a ≡ object_of g a }
    ensures others { (g : Graph) (t : ℕ) (command : Command) (s i : ℕ) (a : Name)
        → stored_at command ≡ Some (s, i) → ¬ (register_of g t s ≡ Ref a)
        → object_of (step g t command).0 a ≡ object_of g a }
    ensures fields { (g : Graph) (t : ℕ) (command : Command) (s i : ℕ) (a : Name) (j : ℕ)
        → stored_at command ≡ Some (s, i) → ¬ (i ≡ j)
        → field_of (object_of (step g t command).0 a) j ≡ field_of (object_of g a) j }
    ensures threads { (g : Graph) (t : ℕ) (command : Command)
        → length (step g t command).0.mutators ≡ length g.mutators }
    ensures counts { (g : Graph) (t : ℕ) (command : Command) (u : ℕ)
        → (t ≡ u → makes_object command ≡ false)
        → count_of (step g t command).0 u ≡ count_of g u }
    ensures made { (g : Graph) (t : ℕ) (command : Command)
        → makes_object command ≡ true → t < length g.mutators
        → count_of (step g t command).0 t ≡ count_of g t + 1 }
    ensures refused { (g : Graph) (t : ℕ) (command : Command)
        → is_refusal (step g t command).1 ≡ true → (step g t command).0 ≡ g }
    ensures lost { (g : Graph) (t : ℕ) (command : Command)
        → (step g t command).1 ≡ No → (step g t command).0 ≡ g }
{}

/// A name stays over each step and each history, with the kind and the length of its object.
pub fn names_stay()
    ensures step { (g : Graph) (t : ℕ) (command : Command) (a : Name)
        → has_name g a ≡ true → has_name (step g t command).0 a ≡ true }
    ensures step_shape { (g : Graph) (t : ℕ) (command : Command) (a : Name)
        → has_name g a ≡ true → SameShape (object_of g a) (object_of (step g t command).0 a) }
    ensures replay { (g : Graph) (h : List HistoryItem) (a : Name)
        → has_name g a ≡ true → has_name (replay_from g h) a ≡ true }
    ensures replay_shape { (g : Graph) (h : List HistoryItem) (a : Name)
        → has_name g a ≡ true → SameShape (object_of g a) (object_of (replay_from g h) a) }
{}

/// What can be reached after a step could be reached before, or is the object that the step made.
/// After each history every reference is to an object, and so is what can be reached.
pub fn reach_grows_by_new_objects()
    ensures step { (g : Graph) (t : ℕ) (command : Command) (a : Name)
        → reachable (step g t command).0 a ≡ true
        → (reachable g a ≡ true) ⊎ ((makes_object command ≡ true) × (a ≡ next_name g t)) }
    ensures references { (c : Config) (h : List HistoryItem)
        → IsClosed (replay c h) (has_name (replay c h)) }
    ensures objects { (c : Config) (h : List HistoryItem) (a : Name)
        → reachable (replay c h) a ≡ true → has_name (replay c h) a ≡ true }
{}

/// No step answers with a full, and the commands that make an object are those that have blocks.
pub fn steps_answer()
    ensures full { (g : Graph) (t : ℕ) (command : Command) → is_full (step g t command).1 ≡ false }
    ensures makers { (w : Width) (command : Command)
        → makes_object command ≡ true → 0 < blocks_of w command }
    ensures others { (w : Width) (command : Command)
        → makes_object command ≡ false → blocks_of w command ≡ 0 }
{}
