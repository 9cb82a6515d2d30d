//! Laws of the rows, for the proofs above: each is the contract of a function that does nothing.

ghost use Rattle.std.specs.Prelude.{◌≡◌, ◌<◌, ◌||◌, ℕ, ◌≤◌, Bool, true, false, if◌then◌else◌, None, Some, IsSome, IfSome};
ghost use Rattle.block_store.specs.declared.Config.{Config};
ghost use Rattle.block_store.specs.declared.Name.{Name};
ghost use Rattle.block_store.specs.declared.Shape.{Shape};
ghost use Rattle.block_store.specs.declared.Width.{Width};
ghost use Rattle.block_store.specs.Heaps.{Heap};
ghost use Rattle.block_store.specs.Places.{extent, in_range};
ghost use Rattle.object_lists.specs.Layouts.{IsWay};
ghost use Rattle.never_heap.specs.declared.Command.{Command};
ghost use Rattle.never_heap.specs.declared.Reply.{Reply};
ghost use Rattle.never_heap.specs.declared.Reply.TheVariants as replies;
ghost use Rattle.never_heap.specs.Graphs.{Graph};
ghost use Rattle.never_heap.specs.Bounds.{IsCommandInRange};
ghost use Rattle.never_heap.specs.Steps.{blocks_of};
ghost use Rattle.heap_invariant.specs.graph_relation.Layouts.{shape_part};
ghost use Rattle.heap_invariant.specs.graph_relation.Words.{block_words};
ghost use Rattle.heap_invariant.specs.graph_relation.GraphOfWords.{heads, named, IsSized};
ghost use Rattle.heap_invariant.specs.graph_relation.Events.{GraphState, Follows, Guard, with_load};
ghost use Rattle.heap_machine.specs.Operations.{place_of, heap_after, Fits};
ghost use Rattle.heap_machine.specs.Readings.{StoresHeld, IsHeld};
ghost use Rattle.heap_machine.specs.declared.pass.Pass.{Pass};
ghost use Rattle.barrier_steps.specs.declared.rows.FieldRow.{FieldRow};
ghost use Rattle.barrier_steps.specs.Walks.{shape_length, links_to, link_at, field_at, ordinal_at};
ghost use Rattle.barrier_steps.specs.Rows.{FieldState, reads_beside_graph, first_row, at_first_row, field_want, field_got, field_reply, field_decided};
ghost use Rattle.barrier_steps.specs.Fits.{IsThread, FieldFits, FieldReads, is_row_of};
ghost use Rattle.barrier_steps.specs.Deciding.{is_deciding};
ghost use Rattle.barrier_steps.specs.Replies.{answer, graph_after, Shown, Promises, NameShown, ShowsRegister, reply_due, IsKnown};
ghost use Rattle.barrier_steps.specs.Projection.{loading_of, event_of, after_event, IsAtRow, IsInHand};

/// The links that a thread follows lead to the field, in a record and in an array.
pub fn ways_lead_to_fields()
    ensures { (c : Config) (f : Shape) (i : ℕ) → i < shape_length f
        → IsWay (shape_part c.width f) i (links_to (extent c) f i) (field_at (extent c) f i)
        (ordinal_at (extent c) f i) (link_at (extent c) f i) }
{}

/// The first row of a command fits its heap, and a row that fits becomes one that fits. Such a row
/// wants a place of the heap, adds and takes away nothing, and stores what the place can hold.
pub fn rows_stay_in_the_heap()
    ensures first { (c : Config) (p : Pass) (k : Command) → IsThread c p.thread
        → p.threads ≡ c.threads → c.blocks ≤ 65535 → IsCommandInRange k
        → FieldFits c (at_first_row p k) }
    ensures next { (c : Config) (f : FieldState) (w : ℕ) → FieldFits c f → FieldReads c f w
        → FieldFits c (field_got (extent c) f w) }
    ensures place { (c : Config) (f : FieldState) → FieldFits c f
        → in_range (extent c) (place_of (field_want (extent c) f)) ≡ true }
    ensures sum { (c : Config) (f : FieldState) (w : ℕ) → Fits (field_want (extent c) f) w }
    ensures stores { (c : Config) (f : FieldState) → FieldFits c f
        → StoresHeld c (field_want (extent c) f) }
{}

/// A part is decided exactly after its linearization point, of which there is one at most, and it
/// has a reply only after it. That never says that an object was made.
pub fn rows_decide_once()
    ensures first { (w : Width) (k : Command) → blocks_of w k ≡ 0
        → field_decided (first_row k) ≡ false }
    ensures after { (c : Config) (f : FieldState) (w : ℕ)
        → field_decided (field_got (extent c) f w).row
        ≡ (field_decided f.row || is_deciding f.command f.row w) }
    ensures once { (f : FieldState) (w : ℕ) → field_decided f.row ≡ true
        → is_deciding f.command f.row w ≡ false }
    ensures reply { (row : FieldRow) → IsSome (field_reply row) → field_decided row ≡ true }
    ensures made { (c : Config) (f : FieldState) (w : ℕ) (n : Name) → field_reply f.row ≡ None
        → field_reply (field_got (extent c) f w).row ≡ Some (replies.New n) → ⊥ }
{}

/// At the linearization point the command answers what its step does on the graph of which the
/// words that were read are, and that reply is given at the end, whatever becomes of the graph,
/// where the name of the object that it refers to is read.
pub fn rows_answer_as_steps()
    ensures decided { (c : Config) (head : Name → ℕ) (g : Graph) (f : FieldState) (w : ℕ)
        → is_row_of c f.pass f.command f.row ≡ true → is_deciding f.command f.row w ≡ true
        → Shown head g f w
        → Promises head (field_got (extent c) f w).row (answer g f.pass.thread f.command) }
    ensures kept { (c : Config) (head : Name → ℕ) (f : FieldState) (w : ℕ) (reply : Reply)
        → Promises head f.row reply → NameShown head f.row reply w
        → Promises head (field_got (extent c) f w).row reply }
    ensures given { (head : Name → ℕ) (row : FieldRow) (q reply : Reply)
        → field_reply row ≡ Some q → Promises head row reply → q ≡ reply }
{}

/// Each row is its event on the graph and its words: the words are those that the operation leaves,
/// what the thread has loaded is what the next row has, the graph makes the command's step at the
/// linearization point and else stays, and the event may come where it does.
pub fn rows_are_events()
    ensures words { (c : Config) (h : Heap) (s : GraphState) (a : Name) (f : FieldState) (w : ℕ)
        → IsAtRow (extent c) s h f w
        → (after_event (extent c) s (event_of (extent c) a f w)).words
        ≡ block_words (heap_after h (field_want (extent c) f)) }
    ensures loads { (c : Config) (h : Heap) (s : GraphState) (a : Name) (f : FieldState) (w : ℕ)
        → FieldFits c f → FieldReads c f w → IsAtRow (extent c) s h f w
        → (u : ℕ) → (after_event (extent c) s (event_of (extent c) a f w)).loads u
        ≡ with_load s.loads f.pass.thread (loading_of (extent c) (field_got (extent c) f w)) u }
    ensures stays { (c : Config) (s : GraphState) (a : Name) (f : FieldState) (w : ℕ)
        → is_deciding f.command f.row w ≡ false
        → (after_event (extent c) s (event_of (extent c) a f w)).graph ≡ s.graph }
    ensures steps { (c : Config) (head : Name
        → ℕ) (s : GraphState) (a : Name) (f : FieldState) (w : ℕ)
        → is_row_of c f.pass f.command f.row ≡ true → is_deciding f.command f.row w ≡ true
        → Shown head s.graph f w
        → s.loads f.pass.thread ≡ loading_of (extent c) f → IsInHand s a f
        → (after_event (extent c) s (event_of (extent c) a f w)).graph
        ≡ graph_after s.graph f.pass.thread f.command }
    ensures guarded { (c : Config) (h : Heap) (s : GraphState) (a : Name) (f : FieldState) (w : ℕ)
        → FieldFits c f → FieldReads c f w → IsAtRow (extent c) s h f w → IsInHand s a f
        → IfSome (event_of (extent c) a f w) (Guard c.width c.threads s) }
{}

/// Where the words show the graph and the thread has loaded what its row names, the row reads words
/// that its places can hold, and these are what the graph says, the name of a reply's object among
/// them: all but those of the write barrier and the look of `idle`, which the graph does not show.
/// From the linearization point on the reply that is due is the step's answer.
pub fn rows_read_the_graph()
    ensures reads { (c : Config) (m : ℕ) (kept : Name → Bool) (at : Name → ℕ
        → ℕ) (s : GraphState) (h : Heap)
        (f : FieldState) (w : ℕ) → c.blocks ≤ 65535 → m ≤ c.blocks
        → Follows c.width c.threads m (named kept) at s → FieldFits c f → IsAtRow (extent c) s h f w
        → (reads_beside_graph f.row ≡ true → IsHeld c h) → field_reply f.row ≡ None
        → FieldReads c f w }
    ensures shown { (c : Config) (m : ℕ) (kept : Name → Bool) (at : Name → ℕ
        → ℕ) (s : GraphState) (h : Heap)
        (f : FieldState) (w : ℕ) → c.blocks ≤ 65535 → m ≤ c.blocks
        → Follows c.width c.threads m (named kept) at s → FieldFits c f → IsAtRow (extent c) s h f w
        → Shown (heads at) s.graph f w }
    ensures register { (c : Config) (head : Name
        → ℕ) (s : GraphState) (a : Name) (f : FieldState) (w : ℕ)
        → IsSized c.threads s.graph → FieldFits c f → Shown head s.graph f w
        → s.loads f.pass.thread ≡ loading_of (extent c) f → IsInHand s a f
        → is_deciding f.command f.row w ≡ true
        → ShowsRegister (after_event (extent c) s (event_of (extent c) a f w)).graph
        (field_got (extent c) f w)
        (answer s.graph f.pass.thread f.command) }
    ensures name { (c : Config) (m : ℕ) (kept : Name → Bool) (at : Name → ℕ
        → ℕ) (s : GraphState) (h : Heap)
        (f : FieldState) (w : ℕ) (reply : Reply) → c.blocks ≤ 65535 → m ≤ c.blocks
        → Follows c.width c.threads m (named kept) at s → FieldFits c f → IsAtRow (extent c) s h f w
        → ShowsRegister s.graph f reply → NameShown (heads at) f.row reply w }
    ensures due { (c : Config) (m : ℕ) (kept : Name → Bool) (at : Name → ℕ
        → ℕ) (s : GraphState) (h : Heap)
        (a : Name) (f : FieldState) (w : ℕ) → c.blocks ≤ 65535 → m ≤ c.blocks
        → Follows c.width c.threads m (named kept) at s → FieldFits c f → IsAtRow (extent c) s h f w
        → IsInHand s a f → IsKnown s.graph f
        → reply_due (after_event (extent c) s (event_of (extent c) a f w)).graph
        (field_got (extent c) f w)
        ≡ (if is_deciding f.command f.row w
        then Some (answer s.graph f.pass.thread f.command) else reply_due s.graph f) }
    ensures known { (c : Config) (m : ℕ) (kept : Name → Bool) (at : Name → ℕ
        → ℕ) (s : GraphState) (h : Heap)
        (a : Name) (f : FieldState) (w : ℕ) → c.blocks ≤ 65535 → m ≤ c.blocks
        → Follows c.width c.threads m (named kept) at s → FieldFits c f → IsAtRow (extent c) s h f w
        → IsInHand s a f → IsKnown s.graph f
        → IsKnown (after_event (extent c) s (event_of (extent c) a f w)).graph
        (field_got (extent c) f w) }
{}
