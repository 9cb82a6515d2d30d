//! Laws of the rows on the rules of the heap, for the proofs above: each is the contract of a
//! function that does nothing.

ghost use Rattle.std.specs.Prelude.{◌≡◌, ℕ, IsSome, None, Some, if◌then◌else◌, List, true};
ghost use Rattle.block_store.specs.declared.Config.{Config};
ghost use Rattle.block_store.specs.Colours.{is_grey};
ghost use Rattle.block_store.specs.Counts.{changed};
ghost use Rattle.block_store.specs.Heaps.{Heap};
ghost use Rattle.block_store.specs.Payloads.{target};
ghost use Rattle.block_store.specs.Phases.{is_sweep, cycle_of};
ghost use Rattle.block_store.specs.Places.{Extent, extent, Phase, Cursor, ColourOf};
ghost use Rattle.never_heap.specs.declared.Command.{Command};
ghost use Rattle.never_heap.specs.Graphs.{Graph};
ghost use Rattle.never_heap.specs.Histories.{HistoryItem};
ghost use Rattle.heap_invariant.specs.name_invariant.Invariant.{Invariant};
ghost use Rattle.heap_invariant.specs.name_invariant.Pictures.{Task, Names, picture};
ghost use Rattle.heap_machine.specs.WorkInHand.{WorkInHand, holds_nothing, sweep_held};
ghost use Rattle.heap_machine.specs.Operations.{place_of, heap_after};
ghost use Rattle.heap_machine.specs.PhaseKept.{PhaseKept};
ghost use Rattle.heap_machine.specs.Readings.{IsHeld};
ghost use Rattle.heap_machine.specs.Solid.{NotFree};
ghost use Rattle.heap_machine.specs.Sweeping.{no_claim};
ghost use Rattle.heap_machine.specs.declared.pass.Pass.{Pass};
ghost use Rattle.barrier_steps.specs.Rows.{FieldState, at_first_row, word_stored, field_want, field_got, field_reply, field_in_hand};
ghost use Rattle.barrier_steps.specs.Fits.{FieldFits, FieldReads};
ghost use Rattle.barrier_steps.specs.Decided.{field_task, graph_on, order_on};
ghost use Rattle.barrier_steps.specs.Deciding.{is_deciding};
ghost use Rattle.barrier_steps.specs.Replies.{answer, reply_due, IsKnown};

/// In the phase and cycle of its pass each event keeps all that a heap keeps in either phase, while
/// the other threads hold what they held, where the block to which it stores a reference is not
/// Free. A command begins and ends with nothing in hand. Each word stays one that its place can
/// hold.
pub fn rows_keep_the_heap()
    ensures kept { (c : Config) (h : Heap) (hs : ℕ → WorkInHand) (f : FieldState) → FieldFits c f
        → FieldReads c f (h (place_of (field_want (extent c) f)))
        → is_sweep (h Phase) ≡ f.pass.sweep → cycle_of (h Phase) ≡ f.pass.cycle
        → NotFree (λ x. h (ColourOf x)) (target (word_stored f.row))
        → PhaseKept (extent c) h hs → hs f.pass.thread ≡ field_in_hand (extent c) f
        → PhaseKept (extent c) (heap_after h (field_want (extent c) f))
        (changed hs f.pass.thread (field_in_hand (extent c)
        (field_got (extent c) f (h (place_of (field_want (extent c) f)))))) }
    ensures first { (e : Extent) (p : Pass) (k : Command)
        → field_in_hand e (at_first_row p k) ≡ holds_nothing }
    ensures over { (e : Extent) (f : FieldState) → IsSome (field_reply f.row)
        → field_in_hand e f ≡ holds_nothing }
    ensures words { (c : Config) (h : Heap) (f : FieldState) → FieldFits c f → IsHeld c h
        → IsHeld c (heap_after h (field_want (extent c) f)) }
{}

/// In the phase and cycle of its pass each event keeps what is kept of the names, where the
/// thread's task is its row's, and then the next row's. At the linearization point the graph makes
/// the command's step and the order gets its entry; else both stay. The block to which a loaded
/// reference is to be stored is not Free. From the linearization point on the step's answer is due.
/// Each event reads what it may read, where each word is one that its place can hold.
pub fn rows_keep_the_names()
    ensures kept { (c : Config) (g : Graph) (order : List HistoryItem) (h : Heap) (names : Names)
        (tasks : ℕ → Task) (f : FieldState) → FieldFits c f → field_reply f.row ≡ None
        → is_sweep (h Phase) ≡ f.pass.sweep → cycle_of (h Phase) ≡ f.pass.cycle
        → tasks f.pass.thread ≡ field_task (extent c) f
        → Invariant c (picture g order h names tasks)
        → Invariant c (picture (graph_on g f (h (place_of (field_want (extent c) f))))
        (order_on g order f (h (place_of (field_want (extent c) f))))
        (heap_after h (field_want (extent c) f)) names
        (changed tasks f.pass.thread (field_task (extent c)
        (field_got (extent c) f (h (place_of (field_want (extent c) f))))))) }
    ensures solid { (c : Config) (g : Graph) (order : List HistoryItem) (h : Heap) (names : Names)
        (tasks : ℕ → Task) (f : FieldState) → FieldFits c f
        → tasks f.pass.thread ≡ field_task (extent c) f
        → Invariant c (picture g order h names tasks)
        → NotFree (λ x. h (ColourOf x)) (target (word_stored f.row)) }
    ensures due { (c : Config) (g : Graph) (order : List HistoryItem) (h : Heap) (names : Names)
        (tasks : ℕ → Task) (f : FieldState) → FieldFits c f
        → tasks f.pass.thread ≡ field_task (extent c) f
        → Invariant c (picture g order h names tasks) → IsKnown g f
        → (reply_due (graph_on g f (h (place_of (field_want (extent c) f))))
        (field_got (extent c) f (h (place_of (field_want (extent c) f))))
        ≡ (if is_deciding f.command f.row (h (place_of (field_want (extent c) f)))
        then Some (answer g f.pass.thread f.command) else reply_due g f))
        × IsKnown (graph_on g f (h (place_of (field_want (extent c) f))))
        (field_got (extent c) f (h (place_of (field_want (extent c) f)))) }
    ensures reads { (c : Config) (g : Graph) (order : List HistoryItem) (h : Heap) (names : Names)
        (tasks : ℕ → Task) (f : FieldState) → FieldFits c f
        → tasks f.pass.thread ≡ field_task (extent c) f
        → Invariant c (picture g order h names tasks) → IsHeld c h → field_reply f.row ≡ None
        → FieldReads c f (h (place_of (field_want (extent c) f))) }
{}

/// No event changes the phase word or the sweep's cursor, or makes a grey block black. A command
/// scans nothing, and has claimed nothing.
pub fn rows_leave_the_gate()
    ensures phase { (c : Config) (h : Heap) (f : FieldState)
        → heap_after h (field_want (extent c) f) Phase ≡ h Phase }
    ensures cursor { (c : Config) (h : Heap) (f : FieldState)
        → heap_after h (field_want (extent c) f) Cursor ≡ h Cursor }
    ensures grey { (c : Config) (h : Heap) (f : FieldState) (x : ℕ) → FieldFits c f
        → is_grey (h (ColourOf x)) ≡ true
        → heap_after h (field_want (extent c) f) (ColourOf x) ≡ h (ColourOf x) }
    ensures scans { (c : Config) (f : FieldState) → FieldFits c f
        → (field_in_hand (extent c) f).found ≡ 0 }
    ensures claims { (c : Config) (f : FieldState)
        → sweep_held (field_in_hand (extent c) f) ≡ no_claim }
{}
