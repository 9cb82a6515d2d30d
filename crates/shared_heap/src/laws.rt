//! Laws of a shared heap that no single call can state. Each is the contract of a function that
//! does nothing.

ghost use Rattle.std.specs.Prelude.{◌≡◌, ◌≤◌, ◌^◌, ◌⊎◌, ◌++◌, ◌∷◌, [], ℕ, List};
ghost use mathlib.Core.Option.{some};
ghost use lib.ListN.{get_elem?};
ghost use Rattle.atomic_table.specs.Table as table;
ghost use Rattle.never_heap.specs.declared.Command.{Command};
ghost use Rattle.never_heap.specs.declared.Entry.{Entry};
ghost use Rattle.never_heap.specs.declared.Reply.{Reply};
ghost use Rattle.never_heap.specs.Bounds.{IsCommandInBounds};
ghost use Rattle.never_heap.specs.Histories.{HistoryItem};
ghost use Rattle.heap_system.specs.Systems.{Whole};
ghost use Rattle.shared_heap.specs.declared.rules.ThreadView.{ThreadView};
ghost use Rattle.shared_heap.specs.declared.rules.Moment.{Moment};
ghost use Rattle.shared_heap.specs.declared.rules.Moment.TheVariants as moments;
ghost use Rattle.shared_heap.specs.declared.rules.View.{View};
ghost use Rattle.shared_heap.specs.Shared.{IsStartOf, SharedKept, history_of, one_view, stamps_in};
ghost use Rattle.shared_heap.specs.RealTime.{PrecedesLaterCommands, IsSeatOf, HadSeen};
ghost use Rattle.shared_heap.specs.Workers.{HasAnswered, HasRoom, HasSeenIts, WorkerState};
ghost use Rattle.shared_heap.specs.Stamps.{HasDrawn};
ghost use Rattle.shared_heap.specs.EntryPlaces.{StandsBehind, StandsBehindAll};
ghost use Rattle.shared_heap.specs.Prefixes.{FitsOneHistory, AllAreDone, EndsInTime};

/// Wherever the rule of the table holds, and so between any two steps of any threads, the replies
/// of all workers so far fit one history. It is legal and licensed, and each entry has the work
/// that its command owes. The part of each thread is the entries of its finished commands, and
/// while it executes a command at most one entry more, of that command; there are no other entries.
/// The history is the order of the run of the rule.
pub fn what_was_answered_fits_one_history()
    ensures { (k : Whole) (s : table.State Command View) → (kept : SharedKept k s)
        → (fits : FitsOneHistory k.config s) × (fits.order ≡ kept.run.order) }
{}

/// Real-time order, of two states of one table, in which the rule holds: what a worker had seen in
/// the first comes before the entries of all commands that were invoked after it. A command that
/// has returned is in what its worker has seen (`HasAnswered`). So it comes before each command
/// that is invoked later.
///
/// A seat's step appends to what its worker has seen, and no other step changes that. So a worker
/// that has seen `p` in the first state has seen it in each later one.
pub fn what_was_seen_comes_before_what_is_invoked_later()
    ensures { (k : Whole) (s later : table.State Command View) (now : SharedKept k s)
        (then : SharedKept k later) (p : List Moment) → HadSeen s p → HadSeen later p
        → (h : ThreadView) → IsSeatOf s h → PrecedesLaterCommands p h then.run.order }
{}

/// Real-time order, of commands of a heap that was closed, by `close` or `close_some`, with this
/// timeline and history. If a command was invoked after all that some worker had seen, then its
/// entry comes after all of that (`after`). Of two commands, either the second was invoked after
/// all that the worker of the first had seen when the first returned, its entry included; or the
/// invocation of the second is in what that worker had seen then, so that it was invoked before
/// the first returned (`either`).
pub fn commands_keep_real_time()
    ensures after { (timeline : List Moment) (order : List HistoryItem)
        → order ≡ history_of timeline → (v x y : WorkerState) (m : Command) (b : Reply)
        (did : HasAnswered x m b y) → HasSeenIts v → IsStartOf y.timeline timeline
        → IsStartOf v.timeline did.past → StandsBehind v.seen x.thread.log did.entry order }
    ensures either { (timeline : List Moment) (u v x y : WorkerState) (k m : Command)
        (a b : Reply) (first : HasAnswered u k a v) (second : HasAnswered x m b y)
        → IsStartOf v.timeline timeline → IsStartOf y.timeline timeline
        → IsStartOf v.timeline second.past
        ⊎ IsStartOf (second.past ++ moments.Invoked x.thread.thread m ∷ []) v.timeline }
{}

/// Of two stamps of one heap, the worker of the one that is no less had seen all that the other had
/// seen when it drew its own: the timeline that the first had seen is a prefix of what the second
/// had. So the commands that the second worker executed from then on come after all of that
/// (`commands_keep_real_time`, `after`). The timeline is that of the heap, as `close` and
/// `close_some` have it.
///
/// Or 2^64 stamps were drawn, so that the numbers began again. No clause bounds how many are drawn,
/// so a program can't exclude this case; at one each nanosecond it takes 584 years.
pub fn stamps_are_in_order()
    ensures { (timeline : List Moment) (u v x y : WorkerState) (n m : ℕ) → HasDrawn u n v
        → HasDrawn x m y → n ≤ m → IsStartOf v.timeline timeline → IsStartOf y.timeline timeline
        → IsStartOf v.timeline y.timeline ⊎ (2 ^ 64 ≤ stamps_in timeline) }
{}

/// Suppose that the rule of the table holds and that every thread has finished its commands. Then
/// a command given to one thread, which then runs alone, ends within the bounds of a heap with a
/// single thread: `command_bound` turns, and `command_near` turns.
pub fn commands_alone_end_in_time()
    ensures { (k : Whole) (s : table.State Command View) (kept : SharedKept k s) → AllAreDone s
        → (id : ℕ) (h : ThreadView) (ns : List (List Moment)) (m : Command)
        → get_elem? s.views id ≡ some (one_view h ns)
        → IsCommandInBounds h.local.config m → HasRoom h.local m
        → EndsInTime k.config h.local.thread m kept.run }
{}

/// In the history that a worker has seen after a command, the command's entry comes after
/// everything that the worker had seen before it (`seen`), and after everything in the notes that
/// it had learned (`noted`). The same holds in each longer history (`still`), such as the one of
/// the closed heap. The entry is known by its place: before it the worker's thread has the entries
/// of its earlier commands, and no others.
pub fn commands_stand_behind_what_was_seen()
    ensures seen { (old new : WorkerState) (k : Command) (a : Reply)
        (is : HasAnswered old k a new)
        → StandsBehind old.seen old.thread.log is.entry new.seen }
    ensures noted { (old new : WorkerState) (k : Command) (a : Reply)
        (is : HasAnswered old k a new)
        → StandsBehindAll old.notes old.thread.log is.entry new.seen }
    ensures still { (first h order : List HistoryItem) (log : List Entry) (e : Entry)
        → StandsBehind first log e h → IsStartOf h order → StandsBehind first log e order }
{}
