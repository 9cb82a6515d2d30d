//! What a seat of the table knows, and the rule that each step keeps.

ghost use Rattle.shared_heap.specs.Shared.{Draws, SharedKept, StepsOn, first_view, gives_on, first_of, rest_of, joined, no_view, noted_of, same_view};

use atomic_table::{Join, Play, Split, TableRule};
use heap_system::{Local, System};
use never_heap::{Command, Entry};
use std::collections::LinkedList;

/// An item of a timeline: the start of a cycle, the invocation of a command, its entry, or a stamp.
/// It is used in proofs only.
pub enum Moment {
    /// A cycle of collection began.
    Began,
    /// A command of a thread was invoked.
    Invoked(u32, Command),
    /// A worker drew a stamp.
    Stamped,
    /// A command took effect, with this entry.
    TookEffect(Entry),
}

/// The turns of a thread's last command. It is used in proofs only.
pub struct Span {
    /// The phase word when the command was announced.
    pub phase: u64,
    /// How many turns the run had then.
    pub first: u64,
    /// How many turns it had after the thread's last step.
    pub last: u64,
    /// How many of them, after the first ones, were the thread's own.
    pub own: u64,
}

/// A command that was announced, and the worker as it was before. It is used in proofs only.
pub struct Call {
    /// The command.
    pub command: Command,
    /// The worker's thread before the command.
    pub local: Local,
    /// The timeline that the worker had seen.
    pub seen: LinkedList<Moment>,
    /// The notes that it had learned.
    pub notes: LinkedList<LinkedList<Moment>>,
    /// The turns of its command before.
    pub span: Span,
    /// The timeline before the command was invoked.
    pub start: LinkedList<Moment>,
}

/// What the seat of a thread knows beyond the thread. It is used in proofs only.
pub struct SeenHistory {
    /// The timeline up to the thread's last step.
    pub seen: LinkedList<Moment>,
    /// The turns of its last command.
    pub span: Span,
    /// Its last command.
    pub call: Call,
}

/// A thread with all of its commands and the entries of those that are finished, and what its seat
/// knows of the run. It is used in proofs only.
pub struct ThreadView {
    /// The thread.
    pub local: Local,
    /// What its seat knows.
    pub past: SeenHistory,
}

/// What a seat knows: its threads, and what it has learned from notes. It is used in proofs only.
pub struct View {
    /// One for the seat of a worker, and none for the seat of a note.
    pub threads: LinkedList<ThreadView>,
    /// Timelines that other workers had seen. The seat of a note has one.
    pub notes: LinkedList<LinkedList<Moment>>,
}

/// The rule of the table: its words and the threads of all seats are those of a run of some job,
/// the order of that run and the invocations of all commands have one timeline, and what each seat
/// has seen is a prefix of it.
pub struct Law {}

impl TableRule<Command, View, System> for Law {
    ghost holds = { SharedKept };

    ghost first = { first_view };
}

/// An event of a seat's thread.
pub struct Turned {}

impl Play<Command, View> for Turned {
    ghost then = { λ s me found after. StepsOn me found after };
}

/// The command that the step announces is appended to the trace of the seat's thread, and its
/// invocation to the timeline.
pub struct Announced {}

impl Play<Command, View> for Announced {
    ghost then = { λ s me found after. gives_on s.said found me after };
}

/// A stamp is appended to the timeline, and the seat's thread has seen it.
pub struct Drawn {}

impl Play<Command, View> for Drawn {
    ghost then = { λ s me found after. Draws found me after };
}

/// One thread moves to a new seat.
pub struct SplitView {}

impl Split<View> for SplitView {
    ghost left = { rest_of };

    ghost right = { first_of };
}

/// A new seat notes what the thread has seen.
pub struct NoteView {}

impl Split<View> for NoteView {
    ghost left = { same_view };

    ghost right = { noted_of };
}

/// A seat takes over the threads and the notes of another.
pub struct JoinViews {}

impl Join<View> for JoinViews {
    ghost both = { joined };

    ghost spent = { no_view };
}
