//! What a seat of the table knows, and the rule that each step keeps.

ghost use Rattle.std.specs.Prelude.{◌≡◌, [], ◌∷◌, ◌++◌};
ghost use Rattle.atom_board.specs.Boards.{BoardKept, first_view, moves_on, first_of, rest_of, joined, no_view};

use atomic_table::{Join, Play, Split, TableRule};
use heap_system::{Local, System};
use std::collections::LinkedList;

/// A thread, and how many turns it has made. No value of it is made.
pub struct ThreadView {
    /// The thread.
    pub local: Local,
    /// Its turns, of which there may be any number.
    pub turns: u64,
}

/// The threads that a seat has. No value of it is made.
pub struct View {
    /// One for a mutator's seat.
    pub locals: LinkedList<ThreadView>,
}

/// The words, and the threads of all seats, are the state after some list of turns.
pub struct Law {}

impl TableRule<(), View, System> for Law {
    ghost holds = { BoardKept };

    ghost first = { first_view };
}

/// A turn of a seat's thread.
pub struct Turned {}

impl Play<(), View> for Turned {
    ghost then = { λ s me found after. moves_on me found after };
}

/// One thread goes to a new seat.
pub struct SplitView {}

impl Split<View> for SplitView {
    ghost left = { rest_of };

    ghost right = { first_of };
}

/// A seat takes the threads of another.
pub struct JoinViews {}

impl Join<View> for JoinViews {
    ghost both = { joined };

    ghost spent = { no_view };
}
