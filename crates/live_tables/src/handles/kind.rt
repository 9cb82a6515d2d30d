//! Handles in slots as a kind of tables.

use crate::handles::commands::{made_next, objects_in, slots_next};
use crate::handles::request::HandleRequest;
use crate::kind::Table;
use crate::table::{LiveTable, TableNote};
use crate::worker::TableWorker;
use std::marker::Model;

/// The kind of tables that are slots for handles. A slot is empty, or keeps a handle to an object
/// with a number below 2^62. The handle has the id t · 2^20 + k if it is of make k of thread t,
/// counted from 1.
#[derive(Drop)]
pub struct Handles;

/// Slots for handles, which workers use concurrently.
pub type LiveHandles = LiveTable<Handles>;

/// One thread of the slots, between two requests. In memory it has its last command, how many
/// handles it made, and the slots of its eight handles.
pub type HandleWorker = TableWorker<Handles>;

/// How much of the slots' history a worker had seen when the note was made.
pub type HandleNote = TableNote;

/// What a worker keeps of its handles.
#[derive(Clone, Copy)]
pub struct Held {
    // How many it made.
    pub(crate) made: u64,
    // The slot of the last make of each.
    pub(crate) slots: [Option<u32>; 8],
}

/// A deed as contracts see it. No program has one.
#[derive(Drop)]
pub struct HandleDeed {
    _none: (),
}

impl Model for HandleDeed {
    ghost use Rattle.array_tables.specs.handle_table.Handles.{Deed, Take};

    ghost Value = { Deed };

    ghost view = { λ _. Take 0 };
}

/// The answer of a deed as contracts see it. No program has one.
#[derive(Drop)]
pub struct HandleAnswer {
    _none: (),
}

impl Model for HandleAnswer {
    ghost use Rattle.std.specs.Prelude.{true};
    ghost use Rattle.array_tables.specs.handle_table.Handles.{Answer, Matched};

    ghost Value = { Answer };

    ghost view = { λ _. Matched true };
}

impl Table for Handles {
    ghost use Rattle.std.specs.Prelude.{List};
    ghost use Rattle.array_tables.specs.handle_table.Handles.{Row, Slot};
    ghost use Rattle.live_tables.specs.handles.Kept.{Keeps};
    ghost use Rattle.live_tables.specs.handles.Live.{deed_of, handles};

    type Operation = HandleDeed;

    type Answer = HandleAnswer;

    type Request = HandleRequest;

    type Own = Held;

    ghost Row = { Row };

    ghost Plain = { List Slot };

    ghost rows = { handles };

    ghost operation_of = { deed_of };

    ghost HasShape = { λ c. Unit {0} };

    ghost Keeps = { Keeps };

    fn start() -> Held {
        Held {
            made: 0,
            slots: [None; 8],
        }
    }

    fn objects_in(request: &HandleRequest) -> u64 {
        objects_in(request)
    }

    fn next(held: Held, request: &HandleRequest) -> Held {
        let made = made_next(held.made, request);
        let slots = slots_next(held.slots, request);
        Held { made, slots }
    }

    fn is_lawful() {}
}
