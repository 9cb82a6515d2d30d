//! Rings as a kind of tables.

use crate::kind::Table;
use crate::rings::commands::{kept_next, objects_in};
use crate::rings::request::RingRequest;
use crate::table::{LiveTable, TableNote};
use crate::worker::TableWorker;
use std::marker::Model;

/// The kind of tables that are rings of eight places, one for each thread. A thread keeps numbers
/// below 2^62 in its own ring, and recalls those of any ring.
#[derive(Drop)]
pub struct Rings;

/// Rings that workers use concurrently.
pub type LiveRings = LiveTable<Rings>;

/// One thread of rings, between two requests. In memory it has its last command, and how many
/// numbers it kept.
pub type RingWorker = TableWorker<Rings>;

/// How much of the rings' history a worker had seen when the note was made.
pub type RingNote = TableNote;

/// An operation on rings as contracts see it. No program has one.
#[derive(Drop)]
pub struct RingOperation {
    _none: (),
}

impl Model for RingOperation {
    ghost use Rattle.array_tables.specs.number_rings.Rings.{Operation, Recall};

    ghost Value = { Operation };

    ghost view = { λ _. Recall 0 };
}

impl Table for Rings {
    ghost use Rattle.array_tables.specs.number_rings.Rings.{Cell, Row};
    ghost use Rattle.std.specs.Prelude.{List};
    ghost use Rattle.live_tables.specs.rings.Live.{AreOfEight, Keeps, operation_of, rings};

    type Operation = RingOperation;

    type Answer = Option<u64>;

    type Request = RingRequest;

    type Own = u64;

    ghost Row = { Row };

    ghost Plain = { List Cell };

    ghost rows = { rings };

    ghost operation_of = { operation_of };

    ghost HasShape = { AreOfEight };

    ghost Keeps = { Keeps };

    fn start() -> u64 {
        0
    }

    fn objects_in(request: &RingRequest) -> u64 {
        objects_in(request)
    }

    fn next(kept: u64, request: &RingRequest) -> u64 {
        kept_next(kept, request)
    }

    fn is_lawful() {}
}
