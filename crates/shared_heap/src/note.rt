//! Notes: how much of a heap's history a worker had seen, to pass to another worker.

ghost use Rattle.std.specs.Prelude.{◌≡◌};

use crate::rules::View;
use atomic_table::Seat;
use never_heap::Command;
use std::marker::Model;

/// How much of a heap's history a worker had seen when the note was made. It has no bytes.
///
/// A thread passes a note on together with its data. Each command that a worker executes after it
/// learned the note comes, in the history, after everything that the note covers.
#[derive(Drop)]
pub struct Note {
    pub(crate) seat: Seat<Command, View>,
}

impl Model for Note {
    ghost use Rattle.shared_heap.specs.Shared.{history_of};
    ghost use Rattle.shared_heap.specs.Workers.{NoteState, IsNote, note_in};

    ghost Value = { NoteState };

    ghost view = { λ n. record {
      heap = n.seat.table_id;
      seen = history_of (note_in n.seat.me.0.notes);
    } };

    ghost invariant = { λ n. IsNote n.seat.me };
}
