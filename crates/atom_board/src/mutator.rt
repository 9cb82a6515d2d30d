//! One thread of a board.

ghost use Rattle.std.specs.Prelude.{◌≡◌};
ghost use Rattle.heap_system.specs.Locals.{is_done, is_rest};
ghost use Rattle.atom_board.specs.Mutators.{HasFewTurns};

use crate::port::Port;
use heap_system::Local;
use never_heap::Entry;
use std::marker::Model;

/// One thread of a board, with its seat at the table.
#[derive(Drop)]
pub struct Mutator {
    pub(crate) port: Port,
    pub(crate) local: Local,
}

impl Model for Mutator {
    ghost use Rattle.std.specs.Prelude.{◌≡◌, []};
    ghost use Rattle.block_store.specs.Places.{extent, words_count};
    ghost use Rattle.atom_board.specs.Boards.{one_view, turns_in};
    ghost use Rattle.atom_board.specs.LoneTurns.{EndsAlone};
    ghost use Rattle.atom_board.specs.Mutators.{MutatorState};

    ghost Value = { MutatorState };

    ghost view = { λ m. record {
      board = m.port.seat.table_id;
      local = m.local;
      turns = turns_in m.port.seat.me.0.locals;
    } };

    ghost invariant = { λ m. (m.port.seat.me
        ≡ (one_view m.local (turns_in m.port.seat.me.0.locals), []))
        × (m.port.seat.table_id.slots ≡ 0)
        × (m.port.seat.table_id.words ≡ words_count (extent m.local.config))
        × EndsAlone m.local (turns_in m.port.seat.me.0.locals) };
}

impl Mutator {
    /// The number of the thread, from 0.
    pub fn thread(&self) -> u32
        ensures { result ≡ self.now.local.thread }
    {
        self.local.thread()
    }

    /// Whether all commands of the thread are done, and it is at rest outside the gate. Where the
    /// configuration has one thread, one that is not done has made fewer turns than the bounds of
    /// its commands sum up to.
    pub fn done(&self) -> bool
        ensures done { result ≡ is_done self.now.local }
        ensures few { HasFewTurns self.now }
    {
        self.local.done()
    }

    /// Whether the thread is at rest outside the gate.
    #[inline(always)]
    pub fn at_rest(&self) -> bool
        ensures { result ≡ is_rest self.now.local.part }
    {
        self.local.at_rest()
    }

    /// The entries of the commands that are done, oldest first.
    pub fn log(&self) -> &[Entry]
        ensures { result.now ≡ self.now.local.log }
    {
        self.local.log()
    }
}
