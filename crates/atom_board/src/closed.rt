//! What is left of a board whose threads are all done.

ghost use Rattle.std.specs.Prelude.{◌≡◌, ◌≤◌, length, map};
ghost use Rattle.heap_system.specs.Locals.{LocalState};
ghost use Rattle.heap_system.specs.Systems.{units_of};

use block_store::Config;
use heap_system::{Local, sum_of_works};
use never_heap::{Entry, Logs};
use std::marker::Model;

/// The logs of a run that has ended. `AtomBoard::close` alone makes it.
#[derive(Drop)]
pub struct Closed {
    pub(crate) config: Config,
    pub(crate) cycles: u64,
    pub(crate) locals: Vec<Local>,
}

impl Model for Closed {
    ghost use Rattle.std.specs.Prelude.{◌≡◌, ◌≤◌, length, map};
    ghost use Rattle.heap_system.specs.Locals.{LocalState};
    ghost use Rattle.atom_board.specs.Mutators.{ClosedState};

    ghost Value = { ClosedState };

    ghost view = { λ f. record {
      config = f.config;
      logs = map (λ (l : LocalState). l.log) f.locals.items;
      cycles = f.cycles;
    } };

    ghost invariant = { λ f. (length f.locals.items ≡ f.config.threads) × (f.config.threads ≤ 16) };
}

impl Closed {
    /// The configuration of the run.
    pub fn config(&self) -> &Config
        ensures { result.now ≡ self.now.config }
    {
        &self.config
    }
}

impl Logs for Closed {
    ghost logs = { λ f. f.logs };

    ghost cycle_count = { λ f. f.cycles };

    ghost unit_count = { λ f. units_of f.logs };

    fn threads(&self) -> u32 {
        self.locals.len() as u32
    }

    fn entries(&self, t: u32) -> &[Entry] {
        self.locals[t as usize].log()
    }

    fn cycles(&self) -> u64 {
        self.cycles
    }

    fn units(&self) -> u64 {
        sum_of_works(&self.locals)
    }
}
