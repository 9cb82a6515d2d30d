//! What the top call answers.

use atom_board::Closed;
use heap_system::Finished;
use never_heap::{Entry, Logs};

/// A run that ended.
#[derive(Drop)]
pub enum RunEnd {
    /// Of the word `replay`: of the turns of a schedule.
    Replayed(Finished),
    /// Of the word `run`: of threads that ran beside each other.
    Ran(Closed),
}

impl Logs for RunEnd {
    ghost use Rattle.rtheap_core.specs.EndedRuns.{logs_of, cycles_of, units_of};

    ghost logs = { logs_of };

    ghost cycle_count = { cycles_of };

    ghost unit_count = { units_of };

    fn threads(&self) -> u32 {
        match self {
            RunEnd::Replayed(run) => run.threads(),
            RunEnd::Ran(run) => run.threads(),
        }
    }

    fn entries(&self, t: u32) -> &[Entry] {
        match self {
            RunEnd::Replayed(run) => run.entries(t),
            RunEnd::Ran(run) => run.entries(t),
        }
    }

    fn cycles(&self) -> u64 {
        match self {
            RunEnd::Replayed(run) => run.cycles(),
            RunEnd::Ran(run) => run.cycles(),
        }
    }

    fn units(&self) -> u64 {
        match self {
            RunEnd::Replayed(run) => run.units(),
            RunEnd::Ran(run) => run.units(),
        }
    }
}

/// What became of a call. `due` is the status by all but the writing: 0 where the task was done, 2
/// for words that ask for nothing, 3 for an input that is no job, 4 for a configuration without a
/// rate, 5 for a read fault, 7 for want of memory, 8 for a replay whose turns were made before all
/// threads were done. `status` is `due`, or 6 where writing failed. `run` is there where the words
/// `run` or `replay` were done.
#[derive(Drop)]
pub struct Exit {
    pub status: u8,
    pub due: u8,
    pub run: Option<RunEnd>,
}
