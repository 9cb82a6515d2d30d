//! Where a thread is, in few bytes.

use grey_steps::GreyRow;
use sweep_steps::SweepRow;

/// The row at which a thread is. The thread keeps beside it what rows have in common, the pass
/// above all, and what does a command, builds an object or changes the phase.
#[derive(Clone, Copy)]
pub enum Row {
    /// At rest outside the gate.
    Rest,
    /// Outside, and looks whether the gate is closed.
    Look,
    /// Outside, and goes in where the phase word is still the one that was seen.
    Enter { seen: u64 },
    /// Inside, in a command that makes no object.
    Access,
    /// Inside, and marks.
    Mark(GreyRow),
    /// Inside, and sweeps, with so many units owed when it came in.
    Sweep { owed: u64, row: SweepRow },
    /// Inside, and builds an object.
    Build,
    /// On its way out, to come in again.
    Retry,
    /// On its way out, to change the phase.
    LeaveToChangePhase,
    /// Outside, and changes the phase.
    PhaseChange,
    /// On its way out, with its command in the log.
    Leave,
}
