//! Replays of a job: a schedule says which thread has each turn.

mod laws;
mod replaying;

pub use laws::{
    replays_are_runs, replays_end, replays_have_one_order, replays_stop, serial_replays_go_on,
    serial_turns_are_serial,
};
pub use replaying::replay;

/// Which thread has each turn. Turns are counted from 0, and a turn for a thread that is done
/// counts and changes nothing.
#[derive(Clone, Copy, Debug, PartialEq, Eq)]
pub enum Schedule {
    /// Turn j is for thread `j % n` of n.
    Robin,
    /// Each turn is for the least thread that is not done.
    Serial,
    /// Turn j is for thread `w % n` of n, with w the word j of the PCG generator of this key.
    Key(u64),
}
