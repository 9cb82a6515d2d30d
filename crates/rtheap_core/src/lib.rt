//! The top call of rtheap.
#![tactic(auto)]

mod exit;
mod generated;
mod laws;
mod making;
mod planning;
mod reading;
mod replay;
mod replaying;
mod running;
pub mod schedules;
mod task;
mod telling;
mod top;
mod trial;

pub use exit::{Exit, RunEnd};
pub use generated::generate;
pub use laws::{early_cycles_have_no_full, texts_are_lives};
pub use schedules::{
    Schedule, replays_are_runs, replays_end, replays_have_one_order, replays_stop,
    serial_replays_go_on, serial_turns_are_serial,
};
pub use top::rtheap;
