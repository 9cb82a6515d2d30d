//! A checker of printed orders: whether the lines of an order are those of a run of a job.
#![tactic(auto)]

mod follower;
mod input;
mod laws;
mod lines;
mod moves;
mod rt_limit;
mod taken;
mod top;

pub use input::parted;
pub use laws::{answers_are_one, good_orders_are_runs, lines_are_taken_once};
pub use moves::Move;
pub use rt_limit::{
    Figures, LimitExit, enough_is_never_full, least_blocks, limit, most_live_is_the_greatest,
    near_other_turns, near_turns,
};
pub use taken::moves_of;
pub use top::{CHECK_LIMIT, CheckExit, check};
