//! What crates of tests use: slow reference implementations, jobs for boards, and calls over
//! lent streams.
#![tactic(auto)]

mod board_jobs;
mod lent_calls;
mod reference_runs;

pub use board_jobs::{
    MEETING, Meeting, RATE, SHARING, TRIES, TWO, are_right, counting, have_said, job, swapping,
    two_says,
};
pub use lent_calls::{Call, Lent};
pub use reference_runs::{
    Happened, after_start, before_start, given_in, history_of, in_bounds, is_legal, is_licensed,
    is_right_work, live_at, starts, work,
};
