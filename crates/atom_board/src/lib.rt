//! The threads of a heap on shared atomic words, with no lock: one event is one step of a table.
#![tactic(auto)]

mod board;
mod closed;
mod driver;
mod laws;
mod mutator;
mod port;
mod rules;
mod telling;
pub mod threaded_runs;

pub use board::AtomBoard;
pub use closed::Closed;
pub use driver::drives;
pub use laws::{closed_runs_show_their_logs, turns_lengthen_the_list};
pub use mutator::Mutator;
pub use rules::{JoinViews, Law, SplitView, ThreadView, Turned, View};
pub use threaded_runs::run_job;
