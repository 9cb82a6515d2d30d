//! Scripts of operations on an array that threads share, of any kind: their lines, the first that
//! may not come, why a call refuses them, and the lines of what their operations answered.
#![tactic(auto)]

mod header;
mod jobs;
mod kinds;
mod line;
mod numbers;
mod printing;
mod reading;
mod runnable;
mod script;
mod script_runs;
pub mod scripts;

pub use header::{Header, header_of};
pub use jobs::{all_answers, planned, traces};
pub use kinds::Scripted;
pub use line::Line;
pub use numbers::{below, place};
pub use printing::tell_answers;
pub use reading::read_script;
pub use runnable::Runnable;
pub use script::{Fault, script_of};
pub use script_runs::{ScriptExit, run_script};
pub use scripts::lines_are_told_apart;
