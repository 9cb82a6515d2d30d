//! Runs scripts of any kind on threads, and writes what their operations answered.

mod exit;
mod running;
mod top;

pub use exit::ScriptExit;
pub use top::run_script;
