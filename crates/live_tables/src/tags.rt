//! A table of tags that several threads of a program share while they run.

mod commands;
mod faults;
mod kind;
mod life;
mod table;

pub use kind::{LiveTags, TagNote, TagWorker, Tags};
pub use life::few_operations_leave_life;
pub use table::{OpenFault, Refused};
