//! Rings of numbers that several threads of a program share while they run.

mod calls;
mod commands;
mod faults;
mod kind;
mod request;

pub(crate) use commands::{keep_commands, number, objects_in, recall_commands};
pub use faults::{OpenFault, Refused};
pub use kind::{LiveRings, RingNote, RingOperation, RingWorker, Rings};
pub use request::RingRequest;
