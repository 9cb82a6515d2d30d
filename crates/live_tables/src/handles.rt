//! Handles in slots that several threads of a program share while they run.

mod commands;
mod faults;
mod kind;
mod request;
mod slots;

pub use faults::{OpenFault, Refused};
pub use kind::{HandleAnswer, HandleDeed, HandleNote, HandleWorker, Handles, Held, LiveHandles};
pub use request::HandleRequest;
