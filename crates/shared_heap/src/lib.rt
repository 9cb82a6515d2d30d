//! A heap that several threads of a program share. Each executes one command at a time.
#![tactic(auto)]

mod calls;
mod drives;
mod faults;
mod gauges;
mod heap;
mod laws;
mod note;
mod pending;
mod port;
mod rules;
mod worker;

pub use control_heap::{Fault, Refused};
pub use drives::drives_some;
pub use heap::{OpenFault, SharedHeap};
pub use laws::{
    commands_alone_end_in_time, commands_keep_real_time, commands_stand_behind_what_was_seen,
    stamps_are_in_order, what_was_answered_fits_one_history,
    what_was_seen_comes_before_what_is_invoked_later,
};
pub use note::Note;
pub use pending::Pending;
pub use rules::{
    Announced, Call, Drawn, JoinViews, Law, Moment, NoteView, SeenHistory, Span, SplitView,
    ThreadView, Turned, View,
};
pub use worker::Worker;
