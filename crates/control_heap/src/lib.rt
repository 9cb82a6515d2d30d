//! A garbage-collected heap for one thread, which does one command at a time.
#![tactic(auto)]

mod calls;
mod control;
mod counted;
mod faults;
mod gauges;
pub mod graph_view;
mod laws;
pub mod outcomes;
mod paths;
mod readings;
mod store;

pub use control::{ControlHeap, OpenFault, Refused, Seen, Snapshot};
pub use counted::{Counted, operations_of};
pub use faults::Fault;
pub use graph_view::{
    ask, ask_all, graphs_come_back, lives_add_up, open, shown_heaps_met_no_full,
    small_histories_are_shown,
};
pub use laws::{
    commands_take_what_is_told, full_heaps_come_back, histories_are_right,
    requests_have_one_history,
};
pub use store::Store;
