//! The commands that allocate nothing, one atomic operation at a time: loads and stores of
//! registers and fields, exchanges and comparisons of fields, and the replies.
#![tactic(auto)]

mod laws;
mod operands;
mod pass;
mod rows;
mod rules;
mod walks;

pub use laws::{
    rows_answer_as_steps, rows_are_events, rows_decide_once, rows_read_the_graph,
    rows_stay_in_the_heap, ways_lead_to_fields,
};
pub use pass::FieldPass;
pub use rows::{FieldRow, FieldStore, Purpose, TreePath};
pub use rules::{rows_keep_the_heap, rows_keep_the_names, rows_leave_the_gate};
