//! Marking, one atomic operation at a time: a grey block is scanned, or a block becomes grey to
//! which a command is about to store a reference. Grey blocks are in lists that are linked
//! through the blocks' own colour words, so marking takes no memory.
#![tactic(auto)]

mod laws;
mod names;
mod pass;
mod reuse;
mod rows;

pub use laws::{
    a_unit_is_a_blackening, nothing_is_each_list_empty, rows_keep_grey, rows_keep_solid,
    rows_keep_the_heap, rows_keep_tricolour, rows_stay_in_the_heap,
};
pub use names::{rows_keep_the_names, rows_keep_the_words};
pub use pass::GreyPass;
pub use reuse::{rows_keep_each_phase, rows_keep_reuse};
pub use rows::GreyRow;
