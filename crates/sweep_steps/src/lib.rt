//! The sweep, one atomic operation at a time: a thread claims up to eight blocks, passes them one
//! by one, and frees those that are white. Free blocks are in lists that are linked through the
//! blocks' own colour words, so sweeping takes no memory.
#![tactic(auto)]

mod laws;
mod names;
mod pass;
mod rows;

pub use laws::{
    a_unit_is_a_passed_block, claims_move_the_cursor, only_white_blocks_are_freed,
    passed_blocks_are_those_claimed, rows_keep_reuse, rows_keep_the_heap, rows_keep_the_words,
    rows_stay_in_the_heap,
};
pub use names::rows_keep_the_names;
pub use pass::SweepPass;
pub use rows::SweepRow;
