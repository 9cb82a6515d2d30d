//! Building, one atomic operation at a time: the blocks of an object are reserved and collected
//! from the free lists, written from the last to the first, and published by one store. The
//! blocks that are held are in a room that the caller lends, so building takes no memory.
#![tactic(auto)]

mod laws;
mod names;
mod objects;
mod pass;
mod rows;

pub use laws::{
    held_blocks_are_distinct, replies_are_decided, rows_keep_marking, rows_keep_reuse,
    rows_keep_the_heap, rows_stay_in_the_heap, what_is_published, what_is_written_stands,
    words_are_written_in_order,
};
pub use names::{rows_keep_the_names, states_build_what_they_hold, written_blocks_stand};
pub use pass::BuildPass;
pub use rows::BuildRow;
