//! Tables and rings on an array that threads share: operations of several commands, the order
//! in which these take effect, and three uses.
#![tactic(auto)]

pub mod handle_table;
pub mod number_rings;
pub mod operations;
pub mod tag_table;
