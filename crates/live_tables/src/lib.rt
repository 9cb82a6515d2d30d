//! Tables that several threads of a program share while they run: each operation is a few
//! commands of a shared heap, and all operations have one order.
#![tactic(auto)]

pub mod counters;
pub mod handles;
mod kind;
mod laws;
pub mod rings;
pub mod rows;
mod table;
pub mod tags;
mod worker;

pub use kind::Table;
pub use laws::{
    operations_come_after_stamps, operations_keep_real_time,
    operations_seen_come_before_later_ones, operations_stand_behind_what_was_seen,
    stamps_keep_order, what_was_answered_is_a_tables, workers_are_at_work_all_along,
};
pub use table::{LiveTable, TableNote};
pub use worker::TableWorker;
