//! The whole heap: one thread's state, and all threads with the words that they share.
#![tactic(auto)]

mod accounts;
mod bound;
mod collector;
mod counting;
mod cycles;
mod inside;
mod laws;
mod local;
mod orders;
mod pace;
mod payments;
mod progress;
mod replays;
mod rows;
mod serial;
mod start;
mod system;
mod thread_memory;

pub use accounts::accounts_are_sound;
pub use bound::{cycles_cost_few_units, cycles_give_few_blocks, fulls_are_licensed};
pub use collector::{
    free_blocks_stand_once, grey_blocks_stand_once, marking_is_tricolour,
    phases_turn_with_nobody_inside, starts_find_no_white, sweeping_spares_what_is_reached,
    the_flip_finds_what_is_reached,
};
pub use cycles::cycles_take_each_block_once;
pub use inside::most_events;
pub use laws::{
    events_are_safe, finished_runs_show_their_logs, logs_are_parts, opening_shows_the_start,
    order_is_legal, threads_inside_are_counted, turns_keep_the_rules, turns_wait,
    words_show_the_order, works_are_units,
};
pub use local::Local;
pub use orders::turns_add_their_items;
pub use pace::{NoPace, Pace};
pub use payments::turns_pay;
pub use progress::{
    a_lone_command_ends_near_its_bound, a_lone_thread_ends_its_command,
    units_part_the_changes_of_a_lone_thread,
};
pub use replays::jobs_have_one_order;
pub use serial::{a_single_thread_ends_its_job, serial_turns_end};
pub use start::opening;
pub use system::{Finished, System, Unfinished, sum_of_works};
pub use thread_memory::ThreadMemory;

/// What a turn of a thread was.
#[derive(Clone, Copy, Debug, PartialEq, Eq)]
pub enum Turn {
    /// An event that did not wait.
    Went,
    /// An event that waited: the gate was closed or could not be closed, another thread changed the
    /// word first, or the last of all free lists was empty. The thread looks again.
    Waited,
    /// Nothing: the thread was done.
    Done,
}
