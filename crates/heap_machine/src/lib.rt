//! The shared words of a heap: one atomic operation on one of them, and the part of a thread's work
//! that goes in and out at the gate, or closes it and changes the phase, one operation at a
//! time. And the rules that every part of a thread's work keeps: where grey blocks are, that no
//! black block refers to a white one, that only Free blocks refer to Free ones, where Free blocks
//! are, and what of them the sweep has claimed and passed.
#![tactic(auto)]

mod gate;
mod laws;
mod memory;
mod op;
mod pass;
mod phase_changes;
mod phase_laws;
mod reuse;
mod words;

pub use gate::{Gate, GateRow, entering};
pub use laws::{
    black_blocks_refer_to_none_white, chains_are_lists, checked_lists_are_empty, gate_counts,
    gate_rows_stay_in_the_heap, grey_blocks_stand_once, lists_are_lost_at_a_put,
    operations_are_of_places, other_writes_keep_grey, phase_changes_at_the_flip_and_the_start,
    stores_are_held, turn_over_checks_every_list, turn_over_keeps_the_gate,
    unshaded_stores_break_tricolour, what_keeps_solid, what_keeps_the_heap, what_keeps_tricolour,
};
pub use memory::{Memory, ScriptedMemory};
pub use op::Op;
pub use pass::Pass;
pub use phase_laws::{
    closed_gates_keep_others_out, gate_rows_keep_each_word, gate_rows_keep_the_rules,
    nothing_is_grey_at_the_flip, start_shades_every_root, what_the_closing_thread_knows,
};
pub use reuse::{
    free_blocks_stand_at_the_opening, free_blocks_stand_once, free_lists_are_lost_at_a_put,
    gate_rows_keep_reuse, rules_hold_by_the_phase, sweep_claims_do_not_overlap,
    what_keeps_free_blocks, what_keeps_reuse, what_keeps_the_sweep,
};
pub use words::Words;

/// What an event was to the part of a thread's work that made it.
#[derive(Clone, Copy, Debug, PartialEq, Eq)]
pub enum Step {
    /// It was not the last of the part, and did not wait.
    Went,
    /// It was not the last of the part, and waited: what it read has to change first.
    Waited,
    /// It was the last of the part, and did not wait.
    Over,
    /// It was the last of the part, and waited.
    WaitedOver,
}

/// What an event of a part that may make units of work was.
#[derive(Clone, Copy, Debug, PartialEq, Eq)]
pub struct Outcome {
    /// What it was to the part.
    pub step: Step,
    /// Whether it made a unit: it made the block under scan black, or passed a block of the sweep.
    pub unit: bool,
}
