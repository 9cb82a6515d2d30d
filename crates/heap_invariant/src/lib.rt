//! Why the collector frees nothing that is reached, and takes each block once a cycle: which
//! graph the words represent, what each event keeps of it, and the counts of a cycle.
#![tactic(auto)]

pub mod cycle_tally;
pub mod graph_relation;
pub mod name_invariant;
