//! Rings on the array that threads share: each thread keeps its numbers in eight places of its own,
//! one over the other, and at last recalls those that are left.

ghost use Rattle.std.specs.Prelude.{◌≡◌, ◌≤◌, ◌<◌, ℕ, List, [], length, slice_index_or};
ghost use Rattle.std.specs.List.{AllByRecursion};
ghost use Rattle.never_heap.specs.Histories.{HistoryItem};
ghost use Rattle.never_heap.specs.Jobs.{IsJobInBounds};
ghost use Rattle.never_heap.specs.Licensed.{NoFulls};
ghost use Rattle.never_heap.specs.Runs.{IsRun};
ghost use Rattle.array_tables.specs.operations.Linearizations.{replies_in};
ghost use Rattle.rate_plan.specs.Rates.{IsAdmitted};
ghost use Rattle.array_tables.specs.number_rings.Rings.{IsKeepable, ring_config, ring_traces, recalled, last_numbers};

mod recalling;
mod ring;

pub use recalling::recalled_numbers;
pub use ring::{config_of_rings, trace_of_ring};

/// In every run of the job of rings each thread is told, by the replies to its recalls, the last
/// eight of its own numbers, or all where they are fewer, oldest first. No allocation is answered
/// full.
pub fn rings_show_the_last_numbers()
    ensures { (rate : ℕ) (lists : List (List ℕ)) (h : List HistoryItem)
        → IsRun (ring_config (length lists)) rate (ring_traces lists) h
        → ((t : ℕ) → t < length lists
        → recalled (length (slice_index_or lists t [])) (replies_in t h)
        ≡ last_numbers (slice_index_or lists t []))
        × NoFulls h }
{}

/// The job of rings is a job in its ranges, and its heap has a rate.
pub fn rings_make_jobs()
    ensures bounds { (lists : List (List ℕ)) → 1 ≤ length lists → length lists ≤ 16
        → AllByRecursion IsKeepable lists
        → IsJobInBounds (ring_config (length lists)) (ring_traces lists) }
    ensures admitted { (n : ℕ) → 1 ≤ n → n ≤ 16 → IsAdmitted (ring_config n) }
{}
