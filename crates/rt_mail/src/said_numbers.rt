//! The numbers that a thread shows by `say`: what they are, how many there can be, and how large.

ghost use Rattle.std.specs.Prelude.{◌≡◌, ◌≤◌, ℕ, List, [], length, map, slice_index_or};
ghost use Rattle.std.specs.List.{AllByRecursion};
ghost use Rattle.block_store.specs.declared.Config.{Config};
ghost use Rattle.never_heap.specs.declared.Command.{Command};
ghost use Rattle.never_heap.specs.declared.Entry.{Entry};
ghost use Rattle.never_heap.specs.Bounds.{IsCommandInBounds};
ghost use Rattle.never_heap.specs.Histories.{HistoryItem, HasTraces, Legal, part};
ghost use Rattle.never_heap.specs.Jobs.{IsTraceInBounds};
ghost use Rattle.rt_mail.specs.said_numbers.Said.{AreNumbers, numbers_said, says_in};

mod said;

pub use said::{number_said, says_of};

/// A thread shows at most as many numbers as its trace has `say` commands.
pub fn few_numbers_are_said()
    ensures { (log : List Entry) → length (numbers_said log) ≤ says_in (map (λ e. e.command) log) }
{}

/// In a legal history of traces in their ranges each number that is shown is below 2^62.
pub fn said_numbers_are_small()
    ensures { (c : Config) (traces : List (List Command)) (h : List HistoryItem) (t : ℕ)
        → AllByRecursion (IsTraceInBounds c) traces → Legal c h → HasTraces traces h
        → AreNumbers (numbers_said (part t h)) }
{}
