//! Handles in slots of a heap that threads share: operations on them, the commands that they are
//! made of, and the order in which they take effect.

ghost use Rattle.std.specs.Prelude.{◌≡◌, ◌≤◌, ℕ, List, [], length, map, slice_index_or};
ghost use Rattle.std.specs.List.{AllByRecursion};
ghost use Rattle.never_heap.specs.Jobs.{IsJobInBounds};
ghost use Rattle.never_heap.specs.Histories.{HistoryItem};
ghost use Rattle.never_heap.specs.Licensed.{NoFulls};
ghost use Rattle.never_heap.specs.Runs.{IsRun};
ghost use Rattle.array_tables.specs.operations.Linearizations.{Call, AreAnswered, calls_of, replies_in, traces_of, IsLinearization};
ghost use Rattle.array_tables.specs.declared.handle_table.operation.Operation.{Operation};
ghost use Rattle.array_tables.specs.handle_table.Fates.{ShowMakes, TellFates};
ghost use Rattle.array_tables.specs.handle_table.Handles.{Deed, Answer, example_operations, answered_by, example_answers, deeds_of, all_deeds, AreInTurn, IsScriptInRange, answer, slots_after, empty_slots, rows_of, command_at, decides, ends, outcome_of, outcomes_told, handle_config};

mod operation;
mod told;

pub use operation::{Operation, trace_of};
pub use told::{Outcome, outcomes};

/// Every run of the job that scripts make has a linearization: one order of all operations, each
/// once and each thread's in script order, which is that of their deciding entries. Each operation's
/// answer is the slots' in this order, and what it came to is told by the replies to its commands. No
/// allocation is answered full.
pub fn slots_are_kept()
    ensures { (threads slots blocks rate : ℕ) (scripts : List (List Operation))
        (h : List HistoryItem) → length scripts ≡ threads
        → ((t : ℕ) → AreInTurn slots [] (slice_index_or scripts t []))
        → IsRun (handle_config threads slots blocks) rate
        (traces_of rows_of command_at (all_deeds 0 scripts)) h
        → (order : List (Call Deed Answer))
        × IsLinearization rows_of decides ends answer slots_after (empty_slots slots)
        (all_deeds 0 scripts) h order
        × ((t : ℕ) → map (λ (d : Call Deed Answer). outcome_of d.operation d.answer) (calls_of t order)
        ≡ outcomes_told t 0 (slice_index_or scripts t []) (replies_in t h))
        × NoFulls h }
{}

/// In an order of the operations of scripts in their ranges, in which each answer is the slots', a
/// handle that is shown is of a make before it, at this slot and with this number; and a see or a
/// drop finds its handle stale exactly where the make was answered taken, or where the handle was
/// dropped or evicted before.
pub fn handles_are_told()
    ensures shown { (slots : ℕ) (scripts : List (List Operation)) (order : List (Call Deed Answer))
        → ((t : ℕ) → IsScriptInRange slots (slice_index_or scripts t []))
        → ((t : ℕ) → map (λ (d : Call Deed Answer). d.operation) (calls_of t order)
        ≡ slice_index_or (all_deeds 0 scripts) t [])
        → AreAnswered answer slots_after (empty_slots slots) order → ShowMakes order }
    ensures stale { (slots : ℕ) (scripts : List (List Operation)) (order : List (Call Deed Answer))
        → ((t : ℕ) → IsScriptInRange slots (slice_index_or scripts t []))
        → ((t : ℕ) → map (λ (d : Call Deed Answer). d.operation) (calls_of t order)
        ≡ slice_index_or (all_deeds 0 scripts) t [])
        → AreAnswered answer slots_after (empty_slots slots) order → TellFates order }
{}

/// The job of scripts in their ranges is a job in its ranges.
pub fn scripts_make_jobs()
    ensures { (threads slots blocks : ℕ) (scripts : List (List Operation)) → 1 ≤ threads
        → threads ≤ 16 → slots ≤ 512 → 1 ≤ blocks → blocks ≤ 65535 → length scripts ≡ threads
        → AllByRecursion (IsScriptInRange slots) scripts
        → IsJobInBounds (handle_config threads slots blocks)
        (traces_of rows_of command_at (all_deeds 0 scripts)) }
{}

/// The example's answers are the slots', and its heap has a live limit of 25.
pub fn the_example_holds()
    ensures answers { AreAnswered answer slots_after (empty_slots 1)
        (answered_by (deeds_of 0 example_operations) example_answers) }
    ensures live { (handle_config 1 1 128).live ≡ 25 }
{}
