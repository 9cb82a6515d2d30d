//! A table of tags on a heap that threads share: its operations, the commands that they are made of,
//! and the order in which they take effect.

ghost use Rattle.std.specs.Prelude.{◌≡◌, ◌≤◌, ℕ, List, [], length, map, slice_index_or};
ghost use Rattle.std.specs.List.{AllByRecursion};
ghost use Rattle.never_heap.specs.Jobs.{IsJobInBounds};
ghost use Rattle.never_heap.specs.Histories.{HistoryItem};
ghost use Rattle.never_heap.specs.Licensed.{NoFulls};
ghost use Rattle.never_heap.specs.Runs.{IsRun};
ghost use Rattle.array_tables.specs.operations.Linearizations.{Call, AreAnswered, calls_of, replies_in, traces_of, IsLinearization};
ghost use Rattle.array_tables.specs.declared.tag_table.operation.Operation.{Operation};
ghost use Rattle.array_tables.specs.tag_table.Tables.{Tag, example, answer, table_after, empty_table, rows_of, command_at, decides, ends, AreInTable, IsScriptInRange, answers_of, tag_config};

mod operation;
mod told;

pub use operation::{Operation, trace_of};
pub use told::answers;

/// Every run of the job that scripts make has a linearization: one order of all operations, each
/// once and each thread's in script order, which is that of their deciding entries. Each operation's
/// answer is the table's in this order, and the replies to its commands tell that answer. No
/// allocation is answered full.
pub fn tables_are_kept()
    ensures { (threads tags blocks rate : ℕ) (scripts : List (List Operation))
        (h : List HistoryItem) → length scripts ≡ threads
        → ((t : ℕ) → AreInTable tags (slice_index_or scripts t []))
        → IsRun (tag_config threads tags blocks) rate (traces_of rows_of command_at scripts) h
        → (order : List (Call Operation Tag))
        × IsLinearization rows_of decides ends answer table_after (empty_table tags) scripts h order
        × ((t : ℕ) → map (λ (d : Call Operation Tag). d.answer) (calls_of t order)
        ≡ answers_of (slice_index_or scripts t []) (replies_in t h))
        × NoFulls h }
{}

/// The job of scripts in their ranges is a job in its ranges.
pub fn scripts_make_jobs()
    ensures { (threads tags blocks : ℕ) (scripts : List (List Operation)) → 1 ≤ threads
        → threads ≤ 16 → tags ≤ 1024 → 1 ≤ blocks → blocks ≤ 65535 → length scripts ≡ threads
        → AllByRecursion (IsScriptInRange tags) scripts
        → IsJobInBounds (tag_config threads tags blocks)
        (traces_of rows_of command_at scripts) }
{}

/// The example's answers are the table's, and its heap has a live limit of 7.
pub fn the_example_holds()
    ensures answers { AreAnswered answer table_after (empty_table 2) example }
    ensures live { (tag_config 1 2 64).live ≡ 7 }
{}
