//! What the text of a job is for the heap, and when a run of it may refuse an allocation.

ghost use Rattle.std.specs.Prelude.{ℕ, List};
ghost use Rattle.block_store.specs.declared.Config.{Config};
ghost use Rattle.block_store.specs.Configs.{IsInBounds};
ghost use Rattle.heap_system.specs.Machines.{Run, IsJob, IsRunOf};
ghost use Rattle.never_heap.specs.declared.Command.{Command};
ghost use Rattle.never_heap.specs.Histories.{HistoryItem};
ghost use Rattle.never_heap.specs.Runs.{IsRun};
ghost use Rattle.rate_plan.specs.Rates.{IsAdmitted};
ghost use Rattle.trace_text.specs.Jobs.{Job, IsJobInBounds};
ghost use Rattle.rtheap_core.specs.LateFulls.{AreFullsLate};
ghost use Rattle.rtheap_core.specs.Owners.{HasOwners};

use block_store::{wide_words_extend, words_read_back};
use heap_system::words_show_the_order;
use never_heap::{opening_blocks_are_live, runs_are_items_that_may_come};

/// Each trace of a text is a life (`lives`). It has at most 131,072 commands, so no name has a
/// greater serial, after any turns; and the owner words of the objects that are kept are those
/// which `read_owner` reads, and not only those of longer lives (`owners`).
pub fn texts_are_lives()
    ensures lives { (job : Job) → IsJobInBounds job → IsAdmitted job.config
        → IsJob job.config job.traces }
    ensures owners { (job : Job) → IsJobInBounds job → IsAdmitted job.config
        → (turns : List ℕ) (r : Run) → IsRunOf job.config job.traces turns r
        → HasOwners job.config r }
{
    words_read_back();
    wide_words_extend();
    words_show_the_order();
}

/// No allocation of a run is refused in cycles 1 and 2. A full there would name cycle 1, which began
/// with the opening graph; and that has no more live blocks than the live limit.
pub fn early_cycles_have_no_full()
    ensures { (c : Config) (rate : ℕ) (traces : List (List Command)) (h : List HistoryItem)
        → IsInBounds c → IsAdmitted c → IsRun c rate traces h → AreFullsLate h }
{
    opening_blocks_are_live();
    runs_are_items_that_may_come();
}
