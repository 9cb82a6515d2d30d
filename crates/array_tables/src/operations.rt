//! Threads that do operations on a heap which they share: the order in which these take effect, and
//! what an application gives to have it.

ghost use Rattle.std.specs.Prelude.{◌≡◌, ◌<◌, ℕ, List, [], slice_index_or};
ghost use Rattle.never_heap.specs.declared.Entry.{Entry};
ghost use Rattle.never_heap.specs.Histories.{HistoryItem, part, parts};

/// Where these logs are the parts of a history, each thread's part is its log.
pub fn logs_are_parts()
    ensures { (n : ℕ) (h : List HistoryItem) (logs : List (List Entry)) (t : ℕ)
        → parts n h ≡ logs → t < n → part t h ≡ slice_index_or logs t [] }
{}
