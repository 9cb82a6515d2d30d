//! The history that an order makes with the logs of its threads.

ghost use Rattle.std.specs.Prelude.{◌≡◌, ◌↔◌, List, [], ℕ, IsTrue, IfOk, MatchOption, length};
ghost use Rattle.never_heap.specs.Histories.{HistoryItem};
ghost use Rattle.never_heap.specs.HistoryOfOrder.{IsHistoryOf};
ghost use Rattle.test_kit.specs.reference_runs.Happenings.{history};
ghost use Rattle.test_kit.specs.reference_runs.Making.{left_of, IsNext, NoNext};

use crate::reference_runs::Happened;
use block_store::OutOfMemory;
use never_heap::{Item, Logs};
use std::alloc::Global;

/// The history that an order makes with the logs of its threads: each entry is its thread's next.
/// `None` exactly where there is none, since the order does not name each thread as often as its
/// log is long, or a log has an entry of another thread.
///
/// # Errors
///
/// `OutOfMemory` where there is no room for the history.
pub fn history_of<R: Logs>(
    alloc: Global,
    order: &[Item],
    run: &R,
) -> Result<Option<Vec<Happened>>, OutOfMemory>
    ensures { IfOk result (λ found. MatchOption found
        ((h : List HistoryItem) → IsHistoryOf order.now (R.logs run.now) h → ⊥)
        (λ h. IsHistoryOf order.now (R.logs run.now) (history h.items))) }
{
    let mut told = vec![in alloc; 0; run.threads() as usize]?;
    let mut made = Vec::new(alloc);
    for item in order {
        let Some(happened) = next(run, &mut told, *item) else {
            return Ok(None);
        };
        made.push(happened)?;
    }
    if !is_all_told(run, &told) {
        return Ok(None);
    }
    Ok(Some(made))
}

// What happened next, where it is this item and so much of each log was told; then it is told.
fn next<R: Logs>(run: &R, told: &mut [usize], item: Item) -> Option<Happened>
    requires { length told.old ≡ length (R.logs run.now) }
    ensures { MatchOption result (NoNext (R.logs run.now) told.old item)
        (IsNext (R.logs run.now) told.old told.new item) }
{
    let Item::Entry(thread) = item else {
        return Some(Happened::Started);
    };
    let place = usize::from(thread);
    if place >= told.len() {
        return None;
    }
    let entry = *run.entries(u32::from(thread)).get(told[place])?;
    if entry.thread != u32::from(thread) {
        return None;
    }
    told[place] += 1;
    Some(Happened::Did(entry))
}

// Whether all of each log was told.
fn is_all_told<R: Logs>(run: &R, told: &[usize]) -> bool
    requires { length told.now ≡ length (R.logs run.now) }
    ensures { IsTrue result ↔ ((t : ℕ) → left_of (R.logs run.now) told.now t ≡ []) }
{
    for t in 0..run.threads() {
        if told[t as usize] < run.entries(t).len() {
            return false;
        }
    }
    true
}
