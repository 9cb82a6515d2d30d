//! Which histories the programs take.

ghost use Rattle.std.specs.Prelude.{◌↔◌, ◌<◌, ◌≤◌, ◌≡◌, ◌^◌, IsTrue};
ghost use Rattle.std.specs.List.{AllByRecursion};
ghost use Rattle.never_heap.specs.Histories.{work_in};
ghost use Rattle.test_kit.specs.reference_runs.Happenings.{history, item};
ghost use Rattle.test_kit.specs.reference_runs.HistoryBounds.{IsHistoryInBounds, IsItemInBounds};

use crate::reference_runs::Happened;
use block_store::Config;

/// The most items that a history may have.
const MOST_ITEMS: usize = 131_072;

/// Whether the configuration is in its ranges, there are at most 131,072 items, each entry is one
/// of a thread that there is and of a command in its ranges, and the works together stay below
/// 2^64. The programs ask this of a history.
pub fn in_bounds(c: &Config, h: &[Happened]) -> bool
    ensures { IsTrue result ↔ IsHistoryInBounds c.now (history h.now) }
{
    c.in_bounds() && h.len() <= MOST_ITEMS && are_items_in_bounds(c, h) && is_work_small(h)
}

// Whether each entry is one of a thread that there is and of a command in its ranges.
fn are_items_in_bounds(c: &Config, h: &[Happened]) -> bool
    ensures { IsTrue result ↔ AllByRecursion (IsItemInBounds c.now) (history h.now) }
{
    for happened in h {
        if !is_item_in_bounds(c, *happened) {
            return false;
        }
    }
    true
}

fn is_item_in_bounds(c: &Config, happened: Happened) -> bool
    ensures { IsTrue result ↔ IsItemInBounds c.now (item happened) }
{
    match happened {
        Happened::Started => true,
        Happened::Did(entry) => entry.thread < c.threads && entry.command.in_bounds(c),
    }
}

// Whether the works together stay below 2^64.
fn is_work_small(h: &[Happened]) -> bool
    ensures { IsTrue result ↔ (work_in (history h.now) < 2 ^ 64) }
{
    let mut sum: u64 = 0;
    for happened in h {
        if let Happened::Did(entry) = *happened {
            let Some(more) = sum.checked_add(entry.work) else {
                return false;
            };
            sum = more;
        }
    }
    true
}
