//! What is counted of a history: starts, units and blocks.

ghost use Rattle.std.specs.Prelude.{◌↔◌, ◌<◌, ◌≤◌, ◌≡◌, ◌+◌, ◌^◌, IsTrue, length, take, drop};
ghost use Rattle.never_heap.specs.Cycles as cycles;
ghost use Rattle.never_heap.specs.GivenBlocks.{given};
ghost use Rattle.never_heap.specs.Histories.{starts_in, work_in};
ghost use Rattle.never_heap.specs.RightWork.{RightWork, IsRightWork};
ghost use Rattle.never_heap.specs.Bounds.{IsCommandInBounds};
ghost use Rattle.never_heap.specs.Taken as entries;
ghost use Rattle.never_heap.specs.Taken.{taken_in};
ghost use Rattle.std.specs.List.{AllByRecursion};
ghost use Rattle.test_kit.specs.reference_runs.Happenings.{history, item};
ghost use Rattle.test_kit.specs.reference_runs.HistoryBounds.{IsHistoryInBounds, IsItemInBounds};

use crate::reference_runs::Happened;
use block_store::Config;
use never_heap::{Entry, Reply};

/// How many cycles were started.
pub fn starts(h: &[Happened]) -> u64
    ensures { result ≡ starts_in (history h.now) }
{
    let mut count = 0;
    for happened in h {
        if let Happened::Started = *happened {
            count += 1;
        }
    }
    count
}

/// The units of all entries. They have to be below 2^64.
pub fn work(h: &[Happened]) -> u64
    requires { work_in (history h.now) < 2 ^ 64 }
    ensures { result ≡ work_in (history h.now) }
{
    let mut sum = 0;
    for happened in h {
        if let Happened::Did(entry) = *happened {
            sum += entry.work;
        }
    }
    sum
}

// How many items come before the start of a cycle; all of them, where it did not start.
fn start_at(h: &[Happened], cycle: u64) -> usize
    ensures within { result ≤ length h.now }
    ensures before { history (take result h.now) ≡ cycles.before_start cycle (history h.now) }
    ensures after { history (drop (result + 1) h.now)
        ≡ cycles.after_start cycle (history h.now) }
{
    let mut left = cycle;
    for (i, happened) in h.iter().enumerate() {
        if let Happened::Started = *happened {
            if left == 1 {
                return i;
            }
            left = left.saturating_sub(1);
        }
    }
    h.len()
}

/// The items before the start of a cycle, which are counted from 1; all items, where it did not
/// start.
pub fn before_start(h: &[Happened], cycle: u64) -> &[Happened]
    ensures { history result.now ≡ cycles.before_start cycle (history h.now) }
{
    &h[..start_at(h, cycle)]
}

/// The items after the start of a cycle, which are counted from 1; none, where it did not start.
pub fn after_start(h: &[Happened], cycle: u64) -> &[Happened]
    ensures { history result.now ≡ cycles.after_start cycle (history h.now) }
{
    h.get(start_at(h, cycle) + 1..).unwrap_or(&[])
}

/// The blocks that were given in a cycle. The history is in its ranges.
pub fn given_in(c: &Config, h: &[Happened], cycle: u64) -> u64
    requires { IsHistoryInBounds c.now (history h.now) }
    ensures { result ≡ given c.now.width (history h.now) cycle }
{
    taken(c, before_start(after_start(h, cycle), 1))
}

// The blocks that the entries took.
fn taken(c: &Config, h: &[Happened]) -> u64
    requires few { length h.now ≤ 131072 }
    requires each { AllByRecursion (IsItemInBounds c.now) (history h.now) }
    ensures { result ≡ taken_in c.now.width (history h.now) }
{
    let mut sum = 0;
    for happened in h {
        if let Happened::Did(entry) = *happened {
            sum += taken_by(c, &entry);
        }
    }
    sum
}

// The blocks that an entry took.
fn taken_by(c: &Config, entry: &Entry) -> u64
    requires { IsCommandInBounds c.now entry.now.command }
    ensures value { result ≡ entries.taken_by c.now.width entry.now }
    ensures few { result < 2 ^ 32 }
{
    match entry.reply {
        Reply::New(_) => u64::from(entry.command.blocks(c.width)),
        _ => 0,
    }
}

/// Whether each entry made the units that its command owes at this rate, which is below 2^32.
pub fn is_right_work(c: &Config, rate: u64, h: &[Happened]) -> bool
    requires history { IsHistoryInBounds c.now (history h.now) }
    requires rate { rate < 2 ^ 32 }
    ensures { IsTrue result ↔ RightWork c.now.width rate (history h.now) }
{
    for happened in h {
        if !is_right_item(c, rate, *happened) {
            return false;
        }
    }
    true
}

fn is_right_item(c: &Config, rate: u64, happened: Happened) -> bool
    requires item { IsItemInBounds c.now (item happened) }
    requires rate { rate < 2 ^ 32 }
    ensures { IsTrue result ↔ IsRightWork c.now.width rate (item happened) }
{
    match happened {
        Happened::Started => true,
        Happened::Did(entry) => {
            entry.work
                == rate * u64::from(entry.command.blocks(c.width)) + entry.command.requested_units()
        }
    }
}
