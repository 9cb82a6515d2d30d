//! What a heap costs.

ghost use Rattle.std.specs.Prelude.{◌≡◌, ◌<◌, ◌≤◌, ◌+◌, ◌*◌};
ghost use Rattle.block_store.specs.Configs.{IsInBounds};
ghost use Rattle.block_store.specs.Widths.{payloads};
ghost use Rattle.rate_plan.specs.solo_bound.Near.{changes_cost, farthest, near_bound, near_other_bound};
ghost use Rattle.rt_check.specs.rt_limit.Prices as prices;

use block_store::Config;

/// Objects of one block a year, at ten a millisecond: a year has 31,557,600 seconds.
const OBJECTS_A_YEAR: u64 = 315_576_000_000;

/// What a life has of units and of objects.
const UNITS: u64 = 1 << 45;

const OBJECTS: u64 = (1 << 43) - 1;

/// The whole years of a life at this rate.
pub(crate) fn years(rate: u64) -> u32
    requires { (1 ≤ rate) × (rate ≤ 131070) }
    ensures { result ≡ prices.years rate }
{
    (UNITS / (rate * OBJECTS_A_YEAR)).min(OBJECTS / OBJECTS_A_YEAR) as u32
}

/// The most turns of an allocation of so many blocks, of a thread that alone has turns.
pub(crate) fn turns(heap: &Config, rate: u64, blocks: u32) -> u64
    requires heap { IsInBounds heap.now }
    requires rate { rate ≤ 131070 }
    requires blocks { blocks ≤ 1024 }
    ensures { result ≡ prices.turns heap.now rate blocks }
{
    let Some(turns) = near_turns(heap, units_of(rate, blocks), blocks) else {
        unreachable!()
    };
    turns
}

fn units_of(rate: u64, blocks: u32) -> u64
    requires rate { rate ≤ 131070 }
    requires blocks { blocks ≤ 1024 }
    ensures value { result ≡ rate * blocks }
    ensures few { result ≤ 134215680 }
{
    rate * u64::from(blocks)
}

/// The near bound of an allocation of so many blocks that owes so many units: the most turns that
/// it takes of a thread that alone has turns. None where the number is too large for 64 bits.
pub fn near_turns(heap: &Config, units: u64, blocks: u32) -> Option<u64>
    requires { IsInBounds heap.now }
    ensures { prices.IsInWord result (near_bound heap.now.threads (payloads heap.now.width)
        heap.now.blocks units blocks) }
{
    let collecting = collecting_turns(heap, units)?;
    let written = u64::from(heap.width.payloads() + 4) * u64::from(blocks);
    let rest = u64::from(heap.threads) + 7;
    collecting.checked_add(written)?.checked_add(rest)
}

/// The same of a command that makes no object: it owes so many units, and makes so many events
/// between going in and going out.
pub fn near_other_turns(heap: &Config, units: u64, events: u32) -> Option<u64>
    requires { IsInBounds heap.now }
    ensures { prices.IsInWord result (near_other_bound heap.now.threads
        (payloads heap.now.width) heap.now.blocks units events) }
{
    collecting_turns(heap, units)?.checked_add(u64::from(events) + 3)
}

/// The turns of so many units, and of the changes of phase among them.
fn collecting_turns(heap: &Config, units: u64) -> Option<u64>
    requires { IsInBounds heap.now }
    ensures { prices.IsInWord result (prices.collecting heap.now units) }
{
    let made = units.checked_mul(u64::from(2 * heap.width.payloads() + 7))?;
    made.checked_add(changes_turns(heap.threads, heap.blocks, units)?)
}

/// The turns of the changes of phase among so many units, in a heap of so many blocks.
fn changes_turns(threads: u32, blocks: u32, units: u64) -> Option<u64>
    requires threads { threads ≤ 16 }
    requires some { 1 ≤ blocks }
    ensures { prices.IsInWord result (changes_cost threads blocks units) }
{
    if units == 0 {
        return Some(0);
    }
    let later = units - 1;
    let flip = 2 * threads + 7 + farthest_turns(threads, later);
    let cycle = 3 * threads + 15;
    let cycles = u64::from(cycle).checked_mul(later / u64::from(blocks))?;
    u64::from(flip.max(cycle)).checked_add(cycles)
}

/// The most turns of so many passes to the grey lists of others.
fn farthest_turns(threads: u32, passes: u64) -> u32
    requires { threads ≤ 16 }
    ensures turns { result ≡ farthest threads passes }
    ensures few { result ≤ 256 }
{
    let (mut turns, mut left) = (0, passes);
    for list in (0..threads).rev() {
        if left > 0 {
            turns += list;
            left -= 1;
        }
    }
    turns
}
