//! What is read from the words of a heap, and the near bounds as numbers.

ghost use Rattle.std.specs.Prelude.{◌≡◌, ◌≤◌, ◌+◌, ◌*◌, ◌^◌, ℕ, length};
ghost use Rattle.block_store.specs.Configs.{IsInBounds};
ghost use Rattle.block_store.specs.Heaps.{heap_of};
ghost use Rattle.block_store.specs.Phases.{cycle_of, is_sweep};
ghost use Rattle.block_store.specs.Places.{FreeCount, Phase, extent, words_count};
ghost use Rattle.block_store.specs.Widths.{payloads};
ghost use Rattle.rate_plan.specs.solo_bound.Near.{changes_cost, near_bound, near_other_bound, near_unit};
ghost use Rattle.heap_system.specs.Alone.{most_events};

use block_store::{Config, Places, Width, read_phase};
use heap_machine::Words;
use heap_system::most_events;
use never_heap::Command;

/// The cycle number in the phase word.
pub fn cycle_in(c: &Config, words: &Words) -> u64
    requires bounds { IsInBounds c.now }
    requires there { length words.now ≡ words_count (extent c.now) }
    ensures { result ≡ cycle_of (heap_of (extent c.now) words.now Phase) }
{
    read_phase(words.word(Places::new(c).phase())).cycle
}

/// Whether the phase is Sweep, and not Mark.
pub fn sweeps_in(c: &Config, words: &Words) -> bool
    requires bounds { IsInBounds c.now }
    requires there { length words.now ≡ words_count (extent c.now) }
    ensures { result ≡ is_sweep (heap_of (extent c.now) words.now Phase) }
{
    read_phase(words.word(Places::new(c).phase())).sweep
}

/// The free count: how many blocks are free.
pub fn free_in(c: &Config, words: &Words) -> u64
    requires bounds { IsInBounds c.now }
    requires there { length words.now ≡ words_count (extent c.now) }
    ensures { result ≡ heap_of (extent c.now) words.now FreeCount }
{
    words.word(Places::new(c).free_count())
}

/// The near bound of an allocation on one thread: `units` that it owes, `taken` blocks that it
/// takes, on a heap of `blocks` blocks.
pub fn allocation_operations(width: Width, blocks: u32, units: u64, taken: u32) -> u64
    requires some { 1 ≤ blocks }
    requires units { units ≤ 2 ^ 45 }
    requires taken { taken ≤ 65535 }
    ensures { result ≡ near_bound 1 (payloads width) blocks units taken }
{
    let written = u64::from(width.payloads() + 4) * u64::from(taken);
    collecting(width, blocks, units) + (written + 8)
}

/// The near bound of another command on one thread, which is told to make `units`.
pub fn other_operations(c: &Config, command: &Command, units: u64) -> u64
    requires bounds { IsInBounds c.now }
    requires units { units ≤ 2 ^ 45 }
    ensures { result ≡ near_other_bound 1 (payloads c.now.width) c.now.blocks units
        (most_events c.now command.now) }
{
    collecting(c.width, c.blocks, units) + u64::from(most_events(c, command)) + 3
}

// The operations of so many units on one thread, and of the changes of phase among them.
fn collecting(width: Width, blocks: u32, units: u64) -> u64
    requires some { 1 ≤ blocks }
    requires units { units ≤ 2 ^ 45 }
    ensures value { result ≡ units * near_unit (payloads width) + changes_cost 1 blocks units }
    ensures few { result ≤ 2 ^ 51 }
{
    if units == 0 {
        return 0;
    }
    let cycles = (units - 1) / u64::from(blocks);
    units * u64::from(2 * width.payloads() + 7) + (18 + 18 * cycles)
}
