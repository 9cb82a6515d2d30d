//! Gauges: what of its life a heap has used, and what was live when the present cycle began.

ghost use Rattle.std.specs.Prelude.{◌≡◌, ◌<◌, ◌≤◌, ◌-◌, ◌↔◌, false, IsSome, IfSome};
ghost use Rattle.block_store.specs.Heaps.{heap_of};
ghost use Rattle.block_store.specs.Phases.{is_sweep};
ghost use Rattle.block_store.specs.Places.{ColourOf, Phase, extent};
ghost use Rattle.heap_machine.specs.FreeBlocks.{count_free};
ghost use Rattle.heap_system.specs.Lives.{most_commands};
ghost use Rattle.heap_system.specs.Machines.{Run};
ghost use Rattle.control_heap.specs.Controls.{Stands, asked, units};
ghost use Rattle.control_heap.specs.Gauges.{life_left, live_at_start, live_or_made, share};

use super::{ControlHeap, MOST_COMMANDS, MOST_OBJECTS, MOST_UNITS};
use crate::Store;
use crate::gauges::sweeps_in;

// The millionths of the whole that are left.
fn share(left: u64, whole: u64) -> u64
    requires some { 0 < whole }
    requires few { left ≤ whole }
    ensures { result ≡ share left whole }
{
    (u128::from(left) * 1_000_000 / u128::from(whole)) as u64
}

impl<M: Store> ControlHeap<M> {
    /// How many units its commands have made, at most 2^45.
    pub fn units_made(&self) -> u64
        ensures { result ≡ units self.now }
    {
        self.thread.units_done()
    }

    /// How many of its commands make an object, also those answered `Full`; at most 2^43 - 1.
    pub fn objects_made(&self) -> u64
        ensures { result ≡ self.now.objects }
    {
        self.objects
    }

    /// How many commands are left of its life, at most 2^60.
    pub fn commands_left(&self) -> u64
        ensures { result ≡ most_commands - asked self.now }
    {
        MOST_COMMANDS.saturating_sub(self.count)
    }

    /// What is left of its life in millionths: the least of the shares of units, of objects and of
    /// commands, each rounded down. 1,000,000 is a whole life.
    pub fn life_left(&self) -> u64
        ensures { result ≡ life_left self.now }
    {
        let units = share(self.units_left(), MOST_UNITS);
        let objects = share(self.objects_left(), MOST_OBJECTS);
        let commands = share(self.commands_left(), MOST_COMMANDS);
        units.min(objects.min(commands))
    }
}

impl ControlHeap {
    /// While the phase is Mark, at most how many blocks were live when the present cycle began: the
    /// blocks in use, since nothing is freed in that phase (`most`). They are at most the blocks
    /// that were live when the cycle before began, and those made since (`made`). `None` in Sweep.
    ///
    /// A `Full` names a cycle that began with more live blocks than the limit, and it comes in the
    /// cycle after that one at the earliest. So a cycle for which this returned no more than the
    /// limit causes none, and a larger number is a warning of one cycle. Reads two words.
    pub fn live_at_start(&self) -> Option<u64>
        ensures when { IsSome result ↔ (is_sweep (heap_of (extent self.now.config) self.now.words
            Phase) ≡ false) }
        ensures most { IfSome result (λ n. (r : Run) → Stands self.now r
            → live_at_start self.now.config r.order ≤ n) }
        ensures made { IfSome result (λ n. (r : Run) → Stands self.now r
            → n ≤ live_or_made self.now.config r.order) }
        ensures rest { IfSome result (λ n. n ≡ self.now.config.blocks
            - count_free (extent self.now.config)
            (λ x. heap_of (extent self.now.config) self.now.words (ColourOf x))) }
    {
        if sweeps_in(&self.config, &self.memory) {
            return None;
        }
        Some(self.blocks_in_use())
    }
}
