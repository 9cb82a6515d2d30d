//! Gauges of a worker: the rate, and what of its lifetime is used and left.

ghost use Rattle.std.specs.Prelude.{◌≡◌, ◌-◌, length};
ghost use Rattle.rate_plan.specs.Rates.{IsRate};
ghost use Rattle.heap_system.specs.Lives.{most_commands, objects_of, sum_after};
ghost use Rattle.heap_system.specs.Locals.{works};
ghost use Rattle.shared_heap.specs.Workers.{asked, told};

use crate::Worker;
use crate::worker::MOST_COMMANDS;
use never_heap::Command;

impl Worker {
    /// The rate: the units of marking or sweeping that an allocation makes for each of its blocks.
    pub fn rate(&self) -> u64
        ensures { IsRate self.now.thread.config result }
    {
        self.local.owes(&Command::New { d: 0, fields: 0 })
    }

    /// How many units its commands have made, at most 2^45.
    pub fn units_made(&self) -> u64
        ensures { result ≡ works (told self.now) }
    {
        self.local.units_done()
    }

    /// How many of its commands make an object, also those answered `Full`; at most 2^43 - 1.
    pub fn objects_made(&self) -> u64
        ensures { result ≡ sum_after objects_of 0 (asked self.now) }
    {
        self.objects
    }

    /// How many commands are left of its lifetime, at most 2^60.
    pub fn commands_left(&self) -> u64
        ensures { result ≡ most_commands - length (asked self.now) }
    {
        MOST_COMMANDS.saturating_sub(self.count)
    }
}
