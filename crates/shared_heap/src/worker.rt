//! A worker: the access of one thread to a shared heap.

ghost use Rattle.std.specs.Prelude.{◌≡◌, ◌-◌, ◌↔◌, length, true, IsTrue};
ghost use Rattle.never_heap.specs.Bounds.{IsCommandInBounds};
ghost use Rattle.never_heap.specs.declared.Command.{Command};
ghost use Rattle.heap_system.specs.Lives.{sum_after, objects_of, most_units, most_objects};
ghost use Rattle.heap_system.specs.Locals.{is_done, works};
ghost use Rattle.shared_heap.specs.Workers.{HasLeft, HasSeenIts, asked, told};

use crate::port::Port;
use block_store::Config;
use heap_system::Local;
use never_heap::Command;
use std::marker::Model;

// The most commands of a lifetime.
pub(crate) const MOST_COMMANDS: u64 = 1 << 60;

// The most units of work of a lifetime, and the most commands that make an object.
const MOST_UNITS: u64 = 1 << 45;

const MOST_OBJECTS: u64 = (1 << 43) - 1;

/// One thread of a heap, between two commands. It may move to any thread of the program.
///
/// A worker's lifetime is limited: to 2^45 units of work, to 2^43 - 1 commands that make an
/// object, whether they are answered `New` or `Full`, and to 2^60 commands in all. Each worker has
/// limits of its own.
#[derive(Drop)]
pub struct Worker {
    pub(crate) port: Port,
    pub(crate) local: Local,
    pub(crate) config: Config,
    // How many commands it has executed.
    pub(crate) count: u64,
    // How many of them make an object.
    pub(crate) objects: u64,
}

impl Model for Worker {
    ghost use Rattle.std.specs.Prelude.{◌≡◌};
    ghost use Rattle.shared_heap.specs.Shared.{held_of};
    ghost use Rattle.shared_heap.specs.Workers.{WorkerState, IsMirrored, worker_of};

    ghost Value = { WorkerState };

    ghost view = { λ w. worker_of w.port.seat.table_id
        (held_of w.local w.port.seat.me.0.threads) w.port.seat.me.0.notes };

    ghost invariant = { λ w. IsMirrored w.port.seat.me w.port.seat.table_id w.local w.count w.objects
        × (w.config ≡ w.local.config) };
}

// 1 for a command that makes an object, and 0 for any other.
pub(crate) fn objects_of(command: Command) -> u64
    ensures { result ≡ objects_of command }
{
    match command {
        Command::New { .. } | Command::Arr { .. } => 1,
        _ => 0,
    }
}

impl Worker {
    /// The number of the worker's thread, from 0.
    pub fn thread(&self) -> u32
        ensures { result ≡ self.now.thread.thread }
    {
        self.local.thread()
    }

    /// How many commands it has executed.
    ///
    /// The contract adds what holds of every worker between two commands: what it has seen is a
    /// legal and licensed history, and its own part of that history is its commands and replies.
    pub fn asked(&self) -> u64
        ensures count { result ≡ length (asked self.now) }
        ensures done { is_done self.now.thread ≡ true }
        ensures sound { HasSeenIts self.now }
    {
        self.count
    }

    /// The configuration of its heap.
    pub fn config(&self) -> &Config
        ensures { result.now ≡ self.now.thread.config }
    {
        &self.config
    }

    /// How many units of work its commands may still owe, of 2^45.
    pub fn units_left(&self) -> u64
        ensures { result ≡ most_units - works (told self.now) }
    {
        MOST_UNITS - self.local.units_done()
    }

    /// How many more commands that make an object it may execute, of 2^43 - 1.
    pub fn objects_left(&self) -> u64
        ensures { result ≡ most_objects - sum_after objects_of 0 (asked self.now) }
    {
        MOST_OBJECTS.saturating_sub(self.objects)
    }

    /// Whether the worker's lifetime allows one more command, which must be in bounds: its units of
    /// work, its object if it makes one, and the command itself.
    pub fn has_left(&self, command: &Command) -> bool
        requires { IsCommandInBounds self.now.thread.config command.now }
        ensures { IsTrue result ↔ HasLeft self.now command.now }
    {
        let few = self.count < MOST_COMMANDS;
        let objects = self.objects.saturating_add(objects_of(*command)) <= MOST_OBJECTS;
        let units = self.local.units_done() + self.local.owes(command) <= MOST_UNITS;
        few && objects && units
    }
}
