//! A heap whose workers execute the commands of operations.

ghost use Rattle.std.specs.Prelude.{◌≡◌, ◌≤◌, ◌<◌, ◌++◌, ◌∷◌, [], ◌↔◌, IsTrue, IfSome, List, length, map};
ghost use Rattle.std.specs.List.{AllByRecursion};
ghost use Rattle.block_store.specs.Configs.{IsInBounds};
ghost use Rattle.never_heap.specs.Bounds.{IsCommandInBounds};
ghost use Rattle.shared_heap.specs.Workers as heaps;
ghost use Rattle.shared_heap.specs.Workers.{CanOpen, HasSeenIts, HaveOneHistory, WorkerState};
ghost use Rattle.shared_heap.specs.Stamps.{HasDrawn};
ghost use Rattle.live_tables.specs.rows.Life.{HasBegun, HasRoomFor, HasRun, MakeObjects};

use crate::rows::crew::{Room, RowThread, room_of, unwrapped};
use block_store::Config;
use never_heap::{Command, Reply};
use rate_plan::plan;
use shared_heap::{Note, SharedHeap, Worker};
use std::alloc::Global;
use std::marker::Model;
use std::sync::{Mutex, Wait};

// The most commands of a worker's lifetime.
const MOST_COMMANDS: u64 = 1 << 60;

/// A shared heap on which threads do operations of several commands each.
#[derive(Drop)]
pub struct RowHeap {
    pub(crate) heap: SharedHeap,
    // The units of work that an object of one block owes.
    pub(crate) rate: u64,
    // Capacity for the workers of the heap, which `close` needs. The lock is never taken: it makes
    // the table `Sync`.
    pub(crate) room: Mutex<Room>,
}

impl Model for RowHeap {
    ghost use Rattle.std.specs.Prelude.{◌≤◌};
    ghost use Rattle.rate_plan.specs.Rates.{IsRate};
    ghost use Rattle.shared_heap.specs.Workers.{HeapState, CanOpen};

    ghost Value = { HeapState };

    ghost view = { λ t. t.heap };

    ghost invariant = { λ t. CanOpen t.heap.config × IsRate t.heap.config t.rate
        × (t.rate ≤ 131070) };
}

impl RowHeap {
    /// Opens a heap, with its workers in thread order. `None` if an allocation failed. No later
    /// call on the heap or its workers allocates.
    pub fn open(alloc: Global, config: Config) -> Option<(RowHeap, Vec<Worker>)>
        requires { CanOpen config }
        ensures config { IfSome result (λ r. r.0.config ≡ config) }
        ensures workers { IfSome result (λ r. heaps.AreInOrder r.0 r.1.items) }
        ensures fresh { IfSome result (λ r. heaps.AreFresh config r.1.items) }
    {
        rate_plan::one_rate();
        let Ok(rate) = plan(&config) else {
            unreachable!()
        };
        let Ok((heap, workers)) = SharedHeap::open(alloc, config) else {
            return None;
        };
        let room = room_of(alloc)?;
        let rows = RowHeap {
            heap,
            rate,
            room: Mutex::new(room),
        };
        Some((rows, workers))
    }

    /// Whether a worker's lifetime allows all of these commands. So many of them, at most two, make
    /// an object of one block, and no other owes any work. The contract adds that the heap's
    /// configuration is in bounds.
    pub fn has_life(&self, who: &Worker, objects: u64, commands: &[Command]) -> bool
        requires own { who.now.thread.config ≡ self.now.config }
        requires some { 0 < length commands.now }
        requires objects { objects ≤ 2 }
        requires make { MakeObjects who.now.thread.config.width objects commands.now }
        ensures room { IsTrue result ↔ HasRoomFor who.now.thread commands.now }
        ensures sound { HasSeenIts who.now }
        ensures config { IsInBounds self.now.config }
    {
        let few = who.asked().saturating_add(commands.len() as u64) <= MOST_COMMANDS;
        let within = who.has_left(&Command::Nil { d: 1 });
        let units = objects * self.rate;
        few && within && objects <= who.objects_left() && units <= who.units_left()
    }

    /// Executes commands in order. Returns the last three replies.
    pub fn run<R: Wait>(
        &self,
        rt: &R,
        who: &mut Worker,
        commands: &[Command],
    ) -> (Reply, Reply, Reply)
        requires heap { who.old.heap ≡ self.now.id }
        requires bounds { AllByRecursion (IsCommandInBounds who.old.thread.config) commands.now }
        requires room { HasRoomFor who.old.thread commands.now }
        ensures run { HasRun who.old commands.now result who.new }
        ensures begun { 0 < length commands.now → HasBegun who.old who.new }
    {
        let mut first = Reply::Null;
        let mut before = Reply::Null;
        let mut last = Reply::Null;
        for command in commands {
            first = before;
            before = last;
            last = self.heap.request(rt, who, *command);
        }
        (first, before, last)
    }

    /// Makes a note of the history that a worker has seen.
    pub fn note(&self, who: &mut Worker) -> Note
        requires { who.old.heap ≡ self.now.id }
        ensures heap { result.heap ≡ self.now.id }
        ensures seen { result.seen ≡ who.old.seen }
        ensures all { HasSeenIts who.old }
        ensures same { who.new ≡ who.old }
    {
        // Only the contract of this call is used, for the clause `all`.
        who.asked();
        self.heap.note(who)
    }

    /// Gives a worker a note of another.
    pub fn learn(&self, who: &mut Worker, note: Note)
        requires own { who.old.heap ≡ self.now.id }
        requires note { note.heap ≡ self.now.id }
        ensures { who.new ≡ record who.old { notes = who.old.notes ++ note.seen ∷ [] } }
    {
        self.heap.learn(who, note);
    }

    /// Draws a stamp for a worker, as `SharedHeap::stamp` does.
    pub fn stamp(&self, who: &mut Worker) -> u64
        requires { who.old.heap ≡ self.now.id }
        ensures { HasDrawn who.old result who.new }
    {
        self.heap.stamp(who)
    }

    /// Closes the heap. It takes all of its workers, each once, in any order. One history has all
    /// the commands that they executed. Returns how many cycles of collection were started.
    pub fn close<W: RowThread>(self, crew: Vec<W>) -> u64
        requires few { length crew.items ≤ 16 }
        requires each { (ws : List WorkerState) → map W.of ws ≡ crew.items
            → heaps.AreEachOnce self ws }
        ensures { (ws : List WorkerState) × AllByRecursion W.IsKept ws
            × (map W.of ws ≡ crew.items) × HaveOneHistory self.config ws result }
    {
        let RowHeap { heap, room, .. } = self;
        let workers = unwrapped(room.into_inner(), crew);
        heap.close(workers)
    }
}
