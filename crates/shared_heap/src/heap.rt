//! A shared heap: how it is opened and closed, and how a worker executes a command.

ghost use Rattle.std.specs.Prelude.{◌≡◌, ◌<◌, ◌≤◌, ℕ, List, [], ◌∷◌, ◌++◌, true, false, map, length, slice_index_or, IfOk, IfErr, OnOk, OnErr};
ghost use Rattle.std.specs.Vec.{vec_capacity};
ghost use Rattle.never_heap.specs.declared.Command.{Command};
ghost use Rattle.never_heap.specs.declared.Entry.{Entry};
ghost use Rattle.never_heap.specs.Bounds.{IsCommandInBounds};
ghost use Rattle.heap_system.specs.Locals.{LocalState};
ghost use Rattle.shared_heap.specs.Shared.{first_held};
ghost use Rattle.shared_heap.specs.Pending.{HasAnnounced, MayAnnounce};
ghost use Rattle.shared_heap.specs.Workers.{HeapState, WorkerState, CanOpen, AreInOrder, AreEachOnce, AreAmong, AreSome, HasWorker, AreFresh, HasLeft, HasAnswered, HasMade, IsSame, HaveHistoryOfSome, HaveOneHistory, IsDealt, KnowsAll, AreOnes, WasClosedWith, start_worker};
ghost use Rattle.shared_heap.specs.Spans.{IsInTime};
ghost use Rattle.shared_heap.specs.Stamps.{HasDrawn, HasFollowed};
ghost use Rattle.shared_heap.specs.Refusals.{IsOpenFault, IsRefused};

use crate::note::Note;
use crate::port::Port;
use crate::rules::{Announced, Drawn, JoinViews, Law, NoteView, SplitView, View};
use crate::worker::{Worker, objects_of};
use atom_board::drives;
use atomic_table::{Seat, Shared, Table};
use block_store::{Config, OutOfMemory, read_phase};
use control_heap::Refused;
use heap_system::{Local, NoPace, System};
use never_heap::{Command, Reply};
use rate_plan::{PlanFault, plan};
use std::alloc::Global;
use std::marker::Model;
use std::sync::Wait;

/// Why a heap is not opened. Its printed text also says what to do.
#[derive(Clone, Copy, Debug, PartialEq, Eq)]
pub enum OpenFault {
    /// A number of the configuration is out of range. This is checked first.
    OutOfBounds,
    /// The registers and the shared array take more blocks than the live limit.
    LiveTooSmall,
    /// The live limit leaves too little of the heap free: no rate, in units of work per block, is
    /// enough.
    NoRate,
    /// An allocation failed: of the heap's words, of its workers, or of the list of blocks that a
    /// thread holds while it builds an object.
    NoMemory,
}

/// A heap on shared atomic words, which its workers use concurrently.
#[derive(Drop)]
pub struct SharedHeap {
    pub(crate) table: Table<Command, View, System, Law, Global>,
    pub(crate) config: Config,
}

impl Model for SharedHeap {
    ghost use Rattle.std.specs.Prelude.{◌≡◌, ◌<◌, ◌+◌};
    ghost use Rattle.block_store.specs.Places.{extent, words_count};
    ghost use Rattle.shared_heap.specs.Workers.{HeapState};

    ghost Value = { HeapState };

    ghost view = { λ h. record {
      id = h.table.shared.table_id;
      config = h.config;
    } };

    ghost invariant = { λ h. (h.config ≡ h.table.shared.key.config)
        × (h.table.shared.table_id.slots ≡ 0)
        × (h.table.shared.table_id.words ≡ words_count (extent h.config) + 1)
        × (0 < h.config.threads) };
}

// A trace of one command for each thread. The first command that a worker executes replaces it.
fn first_traces(alloc: Global, c: &Config) -> Result<Vec<Vec<Command>>, OutOfMemory>
    ensures { IfOk result (λ v. (length (map (λ x. x.items) v.items) ≡ c.now.threads)
        × AreOnes (map (λ x. x.items) v.items)) }
{
    let mut traces = Vec::with_capacity(alloc, c.threads as usize)?;
    for _thread in 0..c.threads {
        traces.push(vec![in alloc; Command::Nil { d: 0 }]?)?;
    }
    Ok(traces)
}

// A worker for each thread of the seat, in order. The vector `room` has capacity for all of them.
fn dealt(
    shared: &Shared<Command, View, System, Law>,
    config: &Config,
    seat: Seat<Command, View>,
    locals: Vec<Local>,
    room: Vec<Worker>,
) -> Vec<Worker>
    requires table { (seat.table_id ≡ shared.now.table_id) × (shared.now.table_id.slots ≡ 0)
        × (0 < shared.now.table_id.words) }
    requires knows { seat.me
        ≡ (record { threads = map first_held locals.items; notes = [] }, []) }
    requires each { (i : ℕ) (d : LocalState) → i < length locals.items
        → IsDealt shared.now.table_id.words (slice_index_or locals.items i d) }
    requires config { (i : ℕ) (d : LocalState) → i < length locals.items
        → config.now ≡ (slice_index_or locals.items i d).config }
    requires room { (room.items ≡ []) × (length locals.items ≤ vec_capacity room) }
    ensures { result.items ≡ map (start_worker shared.now.table_id) locals.items }
{
    let mut seat = seat;
    let mut workers = room;
    for local in locals {
        let own = shared.split_seat::<SplitView>(&mut seat);
        let port = Port { seat: own };
        workers.push_reserved(Worker {
            port,
            local,
            config: *config,
            count: 0,
            objects: 0,
        });
    }
    workers
}

// The heap at its start, and its workers, for a configuration that has a rate.
fn opened(alloc: Global, c: Config) -> Result<(SharedHeap, Vec<Worker>), OutOfMemory>
    requires { CanOpen c }
    ensures config { IfOk result (λ r. r.0.config ≡ c) }
    ensures workers { IfOk result (λ r. AreInOrder r.0 r.1.items) }
    ensures each { IfOk result (λ r. AreEachOnce r.0 r.1.items) }
    ensures fresh { IfOk result (λ r. AreFresh c r.1.items) }
{
    let traces = first_traces(alloc, &c)?;
    let system = System::new(alloc, c, traces)?;
    let mut words = system.copied_words(alloc)?;
    // The count of stamps.
    words.push(0)?;
    let places = Vec::with_capacity(alloc, c.threads as usize)?;
    let (table, seat) = Table::of_words(alloc, words.as_slice(), &system)?;
    let workers = dealt(&table.shared, &c, seat, system.into_locals(), places);
    Ok((SharedHeap { table, config: c }, workers))
}

// Announces a command for a worker's thread, by a step that changes no word, and begins it.
pub(crate) fn announce(
    shared: &Shared<Command, View, System, Law>,
    port: &mut Port,
    local: &mut Local,
    command: Command,
)
    requires table { (port.old.seat.table_id ≡ shared.now.table_id)
        × (shared.now.table_id.slots ≡ 0) × (0 < shared.now.table_id.words) }
    requires may { MayAnnounce port.old.seat.me port.old.seat.table_id local.old command }
    ensures { HasAnnounced port.old.seat.me port.old.seat.table_id local.old command
        port.new.seat.me port.new.seat.table_id local.new }
{
    shared.compare_exchange_with::<Announced>(&mut port.seat, 0, 0, 0, &command);
    local.begin(command);
}

// The reply of a thread whose log has one entry.
#[inline(always)]
pub(crate) fn reply_of(local: &Local) -> Reply
    requires { length local.now.log ≡ 1 }
    ensures { (d : Entry) → result ≡ (slice_index_or local.now.log 0 d).reply }
{
    local.log()[0].reply
}

// Whether a worker may execute a command.
pub(crate) fn admitted(who: &Worker, command: &Command) -> Result<(), Refused>
    ensures can { OnOk result
        (IsCommandInBounds who.now.thread.config command.now × HasLeft who.now command.now) }
    ensures refused { IfErr result (IsRefused who.now command.now) }
{
    if !command.in_bounds(who.config()) {
        return Err(Refused::OutOfBounds);
    }
    if !who.has_left(command) {
        return Err(Refused::NoLifeLeft);
    }
    Ok(())
}

// The index of a thread's worker, at or after `from`.
fn place_of(who: &[Worker], from: usize, thread: usize) -> usize
    requires { (j : ℕ) × (from ≤ j) × (j < length who.now)
        × ((d : WorkerState) → (slice_index_or who.now j d).thread.thread ≡ thread) }
    ensures low { (from ≤ result) × (result < length who.now) }
    ensures here { (d : WorkerState) → (slice_index_or who.now result d).thread.thread ≡ thread }
{
    for j in from..who.len() {
        if who[j].thread() as usize == thread {
            return j;
        }
    }
    unreachable!()
}

// Sorts the workers by thread.
fn ordered(who: Vec<Worker>, threads: usize) -> Vec<Worker>
    requires count { length who.items ≡ threads }
    requires each { (t : ℕ) → t < threads → HasWorker t who.items }
    ensures count { length result.items ≡ threads }
    ensures order { (t : ℕ) (d : WorkerState) → t < threads
        → (slice_index_or result.items t d).thread.thread ≡ t }
    ensures same { AreAmong result.items who.items }
{
    let mut workers = who;
    for t in 0..threads {
        let at = place_of(&workers, t, t);
        workers.swap(t, at);
    }
    workers
}

// The first of the workers, and the others.
#[tactic(auto, using(crate::proofs::AllWorkers::taken_first))]
pub(crate) fn first_and_rest(who: Vec<Worker>) -> (Worker, Vec<Worker>)
    requires { 0 < length who.items }
    ensures { result.0 ∷ result.1.items ≡ who.items }
{
    let mut rest = who;
    let first = rest.remove(0);
    (first, rest)
}

// The seat of the first worker, joined with the seats of the others.
fn gathered(
    shared: &Shared<Command, View, System, Law>,
    first: Worker,
    rest: Vec<Worker>,
) -> Seat<Command, View>
    requires table { (shared.now.table_id.slots ≡ 0) × (0 < shared.now.table_id.words) }
    requires own { (i : ℕ) (d : WorkerState) → i < length (first ∷ rest.items)
        → (slice_index_or (first ∷ rest.items) i d).heap ≡ shared.now.table_id }
    ensures table { result.table_id ≡ shared.now.table_id }
    ensures knows { KnowsAll result.me (first ∷ rest.items) }
{
    let Worker { port, .. } = first;
    let mut seat = port.seat;
    for worker in rest {
        let Worker { port, .. } = worker;
        shared.join_seat::<JoinViews>(&mut seat, port.seat);
    }
    seat
}

impl SharedHeap {
    /// Opens a heap. Returns it with one worker for each of its threads, in thread order. No worker
    /// has executed a command yet. No later call on the heap or its workers allocates.
    ///
    /// # Errors
    ///
    /// The first of these that applies: `OutOfBounds` if a number of the configuration is out of
    /// range; `LiveTooSmall` and `NoRate` where `rate_plan::plan` returns them; `NoMemory` if an
    /// allocation failed.
    pub fn open(alloc: Global, c: Config) -> Result<(SharedHeap, Vec<Worker>), OpenFault>
        ensures can { OnOk result (CanOpen c) }
        ensures config { IfOk result (λ r. r.0.config ≡ c) }
        ensures workers { IfOk result (λ r. AreInOrder r.0 r.1.items) }
        ensures each { IfOk result (λ r. AreEachOnce r.0 r.1.items) }
        ensures fresh { IfOk result (λ r. AreFresh c r.1.items) }
        ensures refused { IfErr result (IsOpenFault c) }
    {
        if !c.in_bounds() {
            return Err(OpenFault::OutOfBounds);
        }
        match plan(&c) {
            Err(PlanFault::LiveTooSmall) => Err(OpenFault::LiveTooSmall),
            Err(PlanFault::NoRate) => Err(OpenFault::NoRate),
            Ok(_) => match opened(alloc, c) {
                Ok(heap) => Ok(heap),
                Err(_) => Err(OpenFault::NoMemory),
            },
        }
    }

    /// The heap's configuration.
    pub fn config(&self) -> &Config
        ensures { result.now ≡ self.now.config }
    {
        &self.config
    }

    /// Executes a command by one of this heap's workers, and returns its reply. The command must be
    /// in bounds and within the worker's lifetime.
    ///
    /// Other threads may use other workers meanwhile. The call may wait for them at the gate and at
    /// a free list, and it retries where another thread changed a word first. On the shared words
    /// one operation announces the command and changes nothing; then each event is one operation.
    /// The worker's thread makes the command's events and no others (`made`). The loop that makes
    /// them has no other operation (`atom_board::drives`); the lines around it are listed in
    /// `tools/steps`.
    ///
    /// Where the heap has one worker, the command took at most the turns of a thread that runs
    /// alone (`in_time`). So it did where nobody was inside and the gate was open when it was
    /// announced, and no other worker had a turn from then to its last event.
    pub fn request<R: Wait>(&self, rt: &R, who: &mut Worker, command: Command) -> Reply
        requires heap { who.old.heap ≡ self.now.id }
        requires bounds { IsCommandInBounds who.old.thread.config command }
        requires left { HasLeft who.old command }
        ensures same { IsSame who.old who.new }
        ensures answered { HasAnswered who.old command result who.new }
        ensures made { HasMade who.old command who.new }
        ensures in_time { IsInTime who.old.thread.config command who.new.span }
    {
        let shared = &self.table.shared;
        announce(shared, &mut who.port, &mut who.local, command);
        drives(rt, &mut who.port, shared, &mut who.local, &NoPace);
        who.count += 1;
        who.objects += objects_of(command);
        reply_of(&who.local)
    }

    /// Checks a command, and then executes it as `request` does.
    ///
    /// # Errors
    ///
    /// `OutOfBounds` exactly if the command is not in bounds, and `NoLifeLeft` exactly if it is in
    /// bounds and exceeds the worker's lifetime. The worker is then unchanged.
    pub fn ask<R: Wait>(&self, rt: &R, who: &mut Worker, command: Command) -> Result<Reply, Refused>
        requires heap { who.old.heap ≡ self.now.id }
        ensures same { IsSame who.old who.new }
        ensures can { OnOk result
            (IsCommandInBounds who.old.thread.config command × HasLeft who.old command) }
        ensures answered { IfOk result (λ reply. HasAnswered who.old command reply who.new) }
        ensures made { OnOk result (HasMade who.old command who.new) }
        ensures in_time { OnOk result (IsInTime who.old.thread.config command who.new.span) }
        ensures refused { IfErr result (IsRefused who.old command) }
        ensures unchanged { OnErr result (who.new ≡ who.old) }
    {
        admitted(who, &command)?;
        Ok(self.request(rt, who, command))
    }

    /// Makes a note of the history that a worker of this heap has seen. It has all commands that
    /// the worker has executed, and those of others that come before them.
    pub fn note(&self, who: &mut Worker) -> Note
        requires { who.old.heap ≡ self.now.id }
        ensures heap { result.heap ≡ self.now.id }
        ensures seen { result.seen ≡ who.old.seen }
        ensures same { who.new ≡ who.old }
    {
        let seat = self.table.shared.split_seat::<NoteView>(&mut who.port.seat);
        Note { seat }
    }

    /// Gives a worker of this heap a note of another. The commands that the worker executes from
    /// now on come after everything that the note covers in the heap's history.
    pub fn learn(&self, who: &mut Worker, note: Note)
        requires heap { who.old.heap ≡ self.now.id }
        requires note { note.heap ≡ self.now.id }
        ensures { who.new ≡ record who.old { notes = who.old.notes ++ note.seen ∷ [] } }
    {
        let Note { seat } = note;
        self.table
            .shared
            .join_seat::<JoinViews>(&mut who.port.seat, seat);
    }

    /// Draws a stamp for a worker of this heap: a number to compare with the stamps of other
    /// workers, which passes through any channel. A worker whose stamp is no less than another's
    /// has seen all that that one had seen at its own, unless 2^64 were drawn
    /// (`stamps_are_in_order`). So its next commands come after that.
    ///
    /// It never waits. Its code makes one operation on the shared words (`tools/steps`). `in_time`
    /// of the last command no longer speaks of the worker's span.
    pub fn stamp(&self, who: &mut Worker) -> u64
        requires { who.old.heap ≡ self.now.id }
        ensures { HasDrawn who.old result who.new }
    {
        let place = self.table.word_count() - 1;
        self.table
            .shared
            .fetch_add::<Drawn>(&mut who.port.seat, place, 1)
    }

    /// Gives a worker of this heap a stamp of another, and returns whether it has now seen all that
    /// that one had seen at its stamp: it draws a stamp of its own, which is then no less
    /// (`stamps_are_in_order`). That is so wherever this call began after the other `stamp`
    /// returned, unless 2^64 were drawn.
    pub fn follow(&self, who: &mut Worker, stamp: u64) -> bool
        requires { who.old.heap ≡ self.now.id }
        ensures { HasFollowed who.old stamp result who.new }
    {
        let own = self.stamp(who);
        stamp <= own
    }

    /// Closes the heap. It takes all of its workers, each once, in any order. One history has all
    /// the commands that they executed, with their replies. Returns how many cycles of collection
    /// were started.
    pub fn close(self, who: Vec<Worker>) -> u64
        requires { AreEachOnce self who.items }
        ensures { HaveOneHistory self.config who.items result }
    {
        let threads = self.config.threads as usize;
        let workers = ordered(who, threads);
        self.close_in_order(workers)
    }

    /// Closes the heap with some of its workers, at least one, in any order. The others may be
    /// lost, or in the middle of a command. One history has all the commands that these workers
    /// executed, with their replies, and of the others' commands at least what these workers saw.
    /// Returns how many cycles of collection were started.
    pub fn close_some(self, who: Vec<Worker>) -> u64
        requires { AreSome self who.items }
        ensures { HaveHistoryOfSome self.config who.items result }
    {
        self.closed_with(who)
    }

    // The same for all workers in thread order.
    fn close_in_order(self, who: Vec<Worker>) -> u64
        requires order { AreInOrder self who.items }
        requires some { 0 < length who.items }
        ensures { HaveOneHistory self.config who.items result }
    {
        self.closed_with(who)
    }

    // Closes the table with the seats of these workers.
    fn closed_with(self, who: Vec<Worker>) -> u64
        requires { AreSome self who.items }
        ensures { WasClosedWith self.config who.items result }
    {
        let SharedHeap { table, .. } = self;
        let (first, rest) = first_and_rest(who);
        let seat = gathered(&table.shared, first, rest);
        let closed = table.close_with(seat);
        let cycles = read_phase(closed.word(0)).cycle;
        closed.free();
        cycles
    }
}
