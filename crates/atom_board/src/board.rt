//! The words as a table, and the turns of its mutators.

ghost use Rattle.std.specs.Prelude.{◌≡◌, ◌+◌, ◌<◌, ◌≤◌, ℕ, List, [], ◌∷◌, ◌++◌, false, true, map, length, slice_index_or, IfOk};
ghost use Rattle.block_store.specs.Places.{extent, words_count};
ghost use Rattle.never_heap.specs.declared.Command.{Command};
ghost use Rattle.std.specs.Vec.{vec_capacity};
ghost use Rattle.heap_system.specs.Locals.{LocalState, is_done};
ghost use Rattle.heap_system.specs.Machines.{IsJob};
ghost use Rattle.heap_system.specs.Systems.{IsFinished};
ghost use Rattle.heap_system.specs.declared.Turn.TheVariants as turns;
ghost use Rattle.atom_board.specs.Boards.{start_held};
ghost use Rattle.atom_board.specs.Drives.{HasTurnedBy};
ghost use Rattle.atom_board.specs.LoneTurns.{EndsAlone};
ghost use Rattle.atom_board.specs.Mutators.{BoardState, MutatorState, AreInOrder, AreEachOnce, HasMutator, AreAmong, AreLogsOf, AllAreDone, AreFresh, HasFewTurns, Moved, IsLater, IsFinishedBy, start_mutator, held_of, local_of, log_of};

use crate::closed::Closed;
use crate::driver::drives;
use crate::mutator::Mutator;
use crate::port::Port;
use crate::rules::{JoinViews, Law, SplitView, View};
use atomic_table::{Seat, Shared, Table};
use block_store::{Config, OutOfMemory, read_phase};
use heap_system::{Local, Pace, System, Turn};
use never_heap::Command;
use std::alloc::Global;
use std::marker::Model;
use std::sync::Wait;

/// The shared words of a heap, on which its mutators make their turns.
#[derive(Drop)]
pub struct AtomBoard {
    pub(crate) table: Table<(), View, System, Law, Global>,
    pub(crate) config: Config,
    // For the threads, when it is closed.
    pub(crate) room: Vec<Local>,
}

impl Model for AtomBoard {
    ghost use Rattle.std.specs.Prelude.{◌≡◌, ◌<◌, ◌≤◌, []};
    ghost use Rattle.std.specs.Vec.{vec_capacity};
    ghost use Rattle.block_store.specs.Places.{extent, words_count};
    ghost use Rattle.heap_system.specs.Systems.{traces_of};
    ghost use Rattle.atom_board.specs.Mutators.{BoardState};

    ghost Value = { BoardState };

    ghost view = { λ b. record {
      id = b.table.shared.table_id;
      config = b.config;
      traces = traces_of b.table.shared.key.state;
    } };

    ghost invariant = { λ b. (b.config ≡ b.table.shared.key.config)
        × (b.table.shared.table_id.slots ≡ 0)
        × (b.table.shared.table_id.words ≡ words_count (extent b.config))
        × (0 < b.config.threads)
        × (b.room.items ≡ [])
        × (b.config.threads ≤ vec_capacity b.room) };
}

// A mutator for each thread of the seat, in order. Their room was taken before.
fn dealt(
    shared: &Shared<(), View, System, Law>,
    seat: Seat<(), View>,
    locals: Vec<Local>,
    room: Vec<Mutator>,
) -> Vec<Mutator>
    requires table { (seat.table_id ≡ shared.now.table_id) × (shared.now.table_id.slots ≡ 0)
        × (0 < shared.now.table_id.words) }
    requires knows { seat.me ≡ (record { locals = map start_held locals.items }, []) }
    requires words { (i : ℕ) (d : LocalState) → i < length locals.items
        → words_count (extent (slice_index_or locals.items i d).config)
        ≡ shared.now.table_id.words }
    requires few { (i : ℕ) (d : LocalState) → i < length locals.items
        → EndsAlone (slice_index_or locals.items i d) 0 }
    requires room { (room.items ≡ []) × (length locals.items ≤ vec_capacity room) }
    ensures { result.items ≡ map (start_mutator shared.now.table_id) locals.items }
{
    let mut seat = seat;
    let mut mutators = room;
    for local in locals {
        let own = shared.split_seat::<SplitView>(&mut seat);
        let port = Port { seat: own };
        mutators.push_reserved(Mutator { port, local });
    }
    mutators
}

// The place of the mutator of a thread, from place `from` on.
fn place_of(who: &[Mutator], from: usize, thread: usize) -> usize
    requires { (j : ℕ) × (from ≤ j) × (j < length who.now)
        × ((d : MutatorState) → (slice_index_or who.now j d).local.thread ≡ thread) }
    ensures low { (from ≤ result) × (result < length who.now) }
    ensures here { (d : MutatorState) → (slice_index_or who.now result d).local.thread ≡ thread }
{
    for j in from..who.len() {
        if who[j].thread() as usize == thread {
            return j;
        }
    }
    unreachable!()
}

// The mutators in the order of their threads.
fn ordered(who: Vec<Mutator>, threads: usize) -> Vec<Mutator>
    requires count { length who.items ≡ threads }
    requires each { (t : ℕ) → t < threads → HasMutator t who.items }
    ensures count { length result.items ≡ threads }
    ensures order { (t : ℕ) (d : MutatorState) → t < threads
        → (slice_index_or result.items t d).local.thread ≡ t }
    ensures same { AreAmong result.items who.items }
{
    let mut mutators = who;
    for t in 0..threads {
        let at = place_of(&mutators, t, t);
        mutators.swap(t, at);
    }
    mutators
}

// The first of the mutators, and the others.
#[tactic(auto, using(crate::proofs::AllMutators::taken_first))]
fn first_and_rest(who: Vec<Mutator>) -> (Mutator, Vec<Mutator>)
    requires { 0 < length who.items }
    ensures { result.0 ∷ result.1.items ≡ who.items }
{
    let mut rest = who;
    let first = rest.remove(0);
    (first, rest)
}

// The seat of the first mutator with the threads of all, and these threads. Their room was taken
// before.
fn gathered(
    shared: &Shared<(), View, System, Law>,
    first: Mutator,
    rest: Vec<Mutator>,
    room: Vec<Local>,
) -> (Seat<(), View>, Vec<Local>)
    requires table { (shared.now.table_id.slots ≡ 0) × (0 < shared.now.table_id.words) }
    requires own { (i : ℕ) (d : MutatorState) → i < length (first ∷ rest.items)
        → (slice_index_or (first ∷ rest.items) i d).board ≡ shared.now.table_id }
    requires room { (room.items ≡ []) × (length (first ∷ rest.items) ≤ vec_capacity room) }
    ensures table { result.0.table_id ≡ shared.now.table_id }
    ensures knows { result.0.me ≡ (record { locals = map held_of (first ∷ rest.items) }, []) }
    ensures locals { result.1.items ≡ map local_of (first ∷ rest.items) }
{
    let Mutator { port, local } = first;
    let mut seat = port.seat;
    let mut locals = room;
    locals.push_reserved(local);
    for mutator in rest {
        let Mutator { port, local } = mutator;
        shared.join_seat::<JoinViews>(&mut seat, port.seat);
        locals.push_reserved(local);
    }
    (seat, locals)
}

impl AtomBoard {
    /// The board of a configuration that has a rate, with a trace for each thread, and a mutator
    /// for each thread, in order. A trace is one life: its commands are in bounds, owe at most 2^45
    /// units, and fewer than 2^43 of them make an object.
    ///
    /// # Errors
    ///
    /// `OutOfMemory` where there is no room for the words, the threads, their logs or the blocks
    /// that they hold while they build an object.
    pub fn new(
        alloc: Global,
        c: Config,
        traces: Vec<Vec<Command>>,
    ) -> Result<(AtomBoard, Vec<Mutator>), OutOfMemory>
        requires { IsJob c (map (λ v. v.items) traces.items) }
        ensures board { IfOk result (λ r. (r.0.config ≡ c)
            × (r.0.traces ≡ map (λ v. v.items) traces.items)) }
        ensures mutators { IfOk result (λ r. AreInOrder r.0 r.1.items) }
        ensures start { IfOk result (λ r. AreFresh c (map (λ v. v.items) traces.items) r.1.items) }
    {
        let system = System::new(alloc, c, traces)?;
        let words = system.copied_words(alloc)?;
        let places = Vec::with_capacity(alloc, c.threads as usize)?;
        let room = Vec::with_capacity(alloc, c.threads as usize)?;
        let (table, seat) = Table::of_words(alloc, words.as_slice(), &system)?;
        let mutators = dealt(&table.shared, seat, system.into_locals(), places);
        let board = AtomBoard {
            table,
            config: c,
            room,
        };
        Ok((board, mutators))
    }

    /// The configuration.
    pub fn config(&self) -> &Config
        ensures { result.now ≡ self.now.config }
    {
        &self.config
    }

    /// Makes the event that a mutator of this board wants, as one step of the table. Nothing
    /// changes where it is done. Where the configuration has one thread, the turns that lead to its
    /// end are at most as many as the bounds of its commands sum up to.
    pub fn turn(&self, who: &mut Mutator) -> Turn
        requires { who.old.board ≡ self.now.id }
        ensures done { is_done who.old.local ≡ true
            → (result ≡ turns.Done) × (who.new ≡ who.old) }
        ensures moved { is_done who.old.local ≡ false → Moved who.old who.new result }
        ensures later { IsLater who.old who.new }
        ensures few { HasFewTurns who.new }
    {
        if who.local.done() {
            return Turn::Done;
        }
        self.event(who)
    }

    // The turn of a mutator that is not done.
    #[inline(always)]
    fn event(&self, who: &mut Mutator) -> Turn
        requires board { who.old.board ≡ self.now.id }
        requires going { is_done who.old.local ≡ false }
        ensures moved { Moved who.old who.new result }
        ensures later { IsLater who.old who.new }
        ensures few { HasFewTurns who.new }
    {
        // The port asks that the place is one of its words.
        who.local.wants_a_word();
        who.local.event(&mut who.port, &self.table.shared)
    }

    /// Makes turns of a mutator of this board until it is done, and tells the pace before each
    /// command. After a turn that waited it pauses, longer each time until it gets on: until it
    /// has made a unit or ended a command. Where the configuration has one thread, it makes at most
    /// as many turns as the bounds of the commands sum up to. Each turn reads one word.
    pub fn drive<R: Wait, Q: Pace>(&self, rt: &R, who: Mutator, pace: &Q) -> Mutator
        requires { who.board ≡ self.now.id }
        ensures later { IsLater who result }
        ensures done { is_done result.local ≡ true }
        ensures few { HasFewTurns result }
        ensures made { HasTurnedBy who result }
    {
        let Mutator { port, local } = who;
        let mut port = port;
        let mut local = local;
        drives(rt, &mut port, &self.table.shared, &mut local, pace);
        Mutator { port, local }
    }

    /// Ends a run whose mutators are all done. They are all of this board's, each once, in any
    /// order. The run that it shows is that of the turns which they made.
    pub fn close(self, who: Vec<Mutator>) -> Closed
        requires mutators { AreEachOnce self who.items }
        requires done { AllAreDone who.items }
        ensures config { result.config ≡ self.config }
        ensures logs { AreLogsOf result.logs who.items }
        ensures finished { IsFinished self.config self.traces result.logs result.cycles }
        ensures counted { IsFinishedBy self.config self.traces who.items result.logs result.cycles }
    {
        let threads = self.config.threads as usize;
        let mutators = ordered(who, threads);
        self.close_in_order(mutators)
    }

    // The same of mutators in the order of their threads.
    fn close_in_order(self, who: Vec<Mutator>) -> Closed
        requires mutators { AreInOrder self who.items }
        requires done { AllAreDone who.items }
        ensures config { result.config ≡ self.config }
        ensures logs { result.logs ≡ map log_of who.items }
        ensures counted { IsFinishedBy self.config self.traces who.items result.logs result.cycles }
    {
        let AtomBoard {
            table,
            config,
            room,
        } = self;
        let (first, rest) = first_and_rest(who);
        let (seat, locals) = gathered(&table.shared, first, rest, room);
        let closed = table.close_with(seat);
        let cycles = read_phase(closed.word(0)).cycle;
        closed.free();
        Closed {
            config,
            cycles,
            locals,
        }
    }
}
