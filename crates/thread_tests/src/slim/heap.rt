//! Calls of `shared_heap`.

ghost use Rattle.std.specs.Prelude.{◌≡◌, ◌<◌, ◌∷◌, length, IfOk};
ghost use Rattle.shared_heap.specs.Workers.{AreEachOnce, AreInOrder, IsSame, IsWorkerOf};

use block_store::{Config, Name, OutOfMemory, Value, Width};
use never_heap::{Command, Reply};
use shared_heap::{Fault, OpenFault, Pending, Refused, SharedHeap, Worker};
use std::alloc::Global;
use std::marker::Model;
use std::sync::Wait;

pub fn heap_of(threads: u32) -> Config
    ensures { result.threads ≡ threads }
{
    Config {
        width: Width::Eight,
        threads,
        blocks: 400,
        live: 160,
        object: 3,
        shared: 5,
    }
}

pub fn open(alloc: Global, threads: u32) -> Result<(SharedHeap, Vec<Worker>), OpenFault>
    ensures threads { IfOk result (λ r. r.0.config.threads ≡ threads) }
    ensures workers { IfOk result (λ r. AreInOrder r.0 r.1.items) }
{
    SharedHeap::open(alloc, heap_of(threads))
}

// Why a heap is not opened.
pub fn fault_of(alloc: Global, c: Config) -> Option<OpenFault> {
    SharedHeap::open(alloc, c).err()
}

pub fn ask<R: Wait>(
    rt: &R,
    heap: &SharedHeap,
    who: &mut Worker,
    command: Command,
) -> Result<Reply, Refused>
    requires { who.old.heap ≡ heap.now.id }
    ensures own { who.new.heap ≡ heap.now.id }
    ensures same { IsSame who.old who.new }
{
    heap.ask(rt, who, command)
}

pub fn asked(who: &Worker) -> u64 {
    who.asked()
}

pub fn objects_left(who: &Worker) -> u64 {
    who.objects_left()
}

// Gives the second worker a note of the first.
#[tactic(auto, using(shared_heap::proofs::AllWorkers::same_here, shared_heap::proofs::AllWorkers::same_on))]
pub fn pass_note(heap: &SharedHeap, from: &mut Worker, to: &mut Worker)
    requires from { from.old.heap ≡ heap.now.id }
    requires to { to.old.heap ≡ heap.now.id }
    ensures from { IsSame from.old from.new }
    ensures to { IsSame to.old to.new }
{
    let note = heap.note(from);
    heap.learn(to, note);
}

// Draws a stamp for the first worker, and then for the second.
#[tactic(auto, using(shared_heap::proofs::DrawnStamps::drawn_same))]
pub fn stamps(heap: &SharedHeap, first: &mut Worker, second: &mut Worker) -> (u64, u64)
    requires first { first.old.heap ≡ heap.now.id }
    requires second { second.old.heap ≡ heap.now.id }
    ensures second { second.new.heap ≡ heap.now.id }
{
    (heap.stamp(first), heap.stamp(second))
}

// The first of the workers, and the others.
#[tactic(auto, using(shared_heap::proofs::AllWorkers::taken_first))]
fn first_and_rest(who: Vec<Worker>) -> (Worker, Vec<Worker>)
    requires { 0 < length who.items }
    ensures { result.0 ∷ result.1.items ≡ who.items }
{
    let mut rest = who;
    let first = rest.remove(0);
    (first, rest)
}

// The two workers of a heap.
pub fn two_of(heap: &SharedHeap, workers: Vec<Worker>) -> (Worker, Worker)
    requires workers { AreInOrder heap.now workers.items }
    requires two { heap.now.config.threads ≡ 2 }
    ensures first { IsWorkerOf heap.now 0 result.0 }
    ensures second { IsWorkerOf heap.now 1 result.1 }
{
    let (first, rest) = first_and_rest(workers);
    let (second, _none) = first_and_rest(rest);
    (first, second)
}

pub fn close(heap: SharedHeap, workers: Vec<Worker>) -> u64
    requires { AreEachOnce heap workers.items }
{
    heap.close(workers)
}

// Closes a heap of two with its workers in the opposite order.
pub fn close_swapped(
    alloc: Global,
    heap: SharedHeap,
    first: Worker,
    second: Worker,
) -> Result<u64, OutOfMemory>
    requires two { heap.config.threads ≡ 2 }
    requires first { IsWorkerOf heap 0 first }
    requires second { IsWorkerOf heap 1 second }
{
    let workers = vec![in alloc; second, first]?;
    Ok(heap.close(workers))
}

// Closes a heap with one of its workers.
pub fn close_with_one(alloc: Global, heap: SharedHeap, who: Worker) -> Result<u64, OutOfMemory>
    requires { who.heap ≡ heap.id }
{
    let workers = vec![in alloc; who]?;
    Ok(heap.close_some(workers))
}

/// A worker beside its heap.
#[derive(Drop)]
pub struct Seat<'h> {
    heap: &'h SharedHeap,
    who: Worker,
}

impl<'h> Model for Seat<'h> {
    ghost use Rattle.std.specs.Prelude.{◌≡◌};
    ghost use Rattle.shared_heap.specs.Workers.{WorkerState};

    ghost Value = { WorkerState };

    ghost view = { λ s. s.who };

    ghost invariant = { λ s. s.who.heap ≡ s.heap.now.id };
}

/// A command of a worker that has been started, beside its heap.
#[derive(Drop)]
pub struct Started<'h> {
    heap: &'h SharedHeap,
    pending: Pending,
}

impl<'h> Model for Started<'h> {
    ghost use Rattle.std.specs.Prelude.{◌≡◌};
    ghost use Rattle.shared_heap.specs.Pending.{PendingState};

    ghost Value = { PendingState };

    ghost view = { λ s. s.pending };

    ghost invariant = { λ s. (s.pending.heap ≡ s.heap.now.id)
        × (s.pending.worker.heap ≡ s.heap.now.id) };
}

impl<'h> Seat<'h> {
    pub fn of(heap: &'h SharedHeap, who: Worker) -> Seat<'h>
        requires { who.heap ≡ heap.now.id }
    {
        Seat { heap, who }
    }

    pub fn thread(&self) -> u32 {
        self.who.thread()
    }

    pub fn asked(&self) -> u64 {
        self.who.asked()
    }

    pub fn units_left(&self) -> u64 {
        self.who.units_left()
    }

    pub fn units_made(&self) -> u64 {
        self.who.units_made()
    }

    pub fn objects_made(&self) -> u64 {
        self.who.objects_made()
    }

    pub fn commands_left(&self) -> u64 {
        self.who.commands_left()
    }

    pub fn rate(&self) -> u64 {
        self.who.rate()
    }

    pub fn ask<R: Wait>(&mut self, rt: &R, command: Command) -> Result<Reply, Refused> {
        self.heap.ask(rt, &mut self.who, command)
    }

    // Makes a note and learns it.
    pub fn learn_own_note(&mut self) {
        let note = self.heap.note(&mut self.who);
        self.heap.learn(&mut self.who, note);
    }

    pub fn start(self, command: Command) -> Result<Started<'h>, (Seat<'h>, Refused)> {
        let Seat { heap, who } = self;
        match heap.start(who, command) {
            Ok(pending) => Ok(Started { heap, pending }),
            Err((who, refused)) => Err((Seat { heap, who }, refused)),
        }
    }

    /// Makes a command by its own call.
    pub fn call<R: Wait>(&mut self, rt: &R, command: Command) -> Told {
        match command {
            Command::New { d, fields } => self.record(rt, d, fields),
            Command::Arr { d, elements } => self.array(rt, d, elements),
            Command::Get { d, s, i } => self.get(rt, d, s, i),
            Command::Put { s, i, v } => self.put(rt, s, i, v),
            Command::Swap { s, i, v } => self.swap(rt, s, i, v),
            Command::Cas { s, i, a, v } => self.cas(rt, s, i, a, v),
            Command::Set { d, value } => self.set(rt, d, value),
            Command::Nil { d } => self.nil(rt, d),
            Command::Mov { d, s } => self.mov(rt, d, s),
            Command::Len { s } => self.len(rt, s),
            Command::Same { a, b } => self.same(rt, a, b),
            Command::Say { s } => self.say(rt, s),
            Command::Idle { units } => self.idle(rt, units),
        }
    }

    fn record<R: Wait>(&mut self, rt: &R, d: u8, fields: u32) -> Told {
        made(self.heap.record(rt, &mut self.who, d, fields))
    }

    fn array<R: Wait>(&mut self, rt: &R, d: u8, elements: u32) -> Told {
        made(self.heap.array(rt, &mut self.who, d, elements))
    }

    fn get<R: Wait>(&mut self, rt: &R, d: u8, s: u8, i: u64) -> Told {
        shown(self.heap.get(rt, &mut self.who, d, s, i))
    }

    fn put<R: Wait>(&mut self, rt: &R, s: u8, i: u64, v: u8) -> Told {
        done(self.heap.put(rt, &mut self.who, s, i, v))
    }

    fn swap<R: Wait>(&mut self, rt: &R, s: u8, i: u64, v: u8) -> Told {
        shown(self.heap.swap(rt, &mut self.who, s, i, v))
    }

    fn cas<R: Wait>(&mut self, rt: &R, s: u8, i: u64, a: u8, v: u8) -> Told {
        compared(self.heap.cas(rt, &mut self.who, s, i, a, v))
    }

    fn set<R: Wait>(&mut self, rt: &R, d: u8, value: u64) -> Told {
        done(self.heap.set(rt, &mut self.who, d, value))
    }

    fn nil<R: Wait>(&mut self, rt: &R, d: u8) -> Told {
        done(self.heap.nil(rt, &mut self.who, d))
    }

    fn mov<R: Wait>(&mut self, rt: &R, d: u8, s: u8) -> Told {
        done(self.heap.mov(rt, &mut self.who, d, s))
    }

    fn len<R: Wait>(&mut self, rt: &R, s: u8) -> Told {
        counted(self.heap.len(rt, &mut self.who, s))
    }

    fn same<R: Wait>(&mut self, rt: &R, a: u8, b: u8) -> Told {
        compared(self.heap.same(rt, &mut self.who, a, b))
    }

    fn say<R: Wait>(&mut self, rt: &R, s: u8) -> Told {
        shown(self.heap.say(rt, &mut self.who, s))
    }

    fn idle<R: Wait>(&mut self, rt: &R, units: u64) -> Told {
        done(self.heap.idle(rt, &mut self.who, units))
    }
}

/// What the call of a command returned.
#[derive(Clone, Copy, Debug, PartialEq, Eq)]
pub enum Told {
    Made,
    Done,
    Shown(Value),
    Counted(u64),
    Compared(bool),
    Fault(Fault),
}

fn made(told: Result<Name, Fault>) -> Told {
    match told {
        Ok(_) => Told::Made,
        Err(fault) => Told::Fault(fault),
    }
}

fn done(told: Result<(), Fault>) -> Told {
    match told {
        Ok(()) => Told::Done,
        Err(fault) => Told::Fault(fault),
    }
}

fn shown(told: Result<Value, Fault>) -> Told {
    match told {
        Ok(value) => Told::Shown(value),
        Err(fault) => Told::Fault(fault),
    }
}

fn counted(told: Result<u64, Fault>) -> Told {
    match told {
        Ok(count) => Told::Counted(count),
        Err(fault) => Told::Fault(fault),
    }
}

fn compared(told: Result<bool, Fault>) -> Told {
    match told {
        Ok(yes) => Told::Compared(yes),
        Err(fault) => Told::Fault(fault),
    }
}

impl<'h> Started<'h> {
    pub fn poll(self, most: u64) -> Result<(Seat<'h>, Reply), Started<'h>> {
        let Started { heap, pending } = self;
        match heap.poll(pending, most) {
            Ok((who, reply)) => Ok((Seat { heap, who }, reply)),
            Err(pending) => Err(Started { heap, pending }),
        }
    }
}
