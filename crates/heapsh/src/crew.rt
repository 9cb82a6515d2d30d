//! A shared heap with its workers, each between two commands or amid one.

ghost use Rattle.std.specs.Prelude.{◌≡◌, ◌<◌, ℕ, true, length, slice_index_or, IfErr, IfOk, IfSome};
ghost use Rattle.std.specs.List.{All};
ghost use Rattle.shared_heap.specs.Workers.{HasWorker, WorkerState};
ghost use Rattle.heapsh.specs.Seats.{IsBegunOn, IsOf};

use block_store::{Config, OutOfMemory};
use never_heap::{Command, Reply};
use shared_heap::{Note, OpenFault, Pending, Refused, SharedHeap, Worker};
use std::alloc::Global;
use std::marker::Model;

/// A command that a worker has begun.
#[derive(Drop)]
pub struct Begun {
    thread: u32,
    // The units that the worker had made before.
    before: u64,
    pending: Pending,
}

/// What a worker is to do.
#[derive(Clone, Copy)]
pub enum Deed {
    Start(Command),
    Poll(u64),
    Stamp,
    Note,
    Learn,
    Lose,
}

/// What came of it.
#[derive(Clone, Copy)]
pub enum Came {
    /// It is done.
    Done,
    /// The command is not done.
    Waits,
    /// The command is done, with the units that it made.
    Replied(Reply, u64),
    Refused(Refused),
    Stamp(u64),
    /// No worker is between two commands.
    NoWorker,
    /// No command is under way.
    NoCommand,
    /// No note was made.
    NoNote,
    /// The heap has no such thread.
    NoThread,
}

/// A shared heap, its workers that are between two commands, the commands under way, and the last
/// note.
#[derive(Drop)]
pub struct Crew {
    heap: SharedHeap,
    workers: Vec<Worker>,
    begun: Vec<Begun>,
    note: Option<Note>,
}

impl Model for Crew {
    ghost use Rattle.std.specs.Prelude.{◌≡◌, IfSome};
    ghost use Rattle.std.specs.List.{All};
    ghost use Rattle.shared_heap.specs.Workers.{HeapState};
    ghost use Rattle.heapsh.specs.Seats.{IsBegunOn, IsOf};

    ghost Value = { HeapState };

    ghost view = { λ c. c.heap };

    ghost invariant = { λ c. All (IsOf c.heap.id) c.workers.items
        × All (IsBegunOn c.heap.id) c.begun.items
        × IfSome c.note (λ n. n.heap ≡ c.heap.id) };
}

/// The place of the worker of a thread.
fn place_of_worker(workers: &Vec<Worker>, thread: u32) -> Option<usize>
    ensures low { IfSome result (λ j. j < length workers.now.items) }
    ensures here { IfSome result (λ j. (d : WorkerState)
        → (slice_index_or workers.now.items j d).thread.thread ≡ thread) }
{
    for j in 0..workers.len() {
        if workers[j].thread() == thread {
            return Some(j);
        }
    }
    None
}

/// The place of the command of a thread.
fn place_of_begun(begun: &Vec<Begun>, thread: u32) -> Option<usize>
    ensures { IfSome result (λ j. j < length begun.now.items) }
{
    for j in 0..begun.len() {
        if begun[j].thread == thread {
            return Some(j);
        }
    }
    None
}

/// Takes the worker at a place.
#[tactic(auto, using(crate::proofs::WorkerSeats::worker_removed, crate::proofs::WorkerSeats::worker_at))]
fn worker_at(_heap: &SharedHeap, workers: &mut Vec<Worker>, place: usize) -> Worker
    requires place { place < length workers.old.items }
    requires own { All (IsOf _heap.now.id) workers.old.items }
    ensures rest { All (IsOf _heap.now.id) workers.new.items }
    ensures taken { IsOf _heap.now.id result }
{
    workers.remove(place)
}

/// Takes the command at a place.
#[tactic(auto, using(crate::proofs::WorkerSeats::begun_removed, crate::proofs::WorkerSeats::begun_at))]
fn begun_at(_heap: &SharedHeap, begun: &mut Vec<Begun>, place: usize) -> Begun
    requires place { place < length begun.old.items }
    requires own { All (IsBegunOn _heap.now.id) begun.old.items }
    ensures rest { All (IsBegunOn _heap.now.id) begun.new.items }
    ensures taken { IsBegunOn _heap.now.id result }
{
    begun.remove(place)
}

/// Takes the worker of a thread.
fn take_worker(heap: &SharedHeap, workers: &mut Vec<Worker>, thread: u32) -> Option<Worker>
    requires { All (IsOf heap.now.id) workers.old.items }
    ensures rest { All (IsOf heap.now.id) workers.new.items }
    ensures taken { IfSome result (IsOf heap.now.id) }
{
    match place_of_worker(workers, thread) {
        Some(place) => Some(worker_at(heap, workers, place)),
        None => None,
    }
}

/// Takes the command of a thread.
fn take_begun(heap: &SharedHeap, begun: &mut Vec<Begun>, thread: u32) -> Option<Begun>
    requires { All (IsBegunOn heap.now.id) begun.old.items }
    ensures rest { All (IsBegunOn heap.now.id) begun.new.items }
    ensures taken { IfSome result (IsBegunOn heap.now.id) }
{
    match place_of_begun(begun, thread) {
        Some(place) => Some(begun_at(heap, begun, place)),
        None => None,
    }
}

fn add_worker(
    _heap: &SharedHeap,
    workers: &mut Vec<Worker>,
    worker: Worker,
) -> Result<(), OutOfMemory>
    requires all { All (IsOf _heap.now.id) workers.old.items }
    requires own { IsOf _heap.now.id worker }
    ensures { All (IsOf _heap.now.id) workers.new.items }
{
    workers.push(worker)?;
    Ok(())
}

fn add_begun(_heap: &SharedHeap, list: &mut Vec<Begun>, begun: Begun) -> Result<(), OutOfMemory>
    requires all { All (IsBegunOn _heap.now.id) list.old.items }
    requires own { IsBegunOn _heap.now.id begun }
    ensures { All (IsBegunOn _heap.now.id) list.new.items }
{
    list.push(begun)?;
    Ok(())
}

/// Announces a command.
fn begin(heap: &SharedHeap, worker: Worker, command: Command) -> Result<Begun, (Worker, Refused)>
    requires { IsOf heap.now.id worker }
    ensures begun { IfOk result (IsBegunOn heap.now.id) }
    ensures back { IfErr result (λ r. IsOf heap.now.id r.0) }
{
    let (thread, before) = (worker.thread(), worker.units_made());
    match heap.start(worker, command) {
        Ok(pending) => Ok(Begun {
            thread,
            before,
            pending,
        }),
        Err(back) => Err(back),
    }
}

/// Makes events of a command.
fn go_on(heap: &SharedHeap, begun: Begun, events: u64) -> Result<(Worker, Came), Begun>
    requires { IsBegunOn heap.now.id begun }
    ensures done { IfOk result (λ r. IsOf heap.now.id r.0) }
    ensures left { IfErr result (IsBegunOn heap.now.id) }
{
    let Begun {
        thread,
        before,
        pending,
    } = begun;
    match heap.poll(pending, events) {
        Ok((worker, reply)) => {
            let work = worker.units_made().saturating_sub(before);
            Ok((worker, Came::Replied(reply, work)))
        }
        Err(pending) => Err(Begun {
            thread,
            before,
            pending,
        }),
    }
}

#[tactic(auto, using(shared_heap::proofs::DrawnStamps::drawn_same))]
fn stamp(heap: &SharedHeap, worker: &mut Worker) -> Came
    requires { IsOf heap.now.id worker.old }
    ensures { IsOf heap.now.id worker.new }
{
    Came::Stamp(heap.stamp(worker))
}

fn note(heap: &SharedHeap, worker: &mut Worker) -> Note
    requires { IsOf heap.now.id worker.old }
    ensures worker { IsOf heap.now.id worker.new }
    ensures note { result.heap ≡ heap.now.id }
{
    heap.note(worker)
}

fn learn(heap: &SharedHeap, worker: &mut Worker, note: Note) -> Came
    requires worker { IsOf heap.now.id worker.old }
    requires note { note.heap ≡ heap.now.id }
    ensures { IsOf heap.now.id worker.new }
{
    heap.learn(worker, note);
    Came::Done
}

/// What a worker does beside its commands.
fn aside(heap: &SharedHeap, worker: &mut Worker, last: &mut Option<Note>, deed: Deed) -> Came
    requires worker { IsOf heap.now.id worker.old }
    requires last { IfSome last.old (λ n. n.heap ≡ heap.now.id) }
    ensures worker { IsOf heap.now.id worker.new }
    ensures last { IfSome last.new (λ n. n.heap ≡ heap.now.id) }
{
    match deed {
        Deed::Stamp => stamp(heap, worker),
        Deed::Learn => match last.take() {
            Some(note) => learn(heap, worker, note),
            None => Came::NoNote,
        },
        _ => {
            *last = Some(note(heap, worker));
            Came::Done
        }
    }
}

impl Crew {
    /// A heap and its workers.
    #[tactic(auto, using(crate::proofs::WorkerSeats::own))]
    pub fn open(alloc: Global, config: Config) -> Result<Crew, OpenFault> {
        let (heap, workers) = SharedHeap::open(alloc, config)?;
        Ok(Crew {
            heap,
            workers,
            begun: Vec::new(alloc),
            note: None,
        })
    }

    /// How many threads the heap has.
    pub fn threads(&self) -> u32 {
        self.heap.config().threads
    }

    /// Does what the worker of a thread is to do.
    pub fn act(&mut self, thread: u32, deed: Deed) -> Result<Came, OutOfMemory> {
        if thread >= self.threads() {
            return Ok(Came::NoThread);
        }
        match deed {
            Deed::Start(command) => self.start(thread, command),
            Deed::Poll(events) => self.poll(thread, events),
            Deed::Lose => Ok(self.lose(thread)),
            _ => self.aside(thread, deed),
        }
    }

    fn start(&mut self, thread: u32, command: Command) -> Result<Came, OutOfMemory> {
        let Some(worker) = take_worker(&self.heap, &mut self.workers, thread) else {
            return Ok(Came::NoWorker);
        };
        match begin(&self.heap, worker, command) {
            Ok(begun) => {
                add_begun(&self.heap, &mut self.begun, begun)?;
                Ok(Came::Done)
            }
            Err((worker, refused)) => {
                add_worker(&self.heap, &mut self.workers, worker)?;
                Ok(Came::Refused(refused))
            }
        }
    }

    fn poll(&mut self, thread: u32, events: u64) -> Result<Came, OutOfMemory> {
        let Some(begun) = take_begun(&self.heap, &mut self.begun, thread) else {
            return Ok(Came::NoCommand);
        };
        match go_on(&self.heap, begun, events) {
            Ok((worker, came)) => {
                add_worker(&self.heap, &mut self.workers, worker)?;
                Ok(came)
            }
            Err(begun) => {
                add_begun(&self.heap, &mut self.begun, begun)?;
                Ok(Came::Waits)
            }
        }
    }

    fn aside(&mut self, thread: u32, deed: Deed) -> Result<Came, OutOfMemory> {
        let Some(mut worker) = take_worker(&self.heap, &mut self.workers, thread) else {
            return Ok(Came::NoWorker);
        };
        let came = aside(&self.heap, &mut worker, &mut self.note, deed);
        add_worker(&self.heap, &mut self.workers, worker)?;
        Ok(came)
    }

    /// Drops the worker of a thread, with its command.
    fn lose(&mut self, thread: u32) -> Came {
        let _worker = take_worker(&self.heap, &mut self.workers, thread);
        let _begun = take_begun(&self.heap, &mut self.begun, thread);
        Came::Done
    }

    /// Whether all workers are between two commands.
    pub fn is_at_rest(&self) -> bool {
        self.workers.len() == self.threads() as usize
    }

    /// Whether a command of a thread is under way.
    pub fn is_pending(&self, thread: u32) -> bool {
        place_of_begun(&self.begun, thread).is_some()
    }

    /// A gauge of the worker of a thread, which is between two commands.
    pub fn gauge(&self, thread: u32, word: &str) -> Option<u64> {
        match place_of_worker(&self.workers, thread) {
            Some(place) => gauge(&self.workers[place], word),
            None => None,
        }
    }

    /// Closes the heap with all of its workers. `None` where one is not between two commands.
    pub fn close(self) -> Option<u64> {
        let Crew { heap, workers, .. } = self;
        closed(heap, workers)
    }

    /// Closes the heap with those of its workers whose threads are wanted and that are between two
    /// commands. `None` where there are none.
    pub fn close_some(self, alloc: Global, wanted: &[u64]) -> Result<Option<u64>, OutOfMemory> {
        let Crew { heap, workers, .. } = self;
        let wanted = those_of(alloc, &heap, workers, wanted)?;
        Ok(closed_some(heap, wanted))
    }
}

/// The workers of these threads.
fn those_of(
    alloc: Global,
    heap: &SharedHeap,
    workers: Vec<Worker>,
    wanted: &[u64],
) -> Result<Vec<Worker>, OutOfMemory>
    requires { All (IsOf heap.now.id) workers.items }
    ensures { IfOk result (λ v. All (IsOf heap.now.id) v.items) }
{
    let mut rest = workers;
    let mut found = Vec::new(alloc);
    for thread in wanted {
        let thread = u32::try_from(*thread).unwrap_or(u32::MAX);
        if let Some(worker) = take_worker(heap, &mut rest, thread) {
            add_worker(heap, &mut found, worker)?;
        }
    }
    Ok(found)
}

fn asked(worker: &Worker) -> u64 {
    worker.asked()
}

fn rate(worker: &Worker) -> u64 {
    worker.rate()
}

fn gauge(worker: &Worker, word: &str) -> Option<u64> {
    match word {
        "rate" => Some(rate(worker)),
        "asked" => Some(asked(worker)),
        "units_made" => Some(worker.units_made()),
        "units_left" => Some(worker.units_left()),
        "objects_made" => Some(worker.objects_made()),
        "objects_left" => Some(worker.objects_left()),
        "commands_left" => Some(worker.commands_left()),
        _ => None,
    }
}

fn closed_some(heap: SharedHeap, workers: Vec<Worker>) -> Option<u64>
    requires { All (IsOf heap.id) workers.items }
{
    if workers.is_empty() {
        return None;
    }
    Some(heap.close_some(workers))
}

#[tactic(auto, using(crate::proofs::WorkerSeats::each_once))]
fn closed(heap: SharedHeap, workers: Vec<Worker>) -> Option<u64>
    requires { All (IsOf heap.id) workers.items }
{
    let threads = heap.config().threads;
    if workers.len() == threads as usize && has_each(&workers, threads) {
        Some(heap.close(workers))
    } else {
        None
    }
}

/// Whether each thread has a worker among these.
fn has_each(workers: &Vec<Worker>, threads: u32) -> bool
    ensures { result ≡ true → (t : ℕ) → t < threads → HasWorker t workers.now.items }
{
    for t in 0..threads {
        if !has_worker(workers, t) {
            return false;
        }
    }
    true
}

/// Whether one of the workers is of this thread.
#[tactic(auto, using(crate::proofs::WorkerSeats::has))]
fn has_worker(workers: &Vec<Worker>, thread: u32) -> bool
    ensures { result ≡ true → HasWorker thread workers.now.items }
{
    match place_of_worker(workers, thread) {
        Some(_place) => true,
        None => false,
    }
}
