//! Starting and polling a command of a handle's worker, closing the handle, and what of its life is
//! left.

ghost use Rattle.std.specs.Prelude.{◌≡◌, Some, None};
ghost use Rattle.control_heap_c.specs.declared.owned.Owned.TheVariants as owned;
ghost use Rattle.control_heap_c.specs.Shared.{BecamePolled, BecameStarted, IsShut, poll_status, shut_status, start_status, told_polled, worker_at, worker_counts};

use crate::answer::{Answer, written};
use crate::handle::Handle;
use crate::owned::{Executing, Owned, Resting};
use control_heap::Refused;
use never_heap::{Command, Reply};
use std::alloc::Global;
use std::mem::replace;

/// Why a command was not started.
#[derive(Clone, Copy, Debug, PartialEq, Eq)]
pub enum StartRefusal {
    /// The handle has no worker.
    Closed,
    /// The worker's last command is not done.
    Busy,
    /// There is no command of this number.
    NoSuchCommand,
    /// The heap refuses the command.
    Heap(Refused),
}

/// Why there is no reply.
#[derive(Clone, Copy, Debug, PartialEq, Eq)]
pub enum PollRefusal {
    /// The handle has no worker.
    Closed,
    /// No command was started since the last reply.
    NoCommand,
    /// The command is not done.
    NotDone,
}

/// Starts a command by the worker of a handle.
pub fn start(
    alloc: Global,
    handle: &mut Handle,
    command: Option<Command>,
) -> Result<(), StartRefusal>
    ensures { BecameStarted handle.old.link.value command result handle.new.link.value }
{
    match replace(handle, Handle::closed(alloc)).into_box() {
        None => Err(StartRefusal::Closed),
        Some(owned) => {
            let mut owned = owned;
            let (after, outcome) = started(Box::replace(&mut owned, Owned::Moved), command);
            Box::replace(&mut owned, after);
            *handle = Handle::of(owned);
            outcome
        }
    }
}

fn started(owned: Owned, command: Option<Command>) -> (Owned, Result<(), StartRefusal>)
    ensures { BecameStarted (Some owned) command result.1 (Some result.0) }
{
    match owned {
        Owned::Resting(at) => match command {
            None => (Owned::Resting(at), Err(StartRefusal::NoSuchCommand)),
            Some(command) => begun(at, command),
        },
        Owned::Executing(at) => (Owned::Executing(at), Err(StartRefusal::Busy)),
        other => (other, Err(StartRefusal::Closed)),
    }
}

fn begun(at: Resting, command: Command) -> (Owned, Result<(), StartRefusal>)
    ensures { BecameStarted (Some (owned.Resting at)) (Some command) result.1 (Some result.0) }
{
    let Resting { heap, worker } = at;
    match heap.start(worker, command) {
        Ok(pending) => (Owned::Executing(Executing { heap, pending }), Ok(())),
        Err((worker, refused)) => (
            Owned::Resting(Resting { heap, worker }),
            Err(StartRefusal::Heap(refused)),
        ),
    }
}

/// Makes at most `most` events of the command of a handle's worker.
pub fn poll(alloc: Global, handle: &mut Handle, most: u64) -> Result<Reply, PollRefusal>
    ensures { BecamePolled handle.old.link.value most result handle.new.link.value }
{
    match replace(handle, Handle::closed(alloc)).into_box() {
        None => Err(PollRefusal::Closed),
        Some(owned) => {
            let mut owned = owned;
            let (after, outcome) = polled(Box::replace(&mut owned, Owned::Moved), most);
            Box::replace(&mut owned, after);
            *handle = Handle::of(owned);
            outcome
        }
    }
}

fn polled(owned: Owned, most: u64) -> (Owned, Result<Reply, PollRefusal>)
    ensures { BecamePolled (Some owned) most result.1 (Some result.0) }
{
    match owned {
        Owned::Resting(at) => (Owned::Resting(at), Err(PollRefusal::NoCommand)),
        Owned::Executing(at) => {
            let Executing { heap, pending } = at;
            match heap.poll(pending, most) {
                Ok((worker, reply)) => (Owned::Resting(Resting { heap, worker }), Ok(reply)),
                Err(pending) => (
                    Owned::Executing(Executing { heap, pending }),
                    Err(PollRefusal::NotDone),
                ),
            }
        }
        other => (other, Err(PollRefusal::Closed)),
    }
}

/// Drops the worker of a handle, unless its command is not done. Returns the status.
pub fn close(alloc: Global, handle: &mut Handle) -> u32
    ensures { IsShut handle.old.link.value result handle.new.link.value }
{
    match replace(handle, Handle::closed(alloc)).into_box() {
        None => 1,
        Some(owned) => {
            let status = shut_status(&owned);
            if status == 0 {
                drop(owned);
            } else {
                *handle = Handle::of(owned);
            }
            status
        }
    }
}

fn shut_status(owned: &Owned) -> u32
    ensures { result ≡ shut_status (Some owned.now) }
{
    match owned {
        Owned::Resting(_) => 0,
        Owned::Executing(_) => 16,
        _ => 1,
    }
}

/// The number of a worker's thread, what is left of its life, and how many commands it was asked.
#[derive(Clone, Copy, Debug, PartialEq, Eq)]
pub struct WorkerCounts {
    pub thread: u32,
    pub units: u64,
    pub objects: u64,
    pub asked: u64,
}

/// The counts of a handle's worker between two commands; zeros if it has none.
pub fn counts(alloc: Global, handle: &mut Handle) -> WorkerCounts
    ensures told { result ≡ worker_counts (worker_at handle.old.link.value) }
    ensures unchanged { handle.new.link.value ≡ handle.old.link.value }
{
    match replace(handle, Handle::closed(alloc)).into_box() {
        None => no_counts(),
        Some(owned) => {
            let counts = counts_of(Box::as_ref(&owned));
            *handle = Handle::of(owned);
            counts
        }
    }
}

fn no_counts() -> WorkerCounts
    ensures { result ≡ worker_counts None }
{
    WorkerCounts {
        thread: 0,
        units: 0,
        objects: 0,
        asked: 0,
    }
}

fn counts_of(owned: &Owned) -> WorkerCounts
    ensures { result ≡ worker_counts (worker_at (Some owned.now)) }
{
    match owned {
        Owned::Resting(at) => WorkerCounts {
            thread: at.worker.thread(),
            units: at.worker.units_left(),
            objects: at.worker.objects_left(),
            asked: at.worker.asked(),
        },
        _ => no_counts(),
    }
}

/// The status of a start.
pub fn start_told(outcome: Result<(), StartRefusal>) -> u32
    ensures { result ≡ start_status outcome }
{
    match outcome {
        Ok(()) => 0,
        Err(StartRefusal::Closed) => 1,
        Err(StartRefusal::Heap(Refused::OutOfBounds)) => 2,
        Err(StartRefusal::Heap(Refused::NoLifeLeft)) => 3,
        Err(StartRefusal::Busy) => 16,
        Err(StartRefusal::NoSuchCommand) => 19,
    }
}

/// Writes the reply, if there is one, and returns the status.
pub fn poll_told(outcome: Result<Reply, PollRefusal>, out: &mut Answer) -> u32
    ensures status { result ≡ poll_status outcome }
    ensures answer { out.new ≡ told_polled outcome out.old }
{
    match outcome {
        Ok(reply) => {
            *out = written(reply);
            0
        }
        Err(PollRefusal::Closed) => 1,
        Err(PollRefusal::NotDone) => 17,
        Err(PollRefusal::NoCommand) => 18,
    }
}
