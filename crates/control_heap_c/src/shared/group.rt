//! The workers of a shared heap that have no handle yet.

ghost use Rattle.std.specs.Prelude.{◌≡◌, ◌<◌, ℕ, Some, false, length, slice_index_or, IfOk, IfErr, OnErr, ◌∷◌, is_some};
ghost use Rattle.shared_heap.specs.Refusals.{IsOpenFault};
ghost use Rattle.shared_heap.specs.Workers.{WorkerState};
ghost use Rattle.control_heap_c.specs.declared.owned.Owned.TheVariants as owned;
ghost use Rattle.control_heap_c.specs.Outcomes.{width_of};
ghost use Rattle.control_heap_c.specs.Groups.{BecameAttached, BecameGroup, HasGroup, HasHanded, IsGroup, IsGroupShut, IsNotAttached, attach_status, group_in, group_status, shared_config};

use crate::handle::{Handle, width_of};
use crate::owned::{Group, Owned, Resting};
use block_store::{Config, OutOfMemory};
use shared_heap::{OpenFault, SharedHeap, Worker};
use std::alloc::Global;
use std::mem::replace;
use std::sync::Arc;

/// Why no shared heap was opened.
#[derive(Clone, Copy, Debug, PartialEq, Eq)]
pub enum GroupRefusal {
    /// The handle is open.
    Open,
    /// There is no such version.
    Version,
    /// The heap's own cause.
    Heap(OpenFault),
}

/// Opens a shared heap, all of whose workers are then in the group of this handle.
pub fn open(
    alloc: Global,
    handle: &mut Handle,
    version: u32,
    threads: u32,
    blocks: u32,
    live: u32,
    object: u32,
    shared: u32,
) -> Result<(), GroupRefusal>
    ensures { BecameGroup handle.old.link.value (width_of version)
        (λ w. shared_config w threads blocks live object shared) result handle.new.link.value }
{
    match replace(handle, Handle::closed(alloc)).into_box() {
        Some(owned) => {
            *handle = Handle::of(owned);
            Err(GroupRefusal::Open)
        }
        None => match width_of(version) {
            None => Err(GroupRefusal::Version),
            Some(width) => {
                let config = Config {
                    width,
                    threads,
                    blocks,
                    live,
                    object,
                    shared,
                };
                match opened(alloc, config) {
                    Err(fault) => Err(GroupRefusal::Heap(fault)),
                    Ok(owned) => {
                        *handle = Handle::of(owned);
                        Ok(())
                    }
                }
            }
        },
    }
}

// A new heap, with all of its workers.
fn opened(alloc: Global, config: Config) -> Result<Box<Owned>, OpenFault>
    ensures fresh { IfOk result (λ b. IsGroup config (group_in (Some b.value))) }
    ensures refused { IfErr result (IsOpenFault config) }
{
    let (heap, workers) = SharedHeap::open(alloc, config)?;
    match boxed(alloc, heap, workers) {
        Ok(owned) => Ok(owned),
        Err(_) => Err(OpenFault::NoMemory),
    }
}

fn boxed(alloc: Global, heap: SharedHeap, workers: Vec<Worker>) -> Result<Box<Owned>, OutOfMemory>
    requires { (i : ℕ) (d : WorkerState) → i < length workers.items
        → (slice_index_or workers.items i d).heap ≡ heap.id }
    ensures { IfOk result (λ b. HasGroup heap workers.items (group_in (Some b.value))) }
{
    let heap = Arc::new(alloc, heap)?;
    Ok(Box::new(alloc, Owned::Group(Group { heap, workers }))?)
}

/// Why no worker was attached.
#[derive(Clone, Copy, Debug, PartialEq, Eq)]
pub enum AttachRefusal {
    /// The handle of the group has none.
    NoGroup,
    /// The handle for the worker is open.
    Open,
    /// No worker is left.
    NoWorker,
    /// An allocation failed.
    NoMemory,
}

/// Moves the first worker of a group to a closed handle.
pub fn attach(alloc: Global, group: &mut Handle, worker: &mut Handle) -> Result<(), AttachRefusal>
    ensures { BecameAttached group.old.link.value worker.old.link.value result
        group.new.link.value worker.new.link.value }
{
    let first = attached(alloc, group, worker.is_open())?;
    *worker = Handle::of(first);
    Ok(())
}

// The first worker of a group in a box, unless the handle for it is open.
fn attached(alloc: Global, group: &mut Handle, is_open: bool) -> Result<Box<Owned>, AttachRefusal>
    ensures first { IfOk result (λ b. HasHanded group.old.link.value is_open b.value
        group.new.link.value) }
    ensures refused { IfErr result (IsNotAttached group.old.link.value is_open) }
    ensures unchanged { OnErr result (group.new.link.value ≡ group.old.link.value) }
{
    match replace(group, Handle::closed(alloc)).into_box() {
        None => Err(AttachRefusal::NoGroup),
        Some(owned) => {
            let mut owned = owned;
            let before = Box::replace(&mut owned, Owned::Moved);
            let (after, outcome) = handed(alloc, before, is_open);
            Box::replace(&mut owned, after);
            *group = Handle::of(owned);
            outcome
        }
    }
}

fn handed(alloc: Global, owned: Owned, is_open: bool) -> (Owned, Result<Box<Owned>, AttachRefusal>)
    ensures first { IfOk result.1 (λ b. HasHanded (Some owned) is_open b.value (Some result.0)) }
    ensures refused { IfErr result.1 (IsNotAttached (Some owned) is_open) }
    ensures unchanged { OnErr result.1 (result.0 ≡ owned) }
{
    match owned {
        Owned::Group(group) => {
            if is_open {
                return (Owned::Group(group), Err(AttachRefusal::Open));
            }
            let (group, outcome) = split(alloc, group);
            (Owned::Group(group), outcome)
        }
        other => (other, Err(AttachRefusal::NoGroup)),
    }
}

fn split(alloc: Global, group: Group) -> (Group, Result<Box<Owned>, AttachRefusal>)
    ensures first { IfOk result.1 (λ b. HasHanded (Some (owned.Group group)) false b.value
        (Some (owned.Group result.0))) }
    ensures refused { IfErr result.1 (IsNotAttached (Some (owned.Group group)) false) }
    ensures unchanged { OnErr result.1 (result.0 ≡ group) }
{
    if group.workers.is_empty() {
        return (group, Err(AttachRefusal::NoWorker));
    }
    let (Ok(copy), Ok(place)) = (Arc::try_clone(&group.heap), Box::new(alloc, Owned::Moved)) else {
        return (group, Err(AttachRefusal::NoMemory));
    };
    let Group { heap, workers } = group;
    let mut place = place;
    let (worker, rest) = first_and_rest(workers);
    Box::replace(&mut place, Owned::Resting(Resting { heap: copy, worker }));
    (
        Group {
            heap,
            workers: rest,
        },
        Ok(place),
    )
}

// The first of the workers, and the others.
#[tactic(auto, using(shared_heap::proofs::AllWorkers::taken_first))]
fn first_and_rest(workers: Vec<Worker>) -> (Worker, Vec<Worker>)
    requires { 0 < length workers.items }
    ensures { result.0 ∷ result.1.items ≡ workers.items }
{
    let mut rest = workers;
    let first = rest.remove(0);
    (first, rest)
}

/// Drops the workers of a group that have no handle. Returns the status.
pub fn close(alloc: Global, handle: &mut Handle) -> u32
    ensures { IsGroupShut handle.old.link.value result handle.new.link.value }
{
    match replace(handle, Handle::closed(alloc)).into_box() {
        None => 1,
        Some(owned) => {
            if is_group(&owned) {
                drop(owned);
                return 0;
            }
            *handle = Handle::of(owned);
            1
        }
    }
}

fn is_group(owned: &Owned) -> bool
    ensures { result ≡ is_some (group_in (Some owned.now)) }
{
    matches!(owned, Owned::Group(_))
}

/// The status of an opening.
pub fn group_told(outcome: Result<(), GroupRefusal>) -> u32
    ensures { result ≡ group_status outcome }
{
    match outcome {
        Ok(()) => 0,
        Err(GroupRefusal::Heap(OpenFault::OutOfBounds)) => 2,
        Err(GroupRefusal::Open) => 4,
        Err(GroupRefusal::Version) => 5,
        Err(GroupRefusal::Heap(OpenFault::LiveTooSmall)) => 6,
        Err(GroupRefusal::Heap(OpenFault::NoRate)) => 7,
        Err(GroupRefusal::Heap(OpenFault::NoMemory)) => 8,
    }
}

/// The status of an attachment.
pub fn attach_told(outcome: Result<(), AttachRefusal>) -> u32
    ensures { result ≡ attach_status outcome }
{
    match outcome {
        Ok(()) => 0,
        Err(AttachRefusal::NoGroup) => 1,
        Err(AttachRefusal::Open) => 4,
        Err(AttachRefusal::NoMemory) => 8,
        Err(AttachRefusal::NoWorker) => 20,
    }
}
