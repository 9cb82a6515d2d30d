//! How a shared heap is closed: its workers are given back to their group, and it with those.

ghost use Rattle.std.specs.Prelude.{◌≡◌, Some, IfOk, IfErr, OnOk, OnErr, [], ◌∷◌, ◌++◌};
ghost use Rattle.std.specs.Arc.{arc_value};
ghost use Rattle.control_heap_c.specs.declared.owned.Owned.TheVariants as owned;
ghost use Rattle.control_heap_c.specs.Closings.{BecameFinished, BecameReturned, HasTaken, HasTakenFrom, IsGroupLeft, IsNotFinished, IsNotReturned, IsOfGroup, WasFinished, finish_status, finish_told, return_status};
ghost use Rattle.control_heap_c.specs.Groups.{group_in};
ghost use Rattle.control_heap_c.specs.declared.shared.closing.ReturnRefusal.TheVariants as returning;

use crate::handle::Handle;
use crate::owned::{Group, Owned, Resting};
use std::alloc::{AllocFailed, Global};
use std::mem::replace;
use std::sync::Arc;

/// Why a worker was not given back.
#[derive(Clone, Copy, Debug, PartialEq, Eq)]
pub enum ReturnRefusal {
    /// The handle has no worker.
    Closed,
    /// The worker's command is not done.
    Busy,
    /// The other handle has no group.
    NoGroup,
    /// An allocation failed.
    NoMemory,
}

/// Gives the worker of a handle back to the group that it is from.
pub fn give_back(
    alloc: Global,
    group: &mut Handle,
    worker: &mut Handle,
) -> Result<(), ReturnRefusal>
    requires { IsOfGroup group.old.link.value worker.old.link.value }
    ensures { BecameReturned group.old.link.value worker.old.link.value result
        group.new.link.value worker.new.link.value }
{
    match replace(worker, Handle::closed(alloc)).into_box() {
        None => Err(ReturnRefusal::Closed),
        Some(owned) => {
            let mut owned = owned;
            let before = Box::replace(&mut owned, Owned::Moved);
            match taken(alloc, group, before) {
                Ok(()) => Ok(()),
                Err((before, refusal)) => {
                    Box::replace(&mut owned, before);
                    *worker = Handle::of(owned);
                    Err(refusal)
                }
            }
        }
    }
}

// The group takes a worker, or hands back what it was given.
fn taken(alloc: Global, group: &mut Handle, owned: Owned) -> Result<(), (Owned, ReturnRefusal)>
    requires { IsOfGroup group.old.link.value (Some owned) }
    ensures done { OnOk result (HasTakenFrom group.old.link.value (Some owned)
        group.new.link.value) }
    ensures refused { IfErr result (λ e. IsNotReturned group.old.link.value (Some owned) e.1) }
    ensures left { IfErr result (λ e. IsGroupLeft e.1 group.old.link.value
        group.new.link.value) }
    ensures unchanged { IfErr result (λ e. e.0 ≡ owned) }
{
    match owned {
        Owned::Resting(at) => match entered(alloc, group, at) {
            Ok(()) => Ok(()),
            Err((at, refusal)) => Err((Owned::Resting(at), refusal)),
        },
        Owned::Executing(at) => Err((Owned::Executing(at), ReturnRefusal::Busy)),
        other => Err((other, ReturnRefusal::Closed)),
    }
}

// A worker between two commands becomes the last of a handle's group.
fn entered(alloc: Global, group: &mut Handle, at: Resting) -> Result<(), (Resting, ReturnRefusal)>
    requires { IsOfGroup group.old.link.value (Some (owned.Resting at)) }
    ensures done { OnOk result (HasTaken group.old.link.value at.worker group.new.link.value) }
    ensures refused { IfErr result (λ e.
        IsNotReturned group.old.link.value (Some (owned.Resting at)) e.1) }
    ensures left { IfErr result (λ e. IsGroupLeft e.1 group.old.link.value
        group.new.link.value) }
    ensures unchanged { IfErr result (λ e. e.0 ≡ at) }
{
    match replace(group, Handle::closed(alloc)).into_box() {
        None => Err((at, ReturnRefusal::NoGroup)),
        Some(owned) => {
            let mut owned = owned;
            let (after, outcome) = added(Box::replace(&mut owned, Owned::Moved), at);
            Box::replace(&mut owned, after);
            *group = Handle::of(owned);
            outcome
        }
    }
}

fn added(before: Owned, at: Resting) -> (Owned, Result<(), (Resting, ReturnRefusal)>)
    requires { IsOfGroup (Some before) (Some (owned.Resting at)) }
    ensures done { OnOk result.1 (HasTaken (Some before) at.worker (Some result.0)) }
    ensures refused { IfErr result.1 (λ e. IsNotReturned (Some before) (Some (owned.Resting at)) e.1) }
    ensures left { IfErr result.1 (λ e. IsGroupLeft e.1 (Some before) (Some result.0)) }
    ensures unchanged { IfErr result.1 (λ e. e.0 ≡ at) }
{
    match before {
        Owned::Group(group) => {
            let (group, outcome) = grown(group, at);
            (Owned::Group(group), outcome)
        }
        other => (other, Err((at, ReturnRefusal::NoGroup))),
    }
}

fn grown(group: Group, at: Resting) -> (Group, Result<(), (Resting, ReturnRefusal)>)
    requires { at.worker.heap ≡ (arc_value group.heap).id }
    ensures heap { arc_value result.0.heap ≡ arc_value group.heap }
    ensures done { OnOk result.1 (result.0.workers.items ≡ group.workers.items ++ at.worker ∷ []) }
    ensures same { OnErr result.1 (result.0.workers.items ≡ group.workers.items) }
    ensures refused { IfErr result.1 (λ e. (e.0 ≡ at) × (e.1 ≡ returning.NoMemory)) }
{
    let Group { heap, workers } = group;
    let Resting { heap: own, worker } = at;
    let mut workers = workers;
    match workers.push(worker) {
        Ok(()) => (Group { heap, workers }, Ok(())),
        Err(AllocFailed { value }) => {
            let at = Resting {
                heap: own,
                worker: value,
            };
            (Group { heap, workers }, Err((at, ReturnRefusal::NoMemory)))
        }
    }
}

/// Why a heap was not closed.
#[derive(Clone, Copy, Debug, PartialEq, Eq)]
pub enum FinishRefusal {
    /// The handle has no group.
    NoGroup,
    /// The group has no worker.
    NoWorker,
    /// A handle has a worker of the heap.
    InUse,
}

/// Closes the heap of a group with the workers that the group has. Returns how many cycles of
/// collection were started.
pub fn finish(alloc: Global, group: &mut Handle) -> Result<u64, FinishRefusal>
    ensures { BecameFinished group.old.link.value result group.new.link.value }
{
    match replace(group, Handle::closed(alloc)).into_box() {
        None => Err(FinishRefusal::NoGroup),
        Some(owned) => {
            let mut owned = owned;
            match finished(Box::replace(&mut owned, Owned::Moved)) {
                Ok(cycles) => Ok(cycles),
                Err((before, refusal)) => {
                    Box::replace(&mut owned, before);
                    *group = Handle::of(owned);
                    Err(refusal)
                }
            }
        }
    }
}

fn finished(owned: Owned) -> Result<u64, (Owned, FinishRefusal)>
    ensures done { IfOk result (λ cycles. WasFinished (group_in (Some owned)) cycles) }
    ensures refused { IfErr result (λ e. IsNotFinished (Some owned) e.1 × (e.0 ≡ owned)) }
{
    match owned {
        Owned::Group(group) => match closed(group) {
            Ok(cycles) => Ok(cycles),
            Err((group, refusal)) => Err((Owned::Group(group), refusal)),
        },
        other => Err((other, FinishRefusal::NoGroup)),
    }
}

fn closed(group: Group) -> Result<u64, (Group, FinishRefusal)>
    ensures done { IfOk result (λ cycles. WasFinished (Some group) cycles) }
    ensures refused { IfErr result (λ e. IsNotFinished (Some (owned.Group group)) e.1
        × (e.0 ≡ group)) }
{
    if group.workers.is_empty() {
        return Err((group, FinishRefusal::NoWorker));
    }
    let Group { heap, workers } = group;
    match Arc::try_unwrap(heap) {
        Ok(heap) => Ok(heap.close_some(workers)),
        Err(heap) => Err((Group { heap, workers }, FinishRefusal::InUse)),
    }
}

/// The status of a worker that is given back.
pub fn return_told(outcome: Result<(), ReturnRefusal>) -> u32
    ensures { result ≡ return_status outcome }
{
    match outcome {
        Ok(()) => 0,
        Err(ReturnRefusal::Closed | ReturnRefusal::NoGroup) => 1,
        Err(ReturnRefusal::NoMemory) => 8,
        Err(ReturnRefusal::Busy) => 16,
    }
}

/// Writes the number of cycles, if the heap was closed, and returns the status.
pub fn finish_told(outcome: Result<u64, FinishRefusal>, out: &mut u64) -> u32
    ensures status { result ≡ finish_status outcome }
    ensures cycles { out.new ≡ finish_told outcome out.old }
{
    match outcome {
        Ok(cycles) => {
            *out = cycles;
            0
        }
        Err(FinishRefusal::NoGroup) => 1,
        Err(FinishRefusal::NoWorker) => 20,
        Err(FinishRefusal::InUse) => 22,
    }
}
