//! `Owned`: a heap of one thread, a group of workers, or a worker, which a handle of C owns.

ghost use Rattle.std.specs.Prelude.{◌≡◌, ◌<◌, ℕ, length, slice_index_or};
ghost use Rattle.std.specs.Arc.{arc_value};
ghost use Rattle.shared_heap.specs.Workers.{WorkerState};

use control_heap::ControlHeap;
use shared_heap::{Pending, SharedHeap, Worker};
use std::sync::Arc;

/// What a handle owns. It is `Moved` only within a call.
#[derive(Drop)]
pub enum Owned {
    /// A heap of one thread.
    Heap(ControlHeap),
    /// The workers of a shared heap that have no handle yet.
    Group(Group),
    /// A worker of a shared heap.
    Resting(Resting),
    /// A worker of a shared heap whose command is not done.
    Executing(Executing),
    Moved,
}

/// A shared heap, with those of its workers that have no handle yet, in thread order.
#[derive(Drop)]
pub struct Group {
    pub heap: Arc<SharedHeap>,
    pub workers: Vec<Worker>,
    pub ghost own: { (i : ℕ) (d : WorkerState) → i < length workers.items
        → (slice_index_or workers.items i d).heap ≡ (arc_value heap).id },
}

/// A worker between two commands, with its heap.
#[derive(Drop)]
pub struct Resting {
    pub heap: Arc<SharedHeap>,
    pub worker: Worker,
    pub ghost own: { worker.heap ≡ (arc_value heap).id },
}

/// A worker whose command is not done, with its heap.
#[derive(Drop)]
pub struct Executing {
    pub heap: Arc<SharedHeap>,
    pub pending: Pending,
    pub ghost own: { pending.heap ≡ (arc_value heap).id },
}
