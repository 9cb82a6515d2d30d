//! Conversion between the workers of a table and those of its heap.

ghost use Rattle.std.specs.Prelude.{◌≡◌, ◌≤◌, [], IfSome, length, map};
ghost use Rattle.std.specs.List.{AllByRecursion};
ghost use Rattle.std.specs.Vec.{vec_capacity};
ghost use Rattle.shared_heap.specs.Workers.{WorkerState};

use shared_heap::Worker;
use std::alloc::Global;

/// A worker of a table, made of a worker of its heap.
pub trait RowThread: Drop {
    /// What a worker of the heap must be to become a worker of the table, and what it is again
    /// when it is taken out.
    ghost IsNew: { WorkerState → Type 0 };

    ghost IsKept: { WorkerState → Type 0 };

    /// The worker of the table, as contracts see it.
    ghost of: { WorkerState → Self };

    /// A new worker of the table.
    fn wrap(worker: Worker) -> Self
        requires { IsNew worker }
        ensures { result ≡ of worker };

    /// Its worker of the heap.
    fn unwrap(self) -> Worker
        ensures kept { IsKept result }
        ensures same { of result ≡ self };
}

/// An empty vector with capacity for all workers that a heap can have.
#[derive(Drop)]
pub(crate) struct Room {
    pub(crate) workers: Vec<Worker>,
    pub(crate) ghost none: { workers.items ≡ [] },
    pub(crate) ghost many: { 16 ≤ vec_capacity workers },
}

// Allocates the room. `None` if the allocation failed.
pub(crate) fn room_of(alloc: Global) -> Option<Room> {
    let Ok(workers) = Vec::with_capacity(alloc, 16) else {
        return None;
    };
    Some(Room { workers })
}

/// The workers of a heap as those of a table. `None` if an allocation failed.
pub fn wrapped<W: RowThread>(alloc: Global, workers: Vec<Worker>) -> Option<Vec<W>>
    requires { AllByRecursion W.IsNew workers.items }
    ensures { IfSome result (λ v. v.items ≡ map W.of workers.items) }
{
    let mut crew = Vec::new(alloc);
    for worker in workers {
        let Ok(()) = crew.push(W::wrap(worker)) else {
            return None;
        };
    }
    Some(crew)
}

// The workers of a table as those of its heap. This allocates nothing.
pub(crate) fn unwrapped<W: RowThread>(room: Room, crew: Vec<W>) -> Vec<Worker>
    requires { length crew.items ≤ 16 }
    ensures all { AllByRecursion W.IsKept result.items }
    ensures same { map W.of result.items ≡ crew.items }
{
    let Room { workers } = room;
    let mut workers = workers;
    for who in crew {
        workers.push_reserved(who.unwrap());
    }
    workers
}
