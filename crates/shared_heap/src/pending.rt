//! Commands whose events are made a few at a time, by a caller that may not wait.

ghost use Rattle.std.specs.Prelude.{◌≡◌, IfOk, IfErr, OnOk};
ghost use Rattle.never_heap.specs.Bounds.{IsCommandInBounds};
ghost use Rattle.shared_heap.specs.Pending.{IsStillPending, MadeMore, start_pending};
ghost use Rattle.shared_heap.specs.Refusals.{IsRefused};
ghost use Rattle.shared_heap.specs.Spans.{IsInTime};
ghost use Rattle.shared_heap.specs.Workers.{HasAnswered, HasLeft, IsSame};

use crate::drives::drives_some;
use crate::heap::{SharedHeap, admitted, announce, reply_of};
use crate::port::Port;
use crate::worker::{Worker, objects_of};
use block_store::Config;
use control_heap::Refused;
use heap_system::Local;
use never_heap::{Command, Reply};
use std::marker::Model;

/// A command that a worker has announced and not yet finished. It may move to any thread of the
/// program.
///
/// It has to be polled to its end. While its thread is inside, the others can't change the phase,
/// and while it has the gate closed, they can't go in. If it is dropped, its heap can no more be
/// closed, and the others may wait for ever.
#[derive(Drop)]
pub struct Pending {
    pub(crate) port: Port,
    pub(crate) local: Local,
    pub(crate) config: Config,
    // How many commands its worker has executed, with this one.
    pub(crate) count: u64,
    // How many of them make an object.
    pub(crate) objects: u64,
}

impl Model for Pending {
    ghost use Rattle.std.specs.Prelude.{◌≡◌};
    ghost use Rattle.shared_heap.specs.Pending.{IsPending, PendingState, pending_of};
    ghost use Rattle.shared_heap.specs.Shared.{held_of};

    ghost Value = { PendingState };

    ghost view = { λ w. pending_of w.port.seat.table_id
        (held_of w.local w.port.seat.me.0.threads) };

    ghost invariant = { λ w.
        IsPending w.port.seat.me w.port.seat.table_id w.local w.count w.objects
        × (w.config ≡ w.local.config) };
}

impl SharedHeap {
    /// Announces a command for one of this heap's workers, and makes none of its events. `poll`
    /// makes them. It takes the worker, and returns it where it refuses.
    ///
    /// # Errors
    ///
    /// As `ask`: `OutOfBounds` exactly if the command is not in bounds, and `NoLifeLeft` exactly if
    /// it is in bounds and exceeds the worker's lifetime. The worker is then unchanged.
    pub fn start(&self, who: Worker, command: Command) -> Result<Pending, (Worker, Refused)>
        requires { who.heap ≡ self.now.id }
        ensures can { OnOk result
            (IsCommandInBounds who.thread.config command × HasLeft who command) }
        ensures started { IfOk result (λ pending. pending ≡ start_pending who command) }
        ensures refused { IfErr result (λ back. IsRefused who command back.1) }
        ensures unchanged { IfErr result (λ back. back.0 ≡ who) }
    {
        match admitted(&who, &command) {
            Ok(()) => Ok(self.started(who, command)),
            Err(refused) => Err((who, refused)),
        }
    }

    // The command of a worker that may execute it.
    fn started(&self, who: Worker, command: Command) -> Pending
        requires heap { who.heap ≡ self.now.id }
        requires bounds { IsCommandInBounds who.thread.config command }
        requires left { HasLeft who command }
        ensures { result ≡ start_pending who command }
    {
        let Worker {
            port,
            local,
            config,
            count,
            objects,
        } = who;
        let mut port = port;
        let mut local = local;
        announce(&self.table.shared, &mut port, &mut local, command);
        Pending {
            port,
            local,
            config,
            count: count + 1,
            objects: objects + objects_of(command),
        }
    }

    /// Makes at most `most` events of a pending command, and never waits. Each event is one
    /// operation on one of the shared words, and the loop that makes them has no others
    /// (`drives_some`). If the command is then done, it returns the worker with the reply, as
    /// `request` does, and the bound of a command that was alone, or of a heap with one worker,
    /// holds as there (`in_time`).
    ///
    /// # Errors
    ///
    /// The pending command, exactly if it is not done. Then `most` events were made, or fewer, the
    /// last of which waited for another thread: at the gate, or at a free list. Poll it again when
    /// the other threads have made some events.
    pub fn poll(&self, pending: Pending, most: u64) -> Result<(Worker, Reply), Pending>
        requires { pending.heap ≡ self.now.id }
        ensures same { IfOk result (λ r. IsSame pending.worker r.0) }
        ensures answered { IfOk result
            (λ r. HasAnswered pending.worker pending.command r.1 r.0) }
        ensures made { IfOk result (λ r. MadeMore pending most r.0.thread r.0.span.own) }
        ensures in_time { IfOk result
            (λ r. IsInTime pending.worker.thread.config pending.command r.0.span) }
        ensures still { IfErr result (λ left. IsStillPending pending most left) }
    {
        let Pending {
            port,
            local,
            config,
            count,
            objects,
        } = pending;
        let mut port = port;
        let mut local = local;
        drives_some(&mut port, &self.table.shared, &mut local, most);
        if !local.done() {
            return Err(Pending {
                port,
                local,
                config,
                count,
                objects,
            });
        }
        let reply = reply_of(&local);
        let worker = Worker {
            port,
            local,
            config,
            count,
            objects,
        };
        Ok((worker, reply))
    }
}
