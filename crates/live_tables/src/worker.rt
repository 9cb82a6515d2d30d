//! A worker: the access of one thread to a table.

ghost use Rattle.std.specs.Prelude.{◌≡◌};
ghost use Rattle.live_tables.specs.rows.Workers.{thread_of, threads_of};

use crate::kind::Table;
use crate::rows::RowThread;
use shared_heap::Worker;
use std::marker::{Model, PhantomData};

/// One thread of a table, between two operations. It may move to any thread of the program.
///
/// Contracts see all operations that it did and their answers. In memory it has its last command,
/// and what its kind of tables keeps.
#[derive(Drop)]
pub struct TableWorker<K: Table> {
    pub(crate) worker: Worker,
    pub(crate) own: K::Own,
    pub(crate) kind: PhantomData<K>,
}

impl<K: Table> Model for TableWorker<K> {
    ghost use Rattle.live_tables.specs.rows.Kept.{IsTableWorker};
    ghost use Rattle.live_tables.specs.rows.Workers.{RowWorkerState, row_worker};

    ghost Value = { RowWorkerState K.Operation K.Answer };

    ghost view = { λ w. row_worker K.rows w.worker };

    ghost invariant = { λ w. IsTableWorker K.rows K.Keeps w.worker w.own };
}

impl<K: Table> TableWorker<K> {
    /// The number of the worker's thread, from 0.
    pub fn thread(&self) -> u32
        ensures { result ≡ thread_of self.now }
    {
        self.worker.thread()
    }

    /// How many threads its table has.
    pub fn threads(&self) -> u32
        ensures { result ≡ threads_of self.now }
    {
        self.worker.config().threads
    }
}

impl<K: Table> RowThread for TableWorker<K> {
    ghost use Rattle.live_tables.specs.rows.Kept.{IsNewWorker};
    ghost use Rattle.live_tables.specs.rows.Workers.{IsRowWorker, row_worker};

    ghost IsNew = { IsNewWorker K.rows K.HasShape };

    ghost IsKept = { IsRowWorker K.rows };

    ghost of = { row_worker K.rows };

    fn wrap(worker: Worker) -> TableWorker<K> {
        K::is_lawful();
        TableWorker {
            worker,
            own: K::start(),
            kind: PhantomData,
        }
    }

    fn unwrap(self) -> Worker {
        let TableWorker { worker, .. } = self;
        worker
    }
}
