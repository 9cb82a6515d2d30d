//! Tables of any kind: how they are opened, used and closed.

ghost use Rattle.std.specs.Prelude.{◌≡◌, ◌∷◌, [], Some, None, IfSome};
ghost use Rattle.shared_heap.specs.Workers.{CanOpen};
ghost use Rattle.live_tables.specs.rows.Orders.{HaveOneOrder};
ghost use Rattle.live_tables.specs.rows.Rows.{IsRowHeap, commands_of};
ghost use Rattle.live_tables.specs.rows.Workers.{AreEachOnce, AreFresh, AreInOrder, HasDone, HasDrawn, HasLife, HasSeenAll, IsNext, IsOf, IsSameWorker, has_learned};

use crate::kind::Table;
use crate::rows::{RowHeap, wrapped};
use crate::worker::TableWorker;
use block_store::Config;
use never_heap::{Command, Reply};
use shared_heap::Note;
use std::alloc::Global;
use std::marker::{Model, PhantomData};
use std::sync::Wait;

/// A table that its workers use concurrently.
#[derive(Drop)]
pub struct LiveTable<K: Table> {
    pub(crate) rows: RowHeap,
    pub(crate) kind: PhantomData<K>,
}

impl<K: Table> Model for LiveTable<K> {
    ghost use Rattle.shared_heap.specs.Workers.{HeapState, CanOpen};
    ghost use Rattle.live_tables.specs.rows.Rows.{IsRowHeap};

    ghost Value = { HeapState };

    ghost view = { λ t. t.rows };

    ghost invariant = { λ t. IsRowHeap K.rows t.rows.config × CanOpen t.rows.config };
}

/// How much of a table's history a worker had seen when the note was made.
///
/// A thread passes a note on together with its data. Each operation that a worker does after it
/// learned the note comes, in the one order, after all operations that the note covers.
#[derive(Drop)]
pub struct TableNote {
    pub(crate) note: Note,
}

impl Model for TableNote {
    ghost use Rattle.shared_heap.specs.Workers.{NoteState};

    ghost Value = { NoteState };

    ghost view = { λ n. n.note };
}

// Opens a table, with its workers. `None` if an allocation failed.
pub(crate) fn opened<K: Table>(
    alloc: Global,
    config: Config,
) -> Option<(LiveTable<K>, Vec<TableWorker<K>>)>
    requires can { CanOpen config }
    requires heap { IsRowHeap K.rows config }
    requires shape { K.HasShape config }
    ensures config { IfSome result (λ r. r.0.config ≡ config) }
    ensures workers { IfSome result (λ r. AreInOrder r.0 r.1.items) }
    ensures each { IfSome result (λ r. AreEachOnce r.0 r.1.items) }
    ensures fresh { IfSome result (λ r. AreFresh r.1.items) }
{
    K::is_lawful();
    let (rows, workers) = RowHeap::open(alloc, config)?;
    let crew = wrapped(alloc, workers)?;
    let table = LiveTable {
        rows,
        kind: PhantomData,
    };
    Some((table, crew))
}

impl<K: Table> LiveTable<K> {
    /// Does what a request asks by its commands. Returns the last three replies. `None` if the
    /// commands exceed the worker's lifetime.
    pub(crate) fn does<R: Wait>(
        &self,
        rt: &R,
        who: &mut TableWorker<K>,
        request: K::Request,
        commands: &[Command],
    ) -> Option<(Reply, Reply, Reply)>
        requires own { IsOf self.now who.old }
        requires next { IsNext K.rows who.old (K.operation_of who.old request) }
        requires commands { commands.now
            ≡ commands_of K.rows (K.operation_of who.old request ∷ []) }
        ensures same { IsSameWorker who.old who.new }
        ensures can { IfSome result
            (λ three. HasLife K.rows who.old (K.operation_of who.old request)) }
        ensures did { IfSome result (λ three. HasDone K.rows who.old
            (K.operation_of who.old request)
            (K.rows.answer_by (K.operation_of who.old request) three) who.new) }
        ensures refused { result ≡ None
            → ¬ HasLife K.rows who.old (K.operation_of who.old request) }
        ensures unchanged { result ≡ None → who.new ≡ who.old }
    {
        K::is_lawful();
        if !self
            .rows
            .has_life(&who.worker, K::objects_in(&request), commands)
        {
            return None;
        }
        let replies = self.rows.run(rt, &mut who.worker, commands);
        let own = K::next(who.own, &request);
        who.own = own;
        Some(replies)
    }

    /// Makes a note of the history that a worker of this table has seen. It has all operations that
    /// the worker did, and those of others that come before them.
    pub fn note(&self, who: &mut TableWorker<K>) -> TableNote
        requires { IsOf self.now who.old }
        ensures heap { result.heap ≡ self.now.id }
        ensures seen { result.seen ≡ who.old.worker.seen }
        ensures all { HasSeenAll K.rows who.old }
        ensures same { who.new ≡ who.old }
    {
        K::is_lawful();
        let note = self.rows.note(&mut who.worker);
        TableNote { note }
    }

    /// Gives a worker of this table a note of another. The operations that the worker does from now
    /// on come after all operations that the note covers.
    pub fn learn(&self, who: &mut TableWorker<K>, note: TableNote)
        requires own { IsOf self.now who.old }
        requires note { note.heap ≡ self.now.id }
        ensures { who.new ≡ has_learned who.old note.seen }
    {
        let TableNote { note } = note;
        self.rows.learn(&mut who.worker, note);
    }

    /// Draws a stamp for a worker of this table, as `shared_heap::SharedHeap::stamp` does. The
    /// operations that a worker does after a stamp come after all that another had done before a
    /// stamp that is no greater, unless 2^64 were drawn (`operations_come_after_stamps`).
    pub fn stamp(&self, who: &mut TableWorker<K>) -> u64
        requires { IsOf self.now who.old }
        ensures drawn { HasDrawn who.old result who.new }
        ensures all { HasSeenAll K.rows who.new }
    {
        K::is_lawful();
        self.rows.stamp(&mut who.worker)
    }

    /// Closes the table. It takes all of its workers, each once, in any order. All operations that
    /// they did have one order, which keeps the order of each worker, and in which each was
    /// answered as by a plain table. Returns how many cycles of collection were started.
    pub fn close(self, who: Vec<TableWorker<K>>) -> u64
        requires { AreEachOnce self who.items }
        ensures { HaveOneOrder K.rows self.config who.items result }
    {
        K::is_lawful();
        let LiveTable { rows, .. } = self;
        rows.close(who)
    }
}
