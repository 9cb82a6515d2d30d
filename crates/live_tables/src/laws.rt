//! Laws of tables that no single call can state. Each is the contract of a function that does
//! nothing.

ghost use Rattle.std.specs.Prelude.{List};
ghost use Rattle.atomic_table.specs.Table as table;
ghost use Rattle.never_heap.specs.declared.Command.{Command};
ghost use Rattle.heap_system.specs.Systems.{Whole};
ghost use Rattle.shared_heap.specs.declared.rules.View.{View};
ghost use Rattle.shared_heap.specs.Shared.{SharedKept};
ghost use Rattle.live_tables.specs.rows.Orders.{OperationsAreInOrder, OperationsComeAfter, OperationsComeAfterStamps, StandBehindWhatWasSeen};
ghost use Rattle.live_tables.specs.rows.Rows.{IsRowHeap};
ghost use Rattle.live_tables.specs.rows.Stamped.{StampsKeepOrder};
ghost use Rattle.live_tables.specs.rows.SoFar.{AllSeats, Execute, FitsOneOrder, IsBetween, IsWorking, SeenComesBeforeLater, WorkAllAlong};

use crate::kind::Table;

/// In the order of a closed table, an operation comes after all operations that a worker had done,
/// if what that worker had seen is a prefix of the history at which it began (`did.start`). That is
/// so for its own worker, and for each worker whose note it had learned.
pub fn operations_stand_behind_what_was_seen<K: Table>()
    ensures { StandBehindWhatWasSeen K.rows }
{
    K::is_lawful();
}

/// Real-time order, of operations of a closed table. One that began after all that some worker had
/// seen comes, in the order, after all that that worker had done (`after`). Of two, either the
/// second began after all that the worker of the first had seen when the first returned, or the
/// invocation of its first command is in what that worker had seen then, so that it began before
/// the first returned (`either`).
pub fn operations_keep_real_time<K: Table>()
    ensures after { OperationsComeAfter K.rows }
    ensures either { OperationsAreInOrder K.rows }
{
    K::is_lawful();
}

/// In the order of a closed table, an operation that began after a worker's stamp, such as each
/// later one of that worker, comes after all operations that another had done at a stamp that is no
/// greater. Or 2^64 stamps were drawn (`shared_heap::stamps_are_in_order`).
pub fn operations_come_after_stamps<K: Table>()
    ensures { OperationsComeAfterStamps K.rows }
{
    K::is_lawful();
}

/// Stamps as data: a worker that logs a stamp after each of its operations knows which operations
/// of others come later. In the order of a closed table, what a thread had done at a stamp comes
/// before all that another began after a stamp that is no less. Or 2^64 stamps were drawn.
pub fn stamps_keep_order<K: Table>()
    ensures { StampsKeepOrder K.rows }
{}

/// Suppose that the rule of the heap's table holds, as it does between any two steps of any
/// threads. Then what was answered so far is a plain table's: all operations that have taken effect
/// have one order, which keeps each thread's own, and in which each was answered as by a plain
/// table. A worker between two operations has exactly the operations that it did there, with the
/// answers that it got. The order is that of the history of the rule's run.
///
/// Here all workers are between two operations (`between`); or each is between two or in the middle
/// of one (`anytime`), as `workers_are_at_work_all_along` says of each operation; or the threads
/// execute the operations of some scripts (`meanwhile`).
pub fn what_was_answered_is_a_tables<K: Table>()
    ensures between { (k : Whole) (s : table.State Command View) (kept : SharedKept k s)
        → AllSeats (IsBetween K.rows) s → IsRowHeap K.rows k.config
        → (scripts : List (List K.Operation))
        × FitsOneOrder K.rows k.config s scripts kept.run.order }
    ensures anytime { (k : Whole) (s : table.State Command View) (kept : SharedKept k s)
        → AllSeats (IsWorking K.rows) s → IsRowHeap K.rows k.config
        → (scripts : List (List K.Operation))
        × FitsOneOrder K.rows k.config s scripts kept.run.order }
    ensures meanwhile { (k : Whole) (s : table.State Command View) (kept : SharedKept k s)
        → IsRowHeap K.rows k.config → (scripts : List (List K.Operation))
        → Execute K.rows k.config s scripts
        → FitsOneOrder K.rows k.config s scripts kept.run.order }
{
    K::is_lawful();
}

/// Real-time order, of two states of one table, in the first of which its rule holds. The
/// operations that are complete in what a worker had seen in the first come, in the order that the
/// second has, before all that any thread began later.
///
/// What a worker has seen in the first state it has seen in each later one, since only its own
/// steps change that, and they append to it.
pub fn operations_seen_come_before_later_ones<K: Table>()
    ensures { SeenComesBeforeLater K.rows }
{}

/// At each moment of an operation its worker's thread is in the middle of it, or between two of
/// them: before the first command, after each event that the worker's code makes, and after the
/// last.
pub fn workers_are_at_work_all_along<K: Table>()
    ensures { WorkAllAlong K.rows }
{}
