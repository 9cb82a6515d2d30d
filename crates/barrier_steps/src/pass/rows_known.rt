//! The event at a row whose kind the caller knows, who keeps the row: without the choice that
//! `event` makes, the code of one row is small enough to be inlined.

ghost use Rattle.std.specs.Prelude.{◌≡◌};
ghost use Rattle.block_store.specs.Places.{extent};
ghost use Rattle.heap_machine.specs.Memories.{ReadsOnly, ActsOnce};
ghost use Rattle.heap_machine.specs.Operations.{op_at};
ghost use Rattle.barrier_steps.specs.Rows;
ghost use Rattle.barrier_steps.specs.Fits.{FitsAt, ReadsAt};
ghost use Rattle.barrier_steps.specs.declared.rows.FieldRow.{FieldRow};

use super::{
    FieldPass, after_field, after_owner, after_shape, after_store, answered, field, object_in,
    payload_in, register_wanted, shape_in, target,
};
use crate::operands::constant_word;
use crate::{FieldRow, FieldStore, Purpose, TreePath};
use block_store::Places;
use heap_machine::{Memory, Op, Pass};
use never_heap::{Command, Reply};

impl FieldPass {
    /// The event at the load of a register.
    #[inline(always)]
    pub fn loads_register<M: Memory>(
        pass: Pass,
        command: Command,
        wanted: Purpose,
        places: &Places,
        memory: &mut M,
        shared: &M::Shared,
    ) -> FieldRow
        requires fits { FitsAt places.now pass command (FieldRow.LoadRegister wanted) }
        requires may { M.may memory.old shared.now
            (op_at (extent places.now) (Rows.row_want (extent places.now) pass command
            (FieldRow.LoadRegister wanted))) }
        requires reads { ReadsOnly M.acts memory.old shared.now
            (op_at (extent places.now) (Rows.row_want (extent places.now) pass command
            (FieldRow.LoadRegister wanted)))
            (ReadsAt places.now pass command (FieldRow.LoadRegister wanted)) }
        ensures acted { ActsOnce M.acts memory.old shared.now
            (op_at (extent places.now) (Rows.row_want (extent places.now) pass command
            (FieldRow.LoadRegister wanted))) memory.new
            (λ w. result ≡ Rows.row_got (extent places.now) pass command
            (FieldRow.LoadRegister wanted) w) }
        ensures fits { FitsAt places.now pass command result }
    {
        let row = FieldRow::LoadRegister { wanted };
        let part = FieldPass { pass, command, row };
        let op = part.load(places, register_wanted(command, wanted));
        let word = memory.act(shared, &op);
        part.after_register(places, wanted, word)
    }

    /// The event at the load of the object's shape.
    #[inline(always)]
    pub fn loads_shape<M: Memory>(
        pass: Pass,
        command: Command,
        block: u32,
        places: &Places,
        memory: &mut M,
        shared: &M::Shared,
    ) -> FieldRow
        requires fits { FitsAt places.now pass command (FieldRow.LoadShape block) }
        requires may { M.may memory.old shared.now
            (op_at (extent places.now) (Rows.row_want (extent places.now) pass command
            (FieldRow.LoadShape block))) }
        requires reads { ReadsOnly M.acts memory.old shared.now
            (op_at (extent places.now) (Rows.row_want (extent places.now) pass command
            (FieldRow.LoadShape block)))
            (ReadsAt places.now pass command (FieldRow.LoadShape block)) }
        ensures acted { ActsOnce M.acts memory.old shared.now
            (op_at (extent places.now) (Rows.row_want (extent places.now) pass command
            (FieldRow.LoadShape block))) memory.new
            (λ w. result ≡ Rows.row_got (extent places.now) pass command
            (FieldRow.LoadShape block) w) }
        ensures fits { FitsAt places.now pass command result }
    {
        let word = memory.act(shared, &Op::load(places.shape(block)));
        after_shape(places, pass, command, block, shape_in(word))
    }

    /// The event at the load of the field of `get`.
    #[inline(always)]
    pub fn loads_field<M: Memory>(
        pass: Pass,
        command: Command,
        way: TreePath,
        places: &Places,
        memory: &mut M,
        shared: &M::Shared,
    ) -> FieldRow
        requires fits { FitsAt places.now pass command (FieldRow.LoadField way) }
        requires may { M.may memory.old shared.now
            (op_at (extent places.now) (Rows.row_want (extent places.now) pass command
            (FieldRow.LoadField way))) }
        requires reads { ReadsOnly M.acts memory.old shared.now
            (op_at (extent places.now) (Rows.row_want (extent places.now) pass command
            (FieldRow.LoadField way)))
            (ReadsAt places.now pass command (FieldRow.LoadField way)) }
        ensures acted { ActsOnce M.acts memory.old shared.now
            (op_at (extent places.now) (Rows.row_want (extent places.now) pass command
            (FieldRow.LoadField way))) memory.new
            (λ w. result ≡ Rows.row_got (extent places.now) pass command
            (FieldRow.LoadField way) w) }
        ensures fits { FitsAt places.now pass command result }
    {
        let word = memory.act(shared, &Op::load(field(places, command, way)));
        after_field(word, payload_in(word))
    }

    /// The event at the load of an owner.
    #[inline(always)]
    pub fn loads_owner<M: Memory>(
        pass: Pass,
        command: Command,
        word: u64,
        places: &Places,
        memory: &mut M,
        shared: &M::Shared,
    ) -> FieldRow
        requires fits { FitsAt places.now pass command (FieldRow.LoadOwner word) }
        requires may { M.may memory.old shared.now
            (op_at (extent places.now) (Rows.row_want (extent places.now) pass command
            (FieldRow.LoadOwner word))) }
        requires reads { ReadsOnly M.acts memory.old shared.now
            (op_at (extent places.now) (Rows.row_want (extent places.now) pass command
            (FieldRow.LoadOwner word)))
            (ReadsAt places.now pass command (FieldRow.LoadOwner word)) }
        ensures acted { ActsOnce M.acts memory.old shared.now
            (op_at (extent places.now) (Rows.row_want (extent places.now) pass command
            (FieldRow.LoadOwner word))) memory.new
            (λ w. result ≡ Rows.row_got (extent places.now) pass command
            (FieldRow.LoadOwner word) w) }
        ensures fits { FitsAt places.now pass command result }
    {
        let read = memory.act(shared, &Op::load(places.owner(target(word))));
        after_owner(pass, command, word, object_in(read))
    }

    /// The event at the store of a word that was loaded.
    #[inline(always)]
    pub fn stores<M: Memory>(
        pass: Pass,
        command: Command,
        store: FieldStore,
        places: &Places,
        memory: &mut M,
        shared: &M::Shared,
    ) -> FieldRow
        requires fits { FitsAt places.now pass command (FieldRow.Store store) }
        requires may { M.may memory.old shared.now
            (op_at (extent places.now) (Rows.row_want (extent places.now) pass command
            (FieldRow.Store store))) }
        requires reads { ReadsOnly M.acts memory.old shared.now
            (op_at (extent places.now) (Rows.row_want (extent places.now) pass command
            (FieldRow.Store store)))
            (ReadsAt places.now pass command (FieldRow.Store store)) }
        ensures acted { ActsOnce M.acts memory.old shared.now
            (op_at (extent places.now) (Rows.row_want (extent places.now) pass command
            (FieldRow.Store store))) memory.new
            (λ w. result ≡ Rows.row_got (extent places.now) pass command
            (FieldRow.Store store) w) }
        ensures fits { FitsAt places.now pass command result }
    {
        let row = FieldRow::Store { store };
        let part = FieldPass { pass, command, row };
        let op = part.store_of(places, store);
        let word = memory.act(shared, &op);
        after_store(store, word)
    }

    /// The event at the store of `set` and `nil`.
    #[inline(always)]
    pub fn stores_constant<M: Memory>(
        pass: Pass,
        command: Command,
        places: &Places,
        memory: &mut M,
        shared: &M::Shared,
    ) -> FieldRow
        requires fits { FitsAt places.now pass command FieldRow.StoreConstant }
        requires may { M.may memory.old shared.now
            (op_at (extent places.now) (Rows.row_want (extent places.now) pass command
            FieldRow.StoreConstant)) }
        requires reads { ReadsOnly M.acts memory.old shared.now
            (op_at (extent places.now) (Rows.row_want (extent places.now) pass command
            FieldRow.StoreConstant))
            (ReadsAt places.now pass command FieldRow.StoreConstant) }
        ensures acted { ActsOnce M.acts memory.old shared.now
            (op_at (extent places.now) (Rows.row_want (extent places.now) pass command
            FieldRow.StoreConstant)) memory.new
            (λ w. result ≡ Rows.row_got (extent places.now) pass command
            FieldRow.StoreConstant w) }
        ensures fits { FitsAt places.now pass command result }
    {
        let row = FieldRow::StoreConstant;
        let part = FieldPass { pass, command, row };
        let op = part.store(places, constant_word(command));
        memory.act(shared, &op);
        answered(Reply::Stored)
    }
}
