//! The operations of a thread that were read so far.

ghost use Rattle.std.specs.Prelude.{◌≡◌, ◌<◌, ◌++◌, ◌∷◌, [], length, OnOk};
ghost use Rattle.array_tables.specs.handle_table.Handles.{slot_of};
ghost use Rattle.rt_handles.specs.Lines as lines;
ghost use Rattle.rt_handles.specs.Slots.{make_in};

use array_tables::handle_table::Operation;
use std::alloc::{AllocFailed, Global};
use std::marker::Model;

/// How many handles a thread keeps.
const HANDLES: usize = 8;

/// Operations of a thread, one after the other, with the slot of the last make of each handle.
#[derive(Drop)]
pub struct Before {
    ops: Vec<Operation>,
    slots: [Option<u32>; HANDLES],
}

impl Model for Before {
    ghost use Rattle.std.specs.Prelude.{List};
    ghost use Rattle.array_tables.specs.declared.handle_table.operation.Operation.{Operation};
    ghost use Rattle.rt_handles.specs.Slots.{AreSlotsOf};

    ghost Value = { List Operation };

    ghost view = { λ a. a.ops.items };

    ghost invariant = { λ a. AreSlotsOf a.slots a.ops.items };
}

impl Before {
    /// No operations.
    pub fn new(alloc: Global) -> Before
        ensures { result ≡ [] }
    {
        Before {
            ops: Vec::new(alloc),
            slots: [None; HANDLES],
        }
    }

    /// How many there are.
    pub fn len(&self) -> usize
        ensures { result ≡ length self.now }
    {
        self.ops.len()
    }

    /// Whether the last make of a handle was at this slot.
    pub fn is_at(&self, handle: u8, slot: u32) -> bool
        requires { handle < 8 }
        ensures { result ≡ lines.is_at slot (slot_of handle self.now) }
    {
        match self.slots[usize::from(handle)] {
            None => false,
            Some(made_at) => made_at == slot,
        }
    }

    /// Adds one after them.
    pub fn push(&mut self, op: Operation) -> Result<(), AllocFailed<Operation>>
        ensures { OnOk result (self.new ≡ self.old ++ op ∷ []) }
    {
        self.ops.push(op)?;
        match made_at(&op) {
            None => {}
            Some((handle, slot)) => {
                if usize::from(handle) < HANDLES {
                    self.slots[usize::from(handle)] = Some(slot);
                }
            }
        }
        Ok(())
    }

    /// The operations alone.
    pub fn into_ops(self) -> Vec<Operation>
        ensures { result.items ≡ self }
    {
        self.ops
    }
}

/// The handle and the slot of a make.
fn made_at(op: &Operation) -> Option<(u8, u32)>
    ensures { result ≡ make_in op.now }
{
    match *op {
        Operation::Make { handle, slot, .. } => Some((handle, slot)),
        _ => None,
    }
}
