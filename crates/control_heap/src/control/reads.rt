//! What registers hold and the fields of their objects, read without a command.

ghost use Rattle.std.specs.Prelude.{◌≡◌, ◌<◌, IfOk, IfSome, IfNone};
ghost use Rattle.block_store.specs.declared.TheConstants.{REGISTERS};
ghost use Rattle.never_heap.specs.Graphs.{register_of};
ghost use Rattle.never_heap.specs.Histories.{replay};
ghost use Rattle.heap_system.specs.Machines.{Run};
ghost use Rattle.control_heap.specs.Controls.{Stands};
ghost use Rattle.control_heap.specs.Readings.{HasFields, HasNoObject};

use super::ControlHeap;
use crate::readings::{block_in, fields_at, register_word, value_of};
use block_store::{OutOfMemory, Value};
use std::alloc::Global;

impl ControlHeap {
    /// What a register holds, 0 to 15: the value that `say` would return. It reads the register's
    /// word, and the owner word of the block to which that refers; no command is executed.
    pub fn register(&self, s: u8) -> Value
        requires { s < REGISTERS }
        ensures { (r : Run) → Stands self.now r
            → result ≡ register_of (replay self.now.config r.order) 0 s }
    {
        let word = register_word(&self.config, &self.memory, s);
        value_of(&self.config, &self.memory, word)
    }

    /// The fields of the object in a register, 0 to 15, in order; `None` where the register holds
    /// nil or a number. It reads words, and executes no command; the time grows with the object.
    ///
    /// # Errors
    ///
    /// `OutOfMemory` where there is no memory for the fields.
    pub fn fields(&self, alloc: Global, s: u8) -> Result<Option<Vec<Value>>, OutOfMemory>
        requires { s < REGISTERS }
        ensures found { IfOk result (λ o. IfSome o (λ v. (r : Run) → Stands self.now r
            → HasFields (replay self.now.config r.order) s v.items)) }
        ensures none { IfOk result (λ o. IfNone o ((r : Run) → Stands self.now r
            → HasNoObject (replay self.now.config r.order) s)) }
    {
        let block = block_in(register_word(&self.config, &self.memory, s));
        if block == 0 {
            return Ok(None);
        }
        let fields = fields_at(alloc, &self.config, &self.memory, block)?;
        Ok(Some(fields))
    }
}
