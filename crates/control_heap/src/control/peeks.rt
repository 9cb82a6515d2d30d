//! The value at the end of a path of indices from a register, read without a command.

ghost use Rattle.std.specs.Prelude.{ℕ, ◌≡◌, ◌<◌, ◌^◌, ◌∷◌, [], Ok, IfSome};
ghost use Rattle.block_store.specs.declared.TheConstants.{REGISTERS};
ghost use Rattle.never_heap.specs.declared.Command.TheVariants as commands;
ghost use Rattle.never_heap.specs.Histories.{replay};
ghost use Rattle.never_heap.specs.Steps.{step};
ghost use Rattle.heap_system.specs.Machines.{Run};
ghost use Rattle.control_heap.specs.Calls.{outcome_of};
ghost use Rattle.control_heap.specs.Controls.{Stands};
ghost use Rattle.control_heap.specs.Peeks.{as_reply, peeked};

use super::ControlHeap;
use crate::Fault;
use crate::paths::{near_value, near_value_of_two, path_value};
use block_store::{REGISTERS, Value};

impl ControlHeap {
    /// The value of field `i` of the object in register `s`: what `get` returns (`as_get`). It is
    /// no command: it changes nothing, and takes nothing of the life.
    ///
    /// # Errors
    ///
    /// `Null` where register `s` is nil, `Kind` where it holds a number, `Range` where its object
    /// has no field `i`; `OutOfBounds` where there is no register `s`, or `i` is 2^62 or more.
    #[inline(always)]
    pub fn peek(&self, s: u8, i: u64) -> Result<Value, Fault>
        ensures value { (r : Run) → Stands self.now r
            → result ≡ peeked (replay self.now.config r.order) s (i ∷ []) }
        ensures as_get { (r : Run) (d : ℕ) → Stands self.now r → s < REGISTERS → i < 2 ^ 62
            → as_reply result
            ≡ outcome_of (Ok (step (replay self.now.config r.order) 0 (commands.Get d s i)).1) }
    {
        match self.near(s, i) {
            Some(value) => Ok(value),
            None => self.far(s, i),
        }
    }

    /// The value of field `j` of the object in field `i` of the object in register `s`, as by two
    /// calls of `get`. It is no command.
    ///
    /// # Errors
    ///
    /// The first fault, as for `peek`.
    #[inline(always)]
    pub fn peek2(&self, s: u8, i: u64, j: u64) -> Result<Value, Fault>
        ensures { (r : Run) → Stands self.now r
            → result ≡ peeked (replay self.now.config r.order) s (i ∷ j ∷ []) }
    {
        match self.near2(s, i, j) {
            Some(value) => Ok(value),
            None => self.far2(s, i, j),
        }
    }

    /// The value at the end of a path from register `s`, as by a call of `get` for each index; with
    /// no index, what the register holds. It is no command. The time grows with the path, and in
    /// long records with the indices.
    ///
    /// # Errors
    ///
    /// The first fault, as for `peek`.
    #[inline(never)]
    pub fn peek_path(&self, s: u8, path: &[u64]) -> Result<Value, Fault>
        ensures { (r : Run) → Stands self.now r
            → result ≡ peeked (replay self.now.config r.order) s path.now }
    {
        if s as u32 >= REGISTERS {
            return Err(Fault::OutOfBounds);
        }
        path_value(&self.config, &self.memory, s, path)
    }

    // The value, if it is quickly found.
    #[inline(always)]
    fn near(&self, s: u8, i: u64) -> Option<Value>
        ensures { IfSome result (λ v. (r : Run) → Stands self.now r
            → peeked (replay self.now.config r.order) s (i ∷ []) ≡ Ok v) }
    {
        if s as u32 >= REGISTERS {
            return None;
        }
        near_value(&self.config, &self.memory, s, i)
    }

    #[inline(always)]
    fn near2(&self, s: u8, i: u64, j: u64) -> Option<Value>
        ensures { IfSome result (λ v. (r : Run) → Stands self.now r
            → peeked (replay self.now.config r.order) s (i ∷ j ∷ []) ≡ Ok v) }
    {
        if s as u32 >= REGISTERS {
            return None;
        }
        near_value_of_two(&self.config, &self.memory, s, i, j)
    }

    // The value in any case. It is a call, so that this code is no part of that of `peek`.
    #[inline(never)]
    fn far(&self, s: u8, i: u64) -> Result<Value, Fault>
        ensures { (r : Run) → Stands self.now r
            → result ≡ peeked (replay self.now.config r.order) s (i ∷ []) }
    {
        self.peek_path(s, &[i])
    }

    #[inline(never)]
    fn far2(&self, s: u8, i: u64, j: u64) -> Result<Value, Fault>
        ensures { (r : Run) → Stands self.now r
            → result ≡ peeked (replay self.now.config r.order) s (i ∷ j ∷ []) }
    {
        self.peek_path(s, &[i, j])
    }
}
