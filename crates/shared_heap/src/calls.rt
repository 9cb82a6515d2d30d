//! One call for each command, by a worker of the heap. Registers are 0 to 15 and belong to the
//! worker's thread, numbers are below 2^62, and an `idle` makes at most 131,070 units; what is out
//! of range is refused as `OutOfBounds`.

ghost use Rattle.std.specs.Prelude.{◌≡◌, IfOk};
ghost use Rattle.never_heap.specs.declared.Command.TheVariants as commands;
ghost use Rattle.never_heap.specs.declared.Reply.TheVariants as replies;
ghost use Rattle.control_heap.specs.Calls.{Says, idled, stored, tested};
ghost use Rattle.shared_heap.specs.Calls.{HasReturned};
ghost use Rattle.shared_heap.specs.Workers.{IsSame};

use crate::{SharedHeap, Worker};
use block_store::{Name, Value};
use control_heap::Fault;
use control_heap::outcomes::{
    idle_in, length_in, name_in, outcome_of, stored_in, test_in, value_in,
};
use never_heap::{Command, Reply};
use std::sync::Wait;

impl SharedHeap {
    // Executes a command.
    fn call<R: Wait>(&self, rt: &R, who: &mut Worker, command: Command) -> Result<Reply, Fault>
        requires { who.old.heap ≡ self.now.id }
        ensures same { IsSame who.old who.new }
        ensures returned { HasReturned (λ a. a) who.old command who.new result }
        ensures says { IfOk result (Says command) }
    {
        outcome_of(self.ask(rt, who, command))
    }

    /// Makes a record whose fields are nil, lets register `d` refer to it, and returns its name.
    ///
    /// # Errors
    ///
    /// `Full` where too few blocks are free; `OutOfBounds` and `NoLifeLeft` as for `ask`.
    pub fn record<R: Wait>(
        &self,
        rt: &R,
        who: &mut Worker,
        d: u8,
        fields: u32,
    ) -> Result<Name, Fault>
        requires { who.old.heap ≡ self.now.id }
        ensures same { IsSame who.old who.new }
        ensures returned { HasReturned replies.New who.old (commands.New d fields) who.new result }
    {
        let reply = self.call(rt, who, Command::New { d, fields })?;
        Ok(name_in(reply))
    }

    /// Makes an array whose elements are nil, lets register `d` refer to it, and returns its name.
    ///
    /// # Errors
    ///
    /// `Full` where too few blocks are free; `OutOfBounds` and `NoLifeLeft` as for `ask`.
    pub fn array<R: Wait>(
        &self,
        rt: &R,
        who: &mut Worker,
        d: u8,
        elements: u32,
    ) -> Result<Name, Fault>
        requires { who.old.heap ≡ self.now.id }
        ensures same { IsSame who.old who.new }
        ensures returned { HasReturned replies.New who.old (commands.Arr d elements) who.new result }
    {
        let reply = self.call(rt, who, Command::Arr { d, elements })?;
        Ok(name_in(reply))
    }

    /// Loads field `i` of the object in register `s` into register `d`, and returns it.
    ///
    /// # Errors
    ///
    /// `Null` where register `s` is nil, `Kind` where it holds a number, `Range` where its object
    /// has no field `i`; `OutOfBounds` and `NoLifeLeft` as for `ask`.
    pub fn get<R: Wait>(
        &self,
        rt: &R,
        who: &mut Worker,
        d: u8,
        s: u8,
        i: u64,
    ) -> Result<Value, Fault>
        requires { who.old.heap ≡ self.now.id }
        ensures same { IsSame who.old who.new }
        ensures returned { HasReturned replies.Val who.old (commands.Get d s i) who.new result }
    {
        let reply = self.call(rt, who, Command::Get { d, s, i })?;
        Ok(value_in(reply))
    }

    /// Stores the value of register `v` in field `i` of the object in register `s`.
    ///
    /// # Errors
    ///
    /// `Null` where register `s` is nil, `Kind` where it holds a number, `Range` where its object
    /// has no field `i`; `OutOfBounds` and `NoLifeLeft` as for `ask`.
    pub fn put<R: Wait>(&self, rt: &R, who: &mut Worker, s: u8, i: u64, v: u8) -> Result<(), Fault>
        requires { who.old.heap ≡ self.now.id }
        ensures same { IsSame who.old who.new }
        ensures returned { HasReturned stored who.old (commands.Put s i v) who.new result }
    {
        let reply = self.call(rt, who, Command::Put { s, i, v })?;
        stored_in(reply);
        Ok(())
    }

    /// Exchanges field `i` of the object in register `s` with register `v`, and returns the field's
    /// old value. Only for blocks of eight words.
    ///
    /// # Errors
    ///
    /// `Null` where register `s` is nil, `Kind` where it holds a number, `Range` where its object
    /// has no field `i`; `OutOfBounds` and `NoLifeLeft` as for `ask`.
    pub fn swap<R: Wait>(
        &self,
        rt: &R,
        who: &mut Worker,
        s: u8,
        i: u64,
        v: u8,
    ) -> Result<Value, Fault>
        requires { who.old.heap ≡ self.now.id }
        ensures same { IsSame who.old who.new }
        ensures returned { HasReturned replies.Val who.old (commands.Swap s i v) who.new result }
    {
        let reply = self.call(rt, who, Command::Swap { s, i, v })?;
        Ok(value_in(reply))
    }

    /// Compares field `i` of the object in register `s` with register `a`. Where they are equal, it
    /// stores the value of register `v` in the field and returns `true`; otherwise it returns
    /// `false`. Only for blocks of eight words.
    ///
    /// # Errors
    ///
    /// `Null` where register `s` is nil, `Kind` where it holds a number, `Range` where its object
    /// has no field `i`; `OutOfBounds` and `NoLifeLeft` as for `ask`.
    pub fn cas<R: Wait>(
        &self,
        rt: &R,
        who: &mut Worker,
        s: u8,
        i: u64,
        a: u8,
        v: u8,
    ) -> Result<bool, Fault>
        requires { who.old.heap ≡ self.now.id }
        ensures same { IsSame who.old who.new }
        ensures returned { HasReturned tested who.old (commands.Cas s i a v) who.new result }
    {
        let reply = self.call(rt, who, Command::Cas { s, i, a, v })?;
        Ok(test_in(reply))
    }

    /// Sets register `d` to a number.
    ///
    /// # Errors
    ///
    /// `OutOfBounds` and `NoLifeLeft` as for `ask`.
    pub fn set<R: Wait>(&self, rt: &R, who: &mut Worker, d: u8, value: u64) -> Result<(), Fault>
        requires { who.old.heap ≡ self.now.id }
        ensures same { IsSame who.old who.new }
        ensures returned { HasReturned stored who.old (commands.Set d value) who.new result }
    {
        let reply = self.call(rt, who, Command::Set { d, value })?;
        stored_in(reply);
        Ok(())
    }

    /// Sets register `d` to nil.
    ///
    /// # Errors
    ///
    /// `OutOfBounds` and `NoLifeLeft` as for `ask`.
    pub fn nil<R: Wait>(&self, rt: &R, who: &mut Worker, d: u8) -> Result<(), Fault>
        requires { who.old.heap ≡ self.now.id }
        ensures same { IsSame who.old who.new }
        ensures returned { HasReturned stored who.old (commands.Nil d) who.new result }
    {
        let reply = self.call(rt, who, Command::Nil { d })?;
        stored_in(reply);
        Ok(())
    }

    /// Copies register `s` to register `d`.
    ///
    /// # Errors
    ///
    /// `OutOfBounds` and `NoLifeLeft` as for `ask`.
    pub fn mov<R: Wait>(&self, rt: &R, who: &mut Worker, d: u8, s: u8) -> Result<(), Fault>
        requires { who.old.heap ≡ self.now.id }
        ensures same { IsSame who.old who.new }
        ensures returned { HasReturned stored who.old (commands.Mov d s) who.new result }
    {
        let reply = self.call(rt, who, Command::Mov { d, s })?;
        stored_in(reply);
        Ok(())
    }

    /// The number of fields or elements of the object in register `s`.
    ///
    /// # Errors
    ///
    /// `Null` where register `s` is nil, `Kind` where it holds a number; `OutOfBounds` and
    /// `NoLifeLeft` as for `ask`.
    pub fn len<R: Wait>(&self, rt: &R, who: &mut Worker, s: u8) -> Result<u64, Fault>
        requires { who.old.heap ≡ self.now.id }
        ensures same { IsSame who.old who.new }
        ensures returned { HasReturned replies.Len who.old (commands.Len s) who.new result }
    {
        let reply = self.call(rt, who, Command::Len { s })?;
        Ok(length_in(reply))
    }

    /// Whether registers `a` and `b` are both nil, the same number, or refer to the same object.
    ///
    /// # Errors
    ///
    /// `OutOfBounds` and `NoLifeLeft` as for `ask`.
    pub fn same<R: Wait>(&self, rt: &R, who: &mut Worker, a: u8, b: u8) -> Result<bool, Fault>
        requires { who.old.heap ≡ self.now.id }
        ensures same { IsSame who.old who.new }
        ensures returned { HasReturned tested who.old (commands.Same a b) who.new result }
    {
        let reply = self.call(rt, who, Command::Same { a, b })?;
        Ok(test_in(reply))
    }

    /// The value of register `s`.
    ///
    /// # Errors
    ///
    /// `OutOfBounds` and `NoLifeLeft` as for `ask`.
    pub fn say<R: Wait>(&self, rt: &R, who: &mut Worker, s: u8) -> Result<Value, Fault>
        requires { who.old.heap ≡ self.now.id }
        ensures same { IsSame who.old who.new }
        ensures returned { HasReturned replies.Val who.old (commands.Say s) who.new result }
    {
        let reply = self.call(rt, who, Command::Say { s })?;
        Ok(value_in(reply))
    }

    /// Makes `units` units of marking or sweeping. Only for blocks of eight words.
    ///
    /// # Errors
    ///
    /// `OutOfBounds` and `NoLifeLeft` as for `ask`.
    pub fn idle<R: Wait>(&self, rt: &R, who: &mut Worker, units: u64) -> Result<(), Fault>
        requires { who.old.heap ≡ self.now.id }
        ensures same { IsSame who.old who.new }
        ensures returned { HasReturned idled who.old (commands.Idle units) who.new result }
    {
        let reply = self.call(rt, who, Command::Idle { units })?;
        idle_in(reply);
        Ok(())
    }
}
