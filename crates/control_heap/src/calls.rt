//! One call for each command. Registers are 0 to 15, numbers are below 2^62, and an `idle` makes at
//! most 131,070 units; what is out of range is refused as `OutOfBounds`.

ghost use Rattle.std.specs.Prelude.{◌≡◌, IfOk};
ghost use Rattle.never_heap.specs.declared.Command.TheVariants as commands;
ghost use Rattle.never_heap.specs.declared.Reply.TheVariants as replies;
ghost use Rattle.control_heap.specs.Calls.{HasReturned, Says, idled, stored, tested};

use crate::outcomes::{idle_in, length_in, name_in, outcome_of, stored_in, test_in, value_in};
use crate::{ControlHeap, Fault, Store};
use block_store::{Name, Value};
use never_heap::{Command, Reply};

impl<M: Store> ControlHeap<M> {
    // Does a command.
    #[inline(always)]
    fn call(&mut self, command: Command) -> Result<Reply, Fault>
        ensures config { self.new.config ≡ self.old.config }
        ensures returned { HasReturned (λ a. a) M.acts self.old command self.new result }
        ensures says { IfOk result (Says command) }
    {
        outcome_of(self.ask(command))
    }

    /// Makes a record whose fields are nil, lets register `d` refer to it, and returns its name.
    ///
    /// # Errors
    ///
    /// `Full` where too few blocks are free; `OutOfBounds` and `NoLifeLeft` as for `ask`.
    pub fn record(&mut self, d: u8, fields: u32) -> Result<Name, Fault>
        ensures config { self.new.config ≡ self.old.config }
        ensures returned { HasReturned replies.New M.acts self.old (commands.New d fields) self.new result }
    {
        let reply = self.call(Command::New { d, fields })?;
        Ok(name_in(reply))
    }

    /// Makes an array whose elements are nil, lets register `d` refer to it, and returns its name.
    ///
    /// # Errors
    ///
    /// `Full` where too few blocks are free; `OutOfBounds` and `NoLifeLeft` as for `ask`.
    pub fn array(&mut self, d: u8, elements: u32) -> Result<Name, Fault>
        ensures config { self.new.config ≡ self.old.config }
        ensures returned { HasReturned replies.New M.acts self.old (commands.Arr d elements) self.new
            result }
    {
        let reply = self.call(Command::Arr { d, elements })?;
        Ok(name_in(reply))
    }

    /// Loads field `i` of the object in register `s` into register `d`, and returns it.
    ///
    /// # Errors
    ///
    /// `Null` where register `s` is nil, `Kind` where it holds a number, `Range` where its object
    /// has no field `i`; `OutOfBounds` and `NoLifeLeft` as for `ask`.
    pub fn get(&mut self, d: u8, s: u8, i: u64) -> Result<Value, Fault>
        ensures config { self.new.config ≡ self.old.config }
        ensures returned { HasReturned replies.Val M.acts self.old (commands.Get d s i) self.new result }
    {
        let reply = self.call(Command::Get { d, s, i })?;
        Ok(value_in(reply))
    }

    /// Stores the value of register `v` in field `i` of the object in register `s`.
    ///
    /// # Errors
    ///
    /// `Null` where register `s` is nil, `Kind` where it holds a number, `Range` where its object
    /// has no field `i`; `OutOfBounds` and `NoLifeLeft` as for `ask`.
    pub fn put(&mut self, s: u8, i: u64, v: u8) -> Result<(), Fault>
        ensures config { self.new.config ≡ self.old.config }
        ensures returned { HasReturned stored M.acts self.old (commands.Put s i v) self.new result }
    {
        let reply = self.call(Command::Put { s, i, v })?;
        stored_in(reply);
        Ok(())
    }

    /// Exchanges field `i` of the object in register `s` with register `v`, and returns the field's
    /// old value. Only for blocks of eight words.
    ///
    /// # Errors
    ///
    /// `Null` where register `s` is nil, `Kind` where it holds a number, `Range` where its object
    /// has no field `i`; `OutOfBounds` and `NoLifeLeft` as for `ask`.
    pub fn swap(&mut self, s: u8, i: u64, v: u8) -> Result<Value, Fault>
        ensures config { self.new.config ≡ self.old.config }
        ensures returned { HasReturned replies.Val M.acts self.old (commands.Swap s i v) self.new result }
    {
        let reply = self.call(Command::Swap { s, i, v })?;
        Ok(value_in(reply))
    }

    /// Compares field `i` of the object in register `s` with register `a`. Where they are equal, it
    /// stores the value of register `v` in the field and returns `true`; otherwise it returns
    /// `false`. Only for blocks of eight words.
    ///
    /// # Errors
    ///
    /// `Null` where register `s` is nil, `Kind` where it holds a number, `Range` where its object
    /// has no field `i`; `OutOfBounds` and `NoLifeLeft` as for `ask`.
    pub fn cas(&mut self, s: u8, i: u64, a: u8, v: u8) -> Result<bool, Fault>
        ensures config { self.new.config ≡ self.old.config }
        ensures returned { HasReturned tested M.acts self.old (commands.Cas s i a v) self.new result }
    {
        let reply = self.call(Command::Cas { s, i, a, v })?;
        Ok(test_in(reply))
    }

    /// Sets register `d` to a number.
    ///
    /// # Errors
    ///
    /// `OutOfBounds` and `NoLifeLeft` as for `ask`.
    pub fn set(&mut self, d: u8, value: u64) -> Result<(), Fault>
        ensures config { self.new.config ≡ self.old.config }
        ensures returned { HasReturned stored M.acts self.old (commands.Set d value) self.new result }
    {
        let reply = self.call(Command::Set { d, value })?;
        stored_in(reply);
        Ok(())
    }

    /// Sets register `d` to nil.
    ///
    /// # Errors
    ///
    /// `OutOfBounds` and `NoLifeLeft` as for `ask`.
    pub fn nil(&mut self, d: u8) -> Result<(), Fault>
        ensures config { self.new.config ≡ self.old.config }
        ensures returned { HasReturned stored M.acts self.old (commands.Nil d) self.new result }
    {
        let reply = self.call(Command::Nil { d })?;
        stored_in(reply);
        Ok(())
    }

    /// Copies register `s` to register `d`.
    ///
    /// # Errors
    ///
    /// `OutOfBounds` and `NoLifeLeft` as for `ask`.
    pub fn mov(&mut self, d: u8, s: u8) -> Result<(), Fault>
        ensures config { self.new.config ≡ self.old.config }
        ensures returned { HasReturned stored M.acts self.old (commands.Mov d s) self.new result }
    {
        let reply = self.call(Command::Mov { d, s })?;
        stored_in(reply);
        Ok(())
    }

    /// The number of fields or elements of the object in register `s`.
    ///
    /// # Errors
    ///
    /// `Null` where register `s` is nil, `Kind` where it holds a number; `OutOfBounds` and
    /// `NoLifeLeft` as for `ask`.
    pub fn len(&mut self, s: u8) -> Result<u64, Fault>
        ensures config { self.new.config ≡ self.old.config }
        ensures returned { HasReturned replies.Len M.acts self.old (commands.Len s) self.new result }
    {
        let reply = self.call(Command::Len { s })?;
        Ok(length_in(reply))
    }

    /// Whether registers `a` and `b` are both nil, the same number, or refer to the same object.
    ///
    /// # Errors
    ///
    /// `OutOfBounds` and `NoLifeLeft` as for `ask`.
    pub fn same(&mut self, a: u8, b: u8) -> Result<bool, Fault>
        ensures config { self.new.config ≡ self.old.config }
        ensures returned { HasReturned tested M.acts self.old (commands.Same a b) self.new result }
    {
        let reply = self.call(Command::Same { a, b })?;
        Ok(test_in(reply))
    }

    /// The value of register `s`.
    ///
    /// # Errors
    ///
    /// `OutOfBounds` and `NoLifeLeft` as for `ask`.
    pub fn say(&mut self, s: u8) -> Result<Value, Fault>
        ensures config { self.new.config ≡ self.old.config }
        ensures returned { HasReturned replies.Val M.acts self.old (commands.Say s) self.new result }
    {
        let reply = self.call(Command::Say { s })?;
        Ok(value_in(reply))
    }

    /// Makes `units` units of marking or sweeping. Only for blocks of eight words.
    ///
    /// # Errors
    ///
    /// `OutOfBounds` and `NoLifeLeft` as for `ask`.
    pub fn idle(&mut self, units: u64) -> Result<(), Fault>
        ensures config { self.new.config ≡ self.old.config }
        ensures returned { HasReturned idled M.acts self.old (commands.Idle units) self.new result }
    {
        let reply = self.call(Command::Idle { units })?;
        idle_in(reply);
        Ok(())
    }
}
