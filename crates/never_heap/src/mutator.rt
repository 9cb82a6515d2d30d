//! What a graph has of each thread.

ghost use Rattle.std.specs.Prelude.{◌≡◌, ◌<◌, ◌≤◌, ◌+◌, ◌-◌, ◌++◌, ◌∷◌, [], Some, None, nat_le, length, slice_set, slice_index_or, OnErr, OnOk, option_copied, if◌then◌else◌};
ghost use Rattle.block_store.specs.declared.Value.TheVariants.{Nil};
ghost use Rattle.never_heap.specs.Graphs.{start_mutator, object_at, set_field};

use crate::object::Object;
use block_store::{Name, OutOfMemory, REGISTERS, Value};
use std::alloc::Global;
use std::marker::Model;

/// The registers of a thread, and the objects that it made, of which there are at most 131,072.
#[derive(Drop)]
pub(crate) struct Mutator {
    registers: [Value; REGISTERS as usize],
    objects: Vec<Object>,
}

impl Model for Mutator {
    ghost use Rattle.never_heap.specs.Graphs.{Mutator as Seen};

    ghost Value = { Seen };

    ghost use Rattle.std.specs.Prelude.{◌≤◌, length};

    ghost view = { λ m. record { registers = m.registers; objects = m.objects.items } };

    ghost invariant = { λ m. length m.objects.items ≤ 131072 };
}

impl Mutator {
    // One of this many threads, before its first command.
    pub(crate) fn start(alloc: Global, threads: u32) -> Mutator
        ensures { result ≡ start_mutator threads }
    {
        let mut registers = [Value::Nil; REGISTERS as usize];
        registers[0] = Value::Ref(Name {
            thread: threads,
            serial: 0,
        });
        Mutator {
            registers,
            objects: Vec::new(alloc),
        }
    }

    pub(crate) fn register(&self, r: u8) -> Value
        requires { r < REGISTERS }
        ensures { result ≡ slice_index_or self.now.registers r Nil }
    {
        self.registers[r as usize]
    }

    pub(crate) fn registers(&self) -> &[Value]
        ensures { result.now ≡ self.now.registers }
    {
        &self.registers
    }

    pub(crate) fn set_register(&mut self, r: u8, value: Value)
        requires { r < REGISTERS }
        ensures registers { self.new.registers ≡ slice_set self.old.registers r value }
        ensures objects { self.new.objects ≡ self.old.objects }
    {
        self.registers[r as usize] = value;
    }

    pub(crate) fn count(&self) -> usize
        ensures value { result ≡ length self.now.objects }
        ensures few { result ≤ 131072 }
    {
        self.objects.len()
    }

    // The object of a serial, which is at least 1.
    pub(crate) fn object(&self, serial: u64) -> Option<&Object>
        requires { 1 ≤ serial }
        ensures { option_copied result ≡ (if nat_le serial (length self.now.objects)
            then Some (object_at self.now serial) else None) }
    {
        self.objects.get(serial as usize - 1)
    }

    // One more object.
    pub(crate) fn add(&mut self, object: Object) -> Result<(), OutOfMemory>
        requires { length self.old.objects < 131072 }
        ensures added { OnOk result (self.new.objects ≡ self.old.objects ++ object ∷ []) }
        ensures registers { self.new.registers ≡ self.old.registers }
        ensures unchanged { OnErr result (self.new ≡ self.old) }
    {
        self.objects.push(object)?;
        Ok(())
    }

    // Field `i` of the object of a serial becomes this value.
    pub(crate) fn put(&mut self, serial: u64, i: usize, value: Value)
        requires serial { (1 ≤ serial) × (serial ≤ length self.old.objects) }
        requires field { i < length (object_at self.old serial).fields }
        ensures registers { self.new.registers ≡ self.old.registers }
        ensures objects { self.new.objects ≡
            slice_set self.old.objects (serial - 1)
            (set_field (object_at self.old serial) i value) }
    {
        self.objects[serial as usize - 1].put(i, value);
    }
}
