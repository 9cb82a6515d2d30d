//! The heap that never frees, as a plain program: each object keeps its fields in a vector.

ghost use Rattle.std.specs.Prelude.{◌≡◌, ◌<◌, ◌≤◌, Some, None, length, IfOk, OnErr, OnOk, option_copied, if◌then◌else◌};
ghost use Rattle.block_store.specs.Configs.{IsInBounds};
ghost use Rattle.never_heap.specs.Bounds.{IsCommandInRange};
ghost use Rattle.never_heap.specs.Graphs.{start_graph, count_of, register_of, object_of, has_name, object_named, fields_named, with_register, with_field, with_graph, nil_object};
ghost use Rattle.never_heap.specs.Kinds.{kind_of};
ghost use Rattle.never_heap.specs.Steps.{step, made};
ghost use Rattle.never_heap.specs.Finding.{found};

use crate::mutator::Mutator;
use crate::object::{Kind, Object};
use crate::{Command, Reply};
use block_store::{Config, Name, OutOfMemory, REGISTERS, Value, Width};
use std::alloc::Global;
use std::marker::Model;

/// An object graph that only grows: the registers of each thread, and all objects that were made.
#[derive(Drop)]
pub struct Graph {
    alloc: Global,
    width: Width,
    shared: Object,
    mutators: Vec<Mutator>,
}

impl Model for Graph {
    ghost use Rattle.never_heap.specs.Graphs.{WideGraph};

    ghost Value = { WideGraph };

    ghost use Rattle.std.specs.Prelude.{◌≤◌, length};

    ghost view = { λ g. record {
      width = g.width;
      graph = record { shared = g.shared; mutators = g.mutators.items };
    } };

    ghost invariant = { λ g. length g.mutators.items ≤ 16 };
}

impl Graph {
    /// The graph before the first command: the shared array of nils, and the threads, each of which
    /// has a reference to it in register 0. The configuration is in its ranges.
    pub fn start(alloc: Global, c: &Config) -> Result<Graph, OutOfMemory>
        requires { IsInBounds c.now }
        ensures { IfOk result (λ g. g ≡ record { width = c.now.width; graph = start_graph c.now }) }
    {
        let shared = Object::nils(alloc, Kind::Array, c.shared)?;
        let mut mutators = Vec::new(alloc);
        for _thread in 0..c.threads {
            mutators.push(Mutator::start(alloc, c.threads))?;
        }
        Ok(Graph {
            alloc,
            width: c.width,
            shared,
            mutators,
        })
    }

    /// What register `r` of a thread holds. There are the thread and the register.
    pub fn register(&self, thread: u32, r: u8) -> Value
        requires thread { thread < length self.now.graph.mutators }
        requires register { r < REGISTERS }
        ensures { result ≡ register_of self.now.graph thread r }
    {
        self.mutators[thread as usize].register(r)
    }

    /// The fields or elements of the object of this name. `None` exactly where no object has it.
    pub fn fields(&self, name: Name) -> Option<&[Value]>
        ensures { option_copied result ≡ fields_named self.now.graph name }
    {
        self.object(name).map(|object| object.fields())
    }

    pub(crate) fn alloc(&self) -> Global {
        self.alloc
    }

    pub(crate) fn width(&self) -> Width
        ensures { result ≡ self.now.width }
    {
        self.width
    }

    pub(crate) fn mutators(&self) -> &[Mutator]
        ensures mutators { result.now ≡ self.now.graph.mutators }
        ensures few { length result.now ≤ 16 }
    {
        &self.mutators
    }

    // The object of a name.
    pub(crate) fn object(&self, name: Name) -> Option<&Object>
        ensures { option_copied result ≡ object_named self.now.graph name }
    {
        if name.serial == 0 {
            return (name.thread as usize == self.mutators.len()).then_some(&self.shared);
        }
        self.mutators.get(name.thread as usize)?.object(name.serial)
    }

    // The fields of the object of a name; none where no object has it.
    pub(crate) fn cells(&self, name: Name) -> &[Value]
        ensures { result.now ≡ (object_of self.now.graph name).fields }
    {
        self.fields(name).unwrap_or(&[])
    }

    // Field `i` of the object to which register `s` refers, with its name, or the refusal.
    fn find(&self, thread: u32, s: u8, i: u64) -> Result<(Name, Value), Reply>
        requires thread { thread < length self.now.graph.mutators }
        requires register { s < REGISTERS }
        ensures { result ≡ found self.now.graph (register_of self.now.graph thread s) i }
    {
        match self.register(thread, s) {
            Value::Nil => Err(Reply::Null),
            Value::Int(_) => Err(Reply::Kind),
            Value::Ref(name) => match self.cells(name).get(i as usize) {
                Some(value) => Ok((name, *value)),
                None => Err(Reply::Range),
            },
        }
    }

    // Register `d` becomes this value.
    fn store(&mut self, thread: u32, d: u8, value: Value) -> Reply
        requires thread { thread < length self.old.graph.mutators }
        requires register { d < REGISTERS }
        ensures reply { result ≡ Reply.Stored }
        ensures graph { self.new ≡
            with_graph self.old (with_register self.old.graph thread d value) }
    {
        self.mutators[thread as usize].set_register(d, value);
        Reply::Stored
    }

    // A new object of nils in register `d`. What can fail comes first.
    fn make(&mut self, thread: u32, d: u8, kind: Kind, fields: u32) -> Result<Reply, OutOfMemory>
        requires thread { thread < length self.old.graph.mutators }
        requires register { d < REGISTERS }
        requires fields { fields ≤ 65535 }
        requires count { count_of self.old.graph thread < 131072 }
        ensures made { IfOk result (λ r.
            let s = made self.old.graph thread d (nil_object (kind_of kind) fields)
            in (r ≡ s.1) × (self.new ≡ with_graph self.old s.0)) }
        ensures unchanged { OnErr result (self.new ≡ self.old) }
    {
        let object = Object::nils(self.alloc, kind, fields)?;
        let mutator = &mut self.mutators[thread as usize];
        let serial = mutator.count() as u64 + 1;
        mutator.add(object)?;
        let name = Name { thread, serial };
        mutator.set_register(d, Value::Ref(name));
        Ok(Reply::New(name))
    }

    fn get(&mut self, thread: u32, d: u8, s: u8, i: u64) -> Reply
        requires thread { thread < length self.old.graph.mutators }
        requires registers { (d < REGISTERS) × (s < REGISTERS) }
        ensures reply { result ≡ (step self.old.graph thread (Command.Get d s i)).1 }
        ensures graph { self.new ≡
            with_graph self.old (step self.old.graph thread (Command.Get d s i)).0 }
    {
        match self.find(thread, s, i) {
            Ok((_, value)) => {
                self.store(thread, d, value);
                Reply::Val(value)
            }
            Err(refusal) => refusal,
        }
    }

    fn put(&mut self, thread: u32, s: u8, i: u64, v: u8) -> Reply
        requires thread { thread < length self.old.graph.mutators }
        requires registers { (s < REGISTERS) × (v < REGISTERS) }
        ensures reply { result ≡ (step self.old.graph thread (Command.Put s i v)).1 }
        ensures graph { self.new ≡
            with_graph self.old (step self.old.graph thread (Command.Put s i v)).0 }
    {
        let value = self.register(thread, v);
        match self.find(thread, s, i) {
            Ok((name, _)) => {
                self.set_field(name, i as usize, value);
                Reply::Stored
            }
            Err(refusal) => refusal,
        }
    }

    // Field `i` of the object of a name becomes this value.
    fn set_field(&mut self, name: Name, i: usize, value: Value)
        requires { i < length (object_of self.old.graph name).fields }
        ensures { self.new ≡ with_graph self.old (with_field self.old.graph name i value) }
    {
        if name.serial == 0 {
            self.shared.put(i, value);
        } else {
            self.mutators[name.thread as usize].put(name.serial, i, value);
        }
    }

    #[tactic(auto, using(crate::proofs::StepChanges::threads_put))]
    fn swap(&mut self, thread: u32, s: u8, i: u64, v: u8) -> Reply
        requires thread { thread < length self.old.graph.mutators }
        requires registers { (s < REGISTERS) × (v < REGISTERS) }
        ensures reply { result ≡ (step self.old.graph thread (Command.Swap s i v)).1 }
        ensures graph { self.new ≡
            with_graph self.old (step self.old.graph thread (Command.Swap s i v)).0 }
    {
        let value = self.register(thread, v);
        match self.find(thread, s, i) {
            Ok((name, old)) => {
                self.set_field(name, i as usize, value);
                self.store(thread, v, old);
                Reply::Val(old)
            }
            Err(refusal) => refusal,
        }
    }

    fn cas(&mut self, thread: u32, s: u8, i: u64, a: u8, v: u8) -> Reply
        requires thread { thread < length self.old.graph.mutators }
        requires registers { (s < REGISTERS) × (a < REGISTERS) × (v < REGISTERS) }
        ensures reply { result ≡ (step self.old.graph thread (Command.Cas s i a v)).1 }
        ensures graph { self.new ≡
            with_graph self.old (step self.old.graph thread (Command.Cas s i a v)).0 }
    {
        let expected = self.register(thread, a);
        let value = self.register(thread, v);
        match self.find(thread, s, i) {
            Ok((name, old)) => {
                if old == expected {
                    self.set_field(name, i as usize, value);
                    Reply::Yes
                } else {
                    Reply::No
                }
            }
            Err(refusal) => refusal,
        }
    }

    fn len(&self, thread: u32, s: u8) -> Reply
        requires thread { thread < length self.now.graph.mutators }
        requires register { s < REGISTERS }
        ensures { result ≡ (step self.now.graph thread (Command.Len s)).1 }
    {
        match self.register(thread, s) {
            Value::Nil => Reply::Null,
            Value::Int(_) => Reply::Kind,
            Value::Ref(name) => Reply::Len(self.cells(name).len() as u64),
        }
    }

    fn same(&self, thread: u32, a: u8, b: u8) -> Reply
        requires thread { thread < length self.now.graph.mutators }
        requires registers { (a < REGISTERS) × (b < REGISTERS) }
        ensures { result ≡ (step self.now.graph thread (Command.Same a b)).1 }
    {
        if self.register(thread, a) == self.register(thread, b) {
            Reply::Yes
        } else {
            Reply::No
        }
    }

    /// Does one command of a thread, and answers it; never with a full. There is the thread, the
    /// command's registers are below `REGISTERS`, its numbers and indexes below 2^62, what it makes
    /// is at most 65,535 long, and the thread has made fewer than 131,072 objects. After want of
    /// memory the graph is as it was.
    pub fn apply(&mut self, thread: u32, command: &Command) -> Result<Reply, OutOfMemory>
        requires thread { thread < length self.old.graph.mutators }
        requires command { IsCommandInRange command.now }
        requires count { count_of self.old.graph thread < 131072 }
        ensures reply { IfOk result (λ r. r ≡ (step self.old.graph thread command.now).1) }
        ensures graph { OnOk result (self.new ≡
            with_graph self.old (step self.old.graph thread command.now).0) }
        ensures unchanged { OnErr result (self.new ≡ self.old) }
    {
        Ok(match *command {
            Command::New { d, fields } => return self.make(thread, d, Kind::Record, fields),
            Command::Arr { d, elements } => return self.make(thread, d, Kind::Array, elements),
            Command::Set { d, value } => self.store(thread, d, Value::Int(value)),
            Command::Nil { d } => self.store(thread, d, Value::Nil),
            Command::Mov { d, s } => {
                let value = self.register(thread, s);
                self.store(thread, d, value)
            }
            Command::Get { d, s, i } => self.get(thread, d, s, i),
            Command::Put { s, i, v } => self.put(thread, s, i, v),
            Command::Len { s } => self.len(thread, s),
            Command::Same { a, b } => self.same(thread, a, b),
            Command::Say { s } => Reply::Val(self.register(thread, s)),
            Command::Swap { s, i, v } => self.swap(thread, s, i, v),
            Command::Cas { s, i, a, v } => self.cas(thread, s, i, a, v),
            Command::Idle { .. } => Reply::Idle,
        })
    }
}
