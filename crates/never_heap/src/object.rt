//! The objects of a graph.

ghost use Rattle.std.specs.Prelude.{◌≡◌, ◌<◌, ◌≤◌, length, IfOk};
ghost use Rattle.never_heap.specs.Graphs.{set_field, nils};
ghost use Rattle.never_heap.specs.Kinds.{kind_of};
ghost use Rattle.never_heap.specs.LiveBlocks.{object_blocks};

use array_trees::blocks_of_array;
use block_store::{OutOfMemory, Value, Width};
use object_lists::blocks_of_record;
use std::alloc::Global;
use std::marker::Model;

/// What an object is.
#[derive(Clone, Copy)]
pub(crate) enum Kind {
    Record,
    Array,
}

/// A record or an array, at most 65,535 long.
#[derive(Drop)]
pub(crate) struct Object {
    kind: Kind,
    fields: Vec<Value>,
}

impl Model for Object {
    ghost use Rattle.never_heap.specs.Graphs.{Object as Seen};

    ghost Value = { Seen };

    ghost use Rattle.std.specs.Prelude.{◌≤◌, length};
    ghost use Rattle.never_heap.specs.Kinds.{kind_of};

    ghost view = { λ o. record { kind = kind_of o.kind; fields = o.fields.items } };

    ghost invariant = { λ o. length o.fields.items ≤ 65535 };
}

impl Object {
    // An object of nils.
    pub(crate) fn nils(alloc: Global, kind: Kind, length: u32) -> Result<Object, OutOfMemory>
        requires { length ≤ 65535 }
        ensures { IfOk result (λ o. (o.kind ≡ kind_of kind) × (o.fields ≡ nils length)) }
    {
        let fields = vec![in alloc; Value::Nil; length as usize]?;
        Ok(Object { kind, fields })
    }

    pub(crate) fn fields(&self) -> &[Value]
        ensures { result.now ≡ self.now.fields }
    {
        &self.fields
    }

    pub(crate) fn put(&mut self, i: usize, value: Value)
        requires { i < length self.old.fields }
        ensures { self.new ≡ set_field self.old i value }
    {
        self.fields[i] = value;
    }

    // The blocks of this width that the object takes, at most 21,845.
    pub(crate) fn blocks(&self, width: Width) -> u32
        ensures value { result ≡ object_blocks width self.now }
        ensures few { result ≤ 21845 }
    {
        let length = self.fields.len() as u32;
        match self.kind {
            Kind::Record => blocks_of_record(width, length),
            Kind::Array => blocks_of_array(width, length),
        }
    }
}
