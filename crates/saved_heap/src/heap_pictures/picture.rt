//! The objects that the registers of a heap reach, numbered in the order in which a walk finds them.

ghost use Rattle.std.specs.Prelude.{◌≡◌, ◌==◌, ◌&&◌, length, map};
ghost use Rattle.std.specs.List.{list_all};
ghost use Rattle.block_store.specs.declared.TheConstants.{REGISTERS};
ghost use Rattle.saved_heap.specs.heap_pictures.Pictures.{are_within, content_of, is_item, is_sound, is_within, view};

use block_store::{REGISTERS, Value};
use never_heap::{MOST_FIELDS, NUMBERS};

/// What an object is.
#[derive(Clone, Copy, Debug, PartialEq, Eq)]
pub enum Kind {
    /// A record of fields.
    Record,
    /// An array of elements.
    Array,
}

/// An object: what it is, and what its fields hold.
#[derive(Debug, PartialEq, Eq, Drop)]
pub struct Item {
    /// Record or array.
    pub kind: Kind,
    /// Its fields or elements.
    pub fields: Vec<Value>,
}

/// What registers hold and the objects that they reach. The name of object `k`, counted from 1, is
/// `0.k`.
#[derive(Debug, PartialEq, Eq, Drop)]
pub struct Picture {
    /// What the sixteen registers hold.
    pub registers: Vec<Value>,
    /// The objects.
    pub objects: Vec<Item>,
}

// Whether a value is nil, a number below 2^62, or the name of one of so many objects.
fn is_within(value: &Value, count: u64) -> bool
    ensures { result ≡ is_within count value.now }
{
    match *value {
        Value::Nil => true,
        Value::Int(number) => number < NUMBERS,
        Value::Ref(name) => name.thread == 0 && 1 <= name.serial && name.serial <= count,
    }
}

fn are_within(values: &[Value], count: u64) -> bool
    ensures { result ≡ are_within count values.now }
{
    for value in values {
        if !is_within(value, count) {
            return false;
        }
    }
    true
}

fn is_item(item: &Item, count: u64) -> bool
    ensures { result ≡ is_item count (view item.now) }
{
    item.fields.len() <= MOST_FIELDS as usize && are_within(&item.fields, count)
}

fn pass(items: &[Item], count: u64) -> bool
    ensures { result ≡ list_all (λ o. is_item count (view o)) items.now }
{
    for item in items {
        if !is_item(item, count) {
            return false;
        }
    }
    true
}

fn are_items(items: &[Item], count: u64) -> bool
    ensures { result ≡ list_all (is_item count) (map view items.now) }
{
    pass(items, count)
}

fn are_sixteen(registers: &[Value]) -> bool
    ensures { result ≡ (length registers.now == REGISTERS) }
{
    registers.len() == REGISTERS as usize
}

fn are_registers(registers: &[Value], count: u64) -> bool
    ensures { result ≡ ((length registers.now == REGISTERS) && are_within count registers.now) }
{
    are_sixteen(registers) && are_within(registers, count)
}

fn are_both(one: bool, other: bool) -> bool
    ensures { result ≡ (one && other) }
{
    one && other
}

fn are_sound(registers: &[Value], objects: &[Item]) -> bool
    ensures { result
        ≡ is_sound (record { registers = registers.now; objects = map view objects.now }) }
{
    let count = objects.len() as u64;
    let right = are_registers(registers, count);
    let items = are_items(objects, count);
    are_both(right, items)
}

impl Picture {
    /// Whether it is the picture of a heap: there are sixteen registers, no object is longer than
    /// 65,535, numbers are below 2^62, and each reference is the name of an object.
    pub fn is_sound(&self) -> bool
        ensures { result ≡ is_sound (content_of self.now) }
    {
        are_sound(&self.registers, &self.objects)
    }
}
