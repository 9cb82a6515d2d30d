//! What the words of a heap have at the end of a path of indices, read without a command.

ghost use Rattle.std.specs.Prelude.{◌≡◌, ◌<◌, ◌≤◌, ◌∷◌, [], Ok, Err, Some, IfSome, length};
ghost use Rattle.block_store.specs.Configs.{IsInBounds};
ghost use Rattle.block_store.specs.Heaps.{heap_of};
ghost use Rattle.block_store.specs.Payloads.{payload_of};
ghost use Rattle.block_store.specs.Places.{PayloadOf, ShapeOf, extent, words_count};
ghost use Rattle.block_store.specs.Registers.{register_block, register_slot};
ghost use Rattle.block_store.specs.declared.Payload.TheVariants.{Block};
ghost use Rattle.block_store.specs.declared.Shape.TheVariants as shapes;
ghost use Rattle.block_store.specs.declared.TheConstants.{REGISTERS};
ghost use Rattle.barrier_steps.specs.Rows.{shape_in};
ghost use Rattle.control_heap.specs.Peeks.{field_found, missed, object_field, path_found};

use crate::Fault;
use crate::readings::{field_word, length_of, payload_at, register_word, shape_at, value_of};
use block_store::{Config, Payload, Shape, Value, Width, read_payload};
use heap_machine::Words;
use object_lists::walk_of;

// Why there is no field `i`.
#[cold]
fn missed(i: u64, fault: Fault) -> Fault
    ensures { result ≡ missed i fault }
{
    if i < 1 << 62 {
        fault
    } else {
        Fault::OutOfBounds
    }
}

// The configuration, with numbers that the compiler knows.
#[inline(always)]
fn known(width: Width, c: &Config) -> Config
    requires width { c.now.width ≡ width }
    requires single { c.now.threads ≡ 1 }
    ensures { result ≡ c.now }
{
    Config {
        width,
        threads: 1,
        ..*c
    }
}

// The word of field `i` of the object that begins at block `x`.
#[inline(always)]
fn object_field(c: &Config, words: &Words, x: u32, i: u64) -> Result<u64, Fault>
    requires bounds { IsInBounds c.now }
    requires there { length words.now ≡ words_count (extent c.now) }
    ensures { result ≡ object_field (extent c.now) (heap_of (extent c.now) words.now)
        (shape_in (heap_of (extent c.now) words.now (ShapeOf x))) x i }
{
    let shape = shape_at(c, words, x);
    if i < length_of(shape) as u64 {
        Ok(field_word(c, words, x, shape, i as u32))
    } else {
        Err(missed(i, Fault::Range))
    }
}

// The word of field `i` of the object to which a payload word refers.
#[inline(always)]
fn field_found(c: &Config, words: &Words, word: u64, i: u64) -> Result<u64, Fault>
    requires bounds { IsInBounds c.now }
    requires there { length words.now ≡ words_count (extent c.now) }
    ensures { result ≡ field_found (extent c.now) (heap_of (extent c.now) words.now) word i }
{
    match read_payload(word) {
        Some(Payload::Block(x)) => object_field(c, words, x, i),
        Some(Payload::Int(_)) => Err(missed(i, Fault::Kind)),
        Some(Payload::Nil) | None => Err(missed(i, Fault::Null)),
    }
}

// The value at the end of a path from a payload word.
#[inline(always)]
fn path_found(c: &Config, words: &Words, word: u64, path: &[u64]) -> Result<Value, Fault>
    requires bounds { IsInBounds c.now }
    requires there { length words.now ≡ words_count (extent c.now) }
    ensures { result ≡ path_found (extent c.now) (heap_of (extent c.now) words.now) word path.now }
{
    let mut last = word;
    for index in path {
        last = field_found(c, words, last, *index)?;
    }
    Ok(value_of(c, words, last))
}

// The value at the end of a path from register `s`.
#[inline(always)]
fn path_from(c: &Config, words: &Words, s: u8, path: &[u64]) -> Result<Value, Fault>
    requires bounds { IsInBounds c.now }
    requires there { length words.now ≡ words_count (extent c.now) }
    requires register { s < REGISTERS }
    ensures { result ≡ path_found (extent c.now) (heap_of (extent c.now) words.now)
        (heap_of (extent c.now) words.now
        (PayloadOf (register_block c.now.width 0 s) (register_slot c.now.width s))) path.now }
{
    path_found(c, words, register_word(c, words, s), path)
}

/// The value at the end of a path from register `s` of a heap for one thread.
///
/// # Errors
///
/// The first fault on the path, as for `ControlHeap::get`.
pub fn path_value(c: &Config, words: &Words, s: u8, path: &[u64]) -> Result<Value, Fault>
    requires bounds { IsInBounds c.now }
    requires there { length words.now ≡ words_count (extent c.now) }
    requires single { c.now.threads ≡ 1 }
    requires register { s < REGISTERS }
    ensures { result ≡ path_found (extent c.now) (heap_of (extent c.now) words.now)
        (heap_of (extent c.now) words.now
        (PayloadOf (register_block c.now.width 0 s) (register_slot c.now.width s))) path.now }
{
    match c.width {
        Width::Four => path_from(&known(Width::Four, c), words, s, path),
        Width::Eight => path_from(&known(Width::Eight, c), words, s, path),
    }
}

// The block to which a payload word refers, if it is one of the heap.
#[inline(always)]
#[tactic(auto, unfolding(block_store::specs::Payloads::payload_of))]
fn near_block(c: &Config, word: u64) -> Option<u32>
    ensures { IfSome result (λ x. payload_of word ≡ Some (Block x)) }
{
    let half = word / 2;
    if word % 2 == 1 || half > 65_535 {
        return None;
    }
    let block = half as u32;
    if block == 0 || block > c.blocks {
        return None;
    }
    Some(block)
}

// The word of field `i` of a record that begins at block `x`, if it is in that block. No clause says
// when `None` comes: then the way through `path_found` is taken, which is right in any case.
#[inline(always)]
fn near_in_record(c: &Config, words: &Words, x: u32, fields: u32, i: u64) -> Option<u64>
    requires bounds { IsInBounds c.now }
    requires there { length words.now ≡ words_count (extent c.now) }
    requires few { fields ≤ 65535 }
    ensures { IfSome result (λ w. object_field (extent c.now) (heap_of (extent c.now) words.now)
        (shapes.List fields) x i ≡ Ok w) }
{
    if i >= fields as u64 {
        return None;
    }
    let (links, slot) = walk_of(c.width, i as u32);
    if links > 0 {
        return None;
    }
    Some(payload_at(c, words, x, slot))
}

// The same of element `i` of an array.
#[inline(always)]
#[tactic(auto, using(crate::proofs::ElementWords::flat_depth, crate::proofs::ElementWords::flat_turn))]
fn near_in_array(c: &Config, words: &Words, x: u32, elements: u32, i: u64) -> Option<u64>
    requires bounds { IsInBounds c.now }
    requires there { length words.now ≡ words_count (extent c.now) }
    requires few { elements ≤ 65535 }
    ensures { IfSome result (λ w. object_field (extent c.now) (heap_of (extent c.now) words.now)
        (shapes.Tree elements) x i ≡ Ok w) }
{
    if i >= elements as u64 {
        return None;
    }
    if elements > c.width.payloads() {
        return None;
    }
    Some(payload_at(c, words, x, i as u32))
}

// The same of an object.
#[inline(always)]
fn near_field(c: &Config, words: &Words, x: u32, i: u64) -> Option<u64>
    requires bounds { IsInBounds c.now }
    requires there { length words.now ≡ words_count (extent c.now) }
    ensures { IfSome result (λ w. object_field (extent c.now) (heap_of (extent c.now) words.now)
        (shape_in (heap_of (extent c.now) words.now (ShapeOf x))) x i ≡ Ok w) }
{
    match shape_at(c, words, x) {
        Shape::List(fields) => near_in_record(c, words, x, fields, i),
        Shape::Tree(elements) => near_in_array(c, words, x, elements, i),
    }
}

// The same of the object to which a payload word refers.
#[inline(always)]
fn near_found(c: &Config, words: &Words, word: u64, i: u64) -> Option<u64>
    requires bounds { IsInBounds c.now }
    requires there { length words.now ≡ words_count (extent c.now) }
    ensures { IfSome result (λ w. field_found (extent c.now) (heap_of (extent c.now) words.now)
        word i ≡ Ok w) }
{
    let x = near_block(c, word)?;
    near_field(c, words, x, i)
}

// The value of such a field of the object in register `s`.
#[inline(always)]
fn near_one(c: &Config, words: &Words, s: u8, i: u64) -> Option<Value>
    requires bounds { IsInBounds c.now }
    requires there { length words.now ≡ words_count (extent c.now) }
    requires register { s < REGISTERS }
    ensures { IfSome result (λ v. path_found (extent c.now) (heap_of (extent c.now) words.now)
        (heap_of (extent c.now) words.now
        (PayloadOf (register_block c.now.width 0 s) (register_slot c.now.width s))) (i ∷ []) ≡ Ok v) }
{
    let word = near_found(c, words, register_word(c, words, s), i)?;
    Some(value_of(c, words, word))
}

// The same of field `j` of the object in that field.
#[inline(always)]
fn near_two(c: &Config, words: &Words, s: u8, i: u64, j: u64) -> Option<Value>
    requires bounds { IsInBounds c.now }
    requires there { length words.now ≡ words_count (extent c.now) }
    requires register { s < REGISTERS }
    ensures { IfSome result (λ v. path_found (extent c.now) (heap_of (extent c.now) words.now)
        (heap_of (extent c.now) words.now
        (PayloadOf (register_block c.now.width 0 s) (register_slot c.now.width s))) (i ∷ j ∷ [])
        ≡ Ok v) }
{
    let first = near_found(c, words, register_word(c, words, s), i)?;
    let word = near_found(c, words, first, j)?;
    Some(value_of(c, words, word))
}

/// The value of field `i` of the object in register `s` of a heap for one thread. `None` may come
/// in any case: `path_value` is for all.
#[inline(always)]
pub fn near_value(c: &Config, words: &Words, s: u8, i: u64) -> Option<Value>
    requires bounds { IsInBounds c.now }
    requires there { length words.now ≡ words_count (extent c.now) }
    requires single { c.now.threads ≡ 1 }
    requires register { s < REGISTERS }
    ensures { IfSome result (λ v. path_found (extent c.now) (heap_of (extent c.now) words.now)
        (heap_of (extent c.now) words.now
        (PayloadOf (register_block c.now.width 0 s) (register_slot c.now.width s))) (i ∷ []) ≡ Ok v) }
{
    match c.width {
        Width::Four => near_one(&known(Width::Four, c), words, s, i),
        Width::Eight => near_one(&known(Width::Eight, c), words, s, i),
    }
}

/// The same of field `j` of the object in that field.
#[inline(always)]
pub fn near_value_of_two(c: &Config, words: &Words, s: u8, i: u64, j: u64) -> Option<Value>
    requires bounds { IsInBounds c.now }
    requires there { length words.now ≡ words_count (extent c.now) }
    requires single { c.now.threads ≡ 1 }
    requires register { s < REGISTERS }
    ensures { IfSome result (λ v. path_found (extent c.now) (heap_of (extent c.now) words.now)
        (heap_of (extent c.now) words.now
        (PayloadOf (register_block c.now.width 0 s) (register_slot c.now.width s))) (i ∷ j ∷ [])
        ≡ Ok v) }
{
    match c.width {
        Width::Four => near_two(&known(Width::Four, c), words, s, i, j),
        Width::Eight => near_two(&known(Width::Eight, c), words, s, i, j),
    }
}
