//! What is read of objects from the words of a heap, without a command.

ghost use Rattle.std.specs.Prelude.{ℕ, ◌≡◌, ◌<◌, ◌≤◌, ◌/◌, ◌%◌, ◌^◌, IfOk, length};
ghost use Rattle.block_store.specs.Configs.{IsInBounds};
ghost use Rattle.block_store.specs.Heaps.{heap_of};
ghost use Rattle.block_store.specs.Places.{OwnerOf, PayloadOf, ShapeOf, extent, words_count};
ghost use Rattle.block_store.specs.Registers.{register_block, register_slot};
ghost use Rattle.block_store.specs.declared.TheConstants.{REGISTERS};
ghost use Rattle.block_store.specs.Shapes.{IsShape};
ghost use Rattle.block_store.specs.Widths.{payloads};
ghost use Rattle.block_store.specs.declared.Shape.TheVariants as shapes;
ghost use Rattle.barrier_steps.specs.Rows.{object_in, shape_in};
ghost use Rattle.barrier_steps.specs.Walks.{shape_length};
ghost use Rattle.control_heap.specs.Readings.{block_read, field_read, fields_read, value_read};

use array_trees::depth_of;
use block_store::{
    Config, Name, OutOfMemory, Payload, Places, Shape, Value, Width, read_payload, read_shape,
    read_wide,
};
use heap_machine::Words;
use object_lists::walk_of;
use std::alloc::Global;

/// Payload `j` of block `x`, or 0 where the heap has none.
#[inline(always)]
pub fn payload_at(c: &Config, words: &Words, x: u32, j: u32) -> u64
    requires bounds { IsInBounds c.now }
    requires there { length words.now ≡ words_count (extent c.now) }
    ensures { result ≡ heap_of (extent c.now) words.now (PayloadOf x j) }
{
    if x == 0 || x > c.blocks || j >= c.width.payloads() {
        return 0;
    }
    words.word(Places::new(c).payload(x, j))
}

// The owner word of block `x`, or 0 where the heap has none.
#[inline(always)]
fn owner_at(c: &Config, words: &Words, x: u32) -> u64
    requires bounds { IsInBounds c.now }
    requires there { length words.now ≡ words_count (extent c.now) }
    ensures { result ≡ heap_of (extent c.now) words.now (OwnerOf x) }
{
    if x == 0 || x > c.blocks {
        return 0;
    }
    words.word(Places::new(c).owner(x))
}

// The shape word of block `x`, or 0 where the heap has none.
#[inline(always)]
fn shape_word_at(c: &Config, words: &Words, x: u32) -> u64
    requires bounds { IsInBounds c.now }
    requires there { length words.now ≡ words_count (extent c.now) }
    ensures { result ≡ heap_of (extent c.now) words.now (ShapeOf x) }
{
    if x == 0 || x > c.blocks {
        return 0;
    }
    words.word(Places::new(c).shape(x))
}

/// What the object of block `x` is, a record or an array, and its length.
#[inline(always)]
pub fn shape_at(c: &Config, words: &Words, x: u32) -> Shape
    requires bounds { IsInBounds c.now }
    requires there { length words.now ≡ words_count (extent c.now) }
    ensures is { result ≡ shape_in (heap_of (extent c.now) words.now (ShapeOf x)) }
    ensures fits { IsShape result }
{
    match read_shape(shape_word_at(c, words, x)) {
        Some(shape) => shape,
        None => Shape::List(0),
    }
}

// The name in an owner word, as a reference; nil where there is none.
#[inline(always)]
fn named(owner: u64) -> Value
    ensures { result ≡ object_in owner }
{
    match read_wide(owner) {
        Some(owner) => Value::Ref(Name {
            thread: owner.thread,
            serial: owner.serial,
        }),
        None => Value::Nil,
    }
}

/// The name of the object of block `x`, as a reference; nil where it has none.
#[inline(always)]
pub fn name_at(c: &Config, words: &Words, x: u32) -> Value
    requires bounds { IsInBounds c.now }
    requires there { length words.now ≡ words_count (extent c.now) }
    ensures { result ≡ object_in (heap_of (extent c.now) words.now (OwnerOf x)) }
{
    named(owner_at(c, words, x))
}

/// The value of a payload word: nil, a number, or the name that the owner word of its block has.
#[inline(always)]
pub fn value_of(c: &Config, words: &Words, word: u64) -> Value
    requires bounds { IsInBounds c.now }
    requires there { length words.now ≡ words_count (extent c.now) }
    ensures { result ≡ value_read (heap_of (extent c.now) words.now) word }
{
    match read_payload(word) {
        Some(Payload::Int(number)) => Value::Int(number),
        Some(Payload::Block(block)) => name_at(c, words, block),
        Some(Payload::Nil) | None => Value::Nil,
    }
}

/// The word of register `r` of the first thread.
#[inline(always)]
pub fn register_word(c: &Config, words: &Words, r: u8) -> u64
    requires bounds { IsInBounds c.now }
    requires there { length words.now ≡ words_count (extent c.now) }
    requires register { r < REGISTERS }
    ensures { result ≡ heap_of (extent c.now) words.now
        (PayloadOf (register_block c.now.width 0 r) (register_slot c.now.width r)) }
{
    let (block, slot) = c.width.register(0, u32::from(r));
    payload_at(c, words, block, slot)
}

/// The block to which a payload word refers, or 0.
#[inline(always)]
pub fn block_in(word: u64) -> u32
    ensures { result ≡ block_read word }
{
    match read_payload(word) {
        Some(Payload::Block(block)) => block,
        Some(Payload::Nil | Payload::Int(_)) | None => 0,
    }
}

/// How many fields or elements an object of this shape has.
#[inline(always)]
pub fn length_of(shape: Shape) -> u32
    ensures { result ≡ shape_length shape }
{
    match shape {
        Shape::List(fields) => fields,
        Shape::Tree(elements) => elements,
    }
}

// The payload that leads on to element `i` from a block so many levels above the leaves. The
// widths are powers of two.
#[inline(always)]
#[tactic(auto, using(crate::proofs::ElementWords::four_turn, crate::proofs::ElementWords::eight_turn))]
fn turn(width: Width, i: u32, height: u32) -> u32
    requires { height ≤ 7 }
    ensures { result ≡ i / payloads width ^ height % payloads width }
{
    match width {
        Width::Four => (i >> (2 * height)) % 4,
        Width::Eight => (i >> (3 * height)) % 8,
    }
}

// The word of field `i` of a record, of whatever length.
#[inline(always)]
fn record_word(c: &Config, words: &Words, x: u32, i: u32) -> u64
    requires bounds { IsInBounds c.now }
    requires there { length words.now ≡ words_count (extent c.now) }
    ensures { (f : ℕ) → result
        ≡ field_read (extent c.now) (heap_of (extent c.now) words.now) (shapes.List f) i x }
{
    let (links, slot) = walk_of(c.width, i);
    let mut block = x;
    for _link in 0..links {
        block = block_in(payload_at(c, words, block, 0));
    }
    payload_at(c, words, block, slot)
}

// The word of element `i` of an array.
#[inline(always)]
fn element_word(c: &Config, words: &Words, x: u32, elements: u32, i: u32) -> u64
    requires bounds { IsInBounds c.now }
    requires there { length words.now ≡ words_count (extent c.now) }
    requires few { elements ≤ 65535 }
    ensures { result
        ≡ field_read (extent c.now) (heap_of (extent c.now) words.now) (shapes.Tree elements) i x }
{
    let depth = depth_of(c.width, elements);
    let mut block = x;
    for level in 0..depth {
        block = block_in(payload_at(c, words, block, turn(c.width, i, depth - level)));
    }
    payload_at(c, words, block, turn(c.width, i, 0))
}

/// The word of field `i` of the object whose first block is `x`, which has this shape.
#[inline(always)]
pub fn field_word(c: &Config, words: &Words, x: u32, shape: Shape, i: u32) -> u64
    requires bounds { IsInBounds c.now }
    requires there { length words.now ≡ words_count (extent c.now) }
    requires shape { IsShape shape }
    requires index { i < shape_length shape }
    ensures { result ≡ field_read (extent c.now) (heap_of (extent c.now) words.now) shape i x }
{
    match shape {
        Shape::List(_) => record_word(c, words, x, i),
        Shape::Tree(elements) => element_word(c, words, x, elements, i),
    }
}

/// The values of all fields of the object whose first block is `x`.
///
/// # Errors
///
/// `OutOfMemory` where there is no memory for them.
pub fn fields_at(
    alloc: Global,
    c: &Config,
    words: &Words,
    x: u32,
) -> Result<Vec<Value>, OutOfMemory>
    requires bounds { IsInBounds c.now }
    requires there { length words.now ≡ words_count (extent c.now) }
    ensures { IfOk result (λ v. v.items ≡ fields_read (extent c.now)
        (heap_of (extent c.now) words.now)
        (shape_in (heap_of (extent c.now) words.now (ShapeOf x))) x
        (shape_length (shape_in (heap_of (extent c.now) words.now (ShapeOf x))))) }
{
    let shape = shape_at(c, words, x);
    let mut fields = Vec::new(alloc);
    for i in 0..length_of(shape) {
        fields.push(value_of(c, words, field_word(c, words, x, shape, i)))?;
    }
    Ok(fields)
}
