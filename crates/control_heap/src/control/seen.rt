//! Copies of a heap's words, and what registers and fields hold there, with the blocks where objects
//! lie.

ghost use Rattle.std.specs.Prelude.{◌≡◌, ◌<◌, ◌≤◌, IfOk, length};
ghost use Rattle.block_store.specs.Configs.{IsInBounds};
ghost use Rattle.block_store.specs.Heaps.{heap_of};
ghost use Rattle.block_store.specs.Places.{ShapeOf, extent, words_count};
ghost use Rattle.block_store.specs.declared.Name.{Name};
ghost use Rattle.block_store.specs.declared.Shape.{Shape};
ghost use Rattle.block_store.specs.declared.TheConstants.{REGISTERS};
ghost use Rattle.block_store.specs.declared.Value.TheVariants.{Ref};
ghost use Rattle.barrier_steps.specs.Rows.{shape_in};
ghost use Rattle.barrier_steps.specs.Walks.{shape_length};
ghost use Rattle.never_heap.specs.Graphs.{object_of, register_of};
ghost use Rattle.never_heap.specs.Histories.{replay};
ghost use Rattle.heap_system.specs.Machines.{Run};
ghost use Rattle.control_heap.specs.Images.{HasRun, image_of};
ghost use Rattle.control_heap.specs.Seen.{HasSeen, IsSeen, IsSeenAt, fields_seen, kind_seen, word_seen};

use super::ControlHeap;
use crate::readings::{block_in, field_word, length_of, register_word, shape_at, value_of};
use block_store::{Config, OutOfMemory, Shape, Value};
use heap_machine::Words;
use std::alloc::Global;
use std::marker::Model;

/// What a register or a field holds and, where it is a reference, the first block of the object.
/// A later command of the heap may free that block.
#[derive(Clone, Copy, Debug, PartialEq, Eq)]
pub struct Seen {
    /// Nil, a number, or a name.
    pub value: Value,
    /// The block of a reference, from 1; 0 of any other value.
    pub block: u32,
}

// A word as it is seen.
fn seen_at(c: &Config, words: &Words, word: u64) -> Seen
    requires bounds { IsInBounds c.now }
    requires there { length words.now ≡ words_count (extent c.now) }
    ensures { result ≡ word_seen (heap_of (extent c.now) words.now) word }
{
    Seen {
        value: value_of(c, words, word),
        block: block_in(word),
    }
}

// All fields of the object whose first block is `x`.
fn all_seen(alloc: Global, c: &Config, words: &Words, x: u32) -> Result<Vec<Seen>, OutOfMemory>
    requires bounds { IsInBounds c.now }
    requires there { length words.now ≡ words_count (extent c.now) }
    ensures read { IfOk result (λ v. v.items ≡ fields_seen (extent c.now)
        (heap_of (extent c.now) words.now)
        (shape_in (heap_of (extent c.now) words.now (ShapeOf x))) x
        (shape_length (shape_in (heap_of (extent c.now) words.now (ShapeOf x))))) }
    ensures few { IfOk result (λ v. length v.items ≤ 65535) }
{
    let shape = shape_at(c, words, x);
    let mut fields = Vec::new(alloc);
    for i in 0..length_of(shape) {
        fields.push(seen_at(c, words, field_word(c, words, x, shape, i)))?;
    }
    Ok(fields)
}

// The same words once more.
fn copy_of(alloc: Global, words: &Words) -> Result<Words, OutOfMemory>
    ensures { IfOk result (λ w. w ≡ words.now) }
{
    let mut copy = Words::zeroed(alloc, words.len())?;
    for place in 0..words.len() {
        copy.put(place, words.word(place));
    }
    Ok(copy)
}

/// The words of a heap as they were when it was taken. It shows what the heap showed then, and the
/// heap may go on.
#[derive(Drop)]
pub struct Snapshot {
    config: Config,
    words: Words,
}

impl Model for Snapshot {
    ghost use Rattle.control_heap.specs.Images.{Image, IsImage};

    ghost Value = { Image };

    ghost view = { λ s. record { config = s.config; words = s.words } };

    ghost invariant = { λ s. IsImage (record { config = s.config; words = s.words }) };
}

impl ControlHeap {
    /// A copy of the heap's words. Its time depends on the number of words, and so on the
    /// configuration alone: on the blocks and their width, and not on the objects.
    ///
    /// # Errors
    ///
    /// `OutOfMemory` where there is no memory for the copy.
    pub fn snapshot(&self, alloc: Global) -> Result<Snapshot, OutOfMemory>
        ensures image { IfOk result (λ s. s ≡ image_of self.now) }
        ensures run { IfOk result (λ s. (r : Run) × HasRun s r) }
    {
        let words = copy_of(alloc, &self.memory)?;
        Ok(Snapshot {
            config: self.config,
            words,
        })
    }
}

impl Snapshot {
    /// The configuration of the heap.
    pub fn config(&self) -> &Config
        ensures { result.now ≡ self.now.config }
    {
        &self.config
    }

    /// What a register held, 0 to 15, as `register` returned it then, and the block where its
    /// object lies.
    pub fn seen(&self, s: u8) -> Seen
        requires { s < REGISTERS }
        ensures value { (r : Run) → HasRun self.now r
            → result.value ≡ register_of (replay self.now.config r.order) 0 s }
        ensures block { (r : Run) → HasRun self.now r → IsSeen r result }
    {
        seen_at(
            &self.config,
            &self.words,
            register_word(&self.config, &self.words, s),
        )
    }

    /// Whether the object that a reference was seen to have is an array, and no record.
    pub fn shape_seen(&self, reference: Seen) -> Shape
        ensures { (r : Run) (a : Name) → HasRun self.now r → IsSeenAt r (Ref a) reference.block
            → kind_seen result ≡ (object_of (replay self.now.config r.order) a).kind }
    {
        shape_at(&self.config, &self.words, reference.block)
    }

    /// The fields of the object that a reference was seen to have, with the blocks of their
    /// objects. The time grows with the object.
    ///
    /// # Errors
    ///
    /// `OutOfMemory` where there is no memory for the fields.
    pub fn fields_seen(&self, alloc: Global, reference: Seen) -> Result<Vec<Seen>, OutOfMemory>
        ensures fields { IfOk result (λ v. (r : Run) (a : Name) → HasRun self.now r
            → IsSeenAt r (Ref a) reference.block
            → HasSeen r (object_of (replay self.now.config r.order) a) v.items) }
        ensures few { IfOk result (λ v. length v.items ≤ 65535) }
    {
        all_seen(alloc, &self.config, &self.words, reference.block)
    }
}
