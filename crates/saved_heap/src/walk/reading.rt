//! A heap that is read in pieces, while it goes on.

ghost use Rattle.std.specs.Prelude.{◌≡◌, ◌≤◌, ◌+◌, ◌⊎◌, true, false, length, map, IfOk, IfErr, OnOk, OnErr};
ghost use Rattle.saved_heap.specs.heap_pictures.Pictures.{content_of, is_sound, view};
ghost use Rattle.control_heap.specs.Controls.{Control};
ghost use Rattle.control_heap.specs.Images.{image_of};
ghost use Rattle.saved_heap.specs.SearchOrder.{IsInOrder};
ghost use Rattle.saved_heap.specs.Renewals.{IsPictureOf};
ghost use Rattle.saved_heap.specs.Walks.{State, Walks, is_whole, state_of};

use super::{Found, item_of, registers_of};
use crate::heap_pictures::{Item, Picture};
use block_store::{OutOfMemory, Value};
use control_heap::{ControlHeap, Snapshot};
use std::alloc::Global;
use std::marker::Model;

/// A heap that is read, some objects at a time, as it was when the reading began.
#[derive(Drop)]
pub struct Reading {
    from: Snapshot,
    // None once memory has run out.
    registers: Vec<Value>,
    found: Found,
    objects: Vec<Item>,
}

impl Model for Reading {
    ghost use Rattle.std.specs.Prelude.{length, map};
    ghost use Rattle.saved_heap.specs.heap_pictures.Pictures.{view as object_of};
    ghost use Rattle.saved_heap.specs.Walks.{IsReading, Progress, is_whole, state_of};

    ghost Value = { Progress };

    ghost view = { λ s. record {
      from = s.from;
      read = length s.objects.items;
      is_done = is_whole (length s.registers.items) (length s.objects.items)
          (length s.found.objects.items);
    } };

    ghost invariant = { λ s. IsReading s.from s.registers.items (state_of s.found)
        (map object_of s.objects.items) };
}

// Whether all is read, where there are so many registers, and so many objects were read and found.
fn is_whole(registers: usize, read: usize, found: usize) -> bool
    ensures { result ≡ is_whole registers read found }
{
    registers > 0 && read == found
}

// Reads at most `most` more of the objects that were found.
fn read_more(
    alloc: Global,
    from: &Snapshot,
    found: &mut Found,
    objects: &mut Vec<Item>,
    most: usize,
) -> Result<(), OutOfMemory>
    ensures walked { OnOk result ((first : State)
        → Walks from.now first (state_of found.old) (map view objects.old.items)
        → Walks from.now first (state_of found.new) (map view objects.new.items)) }
    ensures more { length objects.old.items ≤ length objects.new.items }
    ensures few { length objects.new.items ≤ length objects.old.items + most }
    ensures all { OnOk result ((length objects.new.items ≡ length objects.old.items + most)
        ⊎ (length found.new.objects.items ≤ length objects.new.items)) }
{
    for _more in 0..most {
        let next = objects.len();
        if next >= found.objects.len() {
            return Ok(());
        }
        let seen = found.objects[next];
        objects.push(item_of(alloc, from, found, seen)?)?;
    }
    Ok(())
}

impl Reading {
    /// Begins to read what the registers of a heap reach. It copies the heap's words, and reads the
    /// registers, so its time depends on the configuration alone.
    ///
    /// # Errors
    ///
    /// `OutOfMemory` where there is no memory for the words and a table of the blocks.
    pub fn of(alloc: Global, heap: &ControlHeap) -> Result<Reading, OutOfMemory>
        ensures from { IfOk result (λ n. n.from ≡ image_of heap.now) }
        ensures none { IfOk result (λ n. n.read ≡ 0) }
    {
        let from = heap.snapshot(alloc)?;
        let (blocks, live) = (from.config().blocks, from.config().live);
        let mut found = Found::none(alloc, live as usize, blocks)?;
        let seen = registers_of(alloc, &from)?;
        let registers = found.values(alloc, &seen)?;
        let objects = Vec::with_capacity(alloc, live as usize)?;
        Ok(Reading {
            from,
            registers,
            found,
            objects,
        })
    }

    /// How many objects are read.
    pub fn read(&self) -> usize
        ensures { result ≡ self.now.read }
    {
        self.objects.len()
    }

    /// Whether all objects are read.
    pub fn is_done(&self) -> bool
        ensures { result ≡ self.now.is_done }
    {
        is_whole(
            self.registers.len(),
            self.objects.len(),
            self.found.objects.len(),
        )
    }

    /// Reads at most `most` objects more, and returns whether all are read: as many as that where
    /// objects are left. All fields of an object are read at once, at most as many as `object`
    /// blocks of the configuration hold, or the elements of the shared array.
    ///
    /// # Errors
    ///
    /// `OutOfMemory` where there is no memory for them. The reading has then failed, and each later
    /// step fails too.
    pub fn step(&mut self, alloc: Global, most: usize) -> Result<bool, OutOfMemory>
        ensures from { self.new.from ≡ self.old.from }
        ensures more { self.old.read ≤ self.new.read }
        ensures few { self.new.read ≤ self.old.read + most }
        ensures done { IfOk result (λ done. done ≡ self.new.is_done) }
        ensures all { OnOk result (self.new.is_done ≡ false
            → self.new.read ≡ self.old.read + most) }
        ensures failed { OnErr result (self.new.is_done ≡ false) }
    {
        if self.registers.is_empty() {
            return Err(OutOfMemory);
        }
        let end = read_more(alloc, &self.from, &mut self.found, &mut self.objects, most);
        if end.is_err() {
            self.registers.clear();
            return Err(OutOfMemory);
        }
        Ok(self.is_done())
    }

    /// The picture of the heap as it was when the reading began (`picture`), in the order in which a
    /// search by levels finds its objects (`order`).
    ///
    /// # Errors
    ///
    /// The reading, unchanged, where objects are left to read, or where it has failed.
    pub fn finish(self) -> Result<Picture, Reading>
        ensures picture { IfOk result (λ p. (h : Control) → image_of h ≡ self.from
            → IsPictureOf h (content_of p)) }
        ensures order { IfOk result (λ p. IsInOrder (content_of p)) }
        ensures sound { IfOk result (λ p. is_sound (content_of p) ≡ true) }
        ensures read { IfOk result (λ p. length p.objects.items ≡ self.read) }
        ensures done { OnOk result (self.is_done ≡ true) }
        ensures early { OnErr result (self.is_done ≡ false) }
        ensures same { IfErr result (λ n. n ≡ self) }
    {
        if !self.is_done() {
            return Err(self);
        }
        Ok(Picture {
            registers: self.registers,
            objects: self.objects,
        })
    }
}
