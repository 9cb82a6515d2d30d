//! The picture of a heap: a walk over all objects that its registers reach.

ghost use Rattle.std.specs.Prelude.{◌≡◌, ◌^◌, ◌<◌, ◌++◌, ◌∷◌, [], ℕ, suc, true, length, slice_index, slice_set, IfOk, OnOk};
ghost use Rattle.saved_heap.specs.heap_pictures.Pictures.{content_of, is_sound, kind_of, view};
ghost use Rattle.control_heap.specs.Seen.{kind_seen};
ghost use Rattle.saved_heap.specs.SearchOrder.{IsInOrder};
ghost use Rattle.saved_heap.specs.Renewals.{IsPictureOf};
ghost use Rattle.saved_heap.specs.Walks.{AreRegisters, HasNoted, IsEmpty, Reads, ReadsItem, ReadsOne, state_of};

mod reading;

use crate::heap_pictures::{Item, Kind, Picture};
use block_store::{Name, OutOfMemory, REGISTERS, Shape, Value};
use control_heap::{ControlHeap, Seen, Snapshot};
pub use reading::Reading;
use std::alloc::Global;

// The references that a walk has found, in their order; and of each block the number of its
// object, from 1, or 0 where it has found none.
#[derive(Drop)]
struct Found {
    objects: Vec<Seen>,
    numbers: Vec<u64>,
}

// Makes a table of numbers long enough for a block.
#[tactic(auto, using(crate::proofs::Walking::push_zero))]
fn grow(numbers: &mut Vec<u64>, block: usize) -> Result<(), OutOfMemory>
    requires { block < 2 ^ 32 }
    ensures long { OnOk result (block < length numbers.new.items) }
    ensures same { (x : ℕ) → slice_index numbers.new.items x ≡ slice_index numbers.old.items x }
{
    for _number in numbers.len()..block + 1 {
        numbers.push(0)?;
    }
    Ok(())
}

impl Found {
    // Nothing yet, with room for so many objects in blocks up to the last.
    fn none(alloc: Global, objects: usize, last: u32) -> Result<Found, OutOfMemory>
        ensures { IfOk result (λ f. IsEmpty (state_of f)) }
    {
        let mut numbers = Vec::new(alloc);
        grow(&mut numbers, last as usize)?;
        Ok(Found {
            objects: Vec::with_capacity(alloc, objects)?,
            numbers,
        })
    }

    // Gives the object of a reference the next number.
    fn note(&mut self, seen: Seen) -> Result<(), OutOfMemory>
        requires { seen.block < length self.old.numbers.items }
        ensures objects { OnOk result
            (self.new.objects.items ≡ self.old.objects.items ++ seen ∷ []) }
        ensures numbers { OnOk result (self.new.numbers.items
            ≡ slice_set self.old.numbers.items seen.block (suc (length self.old.objects.items))) }
    {
        self.objects.push(seen)?;
        self.numbers[seen.block as usize] = self.objects.len() as u64;
        Ok(())
    }

    // The number of the object of a reference, which is new where the walk had not found it.
    fn number(&mut self, seen: Seen) -> Result<u64, OutOfMemory>
        ensures { IfOk result (HasNoted (state_of self.old) (state_of self.new) seen) }
    {
        let block = seen.block as usize;
        grow(&mut self.numbers, block)?;
        let number = self.numbers[block];
        if number > 0 {
            return Ok(number);
        }
        self.note(seen)?;
        Ok(self.objects.len() as u64)
    }

    // A value, where a reference has the number of its object.
    fn value(&mut self, seen: Seen) -> Result<Value, OutOfMemory>
        ensures { IfOk result (ReadsOne (state_of self.old) (state_of self.new) seen) }
    {
        match seen.value {
            Value::Nil => Ok(Value::Nil),
            Value::Int(number) => Ok(Value::Int(number)),
            Value::Ref(_) => {
                let serial = self.number(seen)?;
                Ok(Value::Ref(Name { thread: 0, serial }))
            }
        }
    }

    fn values(&mut self, alloc: Global, seen: &[Seen]) -> Result<Vec<Value>, OutOfMemory>
        ensures { IfOk result
            (λ v. Reads (state_of self.old) (state_of self.new) seen.now v.items) }
    {
        let mut values = Vec::new(alloc);
        for one in seen {
            values.push(self.value(*one)?)?;
        }
        Ok(values)
    }
}

fn kind_of(shape: Shape) -> Kind
    ensures { kind_of result ≡ kind_seen shape }
{
    match shape {
        Shape::List(_) => Kind::Record,
        Shape::Tree(_) => Kind::Array,
    }
}

// What the registers hold.
fn registers_of(alloc: Global, from: &Snapshot) -> Result<Vec<Seen>, OutOfMemory>
    ensures { IfOk result (λ v. AreRegisters from.now v.items) }
{
    let mut registers = Vec::new(alloc);
    for r in 0..REGISTERS as u8 {
        registers.push(from.seen(r))?;
    }
    Ok(registers)
}

// The object of a reference that was found.
fn item_of(
    alloc: Global,
    from: &Snapshot,
    found: &mut Found,
    seen: Seen,
) -> Result<Item, OutOfMemory>
    ensures { IfOk result
        (λ i. ReadsItem from.now (state_of found.old) (state_of found.new) seen (view i)) }
{
    let kind = kind_of(from.shape_seen(seen));
    let seen_fields = from.fields_seen(alloc, seen)?;
    let fields = found.values(alloc, &seen_fields)?;
    Ok(Item { kind, fields })
}

/// The objects that the registers of a heap reach, in the order in which a search by levels finds
/// them: the picture of the heap, up to names. No command is executed and nothing changes; the time
/// grows with the objects. `Reading` does the same in pieces.
///
/// # Errors
///
/// `OutOfMemory` where there is no memory for them, or for a copy of the heap's words.
pub fn picture_of(alloc: Global, heap: &ControlHeap) -> Result<Picture, OutOfMemory>
    ensures picture { IfOk result (λ p. IsPictureOf heap.now (content_of p)) }
    ensures order { IfOk result (λ p. IsInOrder (content_of p)) }
    ensures sound { IfOk result (λ p. is_sound (content_of p) ≡ true) }
{
    let mut reading = Reading::of(alloc, heap)?;
    let _done = reading.step(alloc, usize::MAX)?;
    match reading.finish() {
        Ok(picture) => Ok(picture),
        Err(_) => Err(OutOfMemory),
    }
}
