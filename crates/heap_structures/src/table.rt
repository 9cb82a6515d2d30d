//! An array of pairs with rising keys: each key, and its value after it.

ghost use Rattle.std.specs.Prelude.{◌≡◌, ◌≢◌, ◌+◌, ◌-◌, ◌*◌, ◌<◌, ◌≤◌, ◌^◌, ◌∷◌, ℕ, List, [], Some, length, IfOk, IsOkAnd};
ghost use Rattle.block_store.specs.declared.Value.{Value};
ghost use Rattle.block_store.specs.declared.Value.TheVariants.{Int};
ghost use Rattle.never_heap.specs.Graphs.{Graph};
ghost use Rattle.heap_structures.specs.Cells.{held};
ghost use Rattle.heap_structures.specs.Heaps.{Does, Ready, Sight};
ghost use Rattle.heap_structures.specs.Pairs.{Pair, below, pair_at, value_of, with_value, without};
ghost use Rattle.heap_structures.specs.Tables.{Finds, IsLowered, IsRaised, IsRowOf, IsStocked, IsTable, Works, digits};
ghost use Rattle.heap_structures.specs.declared.table.Place.TheVariants.{Row, Before};

use crate::Cells;
use block_store::Value;
use control_heap::{ControlHeap, Fault};

/// Where a key is: in a row, or, if in none, before the row of the next larger key.
#[derive(Clone, Copy, Debug, PartialEq, Eq)]
pub(crate) enum Place {
    Row(u32),
    Before(u32),
}

/// How many binary digits a number has.
pub(crate) fn binary_digits(number: u32) -> u64
    ensures counted { result ≡ digits number }
    ensures few { result ≤ 32 }
{
    u64::from(32 - number.leading_zeros())
}

/// The key that a value is.
fn key_in(value: Value) -> Result<u32, Fault>
    ensures { (n : ℕ) → value ≡ Int n → n < 2 ^ 32 → IsOkAnd result (λ k. k ≡ n) }
{
    let Value::Int(number) = value else {
        return Err(Fault::Kind);
    };
    let Ok(key) = u32::try_from(number) else {
        return Err(Fault::Kind);
    };
    Ok(key)
}

impl Cells {
    /// The key of a row.
    pub(crate) fn key_at(&self, heap: &mut ControlHeap, row: u32) -> Result<u32, Fault>
        ensures { (s : Sight) (g : Graph) (count : ℕ) (xs : List Pair)
            → IsStocked s 1 heap.old self.now g count xs → row < count
            → IsOkAnd result (λ k. (k ≡ (pair_at xs row).0)
            × Works s 1 heap.old heap.new self.now g (λ z. IsTable z self.now count xs)) }
    {
        let place = 2 * u64::from(row);
        let value = self.get(heap, place, self.spare)?;
        key_in(value)
    }

    /// How many of `count` rows have a smaller key.
    fn rank(&self, heap: &mut ControlHeap, count: u32, key: u32) -> Result<u32, Fault>
        ensures { (s : Sight) (g : Graph) (xs : List Pair)
            → IsStocked s (digits count) heap.old self.now g count xs
            → IsOkAnd result (λ r. (r ≡ length (below key xs))
            × Works s (digits count) heap.old heap.new self.now g
            (λ z. IsTable z self.now count xs)) }
    {
        let mut low = 0;
        let mut high = count;
        while low < high {
            let middle = low + (high - low) / 2;
            let here = self.key_at(heap, middle)?;
            if here < key {
                low = middle + 1;
            } else {
                high = middle;
            }
        }
        Ok(low)
    }

    /// Finds a key in `count` rows.
    pub(crate) fn find(&self, heap: &mut ControlHeap, count: u32, key: u32) -> Result<Place, Fault>
        ensures range { IfOk result (IsRowOf count) }
        ensures finds { (s : Sight) (g : Graph) (xs : List Pair)
            → IsStocked s (digits count + 1) heap.old self.now g count xs
            → IsOkAnd result (λ p. Finds key xs p
            × Works s (digits count + 1) heap.old heap.new self.now g
            (λ z. IsTable z self.now count xs)) }
    {
        let row = self.rank(heap, count, key)?;
        if row >= count {
            return Ok(Place::Before(row));
        }
        let here = self.key_at(heap, row)?;
        if here == key {
            Ok(Place::Row(row))
        } else {
            Ok(Place::Before(row))
        }
    }

    /// Moves the values in the places from `first` to before `end` up by two places.
    fn move_up(&self, heap: &mut ControlHeap, first: u64, end: u64) -> Result<(), Fault>
        requires { end < 2 ^ 62 }
        ensures { (s : Sight) (g : Graph) (vs : List Value)
            → Ready s (2 * (end - first)) heap.old self.now g vs → end + 2 ≤ length vs
            → first ≤ end
            → IsOkAnd result (λ _. Works s (2 * (end - first)) heap.old heap.new self.now g
            (λ z. IsRaised z self.now first end vs)) }
    {
        for place in (first..end).rev() {
            self.copy(heap, place, place + 2)?;
        }
        Ok(())
    }

    /// Copies to the places from `first` to before `end` the values of two places further on.
    fn move_down(&self, heap: &mut ControlHeap, first: u64, end: u64) -> Result<(), Fault>
        requires { end < 2 ^ 62 }
        ensures { (s : Sight) (g : Graph) (vs : List Value)
            → Ready s (2 * (end - first)) heap.old self.now g vs → end + 2 ≤ length vs
            → first ≤ end
            → IsOkAnd result (λ _. Works s (2 * (end - first)) heap.old heap.new self.now g
            (λ z. IsLowered z self.now first end vs)) }
    {
        for place in first..end {
            self.copy(heap, place + 2, place)?;
        }
        Ok(())
    }

    /// Adds a pair before a row of `count`: the value is that of register `from`.
    pub(crate) fn add_row(
        &self,
        heap: &mut ControlHeap,
        count: u32,
        row: u32,
        key: u32,
        from: u8,
    ) -> Result<(), Fault>
        ensures { (s : Sight) (g : Graph) (xs : List Pair)
            → IsStocked s (4 * count + 3) heap.old self.now g count xs
            → Finds key xs (Before row) → 2 * count + 2 ≤ self.now.size
            → from < 16 → from ≢ self.now.spare
            → IsOkAnd result (λ _. Works s (4 * count + 3) heap.old heap.new self.now g
            (λ z. IsTable z self.now (count + 1) (with_value key (held g from) xs))) }
    {
        let place = 2 * u64::from(row);
        let end = 2 * u64::from(count);
        self.move_up(heap, place, end)?;
        self.write(heap, place, u64::from(key))?;
        self.put(heap, place + 1, from)
    }

    /// Loads the value of a row into the spare register and returns it, and lets it be the value of
    /// register `from`.
    pub(crate) fn replace(&self, heap: &mut ControlHeap, row: u32, from: u8) -> Result<Value, Fault>
        ensures { (s : Sight) (g : Graph) (count : ℕ) (xs : List Pair) (key : ℕ)
            → IsStocked s 2 heap.old self.now g count xs → key < 2 ^ 32
            → Finds key xs (Row row) → from < 16 → from ≢ self.now.spare
            → IsOkAnd result (λ old. (value_of key xs ≡ Some old)
            × Works s 2 heap.old heap.new self.now g
            (λ z. IsTable z self.now count (with_value key (held g from) xs))) }
    {
        let place = 2 * u64::from(row) + 1;
        let old = self.get(heap, place, self.spare)?;
        self.put(heap, place, from)?;
        Ok(old)
    }

    /// Loads the value of a row into register `d` and returns it.
    pub(crate) fn load(&self, heap: &mut ControlHeap, row: u32, d: u8) -> Result<Value, Fault>
        ensures { (s : Sight) (g : Graph) (count : ℕ) (xs : List Pair)
            → IsStocked s 1 heap.old self.now g count xs → row < count
            → d < 16 → d ≢ self.now.base
            → IsOkAnd result (λ v. (v ≡ (pair_at xs row).1)
            × Does s 1 heap.old heap.new (d ∷ []) self.now.array g
            (λ z. IsTable z self.now count xs × (held z d ≡ v))) }
    {
        let place = 2 * u64::from(row) + 1;
        self.get(heap, place, d)
    }

    /// Removes a row of `count`.
    pub(crate) fn remove_row(
        &self,
        heap: &mut ControlHeap,
        count: u32,
        row: u32,
    ) -> Result<(), Fault>
        requires { 1 ≤ count }
        ensures { (s : Sight) (g : Graph) (xs : List Pair) (key : ℕ)
            → IsStocked s (4 * count) heap.old self.now g count xs → Finds key xs (Row row)
            → IsOkAnd result (λ _. Works s (4 * count) heap.old heap.new self.now g
            (λ z. IsTable z self.now (count - 1) (without key xs))) }
    {
        let place = 2 * u64::from(row);
        let end = 2 * u64::from(count - 1);
        self.move_down(heap, place, end)?;
        self.clear(heap, end)?;
        self.clear(heap, end + 1)
    }
}
