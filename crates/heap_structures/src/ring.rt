//! The last values of a sequence, in one array.

ghost use Rattle.std.specs.Prelude.{◌≡◌, ◌≤◌, ◌++◌, ◌∷◌, ℕ, List, [], drop, length, IfOk, MatchResult};
ghost use Rattle.block_store.specs.declared.Value.{Value};
ghost use Rattle.never_heap.specs.Graphs.{Graph};
ghost use Rattle.heap_structures.specs.Cells.{HasPlace, held};
ghost use Rattle.heap_structures.specs.Circles.{last_of};
ghost use Rattle.heap_structures.specs.Heaps.{DoesOrStops, Has, Sight};
ghost use Rattle.heap_structures.specs.Opened.{MayOpen, NotOpened, Opens};
ghost use Rattle.heap_structures.specs.Rings.{Gives, IsNoTarget, IsRing, ring_cells};
ghost use Rattle.heap_structures.specs.Renewed.{ShowsAgain, renamed_values};

use crate::Cells;
use crate::cells::made;
use crate::places::{REGISTERS, admit, around, next};
use block_store::Value;
use control_heap::{ControlHeap, Fault};

/// The last `size` values of a sequence.
#[derive(Clone, Copy, Debug, PartialEq, Eq)]
pub struct Ring {
    pub(crate) cells: Cells,
    // The place of the oldest value, and how many there are.
    first: u32,
    count: u32,
}

impl Ring {
    /// Makes an empty ring of at most `size` values. Registers `base` and `spare` are its own from
    /// now on: a command that stores in one of them, or in the array, ends what is proved of it.
    ///
    /// # Errors
    ///
    /// `OutOfBounds` where `spare` is no register or is `base`, `size` is 0, or the heap refuses
    /// the array; `Full` and `NoLifeLeft` as for `ControlHeap::array`. The heap's graph is then
    /// unchanged.
    pub fn new(heap: &mut ControlHeap, base: u8, spare: u8, size: u32) -> Result<Ring, Fault>
        ensures placed { IfOk result (λ r. HasPlace (ring_cells r) base spare size) }
        ensures opens { (s : Sight) (g : Graph) → Has s heap.old g
            → MayOpen s heap.old.config g size
            → MatchResult result
            (λ r. Opens s heap.old heap.new (ring_cells r) g (λ z. IsRing z r []))
            (λ f. NotOpened s heap.old heap.new base spare size g f) }
    {
        let cells = made(heap, base, spare, size)?;
        Ok(Ring {
            cells,
            first: 0,
            count: 0,
        })
    }

    /// Adds the value of register `from`; where `size` values are there, the oldest goes. One
    /// command.
    ///
    /// # Errors
    ///
    /// `OutOfBounds` where there is no such register, `NoLifeLeft` where the heap's life has no
    /// room for the command. Ring and heap are then unchanged.
    pub fn push(&mut self, heap: &mut ControlHeap, from: u8) -> Result<(), Fault>
        ensures same { ring_cells self.new ≡ ring_cells self.old }
        ensures shows { (s : Sight) (g : Graph) (xs : List Value)
            → Has s heap.old g → IsRing g self.old xs
            → DoesOrStops s 1 heap.old heap.new [] (ring_cells self.old) g
            (λ _ z. IsRing z self.new (last_of (ring_cells self.old).size (xs ++ held g from ∷ [])))
            (16 ≤ from) (self.new ≡ self.old) result }
    {
        admit(heap, 1, from < REGISTERS)?;
        let place = around(self.cells.size, self.first, self.count);
        self.cells.put(heap, place, from)?;
        if self.count < self.cells.size {
            self.count += 1;
        } else {
            self.first = next(self.cells.size, self.first);
        }
        Ok(())
    }

    /// Loads value `i`, counted from the oldest, into register `d` and returns it, or `None` where
    /// there is none. At most one command.
    ///
    /// # Errors
    ///
    /// `OutOfBounds` where there is no such register or it is the ring's own, `NoLifeLeft` where
    /// the heap's life has no room for the command. The heap is then unchanged.
    pub fn get(&self, heap: &mut ControlHeap, i: u32, d: u8) -> Result<Option<Value>, Fault>
        ensures { (s : Sight) (g : Graph) (xs : List Value)
            → Has s heap.old g → IsRing g self.now xs
            → DoesOrStops s 1 heap.old heap.new (d ∷ []) (ring_cells self.now) g
            (λ v z. IsRing z self.now xs × Gives z d (drop i xs) v)
            (IsNoTarget (ring_cells self.now) d) (Unit {0}) result }
    {
        admit(heap, 1, self.cells.may_load(d))?;
        if i >= self.count {
            return Ok(None);
        }
        let place = around(self.cells.size, self.first, i);
        let value = self.cells.get(heap, place, d)?;
        Ok(Some(value))
    }

    /// How many values there are.
    pub fn len(&self) -> u32
        ensures { (g : Graph) (xs : List Value) → IsRing g self.now xs → result ≡ length xs }
    {
        self.count
    }

    /// The ring on a heap that has the graph of its own heap up to names, as one does that
    /// renews it, or into which it was saved and loaded.
    /// It shows the same there. It reads a register, and executes no command.
    pub fn renewed(&self, other: &ControlHeap) -> Ring
        ensures same { HasPlace (ring_cells result) (ring_cells self.now).base
            (ring_cells self.now).spare (ring_cells self.now).size }
        ensures shows { ShowsAgain renamed_values
            (λ g xs. IsRing g self.now xs) (λ z xs. IsRing z result xs) other.now }
    {
        Ring {
            cells: self.cells.renewed(other),
            first: self.first,
            count: self.count,
        }
    }

    /// Its array and registers.
    pub fn cells(&self) -> Cells
        ensures { result ≡ ring_cells self.now }
    {
        self.cells
    }
}
