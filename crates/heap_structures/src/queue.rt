//! Values that leave in the order in which they came, in one array.

ghost use Rattle.std.specs.Prelude.{◌≡◌, ◌≤◌, ◌∷◌, ℕ, List, [], drop, length, IfOk, MatchResult};
ghost use Rattle.block_store.specs.declared.Value.{Value};
ghost use Rattle.never_heap.specs.Graphs.{Graph};
ghost use Rattle.heap_structures.specs.Cells.{HasPlace, held};
ghost use Rattle.heap_structures.specs.Heaps.{DoesOrStops, Has, Sight};
ghost use Rattle.heap_structures.specs.Opened.{MayOpen, NotOpened, Opens};
ghost use Rattle.heap_structures.specs.Rings.{Adds, IsNoTarget, IsQueue, Pops, queue_cells};
ghost use Rattle.heap_structures.specs.Renewed.{ShowsAgain, renamed_values};

use crate::Cells;
use crate::cells::made;
use crate::places::{REGISTERS, admit, around, next};
use block_store::Value;
use control_heap::{ControlHeap, Fault};

/// At most `size` values, which leave in the order in which they came.
#[derive(Clone, Copy, Debug, PartialEq, Eq)]
pub struct Queue {
    cells: Cells,
    // The place of the first value, and how many there are.
    first: u32,
    count: u32,
}

impl Queue {
    /// Makes an empty queue of at most `size` values. Registers `base` and `spare` are its own from
    /// now on: a command that stores in one of them, or in the array, ends what is proved of it.
    ///
    /// # Errors
    ///
    /// `OutOfBounds` where `spare` is no register or is `base`, `size` is 0, or the heap refuses
    /// the array; `Full` and `NoLifeLeft` as for `ControlHeap::array`. The heap's graph is then
    /// unchanged.
    pub fn new(heap: &mut ControlHeap, base: u8, spare: u8, size: u32) -> Result<Queue, Fault>
        ensures placed { IfOk result (λ r. HasPlace (queue_cells r) base spare size) }
        ensures opens { (s : Sight) (g : Graph) → Has s heap.old g
            → MayOpen s heap.old.config g size
            → MatchResult result
            (λ r. Opens s heap.old heap.new (queue_cells r) g (λ z. IsQueue z r []))
            (λ f. NotOpened s heap.old heap.new base spare size g f) }
    {
        let cells = made(heap, base, spare, size)?;
        Ok(Queue {
            cells,
            first: 0,
            count: 0,
        })
    }

    /// Adds the value of register `from` at the end, or returns `false` where `size` values are
    /// there. One command.
    ///
    /// # Errors
    ///
    /// `OutOfBounds` where there is no such register, `NoLifeLeft` where the heap's life has no
    /// room for the command. Queue and heap are then unchanged.
    pub fn push(&mut self, heap: &mut ControlHeap, from: u8) -> Result<bool, Fault>
        ensures same { queue_cells self.new ≡ queue_cells self.old }
        ensures shows { (s : Sight) (g : Graph) (xs : List Value)
            → Has s heap.old g → IsQueue g self.old xs
            → DoesOrStops s 1 heap.old heap.new [] (queue_cells self.old) g
            (λ done z. Adds (queue_cells self.old).size (IsQueue z self.new) xs (held g from) done)
            (16 ≤ from) (self.new ≡ self.old) result }
    {
        admit(heap, 1, from < REGISTERS)?;
        if self.count >= self.cells.size {
            return Ok(false);
        }
        let place = around(self.cells.size, self.first, self.count);
        self.cells.put(heap, place, from)?;
        self.count += 1;
        Ok(true)
    }

    /// Moves the first value to register `d` and returns it, or `None` where there is none. At most
    /// three commands.
    ///
    /// # Errors
    ///
    /// `OutOfBounds` where there is no such register or it is the queue's own, `NoLifeLeft` where
    /// the heap's life has no room for three commands. Queue and heap are then unchanged.
    pub fn pop(&mut self, heap: &mut ControlHeap, d: u8) -> Result<Option<Value>, Fault>
        ensures same { queue_cells self.new ≡ queue_cells self.old }
        ensures shows { (s : Sight) (g : Graph) (xs : List Value)
            → Has s heap.old g → IsQueue g self.old xs
            → DoesOrStops s 3 heap.old heap.new (d ∷ (queue_cells self.old).spare ∷ [])
            (queue_cells self.old) g (λ v z. Pops z self.new d xs v)
            (IsNoTarget (queue_cells self.old) d) (self.new ≡ self.old) result }
    {
        admit(heap, 3, self.cells.may_load(d))?;
        if self.count == 0 {
            return Ok(None);
        }
        let value = self.cells.take(heap, u64::from(self.first), d)?;
        self.first = next(self.cells.size, self.first);
        self.count -= 1;
        Ok(Some(value))
    }

    /// How many values there are.
    pub fn len(&self) -> u32
        ensures { (g : Graph) (xs : List Value) → IsQueue g self.now xs → result ≡ length xs }
    {
        self.count
    }

    /// The queue on a heap that has the graph of its own heap up to names, as one does that
    /// renews it, or into which it was saved and loaded.
    /// It shows the same there. It reads a register, and executes no command.
    pub fn renewed(&self, other: &ControlHeap) -> Queue
        ensures same { HasPlace (queue_cells result) (queue_cells self.now).base
            (queue_cells self.now).spare (queue_cells self.now).size }
        ensures shows { ShowsAgain renamed_values
            (λ g xs. IsQueue g self.now xs) (λ z xs. IsQueue z result xs) other.now }
    {
        Queue {
            cells: self.cells.renewed(other),
            first: self.first,
            count: self.count,
        }
    }

    /// Its array and registers.
    pub fn cells(&self) -> Cells
        ensures { result ≡ queue_cells self.now }
    {
        self.cells
    }
}
