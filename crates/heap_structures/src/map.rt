//! Values by their keys, in one array.

ghost use Rattle.std.specs.Prelude.{◌≡◌, ◌≢◌, ◌*◌, ℕ, List, [], drop, length, IfOk, MatchResult};
ghost use Rattle.block_store.specs.declared.Name.{Name};
ghost use Rattle.block_store.specs.declared.Value.{Value};
ghost use Rattle.never_heap.specs.Graphs.{Graph};
ghost use Rattle.heap_structures.specs.Cells.{HasPlace, IsNone, Spares, held};
ghost use Rattle.heap_structures.specs.declared.cells.Cells.{Cells};
ghost use Rattle.heap_structures.specs.Heaps.{Has, Sight};
ghost use Rattle.heap_structures.specs.Maps.{Changes, GivesPair, Inserts, IsLoaded, IsMap, Loads, Refuses, map_cells, most_pairs, most_to_change, most_to_get};
ghost use Rattle.heap_structures.specs.Opened.{MayOpen, NotOpened, Opens};
ghost use Rattle.heap_structures.specs.Pairs.{Pair, value_of, without};
ghost use Rattle.heap_structures.specs.Tables.{IsTable};
ghost use Rattle.heap_structures.specs.Renewed.{ShowsAgain, renamed_pairs};

use crate::Cells;
use crate::cells::made;
use crate::places::admit;
use crate::table::{Place, binary_digits};
use block_store::Value;
use control_heap::{ControlHeap, Fault};

/// The most pairs of any map.
const MOST_PAIRS: u32 = 32_767;

/// What an `insert` did.
#[derive(Clone, Copy, Debug, PartialEq, Eq)]
pub enum Insertion {
    /// The key is new.
    Added,
    /// The key had this value before.
    Replaced(Value),
    /// Nothing: the key is not there, and the map has no room for it.
    Full,
}

/// At most `size` keys below 2^32, each with a value, in the order of the keys.
#[derive(Clone, Copy, Debug, PartialEq, Eq)]
pub struct Map {
    cells: Cells,
    // How many pairs there are.
    count: u32,
}

impl Map {
    /// Makes an empty map of at most `size` keys: an array of twice as many values. Registers
    /// `base` and `spare` are its own from now on: a command that stores in one of them, or in the
    /// array, ends what is proved of it.
    ///
    /// # Errors
    ///
    /// As for `Ring::new`, of twice as many values.
    pub fn new(heap: &mut ControlHeap, base: u8, spare: u8, size: u32) -> Result<Map, Fault>
        ensures placed { IfOk result (λ r. HasPlace (map_cells r) base spare (2 * size)) }
        ensures opens { (s : Sight) (g : Graph) → Has s heap.old g
            → MayOpen s heap.old.config g (2 * size)
            → MatchResult result
            (λ r. Opens s heap.old heap.new (map_cells r) g (λ z. IsMap z r []))
            (λ f. NotOpened s heap.old heap.new base spare (2 * size) g f) }
    {
        if size > MOST_PAIRS {
            return Err(Fault::OutOfBounds);
        }
        let cells = made(heap, base, spare, 2 * size)?;
        Ok(Map { cells, count: 0 })
    }

    /// Loads the value of a key into register `d` and returns it, or `None` where there is none. On
    /// n keys, at most two commands more than n has binary digits.
    ///
    /// # Errors
    ///
    /// `OutOfBounds` where there is no such register or it is the map's own, `NoLifeLeft` where
    /// the heap's life has no room for the commands. The heap is then unchanged.
    pub fn get(&self, heap: &mut ControlHeap, key: u32, d: u8) -> Result<Option<Value>, Fault>
        ensures { (s : Sight) (g : Graph) (xs : List Pair)
            → Has s heap.old g → IsMap g self.now xs
            → MatchResult result
            (λ v. Loads s (most_to_get (length xs)) heap.old heap.new self.now d g
            (λ z. IsMap z self.now xs × (v ≡ value_of key xs) × IsLoaded z d v))
            (λ f. Refuses (most_to_get (length xs)) self.now d heap.old heap.new f) }
    {
        admit(heap, to_get(self.count), self.cells.may_load(d))?;
        let place = self.cells.find(heap, self.count, key)?;
        match place {
            Place::Row(row) => {
                let value = self.cells.load(heap, row, d)?;
                Ok(Some(value))
            }
            Place::Before(_) => Ok(None),
        }
    }

    /// Loads the value of the key at place `i` in the order of the keys into register `d`, and
    /// returns both, or `None` where there is none. At most two commands.
    ///
    /// # Errors
    ///
    /// As for `get`.
    pub fn nth(&self, heap: &mut ControlHeap, i: u32, d: u8) -> Result<Option<(u32, Value)>, Fault>
        ensures { (s : Sight) (g : Graph) (xs : List Pair)
            → Has s heap.old g → IsMap g self.now xs
            → MatchResult result
            (λ v. Loads s 2 heap.old heap.new self.now d g
            (λ z. IsMap z self.now xs × GivesPair z d (drop i xs) v))
            (λ f. Refuses 2 self.now d heap.old heap.new f) }
    {
        admit(heap, 2, self.cells.may_load(d))?;
        if i >= self.count {
            return Ok(None);
        }
        let key = self.cells.key_at(heap, i)?;
        let value = self.cells.load(heap, i, d)?;
        Ok(Some((key, value)))
    }

    /// Lets the value of a key be that of register `from`. On n keys, at most 4n + 4 commands more
    /// than n has binary digits.
    ///
    /// # Errors
    ///
    /// As for `get`, with register `from`. Map and heap are then unchanged.
    pub fn insert(&mut self, heap: &mut ControlHeap, key: u32, from: u8) -> Result<Insertion, Fault>
        ensures same { map_cells self.new ≡ map_cells self.old }
        ensures shows { (s : Sight) (g : Graph) (xs : List Pair)
            → Has s heap.old g → IsMap g self.old xs
            → MatchResult result
            (λ done. Changes s (most_to_change (length xs)) heap.old heap.new self.old g
            (λ z. Inserts (most_pairs self.old) (IsMap z self.new) key (held g from) xs done))
            (λ f. Refuses (most_to_change (length xs)) self.old from heap.old heap.new f
            × (self.new ≡ self.old)) }
    {
        admit(heap, to_change(self.count), self.cells.may_load(from))?;
        let place = self.cells.find(heap, self.count, key)?;
        match place {
            Place::Row(row) => {
                let old = self.cells.replace(heap, row, from)?;
                Ok(Insertion::Replaced(old))
            }
            Place::Before(row) => {
                if self.count >= self.cells.size / 2 {
                    return Ok(Insertion::Full);
                }
                self.cells.add_row(heap, self.count, row, key, from)?;
                self.count += 1;
                Ok(Insertion::Added)
            }
        }
    }

    /// Removes a key, loads its value into register `d` and returns it, or `None` where there is no
    /// such key. At most as many commands as `insert`.
    ///
    /// # Errors
    ///
    /// As for `get`. Map and heap are then unchanged.
    pub fn remove(
        &mut self,
        heap: &mut ControlHeap,
        key: u32,
        d: u8,
    ) -> Result<Option<Value>, Fault>
        ensures same { map_cells self.new ≡ map_cells self.old }
        ensures shows { (s : Sight) (g : Graph) (xs : List Pair)
            → Has s heap.old g → IsMap g self.old xs
            → MatchResult result
            (λ v. Loads s (most_to_change (length xs)) heap.old heap.new self.old d g
            (λ z. IsMap z self.new (without key xs) × (v ≡ value_of key xs) × IsLoaded z d v))
            (λ f. Refuses (most_to_change (length xs)) self.old d heap.old heap.new f
            × (self.new ≡ self.old)) }
    {
        admit(heap, to_change(self.count), self.cells.may_load(d))?;
        let place = self.cells.find(heap, self.count, key)?;
        match place {
            Place::Row(row) => {
                let old = self.cells.load(heap, row, d)?;
                self.cells.remove_row(heap, self.count, row)?;
                self.count -= 1;
                Ok(Some(old))
            }
            Place::Before(_) => Ok(None),
        }
    }

    /// How many keys there are.
    pub fn len(&self) -> u32
        ensures { (g : Graph) (xs : List Pair) → IsMap g self.now xs → result ≡ length xs }
    {
        self.count
    }

    /// The map on a heap that has the graph of its own heap up to names, as one does that
    /// renews it, or into which it was saved and loaded.
    /// It shows the same there. It reads a register, and executes no command.
    pub fn renewed(&self, other: &ControlHeap) -> Map
        ensures same { HasPlace (map_cells result) (map_cells self.now).base
            (map_cells self.now).spare (map_cells self.now).size }
        ensures shows { ShowsAgain renamed_pairs
            (λ g xs. IsMap g self.now xs) (λ z xs. IsMap z result xs) other.now }
    {
        Map {
            cells: self.cells.renewed(other),
            count: self.count,
        }
    }

    /// Its array and registers.
    pub fn cells(&self) -> Cells
        ensures { result ≡ map_cells self.now }
    {
        self.cells
    }
}

/// A map keeps its pairs where a call spares its array and its base register, as `others_stay` says
/// of rings and queues.
pub fn other_maps_stay()
    ensures { (rs : List ℕ) (a : Name) (g z : Graph) (c : Cells) (count : ℕ) (xs : List Pair)
        → Spares rs a g z → c.array ≢ a → IsNone rs c.base
        → IsTable g c count xs → IsTable z c count xs }
{}

/// The most commands of a `get`.
fn to_get(count: u32) -> u64
    ensures { result ≡ most_to_get count }
{
    binary_digits(count) + 2
}

/// The most commands of an `insert` or a `remove`.
fn to_change(count: u32) -> u64
    ensures { result ≡ most_to_change count }
{
    binary_digits(count) + 4 * u64::from(count) + 4
}
