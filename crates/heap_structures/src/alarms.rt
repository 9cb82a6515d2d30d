//! Standing alarms in the order in which they were raised, in one array.

ghost use Rattle.std.specs.Prelude.{◌≡◌, ◌≤◌, ◌<◌, ◌+◌, ◌-◌, ◌*◌, ◌^◌, ◌==◌, ◌∷◌, ◌++◌, ℕ, Option, Some, List, [], length, map, IfOk, IfSome, IsOkAnd, MatchResult, true, false};
ghost use Rattle.block_store.specs.declared.Value.{Value};
ghost use Rattle.never_heap.specs.Graphs.{Graph};
ghost use Rattle.heap_structures.specs.Alarms.{Closes, Finds, IsAlarms, Raises, Shows, ShowsOrStops, StandOnce, acknowledged, alarm_at, alarm_cells, alarm_size, cleared, raised, stands, value_of};
ghost use Rattle.heap_structures.specs.Cells.{HasPlace};
ghost use Rattle.heap_structures.specs.Heaps.{Has, HasRoom, Sight};
ghost use Rattle.heap_structures.specs.Opened.{MayOpen, NotOpened, Opens};
ghost use Rattle.heap_structures.specs.Rings.{IsRound};
ghost use Rattle.heap_structures.specs.declared.alarms.Alarm.{Alarm};
ghost use Rattle.heap_structures.specs.Renewed.{ShowsAgain};

use crate::Cells;
use crate::cells::made;
use crate::places::admit;
use block_store::Value;
use control_heap::{ControlHeap, Fault};

/// How many alarm numbers there are: 0 to 2^61 - 1.
pub const NUMBERS: u64 = 1 << 61;

/// A standing alarm.
#[derive(Clone, Copy, Debug, PartialEq, Eq)]
pub struct Alarm {
    pub number: u64,
    pub acknowledged: bool,
}

/// What became of an alarm that was raised.
#[derive(Clone, Copy, Debug, PartialEq, Eq)]
pub enum Raised {
    /// It is now, unacknowledged, as the last.
    New,
    /// It stood already, and is as it was.
    Standing,
    /// It does not be, since as many others do as the list holds.
    Full,
}

/// At most `size` standing alarms, in the order in which they were raised.
///
/// The states are the simplest of ISA-18.2. An alarm stands from its raising until its condition is
/// cleared, acknowledged or not: there is no latch. An alarm that stands is not raised again: while
/// its condition lasts, it stays acknowledged. Once cleared, it is raised as a new one.
#[derive(Clone, Copy, Debug, PartialEq, Eq)]
pub struct AlarmList {
    cells: Cells,
    // How many alarms stand, at the places from 0 on.
    count: u32,
}

/// The alarm of a value in the array.
fn alarm_of(value: Value) -> Option<Alarm>
    ensures { (a : Alarm) → value ≡ value_of a → result ≡ Some a }
{
    match value {
        Value::Int(code) => Some(Alarm {
            number: code / 2,
            acknowledged: code % 2 == 1,
        }),
        _ => None,
    }
}

/// Whether a value in the array is that of the alarm with this number.
fn is_of(value: Value, number: u64) -> bool
    ensures { (a : Alarm) → value ≡ value_of a → result ≡ (a.number == number) }
{
    match alarm_of(value) {
        Some(alarm) => alarm.number == number,
        None => false,
    }
}

impl AlarmList {
    /// Makes a list of at most `size` alarms, of which none stands. Registers `base` and `spare`
    /// are its own from now on: a command that stores in one of them, or in the array, ends what is
    /// proved of it.
    ///
    /// # Errors
    ///
    /// `OutOfBounds` where `spare` is no register or is `base`, `size` is 0, or the heap refuses
    /// the array; `Full` and `NoLifeLeft` as for `ControlHeap::array`. The heap's graph is then
    /// unchanged.
    pub fn new(heap: &mut ControlHeap, base: u8, spare: u8, size: u32) -> Result<AlarmList, Fault>
        ensures placed { IfOk result (λ r. HasPlace (alarm_cells r) base spare size) }
        ensures opens { (s : Sight) (g : Graph) → Has s heap.old g
            → MayOpen s heap.old.config g size
            → MatchResult result
            (λ r. Opens s heap.old heap.new (alarm_cells r) g (λ z. IsAlarms z r []))
            (λ f. NotOpened s heap.old heap.new base spare size g f) }
    {
        let cells = made(heap, base, spare, size)?;
        Ok(AlarmList { cells, count: 0 })
    }

    /// Raises the alarm with this number, unless it stands. At most `size` + 2 commands.
    ///
    /// # Errors
    ///
    /// `OutOfBounds` where the number is not below `NUMBERS`, `NoLifeLeft` where the heap's life
    /// has no room for so many commands. List and heap are then unchanged.
    pub fn raise(&mut self, heap: &mut ControlHeap, number: u64) -> Result<Raised, Fault>
        ensures same { alarm_cells self.new ≡ alarm_cells self.old }
        ensures shows { (s : Sight) (g : Graph) (xs : List Alarm)
            → Has s heap.old g → IsAlarms g self.old xs
            → ShowsOrStops s (alarm_size self.old + 2) heap.old heap.new self.old g
            (λ r z. Raises (alarm_size self.old) (IsAlarms z self.new) number xs r)
            (2 ^ 61 ≤ number) (self.new ≡ self.old) result }
    {
        admit(heap, u64::from(self.cells.size) + 2, number < NUMBERS)?;
        match self.find(heap, number)? {
            Some(_) => Ok(Raised::Standing),
            None => self.add(heap, number),
        }
    }

    /// Acknowledges the alarm with this number, and returns whether it stands. At most `size` + 2
    /// commands.
    ///
    /// # Errors
    ///
    /// As for `raise`.
    pub fn acknowledge(&self, heap: &mut ControlHeap, number: u64) -> Result<bool, Fault>
        ensures { (s : Sight) (g : Graph) (xs : List Alarm)
            → Has s heap.old g → IsAlarms g self.now xs
            → ShowsOrStops s (alarm_size self.now + 2) heap.old heap.new self.now g
            (λ r z. (r ≡ stands number xs) × IsAlarms z self.now (acknowledged number xs))
            (2 ^ 61 ≤ number) (Unit {0}) result }
    {
        admit(heap, u64::from(self.cells.size) + 2, number < NUMBERS)?;
        match self.find(heap, number)? {
            Some(place) => {
                self.cells.write(heap, u64::from(place), 2 * number + 1)?;
                Ok(true)
            }
            None => Ok(false),
        }
    }

    /// Clears the alarm with this number, acknowledged or not, and returns whether it stood. Those
    /// raised later move up in the array. At most 2 × `size` + 1 commands.
    ///
    /// # Errors
    ///
    /// As for `raise`.
    pub fn clear(&mut self, heap: &mut ControlHeap, number: u64) -> Result<bool, Fault>
        ensures same { alarm_cells self.new ≡ alarm_cells self.old }
        ensures shows { (s : Sight) (g : Graph) (xs : List Alarm)
            → Has s heap.old g → IsAlarms g self.old xs
            → ShowsOrStops s (2 * alarm_size self.old + 1) heap.old heap.new self.old g
            (λ r z. (r ≡ stands number xs) × IsAlarms z self.new (cleared number xs))
            (2 ^ 61 ≤ number) (self.new ≡ self.old) result }
    {
        admit(heap, 2 * u64::from(self.cells.size) + 1, number < NUMBERS)?;
        match self.find(heap, number)? {
            Some(place) => {
                self.close(heap, place)?;
                self.count -= 1;
                Ok(true)
            }
            None => Ok(false),
        }
    }

    /// Returns standing alarm `i`, the oldest first, or `None` where fewer stand. At most one
    /// command.
    ///
    /// # Errors
    ///
    /// `NoLifeLeft` where the heap's life has no room for the command. The heap is then unchanged.
    pub fn get(&self, heap: &mut ControlHeap, i: u32) -> Result<Option<Alarm>, Fault>
        ensures { (s : Sight) (g : Graph) (xs : List Alarm)
            → Has s heap.old g → IsAlarms g self.now xs
            → ShowsOrStops s 1 heap.old heap.new self.now g
            (λ a z. (a ≡ alarm_at i xs) × IsAlarms z self.now xs) ⊥ (Unit {0}) result }
    {
        admit(heap, 1, true)?;
        if i >= self.count {
            return Ok(None);
        }
        let value = self.cells.get(heap, u64::from(i), self.cells.spare)?;
        Ok(alarm_of(value))
    }

    /// How many alarms stand.
    pub fn len(&self) -> u32
        ensures { (g : Graph) (xs : List Alarm) → IsAlarms g self.now xs → result ≡ length xs }
    {
        self.count
    }

    /// The list on a heap that has the graph of its own heap up to names, as one does that
    /// renews it, or into which it was saved and loaded.
    /// It shows the same there. It reads a register, and executes no command.
    pub fn renewed(&self, other: &ControlHeap) -> AlarmList
        ensures same { HasPlace (alarm_cells result) (alarm_cells self.now).base
            (alarm_cells self.now).spare (alarm_cells self.now).size }
        ensures shows { ShowsAgain (λ _ xs. xs)
            (λ g xs. IsAlarms g self.now xs) (λ z xs. IsAlarms z result xs) other.now }
    {
        AlarmList {
            cells: self.cells.renewed(other),
            count: self.count,
        }
    }

    /// Its array and registers.
    pub fn cells(&self) -> Cells
        ensures { result ≡ alarm_cells self.now }
    {
        self.cells
    }

    /// The place of the alarm with this number. One command for each alarm that is looked at.
    fn find(&self, heap: &mut ControlHeap, number: u64) -> Result<Option<u32>, Fault>
        ensures low { IfOk result (λ p. IfSome p (λ i. i < self.now.count)) }
        ensures finds { (s : Sight) (g : Graph) (xs : List Alarm)
            → Has s heap.old g → IsAlarms g self.now xs → HasRoom self.now.count heap.old
            → IsOkAnd result (λ p. Finds s heap.old heap.new g self.now xs number p) }
    {
        for place in 0..self.count {
            let value = self.cells.get(heap, u64::from(place), self.cells.spare)?;
            if is_of(value, number) {
                return Ok(Some(place));
            }
        }
        Ok(None)
    }

    /// Adds an alarm that does not stand. Two commands.
    fn add(&mut self, heap: &mut ControlHeap, number: u64) -> Result<Raised, Fault>
        requires { number < 2 ^ 61 }
        ensures same { self.new.cells ≡ self.old.cells }
        ensures adds { (s : Sight) (g : Graph) (xs : List Alarm)
            → Has s heap.old g → IsAlarms g self.old xs → HasRoom 2 heap.old
            → stands number xs ≡ false
            → IsOkAnd result (λ r. Shows s 2 heap.old heap.new self.old.cells g
            (λ z. Raises self.old.cells.size (IsAlarms z self.new) number xs r)) }
    {
        if self.count >= self.cells.size {
            return Ok(Raised::Full);
        }
        self.cells.write(heap, u64::from(self.count), 2 * number)?;
        self.count += 1;
        Ok(Raised::New)
    }

    /// Moves the values after a place up by one, and lets the last be nil. Two commands for each
    /// value from the place on.
    fn close(&self, heap: &mut ControlHeap, place: u32) -> Result<(), Fault>
        requires { place < self.now.count }
        ensures { (s : Sight) (g : Graph) (vs : List Value)
            → Has s heap.old g → IsRound g self.now.cells 0 self.now.count vs
            → HasRoom (2 * (self.now.count - place)) heap.old
            → IsOkAnd result (λ _. Closes s heap.old heap.new g self.now place vs) }
    {
        let last = self.count - 1;
        for to in place..last {
            self.cells.copy(heap, u64::from(to) + 1, u64::from(to))?;
        }
        self.cells.clear(heap, u64::from(last))
    }
}

/// An alarm stands at most once, whatever calls were made, and not at all after it was cleared.
pub fn alarms_stand_once()
    ensures { (n : ℕ) (xs : List Alarm) → StandOnce xs
        → (stands n xs ≡ false → StandOnce (raised n xs)) × StandOnce (acknowledged n xs)
        × StandOnce (cleared n xs) × (stands n (cleared n xs) ≡ false) }
{}
