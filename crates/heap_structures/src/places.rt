//! Places of an array, counted around its end; and what a call checks before its first command.

ghost use Rattle.std.specs.Prelude.{◌≡◌, ◌+◌, ◌<◌, ◌≤◌, true, false, OnOk, IfErr};
ghost use Rattle.heap_structures.specs.Circles.{around};
ghost use Rattle.heap_structures.specs.Heaps.{HasRoom, Stops};

use control_heap::{ControlHeap, Fault};
use never_heap::Command;

/// How many registers a heap has.
pub(crate) const REGISTERS: u8 = 16;

// The most commands of a life.
const MOST_COMMANDS: u64 = 1 << 60;

/// The place of value `i` where the first is at place `first`.
pub(crate) fn around(size: u32, first: u32, i: u32) -> u64
    ensures { result ≡ around size (first + i) }
{
    let place = u64::from(first) + u64::from(i);
    let places = u64::from(size);
    if place < places {
        place
    } else {
        place - places
    }
}

/// The place after a place.
pub(crate) fn next(size: u32, place: u32) -> u32
    ensures { place < size → result ≡ around size (place + 1) }
{
    if u64::from(place) + 1 < u64::from(size) {
        place + 1
    } else {
        0
    }
}

/// Checks that the life has room for some commands that make neither an object nor a unit, and that
/// the registers are `right`.
pub(crate) fn admit(heap: &ControlHeap, commands: u64, right: bool) -> Result<(), Fault>
    requires { 1 ≤ commands }
    ensures admitted { OnOk result ((right ≡ true) × HasRoom commands heap.now) }
    ensures stopped { IfErr result (Stops commands (right ≡ false) heap.now heap.now) }
{
    if !right {
        return Err(Fault::OutOfBounds);
    }
    let some = heap.has_left(&Command::Nil { d: 0 });
    if some && heap.asked().saturating_add(commands) <= MOST_COMMANDS {
        Ok(())
    } else {
        Err(Fault::NoLifeLeft)
    }
}
