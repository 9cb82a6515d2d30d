//! Where a thread makes event after event.

use heap_machine::Memory;

/// A memory that represents a thread, from one of its events to the next.
pub trait ThreadMemory: Memory {
    ghost use Rattle.std.specs.Prelude.{◌≡◌, ◌<◌, false};
    ghost use Rattle.block_store.specs.Places.{extent, words_count};
    ghost use Rattle.heap_machine.specs.Operations.{op_place};
    ghost use Rattle.heap_system.specs.Locals.{LocalState, is_done, op_wanted};
    ghost use Rattle.heap_system.specs.ThreadMemories.{MakesTheNextEvent};

    // Whether the events to come are those of the thread in this state.
    ghost stands: { Self → Self.Shared → LocalState → Type 0 };

    // The next event of such a thread, where its place is one of the heap's words.
    ghost leads: { (m : Self) (s : Self.Shared) (l : LocalState)
        → stands m s l → is_done l ≡ false → op_place (op_wanted l) < words_count (extent l.config)
        → MakesTheNextEvent Self.may Self.acts stands m s l };
}
