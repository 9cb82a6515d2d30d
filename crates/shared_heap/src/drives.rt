//! A few events of a thread, made by whatever memory it has.

ghost use Rattle.std.specs.Prelude.{◌≡◌, false};
ghost use Rattle.heap_system.specs.ThreadMemories.{HasRunIn, has_waited};
ghost use Rattle.heap_system.specs.Locals.{is_done};
ghost use Rattle.shared_heap.specs.Turns.{HasDrivenIn};

use heap_system::{Local, ThreadMemory, Turn};

// Whether the event waited.
#[inline(always)]
fn has_waited(turn: Turn) -> bool
    ensures { result ≡ has_waited turn }
{
    matches!(turn, Turn::Waited)
}

// Makes one event of a thread that is not done.
#[inline(always)]
fn one_event<C: ThreadMemory>(memory: &mut C, shared: &C::Shared, local: &mut Local) -> Turn
    requires stands { C.stands memory.old shared.now local.old }
    requires going { is_done local.old ≡ false }
    ensures stands { C.stands memory.new shared.now local.new }
    ensures run { HasRunIn 1 C.acts shared.now memory.old local.old memory.new local.new result }
{
    local.wants_a_word();
    local.event(memory, shared)
}

/// Makes at most so many events of a thread, up to the end of its command or the first that waits.
/// Of the memory it makes the operations of these events, and no other: this code has no other way
/// to the words.
pub fn drives_some<C: ThreadMemory>(
    memory: &mut C,
    shared: &C::Shared,
    local: &mut Local,
    most: u64,
)
    requires stands { C.stands memory.old shared.now local.old }
    ensures stands { C.stands memory.new shared.now local.new }
    ensures driven { HasDrivenIn most C.acts shared.now memory.old local.old memory.new local.new }
{
    for _made in 0..most {
        if local.done() {
            return;
        }
        let turn = one_event(memory, shared, local);
        if has_waited(turn) {
            return;
        }
    }
}
