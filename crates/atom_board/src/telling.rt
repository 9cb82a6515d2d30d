//! The pace of a thread, and of which of its commands it was told.

ghost use Rattle.std.specs.Prelude.{◌≡◌, ◌+◌, ◌≤◌, true, false, length};
ghost use Rattle.heap_system.specs.Locals.{is_done, is_rest};
ghost use Rattle.heap_system.specs.ThreadMemories.{HasRunOn};
ghost use Rattle.atom_board.specs.Drives.{commands_begun};

use heap_system::{Local, Pace, ThreadMemory, Turn};
use std::sync::Wait;

/// The pace of one thread. The loop that drives the thread has no other way to it.
#[derive(Drop)]
pub(crate) struct Teller<'p, Q> {
    pace: &'p Q,
    // It was told of no command from this number on.
    next: u64,
}

impl<'p, Q: Pace> Teller<'p, Q> {
    /// A pace that was told of nothing yet.
    pub(crate) fn new(pace: &'p Q) -> Teller<'p, Q>
        ensures { result.next ≡ 0 }
    {
        Teller { pace, next: 0 }
    }

    /// Tells the pace of the next command of a thread. The thread is at rest, outside the gate, and
    /// its log has the commands before this one; and the pace was told of none from this one on.
    fn tell<R: Wait>(&mut self, rt: &R, local: &Local)
        requires rest { is_rest local.now.part ≡ true }
        requires once { self.old.next ≤ length local.now.log }
        ensures next { self.new.next ≡ length local.now.log + 1 }
    {
        let command = local.log().len() as u64;
        self.next = command + 1;
        self.pace.before(rt, local.thread(), command);
    }

    /// Tells of it where the thread is at rest.
    #[inline(always)]
    pub(crate) fn tell_at_rest<R: Wait>(&mut self, rt: &R, local: &Local)
        requires begun { self.old.next ≤ commands_begun local.now }
        ensures told { is_rest local.now.part ≡ true → self.new.next ≡ length local.now.log + 1 }
        ensures begun { is_rest local.now.part ≡ false
            → self.new.next ≤ commands_begun local.now }
    {
        if local.at_rest() {
            self.tell(rt, local);
        }
    }

    /// Makes events of a thread. At rest it begins the command of which the pace was told last.
    #[inline(always)]
    pub(crate) fn events<C: ThreadMemory>(
        &self,
        memory: &mut C,
        shared: &C::Shared,
        local: &mut Local,
    ) -> Turn
        requires open { is_done local.old ≡ false }
        requires stands { C.stands memory.old shared.now local.old }
        requires told { is_rest local.old.part ≡ true
            → self.now.next ≡ length local.old.log + 1 }
        requires begun { is_rest local.old.part ≡ false
            → self.now.next ≤ commands_begun local.old }
        ensures stands { C.stands memory.new shared.now local.new }
        ensures run { HasRunOn C.acts shared.now memory.old local.old memory.new local.new result }
        ensures begun { self.now.next ≤ commands_begun local.new }
    {
        local.events(memory, shared)
    }
}
