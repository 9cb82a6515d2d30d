//! A thread driven to its end, by whatever memory represents it.

ghost use Rattle.std.specs.Prelude.{◌≡◌, true, length};
ghost use Rattle.heap_system.specs.Locals.{is_done};
ghost use Rattle.atom_board.specs.Drives.{HasDriven};

use crate::telling::Teller;
use crossbeam_utils::Backoff;
use heap_system::{Local, Pace, ThreadMemory, Turn};
use std::sync::Wait;
use std::thread;

// How far a thread has got: the commands that it has ended, and the units that it has made for the
// one in hand.
#[inline(always)]
fn progress(local: &Local) -> (usize, u64)
    ensures { result ≡ (length local.now.log, local.now.spent) }
{
    (local.log().len(), local.spent())
}

/// Makes turns of a thread until it is done, and tells the pace before each command. After a turn
/// that waited it pauses, longer each time until it gets on. Of the memory it makes the operations
/// of these turns, and no other: this code has no other way to the words.
#[tactic(auto, using(crate::proofs::Driven::driven_none))]
pub fn drives<C: ThreadMemory, R: Wait, Q: Pace>(
    rt: &R,
    memory: &mut C,
    shared: &C::Shared,
    local: &mut Local,
    pace: &Q,
)
    requires stands { C.stands memory.old shared.now local.old }
    ensures stands { C.stands memory.new shared.now local.new }
    ensures done { is_done local.new ≡ true }
    ensures driven { HasDriven C.acts shared.now memory.old local.old memory.new local.new }
{
    let mut teller = Teller::new(pace);
    let backoff = Backoff::new();
    // How far it had got when it last waited, where it has got no further since.
    let mut waited = None;
    for _ in rt.forever() {
        if local.done() {
            return;
        }
        teller.tell_at_rest(rt, local);
        match teller.events(memory, shared, local) {
            Turn::Waited => {
                waited = Some(progress(local));
                backoff.snooze();
                thread::yield_now();
            }
            Turn::Went | Turn::Done => {
                if let Some(before) = waited {
                    if progress(local) != before {
                        backoff.reset();
                        waited = None;
                    }
                }
            }
        }
    }
    unreachable!()
}
