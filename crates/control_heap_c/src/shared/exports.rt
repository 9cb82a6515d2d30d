//! The calls for a program in C whose threads share a heap. None of them waits. A call that is
//! refused changes nothing, and its status gives the cause.

ghost use Rattle.std.specs.Prelude.{◌≡◌, ℕ, Option};
ghost use Rattle.control_heap_c.specs.declared.owned.Owned.{Owned};
ghost use Rattle.control_heap_c.specs.Outcomes.{width_of};
ghost use Rattle.control_heap_c.specs.Closings.{Finished, IsOfGroup, Returned};
ghost use Rattle.control_heap_c.specs.Groups.{Attached, IsGroupShut, OpenedGroup, shared_config};
ghost use Rattle.control_heap_c.specs.Shared.{IsShut, Polled, Started, command_in, worker_at, worker_counts};
ghost use Rattle.control_heap_c.specs.Stamps.{Followed, HasCaughtUp, Stamped};

use super::closing::{finish, finish_told, give_back, return_told};
use super::coded::command_in;
use super::group::{attach, attach_told, close as close_group, group_told, open};
use super::stamps::{draw, follow, follow_told, stamp_told};
use super::worker::{close, counts, poll, poll_told, start, start_told};
use crate::answer::Answer;
use crate::handle::Handle;
use std::alloc::Global;

/// Opens a heap for several threads in the closed handle of a group, which then has its workers.
#[unsafe(no_mangle)]
pub extern "C" fn rtheap_group_raw_open(
    alloc: Global,
    group: &mut Handle,
    version: u32,
    threads: u32,
    blocks: u32,
    live: u32,
    object: u32,
    shared: u32,
) -> u32
    ensures { OpenedGroup (width_of version)
        (λ w. shared_config w threads blocks live object shared) group.old.link.value
        group.new.link.value result }
{
    group_told(open(alloc, group, version, threads, blocks, live, object, shared))
}

/// Moves the first worker of a group to the closed handle of a worker.
#[unsafe(no_mangle)]
pub extern "C" fn rtheap_group_raw_attach(
    alloc: Global,
    group: &mut Handle,
    worker: &mut Handle,
) -> u32
    ensures { Attached group.old.link.value worker.old.link.value result group.new.link.value
        worker.new.link.value }
{
    attach_told(attach(alloc, group, worker))
}

/// Closes the handle of a group, and drops the workers that no handle has. Returns 0, or 1 if it
/// has none.
#[unsafe(no_mangle)]
pub extern "C" fn rtheap_group_raw_close(alloc: Global, group: &mut Handle) -> u32
    ensures { IsGroupShut group.old.link.value result group.new.link.value }
{
    close_group(alloc, group)
}

/// Gives the worker of a handle back to the group that it was attached from, and closes the handle,
/// unless the worker's command is not done.
#[unsafe(no_mangle)]
pub extern "C" fn rtheap_group_raw_return(
    alloc: Global,
    group: &mut Handle,
    worker: &mut Handle,
) -> u32
    requires { IsOfGroup group.old.link.value worker.old.link.value }
    ensures { Returned group.old.link.value worker.old.link.value result group.new.link.value
        worker.new.link.value }
{
    return_told(give_back(alloc, group, worker))
}

/// Closes the heap of a group with the workers that the group has, if no other handle has one. One
/// history has all commands that these workers executed, with their replies, and keeps real time.
/// Writes how many cycles of collection were started.
#[unsafe(no_mangle)]
pub extern "C" fn rtheap_group_raw_finish(
    alloc: Global,
    group: &mut Handle,
    cycles: &mut u64,
) -> u32
    ensures { Finished group.old.link.value group.new.link.value cycles.old cycles.new result }
{
    finish_told(finish(alloc, group), cycles)
}

/// Starts the command of these numbers, and makes none of its events.
#[unsafe(no_mangle)]
pub extern "C" fn rtheap_worker_raw_start(
    alloc: Global,
    worker: &mut Handle,
    kind: u32,
    a: u32,
    b: u32,
    v: u32,
    n: u64,
) -> u32
    ensures { Started (command_in kind a b v n) worker.old.link.value worker.new.link.value
        result }
{
    start_told(start(alloc, worker, command_in(kind, a, b, v, n)))
}

/// Makes at most `most` events of the command that was started last, and writes its reply if it is
/// then done.
#[unsafe(no_mangle)]
pub extern "C" fn rtheap_worker_raw_poll(
    alloc: Global,
    worker: &mut Handle,
    most: u64,
    out: &mut Answer,
) -> u32
    ensures { Polled most worker.old.link.value worker.new.link.value out.old out.new result }
{
    let outcome = poll(alloc, worker, most);
    poll_told(outcome, out)
}

/// Draws a stamp for a worker, and writes it.
#[unsafe(no_mangle)]
pub extern "C" fn rtheap_worker_raw_stamp(
    alloc: Global,
    worker: &mut Handle,
    stamp: &mut u64,
) -> u32
    ensures { Stamped worker.old.link.value worker.new.link.value stamp.old stamp.new result }
{
    stamp_told(draw(alloc, worker), stamp)
}

/// Gives a stamp of another worker to a worker, which draws one of its own. Returns 0 if that is no
/// less, and 21 if it is less. With 0 the worker has seen all that the other had seen when it drew
/// the stamp, or 2^64 stamps were drawn. So what is started from then on comes after all of this
/// (`shared_heap::commands_keep_real_time`).
#[unsafe(no_mangle)]
pub extern "C" fn rtheap_worker_raw_follow(alloc: Global, worker: &mut Handle, stamp: u64) -> u32
    ensures told { Followed stamp worker.old.link.value worker.new.link.value result }
    ensures order { (before : ℕ) (g h : Option Owned) → Stamped g h before stamp 0 → result ≡ 0
        → HasCaughtUp h worker.new.link.value }
{
    follow_told(follow(alloc, worker, stamp))
}

/// Closes the handle of a worker, unless its command is not done.
#[unsafe(no_mangle)]
pub extern "C" fn rtheap_worker_raw_close(alloc: Global, worker: &mut Handle) -> u32
    ensures { IsShut worker.old.link.value result worker.new.link.value }
{
    close(alloc, worker)
}

/// The number of the worker's thread, from 0; 0 if the handle has no worker between two commands.
#[unsafe(no_mangle)]
pub extern "C" fn rtheap_worker_raw_thread(alloc: Global, worker: &mut Handle) -> u32
    ensures told { result ≡ (worker_counts (worker_at worker.old.link.value)).thread }
    ensures unchanged { worker.new.link.value ≡ worker.old.link.value }
{
    counts(alloc, worker).thread
}

/// The units of collection that are left of the worker's life.
#[unsafe(no_mangle)]
pub extern "C" fn rtheap_worker_raw_units_left(alloc: Global, worker: &mut Handle) -> u64
    ensures told { result ≡ (worker_counts (worker_at worker.old.link.value)).units }
    ensures unchanged { worker.new.link.value ≡ worker.old.link.value }
{
    counts(alloc, worker).units
}

/// The allocations that are left of the worker's life.
#[unsafe(no_mangle)]
pub extern "C" fn rtheap_worker_raw_objects_left(alloc: Global, worker: &mut Handle) -> u64
    ensures told { result ≡ (worker_counts (worker_at worker.old.link.value)).objects }
    ensures unchanged { worker.new.link.value ≡ worker.old.link.value }
{
    counts(alloc, worker).objects
}

/// The number of commands that the worker has executed.
#[unsafe(no_mangle)]
pub extern "C" fn rtheap_worker_raw_asked(alloc: Global, worker: &mut Handle) -> u64
    ensures told { result ≡ (worker_counts (worker_at worker.old.link.value)).asked }
    ensures unchanged { worker.new.link.value ≡ worker.old.link.value }
{
    counts(alloc, worker).asked
}
