//! The top call.

ghost use Rattle.std.specs.Prelude.{map, string_bytes};
ghost use Rattle.exit_statuses.specs.Sides.{sides};
ghost use Rattle.rt_handles.specs.HandleCalls.{IsCarriedOut};

use crate::exit::HandleExit;
use crate::kind::Handles;
use array_scripts::{ScriptExit, run_script};
use heap_system::Pace;
use std::alloc::Global;
use std::sync::Wait;
use std::thread::Threads;
use trace_text::{Sink, Source};

/// Keeps handles in the slots of an array on a heap of its own: reads a script, in which each
/// thread has operations on the slots, runs the threads beside each other, and writes what each
/// operation came to, a line each, thread by thread. The pace is told before each command. Words
/// are refused with the line `rt_handles: usage`.
///
/// The lines are those of slots on which the operations are done one after the other, in one order
/// that has each thread's in script order. So a handle that is shown has the number of its own
/// make, and a thread whose handle was evicted is told so, also where its slot was given to another
/// since.
///
/// That the call returns is not promised, for it makes turns of the threads until each is done.
pub fn handles<R: Threads + Wait + Sync, S: Source, K: Sink, Q: Pace>(
    rt: &R,
    alloc: Global,
    words: &[String],
    source: &mut S,
    sink: &mut K,
    pace: &Q,
) -> HandleExit
    ensures { IsCarriedOut (map (λ w. string_bytes w) words.now)
        (sides S.left S.faults source.old source.new)
        (sides K.held K.faults sink.old sink.new) result }
{
    let ScriptExit { status, due, run } = run_script::<Handles, R, S, K, Q>(
        rt,
        alloc,
        b"rt_handles",
        words,
        source,
        sink,
        pace,
    );
    HandleExit { status, due, run }
}
