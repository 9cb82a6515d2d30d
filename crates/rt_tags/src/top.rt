//! The top call.

ghost use Rattle.std.specs.Prelude.{map, string_bytes};
ghost use Rattle.exit_statuses.specs.Sides.{sides};
ghost use Rattle.rt_tags.specs.TagCalls.{IsCarriedOut};

use crate::exit::TagExit;
use crate::kind::Tags;
use array_scripts::{ScriptExit, run_script};
use heap_system::Pace;
use std::alloc::Global;
use std::sync::Wait;
use std::thread::Threads;
use trace_text::{Sink, Source};

/// Keeps a table of tags on a heap of its own: reads a script, in which each thread has operations
/// on the table, runs the threads beside each other, and writes what each operation answered, a
/// line each, thread by thread. The pace is told before each command. Words are refused with the
/// line `rt_tags: usage`.
///
/// The answers are those of a table on which the operations are done one after the other, in one
/// order that has each thread's in script order; so no operation sees the value of one write with
/// the quality of another.
///
/// That the call returns is not promised, for it makes turns of the threads until each is done.
pub fn tags<R: Threads + Wait + Sync, S: Source, K: Sink, Q: Pace>(
    rt: &R,
    alloc: Global,
    words: &[String],
    source: &mut S,
    sink: &mut K,
    pace: &Q,
) -> TagExit
    ensures { IsCarriedOut (map (λ w. string_bytes w) words.now)
        (sides S.left S.faults source.old source.new)
        (sides K.held K.faults sink.old sink.new) result }
{
    let ScriptExit { status, due, run } = run_script::<Tags, R, S, K, Q>(
        rt, alloc, b"rt_tags", words, source, sink, pace,
    );
    TagExit { status, due, run }
}
