//! A whole call.

ghost use Rattle.std.specs.Prelude.{◌≡◌, ◌≤◌, [], map, length, string_bytes, IfOk, IfErr, OnOk};
ghost use Rattle.array_scripts.specs.Runnable.{IsRunnable};
ghost use Rattle.array_scripts.specs.JobsOfScripts.{IsCause};
ghost use Rattle.exit_statuses.specs.Sides.{sides};
ghost use Rattle.array_scripts.specs.script_runs.Runs.{HasAnswers, IsCarriedOut};

use crate::script_runs::exit::ScriptExit;
use crate::script_runs::running::kept;
use crate::{Runnable, tell_answers};
use atom_board::Closed;
use exit_statuses::{Refusal, refused};
use heap_system::Pace;
use std::alloc::Global;
use std::sync::Wait;
use std::thread::Threads;
use trace_text::{Sink, Source};

/// Reads a script, runs its threads beside each other, and writes what each operation answered, a
/// line each, thread by thread. The pace is told before each command. Words are refused with the
/// line `NAME: usage`.
///
/// That the call returns is not promised, for it makes turns of the threads until each is done.
pub fn run_script<K: Runnable, R: Threads + Wait + Sync, S: Source, W: Sink, Q: Pace>(
    rt: &R,
    alloc: Global,
    name: &[u8],
    words: &[String],
    source: &mut S,
    sink: &mut W,
    pace: &Q,
) -> ScriptExit
    requires runnable { IsRunnable K.kind K.commands }
    requires name { length name.now ≤ 32 }
    ensures { IsCarriedOut K.kind K.commands K.told K.text name.now
        (map (λ w. string_bytes w) words.now) (sides S.left S.faults source.old source.new)
        (sides W.held W.faults sink.old sink.new) result }
{
    match asked::<K, R, S, Q>(rt, alloc, words, source, pace) {
        Ok((run, told)) => ScriptExit {
            status: tell_answers::<K, W>(&told, sink),
            due: 0,
            run: Some(run),
        },
        Err(refusal) => ScriptExit {
            status: refused(refusal, name, sink),
            due: refusal.status(),
            run: None,
        },
    }
}

/// The run of a script and its answers, where there are no words.
fn asked<K: Runnable, R: Threads + Wait + Sync, S: Source, Q: Pace>(
    rt: &R,
    alloc: Global,
    words: &[String],
    source: &mut S,
    pace: &Q,
) -> Result<(Closed, Vec<Vec<K::Answer>>), Refusal>
    requires { IsRunnable K.kind K.commands }
    ensures none { OnOk result (map (λ w. string_bytes w) words.now ≡ []) }
    ensures kept { IfOk result (λ x. HasAnswers K.kind K.commands K.told
        (sides S.left S.faults source.old source.new) x.0 (map (λ v. v.items) x.1.items)) }
    ensures still { OnOk result (S.faults source.new ≡ S.faults source.old) }
    ensures refused { IfErr result (IsCause K.kind (map (λ w. string_bytes w) words.now)
        (sides S.left S.faults source.old source.new)) }
{
    if !words.is_empty() {
        return Err(Refusal::Usage);
    }
    kept::<K, R, S, Q>(rt, alloc, source, pace)
}
