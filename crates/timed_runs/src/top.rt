//! The top call.

ghost use Rattle.std.specs.Prelude.{◌≡◌, ◌≢◌, ◌∷◌, [], map, string_bytes, IfOk, OnErr, IfSome};
ghost use Rattle.rtheap_core.specs.TopCalls.{IsCarriedOut, IsComplete};
ghost use Rattle.rtheap_core.specs.Exits.{NeverFull};
ghost use Rattle.exit_statuses.specs.Exits.{IsToldBy};
ghost use Rattle.exit_statuses.specs.Sides.{sides, IsUntouched};
ghost use Rattle.timed_runs.specs.TimedCalls.{form_asked, run_words, words_for};
ghost use Rattle.timed_runs.specs.TimedCalls.{silent, IsReported, IsTimed};

use crate::counted::Counted;
use crate::stamps::{Stamps, reading_time};
use crate::telling::{Form, report_of};
use block_store::OutOfMemory;
use exit_statuses::{Refusal, refused};
use rtheap_core::{Exit, RunEnd, rtheap};
use std::alloc::Global;
use std::sync::Wait;
use std::thread::Threads;
use std::time::{Clock, CpuClock};
use trace_text::{Sink, Source, put_line};

/// What became of a timed run: the status, and what the run itself answered.
#[derive(Drop)]
pub struct TimedExit {
    pub status: u8,
    pub exit: Exit,
}

/// Runs the job of the source as `rtheap run` does, puts the replies into a sink that counts, and
/// writes how long the commands took, as one report by one `put`: with no words as tables, and with
/// the word `--csv` as comma separated values. Of the times nothing is proved: they are what the
/// clock read. A refusal of the run is written in place of them.
///
/// The status is 0 where the report was written, 6 where the sink failed, and 7 where there was no
/// memory for the report; and where no run came to its end, that of the run, or 6.
///
/// # Errors
///
/// `OutOfMemory` where there is no room for the words of the times. Nothing is read or written
/// then.
pub fn timed<R: Threads + Wait + Sync, C: Clock + CpuClock + Sync, S: Source, K: Sink>(
    rt: &R,
    clock: &C,
    alloc: Global,
    words: &[String],
    source: &mut S,
    sink: &mut K,
) -> Result<TimedExit, OutOfMemory>
    ensures done { IfOk result (λ x. IsCarriedOut (record {
      words = run_words (map (λ w. string_bytes w) words.now);
      source = sides S.left S.faults source.old source.new;
      sink = silent;
      exit = x.exit;
    })) }
    ensures complete { IfOk result (λ x. IsComplete (record {
      words = run_words (map (λ w. string_bytes w) words.now);
      source = sides S.left S.faults source.old source.new;
      sink = silent;
      exit = x.exit;
    })) }
    ensures never_full { IfOk result (λ x. IfSome x.exit.run
        (NeverFull (sides S.left S.faults source.old source.new) silent x.exit.status)) }
    ensures status { IfOk result (λ x. IsTimed (sides K.held K.faults sink.old sink.new) x.exit.run
        x.exit.status x.status) }
    ensures unread { OnErr result (IsUntouched (sides S.left S.faults source.old source.new)) }
    ensures unwritten { OnErr result (IsUntouched (sides K.held K.faults sink.old sink.new)) }
{
    let form = form_of(words);
    let asked = asked(alloc, form)?;
    let stamps = Stamps::new(alloc, clock)?;
    let reading = reading_time(alloc, clock)?;
    let mut counted = Counted::new(alloc);
    let exit = rtheap(rt, alloc, &asked, source, &mut counted, &stamps);
    let form = form.unwrap_or(Form::Table);
    let status = written(alloc, reading, form, &exit, &stamps, &counted, sink);
    Ok(TimedExit { status, exit })
}

/// Writes the report of a run that ended, else the line of the refusal.
fn written<C: Clock + CpuClock + Sync, K: Sink>(
    alloc: Global,
    reading: u64,
    form: Form,
    exit: &Exit,
    stamps: &Stamps<'_, C>,
    counted: &Counted,
    sink: &mut K,
) -> u8
    requires { exit.now.status ≢ 6 }
    ensures { IsTimed (sides K.held K.faults sink.old sink.new) exit.now.run exit.now.status
        result }
{
    match &exit.run {
        Some(RunEnd::Ran(run)) => reported(report_of(alloc, reading, run, stamps, form), sink),
        Some(RunEnd::Replayed(_)) => retold(exit.status, counted, sink),
        None => retold(exit.status, counted, sink),
    }
}

/// The form of the report that the words ask for.
fn form_of(words: &[String]) -> Option<Form>
    ensures { result ≡ form_asked (map (λ w. string_bytes w) words.now) }
{
    match words {
        [] => Some(Form::Table),
        [word] => form_of_word(word.as_str()),
        _ => None,
    }
}

fn form_of_word(word: &str) -> Option<Form>
    ensures { result ≡ form_asked (word.now ∷ []) }
{
    match word {
        "--csv" => Some(Form::Csv),
        _ => None,
    }
}

/// The words of the run: `run` where a report is asked for, and else none, which ask for nothing.
fn asked(alloc: Global, form: Option<Form>) -> Result<Vec<String>, OutOfMemory>
    ensures { IfOk result (λ v. map (λ w. string_bytes w) v.items ≡ words_for form) }
{
    match form {
        Some(_) => Ok(vec![in alloc; String::from_str(alloc, "run")?]?),
        None => Ok(Vec::new(alloc)),
    }
}

/// Writes the report, or that there was no memory for it.
fn reported<K: Sink>(report: Result<String, OutOfMemory>, sink: &mut K) -> u8
    ensures { IsReported (sides K.held K.faults sink.old sink.new) result }
{
    match report {
        Ok(report) => put_line(report.as_bytes(), 0, sink),
        Err(_) => refused(Refusal::OutOfMemory, b"rtheap", sink),
    }
}

/// Writes the line of a refusal, which is the last piece that was counted.
fn retold<K: Sink>(status: u8, counted: &Counted, sink: &mut K) -> u8
    requires { status ≢ 6 }
    ensures { IsToldBy (sides K.held K.faults sink.old sink.new) result status }
{
    put_line(counted.last(), status, sink)
}
