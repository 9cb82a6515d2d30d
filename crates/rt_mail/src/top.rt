//! The top call.

ghost use Rattle.std.specs.Prelude.{◌≡◌, ◌≢◌, ◌≤◌, ◌⊎◌, map, string_bytes, [], Some, length, IfOk, IfErr, OnOk};
ghost use Rattle.exit_statuses.specs.Exits.{IsWritten};
ghost use Rattle.exit_statuses.specs.Sides.{sides};
ghost use Rattle.trace_text.specs.Faults.{Rose};
ghost use Rattle.rt_mail.specs.MailCalls.{IsCarriedOut, HasMail};
ghost use Rattle.rt_mail.specs.Recalled.{recalled_in};
ghost use Rattle.rt_mail.specs.Tellings.{lines_from};
ghost use Rattle.rt_mail.specs.RefusedTexts.{IsCause};

use crate::exit::MailExit;
use crate::printing::write_lines;
use crate::running::{Delivered, mailed};
use exit_statuses::{Refusal, refused};
use heap_system::Pace;
use std::alloc::Global;
use std::sync::Wait;
use std::thread::Threads;
use trace_text::{Sink, Source, WRITE_FAULT};

/// Joins two heaps by a queue: reads a job of one or two threads and runs them beside each other on
/// the first heap. Whenever a thread is answered a number by `say`, it sends that number, and the
/// caller takes it. The second heap keeps the last eight numbers of each thread, and a line is
/// written for each: how many numbers came of it, and which were the last. The pace is told before
/// each command on the first heap. Words are refused with the line `rt_mail: usage`.
///
/// A job of more than two threads is refused, and then one in which a thread has more than 30,000
/// `say` commands.
///
/// That the call returns is not promised, for it makes turns of the threads until each is done.
pub fn mail<R: Threads + Wait + Sync, S: Source, K: Sink, Q: Pace>(
    rt: &R,
    alloc: Global,
    words: &[String],
    source: &mut S,
    sink: &mut K,
    pace: &Q,
) -> MailExit
    ensures { IsCarriedOut (map (λ w. string_bytes w) words.now)
        (sides S.left S.faults source.old source.new)
        (sides K.held K.faults sink.old sink.new) result }
{
    match asked(rt, alloc, words, source, pace) {
        Ok(mailed) => written(mailed, sink),
        Err(refusal) => MailExit {
            status: refused(refusal, b"rt_mail", sink),
            due: refusal.status(),
            first: None,
            taken: None,
            second: None,
        },
    }
}

/// What was sent and kept, where there are no words.
fn asked<R: Threads + Wait + Sync, S: Source, Q: Pace>(
    rt: &R,
    alloc: Global,
    words: &[String],
    source: &mut S,
    pace: &Q,
) -> Result<Delivered, Refusal>
    ensures none { OnOk result (map (λ w. string_bytes w) words.now ≡ []) }
    ensures mail { IfOk result (λ m. HasMail (sides S.left S.faults source.old source.new)
        m.first m.taken.taken m.second) }
    ensures recalled { IfOk result (λ m. map (λ v. v.items) m.recalled.items
        ≡ recalled_in m.taken.taken m.second.logs) }
    ensures refused { IfErr result (IsCause (map (λ w. string_bytes w) words.now)
        (sides S.left S.faults source.old source.new)) }
{
    if !words.is_empty() {
        return Err(Refusal::Usage);
    }
    mailed(rt, alloc, source, pace)
}

/// Writes what came.
fn written<K: Sink>(mailed: Delivered, sink: &mut K) -> MailExit
    requires few { length mailed.recalled.items ≤ 2 }
    requires all { length mailed.recalled.items ≡ length mailed.taken.taken }
    ensures due { result.due ≡ 0 }
    ensures first { result.first ≡ Some mailed.first }
    ensures taken { result.taken ≡ Some mailed.taken }
    ensures second { result.second ≡ Some mailed.second }
    ensures status { (result.status ≡ 0) ⊎ (result.status ≡ 6) }
    ensures text { IsWritten (sides K.held K.faults sink.old sink.new) result.status
        (lines_from 0 mailed.taken.taken (map (λ v. v.items) mailed.recalled.items)) }
    ensures still { result.status ≢ 6 → K.faults sink.new ≡ K.faults sink.old }
    ensures rose { result.status ≡ 6 → Rose (K.faults sink.old) (K.faults sink.new) }
{
    let Delivered {
        first,
        taken,
        second,
        recalled,
    } = mailed;
    let status = match write_lines(&taken, &recalled, sink) {
        Ok(()) => 0,
        Err(_) => WRITE_FAULT,
    };
    MailExit {
        status,
        due: 0,
        first: Some(first),
        taken: Some(taken),
        second: Some(second),
    }
}
