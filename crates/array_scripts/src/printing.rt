//! Writing what the operations of threads answered.

ghost use Rattle.std.specs.Prelude.{◌≡◌, ◌≢◌, ◌⊎◌, ◌≤◌, ◌++◌, length, map, OnOk, OnErr};
ghost use Rattle.exit_statuses.specs.Exits.{IsWritten};
ghost use Rattle.exit_statuses.specs.Sides.{sides};
ghost use Rattle.std.specs.List.{flat_map};
ghost use Rattle.trace_text.specs.Faults.{Rose};
ghost use Rattle.trace_text.specs.Streams.{Appends, AppendsPrefix};
ghost use Rattle.array_scripts.specs.Tellings.{answer_line, lines_from};

use crate::kinds::Scripted;
use trace_text::{Failed, LineBuffer, Sink, WRITE_FAULT};

/// Writes the answers of all threads, and says with which status a call ends that was carried out.
pub fn tell_answers<K: Scripted, W: Sink>(told: &[Vec<K::Answer>], sink: &mut W) -> u8
    ensures status { (result ≡ 0) ⊎ (result ≡ 6) }
    ensures text { IsWritten (sides W.held W.faults sink.old sink.new) result
        (lines_from K.text 0 (map (λ v. v.items) told.now)) }
    ensures still { result ≢ 6 → W.faults sink.new ≡ W.faults sink.old }
    ensures rose { result ≡ 6 → Rose (W.faults sink.old) (W.faults sink.new) }
{
    match write_answers::<K, W>(told, sink) {
        Ok(()) => 0,
        Err(_) => WRITE_FAULT,
    }
}

/// Writes the answers of all threads, those of thread 0 first, each as a line by one `put`. At the
/// first `put` that fails it stops, and a prefix of the lines is written.
fn write_answers<K: Scripted, W: Sink>(told: &[Vec<K::Answer>], sink: &mut W) -> Result<(), Failed>
    ensures written { OnOk result (Appends (W.held sink.old) (W.held sink.new)
        (lines_from K.text 0 (map (λ v. v.items) told.now))) }
    ensures prefix { OnErr result (AppendsPrefix (W.held sink.old) (W.held sink.new)
        (lines_from K.text 0 (map (λ v. v.items) told.now))) }
    ensures rose { OnErr result (Rose (W.faults sink.old) (W.faults sink.new)) }
    ensures still { OnOk result (W.faults sink.new ≡ W.faults sink.old) }
{
    for t in 0..told.len() {
        write_thread::<K, W>(t as u64, &told[t], sink)?;
    }
    Ok(())
}

/// Writes the answers of one thread.
fn write_thread<K: Scripted, W: Sink>(
    thread: u64,
    told: &[K::Answer],
    sink: &mut W,
) -> Result<(), Failed>
    ensures written { OnOk result (Appends (W.held sink.old) (W.held sink.new)
        (flat_map (answer_line K.text thread) told.now)) }
    ensures prefix { OnErr result (AppendsPrefix (W.held sink.old) (W.held sink.new)
        (flat_map (answer_line K.text thread) told.now)) }
    ensures rose { OnErr result (Rose (W.faults sink.old) (W.faults sink.new)) }
    ensures still { OnOk result (W.faults sink.new ≡ W.faults sink.old) }
{
    let mut line = LineBuffer::new();
    for answer in told {
        fill_answer::<K>(&mut line, thread, answer);
        sink.put(line.bytes())?;
    }
    Ok(())
}

/// Makes an answer's line, in place of what the buffer held.
fn fill_answer<K: Scripted>(line: &mut LineBuffer, thread: u64, answer: &K::Answer)
    ensures { line.new ≡ answer_line K.text thread answer.now }
{
    line.clear();
    line.prepend(b"\n");
    K::prepend_answer(line, answer);
    line.prepend(b" ");
    line.prepend_number(thread);
}
