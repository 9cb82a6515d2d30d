//! Writing what came.

ghost use Rattle.std.specs.Prelude.{◌≡◌, ◌++◌, ◌≤◌, length, map, codes, decimal, OnOk, OnErr};
ghost use Rattle.std.specs.List.{flat_map};
ghost use Rattle.trace_text.specs.Faults.{Rose};
ghost use Rattle.trace_text.specs.Streams.{Appends, AppendsPrefix};
ghost use Rattle.rt_mail.specs.Tellings.{number_text, last_text, mail_line, lines_from};

use crate::mail_post::Taken;
use trace_text::{Failed, LineBuffer, Sink};

/// Writes a line for each thread, that of thread 0 first: how many numbers were taken of it, and
/// those that are recalled. At the first `put` that fails it stops, and a prefix of the lines is
/// written.
pub fn write_lines<K: Sink>(
    taken: &Taken,
    recalled: &[Vec<u64>],
    sink: &mut K,
) -> Result<(), Failed>
    requires few { length recalled.now ≤ 2 }
    requires all { length recalled.now ≤ length taken.now.taken }
    ensures written { OnOk result (Appends (K.held sink.old) (K.held sink.new)
        (lines_from 0 taken.now.taken (map (λ v. v.items) recalled.now))) }
    ensures prefix { OnErr result (AppendsPrefix (K.held sink.old) (K.held sink.new)
        (lines_from 0 taken.now.taken (map (λ v. v.items) recalled.now))) }
    ensures rose { OnErr result (Rose (K.faults sink.old) (K.faults sink.new)) }
    ensures still { OnOk result (K.faults sink.new ≡ K.faults sink.old) }
{
    for t in 0..recalled.len() {
        let got = taken.numbers(t as u32).len();
        write_line(t as u64, got as u64, &recalled[t], sink)?;
    }
    Ok(())
}

/// Writes the line of one thread.
fn write_line<K: Sink>(thread: u64, got: u64, last: &[u64], sink: &mut K) -> Result<(), Failed>
    ensures written { OnOk result (Appends (K.held sink.old) (K.held sink.new)
        (mail_line thread got last.now)) }
    ensures prefix { OnErr result (AppendsPrefix (K.held sink.old) (K.held sink.new)
        (mail_line thread got last.now)) }
    ensures rose { OnErr result (Rose (K.faults sink.old) (K.faults sink.new)) }
    ensures still { OnOk result (K.faults sink.new ≡ K.faults sink.old) }
{
    let mut line = LineBuffer::new();
    fill_count(&mut line, thread, got);
    sink.put(line.bytes())?;
    write_last(got, last, sink)?;
    sink.put(b"\n")
}

/// Writes the last of so many numbers.
fn write_last<K: Sink>(got: u64, last: &[u64], sink: &mut K) -> Result<(), Failed>
    ensures written { OnOk result (Appends (K.held sink.old) (K.held sink.new)
        (last_text got last.now)) }
    ensures prefix { OnErr result (AppendsPrefix (K.held sink.old) (K.held sink.new)
        (last_text got last.now)) }
    ensures rose { OnErr result (Rose (K.faults sink.old) (K.faults sink.new)) }
    ensures still { OnOk result (K.faults sink.new ≡ K.faults sink.old) }
{
    if got == 0 {
        return Ok(());
    }
    sink.put(b" last")?;
    write_numbers(last, sink)
}

/// Writes numbers, each after a space.
fn write_numbers<K: Sink>(numbers: &[u64], sink: &mut K) -> Result<(), Failed>
    ensures written { OnOk result (Appends (K.held sink.old) (K.held sink.new)
        (flat_map number_text numbers.now)) }
    ensures prefix { OnErr result (AppendsPrefix (K.held sink.old) (K.held sink.new)
        (flat_map number_text numbers.now)) }
    ensures rose { OnErr result (Rose (K.faults sink.old) (K.faults sink.new)) }
    ensures still { OnOk result (K.faults sink.new ≡ K.faults sink.old) }
{
    let mut piece = LineBuffer::new();
    for number in numbers {
        fill_number(&mut piece, *number);
        sink.put(piece.bytes())?;
    }
    Ok(())
}

/// Makes the front of a line, in place of what the buffer held.
fn fill_count(line: &mut LineBuffer, thread: u64, got: u64)
    ensures { line.new ≡ decimal thread ++ codes " got " ++ decimal got }
{
    line.clear();
    line.prepend_number(got);
    line.prepend(b" got ");
    line.prepend_number(thread);
}

/// Makes the text of a number, in place of what the buffer held.
fn fill_number(piece: &mut LineBuffer, number: u64)
    ensures { piece.new ≡ number_text number }
{
    piece.clear();
    piece.prepend_number(number);
    piece.prepend(b" ");
}
