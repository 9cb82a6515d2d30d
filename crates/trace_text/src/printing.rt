//! What is printed of a run.

ghost use Rattle.std.specs.Prelude.{◌≡◌, ◌+◌, ◌^◌, ◌<◌, ◌≤◌, ◌++◌, length, codes, decimal, OnOk, OnErr};
ghost use Rattle.std.specs.List.{flat_map};
ghost use Rattle.trace_text.specs.Faults.{Rose};
ghost use Rattle.trace_text.specs.Streams.{Appends, AppendsPrefix};
ghost use Rattle.trace_text.specs.RunTexts.{name_text, value_text, value_serial, reply_text, reply_serial, entry_line, totals_line, start_line, run_text};

use crate::line_buffer::LineBuffer;
use crate::{Failed, Sink};
use block_store::{Name, Value};
use never_heap::{Entry, Logs, Reply};

/// Writes a run: the entries of thread 0 in their order, then those of thread 1, and so on, each as
/// a line, and a last line with the totals. For example, a run of one thread may give
///
/// ```text
/// 0 new 0.1 work 36
/// 0 ok
/// end cycles 2 work 36
/// ```
///
/// Each line is one `put`. At the first one that fails it stops, and a prefix of the text is
/// written.
pub fn write_run<R: Logs, K: Sink>(run: &R, sink: &mut K) -> Result<(), Failed>
    ensures written { OnOk result (Appends (K.held sink.old) (K.held sink.new)
        (run_text (R.logs run.now) (R.cycle_count run.now) (R.unit_count run.now))) }
    ensures prefix { OnErr result (AppendsPrefix (K.held sink.old) (K.held sink.new)
        (run_text (R.logs run.now) (R.cycle_count run.now) (R.unit_count run.now))) }
    ensures rose { OnErr result (Rose (K.faults sink.old) (K.faults sink.new)) }
    ensures still { OnOk result (K.faults sink.new ≡ K.faults sink.old) }
{
    for t in 0..run.threads() {
        write_log(run.entries(t), sink)?;
    }
    let mut line = LineBuffer::new();
    fill_totals(&mut line, run.cycles(), run.units());
    sink.put(line.bytes())
}

/// A law: each line of a run has at most 74 bytes, whatever its numbers; and at most 64 where the
/// serial that it has is below 2^32, as each is in the run of a job.
pub fn lines_are_short(entry: Entry, cycles: u64, units: u64)
    ensures entry { reply_serial entry.reply < 2 ^ 32 → length (entry_line entry) ≤ 64 }
    ensures any { length (entry_line entry) ≤ 74 }
    ensures totals { length (totals_line cycles units) ≤ 64 }
{
    let mut line = LineBuffer::new();
    fill_entry(&mut line, &entry);
    fill_totals(&mut line, cycles, units);
}

/// Writes a line for each entry.
fn write_log<K: Sink>(log: &[Entry], sink: &mut K) -> Result<(), Failed>
    ensures written { OnOk result
        (Appends (K.held sink.old) (K.held sink.new) (flat_map entry_line log.now)) }
    ensures prefix { OnErr result
        (AppendsPrefix (K.held sink.old) (K.held sink.new) (flat_map entry_line log.now)) }
    ensures rose { OnErr result (Rose (K.faults sink.old) (K.faults sink.new)) }
    ensures still { OnOk result (K.faults sink.new ≡ K.faults sink.old) }
{
    let mut line = LineBuffer::new();
    for entry in log {
        fill_entry(&mut line, entry);
        sink.put(line.bytes())?;
    }
    Ok(())
}

/// Makes an entry's line, in place of what the buffer held.
pub fn fill_entry(line: &mut LineBuffer, entry: &Entry)
    ensures text { line.new ≡ entry_line entry.now }
    ensures short { reply_serial entry.now.reply < 2 ^ 32 → length line.new ≤ 64 }
    ensures any { length line.new ≤ 74 }
{
    line.clear();
    line.prepend(b"\n");
    prepend_reply(line, entry.reply, entry.work);
    line.prepend(b" ");
    line.prepend_short_number(entry.thread);
}

/// Makes the line of the totals, in place of what the buffer held.
pub fn fill_totals(line: &mut LineBuffer, cycles: u64, units: u64)
    ensures text { line.new ≡ totals_line cycles units }
    ensures short { length line.new ≤ 64 }
{
    line.clear();
    line.prepend(b"\n");
    line.prepend_number(units);
    line.prepend(b" work ");
    line.prepend_number(cycles);
    line.prepend(b"end cycles ");
}

/// Makes the line of the start of a cycle, in place of what the buffer held.
pub fn fill_start(line: &mut LineBuffer, cycle: u64)
    ensures text { line.new ≡ start_line cycle }
    ensures short { length line.new ≤ 64 }
{
    line.clear();
    line.prepend(b"\n");
    line.prepend_number(cycle);
    line.prepend(b"start ");
}

fn prepend_reply(line: &mut LineBuffer, reply: Reply, work: u64)
    requires { length line.old ≤ 1 }
    ensures text { line.new ≡ reply_text reply work ++ line.old }
    ensures short { reply_serial reply < 2 ^ 32 → length line.new ≤ 53 }
    ensures any { length line.new ≤ 63 }
{
    match reply {
        Reply::New(name) => {
            prepend_work(line, work);
            prepend_name(line, name);
            line.prepend(b"new ");
        }
        Reply::Full(cycle) => {
            prepend_work(line, work);
            line.prepend_number(cycle);
            line.prepend(b"full ");
        }
        Reply::Stored => line.prepend(b"ok"),
        Reply::Val(value) => prepend_value(line, value),
        Reply::Len(length) => {
            line.prepend_number(length);
            line.prepend(b"len ");
        }
        Reply::Yes => line.prepend(b"yes"),
        Reply::No => line.prepend(b"no"),
        Reply::Null => line.prepend(b"null"),
        Reply::Kind => line.prepend(b"kind"),
        Reply::Range => line.prepend(b"range"),
        Reply::Idle => {
            prepend_work(line, work);
            line.prepend(b"idle");
        }
    }
}

fn prepend_work(line: &mut LineBuffer, work: u64)
    requires { length line.old ≤ 1 }
    ensures text { line.new ≡ codes " work " ++ decimal work ++ line.old }
    ensures length { length line.new ≤ 26 + length line.old }
{
    line.prepend_number(work);
    line.prepend(b" work ");
}

fn prepend_value(line: &mut LineBuffer, value: Value)
    requires { length line.old ≤ 1 }
    ensures text { line.new ≡ value_text value ++ line.old }
    ensures short { value_serial value < 2 ^ 32 → length line.new ≤ 25 + length line.old }
    ensures any { length line.new ≤ 35 + length line.old }
{
    match value {
        Value::Nil => line.prepend(b"nil"),
        Value::Int(number) => {
            line.prepend_number(number);
            line.prepend(b"int ");
        }
        Value::Ref(name) => {
            prepend_name(line, name);
            line.prepend(b"ref ");
        }
    }
}

fn prepend_name(line: &mut LineBuffer, name: Name)
    requires { length line.old ≤ 27 }
    ensures text { line.new ≡ name_text name ++ line.old }
    ensures short { name.serial < 2 ^ 32 → length line.new ≤ 21 + length line.old }
    ensures any { length line.new ≤ 31 + length line.old }
{
    prepend_serial(line, name.serial);
    line.prepend(b".");
    line.prepend_short_number(name.thread);
}

// A short number where it is one, so that its line is known to be short too.
fn prepend_serial(line: &mut LineBuffer, serial: u64)
    requires { length line.old ≤ 27 }
    ensures text { line.new ≡ decimal serial ++ line.old }
    ensures short { serial < 2 ^ 32 → length line.new ≤ 10 + length line.old }
    ensures any { length line.new ≤ 20 + length line.old }
{
    if serial < 1 << 32 {
        line.prepend_short_number(serial as u32);
    } else {
        line.prepend_number(serial);
    }
}
