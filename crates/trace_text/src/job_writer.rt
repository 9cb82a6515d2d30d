//! Writing a job.

ghost use Rattle.std.specs.Prelude.{◌≡◌, ◌+◌, ◌≤◌, [], ◌∷◌, ◌++◌, map, length, codes, decimal, IfOk, OnOk, OnErr};
ghost use Rattle.std.specs.List.{flat_map};
ghost use Rattle.trace_text.specs.Jobs as jobs;
ghost use Rattle.trace_text.specs.Faults.{Rose};
ghost use Rattle.trace_text.specs.Lines.{space};
ghost use Rattle.trace_text.specs.Streams.{Appends, AppendsPrefix};
ghost use Rattle.trace_text.specs.Spellings.{version, header, command_line, trace_lines, traces_lines};
ghost use Rattle.trace_text.specs.Jobs.{input_limit, IsJobInBounds, IsJob, IsInput};
ghost use Rattle.trace_text.specs.JobTexts.{line_text, job_text};

use crate::jobs::Job;
use crate::line_buffer::LineBuffer;
use crate::{Failed, Sink};
use block_store::{Config, Width};
use never_heap::Command;

/// Writes a job: a line with the configuration, then for each thread its line and a line for each
/// of its commands, and a last line. For example, a job of one thread with two commands may give
///
/// ```text
/// rtheap 1 threads 1 blocks 40 live 12 object 1 shared 2
/// thread 0
/// new 3 2
/// get 4 3 0
/// end
/// ```
///
/// The job has to be in its ranges, with one trace per thread and at most 131,072 commands in each.
/// Each line is one `put`. At the first one that fails it stops, and a prefix of the text is
/// written.
/// Where the text has at most 16,777,216 bytes, reading it gives the job back.
pub fn write_job<K: Sink>(job: &Job, sink: &mut K) -> Result<(), Failed>
    requires { IsJobInBounds job.now }
    ensures written { OnOk result (Appends (K.held sink.old) (K.held sink.new) (job_text job.now)) }
    ensures prefix { OnErr result
        (AppendsPrefix (K.held sink.old) (K.held sink.new) (job_text job.now)) }
    ensures rose { OnErr result (Rose (K.faults sink.old) (K.faults sink.new)) }
    ensures still { OnOk result (K.faults sink.new ≡ K.faults sink.old) }
    ensures is_job { IsJob (job_text job.now) job.now }
{
    sink.put(line_of_header(job).bytes())?;
    write_traces(job, sink)?;
    sink.put(b"end\n")
}

/// A law: the text of a job is that job, and an input where it is not too long.
pub fn job_text_is_job()
    ensures is_job { (job : jobs.Job) → IsJobInBounds job → IsJob (job_text job) job }
    ensures is_input { (job : jobs.Job) → IsJobInBounds job → length (job_text job) ≤ input_limit
        → IsInput (job_text job) job }
{}

/// Writes the traces from that of thread 0 on.
fn write_traces<K: Sink>(job: &Job, sink: &mut K) -> Result<(), Failed>
    ensures written { OnOk result (Appends (K.held sink.old) (K.held sink.new)
        (flat_map line_text (traces_lines 0 job.now.traces))) }
    ensures prefix { OnErr result (AppendsPrefix (K.held sink.old) (K.held sink.new)
        (flat_map line_text (traces_lines 0 job.now.traces))) }
    ensures rose { OnErr result (Rose (K.faults sink.old) (K.faults sink.new)) }
    ensures still { OnOk result (K.faults sink.new ≡ K.faults sink.old) }
{
    for t in 0..job.threads() {
        write_trace(t, job.trace(t), sink)?;
    }
    Ok(())
}

/// Writes the line of thread `t`, and one for each of its commands.
fn write_trace<K: Sink>(t: usize, trace: &[Command], sink: &mut K) -> Result<(), Failed>
    ensures written { OnOk result (Appends (K.held sink.old) (K.held sink.new)
        (flat_map line_text (trace_lines t trace.now))) }
    ensures prefix { OnErr result (AppendsPrefix (K.held sink.old) (K.held sink.new)
        (flat_map line_text (trace_lines t trace.now))) }
    ensures rose { OnErr result (Rose (K.faults sink.old) (K.faults sink.new)) }
    ensures still { OnOk result (K.faults sink.new ≡ K.faults sink.old) }
{
    sink.put(line_of_thread(t).bytes())?;
    write_commands(trace, sink)
}

/// Writes a line for each command.
fn write_commands<K: Sink>(trace: &[Command], sink: &mut K) -> Result<(), Failed>
    ensures written { OnOk result (Appends (K.held sink.old) (K.held sink.new)
        (flat_map line_text (map command_line trace.now))) }
    ensures prefix { OnErr result (AppendsPrefix (K.held sink.old) (K.held sink.new)
        (flat_map line_text (map command_line trace.now))) }
    ensures rose { OnErr result (Rose (K.faults sink.old) (K.faults sink.new)) }
    ensures still { OnOk result (K.faults sink.new ≡ K.faults sink.old) }
{
    let mut line = LineBuffer::new();
    for command in trace {
        fill_command(&mut line, command);
        sink.put(line.bytes())?;
    }
    Ok(())
}

/// The line that begins the trace of thread `t`, with its line feed.
pub fn line_of_thread(t: usize) -> LineBuffer
    ensures { result ≡ line_text (codes "thread" ∷ decimal t ∷ []) }
{
    let mut line = LineBuffer::new();
    line.prepend(b"\n");
    prepend_one(&mut line, b"thread", t as u64);
    line
}

fn line_of_header(job: &Job) -> LineBuffer
    ensures { result ≡ line_text (header job.now.config) }
{
    line_of_config(&job.config)
}

/// The first line of a job of this configuration, with its line feed.
pub fn line_of_config(config: &Config) -> LineBuffer
    ensures { result ≡ line_text (header config.now) }
{
    let mut line = LineBuffer::new();
    line.prepend(b"\n");
    line.prepend_short_number(config.shared);
    line.prepend(b" shared ");
    line.prepend_short_number(config.object);
    line.prepend(b" object ");
    line.prepend_short_number(config.live);
    line.prepend(b" live ");
    line.prepend_short_number(config.blocks);
    line.prepend(b" blocks ");
    line.prepend_short_number(config.threads);
    line.prepend(b" threads ");
    line.prepend(version_of(config.width));
    line.prepend(b"rtheap ");
    line
}

/// The version of a job whose blocks have this width.
fn version_of(width: Width) -> &'static [u8]
    ensures version { result.now ≡ version width }
    ensures short { length result.now ≤ 1 }
{
    match width {
        Width::Four => b"1",
        Width::Eight => b"2",
    }
}

/// Makes a command's line, in place of what the buffer held.
pub fn fill_command(line: &mut LineBuffer, command: &Command)
    ensures { line.new ≡ line_text (command_line command.now) }
{
    line.clear();
    line.prepend(b"\n");
    match *command {
        Command::New { d, fields } => prepend_two(line, b"new", d, u64::from(fields)),
        Command::Arr { d, elements } => prepend_two(line, b"arr", d, u64::from(elements)),
        Command::Set { d, value } => prepend_two(line, b"set", d, value),
        Command::Nil { d } => prepend_one(line, b"nil", u64::from(d)),
        Command::Mov { d, s } => prepend_two(line, b"mov", d, u64::from(s)),
        Command::Get { d, s, i } => prepend_three(line, b"get", d, u64::from(s), i),
        Command::Put { s, i, v } => prepend_three(line, b"put", s, i, u64::from(v)),
        Command::Len { s } => prepend_one(line, b"len", u64::from(s)),
        Command::Same { a, b } => prepend_two(line, b"same", a, u64::from(b)),
        Command::Say { s } => prepend_one(line, b"say", u64::from(s)),
        Command::Swap { s, i, v } => prepend_three(line, b"swap", s, i, u64::from(v)),
        Command::Cas { s, i, a, v } => {
            prepend_operand(line, u64::from(v));
            prepend_three(line, b"cas", s, i, u64::from(a));
        }
        Command::Idle { units } => prepend_one(line, b"idle", units),
    }
}

/// Puts a word and three operands in front.
fn prepend_three(line: &mut LineBuffer, word: &[u8], first: u8, second: u64, third: u64)
    requires word { length word.now ≤ 6 }
    requires room { length line.old ≤ 22 }
    ensures { line.new ≡ word.now ++ space ∷ decimal first ++ space ∷ decimal second
        ++ space ∷ decimal third ++ line.old }
{
    prepend_operand(line, third);
    prepend_two(line, word, first, second);
}

/// Puts a word and two operands in front.
fn prepend_two(line: &mut LineBuffer, word: &[u8], first: u8, second: u64)
    requires word { length word.now ≤ 6 }
    requires room { length line.old ≤ 43 }
    ensures { line.new ≡ word.now ++ space ∷ decimal first ++ space ∷ decimal second ++ line.old }
{
    prepend_operand(line, second);
    prepend_one(line, word, u64::from(first));
}

/// Puts a word and its one operand in front.
fn prepend_one(line: &mut LineBuffer, word: &[u8], operand: u64)
    requires word { length word.now ≤ 6 }
    requires room { length line.old ≤ 64 }
    ensures { line.new ≡ word.now ++ space ∷ decimal operand ++ line.old }
{
    prepend_operand(line, operand);
    line.prepend(word);
}

/// Puts a space and an operand in front.
fn prepend_operand(line: &mut LineBuffer, operand: u64)
    requires room { length line.old ≤ 64 }
    ensures text { line.new ≡ space ∷ decimal operand ++ line.old }
    ensures length { length line.new ≤ 21 + length line.old }
{
    line.prepend_number(operand);
    line.prepend(b" ");
}
