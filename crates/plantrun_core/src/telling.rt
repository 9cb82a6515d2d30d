//! What is printed of a plant.

ghost use Rattle.std.specs.Prelude.{◌≡◌, ◌+◌, ◌≤◌, ◌++◌, ℕ, List, length, OnOk, OnErr};
ghost use Rattle.std.specs.List.{flat_map};
ghost use Rattle.trace_text.specs.Streams.{Appends, AppendsPrefix};
ghost use Rattle.plantrun_core.specs.PlantTexts.{step_line, tag_text, operation_text, thread_text, figures_line, cycles_line};

use crate::calls::Step;
use array_tables::tag_table::Operation;
use trace_text::{Failed, LineBuffer, Sink};

/// The figures of a thread.
#[derive(Clone, Copy)]
pub struct Figures {
    /// 0 for the input, 1 for the controller, 2 for the alarms, 3 for the history.
    pub thread: u32,
    /// How many ticks it did, or readings it wrote.
    pub ticks: u64,
    /// How many ticks ended after the next one was due.
    pub late: u64,
    /// How many nanoseconds its longest operation took.
    pub longest: u64,
}

impl Figures {
    pub(crate) fn none(thread: u32) -> Figures {
        Figures {
            thread,
            ticks: 0,
            late: 0,
            longest: 0,
        }
    }

    /// Counts a tick that ended now, where the next one is due at `next`.
    pub(crate) fn end(&mut self, now: u64, next: u64) {
        self.ticks = self.ticks.saturating_add(1);
        if now > next {
            self.late = self.late.saturating_add(1);
        }
    }
}

/// What has a line of its own.
pub(crate) trait Told {
    ghost text: { Self → List ℕ };

    /// Makes the line, in place of what the buffer held.
    fn fill(&self, line: &mut LineBuffer)
        ensures { line.new ≡ text self.now };
}

/// Writes a line for each, each by one `put`.
pub(crate) fn write_all<T: Told, K: Sink>(all: &[T], sink: &mut K) -> Result<(), Failed>
    ensures written { OnOk result
        (Appends (K.held sink.old) (K.held sink.new) (flat_map T.text all.now)) }
    ensures prefix { OnErr result
        (AppendsPrefix (K.held sink.old) (K.held sink.new) (flat_map T.text all.now)) }
{
    let mut line = LineBuffer::new();
    for one in all {
        one.fill(&mut line);
        sink.put(line.bytes())?;
    }
    Ok(())
}

impl Told for Step {
    ghost text = { step_line };

    fn fill(&self, line: &mut LineBuffer) {
        line.clear();
        line.prepend(b"\n");
        prepend_tag(line, self.done.answer);
        line.prepend(b" was ");
        prepend_operation(line, self.done.operation);
        line.prepend(b" ");
        line.prepend(thread_word(self.thread).as_bytes());
    }
}

impl Told for Figures {
    ghost text = { figures_line };

    fn fill(&self, line: &mut LineBuffer) {
        line.clear();
        line.prepend(b"\n");
        line.prepend_number(self.longest);
        line.prepend(b" longest ");
        line.prepend_number(self.late);
        line.prepend(b" late ");
        line.prepend_number(self.ticks);
        line.prepend(b" ticks ");
        line.prepend(thread_word(self.thread).as_bytes());
    }
}

/// How many cycles of collection were started.
#[derive(Clone, Copy)]
pub(crate) struct Cycles {
    pub(crate) count: u64,
}

impl Told for Cycles {
    ghost text = { cycles_line };

    fn fill(&self, line: &mut LineBuffer) {
        line.clear();
        line.prepend(b"\n");
        line.prepend_number(self.count);
        line.prepend(b"end cycles ");
    }
}

/// What a thread is called.
fn thread_word(thread: u32) -> &'static str
    ensures text { result.now ≡ thread_text thread }
    ensures short { length result.now ≤ 7 }
{
    match thread {
        0 => "input",
        1 => "control",
        2 => "alarms",
        _ => "history",
    }
}

fn prepend_tag(line: &mut LineBuffer, tag: Option<(u64, u64)>)
    requires { length line.old ≤ 1 }
    ensures text { line.new ≡ tag_text tag ++ line.old }
    ensures length { length line.new ≤ 41 + length line.old }
{
    match tag {
        Some((value, word)) => {
            line.prepend_number(word);
            line.prepend(b" ");
            line.prepend_number(value);
        }
        None => line.prepend(b"none"),
    }
}

fn prepend_operation(line: &mut LineBuffer, op: Operation)
    requires { length line.old ≤ 47 }
    ensures text { line.new ≡ operation_text op ++ line.old }
    ensures length { length line.new ≤ 58 + length line.old }
{
    match op {
        Operation::Write {
            place,
            value,
            quality,
        } => {
            line.prepend_number(quality);
            line.prepend(b" ");
            line.prepend_number(value);
            line.prepend(b" ");
            line.prepend_short_number(place);
            line.prepend(b"write ");
        }
        Operation::Clear { place } => {
            line.prepend_short_number(place);
            line.prepend(b"clear ");
        }
        Operation::Read { place } => {
            line.prepend_short_number(place);
            line.prepend(b"read ");
        }
    }
}
