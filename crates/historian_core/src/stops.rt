//! Why a report stops before the end of its text, and the line and the status that say so.

ghost use Rattle.std.specs.Prelude.{◌≡◌, ◌≤◌, ◌++◌, [], length};
ghost use Rattle.historian_core.specs.declared.Limits.{Limits};
ghost use Rattle.historian_core.specs.StoredReadings.{Stores};
ghost use Rattle.historian_core.specs.Stops.{EndsSo, IsEnded, IsSaid, status_of, stop_line, stop_text, why_text};

use crate::{Historian, report};
use trace_text::{LineBuffer, Sink, Source, WRITE_FAULT, put_line};

/// What is wrong with a line of a text.
#[derive(Clone, Copy, Debug, PartialEq, Eq)]
pub enum Why {
    /// The first line is missing, or is not two numbers below 2^32 with one space between them.
    Limits,
    /// The first line has two such numbers, and the first is greater than the second.
    Order,
    /// A later line is not a number below 2^32.
    Reading,
}

/// Why a report stops before the end of its text.
#[derive(Clone, Copy, Debug, PartialEq, Eq)]
pub enum Stop {
    /// This line, counted from 1, is the first that is wrong.
    BadLine { line: u64, why: Why },
    /// The heap's life has no room for one more reading, and one more came.
    NoLifeLeft,
    /// The source failed.
    ReadFault,
    /// The sink failed.
    WriteFault,
}

impl Why {
    /// The reason as it is printed.
    pub fn text(self) -> &'static str
        ensures text { result.now ≡ why_text self }
        ensures short { length result.now ≤ 32 }
    {
        match self {
            Why::Limits => "not two limits below 2^32",
            Why::Order => "low limit above high limit",
            Why::Reading => "not a reading below 2^32",
        }
    }
}

impl Stop {
    /// The exit status of a program that stops so: 3, 5, 6 or 9.
    pub fn status(self) -> u8
        ensures { result ≡ status_of self }
    {
        match self {
            Stop::BadLine { .. } => 3,
            Stop::ReadFault => 5,
            Stop::WriteFault => WRITE_FAULT,
            Stop::NoLifeLeft => 9,
        }
    }

    /// The line of the stop, with its line feed.
    pub fn line(self) -> LineBuffer
        ensures { result ≡ stop_line self }
    {
        let mut line = LineBuffer::new();
        line.prepend(b"\n");
        self.prepend_text(&mut line);
        line.prepend(b"historian: ");
        line
    }

    fn prepend_text(self, line: &mut LineBuffer)
        requires { length line.old ≤ 1 }
        ensures text { line.new ≡ stop_text self ++ line.old }
        ensures length { length line.new ≤ 80 }
    {
        match self {
            Stop::BadLine { line: number, why } => {
                line.prepend(why.text().as_bytes());
                line.prepend(b": ");
                line.prepend_number(number);
                line.prepend(b"line ");
            }
            Stop::NoLifeLeft => line.prepend(b"no life left"),
            Stop::ReadFault => line.prepend(b"read fault"),
            Stop::WriteFault => line.prepend(b"write fault"),
        }
    }
}

/// Does `report`, writes the line of the stop where there is one, and returns the exit status of
/// the program: 0 where every line is right, or as for `say_stop`.
pub fn report_with_status<S: Source, K: Sink>(
    historian: &mut Historian,
    source: &mut S,
    sink: &mut K,
) -> u8
    requires { (l : Limits) → Stores historian.old l [] }
    ensures { IsEnded (S.left source.old) (S.left source.new) (K.held sink.old) (K.held sink.new)
        (S.faults source.old) (S.faults source.new) (K.faults sink.old) (K.faults sink.new) result }
{
    let end = report(historian, source, sink);
    say_end(end, sink)
}

/// Writes the line of the stop where the report has one, and returns the exit status.
fn say_end<K: Sink>(end: Result<(), Stop>, sink: &mut K) -> u8
    ensures { EndsSo end (K.held sink.old) (K.held sink.new) (K.faults sink.old)
        (K.faults sink.new) result }
{
    match end {
        Ok(()) => 0,
        Err(stop) => say_stop(stop, sink),
    }
}

/// Writes the line of a stop and returns the exit status: that of the stop, or 6 where the sink
/// fails, which may leave a prefix of the line written. Nothing is written for `WriteFault`, where
/// the sink has failed before.
pub fn say_stop<K: Sink>(stop: Stop, sink: &mut K) -> u8
    ensures { IsSaid stop (K.held sink.old) (K.held sink.new) (K.faults sink.old)
        (K.faults sink.new) result }
{
    match stop {
        Stop::WriteFault => WRITE_FAULT,
        Stop::NoLifeLeft => put_line(Stop::NoLifeLeft.line().bytes(), 9, sink),
        Stop::ReadFault => put_line(Stop::ReadFault.line().bytes(), 5, sink),
        Stop::BadLine { line, why } => {
            put_line(Stop::BadLine { line, why }.line().bytes(), 3, sink)
        }
    }
}
