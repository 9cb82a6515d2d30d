//! Why no job was read.

ghost use Rattle.std.specs.Prelude.{◌≡◌, ◌≤◌, Some, length};
ghost use Rattle.trace_text.specs.declared.trace_faults.TraceFault.TheVariants as faults;
ghost use Rattle.trace_text.specs.Reasons.{reason_text};

use crate::Failed;
use std::alloc::{AllocError, AllocFailed};
use std::fmt;

/// What is wrong with a line.
#[derive(Clone, Copy, Debug, PartialEq, Eq)]
pub enum Why {
    /// The first line is missing, or has not the form of a header.
    Header,
    /// A later line begins with no word of the grammar.
    Word,
    /// An operand is no number of 1 to 19 digits without a leading zero.
    Number,
    /// A later line has too few pieces, or too many.
    Count,
    /// A register is above 15.
    Register,
    /// A number is out of its range, an object is too large, or a thread has too many commands.
    Size,
    /// A command before any thread, or a thread or the end out of turn.
    Order,
    /// A line after the line of the end, or no line of the end.
    End,
}

impl Why {
    /// The reason as it is printed, a word in lower case.
    pub fn text(self) -> &'static str
        ensures text { result.now ≡ reason_text self }
        ensures short { length result.now ≤ 8 }
    {
        match self {
            Why::Header => "header",
            Why::Word => "word",
            Why::Number => "number",
            Why::Count => "count",
            Why::Register => "register",
            Why::Size => "size",
            Why::Order => "order",
            Why::End => "end",
        }
    }
}

impl fmt::Display for Why {
    ghost output = { λ why. Some (reason_text why) };

    fn fmt<W: fmt::Write>(&self, f: &mut fmt::Formatter<W>) -> fmt::Result {
        f.write_str(self.text())
    }
}

/// Why no job was read.
#[derive(Clone, Copy, Debug, PartialEq, Eq)]
pub enum TraceFault {
    /// The source failed.
    ReadFault,
    /// The input has more than 16,777,216 bytes.
    TooLong,
    /// The input is no job. Lines are counted from 1, and this is the first that is wrong. Where no
    /// line is that of the end, it is the number of lines and one more.
    BadLine { line: u64, why: Why },
    /// Memory ran out.
    OutOfMemory,
}

impl From<Failed> for TraceFault {
    ghost from_gives = { λ _ fault. fault ≡ faults.ReadFault };

    fn from(_error: Failed) -> TraceFault {
        TraceFault::ReadFault
    }
}

impl From<AllocError> for TraceFault {
    ghost from_gives = { λ _ fault. fault ≡ faults.OutOfMemory };

    fn from(_error: AllocError) -> TraceFault {
        TraceFault::OutOfMemory
    }
}

impl<T: Drop> From<AllocFailed<T>> for TraceFault {
    ghost from_gives = { λ _ fault. fault ≡ faults.OutOfMemory };

    fn from(_error: AllocFailed<T>) -> TraceFault {
        TraceFault::OutOfMemory
    }
}
