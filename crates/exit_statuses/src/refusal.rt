//! Why a call was refused.

ghost use Rattle.std.specs.Prelude.{◌≡◌, ◌≤◌, ◌++◌, length};
ghost use Rattle.exit_statuses.specs.declared.refusal.Refusal.TheVariants as refusals;
ghost use Rattle.exit_statuses.specs.Refusals.{status_of, refusal_line, refusal_text};
ghost use Rattle.exit_statuses.specs.Refusals.{refusal_of, refusal_of_plan};

use block_store::OutOfMemory;
use rate_plan::PlanFault;
use std::alloc::AllocFailed;
use trace_text::{LineBuffer, TraceFault, Why};

/// Why a call was refused, each with a status and a line of its own. Which of these a program can
/// answer is said by what it names as their causes.
#[derive(Clone, Copy, Debug, PartialEq, Eq)]
pub enum Refusal {
    /// The words ask for nothing.
    Usage,
    /// This line of a job, counted from 1, is the first outside the grammar.
    BadLine { line: u64, why: Why },
    /// This line of a script, counted from 1, is the first that may not come at its place.
    BadScriptLine { line: u64 },
    /// The input has too many bytes, or its job has.
    TooLong,
    /// The job has more threads than this program takes.
    TooManyThreads,
    /// A thread of the job says more often than this program takes.
    TooManySays,
    /// The heap opens with more blocks than the live limit.
    LiveTooSmall,
    /// No rate is enough for the configuration.
    NoRate,
    /// The source failed.
    ReadFault,
    /// Memory ran out.
    OutOfMemory,
    /// The turns of a replay were made, and this is the least thread that is not done.
    TurnsUsed { thread: u32 },
    /// This line of an order, counted from 1, is the first that is not good.
    BadOrder { line: u64 },
}

impl Refusal {
    /// The status of the call.
    pub fn status(self) -> u8
        ensures { result ≡ status_of self }
    {
        match self {
            Refusal::Usage => 2,
            Refusal::BadLine { .. } | Refusal::BadScriptLine { .. } | Refusal::TooLong => 3,
            Refusal::TooManyThreads | Refusal::TooManySays => 3,
            Refusal::LiveTooSmall | Refusal::NoRate => 4,
            Refusal::ReadFault => 5,
            Refusal::OutOfMemory => 7,
            Refusal::TurnsUsed { .. } => 8,
            Refusal::BadOrder { .. } => 9,
        }
    }

    /// The line that a program of this name writes, with its line feed.
    pub fn line(self, name: &[u8]) -> LineBuffer
        requires { length name.now ≤ 32 }
        ensures { result ≡ refusal_line name.now self }
    {
        let mut line = LineBuffer::new();
        line.prepend(b"\n");
        self.prepend_reason(&mut line);
        line.prepend(b": ");
        line.prepend(name);
        line
    }

    fn prepend_reason(self, line: &mut LineBuffer)
        requires { length line.old ≤ 1 }
        ensures text { line.new ≡ refusal_text self ++ line.old }
        ensures length { length line.new ≤ 60 }
    {
        match self {
            Refusal::Usage => line.prepend(b"usage"),
            Refusal::BadLine { line: number, why } => {
                line.prepend(why.text().as_bytes());
                line.prepend(b": ");
                line.prepend_number(number);
                line.prepend(b"line ");
            }
            Refusal::BadScriptLine { line: number } => {
                line.prepend_number(number);
                line.prepend(b"line ");
            }
            Refusal::TooLong => line.prepend(b"input too long"),
            Refusal::TooManyThreads => line.prepend(b"too many threads"),
            Refusal::TooManySays => line.prepend(b"too many says"),
            Refusal::LiveTooSmall => line.prepend(b"live limit too small"),
            Refusal::NoRate => line.prepend(b"no rate"),
            Refusal::ReadFault => line.prepend(b"read fault"),
            Refusal::OutOfMemory => line.prepend(b"no memory"),
            Refusal::TurnsUsed { thread } => {
                line.prepend_short_number(thread);
                line.prepend(b"turns used, thread ");
            }
            Refusal::BadOrder { line: number } => {
                line.prepend_number(number);
                line.prepend(b"order line ");
            }
        }
    }
}

impl From<OutOfMemory> for Refusal {
    ghost from_gives = { λ _ refusal. refusal ≡ refusals.OutOfMemory };

    fn from(_error: OutOfMemory) -> Refusal {
        Refusal::OutOfMemory
    }
}

impl<T: Drop> From<AllocFailed<T>> for Refusal {
    ghost from_gives = { λ _ refusal. refusal ≡ refusals.OutOfMemory };

    fn from(_error: AllocFailed<T>) -> Refusal {
        Refusal::OutOfMemory
    }
}

impl From<TraceFault> for Refusal {
    ghost from_gives = { λ fault refusal. refusal ≡ refusal_of fault };

    fn from(fault: TraceFault) -> Refusal {
        match fault {
            TraceFault::ReadFault => Refusal::ReadFault,
            TraceFault::TooLong => Refusal::TooLong,
            TraceFault::BadLine { line, why } => Refusal::BadLine { line, why },
            TraceFault::OutOfMemory => Refusal::OutOfMemory,
        }
    }
}

impl From<PlanFault> for Refusal {
    ghost from_gives = { λ fault refusal. refusal ≡ refusal_of_plan fault };

    fn from(fault: PlanFault) -> Refusal {
        match fault {
            PlanFault::LiveTooSmall => Refusal::LiveTooSmall,
            PlanFault::NoRate => Refusal::NoRate,
        }
    }
}
