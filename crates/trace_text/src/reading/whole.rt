//! A whole job.

ghost use Rattle.std.specs.Prelude.{◌≡◌, ◌+◌, ◌≤◌, [], length, vec_len, MatchResult, IfOk};
ghost use Rattle.trace_text.specs.Jobs.{IsJob};
ghost use Rattle.trace_text.specs.Reading.{tokenized};
ghost use Rattle.trace_text.specs.Refusals.{IsFirstBadLine};
ghost use Rattle.trace_text.specs.Wholes.{IsLineFault, IsTrace, IsBadTrace, IsBegun};

use crate::jobs::Job;
use crate::reading::header::header_of;
use crate::reading::input::INPUT_LIMIT;
use crate::reading::lines::{Line, Place, line_of};
use crate::reading::tokens::first_line;
use crate::trace_faults::{TraceFault, Why};
use block_store::Config;
use never_heap::Command;
use std::alloc::Global;

/// The most commands of a thread.
const MOST_COMMANDS: usize = 131_072;

/// What is left of an input.
#[derive(Clone, Copy, Debug)]
struct Rest<'a> {
    /// The lines that were not read yet.
    lines: &'a [u8],
    /// How many lines were read.
    read: u64,
}

/// The job that an input of at most 16,777,216 bytes is.
///
/// # Errors
///
/// `BadLine` with the first line that is wrong, and `OutOfMemory`.
pub fn job_of(alloc: Global, input: &[u8]) -> Result<Job, TraceFault>
    requires { length input.now ≤ INPUT_LIMIT }
    ensures { MatchResult result (IsJob input.now) (IsLineFault (IsFirstBadLine input.now)) }
{
    let (config, mut rest) = opening_of(input)?;
    let mut traces = Vec::new(alloc);
    for thread in 0..config.threads {
        let (trace, after) = trace_of(alloc, config, thread + 1, rest)?;
        traces.push(trace)?;
        rest = after;
    }
    if first_line(rest.lines).is_some() {
        return Err(TraceFault::BadLine {
            line: rest.read + 1,
            why: Why::End,
        });
    }
    Ok(Job { config, traces })
}

/// What the header and the line of the first thread say, and what comes after them.
fn opening_of(input: &[u8]) -> Result<(Config, Rest<'_>), TraceFault>
    requires { length input.now ≤ INPUT_LIMIT }
    ensures begun { MatchResult result
        (λ x. IsBegun x.0 [] input.now x.1.read (tokenized x.1.lines.now))
        (IsLineFault (IsFirstBadLine input.now)) }
    ensures within { IfOk result (λ x. x.1.read + length x.1.lines.now ≤ INPUT_LIMIT) }
{
    let Some((line, lines)) = first_line(input) else {
        return Err(TraceFault::BadLine {
            line: 1,
            why: Why::Header,
        });
    };
    let config = match header_of(line) {
        Ok(config) => config,
        Err(why) => return Err(TraceFault::BadLine { line: 1, why }),
    };
    let Some((line, lines)) = first_line(lines) else {
        return Err(TraceFault::BadLine {
            line: 2,
            why: Why::End,
        });
    };
    let place = Place {
        config,
        threads: 0,
        full: false,
    };
    match line_of(&place, line) {
        Ok(_) => Ok((config, Rest { lines, read: 2 })),
        Err(why) => Err(TraceFault::BadLine { line: 2, why }),
    }
}

/// The commands up to the line after them, when this many threads had their line, and what is
/// after that line.
fn trace_of<'a>(
    alloc: Global,
    config: Config,
    threads: u32,
    rest: Rest<'a>,
) -> Result<(Vec<Command>, Rest<'a>), TraceFault>
    requires { rest.read + length rest.lines.now ≤ INPUT_LIMIT }
    ensures trace { MatchResult result
        (λ x. IsTrace config threads (tokenized rest.entry.lines.now) x.0.items
        (tokenized x.1.lines.now))
        (IsLineFault (IsBadTrace config threads (tokenized rest.entry.lines.now) rest.entry.read)) }
    ensures read { IfOk result (λ x. x.1.read ≡ rest.entry.read + vec_len x.0 + 1) }
    ensures within { IfOk result (λ x. x.1.read + length x.1.lines.now ≤ INPUT_LIMIT) }
{
    let mut trace = Vec::new(alloc);
    let mut lines = rest.lines;
    while let Some((line, after)) = first_line(lines) {
        let place = Place {
            config,
            threads,
            full: trace.len() >= MOST_COMMANDS,
        };
        let read = rest.read + trace.len() as u64 + 1;
        let said = match line_of(&place, line) {
            Ok(said) => said,
            Err(why) => return Err(TraceFault::BadLine { line: read, why }),
        };
        let Line::Told(command) = said else {
            return Ok((trace, Rest { lines: after, read }));
        };
        trace.push(command)?;
        lines = after;
    }
    Err(TraceFault::BadLine {
        line: rest.read + trace.len() as u64 + 1,
        why: Why::End,
    })
}
