//! Readings as a text: the limits in its first line, and a reading in each other line.

ghost use Rattle.std.specs.Prelude.{◌≡◌, ◌<◌, ◌≤◌, ◌+◌, ◌∷◌, ◌++◌, ℕ, List, [], length, IfOk, IfSome};
ghost use Rattle.trace_text.specs.Streams.{Appends};
ghost use Rattle.historian_core.specs.declared.Limits.{Limits};
ghost use Rattle.historian_core.specs.StoredReadings.{Stores};
ghost use Rattle.historian_core.specs.Lines.{IsFirstLine, IsNextLine, CountsRead, CountsNext};
ghost use Rattle.historian_core.specs.Reports.{IsReport, IsFineText, IsToldOrFails, AreCounted};
ghost use Rattle.historian_core.specs.ReportTexts.{reading_at, limits_at, first_at, due_after, due_in};

use crate::{Historian, LIFE, Limits, Stop, Why, tell};
use trace_text::{Next, ShortLine, Sink, Source, next_line, number_of, two_tokens};

/// The reading that a line spells: a number below 2^32.
#[tactic(auto, unfolding(crate::specs::ReportTexts::reading_at))]
pub fn reading_of(line: &[u8]) -> Option<u32>
    ensures { result ≡ reading_at line.now }
{
    let number = number_of(line)?;
    if number < 1 << 32 {
        Some(number as u32)
    } else {
        None
    }
}

/// The limits that a line spells: two numbers below 2^32 with one space between them, in any order.
#[tactic(auto, unfolding(crate::specs::ReportTexts::limits_at))]
pub fn limits_of(line: &[u8]) -> Option<Limits>
    ensures { result ≡ limits_at line.now }
{
    let (low, high) = two_tokens(Some(line))?;
    let low = reading_of(low)?;
    let high = reading_of(high)?;
    Some(Limits { low, high })
}

/// The limits that a first line spells, or what is wrong with it.
fn first_of(line: &[u8]) -> Result<Limits, Why>
    ensures { result ≡ first_at line.now }
{
    let Some(limits) = limits_of(line) else {
        return Err(Why::Limits);
    };
    if limits.high < limits.low {
        Err(Why::Order)
    } else {
        Ok(limits)
    }
}

/// Reads a text of limits and readings, and after each reading writes the line of the last 40. The
/// heap keeps no reading yet.
///
/// # Errors
///
/// `BadLine` at the first line that is wrong, and `NoLifeLeft` at a reading for which the heap's
/// life has no room: then the lines of the readings before it are written. `ReadFault` where the
/// source fails: then the lines of the readings that were read are written. `WriteFault` where the
/// sink fails, which may leave a prefix of a line written.
pub fn report<S: Source, K: Sink>(
    historian: &mut Historian,
    source: &mut S,
    sink: &mut K,
) -> Result<(), Stop>
    requires { (l : Limits) → Stores historian.old l [] }
    ensures report { IfSome (S.left source.old) (λ bytes.
        IsReport due_in bytes (S.left source.new) (K.held sink.old) (K.held sink.new) result) }
    ensures fine { IfSome (S.left source.old) (λ bytes. (l : Limits) (xs : List ℕ)
        → IsFineText bytes l xs
        → IsToldOrFails l xs (K.held sink.old) (K.held sink.new) result) }
    ensures counted { AreCounted (S.faults source.old) (S.faults source.new) (K.faults sink.old)
        (K.faults sink.new) result }
{
    let mut line = ShortLine::new();
    let limits = match first_limits(source, &mut line) {
        Ok(limits) => limits,
        Err(stop) => return Err(stop),
    };
    tell_all(historian, &limits, source, &mut line, sink)
}

/// Reads the limits from the first line of a source.
#[tactic(auto, using(crate::proofs::LongLines::limits_long))]
fn first_limits<S: Source>(source: &mut S, line: &mut ShortLine) -> Result<Limits, Stop>
    ensures first { IfSome (S.left source.old) (λ bytes.
        IsFirstLine bytes (S.left source.new) result) }
    ensures counted { CountsRead (S.faults source.old) (S.faults source.new) result }
{
    match next_line(source, line) {
        Err(_) => Err(Stop::ReadFault),
        Ok(Next::End) => Err(Stop::BadLine {
            line: 1,
            why: Why::Limits,
        }),
        Ok(Next::Long) => Err(Stop::BadLine {
            line: 1,
            why: Why::Limits,
        }),
        Ok(Next::Line) => match first_of(line.bytes()) {
            Ok(limits) => Ok(limits),
            Err(why) => Err(Stop::BadLine { line: 1, why }),
        },
    }
}

/// Reads the next line after `count` readings, which spells one more reading for which the heap's
/// life has room.
///
/// # Errors
///
/// The result of the report, where it ends here: at the end of the text, at a wrong line, without
/// room, or with a fault.
#[tactic(auto, using(crate::proofs::LongLines::reading_long))]
fn next_reading<S: Source>(
    source: &mut S,
    line: &mut ShortLine,
    count: u64,
) -> Result<u32, Result<(), Stop>>
    requires { count ≤ LIFE }
    ensures next { (l : Limits) (past : List ℕ) → length past ≡ count
        → IfSome (S.left source.old) (λ bytes. IsNextLine l past bytes (S.left source.new) result) }
    ensures room { IfOk result (λ r. count < LIFE) }
    ensures counted { CountsNext (S.faults source.old) (S.faults source.new) result }
{
    let bad_line = Err(Stop::BadLine {
        line: count + 2,
        why: Why::Reading,
    });
    match next_line(source, line) {
        Err(_) => Err(Err(Stop::ReadFault)),
        Ok(Next::End) => Err(Ok(())),
        Ok(Next::Long) => Err(bad_line),
        Ok(Next::Line) => match reading_of(line.bytes()) {
            None => Err(bad_line),
            Some(reading) if count < LIFE => Ok(reading),
            Some(_) => Err(Err(Stop::NoLifeLeft)),
        },
    }
}

/// Does `report` for the lines after the limits.
fn tell_all<S: Source, K: Sink>(
    historian: &mut Historian,
    limits: &Limits,
    source: &mut S,
    line: &mut ShortLine,
    sink: &mut K,
) -> Result<(), Stop>
    requires { Stores historian.old limits.now [] }
    ensures report { IfSome (S.left source.old) (λ bytes. IsReport (due_after limits.now []) bytes
        (S.left source.new) (K.held sink.old) (K.held sink.new) result) }
    ensures counted { AreCounted (S.faults source.old) (S.faults source.new) (K.faults sink.old)
        (K.faults sink.new) result }
{
    for count in 0..=LIFE {
        let reading = match next_reading(source, line, count) {
            Ok(reading) => reading,
            Err(end) => return end,
        };
        let Ok(()) = tell(historian, limits, reading, sink) else {
            return Err(Stop::WriteFault);
        };
    }
    unreachable!()
}
