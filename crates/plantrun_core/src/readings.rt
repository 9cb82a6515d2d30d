//! The lines of the input.

ghost use Rattle.std.specs.Prelude.{◌≡◌, ◌<◌, ◌^◌, IfOk, IfSome};
ghost use Rattle.trace_text.specs.Lines.{tokens_of};
ghost use Rattle.trace_text.specs.Reading.{Gives, four_tokens_of};
ghost use Rattle.plantrun_core.specs.Readings.{CountsNext, IsNext, reading_at, spelled_at};

use crate::places::INPUTS;
use crate::stops::Stop;
use trace_text::{
    LINE_ROOM, Next, ShortLine, Source, first_token, next_line, number_of, three_tokens,
};

/// A line of the input: a tag, its value, and whether it is good, from this tick on.
#[derive(Clone, Copy, Debug, PartialEq, Eq)]
pub struct Reading {
    pub tick: u64,
    pub tag: u32,
    pub value: u64,
    pub good: bool,
}

/// The four tokens of a line.
#[tactic(auto, unfolding(trace_text::specs::Reading::four_tokens_of))]
fn four_tokens(line: &[u8]) -> Option<(&[u8], &[u8], &[u8], &[u8])>
    ensures { Gives (λ x. (x.0.now, x.1.now, x.2.now, x.3.now)) result
        (four_tokens_of (tokens_of line.now)) }
{
    let (first, others) = first_token(line);
    let (second, third, fourth) = three_tokens(others)?;
    Some((first, second, third, fourth))
}

/// The reading that a line spells: four numbers with one space between them. The tag is below 9,
/// the value below 2^32, and a good one has a 1 after it and a bad one a 0. A line of 40 bytes or
/// more spells none.
pub fn reading_of(line: &[u8]) -> Option<Reading>
    ensures reading { result ≡ reading_at line.now }
    ensures tag { IfSome result (λ r. r.tag < INPUTS) }
    ensures value { IfSome result (λ r. r.value < 2 ^ 32) }
{
    if line.len() < LINE_ROOM {
        spelled(line)
    } else {
        None
    }
}

/// The same of a line of any length.
#[tactic(auto, unfolding(crate::specs::Readings::spelled_at))]
fn spelled(line: &[u8]) -> Option<Reading>
    ensures reading { result ≡ spelled_at line.now }
    ensures tag { IfSome result (λ r. r.tag < INPUTS) }
    ensures value { IfSome result (λ r. r.value < 2 ^ 32) }
{
    let (tick, tag, value, good) = four_tokens(line)?;
    let tick = number_of(tick)?;
    let tag = number_of(tag)?;
    let value = number_of(value)?;
    let good = number_of(good)?;
    if tag < u64::from(INPUTS) && value < 1 << 32 && good < 2 {
        Some(Reading {
            tick,
            tag: tag as u32,
            value,
            good: good == 1,
        })
    } else {
        None
    }
}

/// The reading of the next line of a source, whose number is `number`. `None` at the end, and where
/// the reading is of a later tick than the plant has.
pub(crate) fn next_reading<S: Source>(
    source: &mut S,
    number: u64,
    ticks: u64,
) -> Result<Option<Reading>, Stop>
    ensures next { IfSome (S.left source.old) (λ bytes.
        IsNext ticks bytes (S.left source.new) number result) }
    ensures counted { CountsNext (S.faults source.old) (S.faults source.new) result }
    ensures tag { IfOk result (λ next. IfSome next (λ r. r.tag < INPUTS)) }
    ensures value { IfOk result (λ next. IfSome next (λ r. r.value < 2 ^ 32)) }
{
    let mut line = ShortLine::new();
    match next_line(source, &mut line) {
        Err(_) => Err(Stop::ReadFault),
        Ok(Next::End) => Ok(None),
        Ok(Next::Long) => Err(Stop::BadLine { line: number }),
        Ok(Next::Line) => match reading_of(line.bytes()) {
            None => Err(Stop::BadLine { line: number }),
            Some(reading) if reading.tick < ticks => Ok(Some(reading)),
            Some(_) => Ok(None),
        },
    }
}
