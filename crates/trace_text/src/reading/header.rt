//! The header, which names the five numbers of the configuration.

ghost use Rattle.std.specs.Prelude.{◌≡◌};
ghost use Rattle.std.specs.Option.{option_copied};
ghost use Rattle.trace_text.specs.Lines.{tokens_of};
ghost use Rattle.trace_text.specs.Reading.{Gives, tokens_left};
ghost use Rattle.trace_text.specs.Headers.{behind_at, width_at, version_at, labelled_at, labels_at};
ghost use Rattle.trace_text.specs.Said.{bounded_at, header_at};

use crate::reading::lines::spelled;
use crate::reading::tokens::{first_token, no_more};
use crate::trace_faults::Why;
use block_store::{Config, Width};

/// The configuration that a header names, each number in its range.
#[tactic(auto, unfolding(crate::specs::Said::header_at))]
pub fn header_of(line: &[u8]) -> Result<Config, Why>
    ensures { result ≡ header_at (tokens_of line.now) }
{
    let (width, threads, blocks, live, object, shared) = labels_of(line).ok_or(Why::Header)?;
    let (threads, blocks, live) = (spelled(threads)?, spelled(blocks)?, spelled(live)?);
    let (object, shared) = (spelled(object)?, spelled(shared)?);
    Ok(Config {
        width,
        threads: bounded(threads, 1, 16)?,
        blocks: bounded(blocks, 1, 65_535)?,
        live: bounded(live, 0, 65_535)?,
        object: bounded(object, 1, 1024)?,
        shared: bounded(shared, 0, 1024)?,
    })
}

/// The width that a header's version names, and its five tokens that are to be numbers.
#[tactic(auto, unfolding(crate::specs::Headers::labels_at))]
fn labels_of(line: &[u8]) -> Option<(Width, &[u8], &[u8], &[u8], &[u8], &[u8])>
    ensures { Gives (λ x. (x.0, x.1.now, x.2.now, x.3.now, x.4.now, x.5.now)) result
        (labels_at (tokens_of line.now)) }
{
    let rest = behind(Some(line), b"rtheap")?;
    let (width, rest) = version_of(rest)?;
    let (threads, rest) = labelled(rest, b"threads")?;
    let (blocks, rest) = labelled(rest, b"blocks")?;
    let (live, rest) = labelled(rest, b"live")?;
    let (object, rest) = labelled(rest, b"object")?;
    let (shared, rest) = labelled(rest, b"shared")?;
    no_more(rest)?;
    Some((width, threads, blocks, live, object, shared))
}

/// The width that the version names with which the tokens begin, and the tokens after it.
#[tactic(auto, unfolding(crate::specs::Headers::version_at))]
fn version_of(tokens: Option<&[u8]>) -> Option<(Width, Option<&[u8]>)>
    ensures { Gives (λ x. (x.0, tokens_left (option_copied x.1))) result
        (version_at (tokens_left (option_copied tokens.entry))) }
{
    let (version, others) = first_token(tokens?);
    Some((width_of(version)?, others))
}

/// The width of the blocks in a job of this version.
fn width_of(version: &[u8]) -> Option<Width>
    ensures { result ≡ width_at version.now }
{
    match version {
        b"1" => Some(Width::Four),
        b"2" => Some(Width::Eight),
        _ => None,
    }
}

/// The token after a label that the tokens begin with, and the tokens after it.
#[tactic(auto, unfolding(crate::specs::Headers::labelled_at))]
pub fn labelled<'a>(tokens: Option<&'a [u8]>, label: &[u8]) -> Option<(&'a [u8], Option<&'a [u8]>)>
    ensures { Gives (λ x. (x.0.now, tokens_left (option_copied x.1))) result
        (labelled_at label.now (tokens_left (option_copied tokens.entry))) }
{
    let others = behind(tokens, label)?;
    Some(first_token(others?))
}

/// The tokens after a word that the tokens begin with.
#[tactic(auto, unfolding(crate::specs::Headers::behind_at))]
pub fn behind<'a>(tokens: Option<&'a [u8]>, word: &[u8]) -> Option<Option<&'a [u8]>>
    ensures { Gives (λ x. tokens_left (option_copied x)) result
        (behind_at word.now (tokens_left (option_copied tokens.entry))) }
{
    let (first, others) = first_token(tokens?);
    if first != word {
        return None;
    }
    Some(others)
}

/// A number, if it is in a range.
fn bounded(number: u64, least: u32, most: u32) -> Result<u32, Why>
    ensures { result ≡ bounded_at least most number }
{
    if number < u64::from(least) || number > u64::from(most) {
        return Err(Why::Size);
    }
    Ok(number as u32)
}
