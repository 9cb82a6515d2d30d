//! The lines of a source, one at a time, in a buffer of fixed length.

ghost use Rattle.std.specs.Prelude.{◌≡◌, ◌<◌, ◌+◌, ◌∷◌, ◌++◌, [], length, Option, Some, IsNone, IfOk, IfSome, OnOk, OnErr};
ghost use Rattle.trace_text.specs.Faults.{Rose};
ghost use Rattle.trace_text.specs.Streams.{TookAtMost};
ghost use Rattle.trace_text.specs.declared.short_lines.Next.TheVariants as ends;
ghost use Rattle.trace_text.specs.short_lines.Found.{LeadsBy, EndsAt, IsFound};

use crate::{Failed, Source};
use std::marker::Model;

/// A line has fewer bytes than these, or it is long.
pub const LINE_ROOM: usize = 40;

/// A line of fewer than 40 bytes, or the first 40 of a long one.
#[derive(Drop)]
pub struct ShortLine {
    bytes: [u8; LINE_ROOM],
    len: usize,
}

impl Model for ShortLine {
    ghost use Rattle.std.specs.Prelude.{◌≤◌, List, ℕ, take};

    ghost Value = { List ℕ };

    ghost view = { λ a. take a.len a.bytes };

    ghost invariant = { λ a. a.len ≤ 40 };
}

impl ShortLine {
    /// An empty line.
    pub fn new() -> ShortLine
        ensures { result ≡ [] }
    {
        ShortLine {
            bytes: [0; LINE_ROOM],
            len: 0,
        }
    }

    /// Its bytes.
    pub fn bytes(&self) -> &[u8]
        ensures { result.now ≡ self.now }
    {
        &self.bytes[..self.len]
    }

    /// Leaves an empty line.
    fn clear(&mut self)
        ensures { self.new ≡ [] }
    {
        self.len = 0;
    }

    /// Puts a byte after the others.
    fn push(&mut self, byte: u8)
        requires { length self.old < LINE_ROOM }
        ensures bytes { self.new ≡ self.old ++ byte ∷ [] }
        ensures length { length self.new ≡ length self.old + 1 }
    {
        self.bytes[self.len] = byte;
        self.len += 1;
    }
}

/// What is next in a source.
#[derive(Clone, Copy, Debug, PartialEq, Eq)]
pub enum Next {
    /// A line of fewer than 40 bytes.
    Line,
    /// A line of 40 bytes or more, of which the first 40 were read.
    Long,
    /// No line: the source is at its end.
    End,
}

/// Reads the next line of a source, without its line feed. An empty last line is none.
///
/// # Errors
///
/// `Failed` where the source fails within that line.
pub fn next_line<S: Source>(source: &mut S, line: &mut ShortLine) -> Result<Next, Failed>
    ensures found { IfSome (S.left source.old) (λ bytes.
        IsFound bytes (S.left source.new) line.new result) }
    ensures still { OnOk result (S.faults source.new ≡ S.faults source.old) }
    ensures rose { OnErr result (Rose (S.faults source.old) (S.faults source.new)) }
{
    line.clear();
    for place in 0..LINE_ROOM {
        let found = match next_byte(source) {
            Ok(found) => found,
            Err(failed) => return Err(failed),
        };
        let Some(byte) = found else {
            return Ok(at_end(place));
        };
        if byte == b'\n' {
            return Ok(Next::Line);
        }
        line.push(byte);
    }
    Ok(Next::Long)
}

/// What the end of a source is after so many bytes of a line.
fn at_end(place: usize) -> Next
    ensures none { place ≡ 0 → result ≡ ends.End }
    ensures some { 0 < place → result ≡ ends.Line }
{
    if place == 0 { Next::End } else { Next::Line }
}

/// Reads the next byte of a source, or finds none at its end.
fn next_byte<S: Source>(source: &mut S) -> Result<Option<u8>, Failed>
    ensures some { IfOk result (λ found. IfSome found (λ byte.
        LeadsBy byte (S.left source.old) (S.left source.new))) }
    ensures end { IfOk result (λ found. IsNone found
        → EndsAt (S.left source.old) (S.left source.new)) }
    ensures few { OnErr result (TookAtMost 1 (S.left source.old) (S.left source.new)) }
    ensures still { OnOk result (S.faults source.new ≡ S.faults source.old) }
    ensures rose { OnErr result (Rose (S.faults source.old) (S.faults source.new)) }
{
    let mut piece = [0];
    if source.take(&mut piece)? == 0 {
        return Ok(None);
    }
    Ok(Some(piece[0]))
}
