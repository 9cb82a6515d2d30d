//! A sink over std's writers.

ghost use Rattle.std.specs.Prelude.{◌≡◌, OnOk, OnErr};
ghost use Rattle.trace_text.specs.Streams.{Appends, AppendsPrefix};

use crate::{Failed, Sink};
use std::io::{ErrorKind, Write};

/// A sink over a writer.
///
/// A piece is written by as many writes as it takes. A write that was interrupted is tried again;
/// one that takes nothing, and any other error, is a fault, which may leave a prefix of the piece
/// written.
/// For example, over standard output `put` of a line returns once the whole line is written. A sink
/// flushes nothing. What is held is known where the writer tells it; standard output does not.
#[derive(Debug, Drop)]
pub struct StdSink<W> {
    writer: W,
    faults: u64,
}

impl<W: Write> StdSink<W> {
    /// A sink over this writer, with no fault counted.
    pub fn new(writer: W) -> StdSink<W>
        ensures held { ⟦<StdSink<W> as Sink>⟧.held result ≡ W.contents writer }
        ensures faults { ⟦<StdSink<W> as Sink>⟧.faults result ≡ 0 }
    {
        StdSink { writer, faults: 0 }
    }
}

impl<W: Write> Sink for StdSink<W> {
    ghost held = { λ s. W.contents s.writer };

    ghost faults = { λ s. s.faults };

    /// Writes the whole piece.
    fn put(&mut self, piece: &[u8]) -> Result<(), Failed> {
        let written = write_whole(&mut self.writer, piece);
        if written.is_err() {
            self.faults = self.faults.saturating_add(1);
        }
        written
    }
}

/// Writes all of the piece. What was written before an error is a prefix of it.
fn write_whole<W: Write>(writer: &mut W, piece: &[u8]) -> Result<(), Failed>
    ensures ok { OnOk result (Appends (W.contents writer.old) (W.contents writer.new) piece.now) }
    ensures prefix { OnErr result
        (AppendsPrefix (W.contents writer.old) (W.contents writer.new) piece.now) }
{
    let mut done = 0;
    for _ in 0..u64::MAX {
        if done == piece.len() {
            return Ok(());
        }
        match writer.write(&piece[done..]) {
            Ok(0) => return Err(Failed),
            Ok(count) => done += count,
            Err(e) if e.kind() == ErrorKind::Interrupted => {}
            Err(_) => return Err(Failed),
        }
    }
    Err(Failed)
}
