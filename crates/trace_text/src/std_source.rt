//! A source over std's readers.

ghost use Rattle.std.specs.Prelude.{◌≡◌, ◌<◌, length, take, OnErr, IfOk};
ghost use Rattle.std.specs.Io.{ReadsAtMost};
ghost use Rattle.std.specs.Io.KnownBytes.{Consumes, IsAtEnd, Keeps};

use crate::{Failed, Source};
use std::io::{ErrorKind, Read};

/// A source over a reader.
///
/// A read that was interrupted is tried again. Any other error is a fault, and the next call reads
/// on. For example, over standard input `take` gives what one read gives, be it less than fits.
/// What is left is known where the reader tells it; standard input does not.
#[derive(Debug, Drop)]
pub struct StdSource<R> {
    reader: R,
    faults: u64,
}

impl<R: Read> StdSource<R> {
    /// A source over this reader, with no fault counted.
    pub fn new(reader: R) -> StdSource<R>
        ensures left { ⟦<StdSource<R> as Source>⟧.left result ≡ R.remaining reader }
        ensures faults { ⟦<StdSource<R> as Source>⟧.faults result ≡ 0 }
    {
        StdSource { reader, faults: 0 }
    }
}

impl<R: Read> Source for StdSource<R> {
    ghost left = { λ s. R.remaining s.reader };

    ghost faults = { λ s. s.faults };

    /// Gives what one read gives.
    fn take(&mut self, piece: &mut [u8]) -> Result<usize, Failed> {
        let read = read_once(&mut self.reader, piece);
        if read.is_err() {
            self.faults = self.faults.saturating_add(1);
        }
        read
    }
}

/// One read, which is tried again as often as it is interrupted.
fn read_once<R: Read>(reader: &mut R, piece: &mut [u8]) -> Result<usize, Failed>
    ensures bound { ReadsAtMost result piece.new }
    ensures ok { IfOk result (λ k.
        Consumes (R.remaining reader.old) (R.remaining reader.new) (take k piece.new)) }
    ensures end { IfOk result (λ k.
        k ≡ 0 → 0 < length piece.old → IsAtEnd (R.remaining reader.new)) }
    ensures err { OnErr result (Keeps (R.remaining reader.old) (R.remaining reader.new)) }
{
    for _ in 0..u64::MAX {
        match reader.read(piece) {
            Ok(count) => return Ok(count),
            Err(e) if e.kind() == ErrorKind::Interrupted => {}
            Err(_) => return Err(Failed),
        }
    }
    Err(Failed)
}
