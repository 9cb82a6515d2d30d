//! The streams over a reader and a writer that do little a call, are interrupted and fail.

use std::io::{Error, ErrorKind, Read, Result as IoResult, Write};
use std::test::Fail;
use trace_text::{Failed, Sink, Source, StdSink, StdSource};

/// Reads at most two bytes a call. Call 1 is interrupted, and call 2 fails.
#[derive(Drop)]
struct Halting<'a> {
    left: &'a [u8],
    calls: u8,
}

impl<'a> Read for Halting<'a> {
    fn read(&mut self, piece: &mut [u8]) -> IoResult<usize> {
        let number = self.calls;
        self.calls = number.saturating_add(1);
        if number == 1 {
            return Err(Error::from(ErrorKind::Interrupted));
        }
        if number == 2 {
            return Err(Error::from(ErrorKind::BrokenPipe));
        }
        let count = piece.len().min(self.left.len()).min(2);
        piece[..count].copy_from_slice(&self.left[..count]);
        self.left = &self.left[count..];
        Ok(count)
    }
}

#[test]
fn reads_are_short_and_a_fault_loses_nothing(rt: HostRuntime) -> Result<(), Fail> {
    let mut source = StdSource::new(Halting {
        left: b"abcde",
        calls: 0,
    });
    let mut piece = [0; 4];
    let takes = [
        (Ok(2), *b"ab\0\0"),
        (Err(Failed), *b"ab\0\0"),
        (Ok(2), *b"cd\0\0"),
        (Ok(1), *b"ed\0\0"),
        (Ok(0), *b"ed\0\0"),
    ];
    for (answer, held) in takes {
        assert_eq!(rt; source.take(&mut piece), answer);
        assert_eq!(rt; piece, held);
    }
    Ok(())
}

/// Takes at most two bytes a call. Call 1 is interrupted, call 3 takes nothing, and call 5
/// fails.
#[derive(Drop)]
struct Choking<'a> {
    held: &'a mut Vec<u8>,
    calls: u8,
}

impl<'a> Write for Choking<'a> {
    fn write(&mut self, piece: &[u8]) -> IoResult<usize> {
        let number = self.calls;
        self.calls = number.saturating_add(1);
        match number {
            1 => Err(Error::from(ErrorKind::Interrupted)),
            3 => Ok(0),
            5 => Err(Error::from(ErrorKind::BrokenPipe)),
            _ => {
                let count = piece.len().min(2);
                self.held.extend_from_slice(&piece[..count])?;
                Ok(count)
            }
        }
    }

    fn flush(&mut self) -> IoResult<()> {
        Ok(())
    }
}

#[test]
fn a_piece_is_written_whole_or_fails(rt: HostRuntime) -> Result<(), Fail> {
    let mut held = Vec::new(rt.alloc());
    let mut sink = StdSink::new(Choking {
        held: &mut held,
        calls: 0,
    });
    let puts = [
        (b"abcd".as_slice(), Ok(())),
        (b"e", Err(Failed)),
        (b"efg", Err(Failed)),
        (b"hij", Ok(())),
        (b"", Ok(())),
    ];
    for (piece, answer) in puts {
        assert_eq!(rt; sink.put(piece), answer);
    }
    assert_eq!(rt; held.as_slice(), b"abcdefhij".as_slice());
    Ok(())
}
