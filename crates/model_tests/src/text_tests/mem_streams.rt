//! The streams in memory: what they give and take, and that they fail where told.

use std::test::Fail;
use trace_text::{Failed, MemSink, MemSource, Sink, Source};

#[test]
fn a_source_gives_little_and_fails_where_told(rt: HostRuntime) -> Result<(), Fail> {
    let bytes = Vec::from_slice(rt.alloc(), b"abcde")?;
    let fail = Vec::from_slice(rt.alloc(), &[1, 4])?;
    let mut source = MemSource::new(bytes, 2, fail);
    let mut piece = [0; 3];
    let takes = [
        (Ok(2), *b"ab\0"),
        (Err(Failed), *b"ab\0"),
        (Ok(2), *b"cd\0"),
        (Ok(1), *b"ed\0"),
        (Err(Failed), *b"ed\0"),
        (Ok(0), *b"ed\0"),
    ];
    for (answer, held) in takes {
        assert_eq!(rt; source.take(&mut piece), answer);
        assert_eq!(rt; piece, held);
    }
    Ok(())
}

#[test]
fn a_source_gives_no_more_than_fits(rt: HostRuntime) -> Result<(), Fail> {
    let bytes = Vec::from_slice(rt.alloc(), b"abcde")?;
    let mut source = MemSource::new(bytes, 100, Vec::new(rt.alloc()));
    let mut piece = [0; 3];
    assert_eq!(rt; source.take(&mut piece), Ok(3));
    assert_eq!(rt; source.take(&mut []), Ok(0));
    assert_eq!(rt; source.take(&mut piece), Ok(2));
    assert_eq!(rt; piece, *b"dec");
    Ok(())
}

#[test]
fn a_sink_fails_where_told_and_where_a_piece_does_not_fit(rt: HostRuntime) -> Result<(), Fail> {
    let fail = Vec::from_slice(rt.alloc(), &[3])?;
    let mut sink = MemSink::new(rt.alloc(), 5, fail).ok().ok_or("memory")?;
    let puts = [
        (b"abc".as_slice(), Ok(())),
        (b"def", Err(Failed)),
        (b"d", Ok(())),
        (b"e", Err(Failed)),
        (b"e", Ok(())),
        (b"", Ok(())),
        (b"f", Err(Failed)),
    ];
    for (piece, answer) in puts {
        assert_eq!(rt; sink.put(piece), answer);
    }
    assert_eq!(rt; sink.bytes(), b"abcde".as_slice());
    Ok(())
}
