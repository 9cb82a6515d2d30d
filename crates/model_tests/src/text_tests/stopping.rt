//! Reading stops where the source fails.

use std::test::Fail;
use trace_text::{MemSource, Source, TraceFault, read_trace};

/// A job of 68 bytes.
const JOB: &[u8] = b"rtheap 1 threads 1 blocks 64 live 20 object 2 shared 0\nthread 0\nend\n";

/// The most bytes that a call of the source gives.
const MOST: usize = 7;

/// Takes what a source has left, and says how many bytes it was.
fn left(source: &mut MemSource) -> usize {
    let mut piece = [0; 8];
    let mut count: usize = 0;
    for _ in 0..JOB.len() {
        match source.take(&mut piece) {
            Ok(0) => return count,
            Ok(taken) => count = count.saturating_add(taken),
            Err(_) => {}
        }
    }
    count
}

// The source fails at one call and would give more at the next. It has all bytes left that it had
// where it failed.
#[test]
fn no_byte_is_taken_after_a_fault(rt: HostRuntime) -> Result<(), Fail> {
    let alloc = rt.alloc();
    let mut given: usize = 0;
    for call in 0..10_u64 {
        let bytes = Vec::from_slice(alloc, JOB)?;
        let fail = Vec::from_slice(alloc, &[call])?;
        let mut source = MemSource::new(bytes, MOST, fail);
        let read = read_trace(alloc, &mut source);
        assert_eq!(rt; read.err(), Some(TraceFault::ReadFault));
        assert_eq!(rt; left(&mut source), JOB.len().saturating_sub(given));
        given = given.saturating_add(MOST);
    }
    Ok(())
}
