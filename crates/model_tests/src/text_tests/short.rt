//! Short lines, one at a time, from a source that fails.

use std::test::Fail;
use trace_text::{Failed, MemSource, Next, ShortLine, next_line};

#[test]
fn lines_come_one_at_a_time_and_a_fault_is_told(rt: HostRuntime) -> Result<(), Fail> {
    let text = b"20 80\n\n0123456789012345678901234567890123456789\n7";
    let bytes = Vec::from_slice(rt.alloc(), text)?;
    let fail = Vec::from_slice(rt.alloc(), &[49])?;
    let mut source = MemSource::new(bytes, 1, fail);
    let mut line = ShortLine::new();
    for (answer, held) in [
        (Ok(Next::Line), b"20 80".as_slice()),
        (Ok(Next::Line), b""),
        (Ok(Next::Long), b"0123456789012345678901234567890123456789"),
        (Ok(Next::Line), b""),
        (Err(Failed), b"7"),
        (Ok(Next::End), b""),
    ] {
        assert_eq!(rt; next_line(&mut source, &mut line), answer);
        assert_eq!(rt; line.bytes(), held);
    }
    Ok(())
}
