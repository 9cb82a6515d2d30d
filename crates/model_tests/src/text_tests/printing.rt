//! A run of two threads, written thread by thread, and the longest line.

use crate::text_tests::testing::{entry, replies, sink_failing_at};
use block_store::Name;
use never_heap::{Entry, Reply};
use std::test::Fail;
use trace_text::{Failed, LineBuffer, MemSink, fill_entry, write_run};

/// Writes the replies, thread by thread.
fn written(sink: &mut MemSink) -> Result<(), Failed> {
    write_run(&replies(), sink)
}

#[test]
fn each_reply_has_its_text(rt: HostRuntime) -> Result<(), Fail> {
    let mut sink = sink_failing_at(rt.alloc(), &[])?;
    assert_eq!(rt; written(&mut sink), Ok(()));
    let text = b"0 new 0.1 work 36
0 full 3 work 7
0 ok
0 nil
0 int 5
0 ref 1.120
0 len 17
0 idle work 10
1 yes
1 no
1 null
1 kind
1 range
end cycles 2 work 53
";
    assert_eq!(rt; sink.bytes(), text.as_slice());
    Ok(())
}

#[test]
fn a_put_that_fails_leaves_the_lines_before(rt: HostRuntime) -> Result<(), Fail> {
    let mut sink = sink_failing_at(rt.alloc(), &[3])?;
    assert_eq!(rt; written(&mut sink), Err(Failed));
    let text = b"0 new 0.1 work 36\n0 full 3 work 7\n0 ok\n";
    assert_eq!(rt; sink.bytes(), text.as_slice());
    Ok(())
}

/// Fills a line, of which the caller then knows nothing.
fn filled(line: &mut LineBuffer, entry: &Entry) {
    fill_entry(line, entry);
}

#[test]
fn the_longest_line_fits(rt: HostRuntime) -> Result<(), Fail> {
    let most = Name {
        thread: u32::MAX,
        serial: u64::from(u32::MAX),
    };
    let mut line = LineBuffer::new();
    filled(&mut line, &entry(u32::MAX, Reply::New(most), u64::MAX));
    assert_eq!(rt;
        line.bytes(),
        b"4294967295 new 4294967295.4294967295 work 18446744073709551615\n".as_slice()
    );
    let longest = Name {
        serial: u64::MAX,
        ..most
    };
    filled(&mut line, &entry(u32::MAX, Reply::New(longest), u64::MAX));
    assert_eq!(rt;
        line.bytes(),
        b"4294967295 new 4294967295.18446744073709551615 work 18446744073709551615\n".as_slice()
    );
    Ok(())
}
