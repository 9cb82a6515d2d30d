//! A run of two threads, written in an order.

use crate::text_tests::testing::{replies, sink_failing_at};
use never_heap::Item;
use std::test::Fail;
use trace_text::{Failed, MemSink, write_order};

/// Writes the replies in an order.
fn written(sink: &mut MemSink) -> Result<(), Failed> {
    let order = [
        Item::Start,
        Item::Entry(1),
        Item::Entry(0),
        Item::Entry(0),
        Item::Entry(1),
        Item::Start,
        Item::Entry(0),
        Item::Entry(0),
        Item::Entry(0),
        Item::Entry(1),
        Item::Entry(0),
        Item::Entry(1),
        Item::Entry(0),
        Item::Entry(1),
        Item::Entry(0),
    ];
    write_order(&replies(), &order, sink)
}

/// The lines of the replies in that order.
const LINES: &[u8] = b"start 1
1 yes
0 new 0.1 work 36
0 full 3 work 7
1 no
start 2
0 ok
0 nil
0 int 5
1 null
0 ref 1.120
1 kind
0 len 17
1 range
0 idle work 10
";

#[test]
fn replies_and_starts_stand_in_order(rt: HostRuntime) -> Result<(), Fail> {
    let mut sink = sink_failing_at(rt.alloc(), &[])?;
    assert_eq!(rt; written(&mut sink), Ok(()));
    assert!(rt; sink.bytes().starts_with(LINES));
    let totals = sink.bytes().get(LINES.len()..).ok_or("no totals")?;
    assert_eq!(rt; totals, b"end cycles 2 work 53\n".as_slice());
    Ok(())
}

#[test]
fn a_put_that_fails_leaves_the_lines_before(rt: HostRuntime) -> Result<(), Fail> {
    let mut sink = sink_failing_at(rt.alloc(), &[5])?;
    assert_eq!(rt; written(&mut sink), Err(Failed));
    let text = b"start 1\n1 yes\n0 new 0.1 work 36\n0 full 3 work 7\n1 no\n";
    assert_eq!(rt; sink.bytes(), text.as_slice());
    Ok(())
}

#[test]
fn the_totals_may_fail_too(rt: HostRuntime) -> Result<(), Fail> {
    let mut sink = sink_failing_at(rt.alloc(), &[15])?;
    assert_eq!(rt; written(&mut sink), Err(Failed));
    assert_eq!(rt; sink.bytes(), LINES);
    Ok(())
}
