//! Calls whose streams fail, for an input that is fine. `tests/orders.runs` and `needs.runs` have
//! what the programs show.

use rt_check::{check, limit};
use std::alloc::Global;
use std::process::Abort;
use std::test::Fail;
use test_kit::{Call, Lent};

/// A job with an order.
const ORDERED: &[u8] = b"rtheap 1 threads 1 blocks 64 live 20 object 8 shared 0
thread 0
new 1 1
end
start 1
0 new 0.1 work 7
end cycles 1 work 7
";

/// Its source gives all at once, and fails at the next call.
const UNREAD: Call<'static> = Call {
    words: &[],
    input: ORDERED,
    most: 1000,
    read_fails: &[1],
    write_fails: &[],
    room: 1000,
};

/// Its sink fails at the first line.
const UNWRITTEN: Call<'static> = Call {
    words: &[],
    input: ORDERED,
    most: 1000,
    read_fails: &[],
    write_fails: &[0],
    room: 1000,
};

/// Whether a check of what is lent ends with this status and text.
fn checks(
    rt: &impl Abort,
    alloc: Global,
    call: &Call<'_>,
    status: u8,
    text: &[u8],
) -> Result<(), Fail> {
    let Lent {
        words,
        mut source,
        mut sink,
    } = Lent::of(alloc, call).ok().ok_or("memory")?;
    assert_eq!(rt; check(alloc, &words, &mut source, &mut sink).status, status);
    assert_eq!(rt; sink.bytes(), text);
    Ok(())
}

/// The same of a limit.
fn limits(
    rt: &impl Abort,
    alloc: Global,
    call: &Call<'_>,
    status: u8,
    text: &[u8],
) -> Result<(), Fail> {
    let Lent {
        words,
        mut source,
        mut sink,
    } = Lent::of(alloc, call).ok().ok_or("memory")?;
    assert_eq!(rt; limit(alloc, &words, &mut source, &mut sink).status, status);
    assert_eq!(rt; sink.bytes(), text);
    Ok(())
}

#[test]
fn a_fault_of_a_stream_ends_a_check(rt: HostRuntime) -> Result<(), Fail> {
    checks(&rt, rt.alloc(), &UNREAD, 5, b"rt_check: read fault\n")?;
    checks(&rt, rt.alloc(), &UNWRITTEN, 6, b"")
}

#[test]
fn a_fault_of_a_stream_ends_a_limit(rt: HostRuntime) -> Result<(), Fail> {
    limits(&rt, rt.alloc(), &UNREAD, 5, b"rt_limit: read fault\n")?;
    limits(&rt, rt.alloc(), &UNWRITTEN, 6, b"")
}
