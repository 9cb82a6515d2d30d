//! Counters: each worker adds to its own, and reads that of another.

use crate::slim::counters::Seat;
use live_tables::counters::LiveCounters;
use std::process::Abort;
use std::sync::Wait;

// Adds twice, and reads the worker's counter, the next one, which holds nothing yet, and none.
fn adds_twice<R: Wait + Abort>(rt: &R, seat: &mut Seat<'_>) {
    let thread = seat.thread();
    assert_eq!(rt; seat.count(rt, thread), Some(None));
    assert_eq!(rt; seat.add(rt, 40), Some(0));
    assert_eq!(rt; seat.add(rt, 2), Some(40));
    assert_eq!(rt; seat.count(rt, thread), Some(Some(42)));
    assert_eq!(rt;
        seat.count(rt, 1),
        Some(if thread == 1 { Some(42) } else { None })
    );
    assert_eq!(rt; seat.count(rt, 2), None);
}

#[test]
fn two_workers_add_and_read(rt: HostRuntime) {
    let Some((counters, workers)) = LiveCounters::open(rt.alloc(), 2) else {
        assert!(rt; false, "they open");
        return;
    };
    for who in workers {
        adds_twice(&rt, &mut Seat::of(&counters, who));
    }
}
