//! Calls whose streams fail. `tests/answers.runs`, `plans.runs` and `replays.runs` have what the
//! program shows.

use crate::testing::{Call, EACH_KIND, job, made};
use heap_system::Finished;
use never_heap::{Item, Logs};
use rtheap_core::{Exit, RunEnd};
use std::test::Fail;

#[test]
fn a_fault_of_the_source_is_told(rt: HostRuntime) -> Result<(), Fail> {
    let text = job(rt.alloc(), "")?;
    let call = Call {
        most: 10,
        read_fails: &[1],
        ..Call::run(text.as_str())
    };
    let (exit, sink) = made(&rt, rt.alloc(), &call)?;
    assert_eq!(rt; (exit.status, exit.due), (5, 5));
    assert_eq!(rt; sink.bytes(), b"rtheap: read fault\n".as_slice());
    Ok(())
}

#[test]
fn a_fault_of_the_sink_leaves_the_lines_before(rt: HostRuntime) -> Result<(), Fail> {
    let text = job(rt.alloc(), EACH_KIND)?;
    let call = Call {
        write_fails: &[2],
        ..Call::run(text.as_str())
    };
    let (exit, sink) = made(&rt, rt.alloc(), &call)?;
    assert_eq!(rt; (exit.status, exit.due), (6, 0));
    assert!(rt; exit.run.is_some());
    assert_eq!(rt; sink.bytes(), b"0 new 0.1 work 7\n0 ok\n".as_slice());
    Ok(())
}

#[test]
fn a_refusal_that_cannot_be_written_is_a_write_fault(rt: HostRuntime) -> Result<(), Fail> {
    let call = Call {
        words: &[],
        write_fails: &[0],
        ..Call::run("")
    };
    let (exit, sink) = made(&rt, rt.alloc(), &call)?;
    assert_eq!(rt; (exit.status, exit.due), (6, 2));
    assert!(rt; exit.run.is_none());
    assert_eq!(rt; sink.bytes(), b"".as_slice());
    Ok(())
}

/// What a replay handed back.
fn replayed(exit: Exit) -> Result<Finished, Fail> {
    let Some(RunEnd::Replayed(run)) = exit.run else {
        return Err("nothing was replayed".into());
    };
    Ok(run)
}

#[test]
fn a_fault_of_the_sink_leaves_the_items_before(rt: HostRuntime) -> Result<(), Fail> {
    let alloc = rt.alloc();
    let text = job(alloc, "new 1 2\nsay 1\nnil 1\n")?;
    let call = Call {
        words: &["replay", "robin", "20000"],
        write_fails: &[2],
        ..Call::run(text.as_str())
    };
    let (exit, sink) = made(&rt, alloc, &call)?;
    assert_eq!(rt; (exit.status, exit.due), (6, 0));
    assert_eq!(rt; sink.bytes(), b"start 1\n0 new 0.1 work 7\n".as_slice());
    let run = replayed(exit)?;
    assert_eq!(rt; (run.threads(), run.cycles(), run.units()), (1, 1, 7));
    let order = run.order().ok_or("no order")?;
    assert_eq!(rt;
        order,
        [Item::Start, Item::Entry(0), Item::Entry(0), Item::Entry(0)].as_slice()
    );
    Ok(())
}
