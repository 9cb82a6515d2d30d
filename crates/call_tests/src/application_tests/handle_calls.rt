//! Whole calls of `handles`: what each command pays, streams that fail, and threads beside each
//! other. `tests/handles.runs` has what the program shows.

use crate::application_tests::calling::{Program, ends, made, meets, records_at};
use heap_system::NoPace;
use std::test::Fail;
use test_kit::Call;

const HANDLES: Program = Program::Handles;

/// One thread's operations on one slot.
const OPERATIONS: &str = "thread 0
take 0
make 0 0 7
take 0
make 1 0 8
see 0 0
drop 1 0
evict 0
see 0 0
drop 0 0
make 1 0 9
take 0
end
";

#[test]
fn each_make_makes_two_records_and_pays_the_rate(rt: HostRuntime) -> Result<(), Fail> {
    let alloc = rt.alloc();
    for (blocks, rate) in [(128, 6), (29, 58)] {
        let input = format!(in alloc; "handles 1 threads 1 slots 1 blocks {blocks}\n{OPERATIONS}")?;
        let ended = made(&rt, alloc, HANDLES, &Call::of(input.as_bytes()), &NoPace)?;
        let run = ended.run.ok_or("refused")?;
        assert_eq!(rt; records_at(&run, rate), Some(6));
    }
    Ok(())
}

#[test]
fn a_fault_of_a_stream_ends_the_call(rt: HostRuntime) -> Result<(), Fail> {
    let alloc = rt.alloc();
    let input = format!(in alloc; "handles 1 threads 1 slots 1 blocks 128\n{OPERATIONS}")?;
    let unread = Call {
        read_fails: &[1],
        ..Call::of(input.as_bytes())
    };
    ends(
        &rt,
        alloc,
        HANDLES,
        &unread,
        (5, 5),
        "rt_handles: read fault\n",
    )?;
    let unwritten = Call {
        write_fails: &[3],
        ..Call::of(input.as_bytes())
    };
    let lines = "0 none\n0 made 0.1\n0 0.1 7\n";
    ends(&rt, alloc, HANDLES, &unwritten, (6, 0), lines)
}

#[test]
fn threads_run_beside_each_other(rt: HostRuntime) -> Result<(), Fail> {
    let input = "handles 1 threads 2 slots 1 blocks 256
thread 0
take 0
take 0
thread 1
take 0
take 0
end
";
    let lines = "0 none\n0 none\n1 none\n1 none\n";
    meets(&rt, rt.alloc(), HANDLES, input, 8, lines)
}
