//! Replays that have more turns than they need.

use crate::testing::{Call, made};
use std::alloc::Global;
use std::process::Abort;
use std::sync::Wait;
use std::test::Fail;
use std::thread::Threads;

/// A job that is done after a few turns.
const SHORT_JOB: &str = "rtheap 1 threads 2 blocks 1024 live 20 object 2 shared 4
thread 0
set 1 5
put 0 0 1
thread 1
say 0
end
";

/// How often it is replayed: replays that made all their turns would take more than a minute
/// together.
const REPLAYS: u32 = 20;

/// That a replay by this schedule ends when all threads are done, however many turns it has.
fn stops(
    rt: &(impl Abort + Threads + Wait + Sync),
    alloc: Global,
    schedule: &str,
) -> Result<(), Fail> {
    for _ in 0..REPLAYS {
        let call = Call {
            words: &["replay", schedule, "1000000000"],
            ..Call::run(SHORT_JOB)
        };
        let (exit, sink) = made(rt, alloc, &call)?;
        assert_eq!(rt; (exit.status, exit.due), (0, 0));
        assert!(rt; sink.bytes().ends_with(b"end cycles 1 work 0\n"));
    }
    Ok(())
}

#[test]
fn a_serial_replay_stops_when_all_are_done(rt: HostRuntime) -> Result<(), Fail> {
    stops(&rt, rt.alloc(), "serial")
}

#[test]
fn a_replay_in_turn_stops_when_all_are_done(rt: HostRuntime) -> Result<(), Fail> {
    stops(&rt, rt.alloc(), "robin")
}

#[test]
fn a_drawn_replay_stops_when_all_are_done(rt: HostRuntime) -> Result<(), Fail> {
    stops(&rt, rt.alloc(), "7")
}
