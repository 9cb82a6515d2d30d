//! Two threads on a `LockBoard` that meet: neither gets on unless the other runs beside it. And two
//! that allocate over many cycles.

ghost use Rattle.std.specs.Prelude.{◌<◌, map};
ghost use Rattle.heap_system.specs.Machines.{IsJob};

use block_store::{Config, OutOfMemory};
use heap_system::{Finished, NoPace, Pace};
use lock_board::LockBoard;
use never_heap::{Command, Logs};
use std::alloc::Global;
use std::sync::Wait;
use std::thread;
use std::thread::Threads;
use test_kit::{MEETING, Meeting, TWO, are_right, have_said, job, two_says};

#[test]
fn two_threads_meet(rt: HostRuntime) -> Result<(), OutOfMemory> {
    let pace = Meeting::new();
    let run = run(&rt, rt.alloc(), MEETING, two_says(rt.alloc())?, &pace)?;
    assert!(rt; pace.took_place());
    let run = run.expect(&rt, "both threads are done");
    assert!(rt; run.config() == &MEETING);
    assert!(rt; have_said(&run));
    assert_eq!(rt; (run.threads(), run.cycles(), run.units()), (2, 1, 0));
    Ok(())
}

// Rounds of two threads. A cycle gives at most two units for each block, so they take at least 12.
#[test]
fn two_threads_allocate_over_many_cycles(rt: HostRuntime) -> Result<(), OutOfMemory> {
    let Some(traces) = job(rt.alloc(), &TWO)? else {
        assert!(rt; false, "no job");
        return Ok(());
    };
    let run = run(&rt, rt.alloc(), TWO, traces, &NoPace)?;
    let run = run.expect(&rt, "both threads are done");
    assert!(rt; are_right(&run));
    assert_eq!(rt; (run.threads(), run.units()), (2, 3200));
    assert!(rt; run.cycles() >= 12);
    Ok(())
}

// Does a job of two threads, each in a call of its own.
fn run<R: Threads + Wait + Sync, Q: Pace>(
    rt: &R,
    alloc: Global,
    c: Config,
    traces: Vec<Vec<Command>>,
    pace: &Q,
) -> Result<Option<Finished>, OutOfMemory>
    requires { IsJob c (map (λ v. v.items) traces.items) }
{
    let board = LockBoard::new(alloc, c, traces)?;
    let _calls = thread::map_indices(
        rt,
        alloc,
        2,
        &|t: usize| -> ()
            requires { t < 65536 }
        { board.drive(rt, t as u32, pace) },
    )?;
    Ok(board.close().ok())
}
