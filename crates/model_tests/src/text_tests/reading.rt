//! Small jobs, read whole and in pieces.

ghost use Rattle.std.specs.Prelude.{◌≤◌, IfOk};
ghost use Rattle.trace_text.specs.Jobs.{IsJobInBounds};

use block_store::{Config, Width};
use never_heap::Command;
use std::alloc::{AllocError, Global};
use std::process::Abort;
use std::test::Fail;
use trace_text::{Job, MemSink, MemSource, TraceFault, read_trace, write_job};

const SMALL: Config = Config {
    width: Width::Four,
    threads: 1,
    blocks: 64,
    live: 20,
    object: 2,
    shared: 0,
};

/// What reading these bytes answers, at most `most` of them a call. The calls in `fail` fail.
fn read(
    alloc: Global,
    bytes: &[u8],
    most: usize,
    fail: &[u64],
) -> Result<Result<Job, TraceFault>, AllocError>
    requires { 1 ≤ most }
    ensures { IfOk result (λ read. IfOk read IsJobInBounds) }
{
    let bytes = Vec::from_slice(alloc, bytes)?;
    let fail = Vec::from_slice(alloc, fail)?;
    let mut source = MemSource::new(bytes, most, fail);
    Ok(read_trace(alloc, &mut source))
}

/// That a job is one of this configuration and these traces.
fn expect_job(rt: &impl Abort, job: &Job, config: &Config, traces: &[&[Command]]) {
    assert_eq!(rt; &job.config, config);
    assert_eq!(rt; job.traces.len(), traces.len());
    for t in 0..traces.len() {
        assert_eq!(rt; job.trace(t), traces[t]);
    }
}

#[test]
fn a_job_is_read_in_any_pieces(rt: HostRuntime) -> Result<(), Fail> {
    let text = b"rtheap 1 threads 1 blocks 64 live 20 object 2 shared 0
thread 0
new 1 2
put 1 1 1
get 2 1 1
get 3 1 2
nil 1
say 1
say 2
get 3 1 0
say 0
end
";
    let trace = [
        Command::New { d: 1, fields: 2 },
        Command::Put { s: 1, i: 1, v: 1 },
        Command::Get { d: 2, s: 1, i: 1 },
        Command::Get { d: 3, s: 1, i: 2 },
        Command::Nil { d: 1 },
        Command::Say { s: 1 },
        Command::Say { s: 2 },
        Command::Get { d: 3, s: 1, i: 0 },
        Command::Say { s: 0 },
    ];
    for most in [1, 3, 64] {
        let job = read(rt.alloc(), text, most, &[])??;
        expect_job(&rt, &job, &SMALL, &[&trace]);
    }
    Ok(())
}

#[test]
fn a_source_that_fails_is_a_read_fault(rt: HostRuntime) -> Result<(), Fail> {
    let text = b"rtheap 1 threads 1 blocks 64 live 20 object 2 shared 0\nthread 0\nend";
    let fault = read(rt.alloc(), text, 8, &[1])?.err();
    assert_eq!(rt; fault, Some(TraceFault::ReadFault));
    Ok(())
}

/// That this text, in pieces, is read as a job of this configuration and these traces, and is what
/// is written of that job.
fn expect_round_trip(
    rt: &impl Abort,
    alloc: Global,
    text: &[u8],
    config: &Config,
    traces: &[&[Command]],
) -> Result<(), Fail> {
    let job = read(alloc, text, 7, &[])??;
    expect_job(rt, &job, config, traces);
    let mut sink = MemSink::new(alloc, 1000, Vec::new(alloc))
        .ok()
        .ok_or("memory")?;
    assert_eq!(rt; write_job(&job, &mut sink), Ok(()));
    assert_eq!(rt; sink.bytes(), text);
    Ok(())
}

/// The commands of both versions, for two threads.
const FIRST: [Command; 5] = [
    Command::New { d: 1, fields: 6 },
    Command::Arr { d: 15, elements: 4 },
    Command::Set {
        d: 1,
        value: 4_611_686_018_427_387_903,
    },
    Command::Nil { d: 1 },
    Command::Mov { d: 1, s: 2 },
];

const SECOND: [Command; 5] = [
    Command::Get { d: 1, s: 2, i: 3 },
    Command::Put { s: 1, i: 2, v: 3 },
    Command::Len { s: 1 },
    Command::Same { a: 1, b: 2 },
    Command::Say { s: 0 },
];

const PAIR: Config = Config {
    threads: 2,
    shared: 4,
    ..SMALL
};

#[test]
fn ten_commands_of_version_1_are_read_and_written(rt: HostRuntime) -> Result<(), Fail> {
    let text = b"rtheap 1 threads 2 blocks 64 live 20 object 2 shared 4
thread 0
new 1 6
arr 15 4
set 1 4611686018427387903
nil 1
mov 1 2
thread 1
get 1 2 3
put 1 2 3
len 1
same 1 2
say 0
end
";
    expect_round_trip(&rt, rt.alloc(), text, &PAIR, &[&FIRST, &SECOND])
}

/// A job with all of them.
const THIRTEEN: &[u8] = b"rtheap 2 threads 3 blocks 64 live 20 object 2 shared 4
thread 0
new 1 6
arr 15 4
set 1 4611686018427387903
nil 1
mov 1 2
thread 1
get 1 2 3
put 1 2 3
len 1
same 1 2
say 0
thread 2
new 1 14
arr 2 8
swap 15 4611686018427387903 2
cas 1 0 2 3
idle 131070
idle 0
end
";

#[test]
fn thirteen_commands_of_version_2_are_read_and_written(rt: HostRuntime) -> Result<(), Fail> {
    let third = [
        Command::New { d: 1, fields: 14 },
        Command::Arr { d: 2, elements: 8 },
        Command::Swap {
            s: 15,
            i: 4_611_686_018_427_387_903,
            v: 2,
        },
        Command::Cas {
            s: 1,
            i: 0,
            a: 2,
            v: 3,
        },
        Command::Idle { units: 131_070 },
        Command::Idle { units: 0 },
    ];
    let config = Config {
        width: Width::Eight,
        threads: 3,
        ..PAIR
    };
    expect_round_trip(
        &rt,
        rt.alloc(),
        THIRTEEN,
        &config,
        &[&FIRST, &SECOND, &third],
    )
}
