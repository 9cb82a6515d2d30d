//! Streams that fail at each of their calls in turn, sinks with too little room, and inputs that
//! are cut off.

use crate::hostile_use::calling::{
    ANSWERS, Call, IN_ORDER, JOB, MADE, WIDE_ANSWERS, WIDE_JOB, made,
};
use std::alloc::Global;
use std::process::Abort;
use std::sync::Wait;
use std::test::Fail;
use std::thread::Threads;

/// A way to ask: the words, the input, the status that is due, and what is then written.
type Asked = (&'static [&'static str], &'static [u8], u8, &'static [u8]);

/// Each task, and refusals.
const ASKED: [Asked; 9] = [
    (&["run"], JOB, 0, ANSWERS),
    (&["run"], WIDE_JOB, 0, WIDE_ANSWERS),
    (&["replay", "serial", "1654"], JOB, 0, IN_ORDER),
    (&["plan"], JOB, 0, b"rate 7\n"),
    (&["make", "7", "3"], b"", 0, MADE),
    (&["trial", "7", "0"], b"", 0, b"end cycles 1 work 0\n"),
    (&["walk"], JOB, 2, b"rtheap: usage\n"),
    (&["run"], b"", 3, b"rtheap: line 1: header\n"),
    (
        &["replay", "robin", "1"],
        JOB,
        8,
        b"rtheap: turns used, thread 0\n",
    ),
];

/// The first lines of a text, as many as have at most so many bytes together and of which none is
/// the line of that number or one after it.
fn front(text: &[u8], lines: u64, room: usize) -> &[u8] {
    let mut count = 0;
    let mut length = 0;
    for (i, byte) in text.iter().enumerate() {
        if *byte == b'\n' && count < lines && i < room {
            count += 1;
            length = i.saturating_add(1);
        }
    }
    text.get(..length).unwrap_or(text)
}

fn lines_of(text: &[u8]) -> u64 {
    let mut count: u64 = 0;
    for byte in text {
        if *byte == b'\n' {
            count = count.saturating_add(1);
        }
    }
    count
}

/// Makes a call, and compares its statuses, whether it hands a run back, and what the sink holds.
fn ends(
    rt: &(impl Abort + Threads + Wait + Sync),
    alloc: Global,
    call: &Call<'_>,
    status: u8,
    due: u8,
    held: &[u8],
) -> Result<(), Fail> {
    let (exit, sink) = made(rt, alloc, call)?;
    assert_eq!(rt; (exit.status, exit.due), (status, due));
    assert_eq!(rt; sink.bytes(), held);
    let runs = matches!(call.words.first(), Some(&"run") | Some(&"replay"));
    assert_eq!(rt; exit.run.is_some(), runs && due == 0);
    Ok(())
}

#[test]
fn a_sink_that_fails_at_any_put_holds_the_lines_before(rt: HostRuntime) -> Result<(), Fail> {
    let alloc = rt.alloc();
    for (words, input, due, text) in ASKED {
        let count = lines_of(text);
        for put in 0..count {
            let call = Call {
                write_fails: &[put],
                ..Call::of(words, input)
            };
            ends(&rt, alloc, &call, 6, due, front(text, put, text.len()))?;
        }
        let call = Call {
            write_fails: &[count],
            ..Call::of(words, input)
        };
        ends(&rt, alloc, &call, due, due, text)?;
    }
    Ok(())
}

#[test]
fn a_sink_without_room_holds_the_lines_that_fit(rt: HostRuntime) -> Result<(), Fail> {
    let alloc = rt.alloc();
    for (words, input, due, text) in ASKED {
        for room in 0..text.len() {
            let call = Call {
                room,
                ..Call::of(words, input)
            };
            ends(&rt, alloc, &call, 6, due, front(text, u64::MAX, room))?;
        }
        let call = Call {
            room: text.len(),
            ..Call::of(words, input)
        };
        ends(&rt, alloc, &call, due, due, text)?;
    }
    Ok(())
}

#[test]
fn a_source_that_fails_at_any_call_is_a_read_fault(rt: HostRuntime) -> Result<(), Fail> {
    let alloc = rt.alloc();
    let asked: [(&[&str], &[u8]); 4] = [
        (&["run"], JOB),
        (&["run"], WIDE_JOB),
        (&["plan"], JOB),
        (&["replay", "serial", "1654"], JOB),
    ];
    for (task, job) in asked {
        for call in 0..=job.len() as u64 {
            let failing = Call {
                most: 1,
                read_fails: &[call],
                ..Call::of(task, job)
            };
            ends(&rt, alloc, &failing, 5, 5, b"rtheap: read fault\n")?;
        }
    }
    let behind = Call {
        most: 1,
        read_fails: &[JOB.len() as u64 + 1],
        ..Call::of(&["run"], JOB)
    };
    ends(&rt, alloc, &behind, 0, 0, ANSWERS)
}

#[test]
fn an_input_that_is_cut_off_is_no_job(rt: HostRuntime) -> Result<(), Fail> {
    let alloc = rt.alloc();
    for job in [JOB, WIDE_JOB] {
        for length in 0..job.len() {
            let input = job.get(..length).unwrap_or(job);
            let (exit, _sink) = made(&rt, alloc, &Call::of(&["run"], input))?;
            let due = if length + 1 == job.len() { 0 } else { 3 };
            assert_eq!(rt; (exit.status, exit.due), (due, due), "{length} bytes");
        }
    }
    Ok(())
}
