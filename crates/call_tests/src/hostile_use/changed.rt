//! A job of each version, of which each byte in turn is changed, left out, or pushed away by
//! another.

use crate::hostile_use::calling::{ANSWERS, Call, JOB, WIDE_ANSWERS, WIDE_JOB, made};
use crate::hostile_use::plain_reader::first_wrong;
use rt_check::check;
use std::alloc::{AllocError, Global};
use std::process::Abort;
use std::sync::Wait;
use std::test::Fail;
use std::thread::Threads;
use trace_text::{MemSink, MemSource};

/// A change at a place of a text.
#[derive(Clone, Copy, Debug)]
enum Change {
    Replace(u8),
    Insert(u8),
    Remove,
}

/// What is in place of a byte, or in front of it: no character, a line feed, a space, a byte of
/// no text, and digits that change a number or the version.
const CHANGES: [Change; 15] = [
    Change::Replace(0),
    Change::Replace(b'\n'),
    Change::Replace(b' '),
    Change::Replace(255),
    Change::Replace(b'0'),
    Change::Replace(b'1'),
    Change::Replace(b'2'),
    Change::Replace(b'9'),
    Change::Insert(0),
    Change::Insert(b'\n'),
    Change::Insert(b' '),
    Change::Insert(255),
    Change::Insert(b'0'),
    Change::Insert(b'9'),
    Change::Remove,
];

/// The text with this change.
fn changed(
    alloc: Global,
    text: &[u8],
    place: usize,
    change: Change,
) -> Result<Vec<u8>, AllocError> {
    let mut all = Vec::new(alloc);
    for (i, byte) in text.iter().enumerate() {
        match change {
            Change::Replace(other) if i == place => all.push(other)?,
            Change::Insert(other) if i == place => {
                all.push(other)?;
                all.push(*byte)?;
            }
            Change::Remove if i == place => {}
            _ => all.push(*byte)?,
        }
    }
    Ok(all)
}

/// The refusal of an input by the plain reader, if it is no job.
fn refusal(alloc: Global, input: &[u8]) -> Result<Option<String>, AllocError> {
    match first_wrong(alloc, input)? {
        None => Ok(None),
        Some((line, why)) => Ok(Some(format!(in alloc; "rtheap: line {line}: {why}\n")?)),
    }
}

/// The lines of an order that are no starts of cycles.
fn without_starts(alloc: Global, order: &[u8]) -> Result<Vec<u8>, AllocError> {
    let mut lines = Vec::new(alloc);
    for line in order.split_inclusive(|byte| *byte == b'\n') {
        if !line.starts_with(b"start ") {
            lines.extend_from_slice(line)?;
        }
    }
    Ok(lines)
}

/// That the checker accepts the order of a job of one thread, and that the job's run wrote the
/// lines of this order.
fn is_a_run(
    rt: &(impl Abort + Threads + Wait + Sync),
    alloc: Global,
    input: &[u8],
    run: &[u8],
) -> Result<(), Fail> {
    let words = ["replay", "serial", "1000000"];
    let (exit, order) = made(rt, alloc, &Call::of(&words, input))?;
    assert_eq!(rt; (exit.status, exit.due), (0, 0));
    assert_eq!(rt; without_starts(alloc, order.bytes())?.as_slice(), run);
    let mut asked = Vec::from_slice(alloc, input)?;
    if !input.ends_with(b"\n") {
        asked.push(b'\n')?;
    }
    asked.extend_from_slice(order.bytes())?;
    let mut source = MemSource::new(asked, 100_000, Vec::new(alloc));
    let mut sink = MemSink::new(alloc, 100, Vec::new(alloc))
        .ok()
        .ok_or("memory")?;
    let exit = check(alloc, &[], &mut source, &mut sink);
    assert_eq!(rt; sink.bytes(), b"rt_check: ok\n".as_slice());
    assert_eq!(rt; exit.status, 0);
    Ok(())
}

/// Runs an input, and compares what is refused with the plain reader. An input that is a job has no
/// rate, or an answer that the checker accepts; the job itself has its own.
fn is_read_plainly(
    rt: &(impl Abort + Threads + Wait + Sync),
    alloc: Global,
    input: &[u8],
    (job, answers): (&[u8], &[u8]),
) -> Result<(), Fail> {
    let (exit, sink) = made(rt, alloc, &Call::of(&["run"], input))?;
    assert_eq!(rt; exit.status, exit.due);
    match refusal(alloc, input)? {
        Some(line) => {
            assert_eq!(rt; exit.status, 3, "{line}");
            assert_eq!(rt; sink.bytes(), line.as_bytes());
        }
        None if exit.status == 0 => is_a_run(rt, alloc, input, sink.bytes())?,
        None => assert_eq!(rt; exit.status, 4),
    }
    if input == job {
        assert_eq!(rt; sink.bytes(), answers);
    }
    Ok(())
}

/// Does so with each byte of a job under each change.
fn is_read_plainly_where_changed(
    rt: &(impl Abort + Threads + Wait + Sync),
    alloc: Global,
    job: &[u8],
    answers: &[u8],
) -> Result<(), Fail> {
    for change in CHANGES {
        for place in 0..job.len() {
            let input = changed(alloc, job, place, change)?;
            is_read_plainly(rt, alloc, &input, (job, answers))?;
        }
    }
    Ok(())
}

#[test]
fn an_input_with_any_byte_changed_is_read_as_a_plain_reader_reads_it(
    rt: HostRuntime,
) -> Result<(), Fail> {
    is_read_plainly_where_changed(&rt, rt.alloc(), JOB, ANSWERS)
}

#[test]
fn so_is_one_of_version_2(rt: HostRuntime) -> Result<(), Fail> {
    is_read_plainly_where_changed(&rt, rt.alloc(), WIDE_JOB, WIDE_ANSWERS)
}
