//! Whole calls over sources and sinks in memory, for the tests.

use heap_system::{NoPace, Pace};
use rtheap_core::{Exit, rtheap};
use std::alloc::{AllocError, Global};
use std::sync::Wait;
use std::test::Fail;
use std::thread::Threads;
use trace_text::{MemSink, MemSource};

/// A job without commands, with the lines `thread 0` and `end` left out.
const HEADER: &str = "rtheap 1 threads 1 blocks 64 live 20 object 2 shared 0\nthread 0\n";

/// The most bytes that a sink of these tests takes.
const ROOM: usize = 1 << 22;

/// What a call is given: its words, its input and in which pieces it comes, and which calls of the
/// source and the sink fail.
#[derive(Drop)]
pub struct Call<'a> {
    pub words: &'a [&'a str],
    pub input: &'a str,
    pub most: usize,
    pub read_fails: &'a [u64],
    pub write_fails: &'a [u64],
}

impl<'a> Call<'a> {
    pub fn run(input: &'a str) -> Call<'a> {
        Call {
            words: &["run"],
            input,
            most: 7,
            read_fails: &[],
            write_fails: &[],
        }
    }
}

fn texts(alloc: Global, words: &[&str]) -> Result<Vec<String>, AllocError> {
    let mut all = Vec::new(alloc);
    for word in words {
        all.push(String::from_str(alloc, word)?)?;
    }
    Ok(all)
}

/// Makes a call, and gives its exit and what it wrote.
pub fn made<R: Threads + Wait + Sync>(
    rt: &R,
    alloc: Global,
    call: &Call<'_>,
) -> Result<(Exit, MemSink), Fail> {
    made_at(rt, alloc, call, &NoPace)
}

/// Makes a call at a pace.
pub fn made_at<R: Threads + Wait + Sync>(
    rt: &R,
    alloc: Global,
    call: &Call<'_>,
    pace: &impl Pace,
) -> Result<(Exit, MemSink), Fail> {
    let words = texts(alloc, call.words)?;
    let bytes = Vec::from_slice(alloc, call.input.as_bytes())?;
    let most = call.most.max(1);
    let mut source = MemSource::new(bytes, most, Vec::from_slice(alloc, call.read_fails)?);
    let mut sink = MemSink::new(alloc, ROOM, Vec::from_slice(alloc, call.write_fails)?)
        .ok()
        .ok_or("memory")?;
    let exit = rtheap(rt, alloc, &words, &mut source, &mut sink, pace);
    Ok((exit, sink))
}

/// The header of the usual heap.
pub fn job_begun(alloc: Global) -> Result<String, AllocError> {
    String::from_str(alloc, HEADER)
}

/// A job on the usual heap with these command lines.
pub fn job(alloc: Global, commands: &str) -> Result<String, AllocError> {
    format!(in alloc; "{HEADER}{commands}end\n")
}

/// Commands of every kind.
pub const EACH_KIND: &str = "new 1 2
set 2 5
put 1 1 2
get 3 1 1
get 3 1 2
say 3
get 3 4 0
get 3 2 0
len 1
len 4
same 1 1
same 1 2
put 4 0 2
say 1
say 0
len 0
";
