//! Calls of the libraries without their contracts, which no test here needs.

use block_store::{Config, Width};
use control_heap::ControlHeap;
use heap_system::NoPace;
use historian_core::{Stop, report, start};
use never_heap::{Command, Reply};
use rt_mail::mail;
use saved_heap::{Ended, RecordFault, Recorder};
use std::alloc::Global;
use std::sync::Wait;
use std::test::Fail;
use std::thread::Threads;
use std::time::{Clock, CpuClock};
use timed_runs::timed;
use trace_text::{Job, MemSink, MemSource, job_of};

/// A source of a text, of which these calls fail.
fn source_of(alloc: Global, text: &[u8], fails: &[u64]) -> Result<MemSource, Fail> {
    let bytes = Vec::from_slice(alloc, text)?;
    Ok(MemSource::new(bytes, 100, Vec::from_slice(alloc, fails)?))
}

/// A sink of so many bytes, of which these calls fail.
pub fn sink_of(alloc: Global, room: usize, fails: &[u64]) -> Result<MemSink, Fail> {
    match MemSink::new(alloc, room, Vec::from_slice(alloc, fails)?) {
        Ok(sink) => Ok(sink),
        Err(_) => Err("memory".into()),
    }
}

/// What `timedrun` does: the status, and what is written.
pub fn timed_by<R: Threads + Wait + Sync, C: Clock + CpuClock + Sync>(
    rt: &R,
    alloc: Global,
    clock: &C,
    words: &[String],
    input: &str,
) -> Result<(u8, MemSink), Fail> {
    let mut source = source_of(alloc, input.as_bytes(), &[])?;
    let mut sink = sink_of(alloc, 4000, &[])?;
    match timed(rt, clock, alloc, words, &mut source, &mut sink) {
        Ok(exit) => Ok((exit.status, sink)),
        Err(_) => Err("memory".into()),
    }
}

/// What `mailrun` does: its statuses, and what is written.
pub fn mailed<R: Threads + Wait + Sync>(
    rt: &R,
    alloc: Global,
    input: &str,
    fails: (&[u64], &[u64]),
) -> Result<((u8, u8), MemSink), Fail> {
    let mut source = source_of(alloc, input.as_bytes(), fails.0)?;
    let mut sink = sink_of(alloc, 4000, fails.1)?;
    let exit = mail(rt, alloc, &[], &mut source, &mut sink, &NoPace);
    Ok(((exit.status, exit.due), sink))
}

/// What `historian` reports, and what is written.
pub fn reported(
    alloc: Global,
    input: &[u8],
    fails: (&[u64], &[u64]),
) -> Result<(Result<(), Stop>, MemSink), Fail> {
    let mut source = source_of(alloc, input, fails.0)?;
    let mut sink = sink_of(alloc, 4000, fails.1)?;
    match start(alloc) {
        Ok(mut historian) => {
            let end = report(&mut historian, &mut source, &mut sink);
            Ok((end, sink))
        }
        Err(_) => Err("memory".into()),
    }
}

/// A recorder over a sink of which these calls fail.
pub fn recorder(alloc: Global, width: Width, fails: &[u64]) -> Result<Recorder<MemSink>, Fail> {
    let config = Config {
        width,
        threads: 1,
        blocks: 64,
        live: 20,
        object: 2,
        shared: 4,
    };
    let sink = sink_of(alloc, 100_000, fails)?;
    match ControlHeap::open(alloc, config) {
        Ok(heap) => Ok(Recorder::new(heap, sink)),
        Err(_) => Err("it opens".into()),
    }
}

pub fn opened(alloc: Global, config: Config) -> Result<ControlHeap, Fail> {
    match ControlHeap::open(alloc, config) {
        Ok(heap) => Ok(heap),
        Err(_) => Err("it opens".into()),
    }
}

pub fn record(recorder: &mut Recorder<MemSink>, command: Command) -> Result<Reply, RecordFault> {
    recorder.ask(command)
}

pub fn recorded(recorder: &Recorder<MemSink>) -> u32 {
    recorder.recorded()
}

pub fn executed(recorder: &Recorder<MemSink>) -> u64 {
    recorder.heap().asked()
}

pub fn is_torn(recorder: &Recorder<MemSink>) -> bool {
    recorder.is_torn()
}

/// How many commands the heap executed, what was written, and whether it is all.
pub fn ended(recorder: Recorder<MemSink>) -> (u64, MemSink, bool) {
    let Ended { heap, sink, whole } = recorder.end();
    (heap.asked(), sink, whole)
}

/// The job that a text spells.
pub fn read(alloc: Global, text: &[u8]) -> Option<Job> {
    if text.len() > trace_text::INPUT_LIMIT {
        return None;
    }
    job_of(alloc, text).ok()
}

/// The reply of a heap that is opened for a job, where it executes the command.
pub fn reply(heap: &mut ControlHeap, command: Command) -> Option<Reply> {
    heap.ask(command).ok()
}
