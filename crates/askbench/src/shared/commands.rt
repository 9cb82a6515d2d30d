//! Times the commands of a job.

ghost use Rattle.std.specs.Prelude.{◌≡◌};

use crate::numbers::three;
use crate::shared::kinds::add_kind;
use crate::shared::slim::{ask, open, read_job, room, tell_of};
use crate::slim::{nanoseconds, push};
use crate::stop::Stop;
use never_heap::Command;
use shared_heap::{SharedHeap, Worker};
use std::alloc::Global;
use std::sync::Wait;
use std::thread;
use std::thread::Threads;
use std::time::Clock;
use trace_text::Job;

/// The times of one thread, in the order of its commands.
pub type Times = Result<Vec<u64>, Stop>;

/// What each thread does after its trace: its last commands again and again.
#[derive(Clone, Copy)]
pub struct Plan {
    /// How many of its last commands.
    pub tail: u64,
    /// How often they are done untimed, and how often timed after that.
    pub warm: u64,
    pub timed: u64,
}

/// Prints a line for each kind of command, and one for all.
pub fn run<R: Threads + Wait + Clock + Sync>(
    rt: &HostRuntime,
    threads: &R,
    words: &[String],
) -> Result<(), Stop> {
    let [tail, warm, timed] = three(words)?;
    let job = read_job(rt)?;
    time_job(rt, threads, &job, Plan { tail, warm, timed })
}

fn time_job<R: Threads + Wait + Clock + Sync>(
    rt: &HostRuntime,
    threads: &R,
    job: &Job,
    plan: Plan,
) -> Result<(), Stop> {
    let all = all_times(threads, rt.alloc(), job, plan)?;
    tell_kinds(rt, job, plan, all.as_slice())
}

fn tell_kinds(rt: &HostRuntime, job: &Job, plan: Plan, all: &[Times]) -> Result<(), Stop> {
    for kind in ["new", "get", "put", "others", "all"] {
        tell_kind(rt, job, plan, all, kind)?;
    }
    Ok(())
}

fn tell_kind(
    rt: &HostRuntime,
    job: &Job,
    plan: Plan,
    all: &[Times],
    kind: &str,
) -> Result<(), Stop> {
    let mut found = Vec::new(rt.alloc());
    match add_kind(job, plan, all, kind, &mut found) {
        Ok(()) => tell_of(rt, kind, "commands", &mut found),
        Err(stop) => Err(stop),
    }
}

pub fn trace_of(job: &Job, thread: usize) -> &[Command] {
    match job.traces.get(thread) {
        Some(trace) => trace.as_slice(),
        None => &[],
    }
}

/// The last commands of a trace.
pub fn tail_of(trace: &[Command], plan: Plan) -> &[Command] {
    let first = (trace.len() as u64).saturating_sub(plan.tail) as usize;
    trace.get(first..).unwrap_or(trace)
}

/// The times of all threads.
fn all_times<R: Threads + Wait + Clock + Sync>(
    rt: &R,
    alloc: Global,
    job: &Job,
    plan: Plan,
) -> Result<Vec<Times>, Stop> {
    let (heap, workers) = open(alloc, job.config)?;
    let all = thread::map_vec(
        rt,
        workers,
        &|who: Worker| -> Times
            requires { who.heap ≡ heap.id }
        { thread_times(rt, alloc, &heap, job, plan, who) },
    );
    match all {
        Ok(all) => Ok(all),
        Err(_) => Err(Stop::NoMemory),
    }
}

/// The times of one thread.
fn thread_times<R: Wait + Clock>(
    rt: &R,
    alloc: Global,
    heap: &SharedHeap,
    job: &Job,
    plan: Plan,
    who: Worker,
) -> Times
    requires { who.heap ≡ heap.now.id }
{
    let mut who = who;
    let trace = trace_of(job, who.thread() as usize);
    let mut times = room(alloc, most_times(trace, plan))?;
    match do_trace(rt, heap, &mut who, trace, plan, &mut times) {
        Ok(()) => Ok(times),
        Err(stop) => Err(stop),
    }
}

/// How many times are kept at most: those of the trace, or those that are timed.
fn most_times(trace: &[Command], plan: Plan) -> u64 {
    let tail = tail_of(trace, plan).len() as u64;
    tail.saturating_mul(plan.timed).max(trace.len() as u64)
}

/// Does the trace of a thread, then its tail untimed, and then timed.
fn do_trace<R: Wait + Clock>(
    rt: &R,
    heap: &SharedHeap,
    who: &mut Worker,
    trace: &[Command],
    plan: Plan,
    times: &mut Vec<u64>,
) -> Result<(), Stop>
    requires { who.old.heap ≡ heap.now.id }
{
    let tail = tail_of(trace, plan);
    add_times(rt, heap, who, trace, times)?;
    for _before in 0..plan.warm {
        times.clear();
        add_times(rt, heap, who, tail, times)?;
    }
    times.clear();
    for _round in 0..plan.timed {
        add_times(rt, heap, who, tail, times)?;
    }
    Ok(())
}

/// Does commands one after the other, and adds how many nanoseconds each took: from the end of the
/// one before to its own.
fn add_times<R: Wait + Clock>(
    rt: &R,
    heap: &SharedHeap,
    who: &mut Worker,
    commands: &[Command],
    times: &mut Vec<u64>,
) -> Result<(), Stop>
    requires { who.old.heap ≡ heap.now.id }
    ensures { who.new.heap ≡ heap.now.id }
{
    let mut before = nanoseconds(rt);
    for command in commands {
        ask(rt, heap, who, *command)?;
        let now = nanoseconds(rt);
        push(times, now.saturating_sub(before))?;
        before = now;
    }
    Ok(())
}
