//! Times writes and reads of a table of tags that threads use beside each other. `bench/live_tags`
//! runs it.

ghost use Rattle.live_tables.specs.rows.Workers.{IsOf};

use crate::numbers::{size_at, three};
use crate::shared::slim::{open_tags, read_tag, room, tell_of, write_tag};
use crate::slim::{nanoseconds, push};
use crate::stop::Stop;
use live_tables::tags::{LiveTags, TagWorker};
use std::alloc::Global;
use std::sync::Wait;
use std::thread;
use std::thread::Threads;
use std::time::Clock;

/// What each thread does: rounds of a write and a read of one place.
#[derive(Clone, Copy)]
struct Rounds {
    threads: u32,
    /// How many are done untimed, and how many timed after that.
    warm: u64,
    timed: u64,
}

/// The times of writes and reads, in nanoseconds.
#[derive(Drop)]
struct Times {
    writes: Vec<u64>,
    reads: Vec<u64>,
}

/// Prints a line for the writes of all threads, and one for their reads.
pub fn run<R: Threads + Wait + Clock + Sync>(
    rt: &HostRuntime,
    threads: &R,
    words: &[String],
) -> Result<(), Stop> {
    let each = all_times(threads, rt.alloc(), rounds_of(words)?)?;
    tell_all(rt, each.as_slice())
}

fn rounds_of(words: &[String]) -> Result<Rounds, Stop> {
    let [_, warm, timed] = three(words)?;
    let threads = size_at(words, 0)?;
    Ok(Rounds {
        threads,
        warm,
        timed,
    })
}

fn tell_all(rt: &HostRuntime, each: &[Result<Times, Stop>]) -> Result<(), Stop> {
    let mut all = Times {
        writes: Vec::new(rt.alloc()),
        reads: Vec::new(rt.alloc()),
    };
    match add_all(each, &mut all) {
        Ok(()) => tell_times(rt, &mut all),
        Err(stop) => Err(stop),
    }
}

fn tell_times(rt: &HostRuntime, all: &mut Times) -> Result<(), Stop> {
    tell_of(rt, "write", "operations", &mut all.writes)?;
    tell_of(rt, "read", "operations", &mut all.reads)
}

fn add_all(each: &[Result<Times, Stop>], all: &mut Times) -> Result<(), Stop> {
    for times in each {
        add_of(times, all)?;
    }
    Ok(())
}

fn add_of(times: &Result<Times, Stop>, all: &mut Times) -> Result<(), Stop> {
    match times {
        Ok(times) => {
            add_list(&times.writes, &mut all.writes)?;
            add_list(&times.reads, &mut all.reads)
        }
        Err(stop) => Err(*stop),
    }
}

fn add_list(times: &[u64], all: &mut Vec<u64>) -> Result<(), Stop> {
    match all.extend_from_slice(times) {
        Ok(()) => Ok(()),
        Err(_) => Err(Stop::NoMemory),
    }
}

/// The times of all threads.
fn all_times<R: Threads + Wait + Clock + Sync>(
    rt: &R,
    alloc: Global,
    rounds: Rounds,
) -> Result<Vec<Result<Times, Stop>>, Stop> {
    let (table, workers) = open_tags(alloc, rounds.threads)?;
    let each = thread::map_vec(
        rt,
        workers,
        &|who: TagWorker| -> Result<Times, Stop>
            requires { IsOf table who }
        { thread_times(rt, alloc, &table, rounds, who) },
    );
    match each {
        Ok(each) => Ok(each),
        Err(_) => Err(Stop::NoMemory),
    }
}

/// The times of one thread.
fn thread_times<R: Wait + Clock>(
    rt: &R,
    alloc: Global,
    table: &LiveTags,
    rounds: Rounds,
    who: TagWorker,
) -> Result<Times, Stop>
    requires { IsOf table.now who }
{
    let mut who = who;
    let mut times = room_for(alloc, rounds.warm.max(rounds.timed))?;
    match do_rounds(rt, table, &mut who, rounds, &mut times) {
        Ok(()) => Ok(times),
        Err(stop) => Err(stop),
    }
}

fn room_for(alloc: Global, rounds: u64) -> Result<Times, Stop> {
    let writes = room(alloc, rounds)?;
    let reads = room(alloc, rounds)?;
    Ok(Times { writes, reads })
}

/// Does untimed rounds, and then those that are timed.
fn do_rounds<R: Wait + Clock>(
    rt: &R,
    table: &LiveTags,
    who: &mut TagWorker,
    rounds: Rounds,
    times: &mut Times,
) -> Result<(), Stop>
    requires { IsOf table.now who.old }
{
    add_times(rt, table, who, rounds.warm, times)?;
    times.writes.clear();
    times.reads.clear();
    add_times(rt, table, who, rounds.timed, times)
}

/// Writes and reads one place after the other, and adds how long each operation took: from the end
/// of the one before to its own.
fn add_times<R: Wait + Clock>(
    rt: &R,
    table: &LiveTags,
    who: &mut TagWorker,
    rounds: u64,
    times: &mut Times,
) -> Result<(), Stop>
    requires { IsOf table.now who.old }
    ensures { IsOf table.now who.new }
{
    let mut before = nanoseconds(rt);
    for round in 0..rounds {
        write_tag(rt, table, who, round)?;
        let written = nanoseconds(rt);
        push(&mut times.writes, written.saturating_sub(before))?;
        read_tag(rt, table, who, round)?;
        before = nanoseconds(rt);
        push(&mut times.reads, before.saturating_sub(written))?;
    }
    Ok(())
}
