//! How long requests take, and how late a loop of 1 kHz runs.

use crate::HEAP;
use crate::numbers::two;
use crate::slim::{ask, do_all, nanoseconds, open, print_ranks, push};
use crate::stop::Stop;
use control_heap::ControlHeap;
use never_heap::Command;

/// How many records are live while requests are timed.
const LIVE: u64 = 500;

/// The requests that are timed, each with the beginning of its line.
const KINDS: [(&str, Command); 6] = [
    ("new:", Command::New { d: 1, fields: 2 }),
    ("get:", Command::Get { d: 3, s: 2, i: 0 }),
    ("put:", Command::Put { s: 1, i: 1, v: 2 }),
    ("swap:", Command::Swap { s: 1, i: 1, v: 2 }),
    ("set:", Command::Set { d: 4, value: 7 }),
    ("idle 10:", Command::Idle { units: 10 }),
];

/// Prints a line for each kind of request, and one for the loop.
pub fn run(rt: &HostRuntime, words: &[String]) -> Result<(), Stop> {
    match two(words)? {
        [0, _] | [_, 0] => Err(Stop::Usage),
        [requests, ticks] => time_all(rt, requests, ticks),
    }
}

fn time_all(rt: &HostRuntime, requests: u64, ticks: u64) -> Result<(), Stop> {
    if nanoseconds(rt) == 0 {
        return Err(Stop::Clock);
    }
    time_requests(rt, requests)?;
    time_ticks(rt, ticks)
}

fn time_requests(rt: &HostRuntime, requests: u64) -> Result<(), Stop> {
    let mut heap = open(rt.alloc(), HEAP)?;
    time_kinds(rt, &mut heap, requests)
}

fn time_kinds(rt: &HostRuntime, heap: &mut ControlHeap, requests: u64) -> Result<(), Stop> {
    fill(heap)?;
    for (kind, command) in KINDS.iter() {
        time_kind(rt, heap, kind, *command, requests)?;
    }
    Ok(())
}

fn time_kind(
    rt: &HostRuntime,
    heap: &mut ControlHeap,
    kind: &str,
    command: Command,
    requests: u64,
) -> Result<(), Stop> {
    let mut times = Vec::new(rt.alloc());
    match add_times(rt, heap, command, requests, &mut times) {
        Ok(()) => tell(rt, kind, &mut times),
        Err(stop) => Err(stop),
    }
}

/// Makes a list of records in register 2.
pub fn fill(heap: &mut ControlHeap) -> Result<(), Stop> {
    for _ in 0..LIVE {
        do_all(
            heap,
            &[
                Command::New { d: 1, fields: 2 },
                Command::Put { s: 1, i: 0, v: 2 },
                Command::Mov { d: 2, s: 1 },
            ],
        )?;
    }
    Ok(())
}

/// Adds how long each of some requests took, in nanoseconds.
fn add_times(
    rt: &HostRuntime,
    heap: &mut ControlHeap,
    command: Command,
    requests: u64,
    times: &mut Vec<u64>,
) -> Result<(), Stop> {
    for _ in 0..requests {
        let before = nanoseconds(rt);
        ask(heap, command)?;
        push(times, nanoseconds(rt).saturating_sub(before))?;
    }
    Ok(())
}

fn time_ticks(rt: &HostRuntime, ticks: u64) -> Result<(), Stop> {
    let mut heap = open(rt.alloc(), HEAP)?;
    time_loop(rt, &mut heap, ticks)
}

fn time_loop(rt: &HostRuntime, heap: &mut ControlHeap, ticks: u64) -> Result<(), Stop> {
    fill(heap)?;
    let mut late = Vec::new(rt.alloc());
    match add_lateness(rt, heap, ticks, &mut late) {
        Ok(()) => tell(rt, "tick:", &mut late),
        Err(stop) => Err(stop),
    }
}

/// Adds how late each tick's work was done, in nanoseconds after the tick, with one tick each
/// millisecond.
fn add_lateness(
    rt: &HostRuntime,
    heap: &mut ControlHeap,
    ticks: u64,
    late: &mut Vec<u64>,
) -> Result<(), Stop> {
    let mut due = nanoseconds(rt);
    for tick in 0..ticks {
        due = due.saturating_add(1_000_000);
        await_time(rt, due);
        work(heap, tick)?;
        push(late, nanoseconds(rt).saturating_sub(due))?;
    }
    Ok(())
}

/// Reads the clock until it reads so much.
fn await_time(rt: &HostRuntime, due: u64) {
    for _ in 0..u64::MAX {
        if nanoseconds(rt) >= due {
            return;
        }
    }
}

/// Stores values in a record. Each fifth tick makes a new record.
fn work(heap: &mut ControlHeap, tick: u64) -> Result<(), Stop> {
    if tick % 5 == 0 {
        do_all(heap, &[Command::New { d: 1, fields: 2 }])?;
    }
    for value in 0..20 {
        do_all(
            heap,
            &[
                Command::Set { d: 4, value },
                Command::Put { s: 1, i: 1, v: 4 },
            ],
        )?;
    }
    Ok(())
}

/// Three of some times, in nanoseconds.
#[derive(Clone, Copy)]
pub struct Ranks {
    pub median: u64,
    /// What 999 of 1,000 are within.
    pub most: u64,
    pub longest: u64,
}

/// Those of some times, which it sorts. Of no times they are 0.
fn ranks_of(times: &mut Vec<u64>) -> Ranks {
    times.sort_unstable();
    let count = times.len();
    Ranks {
        median: time_at(times, count / 2),
        most: time_at(times, count.saturating_sub(count / 1000 + 1)),
        longest: time_at(times, count.saturating_sub(1)),
    }
}

fn time_at(times: &[u64], place: usize) -> u64 {
    times.get(place).copied().unwrap_or(0)
}

/// Prints three of the times of a kind, after the beginning of its line, or nothing if there are
/// none.
pub fn tell(rt: &HostRuntime, begins: &str, times: &mut Vec<u64>) -> Result<(), Stop> {
    if times.is_empty() {
        return Ok(());
    }
    print_ranks(rt, begins, ranks_of(times))
}
