//! Calls of the libraries, one in each function. They promise no more than the next call needs, so
//! that no contract of a library is read again where one is called.

ghost use Rattle.std.specs.Prelude.{◌≡◌, IfOk};
ghost use Rattle.shared_heap.specs.Workers as heaps;
ghost use Rattle.live_tables.specs.rows.Workers.{AreEachOnce, IsOf};

use crate::slim::written;
use crate::stop::Stop;
use crate::times::tell;
use block_store::Config;
use live_tables::tags::{LiveTags, TagWorker};
use never_heap::Command;
use shared_heap::{SharedHeap, Worker};
use std::alloc::Global;
use std::sync::Wait;
use trace_text::{Job, StdSource, read_trace};

/// How many places the table of tags has.
const PLACES: u32 = 100;

pub fn read_job(rt: &HostRuntime) -> Result<Job, Stop> {
    match read_trace(rt.alloc(), &mut StdSource::new(rt.stdin())) {
        Ok(job) => Ok(job),
        Err(fault) => Err(Stop::NoJob(fault)),
    }
}

pub fn open(alloc: Global, config: Config) -> Result<(SharedHeap, Vec<Worker>), Stop>
    ensures { IfOk result (λ r. heaps.AreEachOnce r.0 r.1.items) }
{
    match SharedHeap::open(alloc, config) {
        Ok(opened) => Ok(opened),
        Err(fault) => Err(Stop::OpenShared(fault)),
    }
}

#[inline(always)]
pub fn ask<R: Wait>(
    rt: &R,
    heap: &SharedHeap,
    who: &mut Worker,
    command: Command,
) -> Result<(), Stop>
    requires { who.old.heap ≡ heap.now.id }
    ensures { who.new.heap ≡ heap.now.id }
{
    match heap.ask(rt, who, command) {
        Ok(_) => Ok(()),
        Err(refused) => Err(Stop::NotAsked(refused)),
    }
}

pub fn open_tags(alloc: Global, threads: u32) -> Result<(LiveTags, Vec<TagWorker>), Stop>
    ensures { IfOk result (λ r. AreEachOnce r.0 r.1.items) }
{
    match LiveTags::open(alloc, PLACES, threads) {
        Ok(opened) => Ok(opened),
        Err(fault) => Err(Stop::OpenTable(fault)),
    }
}

fn place_of(round: u64) -> u32 {
    (round % u64::from(PLACES)) as u32
}

/// Writes the place of a round.
#[inline(always)]
#[tactic(auto, using(live_tables::proofs::rows::Crews::of_same))]
pub fn write_tag<R: Wait>(
    rt: &R,
    table: &LiveTags,
    who: &mut TagWorker,
    round: u64,
) -> Result<(), Stop>
    requires { IsOf table.now who.old }
    ensures { IsOf table.now who.new }
{
    match table.write(rt, who, place_of(round), round % 1_000_000, 5) {
        Ok(_) => Ok(()),
        Err(refused) => Err(Stop::TableRefused(refused)),
    }
}

/// Reads the place of a round.
#[inline(always)]
#[tactic(auto, using(live_tables::proofs::rows::Crews::of_same))]
pub fn read_tag<R: Wait>(
    rt: &R,
    table: &LiveTags,
    who: &mut TagWorker,
    round: u64,
) -> Result<(), Stop>
    requires { IsOf table.now who.old }
    ensures { IsOf table.now who.new }
{
    match table.read(rt, who, place_of(round)) {
        Ok(_) => Ok(()),
        Err(refused) => Err(Stop::TableRefused(refused)),
    }
}

/// An empty list with room for so many times, whose pages have been written before.
pub fn room(alloc: Global, times: u64) -> Result<Vec<u64>, Stop> {
    let Ok(mut room) = vec![in alloc; 0; times as usize] else {
        return Err(Stop::NoMemory);
    };
    room.clear();
    Ok(room)
}

/// Prints the number of times of commands or operations, their median, what 999 of 1,000 are
/// within, and the longest. Prints nothing if there are none.
pub fn tell_of(rt: &HostRuntime, kind: &str, of: &str, times: &mut Vec<u64>) -> Result<(), Stop> {
    let count = times.len();
    if count > 0 {
        written(print!(rt; "{kind}: {count} {of},"))?;
    }
    tell(rt, "", times)
}
