//! Each structure in at most five lines.

use crate::slim::open;
use crate::stop::Stop;
use block_store::{Config, Value, Width};
use control_heap::{ControlHeap, Fault};
use heap_structures::{Alarm, AlarmList, Insertion, Map, Queue, Ring, Sample, Trend};
use std::alloc::Global;

const HEAP: Config = Config {
    width: Width::Eight,
    threads: 1,
    blocks: 128,
    live: 40,
    object: 7,
    shared: 0,
};

// How many samples the trend keeps.
const KEPT: u32 = 9;

fn ring_of_two(heap: &mut ControlHeap) -> Result<Option<Value>, Fault> {
    let mut ring = Ring::new(heap, 1, 2, 40)?; // the last 40 values
    heap.set(10, 20)?;
    ring.push(heap, 10)?; // adds the value of register 10
    ring.push(heap, 10)?;
    ring.get(heap, 0, 11) // the oldest, also into register 11
}

fn queue_of_one(heap: &mut ControlHeap) -> Result<Option<Value>, Fault> {
    let mut queue = Queue::new(heap, 3, 4, 8)?; // at most 8 values
    if queue.push(heap, 10)? {
        return queue.pop(heap, 11); // the first, moved to register 11
    }
    Ok(None) // the queue was full
}

fn map_of_one(heap: &mut ControlHeap) -> Result<Option<Value>, Fault> {
    let mut map = Map::new(heap, 5, 6, 16)?; // at most 16 keys
    if map.insert(heap, 700, 10)? == Insertion::Full {
        return Ok(None);
    }
    map.get(heap, 700, 11) // the value of key 700, also into register 11
}

fn list_of_one(heap: &mut ControlHeap) -> Result<Option<Alarm>, Fault> {
    let mut alarms = AlarmList::new(heap, 7, 8, 4)?; // at most 4 standing alarms
    let _stood = alarms.clear(heap, 30)?; // alarm 30 is over; false if it did not stand
    let _raised = alarms.raise(heap, 31)?; // New, Standing or Full
    let _stands = alarms.acknowledge(heap, 31)?;
    alarms.get(heap, 0) // the oldest
}

fn trend_of_one(trend: &mut Trend) -> Result<Option<u64>, Fault> {
    let (value, alarm) = (20, true);
    trend.push(Sample { value, alarm })?; // the oldest goes if all places are taken
    let _oldest = trend.get(0)?; // Some(20)
    trend.alarm(0) // Some(0): the first sample pushed is an alarm
}

/// Prints what each structure gives back.
pub fn run(rt: &HostRuntime) -> Result<(), Stop> {
    let mut heap = open(rt.alloc(), HEAP)?;
    match print_all(rt, &mut heap) {
        Some(()) => Ok(()),
        None => Err(Stop::Example),
    }
}

// `None` if one of them fails.
fn print_all(rt: &HostRuntime, heap: &mut ControlHeap) -> Option<()> {
    let ring = ring_of_two(heap).ok()?;
    let queue = queue_of_one(heap).ok()?;
    let map = map_of_one(heap).ok()?;
    print_values(rt, ring, queue, map)?;
    let alarm = list_of_one(heap).ok()?;
    print_alarm(rt, alarm)?;
    print_trend(rt)
}

fn print_values(
    rt: &HostRuntime,
    ring: Option<Value>,
    queue: Option<Value>,
    map: Option<Value>,
) -> Option<()> {
    println!(rt; "ring {ring:?}, queue {queue:?}, map {map:?}").ok()
}

fn print_alarm(rt: &HostRuntime, alarm: Option<Alarm>) -> Option<()> {
    println!(rt; "alarms {alarm:?}").ok()
}

fn print_trend(rt: &HostRuntime) -> Option<()> {
    let mut trend = open_trend(rt.alloc())?;
    let alarm = trend_of_one(&mut trend).ok()?;
    print_first(rt, alarm)
}

fn open_trend(alloc: Global) -> Option<Trend> {
    if !Trend::fits(&HEAP, KEPT) {
        return None;
    }
    Trend::open(alloc, HEAP, KEPT).ok()
}

fn print_first(rt: &HostRuntime, alarm: Option<u64>) -> Option<()> {
    println!(rt; "trend: the first alarm is sample {alarm:?}").ok()
}
