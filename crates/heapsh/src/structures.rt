//! Rings, queues, maps, alarms, records and trends on a heap.

use crate::replies::{Said, push, push_fault, push_number, push_value, push_yes};
use crate::words::{length, register};
use block_store::Value;
use control_heap::{ControlHeap, Fault};
use heap_structures::{Alarm, AlarmList, Insertion, Map, Queue, Raised, Records, Ring};
use std::fmt::Write;

/// The structures of the shell, at most one of each kind.
#[derive(Drop)]
pub struct Structures {
    ring: Option<Ring>,
    queue: Option<Queue>,
    map: Option<Map>,
    alarms: Option<AlarmList>,
    records: Option<Records>,
}

/// What a call on a structure found or did.
enum Found {
    Done,
    Number(u64),
    Value(Option<Value>),
    Flag(bool),
    Inserted(Insertion),
    Pair(Option<(u32, Value)>),
    Raised(Raised),
    Alarm(Option<Alarm>),
}

/// What became of a call: none was meant, or it was refused, or it was done.
type Call = Option<Result<Found, Fault>>;

impl Structures {
    pub fn none() -> Structures {
        Structures {
            ring: None,
            queue: None,
            map: None,
            alarms: None,
            records: None,
        }
    }

    /// Does a call on a structure and prints what came of it. Returns whether the words name one.
    pub fn call(
        &mut self,
        heap: &mut ControlHeap,
        kind: &str,
        verb: &str,
        n: &[u64],
        out: &mut String,
    ) -> Said {
        let call = if verb == "new" {
            self.make(heap, kind, n)
        } else {
            self.use_one(heap, kind, verb, n)
        };
        match call {
            None => Ok(false),
            Some(Err(fault)) => push_fault(out, fault),
            Some(Ok(found)) => push_found(out, found),
        }
    }

    fn make(&mut self, heap: &mut ControlHeap, kind: &str, n: &[u64]) -> Call {
        let [base, spare, size] = n else {
            return None;
        };
        let (base, spare, size) = (register(*base)?, register(*spare)?, length(*size)?);
        match kind {
            "ring" => made(new_ring(&mut self.ring, heap, base, spare, size)),
            "queue" => made(new_queue(&mut self.queue, heap, base, spare, size)),
            "map" => made(new_map(&mut self.map, heap, base, spare, size)),
            "alarms" => made(new_alarms(&mut self.alarms, heap, base, spare, size)),
            "records" => made(new_records(&mut self.records, heap, base, spare, size)),
            _ => None,
        }
    }

    fn use_one(&mut self, heap: &mut ControlHeap, kind: &str, verb: &str, n: &[u64]) -> Call {
        match kind {
            "ring" => on_ring(self.ring.as_mut()?, heap, verb, n),
            "queue" => on_queue(self.queue.as_mut()?, heap, verb, n),
            "map" => on_map(self.map.as_mut()?, heap, verb, n),
            "alarms" => on_alarms(self.alarms.as_mut()?, heap, verb, n),
            "records" => on_records(self.records.as_mut()?, heap, verb, n),
            _ => None,
        }
    }
}

fn made(done: Result<(), Fault>) -> Call {
    match done {
        Ok(()) => Some(Ok(Found::Done)),
        Err(fault) => Some(Err(fault)),
    }
}

fn new_ring(
    ring: &mut Option<Ring>,
    heap: &mut ControlHeap,
    base: u8,
    spare: u8,
    size: u32,
) -> Result<(), Fault> {
    *ring = Some(Ring::new(heap, base, spare, size)?);
    Ok(())
}

fn new_queue(
    queue: &mut Option<Queue>,
    heap: &mut ControlHeap,
    base: u8,
    spare: u8,
    size: u32,
) -> Result<(), Fault> {
    *queue = Some(Queue::new(heap, base, spare, size)?);
    Ok(())
}

fn new_map(
    map: &mut Option<Map>,
    heap: &mut ControlHeap,
    base: u8,
    spare: u8,
    size: u32,
) -> Result<(), Fault> {
    *map = Some(Map::new(heap, base, spare, size)?);
    Ok(())
}

fn new_alarms(
    alarms: &mut Option<AlarmList>,
    heap: &mut ControlHeap,
    base: u8,
    spare: u8,
    size: u32,
) -> Result<(), Fault> {
    *alarms = Some(AlarmList::new(heap, base, spare, size)?);
    Ok(())
}

fn new_records(
    records: &mut Option<Records>,
    heap: &mut ControlHeap,
    base: u8,
    spare: u8,
    size: u32,
) -> Result<(), Fault> {
    *records = Some(Records::new(heap, base, spare, size)?);
    Ok(())
}

fn on_ring(ring: &mut Ring, heap: &mut ControlHeap, verb: &str, n: &[u64]) -> Call {
    match (verb, n) {
        ("push", [from]) => made(push_ring(ring, heap, register(*from)?)),
        ("get", [i, d]) => Some(ring_get(ring, heap, length(*i)?, register(*d)?)),
        ("len", []) => Some(Ok(Found::Number(u64::from(ring.len())))),
        _ => None,
    }
}

fn push_ring(ring: &mut Ring, heap: &mut ControlHeap, from: u8) -> Result<(), Fault> {
    ring.push(heap, from)
}

fn ring_get(ring: &Ring, heap: &mut ControlHeap, i: u32, d: u8) -> Result<Found, Fault> {
    Ok(Found::Value(ring.get(heap, i, d)?))
}

fn on_queue(queue: &mut Queue, heap: &mut ControlHeap, verb: &str, n: &[u64]) -> Call {
    match (verb, n) {
        ("push", [from]) => Some(push_queue(queue, heap, register(*from)?)),
        ("pop", [d]) => Some(pop_queue(queue, heap, register(*d)?)),
        ("len", []) => Some(Ok(Found::Number(u64::from(queue.len())))),
        _ => None,
    }
}

fn push_queue(queue: &mut Queue, heap: &mut ControlHeap, from: u8) -> Result<Found, Fault> {
    Ok(Found::Flag(queue.push(heap, from)?))
}

fn pop_queue(queue: &mut Queue, heap: &mut ControlHeap, d: u8) -> Result<Found, Fault> {
    Ok(Found::Value(queue.pop(heap, d)?))
}

fn on_map(map: &mut Map, heap: &mut ControlHeap, verb: &str, n: &[u64]) -> Call {
    match (verb, n) {
        ("insert", [key, from]) => Some(map_insert(map, heap, length(*key)?, register(*from)?)),
        ("get", [key, d]) => Some(map_get(map, heap, length(*key)?, register(*d)?)),
        ("remove", [key, d]) => Some(map_remove(map, heap, length(*key)?, register(*d)?)),
        ("nth", [i, d]) => Some(map_nth(map, heap, length(*i)?, register(*d)?)),
        ("len", []) => Some(Ok(Found::Number(u64::from(map.len())))),
        _ => None,
    }
}

fn map_insert(map: &mut Map, heap: &mut ControlHeap, key: u32, from: u8) -> Result<Found, Fault> {
    Ok(Found::Inserted(map.insert(heap, key, from)?))
}

fn map_get(map: &Map, heap: &mut ControlHeap, key: u32, d: u8) -> Result<Found, Fault> {
    Ok(Found::Value(map.get(heap, key, d)?))
}

fn map_remove(map: &mut Map, heap: &mut ControlHeap, key: u32, d: u8) -> Result<Found, Fault> {
    Ok(Found::Value(map.remove(heap, key, d)?))
}

fn map_nth(map: &Map, heap: &mut ControlHeap, i: u32, d: u8) -> Result<Found, Fault> {
    Ok(Found::Pair(map.nth(heap, i, d)?))
}

fn on_alarms(alarms: &mut AlarmList, heap: &mut ControlHeap, verb: &str, n: &[u64]) -> Call {
    match (verb, n) {
        ("raise", [number]) => Some(raise(alarms, heap, *number)),
        ("acknowledge", [number]) => Some(acknowledge(alarms, heap, *number)),
        ("clear", [number]) => Some(clear(alarms, heap, *number)),
        ("get", [i]) => Some(alarm_at(alarms, heap, length(*i)?)),
        ("len", []) => Some(Ok(Found::Number(u64::from(alarms.len())))),
        _ => None,
    }
}

fn raise(alarms: &mut AlarmList, heap: &mut ControlHeap, number: u64) -> Result<Found, Fault> {
    Ok(Found::Raised(alarms.raise(heap, number)?))
}

fn acknowledge(alarms: &AlarmList, heap: &mut ControlHeap, number: u64) -> Result<Found, Fault> {
    Ok(Found::Flag(alarms.acknowledge(heap, number)?))
}

fn clear(alarms: &mut AlarmList, heap: &mut ControlHeap, number: u64) -> Result<Found, Fault> {
    Ok(Found::Flag(alarms.clear(heap, number)?))
}

fn alarm_at(alarms: &AlarmList, heap: &mut ControlHeap, i: u32) -> Result<Found, Fault> {
    Ok(Found::Alarm(alarms.get(heap, i)?))
}

fn on_records(records: &mut Records, heap: &mut ControlHeap, verb: &str, n: &[u64]) -> Call {
    match (verb, n) {
        ("push", [number, d]) => {
            made(push_record(records, heap, length(*number)?, register(*d)?))
        }
        ("get", [i, d]) => Some(record_at(records, heap, length(*i)?, register(*d)?)),
        ("len", []) => Some(Ok(Found::Number(u64::from(records.len())))),
        _ => None,
    }
}

fn push_record(
    records: &mut Records,
    heap: &mut ControlHeap,
    number: u32,
    d: u8,
) -> Result<(), Fault> {
    records.push(heap, number, d)
}

fn record_at(records: &Records, heap: &mut ControlHeap, i: u32, d: u8) -> Result<Found, Fault> {
    Ok(match records.get(heap, i, d)? {
        Some(number) => Found::Number(u64::from(number)),
        None => Found::Value(None),
    })
}

fn push_found(out: &mut String, found: Found) -> Said {
    match found {
        Found::Done => push(out, "ok"),
        Found::Number(number) => push_number(out, "number", number),
        Found::Value(Some(value)) => push_value(out, value),
        Found::Flag(flag) => push_yes(out, flag),
        Found::Inserted(insertion) => push_insertion(out, insertion),
        Found::Pair(Some((key, value))) => push_pair(out, key, value),
        Found::Raised(raised) => push(out, raised_word(raised)),
        Found::Alarm(Some(alarm)) => push_alarm(out, alarm),
        Found::Value(None) | Found::Pair(None) | Found::Alarm(None) => push(out, "none"),
    }
}

fn push_pair(out: &mut String, key: u32, value: Value) -> Said {
    write!(out, "key {key} ")?;
    push_value(out, value)
}

fn push_insertion(out: &mut String, insertion: Insertion) -> Said {
    match insertion {
        Insertion::Added => push(out, "added"),
        Insertion::Full => push(out, "no room"),
        Insertion::Replaced(value) => {
            push(out, "replaced ")?;
            push_value(out, value)
        }
    }
}

fn raised_word(raised: Raised) -> &'static str {
    match raised {
        Raised::New => "new",
        Raised::Standing => "standing",
        Raised::Full => "no room",
    }
}

fn push_alarm(out: &mut String, alarm: Alarm) -> Said {
    push_number(out, "alarm", alarm.number)?;
    push(
        out,
        if alarm.acknowledged {
            " acknowledged"
        } else {
            " standing"
        },
    )
}
