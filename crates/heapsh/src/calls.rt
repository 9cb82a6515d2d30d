//! The typed calls of `control_heap`, one in each function, so that the contract of each is read once.

use block_store::{Name, Value};
use control_heap::{ControlHeap, Fault};
use never_heap::{Command, Reply};

/// What a call is answered.
type Answer = Result<Reply, Fault>;

fn named(done: Result<Name, Fault>) -> Answer {
    match done {
        Ok(name) => Ok(Reply::New(name)),
        Err(fault) => Err(fault),
    }
}

fn valued(done: Result<Value, Fault>) -> Answer {
    match done {
        Ok(value) => Ok(Reply::Val(value)),
        Err(fault) => Err(fault),
    }
}

fn tested(done: Result<bool, Fault>) -> Answer {
    match done {
        Ok(true) => Ok(Reply::Yes),
        Ok(false) => Ok(Reply::No),
        Err(fault) => Err(fault),
    }
}

fn done_so(done: Result<(), Fault>, reply: Reply) -> Answer {
    match done {
        Ok(()) => Ok(reply),
        Err(fault) => Err(fault),
    }
}

fn record(heap: &mut ControlHeap, d: u8, fields: u32) -> Answer {
    named(heap.record(d, fields))
}

fn array(heap: &mut ControlHeap, d: u8, elements: u32) -> Answer {
    named(heap.array(d, elements))
}

fn get(heap: &mut ControlHeap, d: u8, s: u8, i: u64) -> Answer {
    valued(heap.get(d, s, i))
}

fn swap(heap: &mut ControlHeap, s: u8, i: u64, v: u8) -> Answer {
    valued(heap.swap(s, i, v))
}

fn cas(heap: &mut ControlHeap, s: u8, i: u64, a: u8, v: u8) -> Answer {
    tested(heap.cas(s, i, a, v))
}

fn put(heap: &mut ControlHeap, s: u8, i: u64, v: u8) -> Answer {
    done_so(heap.put(s, i, v), Reply::Stored)
}

fn set(heap: &mut ControlHeap, d: u8, value: u64) -> Answer {
    done_so(heap.set(d, value), Reply::Stored)
}

fn nil(heap: &mut ControlHeap, d: u8) -> Answer {
    done_so(heap.nil(d), Reply::Stored)
}

fn mov(heap: &mut ControlHeap, d: u8, s: u8) -> Answer {
    done_so(heap.mov(d, s), Reply::Stored)
}

fn len(heap: &mut ControlHeap, s: u8) -> Answer {
    match heap.len(s) {
        Ok(length) => Ok(Reply::Len(length)),
        Err(fault) => Err(fault),
    }
}

fn same(heap: &mut ControlHeap, a: u8, b: u8) -> Answer {
    tested(heap.same(a, b))
}

fn say(heap: &mut ControlHeap, s: u8) -> Answer {
    valued(heap.say(s))
}

fn idle(heap: &mut ControlHeap, units: u64) -> Answer {
    done_so(heap.idle(units), Reply::Idle)
}

/// Does a command by the call of its name.
pub fn called(heap: &mut ControlHeap, command: Command) -> Answer {
    match command {
        Command::New { d, fields } => record(heap, d, fields),
        Command::Arr { d, elements } => array(heap, d, elements),
        Command::Get { d, s, i } => get(heap, d, s, i),
        Command::Swap { s, i, v } => swap(heap, s, i, v),
        Command::Cas { s, i, a, v } => cas(heap, s, i, a, v),
        Command::Put { s, i, v } => put(heap, s, i, v),
        Command::Set { d, value } => set(heap, d, value),
        Command::Nil { d } => nil(heap, d),
        Command::Mov { d, s } => mov(heap, d, s),
        Command::Len { s } => len(heap, s),
        Command::Same { a, b } => same(heap, a, b),
        Command::Say { s } => say(heap, s),
        Command::Idle { units } => idle(heap, units),
    }
}

pub fn units_made(heap: &ControlHeap) -> u64 {
    heap.units_made()
}
