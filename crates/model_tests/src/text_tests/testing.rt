//! A run of two threads, and sinks that fail, for the tests of the writers.

use block_store::{Name, Value};
use never_heap::{Command, Entry, Logs, Reply};
use std::alloc::Global;
use std::test::Fail;
use trace_text::MemSink;

/// What two threads answered, one reply of each kind, in two cycles.
#[derive(Drop)]
pub struct Pair {
    first: [Entry; 8],
    second: [Entry; 5],
}

impl Logs for Pair {
    ghost use Rattle.std.specs.Prelude.{[], ◌∷◌};

    ghost logs = { λ s. s.first ∷ s.second ∷ [] };

    ghost cycle_count = { λ _. 2 };

    ghost unit_count = { λ _. 53 };

    fn threads(&self) -> u32 {
        2
    }

    fn entries(&self, t: u32) -> &[Entry] {
        if t == 0 { &self.first } else { &self.second }
    }

    fn cycles(&self) -> u64 {
        2
    }

    fn units(&self) -> u64 {
        53
    }
}

pub fn entry(thread: u32, reply: Reply, work: u64) -> Entry {
    Entry {
        thread,
        command: Command::Nil { d: 0 },
        reply,
        work,
    }
}

fn name(thread: u32, serial: u64) -> Name {
    Name { thread, serial }
}

pub fn replies() -> Pair {
    Pair {
        first: [
            entry(0, Reply::New(name(0, 1)), 36),
            entry(0, Reply::Full(3), 7),
            entry(0, Reply::Stored, 0),
            entry(0, Reply::Val(Value::Nil), 0),
            entry(0, Reply::Val(Value::Int(5)), 0),
            entry(0, Reply::Val(Value::Ref(name(1, 120))), 0),
            entry(0, Reply::Len(17), 0),
            entry(0, Reply::Idle, 10),
        ],
        second: [
            entry(1, Reply::Yes, 0),
            entry(1, Reply::No, 0),
            entry(1, Reply::Null, 0),
            entry(1, Reply::Kind, 0),
            entry(1, Reply::Range, 0),
        ],
    }
}

/// A sink whose calls of these numbers fail.
pub fn sink_failing_at(alloc: Global, fail: &[u64]) -> Result<MemSink, Fail> {
    let fail = Vec::from_slice(alloc, fail)?;
    Ok(MemSink::new(alloc, 1000, fail).ok().ok_or("memory")?)
}
