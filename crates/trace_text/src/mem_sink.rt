//! A sink in memory, which fails where it is told to and where its room ends.

ghost use Rattle.std.specs.Prelude.{◌≡◌, ◌<◌, ◌+◌, ◌⊎◌, ◌↔◌, [], length, IsErr, OnOk, OnErr, IfOk, Contains};
ghost use Rattle.trace_text.specs.Faults.{Rose};
ghost use Rattle.trace_text.specs.Memories.{with_taken, with_sink_fault};

use crate::{Failed, Sink};
use block_store::OutOfMemory;
use std::alloc::Global;
use std::marker::Model;

/// A sink that keeps its bytes in memory, with a fixed room.
///
/// Its calls are numbered from 0, and those whose numbers it was given fail; so does a call whose
/// piece does not fit. For example, a sink with room for 5 bytes takes `"abc"`, fails at `"def"`,
/// and then takes `"de"`. A call that fails takes no byte.
#[derive(Debug, Drop)]
pub struct MemSink {
    bytes: Vec<u8>,
    room: usize,
    fail: Vec<u64>,
    calls: u64,
    faults: u64,
}

impl Model for MemSink {
    ghost use Rattle.std.specs.Prelude.{◌≤◌, vec_len, vec_capacity};
    ghost use Rattle.trace_text.specs.Memories.{SinkState};

    ghost Value = { SinkState };

    ghost view = { λ a. record {
      held = a.bytes.items;
      room = a.room;
      fail = a.fail.items;
      calls = a.calls;
      faults = a.faults;
    } };

    ghost invariant = { λ a. (vec_len a.bytes ≤ a.room) × (a.room ≤ vec_capacity a.bytes) };
}

impl MemSink {
    /// An empty sink with room for `room` bytes, which are taken here: no later call takes memory.
    /// The calls whose numbers, from 0, are in `fail` fail.
    pub fn new(alloc: Global, room: usize, fail: Vec<u64>) -> Result<MemSink, OutOfMemory>
        ensures { IfOk result (λ sink. sink ≡ record {
          held = [];
          room = room;
          fail = fail.items;
          calls = 0;
          faults = 0;
        }) }
    {
        let bytes = Vec::with_capacity(alloc, room)?;
        Ok(MemSink {
            bytes,
            room,
            fail,
            calls: 0,
            faults: 0,
        })
    }

    /// The bytes that it holds, in the order in which they came.
    pub fn bytes(&self) -> &[u8]
        ensures { result.now ≡ self.now.held }
    {
        self.bytes.as_slice()
    }
}

impl Sink for MemSink {
    ghost use Rattle.std.specs.Prelude.{Some};

    ghost held = { λ s. Some s.held };

    ghost faults = { λ s. s.faults };

    /// Takes the whole piece, unless it does not fit or the call is one that fails.
    fn put(&mut self, piece: &[u8]) -> Result<(), Failed>
        ensures fails { IsErr result ↔ (Contains self.old.fail self.old.calls
            ⊎ (self.old.room < length self.old.held + length piece.now)) }
        ensures after { OnOk result (self.new ≡ with_taken self.old piece.now) }
        ensures after_fault { OnErr result (self.new ≡ with_sink_fault self.old) }
        ensures rose { OnErr result (Rose self.old.faults self.new.faults) }
    {
        let number = self.calls;
        self.calls = number.saturating_add(1);
        if self.fail.contains(&number) || self.room - self.bytes.len() < piece.len() {
            self.faults = self.faults.saturating_add(1);
            return Err(Failed);
        }
        let Ok(()) = self.bytes.extend_from_slice(piece) else {
            unreachable!();
        };
        Ok(())
    }
}
