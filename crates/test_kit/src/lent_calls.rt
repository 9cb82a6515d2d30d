//! What a test lends a call: words, and a source and a sink in memory.

ghost use Rattle.std.specs.Prelude.{◌≡◌, [], max, IfOk};

use block_store::OutOfMemory;
use std::alloc::Global;
use trace_text::{MemSink, MemSource};

/// The words of a call, its input and in which pieces it comes, which calls of the source and the
/// sink fail, and how much room the sink has.
#[derive(Clone, Copy)]
pub struct Call<'a> {
    pub words: &'a [&'a str],
    pub input: &'a [u8],
    pub most: usize,
    pub read_fails: &'a [u64],
    pub write_fails: &'a [u64],
    pub room: usize,
}

impl<'a> Call<'a> {
    /// A call without words that nothing hinders.
    pub fn of(input: &'a [u8]) -> Call<'a> {
        Call {
            words: &[],
            input,
            most: 65_536,
            read_fails: &[],
            write_fails: &[],
            room: 1 << 22,
        }
    }
}

/// What a call is lent.
#[derive(Drop)]
pub struct Lent {
    pub words: Vec<String>,
    pub source: MemSource,
    pub sink: MemSink,
}

impl Lent {
    /// What this call is lent. Its input comes at least a byte a piece.
    ///
    /// # Errors
    ///
    /// `OutOfMemory` where there is no room for it.
    pub fn of(alloc: Global, call: &Call<'_>) -> Result<Lent, OutOfMemory>
        ensures source { IfOk result (λ lent. lent.source ≡ record {
          left = call.entry.now.input.now;
          most = max call.entry.now.most 1;
          fail = call.entry.now.read_fails.now;
          calls = 0;
          faults = 0;
        }) }
        ensures sink { IfOk result (λ lent. lent.sink ≡ record {
          held = [];
          room = call.entry.now.room;
          fail = call.entry.now.write_fails.now;
          calls = 0;
          faults = 0;
        }) }
    {
        let mut words = Vec::new(alloc);
        for word in call.words {
            words.push(String::from_str(alloc, word)?)?;
        }
        let input = Vec::from_slice(alloc, call.input)?;
        let read_fails = Vec::from_slice(alloc, call.read_fails)?;
        let write_fails = Vec::from_slice(alloc, call.write_fails)?;
        Ok(Lent {
            words,
            source: MemSource::new(input, call.most.max(1), read_fails),
            sink: MemSink::new(alloc, call.room, write_fails)?,
        })
    }
}
