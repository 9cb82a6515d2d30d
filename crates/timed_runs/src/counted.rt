//! A sink that counts what it is given.

use std::alloc::Global;
use trace_text::{Failed, Sink};

/// The longest piece that is kept.
const KEPT: usize = 128;

/// A sink that counts the bytes that it is given, and keeps the last piece alone, where that is
/// short. It tells nothing of what it holds, and never fails.
#[derive(Drop)]
pub struct Counted {
    bytes: u64,
    last: Vec<u8>,
}

impl Counted {
    pub fn new(alloc: Global) -> Counted {
        Counted {
            bytes: 0,
            last: Vec::new(alloc),
        }
    }

    /// How many bytes it was given.
    pub fn bytes(&self) -> u64 {
        self.bytes
    }

    /// The last piece.
    pub fn last(&self) -> &[u8] {
        self.last.as_slice()
    }
}

impl Sink for Counted {
    ghost use Rattle.std.specs.Prelude.{None};

    ghost held = { λ _. None };

    ghost faults = { λ _. 0 };

    fn put(&mut self, piece: &[u8]) -> Result<(), Failed> {
        self.bytes = self.bytes.saturating_add(piece.len() as u64);
        self.last.clear();
        if piece.len() <= KEPT {
            let _kept = self.last.extend_from_slice(piece);
        }
        Ok(())
    }
}
