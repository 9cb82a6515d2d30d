//! A source in memory, which fails where it is told to.

ghost use Rattle.std.specs.Prelude.{◌≡◌, ◌≤◌, ◌<◌, ◌↔◌, min, [], ◌++◌, length, take, drop, IsErr, OnErr, IfOk, Contains};
ghost use Rattle.trace_text.specs.Faults.{Rose};
ghost use Rattle.trace_text.specs.Memories.{with_given, with_source_fault};

use crate::{Failed, Source};
use std::marker::Model;

/// A source of bytes that lie in memory.
///
/// Its calls are numbered from 0, and those whose numbers it was given fail. For example, with the
/// bytes of `"abcde"`, at most 2 a call, and call 1 to fail, a reader gets `"ab"`, then `Failed`,
/// then `"cd"` and `"e"`, and then the end. A call that fails takes no byte.
#[derive(Debug, Drop)]
pub struct MemSource {
    bytes: Vec<u8>,
    given: usize,
    most: usize,
    fail: Vec<u64>,
    calls: u64,
    faults: u64,
}

impl Model for MemSource {
    ghost use Rattle.std.specs.Prelude.{◌≤◌, length, drop};
    ghost use Rattle.trace_text.specs.Memories.{SourceState};

    ghost Value = { SourceState };

    ghost view = { λ a. record {
      left = drop a.given a.bytes.items;
      most = a.most;
      fail = a.fail.items;
      calls = a.calls;
      faults = a.faults;
    } };

    ghost invariant = { λ a. (1 ≤ a.most) × (a.given ≤ length a.bytes.items) };
}

impl MemSource {
    /// A source of these bytes, which gives at most `most` of them a call. The calls whose numbers,
    /// from 0, are in `fail` fail. With no number there it never fails.
    pub fn new(bytes: Vec<u8>, most: usize, fail: Vec<u64>) -> MemSource
        requires { 1 ≤ most }
        ensures { result ≡ record {
          left = bytes.items;
          most = most;
          fail = fail.items;
          calls = 0;
          faults = 0;
        } }
    {
        MemSource {
            bytes,
            given: 0,
            most,
            fail,
            calls: 0,
            faults: 0,
        }
    }
}

impl Source for MemSource {
    ghost use Rattle.std.specs.Prelude.{Some};

    ghost left = { λ s. Some s.left };

    ghost faults = { λ s. s.faults };

    /// Gives the next bytes, unless the call is one that fails.
    fn take(&mut self, piece: &mut [u8]) -> Result<usize, Failed>
        ensures fails { IsErr result ↔ Contains self.old.fail self.old.calls }
        ensures count { IfOk result (λ k.
            k ≡ min self.old.most (min (length piece.old) (length self.old.left))) }
        ensures given { IfOk result (λ k. piece.new ≡ take k self.old.left ++ drop k piece.old) }
        ensures after { IfOk result (λ k. self.new ≡ with_given self.old k) }
        ensures kept { OnErr result (piece.new ≡ piece.old) }
        ensures after_fault { OnErr result (self.new ≡ with_source_fault self.old) }
        ensures end { IfOk result (λ k. k ≡ 0 → 0 < length piece.old → self.old.left ≡ []) }
        ensures rose { OnErr result (Rose self.old.faults self.new.faults) }
    {
        let number = self.calls;
        self.calls = number.saturating_add(1);
        if self.fail.contains(&number) {
            self.faults = self.faults.saturating_add(1);
            return Err(Failed);
        }
        let left = &self.bytes[self.given..];
        let count = self.most.min(piece.len()).min(left.len());
        piece[..count].copy_from_slice(&left[..count]);
        self.given += count;
        Ok(count)
    }
}
