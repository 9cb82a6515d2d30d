//! Where a thread makes its operations.

use crate::Op;

/// The words of a heap as one thread reaches them, alone or beside others.
pub trait Memory {
    ghost use Rattle.std.specs.Prelude.{ℕ};
    ghost use Rattle.heap_machine.specs.declared.op.Op.{Op};

    /// What it shares with other memories of the heap, if anything.
    type Shared;

    // Whether the operation may be made here.
    ghost may: { Self → Self.Shared → Op → Type 0 };

    // Whether it may read this word, and what the memory is then.
    ghost acts: { Self → Self.Shared → Op → ℕ → Self → Type 0 };

    /// Does one operation on one word, and answers the word that was there before.
    fn act(&mut self, shared: &Self::Shared, op: &Op) -> u64
        requires { may self.old shared.now op.now }
        ensures { acts self.old shared.now op.now result self.new };
}

/// A memory that answers one word, whatever is asked of it: it represents an operation that was
/// made elsewhere.
#[derive(Drop)]
pub struct ScriptedMemory {
    /// The word.
    pub word: u64,
}

impl Memory for ScriptedMemory {
    ghost use Rattle.std.specs.Prelude.{◌≡◌};

    // It is one event's alone.
    type Shared = ();

    ghost may = { λ given none op. Unit {0} };

    ghost acts = { λ given none op word after. word ≡ given.word };

    #[inline(always)]
    fn act(&mut self, shared: &(), op: &Op) -> u64 {
        let (_shared, _op) = (shared, op);
        self.word
    }
}
