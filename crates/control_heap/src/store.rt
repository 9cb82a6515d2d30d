//! The memory of a heap for one thread.

use heap_machine::{Memory, Words};

/// A memory that one heap has for itself. Its only call makes one operation on the words; it may
/// also do more, such as count the operation.
pub trait Store: Memory<Shared = ()> + Drop {
    ghost use Rattle.std.specs.Prelude.{ℕ, List};
    ghost use Rattle.heap_machine.specs.declared.op.Op.{Op};
    ghost use Rattle.heap_machine.specs.Operations.{MayAct, HasActed};

    // The words in it.
    ghost shows: { Self → List ℕ };

    // It may make each operation that the words allow.
    ghost allows: { (m : Self) (op : Op) → MayAct (shows m) op → Self.may m tt op };

    // It makes the operation on the words.
    ghost keeps: { (m : Self) (op : Op) (w : ℕ) (n : Self) → Self.acts m tt op w n
        → HasActed (shows m) op w (shows n) };
}

impl Store for Words {
    ghost shows = { λ ws. ws };

    ghost allows = { λ ws op may. may };

    ghost keeps = { λ ws op w after acted. acted };
}
