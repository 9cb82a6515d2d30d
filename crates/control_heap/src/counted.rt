//! The words of a heap with a count of the operations made on them.

ghost use Rattle.std.specs.Prelude.{◌≡◌, IfSome, ◌≤◌, ℕ};
ghost use Rattle.rate_plan.specs.Rates.{IsRate};
ghost use Rattle.heap_system.specs.Alone.{command_bound, command_near};
ghost use Rattle.control_heap.specs.Counting.{IsCountOf};

use crate::{ControlHeap, Store};
use heap_machine::{Memory, Op, Words};
use never_heap::Command;

/// The words of a heap, and the number of operations made on them, which stays at 2^64 - 1 once it
/// is reached.
#[derive(Drop)]
pub struct Counted {
    words: Words,
    made: u64,
}

impl Counted {
    /// Words with a count of 0.
    pub fn new(words: Words) -> Counted
        ensures words { result.words ≡ words }
        ensures none { result.made ≡ 0 }
    {
        Counted { words, made: 0 }
    }

    /// The number of operations made so far.
    pub fn made(&self) -> u64
        ensures { result ≡ self.now.made }
    {
        self.made
    }
}

impl Memory for Counted {
    ghost use Rattle.heap_machine.specs.Operations.{MayAct};
    ghost use Rattle.control_heap.specs.Counting.{counted_acts};

    // One thread alone has them.
    type Shared = ();

    ghost may = { λ m none op. MayAct m.words op };

    ghost acts = { counted_acts };

    #[inline(always)]
    fn act(&mut self, shared: &(), op: &Op) -> u64 {
        let _shared = shared;
        self.made = self.made.saturating_add(1);
        Words::act(&mut self.words, op)
    }
}

impl Store for Counted {
    ghost shows = { λ m. m.words };

    ghost allows = { λ m op may. may };

    ghost keeps = { λ m op w after acted. acted.0 };
}

/// Does a command as `ask` does and returns how many operations it took, or `None` where it is
/// refused. The heap is then unchanged. The number is exact as long as the count of the memory is
/// below 2^64 - 1.
pub fn operations_of(heap: &mut ControlHeap<Counted>, command: Command) -> Option<u64>
    ensures config { heap.new.config ≡ heap.old.config }
    ensures counted { IsCountOf heap.old command heap.new result }
    ensures few { IfSome result (λ n. (rate : ℕ) → IsRate heap.old.config rate
        → n ≤ command_bound heap.old.config rate command) }
    ensures near { IfSome result (λ n. (rate : ℕ) → IsRate heap.old.config rate
        → n ≤ command_near heap.old.config rate command) }
{
    let before = heap.memory().made();
    match heap.ask(command) {
        Ok(_reply) => Some(heap.memory().made().saturating_sub(before)),
        Err(_refused) => None,
    }
}
