//! What a kind of scripts gives that are run on a heap.

use crate::header::Header;
use crate::kinds::Scripted;
use block_store::{Config, OutOfMemory};
use never_heap::{Command, Entry};
use std::alloc::Global;

/// A kind of scripts that are run: the heap that a script asks for, the commands of its operations,
/// and what the replies to these tell.
pub trait Runnable: Scripted {
    ghost use Rattle.std.specs.Prelude.{◌≡◌, ◌≤◌, ℕ, List, length, map, IfOk};
    ghost use Rattle.never_heap.specs.declared.Command.{Command};
    ghost use Rattle.never_heap.specs.declared.Reply.{Reply};
    ghost use Rattle.array_scripts.specs.Kinds.{IsHeader, AreOfThread};

    /// The commands of a thread's operations.
    ghost commands: { ℕ → List Self.Operation → List Command };

    /// What the replies to them tell of its operations.
    ghost told: { ℕ → List Self.Operation → List Reply → List Self.Answer };

    /// The heap of a script.
    fn config_of(header: &Header) -> Config
        requires { IsHeader Self.kind header.now }
        ensures { result ≡ Self.kind.config_of header.now };

    /// The commands of a thread that does these operations, one after the other.
    fn trace_of(
        alloc: Global,
        thread: u32,
        ops: &[Self::Operation],
    ) -> Result<Vec<Command>, OutOfMemory>
        requires { AreOfThread Self.kind ops.now }
        ensures { IfOk result (λ trace. trace.items ≡ commands thread ops.now) };

    /// The answers of a thread's operations, by its log.
    fn answers(
        alloc: Global,
        thread: u32,
        ops: &[Self::Operation],
        log: &[Entry],
    ) -> Result<Vec<Self::Answer>, OutOfMemory>
        requires { length (commands thread ops.now) ≤ length log.now }
        ensures { IfOk result (λ v. v.items
            ≡ told thread ops.now (map (λ e. e.reply) log.now)) };
}
