//! What a kind of scripts gives.

use crate::header::Header;
use block_store::OutOfMemory;
use std::alloc::Global;
use trace_text::LineBuffer;

/// A kind of scripts: how a header and one operation are read, and what an answer says.
pub trait Scripted {
    ghost use Rattle.std.specs.Prelude.{◌≡◌, ◌≤◌, ◌<◌, ◌++◌, ◌∷◌, ℕ, nat_lt, List, [], length, OnOk};
    ghost use Rattle.std.specs.Option.{option_copied};
    ghost use Rattle.trace_text.specs.Lines.{tokens_of};
    ghost use Rattle.trace_text.specs.Reading.{tokens_left};
    ghost use Rattle.array_scripts.specs.Kinds.{Kind, header_at};

    type Operation: Drop;

    /// The operations of a thread that were read so far.
    type Before: Drop;

    /// What an operation answered.
    type Answer: Drop;

    ghost kind: { Kind Self.Operation };

    /// The operations that a reader keeps.
    ghost ops: { Self.Before → List Self.Operation };

    /// What is written of an answer.
    ghost text: { Self.Answer → List ℕ };

    /// The header that a line spells.
    fn header_of(line: &[u8]) -> Option<Header>
        ensures { result ≡ header_at kind.name kind.label kind.most_places (tokens_of line.now) };

    /// The operation that a first token and those after it spell, on so many places.
    fn operation_of(
        places: u32,
        before: &Self::Before,
        first: &[u8],
        operands: Option<&[u8]>,
    ) -> Option<Self::Operation>
        ensures { result ≡ kind.op_at places (ops before.now)
            (first.now ∷ tokens_left (option_copied operands.entry)) };

    /// No operations.
    fn none(alloc: Global) -> Self::Before
        ensures { ops result ≡ [] };

    /// Whether a thread may have one more.
    fn has_room(before: &Self::Before) -> bool
        ensures { result ≡ nat_lt (length (ops before.now)) kind.most };

    /// Adds one after them.
    fn push(before: &mut Self::Before, op: Self::Operation) -> Result<(), OutOfMemory>
        ensures { OnOk result (ops before.new ≡ ops before.old ++ op ∷ []) };

    /// The operations alone.
    fn into_ops(before: Self::Before) -> Vec<Self::Operation>
        ensures { result.items ≡ ops before };

    /// Puts what is written of an answer in front of a line feed.
    fn prepend_answer(line: &mut LineBuffer, answer: &Self::Answer)
        requires { length line.old ≤ 1 }
        ensures text { line.new ≡ text answer.now ++ line.old }
        ensures length { length line.new ≤ 63 };
}
