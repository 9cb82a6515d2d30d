//! A table of process tags on the heap: scripts of operations, run on threads, and their answers.
#![tactic(auto)]

ghost use Rattle.std.specs.Prelude.{◌≡◌, ◌⊎◌, ℕ, List};
ghost use Rattle.array_tables.specs.declared.tag_table.operation.Operation.{Operation};
ghost use Rattle.array_scripts.specs.declared.header.Header.{Header};
ghost use Rattle.array_scripts.specs.Kinds.{Tokens};
ghost use Rattle.array_scripts.specs.Parts.{IsFirstBad};
ghost use Rattle.rt_tags.specs.Lines.{tag_kind, IsTagScript};

mod exit;
mod kind;
mod line;
mod running;
mod script;
mod top;

pub use array_scripts::{Fault, Header};
pub use exit::TagExit;
pub use script::script_of;
pub use top::tags;

/// Lines are a script of tags, or one of them is the first that may not come at its place, and
/// never both; and they are one script at most.
pub fn lines_are_told_apart()
    ensures either { (lines : List Tokens)
        → ((h : Header) × (scripts : List (List Operation)) × IsTagScript lines h scripts)
        ⊎ ((n : ℕ) × IsFirstBad tag_kind lines n) }
    ensures apart { (lines : List Tokens) (h : Header) (scripts : List (List Operation)) (n : ℕ)
        → IsTagScript lines h scripts → IsFirstBad tag_kind lines n → ⊥ }
    ensures one { (lines : List Tokens) (h k : Header) (scripts others : List (List Operation))
        → IsTagScript lines h scripts → IsTagScript lines k others
        → (h ≡ k) × (scripts ≡ others) }
{}
