//! What the object of a command is like.

ghost use Rattle.std.specs.Prelude.{◌≡◌, ◌<◌, ◌≤◌, IfSome};
ghost use Rattle.block_store.specs.Widths.{payloads};
ghost use Rattle.block_store.specs.declared.TheConstants.{REGISTERS};
ghost use Rattle.object_lists.specs.Parts.{link_in};
ghost use Rattle.never_heap.specs.Bounds.{IsCommandInRange};
ghost use Rattle.never_heap.specs.Steps.{blocks_of};
ghost use Rattle.build_steps.specs.Objects;

use array_trees::child_of;
use block_store::{Shape, Width, shape_word};
use never_heap::Command;
use object_lists::link_of;

// The register that then refers to it.
pub(crate) fn made_register(command: Command) -> u8
    requires { IsCommandInRange command }
    ensures is { result ≡ Objects.made_register command }
    ensures low { result < REGISTERS }
{
    match command {
        Command::New { d, .. } | Command::Arr { d, .. } => d,
        _ => 0,
    }
}

// Its shape word.
pub(crate) fn made_shape(command: Command) -> u64
    requires { IsCommandInRange command }
    ensures { result ≡ Objects.made_shape command }
{
    match command {
        Command::New { fields, .. } => shape_word(Shape::List(fields)),
        Command::Arr { elements, .. } => shape_word(Shape::Tree(elements)),
        _ => 0,
    }
}

// The ordinal to which payload `j` of this ordinal links, in an object of so many blocks.
#[tactic(auto, using(crate::proofs::Parts::other_field, crate::proofs::Parts::links_onward))]
pub(crate) fn link_at(
    width: Width,
    command: Command,
    blocks: u32,
    ordinal: u32,
    j: u32,
) -> Option<u32>
    requires range { IsCommandInRange command }
    requires size { blocks ≡ blocks_of width command }
    requires ordinal { ordinal < blocks }
    requires payload { j < payloads width }
    ensures link { result ≡ link_in (Objects.made_part width command ordinal j) }
    ensures onward { IfSome result (λ p. (ordinal < p) × (p < blocks)) }
{
    match command {
        Command::New { .. } if j == 0 => link_of(width, blocks, ordinal),
        Command::Arr { elements, .. } => child_of(width, elements, ordinal, j),
        _ => None,
    }
}
