//! What a command names.

ghost use Rattle.std.specs.Prelude.{◌≡◌, ◌<◌};
ghost use Rattle.block_store.specs.Shapes.{IsShape};
ghost use Rattle.never_heap.specs.Bounds.{IsCommandInRange};
ghost use Rattle.barrier_steps.specs.Operands;
ghost use Rattle.barrier_steps.specs.Walks.{shape_length};

use block_store::{Payload, Shape, payload_word};
use never_heap::Command;

// The register that becomes something.
#[inline(always)]
pub(crate) fn to_register(command: Command) -> u8
    requires { IsCommandInRange command }
    ensures is { result ≡ Operands.to_register command }
    ensures low { result < 16 }
{
    use Command::*;

    match command {
        New { d, .. } | Arr { d, .. } | Set { d, .. } | Nil { d } => d,
        Mov { d, .. } | Get { d, .. } => d,
        Swap { v, .. } => v,
        Put { .. } | Len { .. } | Same { .. } | Say { .. } | Cas { .. } | Idle { .. } => 0,
    }
}

// The register that is read first.
#[inline(always)]
pub(crate) fn from_register(command: Command) -> u8
    requires { IsCommandInRange command }
    ensures is { result ≡ Operands.from_register command }
    ensures low { result < 16 }
{
    use Command::*;

    match command {
        Mov { s, .. } | Get { s, .. } | Put { s, .. } | Len { s } | Say { s } => s,
        Swap { s, .. } | Cas { s, .. } => s,
        Same { a, .. } => a,
        New { .. } | Arr { .. } | Set { .. } | Nil { .. } | Idle { .. } => 0,
    }
}

// The other register that is read, which is the last.
#[inline(always)]
pub(crate) fn other_register(command: Command) -> u8
    requires { IsCommandInRange command }
    ensures is { result ≡ Operands.other_register command }
    ensures low { result < 16 }
{
    use Command::*;

    match command {
        Put { v, .. } | Swap { v, .. } | Cas { v, .. } => v,
        Same { b, .. } => b,
        Mov { s, .. } | Get { s, .. } | Len { s } | Say { s } => s,
        New { .. } | Arr { .. } | Set { .. } | Nil { .. } | Idle { .. } => 0,
    }
}

// The register with whose value a field is compared, which is the second that is read.
pub(crate) fn expected_register(command: Command) -> u8
    requires { IsCommandInRange command }
    ensures is { result ≡ Operands.expected_register command }
    ensures low { result < 16 }
{
    use Command::*;

    match command {
        Put { v, .. } | Swap { v, .. } => v,
        Same { b, .. } => b,
        Cas { a, .. } => a,
        New { .. } | Arr { .. } | Set { .. } | Nil { .. } | Mov { .. } => 0,
        Get { .. } | Len { .. } | Say { .. } | Idle { .. } => 0,
    }
}

// The word of the number that a register becomes, or of nil.
pub(crate) fn constant_word(command: Command) -> u64
    requires { IsCommandInRange command }
    ensures { result ≡ Operands.constant_word command }
{
    match command {
        Command::Set { value, .. } => payload_word(Payload::Int(value)),
        _ => payload_word(Payload::Nil),
    }
}

// The number of the field, which an object of this shape has.
#[inline(always)]
pub(crate) fn field_index(command: Command, shape: Shape) -> u32
    requires shape { IsShape shape }
    requires within { Operands.field_index command < shape_length shape }
    ensures { result ≡ Operands.field_index command }
{
    let _shape = shape;
    index_named(command) as u32
}

// The number of the field; the object may lack it.
#[inline(always)]
fn index_named(command: Command) -> u64
    ensures { result ≡ Operands.field_index command }
{
    use Command::*;

    match command {
        Get { i, .. } | Put { i, .. } | Swap { i, .. } | Cas { i, .. } => i,
        New { .. } | Arr { .. } | Set { .. } | Nil { .. } | Idle { .. } => 0,
        Mov { .. } | Len { .. } | Same { .. } | Say { .. } => 0,
    }
}
