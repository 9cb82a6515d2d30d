//! The commands of each operation, its range, and its answer.

ghost use Rattle.std.specs.Prelude.{◌≡◌, ◌≤◌, ◌∷◌, [], ◌↔◌, IsTrue};
ghost use Rattle.array_tables.specs.tag_table.Tables.{IsOperationInRange, pair_of};
ghost use Rattle.live_tables.specs.tags.Live.{commands_of, objects_by};

use array_tables::tag_table::Operation;
use block_store::Value;
use never_heap::{Command, Reply};

// The commands of a write.
pub(crate) fn write_commands(place: u32, value: u64, quality: u64) -> [Command; 8]
    ensures { result ≡ commands_of (Operation.Write place value quality ∷ []) }
{
    [
        Command::New { d: 1, fields: 2 },
        Command::Set { d: 2, value },
        Command::Put { s: 1, i: 0, v: 2 },
        Command::Set {
            d: 2,
            value: quality,
        },
        Command::Put { s: 1, i: 1, v: 2 },
        Command::Swap {
            s: 0,
            i: u64::from(place),
            v: 1,
        },
        Command::Get { d: 2, s: 1, i: 0 },
        Command::Get { d: 3, s: 1, i: 1 },
    ]
}

// The commands of a clear.
pub(crate) fn clear_commands(place: u32) -> [Command; 4]
    ensures { result ≡ commands_of (Operation.Clear place ∷ []) }
{
    [
        Command::Nil { d: 1 },
        Command::Swap {
            s: 0,
            i: u64::from(place),
            v: 1,
        },
        Command::Get { d: 2, s: 1, i: 0 },
        Command::Get { d: 3, s: 1, i: 1 },
    ]
}

// The commands of a read.
pub(crate) fn read_commands(place: u32) -> [Command; 3]
    ensures { result ≡ commands_of (Operation.Read place ∷ []) }
{
    [
        Command::Get {
            d: 1,
            s: 0,
            i: u64::from(place),
        },
        Command::Get { d: 2, s: 1, i: 0 },
        Command::Get { d: 3, s: 1, i: 1 },
    ]
}

// Whether an operation is on a place of the table, with numbers that fit in a field.
pub(crate) fn in_range(op: &Operation, tags: u32) -> bool
    ensures { IsTrue result ↔ IsOperationInRange tags op.now }
{
    match *op {
        Operation::Write {
            place,
            value,
            quality,
        } => place < tags && value < 1 << 62 && quality < 1 << 62,
        Operation::Clear { place } => place < tags,
        Operation::Read { place } => place < tags,
    }
}

// How many records the commands of an operation make.
pub(crate) fn objects_in(op: &Operation) -> u64
    ensures { result ≡ objects_by op.now }
{
    match op {
        Operation::Write { .. } => 1,
        Operation::Clear { .. } | Operation::Read { .. } => 0,
    }
}

// The pair of two replies, if both are numbers.
pub(crate) fn pair(value: Reply, quality: Reply) -> Option<(u64, u64)>
    ensures { result ≡ pair_of value quality }
{
    match (value, quality) {
        (Reply::Val(Value::Int(v)), Reply::Val(Value::Int(q))) => Some((v, q)),
        _ => None,
    }
}
