//! Operations on tags, and the commands that they are made of.

ghost use Rattle.std.specs.Prelude.{◌≡◌, ◌++◌, ◌∷◌, IfOk, OnOk, map, flat_map};
ghost use Rattle.array_tables.specs.tag_table.Tables.{rows_of, command_at, pair_commands, shown_commands};

use block_store::OutOfMemory;
use never_heap::Command;
use std::alloc::Global;

/// An operation on the tag at a place of the table.
#[derive(Clone, Copy, Debug, PartialEq, Eq)]
pub enum Operation {
    /// Puts a pair there.
    Write {
        place: u32,
        value: u64,
        quality: u64,
    },
    /// Empties the place.
    Clear {
        place: u32,
    },
    /// Leaves it.
    Read {
        place: u32,
    },
}

/// The commands of a thread that does these operations, one after the other.
pub fn trace_of(alloc: Global, ops: &[Operation]) -> Result<Vec<Command>, OutOfMemory>
    ensures { IfOk result (λ trace. trace.items ≡ map command_at (flat_map rows_of ops.now)) }
{
    let mut trace = Vec::new(alloc);
    for op in ops {
        add(&mut trace, op)?;
    }
    Ok(trace)
}

/// Adds the commands of an operation.
fn add(trace: &mut Vec<Command>, op: &Operation) -> Result<(), OutOfMemory>
    ensures { OnOk result (trace.new.items ≡ trace.old.items ++ map command_at (rows_of op.now)) }
{
    match *op {
        Operation::Write {
            place,
            value,
            quality,
        } => {
            add_pair(trace, value, quality)?;
            publish(trace, place)
        }
        Operation::Clear { place } => {
            trace.push(Command::Nil { d: 1 })?;
            publish(trace, place)
        }
        Operation::Read { place } => {
            trace.push(Command::Get {
                d: 1,
                s: 0,
                i: u64::from(place),
            })?;
            show(trace)
        }
    }
}

/// Makes a record of a pair, in register 1.
fn add_pair(trace: &mut Vec<Command>, value: u64, quality: u64) -> Result<(), OutOfMemory>
    ensures { OnOk result (trace.new.items ≡ trace.old.items ++ pair_commands value quality) }
{
    trace.push(Command::New { d: 1, fields: 2 })?;
    trace.push(Command::Set { d: 2, value })?;
    trace.push(Command::Put { s: 1, i: 0, v: 2 })?;
    trace.push(Command::Set {
        d: 2,
        value: quality,
    })?;
    trace.push(Command::Put { s: 1, i: 1, v: 2 })?;
    Ok(())
}

/// Exchanges a place with register 1, and shows what was there.
fn publish(trace: &mut Vec<Command>, place: u32) -> Result<(), OutOfMemory>
    ensures { OnOk result (trace.new.items ≡ trace.old.items ++ Command.Swap 0 place 1 ∷ shown_commands) }
{
    trace.push(Command::Swap {
        s: 0,
        i: u64::from(place),
        v: 1,
    })?;
    show(trace)
}

/// Shows the pair in register 1.
fn show(trace: &mut Vec<Command>) -> Result<(), OutOfMemory>
    ensures { OnOk result (trace.new.items ≡ trace.old.items ++ shown_commands) }
{
    trace.push(Command::Get { d: 2, s: 1, i: 0 })?;
    trace.push(Command::Get { d: 3, s: 1, i: 1 })?;
    Ok(())
}
