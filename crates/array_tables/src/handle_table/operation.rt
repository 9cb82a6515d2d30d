//! Operations on handles, and the commands that they are made of.

ghost use Rattle.std.specs.Prelude.{◌≡◌, ◌<◌, ◌≤◌, ◌+◌, ◌^◌, ◌++◌, ◌∷◌, [], IfOk, OnOk, map, flat_map, length};
ghost use Rattle.array_tables.specs.handle_table.Handles.{rows_of, command_at, deeds_of, commands_of, box_commands, shown_commands, makes, handle_of, AreNamed};
ghost use Rattle.array_tables.specs.handle_table.Handles as handles;

use block_store::OutOfMemory;
use never_heap::Command;
use std::alloc::Global;

/// An operation of a thread on a slot. A thread keeps eight handles, and names the one it means.
#[derive(Clone, Copy, Debug, PartialEq, Eq)]
pub enum Operation {
    /// Makes an object with a number, and a handle to it, which fills the slot if that is free.
    Make { handle: u8, slot: u32, number: u64 },
    /// Asks whether the slot still holds the handle.
    See { handle: u8, slot: u32 },
    /// Empties the slot, if it still holds the handle.
    Drop { handle: u8, slot: u32 },
    /// Shows the slot's handle with its number.
    Take { slot: u32 },
    /// The same, and empties the slot.
    Evict { slot: u32 },
}

/// The commands of a thread that does these operations, one after the other.
pub fn trace_of(alloc: Global, thread: u32, ops: &[Operation]) -> Result<Vec<Command>, OutOfMemory>
    requires { AreNamed ops.now }
    ensures { IfOk result (λ trace. trace.items
        ≡ map command_at (flat_map rows_of (deeds_of thread ops.now))) }
{
    let mut trace = Vec::new(alloc);
    let mut made = 0u64;
    for op in ops {
        add(&mut trace, thread, made, op)?;
        made += made_by(op);
    }
    Ok(trace)
}

/// How many handles an operation makes.
pub fn made_by(op: &Operation) -> u64
    ensures { result ≡ makes op.now }
{
    match op {
        Operation::Make { .. } => 1,
        _ => 0,
    }
}

/// Adds the commands of a thread's next operation, after so many makes.
fn add(trace: &mut Vec<Command>, thread: u32, made: u64, op: &Operation) -> Result<(), OutOfMemory>
    requires named { handle_of op.now < 8 }
    requires few { made < 2 ^ 63 }
    ensures { OnOk result (trace.new.items ≡ trace.old.items ++ commands_of thread made op.now) }
{
    match *op {
        Operation::Make {
            handle,
            slot,
            number,
        } => {
            add_box(trace, id_of(thread, made), handle, number)?;
            claim(trace, handle, slot)
        }
        Operation::See { handle, slot } => see(trace, handle, slot),
        Operation::Drop { handle, slot } => release(trace, handle, slot),
        Operation::Take { slot } => take(trace, slot),
        Operation::Evict { slot } => evict(trace, slot),
    }
}

/// The id of the handle of a thread's next make, after so many.
fn id_of(thread: u32, made: u64) -> u64
    requires { made < 2 ^ 63 }
    ensures { result ≡ handles.id thread made }
{
    u64::from(thread) * (1 << 20) + (made + 1)
}

/// Makes an object with a number, and a box that refers to it and has the handle's id.
fn add_box(trace: &mut Vec<Command>, id: u64, handle: u8, number: u64) -> Result<(), OutOfMemory>
    requires { handle < 8 }
    ensures { OnOk result (trace.new.items ≡ trace.old.items ++ box_commands id handle number) }
{
    let d = 4 + handle;
    trace.push(Command::New { d: 1, fields: 1 })?;
    trace.push(Command::Set {
        d: 2,
        value: number,
    })?;
    trace.push(Command::Put { s: 1, i: 0, v: 2 })?;
    trace.push(Command::New { d, fields: 2 })?;
    trace.push(Command::Put { s: d, i: 0, v: 1 })?;
    trace.push(Command::Set { d: 2, value: id })?;
    trace.push(Command::Put { s: d, i: 1, v: 2 })?;
    Ok(())
}

/// Puts a handle's box in its slot, if that is free.
fn claim(trace: &mut Vec<Command>, handle: u8, slot: u32) -> Result<(), OutOfMemory>
    requires { handle < 8 }
    ensures { OnOk result (trace.new.items
        ≡ trace.old.items ++ Command.Nil 2 ∷ Command.Cas 0 slot 2 (4 + handle) ∷ []) }
{
    trace.push(Command::Nil { d: 2 })?;
    trace.push(Command::Cas {
        s: 0,
        i: u64::from(slot),
        a: 2,
        v: 4 + handle,
    })?;
    Ok(())
}

/// Compares what the slot holds with a handle's box.
fn see(trace: &mut Vec<Command>, handle: u8, slot: u32) -> Result<(), OutOfMemory>
    requires { handle < 8 }
    ensures { OnOk result (trace.new.items
        ≡ trace.old.items ++ Command.Get 1 0 slot ∷ Command.Same 1 (4 + handle) ∷ []) }
{
    trace.push(Command::Get {
        d: 1,
        s: 0,
        i: u64::from(slot),
    })?;
    trace.push(Command::Same {
        a: 1,
        b: 4 + handle,
    })?;
    Ok(())
}

/// Empties the slot, if it holds a handle's box.
fn release(trace: &mut Vec<Command>, handle: u8, slot: u32) -> Result<(), OutOfMemory>
    requires { handle < 8 }
    ensures { OnOk result (trace.new.items
        ≡ trace.old.items ++ Command.Nil 2 ∷ Command.Cas 0 slot (4 + handle) 2 ∷ []) }
{
    trace.push(Command::Nil { d: 2 })?;
    trace.push(Command::Cas {
        s: 0,
        i: u64::from(slot),
        a: 4 + handle,
        v: 2,
    })?;
    Ok(())
}

/// Shows what the slot holds.
fn take(trace: &mut Vec<Command>, slot: u32) -> Result<(), OutOfMemory>
    ensures { OnOk result (trace.new.items ≡ trace.old.items ++ Command.Get 1 0 slot ∷ shown_commands) }
{
    trace.push(Command::Get {
        d: 1,
        s: 0,
        i: u64::from(slot),
    })?;
    show(trace)
}

/// Empties the slot, and shows what it held.
fn evict(trace: &mut Vec<Command>, slot: u32) -> Result<(), OutOfMemory>
    ensures { OnOk result (trace.new.items
        ≡ trace.old.items ++ Command.Nil 1 ∷ Command.Swap 0 slot 1 ∷ shown_commands) }
{
    trace.push(Command::Nil { d: 1 })?;
    trace.push(Command::Swap {
        s: 0,
        i: u64::from(slot),
        v: 1,
    })?;
    show(trace)
}

/// Shows the id and the number of the box in register 1.
fn show(trace: &mut Vec<Command>) -> Result<(), OutOfMemory>
    ensures { OnOk result (trace.new.items ≡ trace.old.items ++ shown_commands) }
{
    trace.push(Command::Get { d: 2, s: 1, i: 1 })?;
    trace.push(Command::Get { d: 3, s: 1, i: 0 })?;
    trace.push(Command::Get { d: 3, s: 3, i: 0 })?;
    Ok(())
}
