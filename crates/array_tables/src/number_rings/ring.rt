//! The commands of a ring.

ghost use Rattle.std.specs.Prelude.{◌≡◌, ◌≤◌, ◌<◌, ◌++◌, ◌*◌, ◌+◌, ◌^◌, ◌%◌, IfOk, OnOk, length, map, flat_map};
ghost use Rattle.array_tables.specs.number_rings.Rings.{Keep, Recall, rows_of, command_at, script_of, recalls, ring_place, ring_config};

use array_trees::blocks_of_array;
use block_store::{Config, OutOfMemory, Width};
use never_heap::Command;
use std::alloc::Global;

/// How many places a ring has.
pub const PLACES: u32 = 8;

/// The heap of so many rings. It has room for its live blocks four times over.
pub fn config_of_rings(threads: u32) -> Config
    requires { threads ≤ 16 }
    ensures { result ≡ ring_config threads }
{
    let shared = PLACES * threads;
    let live = 4 * threads + blocks_of_array(Width::Eight, shared) + shared;
    Config {
        width: Width::Eight,
        threads,
        blocks: 4 * (live + threads + 1),
        live,
        object: 1,
        shared,
    }
}

/// The commands of a thread that keeps these numbers in its ring and recalls what is left.
pub fn trace_of_ring(
    alloc: Global,
    thread: u32,
    numbers: &[u64],
) -> Result<Vec<Command>, OutOfMemory>
    requires { (thread < 16) × (length numbers.now ≤ 30000) }
    ensures { IfOk result (λ trace. trace.items
        ≡ map command_at (flat_map rows_of (script_of thread numbers.now))) }
{
    let mut trace = Vec::new(alloc);
    for (j, number) in numbers.iter().enumerate() {
        keep(&mut trace, place(thread, j), *number)?;
    }
    for j in numbers.len().saturating_sub(PLACES as usize)..numbers.len() {
        recall(&mut trace, place(thread, j))?;
    }
    Ok(trace)
}

/// The place of a thread's number with this index.
fn place(thread: u32, j: usize) -> u64
    requires { (thread < 16) × (j < 2 ^ 32) }
    ensures { result ≡ ring_place thread j }
{
    u64::from(PLACES * thread) + (j % PLACES as usize) as u64
}

/// Makes a record of a number, and stores it at a place.
fn keep(trace: &mut Vec<Command>, place: u64, number: u64) -> Result<(), OutOfMemory>
    ensures { OnOk result (trace.new.items
        ≡ trace.old.items ++ map command_at (rows_of (Keep place number))) }
{
    trace.push(Command::New { d: 1, fields: 1 })?;
    trace.push(Command::Set {
        d: 2,
        value: number,
    })?;
    trace.push(Command::Put { s: 1, i: 0, v: 2 })?;
    trace.push(Command::Put {
        s: 0,
        i: place,
        v: 1,
    })?;
    Ok(())
}

/// Fetches the record at a place, and its number.
fn recall(trace: &mut Vec<Command>, place: u64) -> Result<(), OutOfMemory>
    ensures { OnOk result (trace.new.items
        ≡ trace.old.items ++ map command_at (rows_of (Recall place))) }
{
    trace.push(Command::Get {
        d: 1,
        s: 0,
        i: place,
    })?;
    trace.push(Command::Get { d: 2, s: 1, i: 0 })?;
    Ok(())
}
