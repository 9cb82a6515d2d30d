//! Commands and gauges of one heap.

ghost use Rattle.std.specs.Prelude.{◌<◌, IfSome};

use crate::calls::{called, units_made};
use crate::replies::{Said, push, push_number, push_refused, push_reply, push_value};
use crate::words::{command_of, numbers_of};
use block_store::{OutOfMemory, Value};
use control_heap::{ControlHeap, Fault};
use never_heap::{Command, Reply};
use std::alloc::Global;

/// Does a command by the call of its name and prints its reply, or why it is refused. Returns the
/// reply.
pub fn ask(
    heap: &mut ControlHeap,
    command: Command,
    out: &mut String,
) -> Result<Option<Reply>, OutOfMemory> {
    let before = units_made(heap);
    match reply_of(called(heap, command)) {
        Ok(reply) => {
            let work = units_made(heap).saturating_sub(before);
            push_reply(out, reply, work)?;
            Ok(Some(reply))
        }
        Err(fault) => {
            push_refused(out, fault.text())?;
            Ok(None)
        }
    }
}

/// The reply of a call that was not refused.
fn reply_of(done: Result<Reply, Fault>) -> Result<Reply, Fault> {
    match done {
        Err(Fault::Full(cycle)) => Ok(Reply::Full(cycle)),
        Err(Fault::Null) => Ok(Reply::Null),
        Err(Fault::Kind) => Ok(Reply::Kind),
        Err(Fault::Range) => Ok(Reply::Range),
        other => other,
    }
}

/// Prints a gauge, which has no operands.
pub fn push_gauge(word: &str, number: u64, n: &[u64], out: &mut String) -> Said {
    push_number(out, word, number)?;
    Ok(n.is_empty())
}

/// The gauge of this name.
pub fn gauge(heap: &ControlHeap, word: &str) -> Option<u64> {
    match word {
        "rate" => Some(heap.rate()),
        "cycle" => Some(heap.cycle()),
        "free" => Some(heap.free_blocks()),
        "in_use" => Some(heap.blocks_in_use()),
        "asked" => Some(heap.asked()),
        _ => life_gauge(heap, word),
    }
}

fn life_gauge(heap: &ControlHeap, word: &str) -> Option<u64> {
    match word {
        "units_made" => Some(heap.units_made()),
        "units_left" => Some(heap.units_left()),
        "objects_made" => Some(heap.objects_made()),
        "objects_left" => Some(heap.objects_left()),
        "commands_left" => Some(heap.commands_left()),
        "life_left" => Some(heap.life_left()),
        _ => None,
    }
}

/// Prints how many blocks were live when the cycle began.
pub fn push_live(heap: &ControlHeap, out: &mut String) -> Said {
    match heap.live_at_start() {
        Some(blocks) => push_number(out, "live_at_start", blocks),
        None => push(out, "live_at_start unknown in Sweep"),
    }
}

/// The most operations of a command, and whether the life has room for it.
pub fn push_most(heap: &ControlHeap, command: Command, out: &mut String) -> Said {
    match most_of(heap, command) {
        Some((most, has_room)) => {
            push_number(out, "operations", most)?;
            push(out, if has_room { " room yes" } else { " room no" })
        }
        None => push(out, "out of range"),
    }
}

fn most_of(heap: &ControlHeap, command: Command) -> Option<(u64, bool)> {
    if command.in_bounds(heap.config()) {
        Some((heap.most_operations(&command), heap.has_left(&command)))
    } else {
        None
    }
}

/// What a register holds, read without a command.
pub fn push_register(heap: &ControlHeap, n: &[u64], out: &mut String) -> Said {
    match register_in(n) {
        Some(r) => push_value(out, heap.register(r)),
        None => no_register(n, out),
    }
}

fn no_register(n: &[u64], out: &mut String) -> Said {
    push(out, "no such register")?;
    Ok(n.len() == 1)
}

/// The fields of the object in a register, read without a command.
pub fn push_fields(heap: &ControlHeap, alloc: Global, n: &[u64], out: &mut String) -> Said {
    match register_in(n) {
        Some(r) => match fields(heap, alloc, r)? {
            Some(fields) => push_values(out, fields.as_slice()),
            None => push(out, "no object"),
        },
        None => no_register(n, out),
    }
}

fn fields(heap: &ControlHeap, alloc: Global, r: u8) -> Result<Option<Vec<Value>>, OutOfMemory>
    requires { r < 16 }
{
    heap.fields(alloc, r)
}

fn push_values(out: &mut String, values: &[Value]) -> Said {
    for place in 0..values.len() {
        if place > 0 {
            push(out, ", ")?;
        }
        push_value(out, values[place])?;
    }
    Ok(true)
}

/// One of the sixteen registers.
fn register_in(n: &[u64]) -> Option<u8>
    ensures low { IfSome result (λ r. r < 16) }
{
    let [r] = n else {
        return None;
    };
    if *r < 16 { Some(*r as u8) } else { None }
}

/// The commands that words spell, with `;` between them.
pub fn commands_of(alloc: Global, words: &[&str]) -> Result<Option<Vec<Command>>, OutOfMemory> {
    let mut commands = Vec::new(alloc);
    for part in words.split(|word| *word == ";") {
        let Some((word, rest)) = part.split_first() else {
            return Ok(None);
        };
        let Some(numbers) = numbers_of(alloc, rest)? else {
            return Ok(None);
        };
        match command_of(word, numbers.as_slice()) {
            Some(command) => commands.push(command)?,
            None => return Ok(None),
        }
    }
    Ok(Some(commands))
}

/// The one command that words spell.
pub fn one_command(alloc: Global, words: &[&str]) -> Result<Option<Command>, OutOfMemory> {
    let Some((word, rest)) = words.split_first() else {
        return Ok(None);
    };
    match numbers_of(alloc, rest)? {
        Some(numbers) => Ok(command_of(word, numbers.as_slice())),
        None => Ok(None),
    }
}

/// Of which command a reply is.
pub fn push_after(out: &mut String, asked: u64) -> Said {
    push_number(out, ", command", asked)
}
