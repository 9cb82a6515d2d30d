//! What operations came to, read off a thread's log.

ghost use Rattle.std.specs.Prelude.{◌≡◌, ◌≤◌, ◌<◌, ◌+◌, ◌^◌, IfOk, length, drop, map};
ghost use Rattle.array_tables.specs.handle_table.Handles as handles;
ghost use Rattle.array_tables.specs.handle_table.Handles.{found_by, shown_as, outcome_told, outcomes_told, sizes_of};

use crate::handle_table::operation::{Operation, made_by};
use block_store::{OutOfMemory, Value};
use never_heap::{Entry, Reply};
use std::alloc::Global;

/// What an operation came to.
#[derive(Clone, Copy, Debug, PartialEq, Eq)]
pub enum Outcome {
    /// A make filled the slot with its handle, which is of this make of this thread, from 1 on.
    Made { thread: u64, make: u64 },
    /// A make found the slot full.
    Taken,
    /// The slot holds the handle that a see names.
    Live,
    /// It does not, or not the one that a drop names.
    Stale,
    /// A drop emptied the slot.
    Dropped,
    /// A take or an evict found the slot empty.
    Empty,
    /// It found the handle of this make of this thread, with its number.
    Shown { thread: u64, make: u64, number: u64 },
}

/// What a take or an evict showed by two replies: they are numbers, or refused since the slot was
/// empty.
fn shown(id: Reply, number: Reply) -> Outcome
    ensures { result ≡ shown_as (found_by id number) }
{
    match (id, number) {
        (Reply::Val(Value::Int(n)), Reply::Val(Value::Int(x))) => Outcome::Shown {
            thread: n / (1 << 20),
            make: n % (1 << 20),
            number: x,
        },
        _ => Outcome::Empty,
    }
}

/// How many commands an operation has.
fn size_of(op: &Operation) -> usize
    ensures { result ≡ handles.size_of op.now }
{
    match op {
        Operation::Make { .. } => 9,
        Operation::See { .. } => 2,
        Operation::Drop { .. } => 2,
        Operation::Take { .. } => 4,
        Operation::Evict { .. } => 5,
    }
}

/// What a thread's next operation came to, after so many makes, where a log begins with its
/// entries.
fn outcome_of(thread: u32, made: u64, op: &Operation, log: &[Entry]) -> Outcome
    requires entries { handles.size_of op.now ≤ length log.now }
    requires few { made < 2 ^ 63 }
    ensures { result ≡ outcome_told thread made op.now (map (λ e. e.reply) log.now) }
{
    match op {
        Operation::Make { .. } => match log[8].reply {
            Reply::Yes => Outcome::Made {
                thread: u64::from(thread),
                make: made + 1,
            },
            _ => Outcome::Taken,
        },
        Operation::See { .. } => match log[1].reply {
            Reply::Yes => Outcome::Live,
            _ => Outcome::Stale,
        },
        Operation::Drop { .. } => match log[1].reply {
            Reply::Yes => Outcome::Dropped,
            _ => Outcome::Stale,
        },
        Operation::Take { .. } => shown(log[1].reply, log[3].reply),
        Operation::Evict { .. } => shown(log[2].reply, log[4].reply),
    }
}

/// The log after the entries of an operation that it begins with.
fn behind<'a>(op: &Operation, log: &'a [Entry]) -> &'a [Entry]
    requires { handles.size_of op.now ≤ length log.now }
    ensures { result.now ≡ drop (handles.size_of op.now) log.now }
{
    &log[size_of(op)..]
}

/// What a thread's operations came to, by its log.
pub fn outcomes(
    alloc: Global,
    thread: u32,
    ops: &[Operation],
    log: &[Entry],
) -> Result<Vec<Outcome>, OutOfMemory>
    requires { sizes_of ops.now ≤ length log.now }
    ensures { IfOk result (λ v. v.items
        ≡ outcomes_told thread 0 ops.now (map (λ e. e.reply) log.now)) }
{
    let mut told = Vec::new(alloc);
    let mut rest = log;
    let mut made = 0u64;
    for op in ops {
        told.push(outcome_of(thread, made, op, rest))?;
        rest = behind(op, rest);
        made += made_by(op);
    }
    Ok(told)
}
