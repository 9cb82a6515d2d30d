//! The answers of operations, read off a thread's log.

ghost use Rattle.std.specs.Prelude.{◌≡◌, ◌≤◌, ◌+◌, IfOk, length, drop, map, flat_map};
ghost use Rattle.array_tables.specs.tag_table.Tables.{rows_of, pair_of, tag_told, told_from, answers_of};

use crate::tag_table::operation::Operation;
use block_store::{OutOfMemory, Value};
use never_heap::{Entry, Reply};
use std::alloc::Global;

/// The pair that two replies tell, if they are numbers.
fn pair(value: Reply, quality: Reply) -> Option<(u64, u64)>
    ensures { result ≡ pair_of value quality }
{
    match (value, quality) {
        (Reply::Val(Value::Int(v)), Reply::Val(Value::Int(q))) => Some((v, q)),
        _ => None,
    }
}

/// Where the two telling entries of an operation are among its entries.
fn told_at(op: &Operation) -> usize
    ensures { result ≡ told_from op.now }
{
    match op {
        Operation::Write { .. } => 6,
        Operation::Clear { .. } => 2,
        Operation::Read { .. } => 1,
    }
}

/// The answer of an operation whose entries a log begins with.
fn answer_of(op: &Operation, log: &[Entry]) -> Option<(u64, u64)>
    requires { told_from op.now + 2 ≤ length log.now }
    ensures { result ≡ tag_told op.now (map (λ e. e.reply) log.now) }
{
    let at = told_at(op);
    pair(log[at].reply, log[at + 1].reply)
}

/// The log after the entries of an operation that it begins with.
fn behind<'a>(op: &Operation, log: &'a [Entry]) -> &'a [Entry]
    requires { told_from op.now + 2 ≤ length log.now }
    ensures { result.now ≡ drop (told_from op.now + 2) log.now }
{
    &log[told_at(op) + 2..]
}

/// The answers of a thread's operations, by its log.
pub fn answers(
    alloc: Global,
    ops: &[Operation],
    log: &[Entry],
) -> Result<Vec<Option<(u64, u64)>>, OutOfMemory>
    requires { length (flat_map rows_of ops.now) ≤ length log.now }
    ensures { IfOk result (λ v. v.items ≡ answers_of ops.now (map (λ e. e.reply) log.now)) }
{
    let mut told = Vec::new(alloc);
    let mut rest = log;
    for op in ops {
        told.push(answer_of(op, rest))?;
        rest = behind(op, rest);
    }
    Ok(told)
}
