//! The numbers that a ring recalled, read off its thread's log.

ghost use Rattle.std.specs.Prelude.{◌≡◌, ◌≤◌, ◌*◌, ◌++◌, [], IfOk, OnOk, length, drop, map};
ghost use Rattle.array_tables.specs.number_rings.Rings.{number_of, with_number, numbers_told, recalled};

use block_store::{OutOfMemory, Value};
use never_heap::{Entry, Reply};
use std::alloc::Global;

/// The number that a reply shows.
fn number(reply: Reply) -> Option<u64>
    ensures { result ≡ number_of reply }
{
    match reply {
        Reply::Val(Value::Int(number)) => Some(number),
        _ => None,
    }
}

/// The numbers that a thread recalled after so many keeps, by its log.
pub fn recalled_numbers(alloc: Global, kept: usize, log: &[Entry]) -> Result<Vec<u64>, OutOfMemory>
    requires { 4 * kept ≤ length log.now }
    ensures { IfOk result (λ v. v.items ≡ recalled kept (map (λ e. e.reply) log.now)) }
{
    let mut numbers = Vec::new(alloc);
    let mut rest = behind(log, 4 * kept);
    while rest.len() >= 2 {
        push_told(&mut numbers, rest[1].reply)?;
        rest = behind(rest, 2);
    }
    Ok(numbers)
}

/// Adds the number that a reply shows, if it shows one.
fn push_told(numbers: &mut Vec<u64>, reply: Reply) -> Result<(), OutOfMemory>
    ensures { OnOk result (numbers.new.items
        ≡ numbers.old.items ++ with_number (number_of reply) []) }
{
    if let Some(number) = number(reply) {
        numbers.push(number)?;
    }
    Ok(())
}

/// The log after so many entries.
fn behind(log: &[Entry], count: usize) -> &[Entry]
    requires { count ≤ length log.now }
    ensures { result.now ≡ drop count log.now }
{
    &log[count..]
}
