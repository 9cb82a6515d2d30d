//! What is printed of replies and values: the words of `docs/FORMAT.md`.

use block_store::{OutOfMemory, Value};
use control_heap::Fault;
use never_heap::Reply;
use std::fmt::Write;

/// Whether words are understood. Printing something says so, since it is done where they are.
pub type Said = Result<bool, OutOfMemory>;

/// Prints a text.
pub fn push(out: &mut String, text: &str) -> Said {
    out.push_str(text)?;
    Ok(true)
}

/// Prints a text on a line of its own.
pub fn push_line(out: &mut String, text: &str) -> Said {
    if !out.is_empty() {
        out.push_str("\n")?;
    }
    out.push_str(text)?;
    Ok(true)
}

/// Prints a number behind a blank, unless it is the first.
pub fn push_next(out: &mut String, number: u64) -> Said {
    if !out.is_empty() {
        out.push_str(" ")?;
    }
    write!(out, "{number}")?;
    Ok(true)
}

/// A reply, with the units that the command made.
pub fn push_reply(out: &mut String, reply: Reply, work: u64) -> Said {
    match reply {
        Reply::New(name) => push_new(out, name.thread, name.serial, work),
        Reply::Full(cycle) => push_full(out, cycle, work),
        Reply::Val(value) => push_value(out, value),
        Reply::Len(length) => push_number(out, "len", length),
        Reply::Idle => push_number(out, "idle work", work),
        _ => push(out, word_of(reply)),
    }
}

/// The word of a reply that is one.
fn word_of(reply: Reply) -> &'static str {
    match reply {
        Reply::Yes => "yes",
        Reply::No => "no",
        Reply::Null => "null",
        Reply::Kind => "kind",
        Reply::Range => "range",
        _ => "ok",
    }
}

fn push_new(out: &mut String, thread: u32, serial: u64, work: u64) -> Said {
    write!(out, "new {thread}.{serial} work {work}")?;
    Ok(true)
}

fn push_full(out: &mut String, cycle: u64, work: u64) -> Said {
    write!(out, "full {cycle} work {work}")?;
    Ok(true)
}

/// A value: `nil`, `int 7`, `ref 0.3`.
pub fn push_value(out: &mut String, value: Value) -> Said {
    match value {
        Value::Nil => push(out, "nil"),
        Value::Int(number) => push_number(out, "int", number),
        Value::Ref(name) => push_name(out, name.thread, name.serial),
    }
}

fn push_name(out: &mut String, thread: u32, serial: u64) -> Said {
    write!(out, "ref {thread}.{serial}")?;
    Ok(true)
}

/// A line `NAME NUMBER`.
pub fn push_number(out: &mut String, name: &str, number: u64) -> Said {
    write!(out, "{name} {number}")?;
    Ok(true)
}

/// Why a call was not done.
pub fn push_fault(out: &mut String, fault: Fault) -> Said {
    match fault {
        Fault::Full(cycle) => push_number(out, "full", cycle),
        Fault::Null => push(out, "null"),
        Fault::Kind => push(out, "kind"),
        Fault::Range => push(out, "range"),
        Fault::OutOfBounds | Fault::NoLifeLeft => push_refused(out, fault.text()),
    }
}

/// Why something was refused.
pub fn push_refused(out: &mut String, text: &str) -> Said {
    out.push_str("refused: ")?;
    out.push_str(text)?;
    Ok(true)
}

/// `yes` or `no`.
pub fn push_yes(out: &mut String, is: bool) -> Said {
    push(out, if is { "yes" } else { "no" })
}
