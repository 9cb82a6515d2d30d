//! The times of the commands of one kind.

use crate::shared::commands::{Plan, Times, tail_of, trace_of};
use crate::slim::push;
use crate::stop::Stop;
use never_heap::Command;
use trace_text::Job;

/// Adds the times of the commands of one kind, or of `all`, of all threads.
pub fn add_kind(
    job: &Job,
    plan: Plan,
    all: &[Times],
    kind: &str,
    found: &mut Vec<u64>,
) -> Result<(), Stop> {
    for (thread, times) in all.iter().enumerate() {
        match times {
            Ok(times) => add_of(tail_of(trace_of(job, thread), plan), times, kind, found)?,
            Err(stop) => return Err(*stop),
        }
    }
    Ok(())
}

/// Adds those of one thread, which did the commands of its tail in turn.
fn add_of(tail: &[Command], times: &[u64], kind: &str, found: &mut Vec<u64>) -> Result<(), Stop> {
    for (number, time) in times.iter().enumerate() {
        if is_of(kind, command_at(tail, number)) {
            push(found, *time)?;
        }
    }
    Ok(())
}

fn command_at(tail: &[Command], number: usize) -> Option<Command> {
    tail.get(number.checked_rem(tail.len())?).copied()
}

fn is_of(kind: &str, command: Option<Command>) -> bool {
    match command {
        Some(command) => kind == "all" || kind == kind_of(command),
        None => false,
    }
}

/// The kind of a command.
fn kind_of(command: Command) -> &'static str {
    match command {
        Command::New { .. } | Command::Arr { .. } => "new",
        Command::Get { .. } => "get",
        Command::Put { .. } => "put",
        _ => "others",
    }
}
