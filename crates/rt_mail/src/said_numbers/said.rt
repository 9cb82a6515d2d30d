//! What an entry shows, and how often a trace says.

ghost use Rattle.std.specs.Prelude.{◌≡◌, ◌≤◌};
ghost use Rattle.rt_mail.specs.said_numbers.Said as defined;

use block_store::Value;
use never_heap::{Command, Entry, Reply};

/// The number that an entry shows, where it is a `say` that is answered with one.
pub fn number_said(entry: &Entry) -> Option<u64>
    ensures { result ≡ defined.number_said entry.now }
{
    match (entry.command, entry.reply) {
        (Command::Say { .. }, Reply::Val(Value::Int(number))) => Some(number),
        _ => None,
    }
}

/// How many `say` commands a trace has.
pub fn says_of(trace: &[Command]) -> usize
    ensures { result ≡ defined.says_in trace.now }
{
    let mut says = 0;
    for command in trace {
        says += one_say(command);
    }
    says
}

fn one_say(command: &Command) -> usize
    ensures value { result ≡ defined.one_say command.now }
    ensures few { result ≤ 1 }
{
    match command {
        Command::Say { .. } => 1,
        _ => 0,
    }
}
