//! The most operations of each command, and requests of one kind.

use crate::HEAP;
use crate::numbers::{number_at, size_at};
use crate::slim::{ask, most_operations, open, print_number};
use crate::stop::Stop;
use crate::times::fill;
use block_store::Config;
use control_heap::ControlHeap;
use never_heap::Command;

/// The fields of a record in each of its blocks, of eight payload words.
const FIELDS: u32 = 7;

/// The kinds of requests on a heap, each with its command: the commands, at index 0 or 1, and the
/// allocation of the largest record.
fn kinds(heap: &Config) -> [(&'static str, Command); 13] {
    let fields = heap.object.saturating_mul(FIELDS);
    [
        ("new", Command::New { d: 1, fields: 2 }),
        ("largest", Command::New { d: 1, fields }),
        ("get", Command::Get { d: 3, s: 2, i: 0 }),
        ("put", Command::Put { s: 1, i: 1, v: 2 }),
        ("swap", Command::Swap { s: 1, i: 1, v: 2 }),
        (
            "cas",
            Command::Cas {
                s: 1,
                i: 1,
                a: 3,
                v: 2,
            },
        ),
        ("set", Command::Set { d: 4, value: 7 }),
        ("nil", Command::Nil { d: 5 }),
        ("mov", Command::Mov { d: 6, s: 2 }),
        ("len", Command::Len { s: 2 }),
        ("same", Command::Same { a: 1, b: 2 }),
        ("say", Command::Say { s: 2 }),
        ("idle", Command::Idle { units: 10 }),
    ]
}

/// The command of a kind.
fn command_of(kind: &str, kinds: &[(&str, Command)]) -> Result<Command, Stop> {
    for (name, command) in kinds {
        if *name == kind {
            return Ok(*command);
        }
    }
    Err(Stop::Usage)
}

/// Prints the rate of a heap, and the most operations of each command.
pub fn most(rt: &HostRuntime, words: &[String]) -> Result<(), Stop> {
    let config = config_of(words)?;
    let heap = open(rt.alloc(), config)?;
    tell_most(rt, &heap, &kinds(&config))
}

/// The heap of given sizes, or the one that is timed.
fn config_of(words: &[String]) -> Result<Config, Stop> {
    match words.len() {
        0 => Ok(HEAP),
        4 => Ok(Config {
            blocks: size_at(words, 0)?,
            live: size_at(words, 1)?,
            object: size_at(words, 2)?,
            shared: size_at(words, 3)?,
            ..HEAP
        }),
        _ => Err(Stop::Usage),
    }
}

fn tell_most(rt: &HostRuntime, heap: &ControlHeap, kinds: &[(&str, Command)]) -> Result<(), Stop> {
    print_number(rt, "rate", heap.rate())?;
    for (kind, command) in kinds {
        print_number(rt, kind, most_operations(heap, command)?)?;
    }
    Ok(())
}

/// Makes so many requests on a heap with live records.
pub fn make(rt: &HostRuntime, words: &[String]) -> Result<(), Stop> {
    let [kind, _] = words else {
        return Err(Stop::Usage);
    };
    let command = command_of(kind.as_str(), &kinds(&HEAP))?;
    make_kind(rt, command, number_at(words, 1)?)
}

fn make_kind(rt: &HostRuntime, command: Command, times: u64) -> Result<(), Stop> {
    let mut heap = open(rt.alloc(), HEAP)?;
    make_on(&mut heap, command, times)
}

fn make_on(heap: &mut ControlHeap, command: Command, times: u64) -> Result<(), Stop> {
    fill(heap)?;
    match requests(heap, command, times) {
        Some(()) => Ok(()),
        // What was refused is refused again.
        None => Ok(ask(heap, command)?),
    }
}

/// The loop that valgrind counts: it calls the library itself.
fn requests(heap: &mut ControlHeap, command: Command, times: u64) -> Option<()> {
    for _ in 0..times {
        heap.ask(command).ok()?;
    }
    Some(())
}
