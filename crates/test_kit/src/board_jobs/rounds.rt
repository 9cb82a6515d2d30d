//! Rounds in which each thread makes objects, hands them to another thread by the shared array, and
//! lets them go, so that the blocks are given many times.

ghost use Rattle.std.specs.Prelude.{◌≡◌, ◌≤◌, ◌<◌, ℕ, IsTrue, false, [], length, slice_index_or, map, IfOk, IfSome};
ghost use Rattle.never_heap.specs.Histories.{is_full, is_refusal};
ghost use Rattle.never_heap.specs.RightWork.{requested_units};
ghost use Rattle.never_heap.specs.Steps.{length_made};
ghost use Rattle.heap_system.specs.Machines.{IsJob};
ghost use Rattle.test_kit.specs.board_jobs.Served.{IsServed, AreServed};

use crate::board_jobs::traces::{Told, job_of};
use block_store::{Config, Name, OutOfMemory, Value, Width};
use never_heap::{Command, Entry, Logs, Reply};
use std::alloc::Global;

// The commands of a round.
const COMMANDS: u32 = 14;

// The commands of a thread: 40 rounds.
const ROUNDS: u32 = 560;

/// The units that an allocation owes for each block.
pub const RATE: u64 = 8;

/// A heap of two threads, whose rate this is.
pub const TWO: Config = Config {
    width: Width::Four,
    threads: 2,
    blocks: 128,
    live: 48,
    object: 3,
    shared: 2,
};

// The command of a thread that has this number. In each round a list of two records is put in an
// array of three blocks, and the array in the shared array. Both stay until the array of the next
// round takes its place there.
fn command(thread: u32, number: u32) -> Command
    ensures { (length_made result ≤ 65535) × (requested_units result ≡ 0) }
{
    let own = u64::from(thread);
    match number % COMMANDS {
        0 => Command::Nil { d: 2 },
        1 | 4 => Command::New { d: 1, fields: 2 },
        2 | 5 => Command::Put { s: 1, i: 0, v: 2 },
        3 => Command::Mov { d: 2, s: 1 },
        6 => Command::Arr { d: 3, elements: 5 },
        7 => Command::Put { s: 3, i: 4, v: 1 },
        8 => Command::Put { s: 0, i: own, v: 3 },
        9 => Command::Get {
            d: 4,
            s: 0,
            i: own ^ 1,
        },
        10 => Command::Get { d: 4, s: 0, i: own },
        11 => Command::Get { d: 4, s: 4, i: 4 },
        _ => Command::Get { d: 4, s: 4, i: 0 },
    }
}

// What that command is answered, but for the one that loads what the other thread has stored.
fn answer(thread: u32, number: u32) -> Reply
    ensures { (is_full result ≡ false) × (is_refusal result ≡ false) }
{
    let first = number / COMMANDS * 3;
    let name = |serial: u32| Name {
        thread,
        serial: u64::from(serial),
    };
    match number % COMMANDS {
        1 => Reply::New(name(first + 1)),
        4 => Reply::New(name(first + 2)),
        6 => Reply::New(name(first + 3)),
        10 => Reply::Val(Value::Ref(name(first + 3))),
        11 => Reply::Val(Value::Ref(name(first + 2))),
        12 => Reply::Val(Value::Ref(name(first + 1))),
        13 => Reply::Val(Value::Nil),
        _ => Reply::Stored,
    }
}

struct Rounds {}

impl Told for Rounds {
    fn command(&self, thread: u32, number: u32) -> Command {
        command(thread, number)
    }
}

/// The rounds of each thread, where the configuration has a rate, and it and all commands are in
/// their ranges.
///
/// # Errors
///
/// `OutOfMemory` where there is no room for them.
pub fn job(alloc: Global, c: &Config) -> Result<Option<Vec<Vec<Command>>>, OutOfMemory>
    ensures { IfOk result (λ o. IfSome o (λ v. IsJob c.now (map (λ w. w.items) v.items))) }
{
    job_of(alloc, c, &Rounds {}, ROUNDS)
}

/// Whether each thread has done all its rounds, and each entry is what it must be, in any order of
/// the threads.
pub fn are_right<L: Logs>(logs: &L) -> bool
    ensures { IsTrue result → (t : ℕ) → t < length (L.logs logs.now)
        → AreServed (slice_index_or (L.logs logs.now) t []) }
{
    for thread in 0..logs.threads() {
        if !is_log_right(thread, logs.entries(thread)) {
            return false;
        }
    }
    true
}

// Whether a thread of this log has done all its rounds, and each entry is what it must be.
fn is_log_right(thread: u32, log: &[Entry]) -> bool
    ensures { IsTrue result → AreServed log.now }
{
    if log.len() != ROUNDS as usize {
        return false;
    }
    for number in 0..ROUNDS {
        if !is_right(thread, number, &log[number as usize]) {
            return false;
        }
    }
    true
}

// Whether an entry is what the command of this number must have.
fn is_right(thread: u32, number: u32, entry: &Entry) -> bool
    ensures { IsTrue result → IsServed entry.now }
{
    let command = command(thread, number);
    entry.command == command
        && entry.work == RATE * u64::from(command.blocks(Width::Four)) + command.requested_units()
        && is_answer(thread, number, entry.reply)
}

// Whether the command of this number may be answered so.
fn is_answer(thread: u32, number: u32, reply: Reply) -> bool
    ensures { IsTrue result → (is_full reply ≡ false) × (is_refusal reply ≡ false) }
{
    if number % COMMANDS == 9 {
        return is_of_other(thread, reply);
    }
    reply == answer(thread, number)
}

// Whether nil or an array of the other thread was loaded.
fn is_of_other(thread: u32, reply: Reply) -> bool
    ensures { IsTrue result → (is_full reply ≡ false) × (is_refusal reply ≡ false) }
{
    match reply {
        Reply::Val(Value::Ref(array)) => array.thread == thread ^ 1 && array.serial % 3 == 0,
        Reply::Val(Value::Nil) => true,
        _ => false,
    }
}
