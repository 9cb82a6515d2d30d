//! Two threads that exchange and compare one shared element: they count together by `cas`, or hand
//! numbers on by `swap`.

ghost use Rattle.std.specs.Prelude.{map, IfOk, IfSome};
ghost use Rattle.heap_system.specs.Machines.{IsJob};

use crate::board_jobs::traces::{Told, job_of};
use block_store::{Config, OutOfMemory, Width};
use never_heap::Command;
use std::alloc::Global;

/// How often each thread tries to count one on, or hands a number on.
pub const TRIES: u32 = 10_000;

/// The heap of two threads that share one element. Its blocks have eight payload words: `cas` and
/// `swap` are commands of version 2.
pub const SHARING: Config = Config {
    width: Width::Eight,
    threads: 2,
    blocks: 64,
    live: 20,
    object: 2,
    shared: 1,
};

// Each thread tries to make of each number the next one: of nil 1, of 1 2, and so on. The number
// before and the next one are in registers 1 and 2 in turn, and register 3 is nil. At last it
// loads what the element has become.
struct Counts {}

impl Told for Counts {
    fn command(&self, thread: u32, number: u32) -> Command {
        let _thread = thread;
        let turn = number / 2;
        let next = 1 + (turn % 2) as u8;
        if turn >= TRIES {
            Command::Get { d: 4, s: 0, i: 0 }
        } else if number % 2 == 0 {
            Command::Set {
                d: next,
                value: u64::from(turn) + 1,
            }
        } else {
            let before = if turn == 0 { 3 } else { 3 - next };
            Command::Cas {
                s: 0,
                i: 0,
                a: before,
                v: next,
            }
        }
    }
}

// Each thread puts numbers of its own into the element, thread 0 the even ones, and takes what was
// there. At last it loads what the element has become.
struct Swaps {}

impl Told for Swaps {
    fn command(&self, thread: u32, number: u32) -> Command {
        let turn = number / 2;
        if turn >= TRIES {
            Command::Get { d: 2, s: 0, i: 0 }
        } else if number % 2 == 0 {
            Command::Set {
                d: 1,
                value: 2 * u64::from(turn) + u64::from(thread % 2),
            }
        } else {
            Command::Swap { s: 0, i: 0, v: 1 }
        }
    }
}

/// Two threads that count: entries 1, 3 and so on of each log are the tries to count one on, and
/// the last entry shows the number that the element has become.
///
/// # Errors
///
/// `OutOfMemory` where there is no room for them.
pub fn counting(alloc: Global) -> Result<Option<Vec<Vec<Command>>>, OutOfMemory>
    ensures { IfOk result (λ o. IfSome o (λ v. IsJob SHARING (map (λ w. w.items) v.items))) }
{
    job_of(alloc, &SHARING, &Counts {}, 2 * TRIES + 1)
}

/// Two threads that hand on the numbers below `2 * TRIES`: entries 1, 3 and so on of each log are
/// the exchanges, and the last entry shows the number that is left.
///
/// # Errors
///
/// `OutOfMemory` where there is no room for them.
pub fn swapping(alloc: Global) -> Result<Option<Vec<Vec<Command>>>, OutOfMemory>
    ensures { IfOk result (λ o. IfSome o (λ v. IsJob SHARING (map (λ w. w.items) v.items))) }
{
    job_of(alloc, &SHARING, &Swaps {}, 2 * TRIES + 1)
}
