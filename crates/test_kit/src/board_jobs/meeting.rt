//! Threads that meet: none gets on unless all others run beside it.

ghost use Rattle.std.specs.Prelude.{◌≡◌, ◌<◌, ◌≤◌, ℕ, IsTrue, [], length, slice_index_or, map, IfOk};
ghost use Rattle.heap_system.specs.Machines.{IsJob};
ghost use Rattle.test_kit.specs.board_jobs.Served.{HasSaid, shared_array};

use block_store::{Config, Name, OutOfMemory, Value, Width};
use heap_system::Pace;
use never_heap::{Command, Entry, Logs, Reply};
use std::alloc::Global;
use std::sync::Wait;
use std::sync::atomic::{AtomicU64, Ordering};

// How often a thread looks for the flags of the others before it gives up.
const LOOKS: u32 = 50_000_000;

/// The heap of two threads that meet.
pub const MEETING: Config = Config {
    width: Width::Four,
    threads: 2,
    blocks: 64,
    live: 20,
    object: 2,
    shared: 4,
};

/// A job in which two threads can meet: each shows register 0 twice.
///
/// # Errors
///
/// `OutOfMemory` where there is no room for it.
pub fn two_says(alloc: Global) -> Result<Vec<Vec<Command>>, OutOfMemory>
    ensures { IfOk result (λ v. IsJob MEETING (map (λ w. w.items) v.items)) }
{
    let first = vec![in alloc; Command::Say { s: 0 }, Command::Say { s: 0 }]?;
    let second = vec![in alloc; Command::Say { s: 0 }, Command::Say { s: 0 }]?;
    Ok(vec![in alloc; first, second]?)
}

/// Whether each thread has shown the shared array twice, and done nothing else.
pub fn have_said<L: Logs>(logs: &L) -> bool
    ensures { IsTrue result → (t : ℕ) → t < length (L.logs logs.now)
        → HasSaid (slice_index_or (L.logs logs.now) t []) }
{
    for thread in 0..logs.threads() {
        if !has_said(logs.entries(thread)) {
            return false;
        }
    }
    true
}

// Whether a thread of this log has shown the shared array twice, and done nothing else.
fn has_said(log: &[Entry]) -> bool
    ensures { IsTrue result → HasSaid log.now }
{
    match log {
        [first, second] => is_shown(first) && is_shown(second),
        _ => false,
    }
}

// Whether an entry shows the array that two threads share.
fn is_shown(entry: &Entry) -> bool
    ensures { IsTrue result → entry.now.reply ≡ shared_array }
{
    let shared = Name {
        thread: 2,
        serial: 0,
    };
    entry.reply == Reply::Val(Value::Ref(shared))
}

/// One thread of a meeting.
#[derive(Drop)]
struct Guest {
    // How often it was told of its commands 0 and 1.
    told: [AtomicU64; 2],
    // 1 once it has come.
    flag: AtomicU64,
}

impl Guest {
    fn new() -> Guest {
        Guest {
            told: [AtomicU64::new(0), AtomicU64::new(0)],
            flag: AtomicU64::new(0),
        }
    }

    // Whether it was told of both commands, once each.
    fn was_told(&self) -> bool {
        self.told[0].load(Ordering::SeqCst) == 1 && self.told[1].load(Ordering::SeqCst) == 1
    }

    fn has_come(&self) -> bool {
        self.flag.load(Ordering::SeqCst) == 1
    }
}

/// The pace of a meeting: at command 1 each of its threads raises its flag and looks for those of
/// all others, for a while.
#[derive(Drop)]
pub struct Meeting {
    guests: [Guest; 4],
    // How many of them are to come.
    threads: u32,
    // How often a thread was told of anything else.
    other: AtomicU64,
    // How many threads saw the flags of all.
    met: AtomicU64,
}

impl Meeting {
    /// A meeting of two threads, to which nobody has come yet.
    pub fn new() -> Meeting {
        Meeting::of(2)
    }

    /// One of so many threads, at most four.
    pub fn of(threads: u32) -> Meeting
        requires { threads ≤ 4 }
    {
        Meeting {
            guests: [Guest::new(), Guest::new(), Guest::new(), Guest::new()],
            threads,
            other: AtomicU64::new(0),
            met: AtomicU64::new(0),
        }
    }

    /// Whether each thread was told of its commands 0 and 1, once each, nothing else was told, and
    /// all have seen all others.
    pub fn took_place(&self) -> bool {
        for guest in self.invited() {
            if !guest.was_told() {
                return false;
            }
        }
        self.other.load(Ordering::SeqCst) == 0
            && self.met.load(Ordering::SeqCst) == u64::from(self.threads)
    }

    // Those that are to come.
    fn invited(&self) -> &[Guest] {
        match self.guests.get(..self.threads as usize) {
            Some(guests) => guests,
            None => &self.guests,
        }
    }

    fn are_all_here(&self) -> bool {
        for guest in self.invited() {
            if !guest.has_come() {
                return false;
            }
        }
        true
    }

    // Raises the flag of a thread, and looks for those of all others.
    fn meet(&self, guest: &Guest) {
        guest.flag.store(1, Ordering::SeqCst);
        for _ in 0..LOOKS {
            if self.are_all_here() {
                self.met.fetch_add(1, Ordering::SeqCst);
                return;
            }
        }
    }
}

impl Pace for Meeting {
    fn before<R: Wait>(&self, _rt: &R, thread: u32, command: u64) {
        let Some(guest) = self.invited().get(thread as usize) else {
            self.other.fetch_add(1, Ordering::SeqCst);
            return;
        };
        match command {
            0 => {
                guest.told[0].fetch_add(1, Ordering::SeqCst);
            }
            1 => {
                guest.told[1].fetch_add(1, Ordering::SeqCst);
                self.meet(guest);
            }
            _ => {
                self.other.fetch_add(1, Ordering::SeqCst);
            }
        }
    }
}
