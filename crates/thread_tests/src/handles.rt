//! Threads that share slots: each handle that fills a slot leaves it once.

ghost use Rattle.std.specs.Prelude.{IfOk};
ghost use Rattle.live_tables.specs.rows.Workers.{AreInOrder, IsOf, IsSameWorker};

use crate::slim::handles::Request::{Evict, Make, Note, Release, See, Take};
use crate::slim::handles::{
    Answer, Request, Seat, Shown, close, evict, fault_of, make, open, release, see, take,
};
use block_store::OutOfMemory;
use live_tables::handles::{HandleWorker, LiveHandles, OpenFault, Refused};
use std::alloc::Global;
use std::process::Abort;
use std::sync::Wait;
use std::sync::atomic::{AtomicU64, Ordering};
use std::thread;
use std::thread::Threads;

// How many rounds of five requests each thread does, and on how many slots.
const ROUNDS: u32 = 4_000;

const SLOTS: u32 = 5;

// The sums of the numbers that filled a slot and that left one, and how many handles had another's
// number.
#[derive(Drop)]
struct Sums {
    filled: AtomicU64,
    left: AtomicU64,
    torn: AtomicU64,
}

impl Sums {
    fn new() -> Sums {
        Sums {
            filled: AtomicU64::new(0),
            left: AtomicU64::new(0),
            torn: AtomicU64::new(0),
        }
    }

    // Counts a handle that was made, if it filled its slot.
    fn make(&self, id: u64, filled: Result<bool, Refused>) {
        if filled == Ok(true) {
            self.filled.fetch_add(id, Ordering::SeqCst);
        }
    }

    // Counts a handle that was released, if it was in its slot.
    fn release(&self, id: u64, was_there: Result<bool, Refused>) {
        if was_there == Ok(true) {
            self.left.fetch_add(id, Ordering::SeqCst);
        }
    }

    // Checks that the number of a handle is its id, as the test makes them.
    fn look(&self, shown: Result<Shown, Refused>) {
        if let Ok(Some((id, number))) = shown {
            if id != number {
                self.torn.fetch_add(1, Ordering::SeqCst);
            }
        }
    }

    // Counts a handle that was evicted.
    fn take_out(&self, shown: Result<Shown, Refused>) {
        if let Ok(Some((_, number))) = shown {
            self.left.fetch_add(number, Ordering::SeqCst);
        }
        self.look(shown);
    }

    // Whether no handle is torn, and each that filled a slot left it once.
    fn agree(&self) -> bool {
        let filled = self.filled.load(Ordering::SeqCst);
        self.torn.load(Ordering::SeqCst) == 0
            && filled > 0
            && filled == self.left.load(Ordering::SeqCst)
    }
}

// What a worker does in each round.
#[derive(Clone, Copy)]
enum Task {
    // Makes, sees, takes, releases and evicts.
    Use,
    // Evicts the slot of the round's number.
    Clear,
}

fn does<R: Wait>(
    rt: &R,
    table: &LiveHandles,
    who: &mut HandleWorker,
    sums: &Sums,
    task: Task,
    round: u32,
)
    requires { IsOf table.now who.old }
    ensures { IsSameWorker who.old who.new }
{
    match task {
        Task::Use => uses(rt, table, who, sums, round),
        Task::Clear => sums.take_out(evict(rt, table, who, round)),
    }
}

#[tactic(auto, using(live_tables::proofs::rows::Crews::same_first, live_tables::proofs::rows::Crews::same_then, live_tables::proofs::rows::Crews::of_same))]
fn uses<R: Wait>(rt: &R, table: &LiveHandles, who: &mut HandleWorker, sums: &Sums, round: u32)
    requires { IsOf table.now who.old }
    ensures { IsSameWorker who.old who.new }
{
    let handle = (round % 3) as u8;
    let id = u64::from(who.thread()) * (1 << 20) + u64::from(round) + 1;
    sums.make(id, make(rt, table, who, handle, round % SLOTS, id));
    sums.look(take(rt, table, who, round / 3 % SLOTS));
    let _live = see(rt, table, who, handle);
    if round % 2 == 0 {
        sums.release(id, release(rt, table, who, handle));
    }
    sums.take_out(evict(rt, table, who, round / 5 % SLOTS));
}

// Does a task in so many rounds.
#[tactic(auto, using(live_tables::proofs::rows::Crews::same_first, live_tables::proofs::rows::Crews::same_then, live_tables::proofs::rows::Crews::of_same))]
fn repeats<R: Wait>(
    rt: &R,
    table: &LiveHandles,
    who: &mut HandleWorker,
    sums: &Sums,
    task: Task,
    rounds: u32,
)
    requires { IsOf table.now who.old }
    ensures { IsSameWorker who.old who.new }
{
    for round in 0..rounds {
        does(rt, table, who, sums, task, round);
    }
}

// Lets each worker do a task in a thread of its own.
#[tactic(auto, using(live_tables::proofs::rows::Crews::of_same))]
fn all_do<R: Threads + Wait + Sync>(
    rt: &R,
    table: &LiveHandles,
    workers: Vec<HandleWorker>,
    sums: &Sums,
    task: Task,
    rounds: u32,
) -> Result<Vec<HandleWorker>, OutOfMemory>
    requires { AreInOrder table.now workers.items }
    ensures { IfOk result (λ v. AreInOrder table.now v.items) }
{
    let done = thread::map_vec(
        rt,
        workers,
        &|who: HandleWorker| -> HandleWorker
            requires { IsOf table.now who }
            ensures { IsSameWorker who result }
        {
            let mut who = who;
            repeats(rt, table, &mut who, sums, task, rounds);
            who
        },
    )?;
    Ok(done)
}

// Each handle that fills a slot leaves it once: it is released by its own thread, or evicted with
// its number.
#[test]
fn each_handle_leaves_once(rt: HostRuntime) -> Result<(), OutOfMemory> {
    for threads in [1, 2, 4] {
        let Ok((table, workers)) = open(rt.alloc(), SLOTS, threads) else {
            assert!(rt; false, "it opens");
            return Ok(());
        };
        let sums = Sums::new();
        let done = all_do(&rt, &table, workers, &sums, Task::Use, ROUNDS)?;
        let rest = all_do(&rt, &table, done, &sums, Task::Clear, SLOTS)?;
        assert!(rt; sums.agree(), "{threads} threads");
        assert!(rt; close(table, rest) > 1);
    }
    Ok(())
}

// Of which thread, what its worker is asked, and what it is answered.
type Row = (u32, Request, Answer);

// The example of `array_tables`, with a second handle and refusals.
const EXAMPLE: [Row; 16] = [
    (0, See { handle: 0 }, Answer::Refused(Refused::NotMade)),
    (0, Take { slot: 0 }, Answer::Found(None)),
    (
        0,
        Make {
            handle: 0,
            slot: 0,
            number: 7,
        },
        Answer::Matched(true),
    ),
    (0, Take { slot: 0 }, Answer::Found(Some((1, 7)))),
    (
        0,
        Make {
            handle: 1,
            slot: 0,
            number: 8,
        },
        Answer::Matched(false),
    ),
    (0, See { handle: 0 }, Answer::Matched(true)),
    (0, Release { handle: 1 }, Answer::Matched(false)),
    (0, Evict { slot: 0 }, Answer::Found(Some((1, 7)))),
    (0, See { handle: 0 }, Answer::Matched(false)),
    (0, Release { handle: 0 }, Answer::Matched(false)),
    (
        0,
        Make {
            handle: 1,
            slot: 0,
            number: 9,
        },
        Answer::Matched(true),
    ),
    (0, Take { slot: 0 }, Answer::Found(Some((3, 9)))),
    (0, Release { handle: 1 }, Answer::Matched(true)),
    (0, Take { slot: 0 }, Answer::Found(None)),
    (0, Take { slot: 1 }, Answer::Refused(Refused::OutOfRange)),
    (0, See { handle: 8 }, Answer::Refused(Refused::OutOfRange)),
];

// A worker learns its own note and then does another request.
const NOTES: [Row; 6] = [
    (
        0,
        Make {
            handle: 7,
            slot: 0,
            number: 5,
        },
        Answer::Matched(true),
    ),
    (0, Note, Answer::Noted),
    (0, See { handle: 7 }, Answer::Matched(true)),
    (
        1,
        Make {
            handle: 7,
            slot: 1,
            number: 5,
        },
        Answer::Matched(true),
    ),
    (1, Note, Answer::Noted),
    (1, See { handle: 7 }, Answer::Matched(true)),
];

// Asks a worker the rows of its thread.
fn asks<R: Wait + Abort>(rt: &R, seat: &mut Seat<'_>, rows: &[Row]) {
    for (thread, request, wanted) in rows {
        if *thread == seat.thread() {
            assert_eq!(rt; seat.ask(rt, *request), *wanted);
        }
    }
}

// Asks the workers of so many slots and threads, one after the other.
fn ask_all<R: Wait + Abort>(rt: &R, alloc: Global, slots: u32, threads: u32, rows: &[Row]) {
    let Ok((table, workers)) = open(alloc, slots, threads) else {
        panic!(rt; "they do not open");
    };
    for who in workers {
        asks(rt, &mut Seat::of(&table, who), rows);
    }
}

#[test]
fn one_thread_is_answered_as_the_example(rt: HostRuntime) {
    ask_all(&rt, rt.alloc(), 1, 1, &EXAMPLE);
}

#[test]
fn a_note_is_learned(rt: HostRuntime) {
    ask_all(&rt, rt.alloc(), 3, 2, &NOTES);
}

#[test]
fn slots_out_of_range_are_not_opened(rt: HostRuntime) {
    let refused = Some(OpenFault::OutOfRange);
    for (slots, threads, fault) in [
        (513, 1, refused),
        (1, 0, refused),
        (1, 17, refused),
        (0, 1, None),
        (512, 16, None),
    ] {
        assert_eq!(rt;
            fault_of(rt.alloc(), slots, threads),
            fault,
            "{slots} for {threads}"
        );
    }
}
