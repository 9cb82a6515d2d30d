//! Threads that share rings: each recalls its own last numbers, and those of others in their order.

ghost use Rattle.std.specs.Prelude.{IfOk};
ghost use Rattle.live_tables.specs.rows.Workers.{AreInOrder, IsOf, IsSameWorker};

use crate::slim::rings::Request::{Count, Keep, Note, Recall};
use crate::slim::rings::{Answer, Request, Seat, close, fault_of, keep, open, recall};
use block_store::OutOfMemory;
use live_tables::rings::{LiveRings, OpenFault, Refused, RingWorker};
use std::alloc::Global;
use std::process::Abort;
use std::sync::Wait;
use std::sync::atomic::{AtomicU64, Ordering};
use std::thread;
use std::thread::Threads;

// How many rounds of five requests each thread does.
const ROUNDS: u32 = 4_000;

// How many own numbers were recalled right, and how many answers were wrong.
#[derive(Drop)]
struct Counts {
    threads: u32,
    right: AtomicU64,
    wrong: AtomicU64,
}

impl Counts {
    fn new(threads: u32) -> Counts {
        Counts {
            threads,
            right: AtomicU64::new(0),
            wrong: AtomicU64::new(0),
        }
    }

    // Checks what a thread recalled of its own ring.
    fn own(&self, number: Result<Option<u64>, Refused>, wanted: u64) {
        if number == Ok(Some(wanted)) {
            self.right.fetch_add(1, Ordering::SeqCst);
        } else {
            self.wrong.fetch_add(1, Ordering::SeqCst);
        }
    }

    // Checks two numbers that were recalled of a place of another's ring, one after the other:
    // they are of that thread and place, and the second is not older.
    fn others(&self, thread: u32, place: u32, first: Option<u64>, second: Option<u64>) {
        let fine = match (first, second) {
            (Some(first), Some(second)) => {
                is_at(first, thread, place) && is_at(second, thread, place) && first <= second
            }
            (Some(_), None) => false,
            (None, Some(second)) => is_at(second, thread, place),
            (None, None) => true,
        };
        if !fine {
            self.wrong.fetch_add(1, Ordering::SeqCst);
        }
    }

    // Whether each thread recalled all of its numbers right, and no answer was wrong.
    fn agree(&self) -> bool {
        self.wrong.load(Ordering::SeqCst) == 0
            && self.right.load(Ordering::SeqCst)
                == u64::from(self.threads) * u64::from(2 * ROUNDS - 7)
    }
}

// Whether the test keeps a number at a place of a thread's ring.
fn is_at(number: u64, thread: u32, place: u32) -> bool {
    number / 1_000_000 == u64::from(thread) && number % 1_000_000 % 8 == u64::from(place)
}

// Keeps a number, and recalls its own newest and oldest.
#[tactic(auto, using(live_tables::proofs::rows::Crews::same_first, live_tables::proofs::rows::Crews::same_then, live_tables::proofs::rows::Crews::of_same))]
fn uses_own<R: Wait>(rt: &R, rings: &LiveRings, who: &mut RingWorker, counts: &Counts, round: u32)
    requires { IsOf rings.now who.old }
    ensures own { IsOf rings.now who.new }
    ensures same { IsSameWorker who.old who.new }
{
    let thread = who.thread();
    let number = u64::from(thread) * 1_000_000 + u64::from(round);
    let _kept = keep(rt, rings, who, number);
    counts.own(recall(rt, rings, who, thread, round % 8), number);
    if round >= 7 {
        let oldest = number.saturating_sub(7);
        counts.own(recall(rt, rings, who, thread, (round - 7) % 8), oldest);
    }
}

// Recalls a place of another's ring twice.
#[tactic(auto, using(live_tables::proofs::rows::Crews::same_first, live_tables::proofs::rows::Crews::same_then, live_tables::proofs::rows::Crews::of_same))]
fn uses_others<R: Wait>(
    rt: &R,
    rings: &LiveRings,
    who: &mut RingWorker,
    counts: &Counts,
    round: u32,
)
    requires { IsOf rings.now who.old }
    ensures { IsSameWorker who.old who.new }
{
    let other = round.checked_rem(counts.threads).unwrap_or(0);
    let place = round / 3 % 8;
    let first = recall(rt, rings, who, other, place);
    let second = recall(rt, rings, who, other, place);
    if let (Ok(first), Ok(second)) = (first, second) {
        counts.others(other, place, first, second);
    }
}

#[tactic(auto, using(live_tables::proofs::rows::Crews::same_first, live_tables::proofs::rows::Crews::same_then, live_tables::proofs::rows::Crews::of_same))]
fn uses<R: Wait>(rt: &R, rings: &LiveRings, who: &mut RingWorker, counts: &Counts)
    requires { IsOf rings.now who.old }
    ensures { IsSameWorker who.old who.new }
{
    for round in 0..ROUNDS {
        uses_own(rt, rings, who, counts, round);
        uses_others(rt, rings, who, counts, round);
    }
}

// Lets each worker use the rings in a thread of its own.
#[tactic(auto, using(live_tables::proofs::rows::Crews::of_same))]
fn all_use<R: Threads + Wait + Sync>(
    rt: &R,
    rings: &LiveRings,
    workers: Vec<RingWorker>,
    counts: &Counts,
) -> Result<Vec<RingWorker>, OutOfMemory>
    requires { AreInOrder rings.now workers.items }
    ensures { IfOk result (λ v. AreInOrder rings.now v.items) }
{
    let done = thread::map_vec(
        rt,
        workers,
        &|who: RingWorker| -> RingWorker
            requires { IsOf rings.now who }
            ensures { IsSameWorker who result }
        {
            let mut who = who;
            uses(rt, rings, &mut who, counts);
            who
        },
    )?;
    Ok(done)
}

// Each thread recalls its own numbers, and others' numbers never get older.
#[test]
fn threads_recall_the_last_numbers(rt: HostRuntime) -> Result<(), OutOfMemory> {
    for threads in [1, 2, 4] {
        let Ok((rings, workers)) = open(rt.alloc(), threads) else {
            assert!(rt; false, "they open");
            return Ok(());
        };
        let counts = Counts::new(threads);
        let rest = all_use(&rt, &rings, workers, &counts)?;
        assert!(rt; counts.agree(), "{threads} threads");
        assert!(rt; close(rings, rest) > 1);
    }
    Ok(())
}

// Of which thread, what its worker is asked, and what it is answered.
type Row = (u32, Request, Answer);

const EIGHT: [Row; 17] = [
    (
        0,
        Recall {
            thread: 0,
            place: 0,
        },
        Answer::Found(None),
    ),
    (0, Keep { number: 50 }, Answer::Done),
    (0, Keep { number: 51 }, Answer::Done),
    (0, Keep { number: 52 }, Answer::Done),
    (0, Keep { number: 53 }, Answer::Done),
    (0, Keep { number: 54 }, Answer::Done),
    (0, Keep { number: 55 }, Answer::Done),
    (0, Keep { number: 56 }, Answer::Done),
    (0, Keep { number: 57 }, Answer::Done),
    (0, Keep { number: 58 }, Answer::Done),
    (0, Count, Answer::Kept(9)),
    (
        0,
        Recall {
            thread: 0,
            place: 0,
        },
        Answer::Found(Some(58)),
    ),
    (
        0,
        Recall {
            thread: 0,
            place: 1,
        },
        Answer::Found(Some(51)),
    ),
    (
        0,
        Recall {
            thread: 0,
            place: 8,
        },
        Answer::Refused(Refused::OutOfRange),
    ),
    (
        0,
        Recall {
            thread: 1,
            place: 0,
        },
        Answer::Refused(Refused::OutOfRange),
    ),
    (
        0,
        Keep { number: 1 << 62 },
        Answer::Refused(Refused::OutOfRange),
    ),
    (
        0,
        Recall {
            thread: 0,
            place: 1,
        },
        Answer::Found(Some(51)),
    ),
];

// A worker learns its own note and then does another request.
const NOTES: [Row; 6] = [
    (0, Keep { number: 7 }, Answer::Done),
    (0, Note, Answer::Done),
    (
        0,
        Recall {
            thread: 0,
            place: 0,
        },
        Answer::Found(Some(7)),
    ),
    (1, Keep { number: 7 }, Answer::Done),
    (1, Note, Answer::Done),
    (
        1,
        Recall {
            thread: 1,
            place: 0,
        },
        Answer::Found(Some(7)),
    ),
];

// Asks a worker the rows of its thread.
fn asks<R: Wait + Abort>(rt: &R, seat: &mut Seat<'_>, rows: &[Row]) {
    for (thread, request, wanted) in rows {
        if *thread == seat.thread() {
            assert_eq!(rt; seat.ask(rt, *request), *wanted);
        }
    }
}

// Asks the workers of rings for so many threads, one after the other.
fn ask_all<R: Wait + Abort>(rt: &R, alloc: Global, threads: u32, rows: &[Row]) {
    let Ok((rings, workers)) = open(alloc, threads) else {
        panic!(rt; "they do not open");
    };
    for who in workers {
        asks(rt, &mut Seat::of(&rings, who), rows);
    }
}

#[test]
fn one_thread_keeps_eight(rt: HostRuntime) {
    ask_all(&rt, rt.alloc(), 1, &EIGHT);
}

#[test]
fn a_note_is_learned(rt: HostRuntime) {
    ask_all(&rt, rt.alloc(), 2, &NOTES);
}

#[test]
fn rings_out_of_range_are_not_opened(rt: HostRuntime) {
    for (threads, fault) in [
        (0, Some(OpenFault::OutOfRange)),
        (17, Some(OpenFault::OutOfRange)),
        (16, None),
    ] {
        assert_eq!(rt; fault_of(rt.alloc(), threads), fault, "{threads} threads");
    }
}
