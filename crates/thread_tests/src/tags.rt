//! Threads that share one table: no pair is torn, and none is lost or returned twice.

ghost use Rattle.std.specs.Prelude.{IfOk};
ghost use Rattle.live_tables.specs.rows.Workers.{AreInOrder, IsOf, IsSameWorker};

use crate::slim::tags::Request::{Clear, Note, Read, Stamp, Write};
use crate::slim::tags::{Answer, Request, Seat, Tag, clear, close, fault_of, open, read, write};
use block_store::OutOfMemory;
use live_tables::tags::{LiveTags, OpenFault, Refused, TagWorker};
use std::alloc::Global;
use std::process::Abort;
use std::sync::Wait;
use std::sync::atomic::{AtomicU64, Ordering};
use std::thread;
use std::thread::Threads;

// How many rounds each thread does, and on how many places.
const ROUNDS: u32 = 4_000;

const TAGS: u32 = 7;

// The sums of the values written and of those replaced or cleared, and how many pairs were torn.
#[derive(Drop)]
struct Sums {
    written: AtomicU64,
    taken: AtomicU64,
    torn: AtomicU64,
}

impl Sums {
    fn new() -> Sums {
        Sums {
            written: AtomicU64::new(0),
            taken: AtomicU64::new(0),
            torn: AtomicU64::new(0),
        }
    }

    // Counts a write with what it replaced.
    fn write(&self, value: u64, replaced: Result<Tag, Refused>) {
        if replaced.is_ok() {
            self.written.fetch_add(value, Ordering::SeqCst);
        }
        self.take(replaced);
    }

    // Counts a pair that was replaced or cleared.
    fn take(&self, tag: Result<Tag, Refused>) {
        if let Ok(Some((value, _))) = tag {
            self.taken.fetch_add(value, Ordering::SeqCst);
        }
        self.look(tag);
    }

    // Checks that a pair was written as one.
    fn look(&self, tag: Result<Tag, Refused>) {
        if let Ok(Some((value, quality))) = tag {
            if quality != value % 1000 + 5 {
                self.torn.fetch_add(1, Ordering::SeqCst);
            }
        }
    }

    // Whether no pair is torn, and each that was written was taken once.
    fn agree(&self) -> bool {
        let written = self.written.load(Ordering::SeqCst);
        self.torn.load(Ordering::SeqCst) == 0
            && written > 0
            && written == self.taken.load(Ordering::SeqCst)
    }
}

// What a worker does in each round.
#[derive(Clone, Copy)]
enum Task {
    // Writes a pair, clears a place and reads a place.
    Use,
    // Clears the place of the round's number.
    Clear,
}

fn does<R: Wait>(rt: &R, table: &LiveTags, who: &mut TagWorker, sums: &Sums, task: Task, round: u32)
    requires { IsOf table.now who.old }
    ensures { IsSameWorker who.old who.new }
{
    match task {
        Task::Use => uses(rt, table, who, sums, round),
        Task::Clear => sums.take(clear(rt, table, who, round)),
    }
}

#[tactic(auto, using(live_tables::proofs::rows::Crews::same_first, live_tables::proofs::rows::Crews::same_then, live_tables::proofs::rows::Crews::of_same))]
fn uses<R: Wait>(rt: &R, table: &LiveTags, who: &mut TagWorker, sums: &Sums, round: u32)
    requires { IsOf table.now who.old }
    ensures { IsSameWorker who.old who.new }
{
    let value = u64::from(who.thread()) * 1_000_000 + u64::from(round);
    let tag = (value, value % 1000 + 5);
    sums.write(value, write(rt, table, who, round % TAGS, tag));
    sums.take(clear(rt, table, who, round / 3 % TAGS));
    sums.look(read(rt, table, who, round / 5 % TAGS));
}

// Does a task in so many rounds.
#[tactic(auto, using(live_tables::proofs::rows::Crews::same_first, live_tables::proofs::rows::Crews::same_then, live_tables::proofs::rows::Crews::of_same))]
fn repeats<R: Wait>(
    rt: &R,
    table: &LiveTags,
    who: &mut TagWorker,
    sums: &Sums,
    task: Task,
    rounds: u32,
)
    requires { IsOf table.now who.old }
    ensures { IsSameWorker who.old who.new }
{
    for round in 0..rounds {
        does(rt, table, who, sums, task, round);
    }
}

// Lets each worker do a task in a thread of its own.
#[tactic(auto, using(live_tables::proofs::rows::Crews::of_same))]
fn all_do<R: Threads + Wait + Sync>(
    rt: &R,
    table: &LiveTags,
    workers: Vec<TagWorker>,
    sums: &Sums,
    task: Task,
    rounds: u32,
) -> Result<Vec<TagWorker>, OutOfMemory>
    requires { AreInOrder table.now workers.items }
    ensures { IfOk result (λ v. AreInOrder table.now v.items) }
{
    let done = thread::map_vec(
        rt,
        workers,
        &|who: TagWorker| -> TagWorker
            requires { IsOf table.now who }
            ensures { IsSameWorker who result }
        {
            let mut who = who;
            repeats(rt, table, &mut who, sums, task, rounds);
            who
        },
    )?;
    Ok(done)
}

// No thread reads the value of one write with the quality of another. Each pair is returned once,
// by the next write or clear of its place.
#[test]
fn threads_keep_pairs_together(rt: HostRuntime) -> Result<(), OutOfMemory> {
    for threads in [1, 2, 4] {
        let Ok((table, workers)) = open(rt.alloc(), TAGS, threads) else {
            assert!(rt; false, "it opens");
            return Ok(());
        };
        let sums = Sums::new();
        let done = all_do(&rt, &table, workers, &sums, Task::Use, ROUNDS)?;
        let rest = all_do(&rt, &table, done, &sums, Task::Clear, TAGS)?;
        assert!(rt; sums.agree(), "{threads} threads");
        assert!(rt; close(table, rest) > 1);
    }
    Ok(())
}

// Of which thread, what its worker is asked, and what it is answered.
type Row = (u32, Request, Answer);

const ALONE: [Row; 9] = [
    (0, Read { place: 0 }, Answer::Was(None)),
    (
        0,
        Write {
            place: 0,
            tag: (5, 1),
        },
        Answer::Was(None),
    ),
    (
        0,
        Write {
            place: 0,
            tag: (6, 2),
        },
        Answer::Was(Some((5, 1))),
    ),
    (0, Read { place: 1 }, Answer::Was(None)),
    (0, Read { place: 0 }, Answer::Was(Some((6, 2)))),
    (0, Read { place: 2 }, Answer::Refused(Refused::OutOfRange)),
    (
        0,
        Write {
            place: 0,
            tag: (1 << 62, 0),
        },
        Answer::Refused(Refused::OutOfRange),
    ),
    (0, Clear { place: 0 }, Answer::Was(Some((6, 2)))),
    (0, Read { place: 0 }, Answer::Was(None)),
];

// A worker learns its own note, draws a stamp, and then does another operation.
const NOTES: [Row; 8] = [
    (
        0,
        Write {
            place: 0,
            tag: (7, 3),
        },
        Answer::Was(None),
    ),
    (0, Note, Answer::Noted),
    (0, Stamp, Answer::Drawn(0)),
    (0, Read { place: 0 }, Answer::Was(Some((7, 3)))),
    (
        1,
        Write {
            place: 1,
            tag: (7, 3),
        },
        Answer::Was(None),
    ),
    (1, Note, Answer::Noted),
    (1, Stamp, Answer::Drawn(1)),
    (1, Read { place: 1 }, Answer::Was(Some((7, 3)))),
];

// Asks a worker the rows of its thread.
fn asks<R: Wait + Abort>(rt: &R, seat: &mut Seat<'_>, rows: &[Row]) {
    for (thread, request, wanted) in rows {
        if *thread == seat.thread() {
            assert_eq!(rt; seat.ask(rt, *request), *wanted);
        }
    }
}

// Asks the workers of a table for so many threads, one after the other.
fn ask_all<R: Wait + Abort>(rt: &R, alloc: Global, tags: u32, threads: u32, rows: &[Row]) {
    let Ok((table, workers)) = open(alloc, tags, threads) else {
        panic!(rt; "it does not open");
    };
    for who in workers {
        asks(rt, &mut Seat::of(&table, who), rows);
    }
}

#[test]
fn one_thread_is_answered_what_was_there(rt: HostRuntime) {
    ask_all(&rt, rt.alloc(), 2, 1, &ALONE);
}

#[test]
fn a_note_is_learned_and_a_stamp_drawn(rt: HostRuntime) {
    ask_all(&rt, rt.alloc(), 3, 2, &NOTES);
}

#[test]
fn tables_out_of_range_are_not_opened(rt: HostRuntime) {
    let refused = Some(OpenFault::OutOfRange);
    for (tags, threads, fault) in [
        (1025, 1, refused),
        (1, 0, refused),
        (1, 17, refused),
        (0, 1, None),
        (1024, 16, None),
    ] {
        assert_eq!(rt;
            fault_of(rt.alloc(), tags, threads),
            fault,
            "{tags} for {threads}"
        );
    }
}
