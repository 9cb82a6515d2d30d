//! Commands that are made a few events at a time, on one thread and on several.

ghost use Rattle.std.specs.Prelude.{◌≡◌};
ghost use Rattle.shared_heap.specs.Workers.{AreInOrder};

use crate::slim::heap::{Seat, Started, open, two_of};
use block_store::{Name, OutOfMemory, Value};
use never_heap::{Command, Reply};
use rand_core::utils::NextWord;
use rand_pcg::Lcg64Xsh32;
use shared_heap::{Refused, SharedHeap, Worker};
use std::process::Abort;
use std::sync::Wait;
use std::sync::atomic::{AtomicU64, Ordering};
use std::thread;
use std::thread::Threads;

// How many commands each thread draws.
const DRAWN: u32 = 20_000;

// How many objects each of two workers makes in turns.
const TURNS: u32 = 2_000;

// Polls a command to its end.
fn finished<'h, R: Wait>(rt: &R, started: Started<'h>, most: u64) -> (Seat<'h>, Reply) {
    let mut left = started;
    for _ in rt.forever() {
        match left.poll(most) {
            Ok(done) => return done,
            Err(more) => left = more,
        }
        thread::yield_now();
    }
    unreachable!()
}

// Executes one command by at most so many events at a time.
fn made<'h, R: Wait>(
    rt: &R,
    seat: Seat<'h>,
    command: Command,
    most: u64,
) -> (Seat<'h>, Result<Reply, Refused>) {
    match seat.start(command) {
        Ok(started) => {
            let (back, reply) = finished(rt, started, most);
            (back, Ok(reply))
        }
        Err((back, refused)) => (back, Err(refused)),
    }
}

// A command, which is in bounds, of any of the thirteen kinds.
fn drawn_command(draws: &mut Lcg64Xsh32) -> Command {
    let kind = draws.next_word() % 18;
    let d = (draws.next_word() % 15) as u8 + 1;
    let s = (draws.next_word() % 16) as u8;
    let v = (draws.next_word() % 16) as u8;
    let i = u64::from(draws.next_word() % 5);
    let length = draws.next_word() % 6;
    match kind {
        0..=3 => Command::New { d, fields: length },
        4 => Command::Arr {
            d,
            elements: length,
        },
        5 => Command::Set { d, value: i },
        6 => Command::Nil { d },
        7 => Command::Mov { d, s },
        8 | 9 => Command::Get { d, s, i },
        10 | 11 => Command::Put { s, i, v },
        12 => Command::Len { s },
        13 => Command::Same { a: d, b: s },
        14 => Command::Say { s },
        15 => Command::Swap { s, i, v },
        16 => Command::Cas { s, i, a: d, v },
        _ => Command::Idle {
            units: u64::from(length),
        },
    }
}

// Whether a command can have this reply.
fn fits(command: &Command, reply: &Reply) -> bool {
    match command {
        Command::New { .. } | Command::Arr { .. } => {
            matches!(reply, Reply::New(_) | Reply::Full(_))
        }
        Command::Idle { .. } => matches!(reply, Reply::Idle),
        _ => !matches!(reply, Reply::New(_) | Reply::Full(_) | Reply::Idle),
    }
}

// Executes drawn commands, a few events at a time, and counts the replies that fit.
fn draws<R: Wait>(rt: &R, seat: Seat<'_>) -> u64 {
    let mut draws = Lcg64Xsh32::new(u64::from(seat.thread()), 7);
    let mut seat = seat;
    let mut right: u64 = 0;
    for _number in 0..DRAWN {
        let command = drawn_command(&mut draws);
        let most = u64::from(draws.next_word() % 40) + 1;
        let (back, reply) = made(rt, seat, command, most);
        seat = back;
        if let Ok(reply) = reply {
            if fits(&command, &reply) {
                right = right.saturating_add(1);
            }
        }
    }
    right
}

// Lets each worker draw in a thread of its own.
fn all_draw<R: Threads + Wait + Sync>(
    rt: &R,
    heap: &SharedHeap,
    workers: Vec<Worker>,
    right: &AtomicU64,
) -> Result<(), OutOfMemory>
    requires { AreInOrder heap.now workers.items }
{
    let _done = thread::map_vec(
        rt,
        workers,
        &|who: Worker| -> u64
            requires { who.heap ≡ heap.now.id }
        { right.fetch_add(draws(rt, Seat::of(heap, who)), Ordering::SeqCst) },
    )?;
    Ok(())
}

// Threads that make their events a few at a time, beside each other: no command is refused, and
// each has a reply of its kind.
#[test]
fn threads_poll_drawn_commands_beside_each_other(rt: HostRuntime) -> Result<(), OutOfMemory> {
    for threads in [1, 2, 3, 4] {
        let Ok((heap, workers)) = open(rt.alloc(), threads) else {
            assert!(rt; false, "it opens");
            return Ok(());
        };
        let right = AtomicU64::new(0);
        all_draw(&rt, &heap, workers, &right)?;
        assert_eq!(rt;
            right.load(Ordering::SeqCst),
            u64::from(threads) * u64::from(DRAWN)
        );
    }
    Ok(())
}

// Two commands, an event of each in turns.
fn in_turns<'h, R: Wait>(
    rt: &R,
    first: Started<'h>,
    second: Started<'h>,
) -> ((Seat<'h>, Reply), (Seat<'h>, Reply)) {
    let mut one = first;
    let mut two = second;
    for _ in rt.forever() {
        match one.poll(1) {
            Ok(done) => return (done, finished(rt, two, 1)),
            Err(more) => one = more,
        }
        match two.poll(1) {
            Ok(done) => return (finished(rt, one, 1), done),
            Err(more) => two = more,
        }
    }
    unreachable!()
}

// Makes objects by two workers, an event of each in turns, and counts the expected names.
fn both_make<'h, R: Wait>(rt: &R, first: Seat<'h>, second: Seat<'h>) -> u32 {
    let make = Command::New { d: 1, fields: 2 };
    let mut one = first;
    let mut two = second;
    let mut right: u32 = 0;
    for number in 0..TURNS {
        let Ok(mine) = one.start(make) else {
            return right;
        };
        let Ok(theirs) = two.start(make) else {
            return right;
        };
        let ((a, made), (b, other)) = in_turns(rt, mine, theirs);
        let serial = u64::from(number) + 1;
        if made == Reply::New(Name { thread: 0, serial }) {
            right = right.saturating_add(1);
        }
        if other == Reply::New(Name { thread: 1, serial }) {
            right = right.saturating_add(1);
        }
        one = a;
        two = b;
    }
    right
}

#[test]
fn two_workers_make_an_event_each_in_turns(rt: HostRuntime) {
    let Ok((heap, workers)) = open(rt.alloc(), 2) else {
        assert!(rt; false, "it opens");
        return;
    };
    let (first, second) = two_of(&heap, workers);
    let right = both_make(&rt, Seat::of(&heap, first), Seat::of(&heap, second));
    assert_eq!(rt; right, 2 * TURNS);
}

// What a poll that is not to end leaves.
fn polled<'h>(rt: &impl Abort, started: Started<'h>, most: u64, why: &str) -> Started<'h> {
    match started.poll(most) {
        Ok(_) => panic!(rt; "{why}"),
        Err(left) => left,
    }
}

fn started<'h>(rt: &impl Abort, seat: Seat<'h>, command: Command) -> Started<'h> {
    match seat.start(command) {
        Ok(started) => started,
        Err(_) => panic!(rt; "a command in bounds is announced"),
    }
}

// A thread that is inside keeps another from the next phase: polls of that one end at once, however
// many events they allow, until the first is done.
fn waits<'h, R: Wait + Abort>(rt: &R, first: Seat<'h>, second: Seat<'h>) {
    let inside = started(rt, first, Command::New { d: 1, fields: 2 });
    let inside = polled(rt, inside, 2, "two events only enter");
    let held_up = started(rt, second, Command::Idle { units: 200 });
    let held_up = polled(rt, held_up, u64::MAX, "the phase can't change");
    let held_up = polled(rt, held_up, u64::MAX, "nor when it is asked again");
    let (_seat, made) = finished(rt, inside, 1);
    let name = Name {
        thread: 0,
        serial: 1,
    };
    assert_eq!(rt; made, Reply::New(name));
    let (_seat, idle) = finished(rt, held_up, 64);
    assert_eq!(rt; idle, Reply::Idle);
}

#[test]
fn a_poll_ends_where_its_thread_would_wait(rt: HostRuntime) {
    let Ok((heap, workers)) = open(rt.alloc(), 2) else {
        assert!(rt; false, "it opens");
        return;
    };
    let (first, second) = two_of(&heap, workers);
    waits(&rt, Seat::of(&heap, first), Seat::of(&heap, second));
}

// What can't be started is refused as `ask` does, and gives the worker back.
#[test]
fn a_refused_start_gives_the_worker_back(rt: HostRuntime) {
    let Ok((heap, workers)) = open(rt.alloc(), 2) else {
        assert!(rt; false, "it opens");
        return;
    };
    for who in workers {
        let Err((back, refused)) = Seat::of(&heap, who).start(Command::Say { s: 16 }) else {
            assert!(rt; false, "there are 16 registers");
            return;
        };
        assert_eq!(rt; refused, Refused::OutOfBounds);
        assert_eq!(rt; (back.asked(), back.units_left()), (0, 1 << 45));
        let (back, said) = made(&rt, back, Command::Set { d: 1, value: 7 }, 3);
        assert_eq!(rt; (back.asked(), said), (1, Ok(Reply::Stored)));
    }
}
