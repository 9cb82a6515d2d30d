//! Threads that draw their requests: what they were answered has one order on plain slots, which
//! keeps real time. Each thread takes a stamp of the test's own clock before and after each request.

ghost use Rattle.live_tables.specs.rows.Workers.{AreInOrder, IsOf};

use crate::slim::handles::{Answer, Request, Seat, Shown, open};
use block_store::OutOfMemory;
use live_tables::handles::{HandleWorker, LiveHandles};
use rand_core::utils::NextWord;
use rand_pcg::Lcg64Xsh32;
use std::alloc::Global;
use std::process::Abort;
use std::sync::atomic::{AtomicU64, Ordering};
use std::sync::{Mutex, Wait};
use std::thread;
use std::thread::Threads;

// How many requests each of three threads draws for two slots.
const REQUESTS: usize = 60;

// A request that a thread made, with the slot and the id that it was about, its answer, and the
// stamps before and after it.
#[derive(Clone, Copy)]
struct Did {
    request: Request,
    slot: u32,
    id: u64,
    answer: Answer,
    began: u64,
    ended: u64,
}

impl Did {
    // What plain slots answer. `None` if there is no such slot.
    fn on(&self, slots: &mut [Shown; 2]) -> Option<Answer> {
        let at = slots.get_mut(self.slot as usize)?;
        let was = *at;
        let holds = was.map(|(id, _)| id) == Some(self.id);
        match self.request {
            Request::Make { number, .. } => {
                if was.is_none() {
                    *at = Some((self.id, number));
                }
                Some(Answer::Matched(was.is_none()))
            }
            Request::See { .. } => Some(Answer::Matched(holds)),
            Request::Release { .. } => {
                if holds {
                    *at = None;
                }
                Some(Answer::Matched(holds))
            }
            Request::Take { .. } => Some(Answer::Found(was)),
            Request::Evict { .. } => {
                *at = None;
                Some(Answer::Found(was))
            }
            Request::Note => None,
        }
    }
}

// The first requests of each thread, in some order, and what plain slots hold after them.
#[derive(Clone, Copy, PartialEq, Eq)]
struct Point {
    done: [usize; 3],
    slots: [Shown; 2],
}

impl Point {
    // The next request of a thread.
    fn next_of(&self, logs: &[Vec<Did>], thread: usize) -> Option<Did> {
        let done = self.done.get(thread)?;
        logs.get(thread)?.get(*done).copied()
    }

    // Whether no thread's next request ended before this one began.
    fn may_come(&self, logs: &[Vec<Did>], did: &Did) -> bool {
        for thread in 0..3 {
            if let Some(other) = self.next_of(logs, thread) {
                if other.ended < did.began {
                    return false;
                }
            }
        }
        true
    }

    // With the next request of a thread, if it may come, and plain slots answer it as the thread was
    // answered.
    fn with_next(&self, logs: &[Vec<Did>], thread: usize) -> Option<Point> {
        let did = self.next_of(logs, thread)?;
        let mut next = *self;
        let done = next.done.get_mut(thread)?;
        *done = done.saturating_add(1);
        if self.may_come(logs, &did) && did.on(&mut next.slots)? == did.answer {
            Some(next)
        } else {
            None
        }
    }
}

// Whether there is an order of all requests that keeps each thread's own and real time, and in which
// plain slots answer each as it was answered. The points after n requests are all that some order
// leads to.
fn have_one_order(alloc: Global, logs: &[Vec<Did>]) -> Result<bool, OutOfMemory> {
    let mut points = Vec::new(alloc);
    points.push(Point {
        done: [0; 3],
        slots: [None; 2],
    })?;
    for log in logs {
        for _request in log {
            points = next_points(alloc, &points, logs)?;
        }
    }
    Ok(!points.is_empty())
}

// The points with one request more than these have.
fn next_points(
    alloc: Global,
    points: &[Point],
    logs: &[Vec<Did>],
) -> Result<Vec<Point>, OutOfMemory> {
    let mut next = Vec::new(alloc);
    for point in points {
        add_next(&mut next, point, logs)?;
    }
    Ok(next)
}

// Adds the points with one request more, each once.
fn add_next(next: &mut Vec<Point>, point: &Point, logs: &[Vec<Did>]) -> Result<(), OutOfMemory> {
    for thread in 0..3 {
        if let Some(point) = point.with_next(logs, thread) {
            if !next.contains(&point) {
                next.push(point)?;
            }
        }
    }
    Ok(())
}

// A worker's handles, as the test knows them: how many makes there were, and the id and the slot of
// the last one of each.
#[derive(Clone, Copy)]
struct Own {
    thread: u64,
    made: u64,
    last: [Option<(u64, u32)>; 3],
}

impl Own {
    // The id and the slot that a request is about. `None` if its handle was not made.
    fn about(&mut self, request: &Request) -> Option<(u64, u32)> {
        match *request {
            Request::Make { handle, slot, .. } => {
                self.made = self.made.saturating_add(1);
                let id = self
                    .thread
                    .saturating_mul(1 << 20)
                    .saturating_add(self.made);
                *self.last.get_mut(usize::from(handle))? = Some((id, slot));
                Some((id, slot))
            }
            Request::See { handle } | Request::Release { handle } => {
                *self.last.get(usize::from(handle))?
            }
            Request::Take { slot } | Request::Evict { slot } => Some((0, slot)),
            Request::Note => None,
        }
    }
}

fn drawn(draws: &mut Lcg64Xsh32) -> Request {
    let handle = (draws.next_word() % 3) as u8;
    let slot = draws.next_word() % 2;
    let number = u64::from(draws.next_word() % 1000);
    match draws.next_word() % 8 {
        0 | 1 | 2 => Request::Make {
            handle,
            slot,
            number,
        },
        3 => Request::See { handle },
        4 | 5 => Request::Release { handle },
        6 => Request::Take { slot },
        _ => Request::Evict { slot },
    }
}

// Makes a drawn request of a worker, which has handles 0 to 2. `None` if its handle was not made, or
// it is refused.
fn does<R: Wait>(
    rt: &R,
    seat: &mut Seat<'_>,
    own: &mut Own,
    draws: &mut Lcg64Xsh32,
    clock: &AtomicU64,
) -> Option<Did> {
    let request = drawn(draws);
    let about = own.about(&request);
    let began = clock.fetch_add(1, Ordering::SeqCst);
    let answer = seat.ask(rt, request);
    let ended = clock.fetch_add(1, Ordering::SeqCst);
    let (id, slot) = about?;
    if let Answer::Refused(_) = answer {
        return None;
    }
    Some(Did {
        request,
        slot,
        id,
        answer,
        began,
        ended,
    })
}

// Makes drawn requests. Returns what they were answered.
fn log_of<R: Wait>(
    rt: &R,
    alloc: Global,
    seat: Seat<'_>,
    key: u64,
    clock: &AtomicU64,
) -> Result<Vec<Did>, OutOfMemory> {
    let thread = u64::from(seat.thread());
    let mut draws = Lcg64Xsh32::new(key, thread);
    let mut own = Own {
        thread,
        made: 0,
        last: [None; 3],
    };
    let mut seat = seat;
    let mut log = Vec::new(alloc);
    for _request in 0..REQUESTS {
        if let Some(did) = does(rt, &mut seat, &mut own, &mut draws, clock) {
            log.push(did)?;
        }
    }
    Ok(log)
}

// Lets each worker draw its requests in a thread of its own, and keeps what they were answered.
fn all_draw<R: Threads + Wait + Sync>(
    rt: &R,
    alloc: Global,
    table: &LiveHandles,
    workers: Vec<HandleWorker>,
    key: u64,
    logs: &Mutex<Vec<Vec<Did>>>,
) -> Result<(), OutOfMemory>
    requires { AreInOrder table.now workers.items }
{
    let clock = AtomicU64::new(0);
    let _done = thread::map_vec(
        rt,
        workers,
        &|who: HandleWorker| -> bool
            requires { IsOf table.now who }
        { kept(rt, alloc, Seat::of(table, who), key, &clock, logs) },
    )?;
    Ok(())
}

// Draws, and keeps the log where there is memory.
fn kept<R: Wait>(
    rt: &R,
    alloc: Global,
    seat: Seat<'_>,
    key: u64,
    clock: &AtomicU64,
    logs: &Mutex<Vec<Vec<Did>>>,
) -> bool {
    match log_of(rt, alloc, seat, key, clock) {
        Ok(log) => logs.lock(rt).push(log).is_ok(),
        Err(_) => false,
    }
}

// Checks what the threads of one table were answered.
fn check(rt: &impl Abort, alloc: Global, logs: &[Vec<Did>], key: u64) -> Result<(), OutOfMemory> {
    assert_eq!(rt; logs.len(), 3);
    for log in logs {
        assert!(rt; log.len() > REQUESTS / 2, "draws {key}");
    }
    assert!(rt; have_one_order(alloc, logs)?, "draws {key}");
    Ok(())
}

#[test]
fn drawn_requests_have_one_order_that_keeps_real_time(rt: HostRuntime) -> Result<(), OutOfMemory> {
    let alloc = rt.alloc();
    for key in 0..40 {
        let Ok((table, workers)) = open(alloc, 2, 3) else {
            assert!(rt; false, "it opens");
            return Ok(());
        };
        let logs = Mutex::new(Vec::new(alloc));
        all_draw(&rt, alloc, &table, workers, key, &logs)?;
        check(&rt, alloc, &logs.into_inner(), key)?;
    }
    Ok(())
}

// A thread that made a handle from stamp 0 to 1, and one that took its slot from stamp `began` on.
fn two_logs(alloc: Global, began: u64, shown: Shown) -> Result<Vec<Vec<Did>>, OutOfMemory> {
    let make = Did {
        request: Request::Make {
            handle: 0,
            slot: 1,
            number: 7,
        },
        slot: 1,
        id: 1,
        answer: Answer::Matched(true),
        began: 0,
        ended: 1,
    };
    let take = Did {
        request: Request::Take { slot: 1 },
        slot: 1,
        id: 0,
        answer: Answer::Found(shown),
        began,
        ended: 9,
    };
    let mut logs = Vec::new(alloc);
    logs.push(vec![in alloc; make; 1]?)?;
    logs.push(vec![in alloc; take; 1]?)?;
    Ok(logs)
}

// The test's own search finds an order of two threads, none for another answer, and none where the
// only order goes against real time.
#[test]
fn answers_without_an_order_are_found(rt: HostRuntime) -> Result<(), OutOfMemory> {
    let alloc = rt.alloc();
    for (began, shown, wanted) in [
        (1, Some((1, 7)), true),
        (1, None, true),
        (1, Some((1, 8)), false),
        (2, Some((1, 7)), true),
        (2, None, false),
    ] {
        let logs = two_logs(alloc, began, shown)?;
        assert_eq!(rt;
            have_one_order(alloc, &logs)?,
            wanted,
            "{shown:?} from {began} on"
        );
    }
    Ok(())
}
