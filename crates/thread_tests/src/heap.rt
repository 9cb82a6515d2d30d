//! Threads that share one heap: names of new objects, counting by `cas`, refusals, notes and stamps.
//! Some heaps are closed with their workers out of order, or with some of them.

ghost use Rattle.std.specs.Prelude.{◌≡◌, IfOk};
ghost use Rattle.shared_heap.specs.Workers.{AreEachOnce, AreInOrder, IsSame};

use crate::slim::heap::{
    Seat, Told, ask, asked, close, close_swapped, close_with_one, fault_of, heap_of, objects_left,
    open, pass_note, stamps, two_of,
};
use block_store::{Config, Name, OutOfMemory, Value};
use never_heap::{Command, Reply};
use shared_heap::{Fault, OpenFault, Refused, SharedHeap, Worker};
use std::process::Abort;
use std::sync::Wait;
use std::sync::atomic::{AtomicU64, Ordering};
use std::thread;
use std::thread::Threads;

// How many objects each thread makes, and how often it tries to count.
const OBJECTS: u32 = 20_000;

const TRIES: u32 = 20_000;

// What a worker does in a thread of its own.
#[derive(Clone, Copy)]
enum Task {
    // Makes records one after the other.
    Make,
    // Increments the shared element by `cas`.
    Count,
    // Reads the shared element, which is this number.
    Read(u64),
}

// Does a task once. Returns whether the reply is the expected one.
#[tactic(auto, using(shared_heap::proofs::AllWorkers::same_here, shared_heap::proofs::AllWorkers::same_on))]
fn does<R: Wait>(rt: &R, heap: &SharedHeap, who: &mut Worker, task: Task, number: u32) -> bool
    requires { who.old.heap ≡ heap.now.id }
    ensures { IsSame who.old who.new }
{
    match task {
        Task::Make => makes(rt, heap, who, number),
        Task::Count => counts(rt, heap, who),
        Task::Read(number) => reads(rt, heap, who, number),
    }
}

// Makes a record. Returns whether it has the name of its thread and number.
fn makes<R: Wait>(rt: &R, heap: &SharedHeap, who: &mut Worker, number: u32) -> bool
    requires { who.old.heap ≡ heap.now.id }
    ensures { IsSame who.old who.new }
{
    let due = Name {
        thread: who.thread(),
        serial: u64::from(number) + 1,
    };
    ask(rt, heap, who, Command::New { d: 1, fields: 2 }) == Ok(Reply::New(due))
}

// Tries to increment the shared element by `cas`. Returns whether it succeeded.
#[tactic(auto, using(shared_heap::proofs::AllWorkers::same_here, shared_heap::proofs::AllWorkers::same_on))]
fn counts<R: Wait>(rt: &R, heap: &SharedHeap, who: &mut Worker) -> bool
    requires { who.old.heap ≡ heap.now.id }
    ensures { IsSame who.old who.new }
{
    let number = match ask(rt, heap, who, Command::Get { d: 1, s: 0, i: 0 }) {
        Ok(Reply::Val(Value::Int(number))) => number,
        _ => 0,
    };
    let next = Command::Set {
        d: 2,
        value: number.saturating_add(1) % (1 << 20),
    };
    let _set = ask(rt, heap, who, next);
    let swap = Command::Cas {
        s: 0,
        i: 0,
        a: 1,
        v: 2,
    };
    ask(rt, heap, who, swap) == Ok(Reply::Yes)
}

// Reads the shared element. Returns whether it is this number.
fn reads<R: Wait>(rt: &R, heap: &SharedHeap, who: &mut Worker, number: u64) -> bool
    requires { who.old.heap ≡ heap.now.id }
    ensures { IsSame who.old who.new }
{
    let get = Command::Get { d: 1, s: 0, i: 0 };
    ask(rt, heap, who, get) == Ok(Reply::Val(Value::Int(number)))
}

// Does a task so many times. Returns how many replies are the expected ones.
#[tactic(auto, using(shared_heap::proofs::AllWorkers::same_here, shared_heap::proofs::AllWorkers::same_on))]
fn repeats<R: Wait>(rt: &R, heap: &SharedHeap, who: &mut Worker, task: Task, times: u32) -> u64
    requires { who.old.heap ≡ heap.now.id }
    ensures { IsSame who.old who.new }
{
    let mut right: u64 = 0;
    for number in 0..times {
        if does(rt, heap, who, task, number) {
            right = right.saturating_add(1);
        }
    }
    right
}

// Lets each worker do a task so many times in a thread of its own, and adds up the expected replies.
fn all_do<R: Threads + Wait + Sync>(
    rt: &R,
    heap: &SharedHeap,
    workers: Vec<Worker>,
    task: Task,
    times: u32,
    right: &AtomicU64,
) -> Result<Vec<Worker>, OutOfMemory>
    requires { AreInOrder heap.now workers.items }
    ensures { IfOk result (λ v. AreInOrder heap.now v.items) }
{
    let done = thread::map_vec(
        rt,
        workers,
        &|who: Worker| -> Worker
            requires { who.heap ≡ heap.now.id }
            ensures { IsSame who result }
        {
            let mut who = who;
            let count = repeats(rt, heap, &mut who, task, times);
            right.fetch_add(count, Ordering::SeqCst);
            who
        },
    )?;
    Ok(done)
}

// Whether each worker has made its objects.
fn have_made(workers: &[Worker]) -> bool {
    for who in workers {
        if asked(who) != u64::from(OBJECTS) {
            return false;
        }
        if objects_left(who) != (1 << 43) - 1 - u64::from(OBJECTS) {
            return false;
        }
    }
    true
}

// Each record has the name of its thread and number, whatever the other threads do, and no
// allocation is refused.
#[test]
fn threads_make_objects_beside_each_other(rt: HostRuntime) -> Result<(), OutOfMemory> {
    for threads in [1, 2, 3, 4] {
        let Ok((heap, workers)) = open(rt.alloc(), threads) else {
            assert!(rt; false, "it opens");
            return Ok(());
        };
        let right = AtomicU64::new(0);
        let done = all_do(&rt, &heap, workers, Task::Make, OBJECTS, &right)?;
        assert_eq!(rt;
            right.load(Ordering::SeqCst),
            u64::from(threads) * u64::from(OBJECTS)
        );
        assert!(rt; have_made(&done));
        assert!(rt; close(heap, done) > 12);
    }
    Ok(())
}

// The same workers, with the first and the last exchanged.
fn ends_exchanged(heap: &SharedHeap, workers: Vec<Worker>) -> Vec<Worker>
    requires { AreEachOnce heap.now workers.items }
    ensures { AreEachOnce heap.now result.items }
{
    let mut who = workers;
    let count = who.len();
    if count > 1 {
        who.swap(0, count - 1);
    }
    who
}

// The shared element ends at the number of successful tries. The workers are closed out of order.
#[test]
fn threads_count_by_cas(rt: HostRuntime) -> Result<(), OutOfMemory> {
    for threads in [2, 3, 4] {
        let Ok((heap, workers)) = open(rt.alloc(), threads) else {
            assert!(rt; false, "it opens");
            return Ok(());
        };
        let yes = AtomicU64::new(0);
        let counted = all_do(&rt, &heap, workers, Task::Count, TRIES, &yes)?;
        let right = AtomicU64::new(0);
        let read = Task::Read(yes.load(Ordering::SeqCst));
        let done = all_do(&rt, &heap, counted, read, 1, &right)?;
        assert_eq!(rt; right.load(Ordering::SeqCst), u64::from(threads));
        let workers = ends_exchanged(&heap, done);
        // No object was made, so no work was done and no second cycle began.
        assert_eq!(rt; close(heap, workers), 1);
    }
    Ok(())
}

// What a worker asks, what it is answered, how many commands it has done then, and how many units it
// has left.
type Row = (Command, Result<Reply, Refused>, u64, u64);

const REFUSED: [Row; 2] = [
    (
        Command::Say { s: 16 },
        Err(Refused::OutOfBounds),
        0,
        1 << 45,
    ),
    (
        Command::Idle { units: 10 },
        Ok(Reply::Idle),
        1,
        (1 << 45) - 10,
    ),
];

fn asks<R: Wait + Abort>(rt: &R, seat: &mut Seat<'_>, rows: &[Row]) {
    for (command, answer, asked, left) in rows {
        assert_eq!(rt; seat.ask(rt, *command), *answer);
        assert!(rt; seat.asked() == *asked && seat.units_left() == *left);
    }
}

#[test]
fn what_cannot_be_asked_changes_nothing(rt: HostRuntime) {
    let Ok((heap, workers)) = open(rt.alloc(), 1) else {
        panic!(rt; "it does not open");
    };
    for who in workers {
        asks(&rt, &mut Seat::of(&heap, who), &REFUSED);
    }
}

#[test]
fn each_refusal_of_a_configuration_has_its_cause(rt: HostRuntime) {
    let c = heap_of(2);
    for (config, fault) in [
        (Config { threads: 17, ..c }, OpenFault::OutOfBounds),
        (Config { live: 5, ..c }, OpenFault::LiveTooSmall),
        (Config { live: 399, ..c }, OpenFault::NoRate),
    ] {
        assert_eq!(rt; fault_of(rt.alloc(), config), Some(fault));
    }
}

// Writes the shared element.
#[tactic(auto, using(shared_heap::proofs::AllWorkers::same_here, shared_heap::proofs::AllWorkers::same_on))]
fn writes<R: Wait>(rt: &R, heap: &SharedHeap, who: &mut Worker, value: u64)
    requires { who.old.heap ≡ heap.now.id }
    ensures { IsSame who.old who.new }
{
    let _set = ask(rt, heap, who, Command::Set { d: 1, value });
    let _put = ask(rt, heap, who, Command::Put { s: 0, i: 0, v: 1 });
}

// One worker writes the shared element and makes a note. The other learns the note and reads.
#[tactic(auto, using(shared_heap::proofs::AllWorkers::same_here, shared_heap::proofs::AllWorkers::same_on))]
fn passes_on<R: Wait>(rt: &R, heap: &SharedHeap, writer: &mut Worker, reader: &mut Worker) -> bool
    requires writer { writer.old.heap ≡ heap.now.id }
    requires reader { reader.old.heap ≡ heap.now.id }
    ensures writer { IsSame writer.old writer.new }
    ensures reader { IsSame reader.old reader.new }
{
    writes(rt, heap, writer, 41);
    pass_note(heap, writer, reader);
    reads(rt, heap, reader, 41)
}

// A worker learns the note of another. Then the two are closed in the opposite order.
#[test]
#[tactic(auto, using(crate::proofs::WorkersOfHeap::same_worker))]
fn a_note_passes_between_workers(rt: HostRuntime) -> Result<(), OutOfMemory> {
    let Ok((heap, workers)) = open(rt.alloc(), 2) else {
        assert!(rt; false, "it opens");
        return Ok(());
    };
    let (first, second) = two_of(&heap, workers);
    let mut writer = first;
    let mut reader = second;
    assert!(rt; passes_on(&rt, &heap, &mut writer, &mut reader));
    assert_eq!(rt; close_swapped(rt.alloc(), heap, writer, reader)?, 1);
    Ok(())
}

// One worker writes the shared element and draws a stamp. The other draws its own and then reads.
fn reads_behind<R: Wait>(
    rt: &R,
    heap: &SharedHeap,
    writer: &mut Worker,
    reader: &mut Worker,
) -> (u64, u64, bool)
    requires writer { writer.old.heap ≡ heap.now.id }
    requires reader { reader.old.heap ≡ heap.now.id }
    ensures { reader.new.heap ≡ heap.now.id }
{
    writes(rt, heap, writer, 41);
    let (written, begun) = stamps(heap, writer, reader);
    (written, begun, reads(rt, heap, reader, 41))
}

// Stamps tell the order as plain numbers. The heap is closed without the worker that wrote.
#[test]
fn stamps_grow_and_a_worker_is_lost(rt: HostRuntime) -> Result<(), OutOfMemory> {
    let Ok((heap, workers)) = open(rt.alloc(), 2) else {
        assert!(rt; false, "it opens");
        return Ok(());
    };
    let (first, second) = two_of(&heap, workers);
    let mut writer = first;
    let mut reader = second;
    let read = reads_behind(&rt, &heap, &mut writer, &mut reader);
    assert_eq!(rt; read, (0, 1, true));
    assert_eq!(rt; close_with_one(rt.alloc(), heap, reader)?, 1);
    Ok(())
}

// It opens, or memory is refused: `rt try --test --fail-alloc N` runs it with the Nth allocation
// refused.
#[test]
fn a_heap_opens_or_is_refused_memory(rt: HostRuntime) {
    match open(rt.alloc(), 3) {
        Ok((_, workers)) => assert_eq!(rt; workers.len(), 3),
        Err(fault) => assert_eq!(rt; fault, OpenFault::NoMemory),
    }
}

// A worker learns its own note between two commands.
const BEFORE: [Row; 1] = [(
    Command::Set { d: 1, value: 7 },
    Ok(Reply::Stored),
    1,
    1 << 45,
)];

const BEHIND: [Row; 1] = [(
    Command::Say { s: 1 },
    Ok(Reply::Val(Value::Int(7))),
    2,
    1 << 45,
)];

#[test]
fn a_note_is_learned(rt: HostRuntime) {
    let Ok((heap, workers)) = open(rt.alloc(), 2) else {
        panic!(rt; "it does not open");
    };
    for who in workers {
        let mut seat = Seat::of(&heap, who);
        asks(&rt, &mut seat, &BEFORE);
        seat.learn_own_note();
        asks(&rt, &mut seat, &BEHIND);
    }
}

// A record that keeps a number, which is exchanged with nil and put back and compared with the one
// that was exchanged; an array that is dropped.
const CALLS: [(Command, Told); 13] = [
    (Command::New { d: 1, fields: 2 }, Told::Made),
    (Command::Set { d: 2, value: 7 }, Told::Done),
    (Command::Put { s: 1, i: 1, v: 2 }, Told::Done),
    (
        Command::Get { d: 4, s: 1, i: 1 },
        Told::Shown(Value::Int(7)),
    ),
    (
        Command::Swap { s: 1, i: 1, v: 5 },
        Told::Shown(Value::Int(7)),
    ),
    (
        Command::Cas {
            s: 1,
            i: 1,
            a: 8,
            v: 2,
        },
        Told::Compared(true),
    ),
    (Command::Same { a: 2, b: 5 }, Told::Compared(true)),
    (Command::Mov { d: 6, s: 1 }, Told::Done),
    (Command::Arr { d: 1, elements: 4 }, Told::Made),
    (Command::Len { s: 1 }, Told::Counted(4)),
    (Command::Nil { d: 1 }, Told::Done),
    (Command::Idle { units: 10 }, Told::Done),
    (Command::Put { s: 1, i: 0, v: 2 }, Told::Fault(Fault::Null)),
];

fn calls<R: Wait + Abort>(rt: &R, seat: &mut Seat<'_>) {
    for (number, (command, told)) in CALLS.iter().enumerate() {
        assert_eq!(rt; seat.call(rt, *command), *told, "call {number}");
    }
}

fn has_counted(seat: &Seat<'_>) -> bool {
    seat.objects_made() == 2
        && seat.commands_left() == (1 << 60) - 13
        && seat.rate() == 7
        && seat.units_made() == 2 * 7 + 10
}

#[test]
fn each_call_returns_its_reply_or_a_fault(rt: HostRuntime) {
    let Ok((heap, workers)) = open(rt.alloc(), 1) else {
        panic!(rt; "it does not open");
    };
    for who in workers {
        let mut seat = Seat::of(&heap, who);
        calls(&rt, &mut seat);
        assert!(rt; has_counted(&seat));
        let said = seat.call(&rt, Command::Say { s: 2 });
        assert_eq!(rt; said, Told::Shown(Value::Int(7)));
    }
}
