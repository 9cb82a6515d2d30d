//! A history of seven items in two cycles: each program answers of it, and of others that are
//! wrong.

use block_store::{Config, Name, Value, Width};
use never_heap::{Command, Entry, Item, Logs, Reply};
use std::alloc::Global;
use std::test::Fail;
use test_kit::{
    Happened, given_in, history_of, in_bounds, is_legal, is_licensed, is_right_work, live_at,
    starts, work,
};

/// A heap in which more blocks than may be are live from the first cycle on: the thread has four
/// blocks of registers and of the shared array.
const HEAP: Config = Config {
    width: Width::Eight,
    threads: 1,
    blocks: 40,
    live: 3,
    object: 2,
    shared: 0,
};

const IDLE: Command = Command::Idle { units: 5 };

fn entry(command: Command, reply: Reply, work: u64) -> Entry {
    Entry {
        thread: 0,
        command,
        reply,
        work,
    }
}

/// Two records and a full, at the rate 7, and an idle of five units.
fn log() -> [Entry; 5] {
    let new = Command::New { d: 1, fields: 2 };
    let name = Name {
        thread: 0,
        serial: 1,
    };
    [
        entry(new, Reply::New(name), 7),
        entry(Command::Say { s: 1 }, Reply::Val(Value::Ref(name)), 0),
        entry(IDLE, Reply::Idle, 5),
        entry(new, Reply::Full(1), 7),
        entry(new, Reply::New(Name { serial: 2, ..name }), 7),
    ]
}

fn order() -> [Item; 7] {
    let next = Item::Entry(0);
    [Item::Start, next, next, next, Item::Start, next, next]
}

#[derive(Drop)]
struct Alone {
    log: [Entry; 5],
}

impl Logs for Alone {
    ghost use Rattle.std.specs.Prelude.{[], ◌∷◌};

    ghost logs = { λ s. s.log ∷ [] };

    ghost cycle_count = { λ _. 2 };

    ghost unit_count = { λ _. 26 };

    fn threads(&self) -> u32 {
        1
    }

    fn entries(&self, _t: u32) -> &[Entry] {
        &self.log
    }

    fn cycles(&self) -> u64 {
        2
    }

    fn units(&self) -> u64 {
        26
    }
}

/// What the programs say of a history: whether it is legal, licensed, and of right work.
fn judged(alloc: Global, h: &[Happened]) -> Result<[bool; 3], Fail> {
    if !in_bounds(&HEAP, h) {
        return Err(Fail::from("out of bounds"));
    }
    Ok([
        is_legal(alloc, &HEAP, h)?,
        is_licensed(alloc, &HEAP, h)?,
        is_right_work(&HEAP, 7, h),
    ])
}

/// The history of the order and this log.
fn history(alloc: Global, log: [Entry; 5]) -> Result<Vec<Happened>, Fail> {
    match history_of(alloc, &order(), &Alone { log })? {
        Some(h) => Ok(h),
        None => Err(Fail::from("no history")),
    }
}

/// The work of a history in bounds.
fn work_of(h: &[Happened]) -> Option<u64> {
    if in_bounds(&HEAP, h) {
        Some(work(h))
    } else {
        None
    }
}

/// How many blocks a cycle gives, and how many are live at its start.
fn blocks_of(alloc: Global, h: &[Happened], cycle: u64) -> Result<Option<(u64, u64)>, Fail> {
    if !in_bounds(&HEAP, h) {
        return Ok(None);
    }
    let live = live_at(alloc, &HEAP, h, cycle)?;
    Ok(Some((given_in(&HEAP, h, cycle), live)))
}

#[test]
fn a_right_history_is_counted(rt: HostRuntime) -> Result<(), Fail> {
    let h = history(rt.alloc(), log())?;
    assert_eq!(rt; judged(rt.alloc(), &h)?, [true, true, true]);
    assert_eq!(rt; starts(&h), 2);
    assert_eq!(rt; work_of(&h), Some(26));
    for (cycle, wanted) in [(1, (1, 4)), (2, (1, 5))] {
        assert_eq!(rt; blocks_of(rt.alloc(), &h, cycle)?, Some(wanted));
    }
    Ok(())
}

/// Places of the log, each with a wrong entry, and how the history is then judged.
fn wrong_entries() -> [(usize, Entry, [bool; 3]); 6] {
    let new = Command::New { d: 1, fields: 2 };
    let say = Command::Say { s: 1 };
    [
        (
            1,
            entry(say, Reply::Val(Value::Nil), 0),
            [false, true, true],
        ),
        (1, entry(say, Reply::Full(1), 0), [false, true, true]),
        (2, entry(IDLE, Reply::Idle, 6), [true, true, false]),
        (2, entry(IDLE, Reply::Stored, 5), [false, true, true]),
        (3, entry(new, Reply::Full(2), 7), [true, false, true]),
        (3, entry(new, Reply::Full(1), 0), [true, true, false]),
    ]
}

/// How a history is judged whose log has this entry at a place.
fn judged_with(alloc: Global, place: usize, wrong: Entry) -> Result<[bool; 3], Fail> {
    let mut log = log();
    if let Some(entry) = log.get_mut(place) {
        *entry = wrong;
    }
    let h = history(alloc, log)?;
    judged(alloc, &h)
}

#[test]
fn a_wrong_entry_is_seen(rt: HostRuntime) -> Result<(), Fail> {
    for (place, wrong, answer) in wrong_entries() {
        let judged = judged_with(rt.alloc(), place, wrong)?;
        assert_eq!(rt; judged, answer, "entry {place}");
    }
    Ok(())
}

#[test]
fn an_order_of_other_logs_makes_none(rt: HostRuntime) -> Result<(), Fail> {
    let order = order();
    let run = Alone { log: log() };
    for len in 0..order.len() {
        assert!(rt;
            history_of(rt.alloc(), &order[..len], &run)?.is_none(),
            "{len} items"
        );
    }
    let mut other = log();
    other[4].thread = 1;
    let run = Alone { log: other };
    assert!(rt; history_of(rt.alloc(), &order, &run)?.is_none());
    Ok(())
}
