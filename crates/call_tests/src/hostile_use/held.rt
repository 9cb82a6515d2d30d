//! Threads of which the first is held after any number of its turns, while the others go on.

ghost use Rattle.std.specs.Prelude.{◌<◌};

use crate::hostile_use::held_system::{Held, opened};
use block_store::{Config, OutOfMemory};
use heap_system::System;
use never_heap::{Command, Item, Reply};
use rate_plan::plan;
use std::alloc::Global;
use std::test::Fail;
use test_kit::{Happened, history_of, in_bounds, is_legal, is_right_work};
use trace_text::{MemSource, read_trace};

/// Thread 0 loads an element of the shared array and shows it; thread 1 stores a record there,
/// lets it go, stores nil over it, and makes more.
const JOB: &[u8] = b"rtheap 1 threads 2 blocks 64 live 20 object 2 shared 4
thread 0
get 1 0 0
say 1
thread 1
new 1 1
put 0 0 1
nil 1
put 0 0 1
new 2 1
new 2 1
new 2 1
end
";

/// Thread 0 exchanges a record for what an element of the shared array has, puts that back where
/// the element still has the record, and idles. The others exchange and compare there too, first
/// with no allocation in front, let go what they have, idle, and make more.
const WIDE_JOB: &[u8] = b"rtheap 2 threads 3 blocks 44 live 24 object 2 shared 4
thread 0
new 1 1
mov 2 1
swap 0 0 1
cas 0 0 2 1
idle 12
say 1
get 3 0 0
same 3 1
thread 1
set 1 5
swap 0 0 1
new 1 1
swap 0 0 1
nil 1
arr 2 8
swap 0 0 2
nil 2
idle 30
new 2 1
new 2 8
new 2 1
new 2 8
thread 2
get 3 0 0
cas 0 0 3 2
new 1 1
get 3 0 0
cas 0 0 3 1
nil 1
nil 3
new 2 8
len 2
swap 0 0 2
new 2 1
new 2 8
idle 30
new 2 1
end
";

/// The numbers of commands of thread 0 of that job, and the units of its `idle`.
const SWAP: usize = 2;

const CAS: usize = 3;

const IDLE: usize = 4;

const UNITS: u64 = 12;

/// Where thread 0 of that job is held.
#[derive(Clone, Copy, Debug, PartialEq, Eq)]
enum Place {
    /// Its `swap` has exchanged the element, and has not stored in the register what it found.
    Exchanged,
    /// Its `cas` has begun, and has not compared.
    Comparing,
    /// Its last turn has compared the element.
    Compared,
    /// Its `idle` has made some of its units.
    Idling,
    Elsewhere,
}

/// Where a thread 0 is whose log had so many entries before its last turn.
fn place_of(system: &System, before: usize) -> Place
    requires { 0 < system.now.config.threads }
{
    let local = system.local(0);
    let done = local.log().len();
    let decided = entries_of_first(system.order().unwrap_or(&[]));
    if done == SWAP && decided > SWAP {
        Place::Exchanged
    } else if done == CAS && !local.at_rest() {
        Place::Comparing
    } else if done == IDLE && before == CAS {
        Place::Compared
    } else if done == IDLE && local.spent() > 0 && local.spent() < UNITS {
        Place::Idling
    } else {
        Place::Elsewhere
    }
}

/// How many entries of thread 0 an order has.
fn entries_of_first(order: &[Item]) -> usize {
    let mut count: usize = 0;
    for item in order {
        if let Item::Entry(0) = *item {
            count = count.saturating_add(1);
        }
    }
    count
}

/// Holds thread 0 after so many turns, and tells where.
fn hold(threads: &mut Held, turns: u32) -> Place {
    let mut before = 0;
    for _turn in 0..turns {
        before = entries_done(&threads.system);
        threads.turn(0);
    }
    if threads.system.config().threads == 0 {
        return Place::Elsewhere;
    }
    place_of(&threads.system, before)
}

/// How many commands thread 0 has done.
fn entries_done(system: &System) -> usize {
    if system.config().threads == 0 {
        return 0;
    }
    system.local(0).log().len()
}

/// So many turns of each thread but thread 0, one after the other.
fn go_on(threads: &mut Held, turns: u32) {
    let all = threads.system.config().threads;
    for _round in 0..turns {
        for thread in 1..all {
            threads.turn(thread);
        }
    }
}

/// The others have `early` turns each, then thread 0 has `held`, then the others have 400 each, and
/// then all have drawn turns until they are done.
#[derive(Clone, Copy, Debug)]
struct Turns {
    early: u32,
    held: u32,
}

/// A run of a job whose thread 0 was held.
#[derive(Drop)]
struct Ran {
    config: Config,
    rate: u64,
    place: Place,
    /// How many items came while it was held.
    meanwhile: usize,
    history: Vec<Happened>,
}

/// The run of a job by these turns. `None` where a thread is not done, or nothing was kept.
fn run_of(alloc: Global, text: &[u8], turns: Turns) -> Result<Option<Ran>, Fail> {
    let bytes = Vec::from_slice(alloc, text)?;
    let mut source = MemSource::new(bytes, 1000, Vec::new(alloc));
    let Ok(job) = read_trace(alloc, &mut source) else {
        return Ok(None);
    };
    let config = job.config;
    let Ok(rate) = plan(&config) else {
        return Ok(None);
    };
    let mut threads = opened(alloc, job).map_err(|_| "memory")?;
    go_on(&mut threads, turns.early);
    let place = hold(&mut threads, turns.held);
    let known = items(&threads.system);
    go_on(&mut threads, 400);
    let meanwhile = items(&threads.system).saturating_sub(known);
    threads.end(u64::from(turns.held));
    let Ok(run) = threads.system.finish() else {
        return Ok(None);
    };
    let Some(order) = run.order() else {
        return Ok(None);
    };
    let Some(history) = history_of(alloc, order, &run).map_err(|_| "memory")? else {
        return Ok(None);
    };
    Ok(Some(Ran {
        config,
        rate,
        place,
        meanwhile,
        history,
    }))
}

/// How many items the order has.
fn items(system: &System) -> usize {
    system.order().unwrap_or(&[]).len()
}

/// Whether a run is answered as by the heap that never frees, with the work that is owed, and no
/// allocation is answered full.
fn is_right(alloc: Global, run: &Ran) -> Result<bool, OutOfMemory> {
    if !in_bounds(&run.config, &run.history) || run.rate > 131_070 {
        return Ok(false);
    }
    let full = run.history.iter().any(|happened| is_full(*happened));
    Ok(
        !full
            && is_legal(alloc, &run.config, &run.history)?
            && is_right_work(&run.config, run.rate, &run.history),
    )
}

fn is_full(happened: Happened) -> bool {
    matches!(happened, Happened::Did(entry) if matches!(entry.reply, Reply::Full(_)))
}

#[test]
fn a_thread_that_is_held_anywhere_is_answered_as_by_the_heap_that_never_frees(
    rt: HostRuntime,
) -> Result<(), Fail> {
    for held in 0..=60 {
        let turns = Turns { early: 0, held };
        let run = run_of(rt.alloc(), JOB, turns)?;
        assert!(rt; run.is_some(), "{turns:?}");
        let run = run.ok_or("no history")?;
        let right = is_right(rt.alloc(), &run).ok().ok_or("memory")?;
        assert!(rt; right, "held after {held} turns");
        assert_eq!(rt; run.history.len(), 10, "held after {held} turns");
    }
    Ok(())
}

/// What thread 0 of the job of version 2 is answered at its `cas`.
fn compared(history: &[Happened]) -> Option<Reply> {
    for happened in history {
        if let Happened::Did(entry) = *happened {
            if entry.thread == 0 && matches!(entry.command, Command::Cas { .. }) {
                return Some(entry.reply);
            }
        }
    }
    None
}

/// How many commands a history has.
fn commands(history: &[Happened]) -> usize {
    history
        .iter()
        .filter(|happened| matches!(**happened, Happened::Did(_)))
        .count()
}

#[test]
fn so_is_one_that_is_held_in_a_swap_a_cas_or_an_idle(rt: HostRuntime) -> Result<(), Fail> {
    let alloc = rt.alloc();
    let mut places = Vec::new(alloc);
    let mut replies = Vec::new(alloc);
    for early in [0, 100, 300, 700] {
        for held in 0..=600 {
            let turns = Turns { early, held };
            let run = run_of(alloc, WIDE_JOB, turns)?;
            assert!(rt; run.is_some(), "{turns:?}");
            let run = run.ok_or("no history")?;
            let right = is_right(alloc, &run).ok().ok_or("memory")?;
            assert!(rt; right, "{turns:?}");
            assert_eq!(rt; commands(&run.history), 35, "{turns:?}");
            if run.meanwhile > 0 {
                places.push(run.place)?;
            }
            replies.push(compared(&run.history))?;
        }
    }
    for place in [
        Place::Exchanged,
        Place::Comparing,
        Place::Compared,
        Place::Idling,
    ] {
        assert!(rt; places.contains(&place), "{place:?}");
    }
    for reply in [Reply::Yes, Reply::No] {
        assert!(rt; replies.contains(&Some(reply)), "{reply:?}");
    }
    Ok(())
}
