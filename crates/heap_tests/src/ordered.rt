//! The room for the order of a lone thread, on a heap of 64 blocks.

ghost use Rattle.std.specs.Prelude.{◌≡◌, ◌≤◌};

use crate::traces::trace_of;
use block_store::{Config, OutOfMemory, Width};
use heap_system::{Finished, System};
use never_heap::Command::*;
use never_heap::{Command, Item, Logs};
use std::alloc::Global;

// A heap of one thread with an empty shared array.
fn one(width: Width) -> Config
    ensures { result
        ≡ record { width = width; threads = 1; blocks = 64; live = 20; object = 2; shared = 0 } }
{
    Config {
        width,
        threads: 1,
        blocks: 64,
        live: 20,
        object: 2,
        shared: 0,
    }
}

// Does all these commands in so many turns at most.
fn run(
    alloc: Global,
    turns: u32,
    parts: &[(u32, &[Command])],
) -> Result<Option<Finished>, OutOfMemory>
    requires { turns ≤ 1000000000 }
{
    let config = one(Width::Four);
    let trace = trace_of(alloc, &config, parts)?;
    let mut system = System::new_ordered(alloc, config, vec![in alloc; trace]?, u64::from(turns))?;
    for _turn in 0..turns {
        system.turn(0);
    }
    Ok(system.finish().ok())
}

// Two allocations take 129 turns, and no event more is made.
#[test]
fn the_room_is_for_as_many_events_as_are_made(rt: HostRuntime) -> Result<(), OutOfMemory> {
    let record = [New { d: 1, fields: 1 }];
    let Some(logs) = run(rt.alloc(), 129, &[(2, &record)])? else {
        assert!(rt; false, "not finished");
        return Ok(());
    };
    let order = [Item::Start, Item::Entry(0), Item::Entry(0)];
    assert_eq!(rt; logs.order().unwrap_or(&[]), &order[..]);
    let none = run(rt.alloc(), 128, &[(2, &record)])?;
    assert!(rt; none.is_none());
    Ok(())
}
