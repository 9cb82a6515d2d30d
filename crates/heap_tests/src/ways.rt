//! How many words of a long array a command touches.

ghost use Rattle.std.specs.Prelude.{◌≡◌, None, IfOk};
ghost use Rattle.rate_plan.specs.Rates.{IsAdmitted};

use crate::traces::trace_of;
use array_trees::depth_of;
use block_store::{Config, OutOfMemory, Places, Width};
use heap_machine::Op;
use heap_system::*;
use never_heap::Command;
use rate_plan::plan;
use std::alloc::Global;

// The shared array takes the blocks 6 to 346.
const LONG: Config = Config {
    width: Width::Four,
    threads: 1,
    blocks: 1024,
    live: 400,
    object: 16,
    shared: 1024,
};

// A thread that stores in the last element, and loads it.
fn one_thread(alloc: Global) -> Result<System, OutOfMemory>
    requires { IsAdmitted (record {
      width = Width.Four;
      threads = 1;
      blocks = 1024;
      live = 400;
      object =
          16;
      shared = 1024;
    }) }
    ensures { IfOk result (λ s. (s.config.threads ≡ 1) × (s.ordered ≡ None)) }
{
    let commands = [
        Command::Set { d: 1, value: 7 },
        Command::Put {
            s: 0,
            i: 1023,
            v: 1,
        },
        Command::Get {
            d: 2,
            s: 0,
            i: 1023,
        },
    ];
    let trace = trace_of(alloc, &LONG, &[(1, &commands)])?;
    System::new(alloc, LONG, vec![in alloc; trace]?)
}

fn place_of(op: &Op) -> usize {
    match *op {
        Op::Load { place }
        | Op::Exchange { place, .. }
        | Op::CompareExchange { place, .. }
        | Op::FetchAdd { place, .. }
        | Op::FetchSub { place, .. } => place,
    }
}

// Whether a place is of a block of the shared array.
fn is_of_array(place: usize) -> bool {
    let places = Places::new(&LONG);
    places.colour(6) <= place && place <= places.payload(346, 3)
}

// Does the next command, and counts its events on words of the shared array.
fn touched(system: &mut System) -> u32
    requires threads { system.old.config.threads ≡ 1 }
    requires plain { system.old.ordered ≡ None }
    ensures config { system.new.config ≡ system.old.config }
    ensures plain { system.new.ordered ≡ None }
{
    let entries = system.local(0).log().len();
    let mut count: u32 = 0;
    for _ in 0..100 {
        let local = system.local(0);
        if local.done() || local.log().len() > entries {
            return count;
        }
        if is_of_array(place_of(&local.want())) {
            count = count.saturating_add(1);
        }
        system.turn(0);
    }
    count
}

#[test]
fn an_element_is_reached_in_two_words_more_than_the_depth(
    rt: HostRuntime,
) -> Result<(), OutOfMemory> {
    if plan(&LONG).is_err() {
        assert!(rt; false, "no rate");
        return Ok(());
    }
    let mut system = one_thread(rt.alloc())?;
    assert_eq!(rt; touched(&mut system), 0);
    assert_eq!(rt; depth_of(Width::Four, 1024), 4);
    assert_eq!(rt; touched(&mut system), 6);
    assert_eq!(rt; touched(&mut system), 6);
    assert_eq!(rt; touched(&mut system), 0);
    assert!(rt; system.finish().is_ok());
    Ok(())
}
