//! A heap that comes back after a restart, in a larger configuration.

use crate::examples::{are_alike, graph};
use crate::slim::{do_all, load, open, save, written};
use crate::stop::Stop;
use block_store::{Config, Width};
use control_heap::ControlHeap;
use never_heap::Command;
use saved_heap::needs_of;

// The heap of the program `plant`: 40 readings, each a record of one block, in the shared array.
const PLANT: Config = Config {
    width: Width::Eight,
    threads: 1,
    blocks: 128,
    live: 50,
    object: 1,
    shared: 40,
};

fn keep(heap: &mut ControlHeap, place: u64) -> Result<(), Stop> {
    do_all(
        heap,
        &[
            Command::New { d: 1, fields: 1 },
            Command::Set { d: 2, value: 1000 },
            Command::Put { s: 1, i: 0, v: 2 },
            Command::Put {
                s: 0,
                i: place,
                v: 1,
            },
        ],
    )
}

fn fill(heap: &mut ControlHeap) -> Result<(), Stop> {
    for place in 0..40 {
        keep(heap, place)?;
    }
    Ok(())
}

// The configuration in which the saved heap can be loaded.
fn larger(rt: &HostRuntime, bytes: &[u8]) -> Option<Config> {
    let needs = needs_of(rt.alloc(), bytes, PLANT.width, PLANT.shared).ok()?;
    needs.raise(PLANT)
}

/// Saves a heap of readings, loads it, and prints what it needed.
pub fn run(rt: &HostRuntime) -> Result<(), Stop> {
    let mut heap = open(rt.alloc(), PLANT)?;
    save_filled(rt, &mut heap)
}

fn save_filled(rt: &HostRuntime, heap: &mut ControlHeap) -> Result<(), Stop> {
    fill(heap)?;
    let bytes = save(rt.alloc(), heap)?;
    load_larger(rt, heap, bytes.as_slice())
}

fn load_larger(rt: &HostRuntime, heap: &ControlHeap, bytes: &[u8]) -> Result<(), Stop> {
    if load(rt.alloc(), bytes, PLANT).is_ok() {
        return Err(Stop::Example);
    }
    match larger(rt, bytes) {
        Some(config) => load_in(rt, heap, bytes, config),
        None => Err(Stop::Example),
    }
}

fn load_in(rt: &HostRuntime, heap: &ControlHeap, bytes: &[u8], config: Config) -> Result<(), Stop> {
    let loaded = load(rt.alloc(), bytes, config)?;
    compare(rt, heap, &loaded)
}

fn compare(rt: &HostRuntime, saved: &ControlHeap, loaded: &ControlHeap) -> Result<(), Stop> {
    let alike = are_alike(rt.alloc(), saved, loaded)?;
    print_needs(rt, loaded.config(), graph(alike))
}

fn print_needs(rt: &HostRuntime, config: &Config, shown: &str) -> Result<(), Stop> {
    let (blocks, live, object) = (config.blocks, config.live, config.object);
    written(println!(rt; "loaded with blocks {blocks} live {live} object {object}: {shown}"))
}
