//! A program that goes on while its heap is copied to a new one.

use crate::examples::{are_alike, graph};
use crate::slim::{ask, copy, finish, make_room, open, picture_of, renewal_of, written};
use crate::stop::Stop;
use block_store::{Config, Width};
use control_heap::ControlHeap;
use never_heap::Command;
use saved_heap::Renewal;
use std::alloc::Global;

const HEAP: Config = Config {
    width: Width::Eight,
    threads: 1,
    blocks: 200,
    live: 60,
    object: 4,
    shared: 0,
};

// The new heap. The table of all objects is live while they are built.
const LARGER: Config = Config {
    blocks: 400,
    live: 140,
    ..HEAP
};

// How many commands the program asks while its heap is copied, and how many of the copy each time.
const MEANWHILE: u64 = 400;

const PIECE: usize = 2;

// A command of the program and a piece of the copy. Returns how many commands are left to copy.
fn goes_on(
    heap: &mut ControlHeap,
    renewal: &mut Renewal,
    command: Command,
    piece: usize,
) -> Result<usize, Stop> {
    let reply = heap.ask(command)?;
    renewal.follow(command, reply)?;
    let left = renewal.copy(piece)?;
    Ok(left)
}

// A list of records in register 1 grows to ten, and begins again.
fn command_of(step: u64) -> Command {
    match step % 40 {
        0 => Command::Nil { d: 1 },
        k if k % 4 == 1 => Command::New { d: 2, fields: 2 },
        k if k % 4 == 2 => Command::Put { s: 2, i: 0, v: 1 },
        k if k % 4 == 3 => Command::Mov { d: 1, s: 2 },
        _ => Command::Set { d: 3, value: step },
    }
}

fn fill(heap: &mut ControlHeap) -> Result<(), Stop> {
    for step in 0..30 {
        ask(heap, command_of(step))?;
    }
    Ok(())
}

fn begin(alloc: Global, heap: &ControlHeap) -> Result<Renewal, Stop> {
    let picture = picture_of(alloc, heap)?;
    renewal_of(alloc, &picture, LARGER)
}

// The new heap, after the program has asked its commands.
fn renewed(heap: &mut ControlHeap, renewal: Renewal) -> Result<ControlHeap, Stop> {
    let mut renewal = renewal;
    match meanwhile(heap, &mut renewal) {
        Ok(()) => finish(renewal),
        Err(stop) => Err(stop),
    }
}

fn meanwhile(heap: &mut ControlHeap, renewal: &mut Renewal) -> Result<(), Stop> {
    make_room(renewal, MEANWHILE as usize)?;
    for step in 0..MEANWHILE {
        let _left = goes_on(heap, renewal, command_of(step), PIECE)?;
    }
    let _none = copy(renewal, usize::MAX)?;
    Ok(())
}

/// Renews a heap, and prints whether the new one shows what the old one does.
pub fn run(rt: &HostRuntime) -> Result<(), Stop> {
    let mut heap = open(rt.alloc(), HEAP)?;
    renew(rt, &mut heap)
}

fn renew(rt: &HostRuntime, heap: &mut ControlHeap) -> Result<(), Stop> {
    fill(heap)?;
    let renewal = begin(rt.alloc(), heap)?;
    let new = renewed(heap, renewal)?;
    compare(rt, heap, &new)
}

fn compare(rt: &HostRuntime, old: &ControlHeap, new: &ControlHeap) -> Result<(), Stop> {
    let alike = are_alike(rt.alloc(), old, new)?;
    written(println!(rt; "renewed: {}", graph(alike)))
}
