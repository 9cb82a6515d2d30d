//! The examples of `docs/CONTROL.md`, which quotes them, one after the other.

mod renewing;
mod saving;
mod structures;

use crate::slim::picture_of;
use crate::stop::Stop;
use control_heap::ControlHeap;
use saved_heap::Picture;
use std::alloc::Global;

/// Prints what each example gives. There are no words.
pub fn run(rt: &HostRuntime, words: &[String]) -> Result<(), Stop> {
    if !words.is_empty() {
        return Err(Stop::Usage);
    }
    structures::run(rt)?;
    renewing::run(rt)?;
    saving::run(rt)
}

/// Whether two heaps show one graph up to the names of objects.
fn are_alike(alloc: Global, a: &ControlHeap, b: &ControlHeap) -> Result<bool, Stop> {
    let picture = picture_of(alloc, a)?;
    is_of(alloc, &picture, b)
}

fn is_of(alloc: Global, picture: &Picture, heap: &ControlHeap) -> Result<bool, Stop> {
    let other = picture_of(alloc, heap)?;
    Ok(*picture == other)
}

fn graph(alike: bool) -> &'static str {
    if alike {
        "the same graph"
    } else {
        "another graph"
    }
}
