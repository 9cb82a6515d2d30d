//! The graph of a heap as a text, in memory of the caller.

ghost use Rattle.std.specs.Prelude.{◌≡◌, Some};
ghost use Rattle.control_heap_c.specs.Outcomes.{heap_in};
ghost use Rattle.control_heap_c.specs.Texts.{HasShown, HasTold, text_length, text_status};

use crate::buffers::copied;
use crate::handle::Handle;
use crate::owned::Owned;
use block_store::OutOfMemory;
use control_heap::ControlHeap;
use std::alloc::Global;
use std::mem::replace;

/// Why the caller has no text.
#[derive(Clone, Copy, Debug, PartialEq, Eq)]
pub enum TextRefusal {
    /// The handle has no heap.
    Closed,
    /// An allocation failed.
    NoMemory,
    /// The caller's memory is too small for the text, which has so many bytes.
    TooSmall(u64),
}

/// What the registers of a handle's heap reach, as `ControlHeap::text` writes it, or as `dot` does.
/// Returns how many bytes it has.
pub fn show(
    alloc: Global,
    handle: &mut Handle,
    as_dot: bool,
    out: &mut [u8],
) -> Result<u64, TextRefusal>
    ensures shown { HasShown (heap_in handle.old.link.value) out.old out.new result }
    ensures unchanged { handle.new.link.value ≡ handle.old.link.value }
{
    match replace(handle, Handle::closed(alloc)).into_box() {
        None => Err(TextRefusal::Closed),
        Some(owned) => {
            let outcome = shown_in(alloc, &owned, as_dot, out);
            *handle = Handle::of(owned);
            outcome
        }
    }
}

fn shown_in(alloc: Global, owned: &Owned, as_dot: bool, out: &mut [u8]) -> Result<u64, TextRefusal>
    ensures { HasShown (heap_in (Some owned.now)) out.old out.new result }
{
    match owned {
        Owned::Heap(heap) => told(text_of(alloc, heap, as_dot), out),
        _ => Err(TextRefusal::Closed),
    }
}

fn text_of(alloc: Global, heap: &ControlHeap, as_dot: bool) -> Result<String, OutOfMemory> {
    if as_dot {
        heap.dot(alloc)
    } else {
        heap.text(alloc)
    }
}

fn told(text: Result<String, OutOfMemory>, out: &mut [u8]) -> Result<u64, TextRefusal>
    ensures { HasTold out.old out.new result }
{
    match text {
        Err(_) => Err(TextRefusal::NoMemory),
        Ok(text) => match copied(text.as_bytes(), out) {
            Ok(count) => Ok(count),
            Err(count) => Err(TextRefusal::TooSmall(count)),
        },
    }
}

/// Writes how many bytes the text has, if there is one, and returns the status.
pub fn text_told(outcome: Result<u64, TextRefusal>, length: &mut u64) -> u32
    ensures status { result ≡ text_status outcome }
    ensures length { length.new ≡ text_length outcome length.old }
{
    match outcome {
        Ok(count) => {
            *length = count;
            0
        }
        Err(TextRefusal::Closed) => 1,
        Err(TextRefusal::NoMemory) => 8,
        Err(TextRefusal::TooSmall(count)) => {
            *length = count;
            15
        }
    }
}
