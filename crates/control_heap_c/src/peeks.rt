//! What registers and fields hold, read without a command.

ghost use Rattle.std.specs.Prelude.{◌≡◌, ◌∷◌, [], Some};
ghost use Rattle.control_heap_c.specs.Outcomes.{heap_in};
ghost use Rattle.control_heap_c.specs.Peeks.{HasPeeked, fault_status, for_c, peek_status, peek_told};

use crate::answer::{Answer, written};
use crate::handle::Handle;
use crate::owned::Owned;
use block_store::Value;
use control_heap::Fault;
use never_heap::Reply;
use std::alloc::Global;
use std::mem::replace;

/// Why nothing was read.
#[derive(Clone, Copy, Debug, PartialEq, Eq)]
pub enum PeekRefusal {
    /// The handle has no heap.
    Closed,
    /// The first fault on the path.
    Heap(Fault),
}

/// What field `i` holds of the object in a register of a handle's heap.
pub fn peek(alloc: Global, handle: &mut Handle, s: u8, i: u64) -> Result<Value, PeekRefusal>
    ensures value { HasPeeked (heap_in handle.old.link.value) s (i ∷ []) result }
    ensures unchanged { handle.new.link.value ≡ handle.old.link.value }
{
    match replace(handle, Handle::closed(alloc)).into_box() {
        None => Err(PeekRefusal::Closed),
        Some(owned) => {
            let outcome = field_in(&owned, s, i);
            *handle = Handle::of(owned);
            outcome
        }
    }
}

fn field_in(owned: &Owned, s: u8, i: u64) -> Result<Value, PeekRefusal>
    ensures { HasPeeked (heap_in (Some owned.now)) s (i ∷ []) result }
{
    match owned {
        Owned::Heap(heap) => for_c(heap.peek(s, i)),
        _ => Err(PeekRefusal::Closed),
    }
}

/// The value at the end of a path of indices from a register of a handle's heap.
pub fn peek_path(
    alloc: Global,
    handle: &mut Handle,
    s: u8,
    path: &[u64],
) -> Result<Value, PeekRefusal>
    ensures value { HasPeeked (heap_in handle.old.link.value) s path.now result }
    ensures unchanged { handle.new.link.value ≡ handle.old.link.value }
{
    match replace(handle, Handle::closed(alloc)).into_box() {
        None => Err(PeekRefusal::Closed),
        Some(owned) => {
            let outcome = path_in(&owned, s, path);
            *handle = Handle::of(owned);
            outcome
        }
    }
}

fn path_in(owned: &Owned, s: u8, path: &[u64]) -> Result<Value, PeekRefusal>
    ensures { HasPeeked (heap_in (Some owned.now)) s path.now result }
{
    match owned {
        Owned::Heap(heap) => for_c(heap.peek_path(s, path)),
        _ => Err(PeekRefusal::Closed),
    }
}

fn for_c(read: Result<Value, Fault>) -> Result<Value, PeekRefusal>
    ensures { result ≡ for_c read }
{
    match read {
        Ok(value) => Ok(value),
        Err(fault) => Err(PeekRefusal::Heap(fault)),
    }
}

/// Writes the value, if there is one, and returns the status.
pub fn peek_told(outcome: Result<Value, PeekRefusal>, out: &mut Answer) -> u32
    ensures status { result ≡ peek_status outcome }
    ensures answer { out.new ≡ peek_told outcome out.old }
{
    match outcome {
        Ok(value) => {
            *out = written(Reply::Val(value));
            0
        }
        Err(PeekRefusal::Closed) => 1,
        Err(PeekRefusal::Heap(fault)) => fault_told(fault),
    }
}

fn fault_told(fault: Fault) -> u32
    ensures { result ≡ fault_status fault }
{
    match fault {
        Fault::OutOfBounds => 2,
        Fault::NoLifeLeft => 3,
        Fault::Full(_) => 11,
        Fault::Null => 12,
        Fault::Kind => 13,
        Fault::Range => 14,
    }
}
