//! Drawing a stamp for a handle's worker, and following one that another drew.

ghost use Rattle.std.specs.Prelude.{◌≡◌, Some};
ghost use Rattle.shared_heap.specs.Stamps.{HasDrawn};
ghost use Rattle.control_heap_c.specs.Stamps.{BecameFollowed, BecameStamped, follow_status, stamp_status, stamp_told};

use crate::handle::Handle;
use crate::owned::{Owned, Resting};
use std::alloc::Global;
use std::mem::replace;

/// Why no stamp was drawn.
#[derive(Clone, Copy, Debug, PartialEq, Eq)]
pub enum StampRefusal {
    /// The handle has no worker.
    Closed,
    /// The worker's command is not done.
    Busy,
}

/// Draws a stamp for the worker of a handle.
pub fn draw(alloc: Global, handle: &mut Handle) -> Result<u64, StampRefusal>
    ensures { BecameStamped handle.old.link.value result handle.new.link.value }
{
    match replace(handle, Handle::closed(alloc)).into_box() {
        None => Err(StampRefusal::Closed),
        Some(owned) => {
            let mut owned = owned;
            let (after, outcome) = stamped(Box::replace(&mut owned, Owned::Moved));
            Box::replace(&mut owned, after);
            *handle = Handle::of(owned);
            outcome
        }
    }
}

fn stamped(owned: Owned) -> (Owned, Result<u64, StampRefusal>)
    ensures { BecameStamped (Some owned) result.1 (Some result.0) }
{
    match owned {
        Owned::Resting(at) => {
            let (at, stamp) = drawn(at);
            (Owned::Resting(at), Ok(stamp))
        }
        Owned::Executing(at) => (Owned::Executing(at), Err(StampRefusal::Busy)),
        other => (other, Err(StampRefusal::Closed)),
    }
}

fn drawn(at: Resting) -> (Resting, u64)
    ensures { HasDrawn at.worker result.1 result.0.worker }
{
    let Resting { heap, worker } = at;
    let mut worker = worker;
    let stamp = heap.stamp(&mut worker);
    (Resting { heap, worker }, stamp)
}

/// Draws a stamp for the worker of a handle, and returns whether it is no less than this one.
pub fn follow(alloc: Global, handle: &mut Handle, stamp: u64) -> Result<bool, StampRefusal>
    ensures { BecameFollowed handle.old.link.value stamp result handle.new.link.value }
{
    let own = draw(alloc, handle)?;
    Ok(stamp <= own)
}

/// Writes the stamp, if there is one, and returns the status.
pub fn stamp_told(outcome: Result<u64, StampRefusal>, out: &mut u64) -> u32
    ensures status { result ≡ stamp_status outcome }
    ensures stamp { out.new ≡ stamp_told outcome out.old }
{
    match outcome {
        Ok(stamp) => {
            *out = stamp;
            0
        }
        Err(StampRefusal::Closed) => 1,
        Err(StampRefusal::Busy) => 16,
    }
}

/// The status of a stamp that was followed.
pub fn follow_told(outcome: Result<bool, StampRefusal>) -> u32
    ensures { result ≡ follow_status outcome }
{
    match outcome {
        Ok(true) => 0,
        Ok(false) => 21,
        Err(StampRefusal::Closed) => 1,
        Err(StampRefusal::Busy) => 16,
    }
}
