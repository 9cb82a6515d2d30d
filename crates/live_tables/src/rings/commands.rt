//! The commands of each request, its range, and what its replies tell.

ghost use Rattle.std.specs.Prelude.{◌≡◌, ◌+◌, ◌<◌, ◌≤◌, ◌∷◌, [], ◌^◌, ◌↔◌, IsTrue};
ghost use Rattle.array_tables.specs.number_rings.Rings.{Keep, Recall, number_of, ring_place};
ghost use Rattle.live_tables.specs.rings.Live.{IsInRange, commands_of, keeping};

use crate::rings::request::RingRequest;
use block_store::Value;
use never_heap::{Command, Reply};

// The place of a thread's next number, if it has kept so many.
pub(crate) fn next_place(thread: u32, kept: u64) -> u64
    ensures { result ≡ ring_place thread kept }
{
    u64::from(thread) * 8 + kept % 8
}

// The commands of a keep.
pub(crate) fn keep_commands(place: u64, number: u64) -> [Command; 4]
    ensures { result ≡ commands_of (Keep place number ∷ []) }
{
    [
        Command::New { d: 1, fields: 1 },
        Command::Set {
            d: 2,
            value: number,
        },
        Command::Put { s: 1, i: 0, v: 2 },
        Command::Put {
            s: 0,
            i: place,
            v: 1,
        },
    ]
}

// The commands of a recall.
pub(crate) fn recall_commands(place: u64) -> [Command; 2]
    ensures { result ≡ commands_of (Recall place ∷ []) }
{
    [
        Command::Get {
            d: 1,
            s: 0,
            i: place,
        },
        Command::Get { d: 2, s: 1, i: 0 },
    ]
}

// Whether a request has a number that fits in a field, or is on one of eight places of a thread's
// ring.
pub(crate) fn in_range(request: &RingRequest, threads: u32) -> bool
    ensures { IsTrue result ↔ IsInRange threads request.now }
{
    match *request {
        RingRequest::Keep { number } => number < 1 << 62,
        RingRequest::Recall { thread, place } => thread < threads && place < 8,
    }
}

// How many records the commands of a request make.
pub(crate) fn objects_in(request: &RingRequest) -> u64
    ensures { result ≡ keeping request.now }
{
    match request {
        RingRequest::Keep { .. } => 1,
        RingRequest::Recall { .. } => 0,
    }
}

// How many numbers a worker has kept after a request, if it had kept so many before.
pub(crate) fn kept_next(kept: u64, request: &RingRequest) -> u64
    requires { kept ≤ 2 ^ 60 }
    ensures { result ≡ kept + keeping request.now }
{
    match request {
        RingRequest::Keep { .. } => kept + 1,
        RingRequest::Recall { .. } => kept,
    }
}

// The number of a reply, if it is one.
pub(crate) fn number(reply: Reply) -> Option<u64>
    ensures { result ≡ number_of reply }
{
    match reply {
        Reply::Val(Value::Int(number)) => Some(number),
        _ => None,
    }
}
