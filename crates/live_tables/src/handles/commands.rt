//! The commands of each request, its range, and what its replies tell.

ghost use Rattle.std.specs.Prelude.{◌≡◌, ◌+◌, ◌<◌, ◌≤◌, ◌∷◌, [], ◌^◌, ◌↔◌, IsTrue, Some, None, ℕ, slice_index_or};
ghost use Rattle.array_tables.specs.handle_table.Handles.{Make, See, Drop, Take, Evict, found_by};
ghost use Rattle.array_tables.specs.handle_table.Handles as handles;
ghost use Rattle.live_tables.specs.handles.Live as live;
ghost use Rattle.live_tables.specs.handles.Live.{IsInRange, commands_of, place_in};
ghost use Rattle.live_tables.specs.handles.Kept.{NamesHandle, makes, objects_by, slot_next};
ghost use Rattle.live_tables.specs.handles.Makes.{slot_after};

use crate::handles::request::HandleRequest;
use block_store::Value;
use never_heap::{Command, Reply};

// The id of the next handle of a thread that has made so many.
pub(crate) fn id_of(thread: u32, made: u64) -> u64
    requires { made ≤ 2 ^ 60 }
    ensures { result ≡ handles.id thread made }
{
    u64::from(thread) * (1 << 20) + (made + 1)
}

// The commands of a make, whose handle has this id.
pub(crate) fn make_commands(id: u64, handle: u8, slot: u32, number: u64) -> [Command; 9]
    requires { handle < 8 }
    ensures { (t j : ℕ) → id ≡ handles.id t j
        → result ≡ commands_of (Make t j handle slot number ∷ []) }
{
    let d = 4 + handle;
    [
        Command::New { d: 1, fields: 1 },
        Command::Set {
            d: 2,
            value: number,
        },
        Command::Put { s: 1, i: 0, v: 2 },
        Command::New { d, fields: 2 },
        Command::Put { s: d, i: 0, v: 1 },
        Command::Set { d: 2, value: id },
        Command::Put { s: d, i: 1, v: 2 },
        Command::Nil { d: 2 },
        Command::Cas {
            s: 0,
            i: u64::from(slot),
            a: 2,
            v: d,
        },
    ]
}

// The commands of a see.
pub(crate) fn see_commands(handle: u8, slot: u32) -> [Command; 2]
    requires { handle < 8 }
    ensures { (t j : ℕ) → result ≡ commands_of (See t j handle slot ∷ []) }
{
    [
        Command::Get {
            d: 1,
            s: 0,
            i: u64::from(slot),
        },
        Command::Same {
            a: 1,
            b: 4 + handle,
        },
    ]
}

// The commands of a release.
pub(crate) fn release_commands(handle: u8, slot: u32) -> [Command; 2]
    requires { handle < 8 }
    ensures { (t j : ℕ) → result ≡ commands_of (Drop t j handle slot ∷ []) }
{
    [
        Command::Nil { d: 2 },
        Command::Cas {
            s: 0,
            i: u64::from(slot),
            a: 4 + handle,
            v: 2,
        },
    ]
}

// The commands of a take.
pub(crate) fn take_commands(slot: u32) -> [Command; 4]
    ensures { result ≡ commands_of (Take slot ∷ []) }
{
    [
        Command::Get {
            d: 1,
            s: 0,
            i: u64::from(slot),
        },
        Command::Get { d: 2, s: 1, i: 1 },
        Command::Get { d: 3, s: 1, i: 0 },
        Command::Get { d: 3, s: 3, i: 0 },
    ]
}

// The commands of an evict.
pub(crate) fn evict_commands(slot: u32) -> [Command; 5]
    ensures { result ≡ commands_of (Evict slot ∷ []) }
{
    [
        Command::Nil { d: 1 },
        Command::Swap {
            s: 0,
            i: u64::from(slot),
            v: 1,
        },
        Command::Get { d: 2, s: 1, i: 1 },
        Command::Get { d: 3, s: 1, i: 0 },
        Command::Get { d: 3, s: 3, i: 0 },
    ]
}

// Whether a request is on one of so many slots and on one of eight handles, with a number that fits
// in a field.
pub(crate) fn in_range(request: &HandleRequest, slots: u32) -> bool
    ensures { IsTrue result ↔ IsInRange slots request.now }
{
    match *request {
        HandleRequest::Make {
            handle,
            slot,
            number,
        } => handle < 8 && slot < slots && number < 1 << 62,
        HandleRequest::See { handle } | HandleRequest::Release { handle } => handle < 8,
        HandleRequest::Take { slot } | HandleRequest::Evict { slot } => slot < slots,
    }
}

// How many objects the commands of a request make.
pub(crate) fn objects_in(request: &HandleRequest) -> u64
    ensures { result ≡ objects_by request.now }
{
    match request {
        HandleRequest::Make { .. } => 2,
        _ => 0,
    }
}

// How many handles a worker has made after a request, if it had made so many before.
pub(crate) fn made_next(made: u64, request: &HandleRequest) -> u64
    requires { made ≤ 2 ^ 60 }
    ensures { result ≡ made + makes request.now }
{
    match request {
        HandleRequest::Make { .. } => made + 1,
        _ => made,
    }
}

// The slots of a worker's handles after it made one in a slot.
#[tactic(auto, using(crate::proofs::handles::Filled::set_there))]
fn made_in(slots: [Option<u32>; 8], handle: u8, slot: u32) -> [Option<u32>; 8]
    requires { handle < 8 }
    ensures { (h : ℕ) → h < 8 → slice_index_or result h None
        ≡ slot_after (λ g. slice_index_or slots g None) handle slot h }
{
    let mut slots = slots;
    slots[handle as usize] = Some(slot);
    slots
}

// The slots of a worker's handles after a request.
pub(crate) fn slots_next(slots: [Option<u32>; 8], request: &HandleRequest) -> [Option<u32>; 8]
    requires { NamesHandle request.now }
    ensures { (h : ℕ) → h < 8 → slice_index_or result h None
        ≡ slot_next request.now (λ g. slice_index_or slots g None) h }
{
    match *request {
        HandleRequest::Make { handle, slot, .. } => made_in(slots, handle, slot),
        _ => slots,
    }
}

// Whether a slot is known.
pub(crate) fn is_known(slot: Option<u32>) -> bool
    ensures { result ≡ live.is_known slot }
{
    match slot {
        Some(_) => true,
        None => false,
    }
}

// The slot that is known, or 0.
pub(crate) fn place(slot: Option<u32>) -> u32
    ensures { result ≡ place_in slot }
{
    match slot {
        Some(slot) => slot,
        None => 0,
    }
}

// Whether a reply is `yes`.
pub(crate) fn is_yes(reply: Reply) -> bool
    ensures { result ≡ handles.is_yes reply }
{
    matches!(reply, Reply::Yes)
}

// The id and the number of two replies, if both are numbers.
pub(crate) fn found(id: Reply, number: Reply) -> Option<(u64, u64)>
    ensures { result ≡ found_by id number }
{
    match (id, number) {
        (Reply::Val(Value::Int(n)), Reply::Val(Value::Int(x))) => Some((n, x)),
        _ => None,
    }
}
