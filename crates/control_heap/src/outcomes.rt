//! What a call of one command returns of its reply. The calls of `ControlHeap` use it, and those of
//! other heaps that execute the same commands.

ghost use Rattle.std.specs.Prelude.{◌≡◌};
ghost use Rattle.never_heap.specs.declared.Reply.TheVariants as replies;
ghost use Rattle.control_heap.specs.Calls.{IsIdle, IsLength, IsName, IsStored, IsTest, IsValue, outcome_of, tested};

use crate::{Fault, Refused};
use block_store::{Name, Value};
use never_heap::Reply;

/// Turns replies that carry no result (`Full`, `Null`, `Kind`, `Range`) and refusals into faults.
///
/// # Errors
///
/// The fault of such a reply, or of the refusal.
#[inline(always)]
pub fn outcome_of(asked: Result<Reply, Refused>) -> Result<Reply, Fault>
    ensures { result ≡ outcome_of asked }
{
    match asked {
        Ok(Reply::Full(cycle)) => Err(Fault::Full(cycle)),
        Ok(Reply::Null) => Err(Fault::Null),
        Ok(Reply::Kind) => Err(Fault::Kind),
        Ok(Reply::Range) => Err(Fault::Range),
        Ok(Reply::New(name)) => Ok(Reply::New(name)),
        Ok(Reply::Stored) => Ok(Reply::Stored),
        Ok(Reply::Val(value)) => Ok(Reply::Val(value)),
        Ok(Reply::Len(length)) => Ok(Reply::Len(length)),
        Ok(Reply::Yes) => Ok(Reply::Yes),
        Ok(Reply::No) => Ok(Reply::No),
        Ok(Reply::Idle) => Ok(Reply::Idle),
        Err(refused) => Err(Fault::from(refused)),
    }
}

/// The name in a reply `New`.
pub fn name_in(reply: Reply) -> Name
    requires { IsName reply }
    ensures { reply ≡ replies.New result }
{
    let Reply::New(name) = reply else {
        unreachable!()
    };
    name
}

/// The value in a reply `Val`.
pub fn value_in(reply: Reply) -> Value
    requires { IsValue reply }
    ensures { reply ≡ replies.Val result }
{
    let Reply::Val(value) = reply else {
        unreachable!()
    };
    value
}

/// The number in a reply `Len`.
pub fn length_in(reply: Reply) -> u64
    requires { IsLength reply }
    ensures { reply ≡ replies.Len result }
{
    let Reply::Len(length) = reply else {
        unreachable!()
    };
    length
}

/// Whether a reply is `Yes`, and not `No`.
pub fn test_in(reply: Reply) -> bool
    requires { IsTest reply }
    ensures { reply ≡ tested result }
{
    match reply {
        Reply::Yes => true,
        Reply::No => false,
        _ => unreachable!(),
    }
}

/// Drops a reply `Stored`.
pub fn stored_in(reply: Reply)
    requires { IsStored reply }
    ensures { reply ≡ replies.Stored }
{
    let _reply = reply;
}

/// Drops a reply `Idle`.
pub fn idle_in(reply: Reply)
    requires { IsIdle reply }
    ensures { reply ≡ replies.Idle }
{
    let _reply = reply;
}
