//! Replies and refusals as numbers.

ghost use Rattle.std.specs.Prelude.{◌≡◌, min, Result};
ghost use Rattle.never_heap.specs.declared.Reply.{Reply};
ghost use Rattle.control_heap_c.specs.Outcomes.{written, status_of, told, register};

use block_store::{Name, Value};
use control_heap::Refused;
use never_heap::Reply;

/// A reply: its kind and its numbers. A number that the kind does not use is 0.
#[repr(C)]
#[derive(Clone, Copy, Debug, PartialEq, Eq)]
pub struct Answer {
    pub kind: u32,
    /// The thread of a name.
    pub thread: u32,
    /// The serial of a name, a number, a length or a cycle.
    pub value: u64,
}

/// Why a command was refused.
#[derive(Clone, Copy, Debug, PartialEq, Eq)]
pub enum Refusal {
    /// The handle has no heap.
    Closed,
    /// The heap refuses the command.
    Heap(Refused),
}

fn plain(kind: u32) -> Answer
    ensures { result ≡ record { kind = kind; thread = 0; value = 0 } }
{
    Answer {
        kind,
        thread: 0,
        value: 0,
    }
}

fn number(kind: u32, value: u64) -> Answer
    ensures { result ≡ record { kind = kind; thread = 0; value = value } }
{
    Answer {
        kind,
        thread: 0,
        value,
    }
}

fn named(kind: u32, name: Name) -> Answer
    ensures { result ≡ record { kind = kind; thread = name.thread; value = name.serial } }
{
    Answer {
        kind,
        thread: name.thread,
        value: name.serial,
    }
}

/// A reply as numbers.
pub fn written(reply: Reply) -> Answer
    ensures { result ≡ written reply }
{
    match reply {
        Reply::New(name) => named(0, name),
        Reply::Full(cycle) => number(1, cycle),
        Reply::Stored => plain(2),
        Reply::Val(Value::Nil) => plain(3),
        Reply::Val(Value::Int(value)) => number(4, value),
        Reply::Val(Value::Ref(name)) => named(5, name),
        Reply::Len(length) => number(6, length),
        Reply::Yes => plain(7),
        Reply::No => plain(8),
        Reply::Null => plain(9),
        Reply::Kind => plain(10),
        Reply::Range => plain(11),
        Reply::Idle => plain(12),
    }
}

/// Writes the reply of a command, if there is one, and returns the status.
pub fn tell(outcome: Result<Reply, Refusal>, out: &mut Answer) -> u32
    ensures status { result ≡ status_of outcome }
    ensures answer { out.new ≡ told outcome out.old }
{
    match outcome {
        Ok(reply) => {
            *out = written(reply);
            0
        }
        Err(Refusal::Closed) => 1,
        Err(Refusal::Heap(Refused::OutOfBounds)) => 2,
        Err(Refusal::Heap(Refused::NoLifeLeft)) => 3,
    }
}

/// The register of this number, or 255, which no heap has, if the number is larger.
pub fn register(r: u32) -> u8
    ensures { result ≡ register r }
{
    if r < 255 { r as u8 } else { 255 }
}
