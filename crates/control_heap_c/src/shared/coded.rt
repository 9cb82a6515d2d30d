//! Commands as numbers.

ghost use Rattle.std.specs.Prelude.{◌≡◌};
ghost use Rattle.control_heap_c.specs.Shared.{command_in};

use crate::answer::register;
use never_heap::Command;

/// The command of these numbers. A number that it does not use is not read.
pub fn command_in(kind: u32, a: u32, b: u32, v: u32, n: u64) -> Option<Command>
    ensures { result ≡ command_in kind a b v n }
{
    let (ra, rb, rv) = (register(a), register(b), register(v));
    Some(match kind {
        0 => Command::New { d: ra, fields: b },
        1 => Command::Arr { d: ra, elements: b },
        2 => Command::Set { d: ra, value: n },
        3 => Command::Nil { d: ra },
        4 => Command::Mov { d: ra, s: rb },
        5 => Command::Get { d: ra, s: rb, i: n },
        6 => Command::Put { s: ra, i: n, v: rv },
        7 => Command::Len { s: ra },
        8 => Command::Same { a: ra, b: rb },
        9 => Command::Say { s: ra },
        10 => Command::Swap { s: ra, i: n, v: rv },
        11 => Command::Cas {
            s: ra,
            i: n,
            a: rb,
            v: rv,
        },
        12 => Command::Idle { units: n },
        _ => return None,
    })
}
