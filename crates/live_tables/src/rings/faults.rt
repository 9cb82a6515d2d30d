//! The causes for which rings are not opened, or a request refused, and their printed texts.

ghost use Rattle.std.specs.Prelude.{◌≡◌};
ghost use Rattle.live_tables.specs.rings.Texts.{open_fault_text, refused_text};

use std::error::Error;
use std::fmt;

/// Why rings are not opened. Its printed text also says what to do.
#[derive(Clone, Copy, Debug, PartialEq, Eq)]
pub enum OpenFault {
    /// There is no thread, or more than 16.
    OutOfRange,
    /// An allocation failed: of the heap, of its workers, or of the vector that `close` needs.
    NoMemory,
}

/// Why a request is refused. Its printed text also says what to do.
#[derive(Clone, Copy, Debug, PartialEq, Eq)]
pub enum Refused {
    /// There is no such ring or place, or the number is 2^62 or more. This is checked first.
    OutOfRange,
    /// The commands of the request exceed the worker's lifetime.
    NoLifeLeft,
}

impl OpenFault {
    /// The printed text: what is wrong, and what to do.
    pub fn text(self) -> &'static str
        ensures { result.now ≡ open_fault_text self }
    {
        match self {
            OpenFault::OutOfRange => "there are rings for 1 to 16 threads; ask for fewer",
            OpenFault::NoMemory => "memory ran out; free memory, or open fewer rings",
        }
    }
}

impl fmt::Display for OpenFault {
    ghost use Rattle.std.specs.Prelude.{Some};
    ghost use Rattle.live_tables.specs.rings.Texts.{open_fault_text};

    ghost output = { λ fault. Some (open_fault_text fault) };

    fn fmt<W: fmt::Write>(&self, f: &mut fmt::Formatter<W>) -> fmt::Result {
        f.write_str(self.text())
    }
}

impl Error for OpenFault {}

impl Refused {
    /// The printed text: what is wrong, and what to do.
    pub fn text(self) -> &'static str
        ensures { result.now ≡ refused_text self }
    {
        match self {
            Refused::OutOfRange =>
                "there is no such ring or place, or the number is 2^62 or more; correct the call",
            Refused::NoLifeLeft =>
                "too little is left of this worker's lifetime; close the rings, and open new ones",
        }
    }
}

impl fmt::Display for Refused {
    ghost use Rattle.std.specs.Prelude.{Some};
    ghost use Rattle.live_tables.specs.rings.Texts.{refused_text};

    ghost output = { λ refused. Some (refused_text refused) };

    fn fmt<W: fmt::Write>(&self, f: &mut fmt::Formatter<W>) -> fmt::Result {
        f.write_str(self.text())
    }
}

impl Error for Refused {}
