//! The printed texts of the causes for which a table is not opened, or an operation refused.

ghost use Rattle.std.specs.Prelude.{◌≡◌};
ghost use Rattle.live_tables.specs.tags.Texts.{open_fault_text, refused_text};

use crate::tags::{OpenFault, Refused};
use std::error::Error;
use std::fmt;

impl OpenFault {
    /// The printed text: what is wrong, and what to do.
    pub fn text(self) -> &'static str
        ensures { result.now ≡ open_fault_text self }
    {
        match self {
            OpenFault::OutOfRange =>
                "a table has at most 1,024 tags, and 1 to 16 threads; ask for fewer",
            OpenFault::NoMemory => "memory ran out; free memory, or open a smaller table",
        }
    }
}

impl fmt::Display for OpenFault {
    ghost use Rattle.std.specs.Prelude.{Some};
    ghost use Rattle.live_tables.specs.tags.Texts.{open_fault_text};

    ghost output = { λ fault. Some (open_fault_text fault) };

    fn fmt<W: fmt::Write>(&self, f: &mut fmt::Formatter<W>) -> fmt::Result {
        f.write_str(self.text())
    }
}

impl Error for OpenFault {}

impl Refused {
    /// The printed text: what is wrong, and what to do.
    pub fn text(self) -> &'static str
        ensures { result.now ≡ refused_text self }
    {
        match self {
            Refused::OutOfRange =>
                "the table has no such place, or a number is 2^62 or more; correct the call",
            Refused::NoLifeLeft =>
                "too little is left of this worker's lifetime; close the table, and open a new one",
        }
    }
}

impl fmt::Display for Refused {
    ghost use Rattle.std.specs.Prelude.{Some};
    ghost use Rattle.live_tables.specs.tags.Texts.{refused_text};

    ghost output = { λ refused. Some (refused_text refused) };

    fn fmt<W: fmt::Write>(&self, f: &mut fmt::Formatter<W>) -> fmt::Result {
        f.write_str(self.text())
    }
}

impl Error for Refused {}
