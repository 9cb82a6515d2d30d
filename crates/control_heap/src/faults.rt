//! Why a call has no result, and the printed texts of the causes.

ghost use Rattle.std.specs.Prelude.{◌≡◌};
ghost use Rattle.control_heap.specs.Calls.{fault_of, fault_text, refused_text};
ghost use Rattle.control_heap.specs.Refusals.{open_fault_text};

use crate::{OpenFault, Refused};
use block_store::OutOfMemory;
use rate_plan::PlanFault;
use std::error::Error;
use std::fmt;

/// Why a call of one command has no result. Its printed text also says what to do.
#[derive(Clone, Copy, Debug, PartialEq, Eq)]
pub enum Fault {
    /// Too few blocks were free for the object: at the start of this cycle more blocks were live
    /// than the limit. Drop references to objects; two cycles later there is room again.
    Full(u64),
    /// The register is nil.
    Null,
    /// The register holds a number.
    Kind,
    /// The object has no field of this index.
    Range,
    /// A register, number, index, length or count of units is out of range on this heap, or the
    /// heap's version lacks the command. The heap is unchanged.
    OutOfBounds,
    /// What is left of the heap's life is too little for the command. The heap is unchanged.
    NoLifeLeft,
}

impl Fault {
    /// The printed text: what is wrong, and what to do.
    pub fn text(self) -> &'static str
        ensures { result.now ≡ fault_text self }
    {
        match self {
            Fault::Full(_) =>
                "full: more blocks were live than the limit; let go of objects, or raise the limit",
            Fault::Null => "null: the register is nil; put an object into it first",
            Fault::Kind => "kind: the register holds a number; name one that refers to an object",
            Fault::Range => "range: the object has no such field; len returns how many it has",
            Fault::OutOfBounds =>
                "out of bounds: this heap allows no such operand or command; correct the call",
            Fault::NoLifeLeft =>
                "no life left: too little is left for this command; open a new heap",
        }
    }
}

impl fmt::Display for Fault {
    ghost use Rattle.std.specs.Prelude.{Some};
    ghost use Rattle.control_heap.specs.Calls.{fault_text};

    ghost output = { λ fault. Some (fault_text fault) };

    fn fmt<W: fmt::Write>(&self, f: &mut fmt::Formatter<W>) -> fmt::Result {
        f.write_str(self.text())
    }
}

impl Error for Fault {}

impl From<Refused> for Fault {
    ghost use Rattle.std.specs.Prelude.{◌≡◌};
    ghost use Rattle.control_heap.specs.Calls.{fault_of};

    ghost from_gives = { λ refused fault. fault ≡ fault_of refused };

    fn from(refused: Refused) -> Fault {
        match refused {
            Refused::OutOfBounds => Fault::OutOfBounds,
            Refused::NoLifeLeft => Fault::NoLifeLeft,
        }
    }
}

impl Refused {
    /// The printed text: that of the `Fault` for the same cause.
    pub fn text(self) -> &'static str
        ensures { result.now ≡ refused_text self }
    {
        Fault::from(self).text()
    }
}

impl fmt::Display for Refused {
    ghost use Rattle.std.specs.Prelude.{Some};
    ghost use Rattle.control_heap.specs.Calls.{refused_text};

    ghost output = { λ refused. Some (refused_text refused) };

    fn fmt<W: fmt::Write>(&self, f: &mut fmt::Formatter<W>) -> fmt::Result {
        f.write_str(self.text())
    }
}

impl Error for Refused {}

impl OpenFault {
    /// The printed text: what is wrong, and what to do.
    pub fn text(self) -> &'static str
        ensures { result.now ≡ open_fault_text self }
    {
        match self {
            OpenFault::OutOfBounds => "a number of the configuration is out of range; correct it",
            OpenFault::NotOneThread =>
                "the configuration has more than one thread; set `threads` to 1",
            OpenFault::LiveTooSmall => PlanFault::LiveTooSmall.text(),
            OpenFault::NoRate => PlanFault::NoRate.text(),
            OpenFault::NoMemory => OutOfMemory.text(),
        }
    }
}

impl fmt::Display for OpenFault {
    ghost use Rattle.std.specs.Prelude.{Some};
    ghost use Rattle.control_heap.specs.Refusals.{open_fault_text};

    ghost output = { λ fault. Some (open_fault_text fault) };

    fn fmt<W: fmt::Write>(&self, f: &mut fmt::Formatter<W>) -> fmt::Result {
        f.write_str(self.text())
    }
}

impl Error for OpenFault {}
