//! The printed texts of the causes for which a heap is not opened.

ghost use Rattle.std.specs.Prelude.{◌≡◌};
ghost use Rattle.shared_heap.specs.Refusals.{open_fault_text};

use crate::OpenFault;
use block_store::OutOfMemory;
use rate_plan::PlanFault;
use std::error::Error;
use std::fmt;

impl OpenFault {
    /// The printed text: what is wrong, and what to do.
    pub fn text(self) -> &'static str
        ensures { result.now ≡ open_fault_text self }
    {
        match self {
            OpenFault::OutOfBounds => "a number of the configuration is out of range; correct it",
            OpenFault::LiveTooSmall => PlanFault::LiveTooSmall.text(),
            OpenFault::NoRate => PlanFault::NoRate.text(),
            OpenFault::NoMemory => OutOfMemory.text(),
        }
    }
}

impl fmt::Display for OpenFault {
    ghost use Rattle.std.specs.Prelude.{Some};
    ghost use Rattle.shared_heap.specs.Refusals.{open_fault_text};

    ghost output = { λ fault. Some (open_fault_text fault) };

    fn fmt<W: fmt::Write>(&self, f: &mut fmt::Formatter<W>) -> fmt::Result {
        f.write_str(self.text())
    }
}

impl Error for OpenFault {}
