//! Why bytes are no saved heap.

ghost use Rattle.std.specs.Prelude.{◌≡◌};
ghost use Rattle.saved_heap.specs.heap_pictures.Faults.{save_fault_text};
ghost use Rattle.saved_heap.specs.declared.heap_pictures.faults.ReadError.TheVariants.{Memory};

use std::alloc::{AllocError, AllocFailed};
use std::error::Error;
use std::fmt;

/// Why bytes are not those of a saved heap: the first that applies.
#[derive(Clone, Copy, Debug, PartialEq, Eq)]
pub enum SaveFault {
    /// They do not begin with the eight bytes of a saved heap.
    NotASave,
    /// They are of this version, which is not 1.
    Version(u64),
    /// The header ends early, or the rest is not as long as the header says.
    Torn,
    /// The checksum is not that of the rest.
    Checksum,
    /// The checksum is right, and the rest is not the picture of a heap.
    Malformed,
}

impl SaveFault {
    /// The printed text: what is wrong, and what to do.
    pub fn text(self) -> &'static str
        ensures { result.now ≡ save_fault_text self }
    {
        match self {
            SaveFault::NotASave => "not a saved heap; name the file that a save wrote",
            SaveFault::Version(_) =>
                "saved in another version; load it with the program that saved it",
            SaveFault::Torn => "the saved heap is cut short or too long; take another copy",
            SaveFault::Checksum => "the saved heap was changed; take another copy",
            SaveFault::Malformed => "the saved heap has no picture of a heap; take another copy",
        }
    }
}

impl fmt::Display for SaveFault {
    ghost use Rattle.std.specs.Prelude.{Some};
    ghost use Rattle.saved_heap.specs.heap_pictures.Faults.{save_fault_text};

    ghost output = { λ fault. Some (save_fault_text fault) };

    fn fmt<W: fmt::Write>(&self, f: &mut fmt::Formatter<W>) -> fmt::Result {
        f.write_str(self.text())
    }
}

impl Error for SaveFault {}

/// Why `decode` has no picture.
#[derive(Clone, Copy, Debug, PartialEq, Eq)]
pub enum ReadError {
    /// Memory ran out.
    Memory,
    /// The bytes are not those of a saved heap.
    Fault(SaveFault),
}

impl From<AllocError> for ReadError {
    ghost from_gives = { λ _ e. e ≡ Memory };

    fn from(_e: AllocError) -> ReadError {
        ReadError::Memory
    }
}

impl<T: Drop> From<AllocFailed<T>> for ReadError {
    ghost from_gives = { λ _ e. e ≡ Memory };

    fn from(_e: AllocFailed<T>) -> ReadError {
        ReadError::Memory
    }
}
