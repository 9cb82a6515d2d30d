//! The rows of building: one variant for each event.

/// The next event of building, or how the part ended. `list` is the first block of a list that the
/// thread has taken, and no longer in that list; 1 to the number of blocks. `ordinal` is below the
/// number of the object's blocks, `j` is below the number of payloads, and `u` is below the number
/// of threads.
#[derive(Clone, Copy, Debug, PartialEq, Eq)]
pub enum BuildRow {
    /// Loads the free count.
    ReadCount,
    /// Takes the object's blocks off the free count, where it is still the one that was seen.
    Reserve { seen: u64 },
    /// Takes the free list of thread `(thread + u) mod threads`, so its own first.
    TakeFree { u: u32 },
    /// Loads the colour of the first block in the private list, which goes out of the private list
    /// and is held.
    Collect { list: u32, u: u32 },
    /// Puts the private list in the thread's own free list.
    PutRest { list: u32 },
    /// Writes the owner of the block of this ordinal.
    WriteOwner { ordinal: u32 },
    /// Writes the shape of the block of this ordinal.
    WriteShape { ordinal: u32 },
    /// Writes payload `j` of the block of this ordinal.
    WritePayload { ordinal: u32, j: u32 },
    /// Makes the block of this ordinal black.
    WriteColour { ordinal: u32 },
    /// Stores a reference to the object in the command's register.
    Publish,
    /// The part is over: the object was made.
    Built,
    /// The part is over: fewer blocks were free than the object takes.
    Refused,
}
