//! The rows of marking: one variant for each event.

/// The next event of marking, or how the part ended. A `list` is the first block of a list that the
/// thread has taken, or 0, which it is not where it is popped or put. A `block` or `target` is 1 to
/// the number of blocks, and `j` is below the number of payloads.
#[derive(Clone, Copy, Debug, PartialEq, Eq)]
pub enum GreyRow {
    /// Scan: takes the grey list of thread `(thread + u) mod threads`, so its own first; `u` lists,
    /// fewer than there are threads, have been found empty.
    Take {
        u: u32,
    },
    /// Scan: loads the colour of the first block in the private list, which goes out of the private
    /// list to be scanned.
    Pop {
        list: u32,
    },
    /// Scan: loads payload `j` of the block.
    ScanWord {
        block: u32,
        j: u32,
        list: u32,
    },
    /// Scan: makes the block to which payload `j` refers grey, where it is white; it is then the
    /// first in the private list.
    Shade {
        block: u32,
        j: u32,
        target: u32,
        list: u32,
    },
    /// Scan: makes the block black.
    Blacken {
        block: u32,
        list: u32,
    },
    /// Scan: puts the private list in the thread's own list.
    Put {
        list: u32,
    },
    /// The scan is over: a block was made black.
    Scanned,
    /// The scan is over: each list was empty.
    NothingGrey,
    /// Write barrier: takes the thread's own list.
    TakeOwn {
        target: u32,
    },
    /// Write barrier: makes the block to which a reference is about to be stored grey, where it is
    /// white; it is then the first in the private list.
    ShadeStored {
        target: u32,
        list: u32,
    },
    /// Write barrier: puts the private list in the thread's own list. The block was not white, or
    /// was made grey.
    PutOwn {
        target: u32,
        list: u32,
    },
    /// The store may follow: the block was not white, or was made grey.
    Shaded {
        target: u32,
    },
}
