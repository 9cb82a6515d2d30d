//! The rows of the sweep: one variant for each event.

/// The next event of the sweep, or how the part ended. The blocks from `block` on below `end` are
/// claimed and not yet passed, and `passed` of the range, 0 to 8, were passed before. `freed` of
/// those were freed, and `list` is the first block of the thread's own free list with them in
/// front, or 0. Blocks are 1 to the number of blocks, and `end` is at most one more.
#[derive(Clone, Copy, Debug, PartialEq, Eq)]
pub enum SweepRow {
    /// Loads the cursor.
    ReadCursor,
    /// Claims the range, where the cursor is still at its first block.
    ClaimRange {
        block: u32,
        end: u32,
    },
    /// Loads the colour of the block, which is passed unless it is white.
    PassBlock {
        block: u32,
        end: u32,
        passed: u32,
        list: u32,
        freed: u32,
    },
    /// Takes the thread's own free list. The block is white.
    TakeFree {
        block: u32,
        end: u32,
        passed: u32,
    },
    /// Frees the block, which is white, and so passes it; it is then the first in the private list.
    FreeBlock {
        block: u32,
        end: u32,
        passed: u32,
        list: u32,
        freed: u32,
    },
    /// Puts the private list in the thread's own free list.
    PutFree {
        list: u32,
        passed: u32,
        freed: u32,
    },
    /// Adds the freed blocks to the free count.
    Credit {
        passed: u32,
        freed: u32,
    },
    /// The part is over: the range was passed, and what was freed is put and counted.
    Swept {
        passed: u32,
        freed: u32,
    },
    /// The part is over: the cursor was after the last block.
    NothingLeft,
}
