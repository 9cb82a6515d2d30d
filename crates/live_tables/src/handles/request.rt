//! What a worker is asked to do with its handles and the slots.

/// A request of a worker. A worker has eight handles of its own, and names one by a number from 0
/// to 7.
#[derive(Clone, Copy, Debug, PartialEq, Eq)]
pub enum HandleRequest {
    /// Makes an object with a number, and a handle to it, which fills the slot if that is free.
    Make { handle: u8, slot: u32, number: u64 },
    /// Asks whether the handle is still in the slot in which it was made.
    See { handle: u8 },
    /// Empties that slot, if the handle is still there.
    Release { handle: u8 },
    /// Shows the slot's handle with its number.
    Take { slot: u32 },
    /// The same, and empties the slot.
    Evict { slot: u32 },
}
