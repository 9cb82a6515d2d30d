//! One atomic operation on one word.

ghost use Rattle.std.specs.Prelude.{◌≡◌};

/// One atomic operation on one word.
#[derive(Clone, Copy, Debug, PartialEq, Eq)]
pub enum Op {
    /// Reads the word.
    Load { place: usize },
    /// Puts a new word in its place.
    Exchange { place: usize, new: u64 },
    /// Puts a new word in its place where it is still the old one.
    CompareExchange { place: usize, old: u64, new: u64 },
    /// Adds to the word.
    FetchAdd { place: usize, by: u64 },
    /// Takes away from the word.
    FetchSub { place: usize, by: u64 },
}

impl Op {
    /// A load of the word at this place.
    pub fn load(place: usize) -> Op
        ensures { result ≡ Op.Load place }
    {
        Op::Load { place }
    }

    /// An exchange of the word at this place.
    pub fn exchange(place: usize, new: u64) -> Op
        ensures { result ≡ Op.Exchange place new }
    {
        Op::Exchange { place, new }
    }

    /// A compare-exchange of the word at this place.
    pub fn compare_exchange(place: usize, old: u64, new: u64) -> Op
        ensures { result ≡ Op.CompareExchange place old new }
    {
        Op::CompareExchange { place, old, new }
    }
}
