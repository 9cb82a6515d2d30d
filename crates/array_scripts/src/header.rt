//! The headers of scripts.

ghost use Rattle.std.specs.Prelude.{◌≡◌};
ghost use Rattle.trace_text.specs.Lines.{tokens_of};
ghost use Rattle.array_scripts.specs.Kinds.{header_at};

use crate::numbers::ranged;
use trace_text::{behind, labelled, no_more};

/// What the header of a script says.
#[derive(Clone, Copy, Debug, PartialEq, Eq)]
pub struct Header {
    /// How many threads there are, 1 to 16.
    pub threads: u32,
    /// How many places the array has.
    pub places: u32,
    /// How many blocks the heap has, 1 to 65,535.
    pub blocks: u32,
}

/// The header that a line spells, by the name with which it begins, the label of its number of
/// places, and how many these are at most.
#[tactic(auto, unfolding(crate::specs::Kinds::header_at))]
pub fn header_of(line: &[u8], name: &[u8], label: &[u8], most: u32) -> Option<Header>
    ensures { result ≡ header_at name.now label.now most (tokens_of line.now) }
{
    let rest = behind(Some(line), name)?;
    let rest = behind(rest, b"1")?;
    let (threads, rest) = labelled(rest, b"threads")?;
    let (places, rest) = labelled(rest, label)?;
    let (blocks, rest) = labelled(rest, b"blocks")?;
    no_more(rest)?;
    let threads = ranged(threads, 1, 16)?;
    let places = ranged(places, 1, most)?;
    let blocks = ranged(blocks, 1, 65_535)?;
    Some(Header {
        threads,
        places,
        blocks,
    })
}
