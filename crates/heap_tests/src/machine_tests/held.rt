//! Which words a place of a heap can hold, asked while a test runs.

ghost use Rattle.std.specs.Prelude.{ℕ, ◌≡◌, ◌≤◌, ◌<◌, ◌+◌, ◌*◌, IsSome, IfSome, slice_index};
ghost use Rattle.block_store.specs.Payloads.{payload_of, target};
ghost use Rattle.block_store.specs.Colours.{colour_of, link};
ghost use Rattle.block_store.specs.Places.{extent, place_at, in_block, block_size, Phase, Cursor};
ghost use Rattle.heap_machine.specs.Operations.{op_place, SumFits, MayAct};
ghost use Rattle.heap_machine.specs.Readings.{CanHold, IsPhaseWord};

use block_store::{
    Colour, Config, Payload, read_colour, read_payload, read_phase, read_shape, read_wide,
};
use heap_machine::{Op, Words};

// A number that is no higher.
fn at_most(n: u64, most: u64) -> Option<()>
    ensures { IfSome result (λ u. n ≤ most) }
{
    if n <= most { Some(()) } else { None }
}

// A phase word with room for one thread and one cycle more.
fn holds_phase(word: u64) -> Option<()>
    ensures { IfSome result (λ u. IsPhaseWord word) }
{
    let phase = read_phase(word);
    at_most(u64::from(phase.inside), 254)?;
    at_most(phase.cycle, (1 << 54) - 2)
}

// The cursor of so many blocks.
fn holds_cursor(blocks: u32, word: u64) -> Option<()>
    ensures { IfSome result (λ u. (1 ≤ word) × (word ≤ blocks + 1)) }
{
    at_most(1, word)?;
    at_most(word, u64::from(blocks) + 1)
}

// A payload that refers to no block after the last.
fn holds_payload(blocks: u32, word: u64) -> Option<()>
    ensures { IfSome result (λ u. IsSome (payload_of word) × (target word ≤ blocks)) }
{
    match read_payload(word)? {
        Payload::Nil => Some(()),
        Payload::Int(_number) => Some(()),
        Payload::Block(block) => at_most(u64::from(block), u64::from(blocks)),
    }
}

// A colour with a link to no block after the last.
fn holds_colour(blocks: u32, word: u64) -> Option<()>
    ensures { IfSome result (λ u. IsSome (colour_of word) × (link word ≤ blocks)) }
{
    match read_colour(word)? {
        Colour::Even => Some(()),
        Colour::Odd => Some(()),
        Colour::Free(next) => at_most(u64::from(next), u64::from(blocks)),
        Colour::Grey(next) => at_most(u64::from(next), u64::from(blocks)),
    }
}

// A word of a block, so many words after its colour.
fn holds_in_block(c: &Config, behind: usize, word: u64) -> Option<()>
    ensures { IfSome result (λ u. (x : ℕ) → CanHold (extent c.now) (in_block x behind) word) }
{
    match behind {
        0 => holds_colour(c.blocks, word),
        1 => read_wide(word).map(|_owner| ()),
        2 => read_shape(word).map(|_shape| ()),
        _ => holds_payload(c.blocks, word),
    }
}

// A word of a whole heap.
fn holds_alone(c: &Config, index: usize, word: u64) -> Option<()>
    requires { index < 3 }
    ensures { IfSome result (λ u. CanHold (extent c.now) (place_at (extent c.now) index) word) }
{
    match index {
        0 => holds_phase(word),
        1 => holds_cursor(c.blocks, word),
        _ => at_most(word, u64::from(c.blocks)),
    }
}

/// Whether the place of this index can hold the word.
pub fn can_hold(c: &Config, index: usize, word: u64) -> Option<()>
    requires { c.now.threads ≤ 16 }
    ensures { IfSome result (λ u. CanHold (extent c.now) (place_at (extent c.now) index) word) }
{
    if index < 3 {
        return holds_alone(c, index, word);
    }
    let lists = 3 + 2 * c.threads as usize;
    if index < lists {
        return at_most(word, u64::from(c.blocks));
    }
    let size = 3 + c.width.payloads() as usize;
    holds_in_block(c, (index - lists) % size, word)
}

/// The place of an operation.
pub fn place_of(op: &Op) -> usize
    ensures { result ≡ op_place op.now }
{
    match *op {
        Op::Load { place } => place,
        Op::Exchange { place, .. } => place,
        Op::CompareExchange { place, .. } => place,
        Op::FetchAdd { place, .. } => place,
        Op::FetchSub { place, .. } => place,
    }
}

// Whether the sum or difference of an operation on this word stays in 64 bits.
fn sum_fits(op: &Op, word: u64) -> Option<()>
    ensures { IfSome result (λ u. SumFits op.now word) }
{
    match *op {
        Op::Load { .. } | Op::Exchange { .. } | Op::CompareExchange { .. } => Some(()),
        Op::FetchAdd { by, .. } => word.checked_add(by).map(|_sum| ()),
        Op::FetchSub { by, .. } => at_most(by, word),
    }
}

/// The word on which an operation is, where it can be made at these words.
pub fn word_at(words: &Words, op: &Op) -> Option<u64>
    ensures may { IfSome result (λ w. MayAct words.now op.now) }
    ensures word { IfSome result (λ w. w ≡ slice_index words.now (op_place op.now)) }
{
    let place = place_of(op);
    if place >= words.len() {
        return None;
    }
    let word = words.word(place);
    sum_fits(op, word)?;
    Some(word)
}

/// Whether the word at this place is this one.
pub fn has(words: &Words, place: usize, word: u64) -> bool {
    place < words.len() && words.word(place) == word
}
