//! Numbers in a range.

ghost use Rattle.std.specs.Prelude.{◌≡◌, ◌≤◌, ◌<◌};
ghost use Rattle.array_scripts.specs.Kinds as kinds;

use trace_text::number_of;

/// The number that a token spells, if it is in a range.
#[tactic(auto, unfolding(crate::specs::Kinds::ranged))]
pub fn ranged(token: &[u8], least: u32, most: u32) -> Option<u32>
    ensures { result ≡ kinds.ranged least most token.now }
{
    let number = number_of(token)?;
    if number < u64::from(least) || number > u64::from(most) {
        return None;
    }
    Some(number as u32)
}

/// The number that a token spells, if it is below another.
#[tactic(auto, unfolding(crate::specs::Kinds::below))]
pub fn below(token: &[u8], most: u64) -> Option<u64>
    ensures { result ≡ kinds.below most token.now }
{
    let number = number_of(token)?;
    if number >= most {
        return None;
    }
    Some(number)
}

/// The same as a place of an array.
#[tactic(auto, unfolding(crate::specs::Kinds::below))]
pub fn place(token: &[u8], places: u32) -> Option<u32>
    ensures { result ≡ kinds.below places token.now }
{
    let number = number_of(token)?;
    if number >= u64::from(places) {
        return None;
    }
    Some(number as u32)
}
