//! The words of colours and of the phase: each is written and read here.

ghost use Rattle.std.specs.Prelude.{◌≡◌, ◌≢◌, ◌<◌, ◌^◌, IfSome, IfNone, ℕ, Some};
ghost use Rattle.block_store.specs.Colours.{IsColour, colour_code, colour_of, colour_link, colour_kind, link, kind, black_of, white_of, black_word, white_word};
ghost use Rattle.block_store.specs.Phases.{phase_code, phase_of};
ghost use Rattle.block_store.specs.declared.Colour.{Colour};

use crate::{Colour, PhaseWord};

/// The word of a colour.
#[tactic(auto, unfolding(crate::specs::Colours::free_word, crate::specs::Colours::grey_word))]
pub fn colour_word(c: Colour) -> u64
    requires { IsColour c }
    ensures { result ≡ colour_code c }
{
    match c {
        Colour::Free(link) => 8 * link as u64,
        Colour::Even => 1,
        Colour::Odd => 2,
        Colour::Grey(link) => 8 * link as u64 + 3,
    }
}

/// The colour that a word is; `None` where it is no word of a colour.
#[tactic(auto, using(crate::proofs::ColourWords::unread), unfolding(crate::specs::Colours::colour_of, crate::specs::Colours::free_word, crate::specs::Colours::grey_word, crate::specs::Colours::link, crate::specs::Colours::kind))]
pub fn read_colour(w: u64) -> Option<Colour>
    ensures word { result ≡ colour_of w }
    ensures found { IfSome result (λ c. IsColour c × (colour_code c ≡ w)
        × (colour_link c ≡ link w) × (colour_kind c ≡ kind w)) }
    ensures none { IfNone result ((c : Colour) → IsColour c → colour_code c ≢ w) }
{
    let link = w / 8;
    if w == 1 {
        Some(Colour::Even)
    } else if w == 2 {
        Some(Colour::Odd)
    } else if w % 8 == 0 && link <= 65_535 {
        Some(Colour::Free(link as u32))
    } else if w % 8 == 3 && link <= 65_535 {
        Some(Colour::Grey(link as u32))
    } else {
        None
    }
}

/// The Live colour of a block that was reached and scanned in this cycle, or made in it.
#[tactic(auto, unfolding(crate::specs::Colours::black_of, crate::specs::Colours::black_word))]
pub fn black(cycle: u64) -> Colour
    ensures colour { result ≡ black_of cycle }
    ensures word { colour_code result ≡ black_word cycle }
    ensures in_range { IsColour result }
{
    match cycle % 2 {
        0 => Colour::Even,
        _ => Colour::Odd,
    }
}

/// The Live colour of a block that was not yet reached in this cycle.
#[tactic(auto, unfolding(crate::specs::Colours::white_of, crate::specs::Colours::white_word))]
pub fn white(cycle: u64) -> Colour
    ensures colour { result ≡ white_of cycle }
    ensures word { colour_code result ≡ white_word cycle }
    ensures in_range { IsColour result }
{
    match cycle % 2 {
        0 => Colour::Odd,
        _ => Colour::Even,
    }
}

/// The word of the phase.
#[tactic(auto, unfolding(crate::specs::Phases::phase_code))]
pub fn phase_word(p: PhaseWord) -> u64
    requires { p.cycle < 2 ^ 54 }
    ensures { result ≡ phase_code p }
{
    let closed = if p.closed { 512 } else { 0 };
    let sweep = if p.sweep { 256 } else { 0 };
    p.cycle * 1024 + closed + sweep + p.inside as u64
}

/// What a word says of the phase. Every word says something.
#[tactic(auto, unfolding(crate::specs::Phases::inside_of, crate::specs::Phases::is_sweep, crate::specs::Phases::is_closed, crate::specs::Phases::cycle_of))]
pub fn read_phase(w: u64) -> PhaseWord
    ensures { result ≡ phase_of w }
{
    PhaseWord {
        inside: (w % 256) as u8,
        sweep: w / 256 % 2 == 1,
        closed: w / 512 % 2 == 1,
        cycle: w / 1024,
    }
}
