//! The operations of scripts of handles, as lines spell them.

ghost use Rattle.std.specs.Prelude.{◌≡◌, ◌≤◌, ◌<◌, ◌^◌, ◌∷◌, IfSome};
ghost use Rattle.std.specs.Option.{option_copied};
ghost use Rattle.array_scripts.specs.Kinds as kinds;
ghost use Rattle.trace_text.specs.Reading.{tokens_left};
ghost use Rattle.rt_handles.specs.Lines.{make_at, handle_at, see_at, drop_at, take_at, evict_at, op_at};

use crate::before::Before;
use array_scripts::{below, place};
use array_tables::handle_table::Operation;
use trace_text::{number_of, one_token, three_tokens, two_tokens};

/// The operation whose word a line begins with.
#[tactic(auto, unfolding(crate::specs::Lines::op_at))]
pub fn operation_of(
    slots: u32,
    before: &Before,
    first: &[u8],
    operands: Option<&[u8]>,
) -> Option<Operation>
    ensures { result
        ≡ op_at slots before.now (first.now ∷ tokens_left (option_copied operands.entry)) }
{
    match first {
        b"make" => make_of(slots, operands),
        b"see" => see_of(slots, before, operands),
        b"drop" => drop_of(slots, before, operands),
        b"take" => take_of(slots, operands),
        b"evict" => evict_of(slots, operands),
        _ => None,
    }
}

/// The number that a token spells, as one of a thread's eight handles.
#[tactic(auto, unfolding(array_scripts::specs::Kinds::below))]
fn handle(token: &[u8]) -> Option<u8>
    ensures says { result ≡ kinds.below 8 token.now }
    ensures low { IfSome result (λ n. n < 8) }
{
    let number = number_of(token)?;
    if number >= 8 {
        return None;
    }
    Some(number as u8)
}

/// The operands of a make.
#[tactic(auto, unfolding(crate::specs::Lines::make_at))]
fn make_of(slots: u32, operands: Option<&[u8]>) -> Option<Operation>
    ensures { result ≡ make_at slots (tokens_left (option_copied operands.entry)) }
{
    let (g, i, x) = three_tokens(operands)?;
    let handle = handle(g)?;
    let slot = place(i, slots)?;
    let number = below(x, 1 << 62)?;
    Some(Operation::Make {
        handle,
        slot,
        number,
    })
}

/// A handle and the slot at which its last make was.
#[tactic(auto, unfolding(crate::specs::Lines::handle_at))]
fn handle_of(slots: u32, before: &Before, operands: Option<&[u8]>) -> Option<(u8, u32)>
    ensures { result ≡ handle_at slots before.now (tokens_left (option_copied operands.entry)) }
{
    let (g, i) = two_tokens(operands)?;
    let handle = handle(g)?;
    let slot = place(i, slots)?;
    if !before.is_at(handle, slot) {
        return None;
    }
    Some((handle, slot))
}

/// The operands of a see.
#[tactic(auto, unfolding(crate::specs::Lines::see_at))]
fn see_of(slots: u32, before: &Before, operands: Option<&[u8]>) -> Option<Operation>
    ensures { result ≡ see_at slots before.now (tokens_left (option_copied operands.entry)) }
{
    let (handle, slot) = handle_of(slots, before, operands)?;
    Some(Operation::See { handle, slot })
}

/// The operands of a drop.
#[tactic(auto, unfolding(crate::specs::Lines::drop_at))]
fn drop_of(slots: u32, before: &Before, operands: Option<&[u8]>) -> Option<Operation>
    ensures { result ≡ drop_at slots before.now (tokens_left (option_copied operands.entry)) }
{
    let (handle, slot) = handle_of(slots, before, operands)?;
    Some(Operation::Drop { handle, slot })
}

/// The operand of a take.
#[tactic(auto, unfolding(crate::specs::Lines::take_at))]
fn take_of(slots: u32, operands: Option<&[u8]>) -> Option<Operation>
    ensures { result ≡ take_at slots (tokens_left (option_copied operands.entry)) }
{
    let token = one_token(operands)?;
    let slot = place(token, slots)?;
    Some(Operation::Take { slot })
}

/// The operand of an evict.
#[tactic(auto, unfolding(crate::specs::Lines::evict_at))]
fn evict_of(slots: u32, operands: Option<&[u8]>) -> Option<Operation>
    ensures { result ≡ evict_at slots (tokens_left (option_copied operands.entry)) }
{
    let token = one_token(operands)?;
    let slot = place(token, slots)?;
    Some(Operation::Evict { slot })
}
