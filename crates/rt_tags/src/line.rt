//! The operations of scripts of tags, as lines spell them.

ghost use Rattle.std.specs.Prelude.{◌≡◌, ◌≤◌, ◌<◌, ◌^◌, ◌∷◌};
ghost use Rattle.std.specs.Option.{option_copied};
ghost use Rattle.trace_text.specs.Reading.{tokens_left};
ghost use Rattle.rt_tags.specs.Lines.{write_at, clear_at, read_at, op_at};

use array_scripts::{below, place};
use array_tables::tag_table::Operation;
use trace_text::{one_token, three_tokens};

/// The operation whose word a line begins with.
#[tactic(auto, unfolding(crate::specs::Lines::op_at))]
pub fn operation_of(tags: u32, first: &[u8], operands: Option<&[u8]>) -> Option<Operation>
    ensures { result ≡ op_at tags (first.now ∷ tokens_left (option_copied operands.entry)) }
{
    match first {
        b"write" => write_of(tags, operands),
        b"clear" => clear_of(tags, operands),
        b"read" => read_of(tags, operands),
        _ => None,
    }
}

/// The operands of a write.
#[tactic(auto, unfolding(crate::specs::Lines::write_at))]
fn write_of(tags: u32, operands: Option<&[u8]>) -> Option<Operation>
    ensures { result ≡ write_at tags (tokens_left (option_copied operands.entry)) }
{
    let (i, v, q) = three_tokens(operands)?;
    let place = place(i, tags)?;
    let value = below(v, 1 << 62)?;
    let quality = below(q, 1 << 62)?;
    Some(Operation::Write {
        place,
        value,
        quality,
    })
}

/// The operand of a clear.
#[tactic(auto, unfolding(crate::specs::Lines::clear_at))]
fn clear_of(tags: u32, operands: Option<&[u8]>) -> Option<Operation>
    ensures { result ≡ clear_at tags (tokens_left (option_copied operands.entry)) }
{
    let token = one_token(operands)?;
    let place = place(token, tags)?;
    Some(Operation::Clear { place })
}

/// The operand of a read.
#[tactic(auto, unfolding(crate::specs::Lines::read_at))]
fn read_of(tags: u32, operands: Option<&[u8]>) -> Option<Operation>
    ensures { result ≡ read_at tags (tokens_left (option_copied operands.entry)) }
{
    let token = one_token(operands)?;
    let place = place(token, tags)?;
    Some(Operation::Read { place })
}
