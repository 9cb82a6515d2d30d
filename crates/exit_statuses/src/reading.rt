//! Reading the text of a call.

ghost use Rattle.std.specs.Prelude.{◌≡◌, ◌<◌, ◌^◌, IfOk, IfErr, OnOk};
ghost use Rattle.exit_statuses.specs.Sides.{sides};
ghost use Rattle.exit_statuses.specs.Refusals.{IsReadWhole, IsReadRefusal};

use crate::refusal::Refusal;
use std::alloc::Global;
use trace_text::{Source, input_of};

/// Reads a source to its end, where it has at most `limit` bytes, which is below 2^62, and else to
/// the first byte too many.
///
/// # Errors
///
/// `TooLong`, `ReadFault` where the source fails, and `OutOfMemory`.
pub fn text_of<S: Source>(alloc: Global, source: &mut S, limit: usize) -> Result<Vec<u8>, Refusal>
    requires { limit < 2 ^ 62 }
    ensures whole { IfOk result (λ text.
        IsReadWhole limit (sides S.left S.faults source.old source.new) text.items) }
    ensures still { OnOk result (S.faults source.new ≡ S.faults source.old) }
    ensures refused { IfErr result
        (IsReadRefusal limit (sides S.left S.faults source.old source.new)) }
{
    let text = input_of(alloc, source, limit)?;
    if text.len() > limit {
        return Err(Refusal::TooLong);
    }
    Ok(text)
}
