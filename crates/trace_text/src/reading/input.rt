//! The bytes of a source.

ghost use Rattle.std.specs.Prelude.{◌≡◌, ◌+◌, ◌^◌, ◌<◌, ◌≤◌, ◌++◌, [], take, length, vec_len, IfOk, IfErr, IfSome, MatchResult};
ghost use Rattle.trace_text.specs.Streams.{IsAtEnd, StillTells};
ghost use Rattle.trace_text.specs.Inputs.{HasRead, Adds, CountsFault, IsOfNoByte, TookFew};

use crate::sources::Source;
use crate::trace_faults::TraceFault;
use std::alloc::{AllocError, Global};

/// The most bytes that a job's text may have.
pub const INPUT_LIMIT: usize = 16_777_216;

/// How many bytes a source is asked for at most at a time.
const PIECE_LEN: usize = 65_536;

/// The bytes of a source up to its end, where there are at most `most`, which is below 2^62. Of
/// more bytes only the first one too many is read.
///
/// # Errors
///
/// `ReadFault` where the source fails, and `OutOfMemory`.
pub fn input_of<S: Source>(
    alloc: Global,
    source: &mut S,
    most: usize,
) -> Result<Vec<u8>, TraceFault>
    requires { most < 2 ^ 62 }
    ensures read { IfOk result (λ input.
        HasRead (S.left source.old) input.items (S.left source.new)) }
    ensures within { IfOk result (λ input. vec_len input ≤ most + 1) }
    ensures ended { IfOk result (λ input. vec_len input ≤ most
        → IsAtEnd (S.left source.old) (S.left source.new)) }
    ensures few { IfErr result (λ fault.
        TookFew fault (most + 1) (S.left source.old) (S.left source.new)) }
    ensures cause_alone { IfErr result IsOfNoByte }
    ensures cause { MatchResult result (λ _. S.faults source.new ≡ S.faults source.old)
        (λ fault. CountsFault fault (S.faults source.old) (S.faults source.new)) }
    ensures told { StillTells (S.left source.old) (S.left source.new) }
{
    let mut input = Vec::new(alloc);
    let mut piece = zeros(alloc, PIECE_LEN)?;
    while input.len() <= most {
        let room = (most + 1 - input.len()).min(PIECE_LEN);
        let taken = take_into(source, &mut piece[..room], &mut input)?;
        if taken == 0 {
            return Ok(input);
        }
    }
    Ok(input)
}

/// Takes bytes from a source through a piece, and adds them to the input.
fn take_into<S: Source>(
    source: &mut S,
    piece: &mut [u8],
    input: &mut Vec<u8>,
) -> Result<usize, TraceFault>
    requires { 0 < length piece.old }
    ensures added { IfOk result (λ k. IfSome (S.left source.old) (λ bytes.
        Adds k bytes input.old.items input.new.items (S.left source.new))) }
    ensures len { IfOk result (λ k.
        (k ≤ length piece.old) × (vec_len input.new ≡ vec_len input.old + k)) }
    ensures end { IfOk result (λ k. k ≡ 0 → IsAtEnd (S.left source.old) (S.left source.new)) }
    ensures few { IfErr result (λ fault.
        TookFew fault (length piece.old) (S.left source.old) (S.left source.new)) }
    ensures cause_alone { IfErr result IsOfNoByte }
    ensures cause { MatchResult result (λ _. S.faults source.new ≡ S.faults source.old)
        (λ fault. CountsFault fault (S.faults source.old) (S.faults source.new)) }
    ensures told { StillTells (S.left source.old) (S.left source.new) }
{
    let taken = source.take(piece)?;
    input.extend_from_slice(&piece[..taken])?;
    Ok(taken)
}

fn zeros(alloc: Global, len: usize) -> Result<Vec<u8>, AllocError>
    ensures { IfOk result (λ zeros. vec_len zeros ≡ len) }
{
    vec![in alloc; 0u8; len]
}
