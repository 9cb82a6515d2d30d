//! A whole script.

ghost use Rattle.std.specs.Prelude.{◌≡◌, ◌+◌, ◌≤◌, ◌<◌, ◌^◌, Some, [], length, map, IfOk, IfErr};
ghost use Rattle.trace_text.specs.Reading.{tokenized};
ghost use Rattle.array_scripts.specs.scripts.Scripts.{Among, Reads, bad_line};
ghost use Rattle.array_scripts.specs.Kinds.{language, IsHeader, Fits, IsScriptOf};
ghost use Rattle.array_scripts.specs.Parts.{Blames, HasTold, IsFirstBad, IsTurned, IsTurn};

use crate::header::Header;
use crate::kinds::Scripted;
use crate::line::{Line, line_of};
use block_store::OutOfMemory;
use exit_statuses::Refusal;
use std::alloc::{AllocFailed, Global};
use trace_text::first_line;

/// Why an input is no script.
#[derive(Clone, Copy, Debug, PartialEq, Eq)]
pub enum Fault {
    /// The first line that is not allowed at its place.
    BadLine(u64),
    /// There was no room.
    OutOfMemory,
}

impl From<OutOfMemory> for Fault {
    ghost use Rattle.array_scripts.specs.declared.script.Fault.TheVariants as faults;

    ghost from_gives = { λ _ e. e ≡ faults.OutOfMemory };

    fn from(_error: OutOfMemory) -> Fault {
        Fault::OutOfMemory
    }
}

impl<T: Drop> From<AllocFailed<T>> for Fault {
    ghost use Rattle.array_scripts.specs.declared.script.Fault.TheVariants as faults;

    ghost from_gives = { λ _ e. e ≡ faults.OutOfMemory };

    fn from(_error: AllocFailed<T>) -> Fault {
        Fault::OutOfMemory
    }
}

impl From<Fault> for Refusal {
    ghost use Rattle.array_scripts.specs.Parts.{refusal_of};

    ghost from_gives = { λ fault refusal. refusal ≡ refusal_of fault };

    fn from(fault: Fault) -> Refusal {
        match fault {
            Fault::BadLine(line) => Refusal::BadScriptLine { line },
            Fault::OutOfMemory => Refusal::OutOfMemory,
        }
    }
}

/// The operations of a thread, after so many thread lines, up to the line that is none.
fn operations_of<'a, K: Scripted>(
    alloc: Global,
    header: &Header,
    threads: usize,
    input: &'a [u8],
    first: u64,
) -> Result<(K::Before, Line<K::Operation>, &'a [u8], u64), Fault>
    requires { first + length input.now < 2 ^ 40 }
    ensures turned { IfOk result (λ x. IsTurned K.kind header.now threads first
        (tokenized input.now) (K.ops x.0) x.1 x.3 (tokenized x.2.now)) }
    ensures turn { IfOk result (λ x. IsTurn x.1) }
    ensures shorter { IfOk result (λ x. length x.2.now < length input.now) }
    ensures within { IfOk result (λ x. x.3 + length x.2.now ≤ first + length input.now) }
    ensures bad { IfErr result (Blames (λ n. bad_line (language K.kind)
        (Among header.now threads []) first (tokenized input.now) ≡ Some n)) }
{
    let mut ops = K::none(alloc);
    let mut lines = input;
    let mut read = first;
    while let Some((line, after)) = first_line(lines) {
        let Some(said) = line_of::<K>(header, threads, &ops, line) else {
            return Err(Fault::BadLine(read));
        };
        read += 1;
        let Line::Told(op) = said else {
            return Ok((ops, said, after, read));
        };
        K::push(&mut ops, op)?;
        lines = after;
    }
    Err(Fault::BadLine(read))
}

/// The scripts of the threads, by the lines after the header.
fn scripts_of<K: Scripted>(
    alloc: Global,
    header: &Header,
    input: &[u8],
) -> Result<Vec<Vec<K::Operation>>, Fault>
    requires { length input.now < 2 ^ 39 }
    ensures told { IfOk result (λ v. HasTold K.kind header.now (tokenized input.now)
        (map (λ ops. ops.items) v.items)) }
    ensures bad { IfErr result (Blames (λ n. bad_line (language K.kind) (Among header.now 0 []) 2
        (tokenized input.now) ≡ Some n)) }
{
    let mut scripts = Vec::new(alloc);
    let (_none, first, behind, next) = operations_of::<K>(alloc, header, 0, input, 2)?;
    let mut line = first;
    let mut rest = behind;
    let mut read = next;
    while let Line::Thread(_) = line {
        let (ops, after, others, number) = operations_of::<K>(
            alloc,
            header,
            scripts.len() + 1,
            rest,
            read,
        )?;
        scripts.push(K::into_ops(ops))?;
        line = after;
        rest = others;
        read = number;
    }
    if first_line(rest).is_some() {
        return Err(Fault::BadLine(read));
    }
    Ok(scripts)
}

/// The script that an input is.
///
/// # Errors
///
/// The first line that is not allowed at its place, and want of memory.
pub fn script_of<K: Scripted>(
    alloc: Global,
    input: &[u8],
) -> Result<(Header, Vec<Vec<K::Operation>>), Fault>
    requires few { length input.now < 2 ^ 39 }
    requires reads { Reads (language K.kind) (IsHeader K.kind) (Fits K.kind) }
    ensures script { IfOk result (λ x. IsScriptOf K.kind input.now x.0
        (map (λ ops. ops.items) x.1.items)) }
    ensures bad { IfErr result (Blames (IsFirstBad K.kind (tokenized input.now))) }
{
    let Some((line, rest)) = first_line(input) else {
        return Err(Fault::BadLine(1));
    };
    let Some(header) = K::header_of(line) else {
        return Err(Fault::BadLine(1));
    };
    let scripts = scripts_of::<K>(alloc, &header, rest)?;
    Ok((header, scripts))
}
