//! The lines after a header.

ghost use Rattle.std.specs.Prelude.{◌≡◌, ◌≤◌, ◌<◌, ◌∷◌};
ghost use Rattle.std.specs.Option.{option_copied};
ghost use Rattle.trace_text.specs.Lines.{tokens_of};
ghost use Rattle.trace_text.specs.Reading.{Gives, tokens_left};
ghost use Rattle.array_scripts.specs.Kinds.{line_at, thread_at, end_at, told_at};
ghost use Rattle.array_scripts.specs.Said.{said};

use crate::header::Header;
use crate::kinds::Scripted;
use trace_text::{first_token, no_more, number_of, one_token};

/// What a line after the header says.
#[derive(Clone, Copy, Debug, PartialEq, Eq)]
pub enum Line<O> {
    /// The operations of the thread with this number follow.
    Thread(u64),
    /// The thread's next operation.
    Told(O),
    /// The script ends.
    End,
}

/// What a line says after the lines of so many threads, the last of which has these operations.
#[tactic(auto, unfolding(crate::specs::Kinds::line_at))]
pub fn line_of<K: Scripted>(
    header: &Header,
    threads: usize,
    before: &K::Before,
    line: &[u8],
) -> Option<Line<K::Operation>>
    ensures { Gives said result
        (line_at K.kind header.now threads (K.ops before.now) (tokens_of line.now)) }
{
    let (first, operands) = first_token(line);
    match first {
        b"thread" => thread_of(header, threads, operands),
        b"end" => end_of(header, threads, operands),
        _ => told_of::<K>(header, threads, before, first, operands),
    }
}

/// The line of the next thread.
#[tactic(auto, unfolding(crate::specs::Kinds::thread_at))]
fn thread_of<O>(header: &Header, threads: usize, operands: Option<&[u8]>) -> Option<Line<O>>
    ensures { Gives said result
        (thread_at header.now threads (tokens_left (option_copied operands.entry))) }
{
    let token = one_token(operands)?;
    let thread = number_of(token)?;
    if thread != threads as u64 || threads >= header.threads as usize {
        return None;
    }
    Some(Line::Thread(thread))
}

/// The end, after the last thread.
#[tactic(auto, unfolding(crate::specs::Kinds::end_at))]
fn end_of<O>(header: &Header, threads: usize, operands: Option<&[u8]>) -> Option<Line<O>>
    ensures { Gives said result
        (end_at header.now threads (tokens_left (option_copied operands.entry))) }
{
    no_more(operands)?;
    if threads != header.threads as usize {
        return None;
    }
    Some(Line::End)
}

/// An operation, after a thread's line and fewer others than a thread may have.
#[tactic(auto, unfolding(crate::specs::Kinds::told_at))]
fn told_of<K: Scripted>(
    header: &Header,
    threads: usize,
    before: &K::Before,
    first: &[u8],
    operands: Option<&[u8]>,
) -> Option<Line<K::Operation>>
    ensures { Gives said result (told_at K.kind header.now threads (K.ops before.now)
        (first.now ∷ tokens_left (option_copied operands.entry))) }
{
    if threads == 0 || !K::has_room(before) {
        return None;
    }
    let op = K::operation_of(header.places, before, first, operands)?;
    Some(Line::Told(op))
}
