//! The lines after the header.

ghost use Rattle.std.specs.Prelude.{◌≡◌, ◌<◌, ◌∷◌, [], IfOk};
ghost use Rattle.std.specs.Option.{option_copied};
ghost use Rattle.block_store.specs.declared.Width.TheVariants as Width;
ghost use Rattle.trace_text.specs.Lines.{tokens_of};
ghost use Rattle.trace_text.specs.Reading.{tokens_left};
ghost use Rattle.trace_text.specs.Said.{Tells, HasRegisters, IsOfWidth, spelled, numbers_at, register_at, length_at, fitted, operands_at, line_at};
ghost use Rattle.trace_text.specs.declared.reading.words.Word.TheVariants as words;

use crate::reading::numbers::number_of;
use crate::reading::tokens::{
    first_token, four_tokens, no_more, one_token, three_tokens, two_tokens,
};
use crate::reading::words::{Word, word_in};
use crate::trace_faults::Why;
use block_store::{Config, REGISTERS};
use never_heap::Command;

/// What a line after the header says.
#[derive(Clone, Copy, Debug, PartialEq, Eq)]
pub enum Line {
    /// The commands of the thread with this number follow.
    Thread(u64),
    /// The job ends.
    End,
    /// The thread's next command.
    Told(Command),
}

/// What is known before a line, none of the lines before it being that of the end.
#[derive(Clone, Copy, Debug, PartialEq, Eq)]
pub struct Place {
    /// What the header says.
    pub config: Config,
    /// How many threads had their line.
    pub threads: u32,
    /// Whether the last of them has as many commands as a thread may have.
    pub full: bool,
}

/// What a line says: a thread, the end, or a command, each in its turn and with its numbers in
/// their ranges.
#[tactic(auto, unfolding(crate::specs::Said::line_at))]
pub fn line_of(place: &Place, line: &[u8]) -> Result<Line, Why>
    ensures { result ≡ line_at place.now (tokens_of line.now) }
{
    let (first, operands) = first_token(line);
    let word = word_in(place.config.width, first).ok_or(Why::Word)?;
    if word.is_command() && place.threads == 0 {
        return Err(Why::Order);
    }
    match word {
        Word::Thread => thread_of(place, operands),
        Word::End => end_of(place, operands),
        Word::New => new_of(place, operands),
        Word::Arr => arr_of(place, operands),
        Word::Set => set_of(place, operands),
        Word::Nil => nil_of(place, operands),
        Word::Mov => mov_of(place, operands),
        Word::Get => get_of(place, operands),
        Word::Put => put_of(place, operands),
        Word::Len => len_of(place, operands),
        Word::Same => same_of(place, operands),
        Word::Say => say_of(place, operands),
        Word::Swap => swap_of(place, operands),
        Word::Cas => cas_of(place, operands),
        Word::Idle => idle_of(place, operands),
    }
}

#[tactic(auto, unfolding(crate::specs::Said::operands_at, crate::specs::Said::told_at))]
fn thread_of(place: &Place, operands: Option<&[u8]>) -> Result<Line, Why>
    ensures { result ≡
        operands_at place.now words.Thread (tokens_left (option_copied operands.entry)) }
{
    let thread = one_number(operands)?;
    if thread != u64::from(place.threads) || place.threads == place.config.threads {
        return Err(Why::Order);
    }
    Ok(Line::Thread(thread))
}

#[tactic(auto, unfolding(crate::specs::Said::operands_at, crate::specs::Said::told_at))]
fn end_of(place: &Place, operands: Option<&[u8]>) -> Result<Line, Why>
    ensures { result ≡
        operands_at place.now words.End (tokens_left (option_copied operands.entry)) }
{
    no_number(operands)?;
    if place.threads != place.config.threads {
        return Err(Why::Order);
    }
    Ok(Line::End)
}

#[tactic(auto, unfolding(crate::specs::Said::operands_at, crate::specs::Said::told_at))]
fn new_of(place: &Place, operands: Option<&[u8]>) -> Result<Line, Why>
    ensures { result ≡
        operands_at place.now words.New (tokens_left (option_copied operands.entry)) }
{
    let (d, fields) = two_numbers(operands)?;
    let d = register(d)?;
    let fields = length(fields)?;
    told(place, Command::New { d, fields })
}

#[tactic(auto, unfolding(crate::specs::Said::operands_at, crate::specs::Said::told_at))]
fn arr_of(place: &Place, operands: Option<&[u8]>) -> Result<Line, Why>
    ensures { result ≡
        operands_at place.now words.Arr (tokens_left (option_copied operands.entry)) }
{
    let (d, elements) = two_numbers(operands)?;
    let d = register(d)?;
    let elements = length(elements)?;
    told(place, Command::Arr { d, elements })
}

#[tactic(auto, unfolding(crate::specs::Said::operands_at, crate::specs::Said::told_at))]
fn set_of(place: &Place, operands: Option<&[u8]>) -> Result<Line, Why>
    ensures { result ≡
        operands_at place.now words.Set (tokens_left (option_copied operands.entry)) }
{
    let (d, value) = two_numbers(operands)?;
    let d = register(d)?;
    told(place, Command::Set { d, value })
}

#[tactic(auto, unfolding(crate::specs::Said::operands_at, crate::specs::Said::told_at))]
fn nil_of(place: &Place, operands: Option<&[u8]>) -> Result<Line, Why>
    ensures { result ≡
        operands_at place.now words.Nil (tokens_left (option_copied operands.entry)) }
{
    let d = one_number(operands)?;
    let d = register(d)?;
    told(place, Command::Nil { d })
}

#[tactic(auto, unfolding(crate::specs::Said::operands_at, crate::specs::Said::told_at))]
fn mov_of(place: &Place, operands: Option<&[u8]>) -> Result<Line, Why>
    ensures { result ≡
        operands_at place.now words.Mov (tokens_left (option_copied operands.entry)) }
{
    let (d, s) = two_numbers(operands)?;
    let d = register(d)?;
    let s = register(s)?;
    told(place, Command::Mov { d, s })
}

#[tactic(auto, unfolding(crate::specs::Said::operands_at, crate::specs::Said::told_at))]
fn get_of(place: &Place, operands: Option<&[u8]>) -> Result<Line, Why>
    ensures { result ≡
        operands_at place.now words.Get (tokens_left (option_copied operands.entry)) }
{
    let (d, s, i) = three_numbers(operands)?;
    let d = register(d)?;
    let s = register(s)?;
    told(place, Command::Get { d, s, i })
}

#[tactic(auto, unfolding(crate::specs::Said::operands_at, crate::specs::Said::told_at))]
fn put_of(place: &Place, operands: Option<&[u8]>) -> Result<Line, Why>
    ensures { result ≡
        operands_at place.now words.Put (tokens_left (option_copied operands.entry)) }
{
    let (s, i, v) = three_numbers(operands)?;
    let s = register(s)?;
    let v = register(v)?;
    told(place, Command::Put { s, i, v })
}

#[tactic(auto, unfolding(crate::specs::Said::operands_at, crate::specs::Said::told_at))]
fn len_of(place: &Place, operands: Option<&[u8]>) -> Result<Line, Why>
    ensures { result ≡
        operands_at place.now words.Len (tokens_left (option_copied operands.entry)) }
{
    let s = one_number(operands)?;
    let s = register(s)?;
    told(place, Command::Len { s })
}

#[tactic(auto, unfolding(crate::specs::Said::operands_at, crate::specs::Said::told_at))]
fn same_of(place: &Place, operands: Option<&[u8]>) -> Result<Line, Why>
    ensures { result ≡
        operands_at place.now words.Same (tokens_left (option_copied operands.entry)) }
{
    let (a, b) = two_numbers(operands)?;
    let a = register(a)?;
    let b = register(b)?;
    told(place, Command::Same { a, b })
}

#[tactic(auto, unfolding(crate::specs::Said::operands_at, crate::specs::Said::told_at))]
fn say_of(place: &Place, operands: Option<&[u8]>) -> Result<Line, Why>
    ensures { result ≡
        operands_at place.now words.Say (tokens_left (option_copied operands.entry)) }
{
    let s = one_number(operands)?;
    let s = register(s)?;
    told(place, Command::Say { s })
}

#[tactic(auto, unfolding(crate::specs::Said::operands_at, crate::specs::Said::told_at))]
fn swap_of(place: &Place, operands: Option<&[u8]>) -> Result<Line, Why>
    requires { place.now.config.width ≡ Width.Eight }
    ensures { result ≡
        operands_at place.now words.Swap (tokens_left (option_copied operands.entry)) }
{
    let (s, i, v) = three_numbers(operands)?;
    let s = register(s)?;
    let v = register(v)?;
    told(place, Command::Swap { s, i, v })
}

#[tactic(auto, unfolding(crate::specs::Said::operands_at, crate::specs::Said::told_at))]
fn cas_of(place: &Place, operands: Option<&[u8]>) -> Result<Line, Why>
    requires { place.now.config.width ≡ Width.Eight }
    ensures { result ≡
        operands_at place.now words.Cas (tokens_left (option_copied operands.entry)) }
{
    let (s, i, a, v) = four_numbers(operands)?;
    let s = register(s)?;
    let a = register(a)?;
    let v = register(v)?;
    told(place, Command::Cas { s, i, a, v })
}

#[tactic(auto, unfolding(crate::specs::Said::operands_at, crate::specs::Said::told_at))]
fn idle_of(place: &Place, operands: Option<&[u8]>) -> Result<Line, Why>
    requires { place.now.config.width ≡ Width.Eight }
    ensures { result ≡
        operands_at place.now words.Idle (tokens_left (option_copied operands.entry)) }
{
    let units = one_number(operands)?;
    told(place, Command::Idle { units })
}

/// The command, where its sizes are in their ranges and the thread may have one more.
#[inline(always)]
#[tactic(auto, using(crate::proofs::Sizes::told_is))]
fn told(place: &Place, command: Command) -> Result<Line, Why>
    requires registers { HasRegisters command }
    requires version { IsOfWidth place.now.config.width command }
    ensures { result ≡ fitted place.now command }
{
    let fits = command.in_bounds(&place.config);
    if !fits || place.full {
        return Err(Why::Size);
    }
    Ok(Line::Told(command))
}

/// The register of a number.
fn register(number: u64) -> Result<u8, Why>
    ensures at { result ≡ register_at number }
    ensures low { IfOk result (λ r. r < REGISTERS) }
{
    if number >= u64::from(REGISTERS) {
        return Err(Why::Register);
    }
    Ok(number as u8)
}

/// The length that a number is.
fn length(number: u64) -> Result<u32, Why>
    ensures { result ≡ length_at number }
{
    if number > u64::from(u32::MAX) {
        return Err(Why::Size);
    }
    Ok(number as u32)
}

/// That no token is left.
#[tactic(auto, using(crate::proofs::Numbers::none_is))]
fn no_number(tokens: Option<&[u8]>) -> Result<(), Why>
    ensures { Tells (λ _. []) result (numbers_at 0 (tokens_left (option_copied tokens.entry))) }
{
    no_more(tokens).ok_or(Why::Count)
}

/// The number that the one token spells.
#[tactic(auto, using(crate::proofs::Numbers::one_is))]
fn one_number(tokens: Option<&[u8]>) -> Result<u64, Why>
    ensures { Tells (λ n. n ∷ []) result (numbers_at 1 (tokens_left (option_copied tokens.entry))) }
{
    spelled(one_token(tokens).ok_or(Why::Count)?)
}

/// The numbers that the two tokens spell.
#[tactic(auto, using(crate::proofs::Numbers::two_is))]
fn two_numbers(tokens: Option<&[u8]>) -> Result<(u64, u64), Why>
    ensures { Tells (λ n. n.0 ∷ n.1 ∷ []) result
        (numbers_at 2 (tokens_left (option_copied tokens.entry))) }
{
    let (first, second) = two_tokens(tokens).ok_or(Why::Count)?;
    Ok((spelled(first)?, spelled(second)?))
}

/// The numbers that the three tokens spell.
#[tactic(auto, using(crate::proofs::Numbers::three_is))]
fn three_numbers(tokens: Option<&[u8]>) -> Result<(u64, u64, u64), Why>
    ensures { Tells (λ n. n.0 ∷ n.1 ∷ n.2 ∷ []) result
        (numbers_at 3 (tokens_left (option_copied tokens.entry))) }
{
    let (first, second, third) = three_tokens(tokens).ok_or(Why::Count)?;
    Ok((spelled(first)?, spelled(second)?, spelled(third)?))
}

/// The numbers that the four tokens spell.
#[tactic(auto, using(crate::proofs::Numbers::four_is))]
fn four_numbers(tokens: Option<&[u8]>) -> Result<(u64, u64, u64, u64), Why>
    ensures { Tells (λ n. n.0 ∷ n.1 ∷ n.2 ∷ n.3 ∷ []) result
        (numbers_at 4 (tokens_left (option_copied tokens.entry))) }
{
    let (first, second, third, fourth) = four_tokens(tokens).ok_or(Why::Count)?;
    Ok((
        spelled(first)?,
        spelled(second)?,
        spelled(third)?,
        spelled(fourth)?,
    ))
}

/// The number that a token spells.
pub fn spelled(token: &[u8]) -> Result<u64, Why>
    ensures { result ≡ spelled token.now }
{
    number_of(token).ok_or(Why::Number)
}
