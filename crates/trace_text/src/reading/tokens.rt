//! The lines of an input, and the tokens of a line.

ghost use Rattle.std.specs.Prelude.{◌≡◌, ◌+◌, drop, ◌==◌, ◌<◌, ◌∷◌, length, position, IfSome};
ghost use Rattle.std.specs.Option.{option_copied};
ghost use Rattle.trace_text.specs.Lines.{lines_of, tokens_of};
ghost use Rattle.trace_text.specs.Reading.{Gives, parted, tokenized, tokens_left, no_more_of, one_token_of, two_tokens_of, three_tokens_of, four_tokens_of};

use memchr::memchr;

/// The first line of an input, and what comes after it. An empty input has no line.
pub fn first_line(input: &[u8]) -> Option<(&[u8], &[u8])>
    ensures bytes { Gives (λ x. (x.0.now, lines_of x.1.now)) result (parted (lines_of input.now)) }
    ensures lines { Gives (λ x. (tokens_of x.0.now, tokenized x.1.now)) result
        (parted (tokenized input.now)) }
    ensures split { IfSome result (λ x. x.1.now ≡ drop (length x.0.now + 1) input.now) }
    ensures shorter { IfSome result (λ x. length x.1.now < length input.now) }
{
    if input.is_empty() {
        return None;
    }
    match memchr(b'\n', input) {
        Some(end) => Some((&input[..end], &input[end + 1..])),
        None => Some((input, &[])),
    }
}

/// Where a byte is first.
fn index_of(bytes: &[u8], sought: u8) -> Option<usize>
    ensures { result ≡ position (λ b. b == sought) bytes.now }
{
    bytes.iter().position(|byte| *byte == sought)
}

/// The first token of a line, and the rest of the line where it has more tokens.
pub fn first_token(line: &[u8]) -> (&[u8], Option<&[u8]>)
    ensures { tokens_of line.now ≡ result.0.now ∷ tokens_left (option_copied result.1) }
{
    match index_of(line, b' ') {
        Some(end) => (&line[..end], Some(&line[end + 1..])),
        None => (line, None),
    }
}

/// That no token is left.
#[tactic(auto, unfolding(crate::specs::Reading::no_more_of), using(crate::proofs::TokenCount::some_more))]
pub fn no_more(tokens: Option<&[u8]>) -> Option<()>
    ensures { result ≡ no_more_of (tokens_left (option_copied tokens.entry)) }
{
    match tokens {
        None => Some(()),
        Some(_) => None,
    }
}

/// The one token.
#[tactic(auto, unfolding(crate::specs::Reading::one_token_of))]
pub fn one_token(tokens: Option<&[u8]>) -> Option<&[u8]>
    ensures { Gives (λ x. x.now) result (one_token_of (tokens_left (option_copied tokens.entry))) }
{
    let (token, others) = first_token(tokens?);
    no_more(others)?;
    Some(token)
}

/// The two tokens.
#[tactic(auto, unfolding(crate::specs::Reading::two_tokens_of))]
pub fn two_tokens(tokens: Option<&[u8]>) -> Option<(&[u8], &[u8])>
    ensures { Gives (λ x. (x.0.now, x.1.now)) result
        (two_tokens_of (tokens_left (option_copied tokens.entry))) }
{
    let (first, others) = first_token(tokens?);
    Some((first, one_token(others)?))
}

/// The three tokens.
#[tactic(auto, unfolding(crate::specs::Reading::three_tokens_of))]
pub fn three_tokens(tokens: Option<&[u8]>) -> Option<(&[u8], &[u8], &[u8])>
    ensures { Gives (λ x. (x.0.now, x.1.now, x.2.now)) result
        (three_tokens_of (tokens_left (option_copied tokens.entry))) }
{
    let (first, others) = first_token(tokens?);
    let (second, third) = two_tokens(others)?;
    Some((first, second, third))
}

/// The four tokens.
#[tactic(auto, unfolding(crate::specs::Reading::four_tokens_of))]
pub fn four_tokens(tokens: Option<&[u8]>) -> Option<(&[u8], &[u8], &[u8], &[u8])>
    ensures { Gives (λ x. (x.0.now, x.1.now, x.2.now, x.3.now)) result
        (four_tokens_of (tokens_left (option_copied tokens.entry))) }
{
    let (first, others) = first_token(tokens?);
    let (second, third, fourth) = three_tokens(others)?;
    Some((first, second, third, fourth))
}
