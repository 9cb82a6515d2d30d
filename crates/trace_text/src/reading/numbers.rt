//! Numbers in decimal digits.

ghost use Rattle.std.specs.Prelude.{◌≡◌, ◌-◌, ◌≤◌, IsTrue, length};
ghost use Rattle.std.specs.Option.{SomeIff};
ghost use Rattle.trace_text.specs.Reading.{is_digit, digits_on, number_at};

/// The most digits of a number.
const MOST_DIGITS: usize = 19;

/// The number that a token spells: 1 to 19 digits, with a 0 in front only in the number 0.
#[tactic(auto, unfolding(crate::specs::Reading::number_at))]
pub fn number_of(token: &[u8]) -> Option<u64>
    ensures { result ≡ number_at token.now }
{
    if token.is_empty() || token.len() > MOST_DIGITS || (token.len() > 1 && token[0] == b'0') {
        return None;
    }
    value_of(token)
}

/// The value of at most 19 digits, and nothing where a byte is no digit.
fn value_of(digits: &[u8]) -> Option<u64>
    requires { length digits.now ≤ MOST_DIGITS }
    ensures { result ≡ digits_on 0 digits.now }
{
    let mut value = 0;
    for byte in digits {
        let digit = digit_of(*byte)?;
        value = 10 * value + u64::from(digit);
    }
    Some(value)
}

fn digit_of(byte: u8) -> Option<u8>
    ensures { SomeIff result (IsTrue (is_digit byte)) (byte - 48) }
{
    match byte {
        b'0'..=b'9' => Some(byte - b'0'),
        _ => None,
    }
}
