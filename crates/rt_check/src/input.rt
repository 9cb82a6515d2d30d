//! The two parts of an input.

ghost use Rattle.std.specs.Prelude.{◌≡◌};
ghost use Rattle.rt_check.specs.Inputs.{job_part, order_part};

use trace_text::first_line;

/// The bytes of the job, up to and with the first line that is `end`, and those of the order.
pub fn parted(input: &[u8]) -> (&[u8], &[u8])
    ensures job { result.0.now ≡ job_part input.now }
    ensures order { result.1.now ≡ order_part input.now }
{
    let order = order_of(input);
    input.split_at(input.len() - order.len())
}

/// The bytes after the first line that is `end`.
fn order_of(input: &[u8]) -> &[u8]
    ensures { result.now ≡ order_part input.now }
{
    let mut rest = input;
    while let Some((line, after)) = first_line(rest) {
        if line == b"end".as_slice() {
            return after;
        }
        rest = after;
    }
    rest
}
