//! A line in an array of fixed length, which is made from its end to its beginning.

ghost use Rattle.std.specs.Prelude.{◌≡◌, ◌+◌, ◌≤◌, [], ◌++◌, length, decimal};

use std::marker::Model;

/// How many bytes a line may have.
const ROOM: usize = 128;

/// A line of at most 128 bytes, made from its end: more is put in front. Made so, a number's digits
/// go to their place at once: where they end is known, and where they begin is not.
#[derive(Drop)]
pub struct LineBuffer {
    bytes: [u8; ROOM],
    start: usize,
}

impl Model for LineBuffer {
    ghost use Rattle.std.specs.Prelude.{◌≤◌, List, ℕ, drop};

    ghost Value = { List ℕ };

    ghost view = { λ a. drop a.start a.bytes };

    ghost invariant = { λ a. a.start ≤ 128 };
}

impl LineBuffer {
    /// An empty end.
    pub fn new() -> LineBuffer
        ensures { result ≡ [] }
    {
        LineBuffer {
            bytes: [0; ROOM],
            start: ROOM,
        }
    }

    /// Leaves an empty end.
    pub fn clear(&mut self)
        ensures { self.new ≡ [] }
    {
        self.start = ROOM;
    }

    /// The line as far as it is made.
    pub fn bytes(&self) -> &[u8]
        ensures { result.now ≡ self.now }
    {
        &self.bytes[self.start..]
    }

    /// Puts a text in front.
    pub fn prepend(&mut self, text: &[u8])
        requires { length text.now + length self.old ≤ 128 }
        ensures text { self.new ≡ text.now ++ self.old }
        ensures length { length self.new ≡ length text.now + length self.old }
    {
        let start = self.start - text.len();
        self.bytes[start..self.start].copy_from_slice(text);
        self.start = start;
    }

    /// Puts a number in front, in decimal digits.
    pub fn prepend_number(&mut self, number: u64)
        requires { 20 + length self.old ≤ 128 }
        ensures text { self.new ≡ decimal number ++ self.old }
        ensures length { length self.new ≤ 20 + length self.old }
    {
        self.start = itoa::write_digits(number, &mut self.bytes, self.start);
    }

    /// The same of a number of at most 10 digits.
    pub fn prepend_short_number(&mut self, number: u32)
        requires { 10 + length self.old ≤ 128 }
        ensures text { self.new ≡ decimal number ++ self.old }
        ensures length { length self.new ≤ 10 + length self.old }
    {
        self.start = itoa::write_digits(u64::from(number), &mut self.bytes, self.start);
    }
}
