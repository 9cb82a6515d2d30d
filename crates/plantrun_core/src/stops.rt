//! Why a plant stops before its end, and the line that says so.

ghost use Rattle.std.specs.Prelude.{◌≡◌, ◌≢◌, ◌≤◌, ◌++◌, length};
ghost use Rattle.plantrun_core.specs.Exits.{status_of, stop_line, stop_text};

use trace_text::LineBuffer;

/// Why a plant stops before its end.
#[derive(Clone, Copy, Debug, PartialEq, Eq)]
pub enum Stop {
    /// This line of the input, from 1, is the first that is no reading.
    BadLine { line: u64 },
    /// The input has more readings than 2 for each tick and 64.
    TooMany,
    /// The input failed.
    ReadFault,
    /// Memory ran out.
    NoMemory,
}

impl Stop {
    /// The exit status of a program that stops so.
    pub fn status(self) -> u8
        ensures status { result ≡ status_of self }
        ensures fault { result ≢ 6 }
    {
        match self {
            Stop::BadLine { .. } => 3,
            Stop::TooMany => 4,
            Stop::ReadFault => 5,
            Stop::NoMemory => 7,
        }
    }

    /// The line that the program writes where it stops so, with its line feed.
    pub fn line(self) -> LineBuffer
        ensures { result ≡ stop_line self }
    {
        let mut line = LineBuffer::new();
        line.prepend(b"\n");
        self.prepend_text(&mut line);
        line.prepend(b"plantrun: ");
        line
    }

    fn prepend_text(self, line: &mut LineBuffer)
        requires { length line.old ≤ 1 }
        ensures text { line.new ≡ stop_text self ++ line.old }
        ensures length { length line.new ≤ 80 }
    {
        match self {
            Stop::BadLine { line: number } => {
                line.prepend(b": no reading");
                line.prepend_number(number);
                line.prepend(b"line ");
            }
            Stop::TooMany => line.prepend(b"too many readings"),
            Stop::ReadFault => line.prepend(b"read fault"),
            Stop::NoMemory => line.prepend(b"no memory"),
        }
    }
}
