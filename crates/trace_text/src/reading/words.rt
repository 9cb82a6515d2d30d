//! The words that a line after the header begins with.

ghost use Rattle.std.specs.Prelude.{◌≡◌};
ghost use Rattle.trace_text.specs.Words.{word_at, word_in, has_word, is_command};

use block_store::Width;

/// The first token of a line after the header.
#[derive(Clone, Copy, Debug, PartialEq, Eq)]
pub enum Word {
    Thread,
    End,
    New,
    Arr,
    Set,
    Nil,
    Mov,
    Get,
    Put,
    Len,
    Same,
    Say,
    Swap,
    Cas,
    Idle,
}

impl Word {
    /// Whether a command begins with this word.
    pub fn is_command(self) -> bool
        ensures { result ≡ is_command self }
    {
        !matches!(self, Word::Thread | Word::End)
    }

    /// Whether jobs whose blocks have this width have this word.
    fn is_of(self, width: Width) -> bool
        ensures { result ≡ has_word width self }
    {
        match self {
            Word::Swap | Word::Cas | Word::Idle => matches!(width, Width::Eight),
            _ => true,
        }
    }
}

/// The word that a token is.
fn word_of(token: &[u8]) -> Option<Word>
    ensures { result ≡ word_at token.now }
{
    match token {
        b"get" => Some(Word::Get),
        b"put" => Some(Word::Put),
        b"new" => Some(Word::New),
        b"arr" => Some(Word::Arr),
        b"set" => Some(Word::Set),
        b"mov" => Some(Word::Mov),
        b"nil" => Some(Word::Nil),
        b"len" => Some(Word::Len),
        b"same" => Some(Word::Same),
        b"say" => Some(Word::Say),
        b"swap" => Some(Word::Swap),
        b"cas" => Some(Word::Cas),
        b"idle" => Some(Word::Idle),
        b"thread" => Some(Word::Thread),
        b"end" => Some(Word::End),
        _ => None,
    }
}

/// The word that a token is in a job whose blocks have this width.
pub fn word_in(width: Width, token: &[u8]) -> Option<Word>
    ensures { result ≡ word_in width token.now }
{
    let word = word_of(token)?;
    word.is_of(width).then_some(word)
}
