//! The words after a program's name, and what every program of this repository answers to `--help`
//! and `--version`.

ghost use Rattle.std.specs.Prelude.{◌∷◌, [], map, codes, string_bytes, IfSome, IfNone, ◌≡◌, cond};
ghost use Rattle.exit_statuses.specs.program_words.Questions.{AsksFor, Ask, answer_to};

use std::alloc::AllocError;
use std::env;
use std::io::ErrorKind;
use std::rt::Env;

/// What a program is asked for about itself.
#[derive(Clone, Copy, Debug, PartialEq, Eq)]
pub enum Question {
    Help,
    Version,
}

impl Question {
    /// What the words ask for, if they are one word that does: `--help`, `-h` or `--version`.
    pub fn of(words: &[String]) -> Option<Question>
        ensures asked { IfSome result (AsksFor (map (λ w. string_bytes w) words.now)) }
        ensures none { IfNone result (Ask (map (λ w. string_bytes w) words.now) → ⊥) }
    {
        match words {
            [word] => Question::of_word(word.as_str()),
            _ => None,
        }
    }

    fn of_word(word: &str) -> Option<Question>
        ensures asked { IfSome result (AsksFor (word.now ∷ [])) }
        ensures none { IfNone result (Ask (word.now ∷ []) → ⊥) }
    {
        match word {
            "--help" | "-h" => Some(Question::Help),
            "--version" => Some(Question::Version),
            _ => None,
        }
    }

    /// The one of two texts that answers the question.
    pub fn answer<'a>(self, help: &'a str, version: &'a str) -> &'a str
        ensures { result.now ≡ answer_to self help.now version.now }
    {
        match self {
            Question::Help => help,
            Question::Version => version,
        }
    }
}

/// The words after the program's name. If one of them is not UTF-8, they are a single empty word,
/// which no program takes.
pub fn words_of<R: Env + AllocGlobal>(rt: &R) -> Result<Vec<String>, AllocError> {
    match env::args(rt) {
        Ok(args) => args.skip(1).collect(rt.alloc()),
        Err(e) if e.kind() == ErrorKind::OutOfMemory => Err(AllocError),
        Err(_) => vec![in rt.alloc(); String::new(rt.alloc())].map_err(|_| AllocError),
    }
}
