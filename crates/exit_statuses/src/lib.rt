//! How the call of a program ends that reads one text at most: why it is refused, with which status
//! and line, and what a call is to answer.
#![tactic(auto)]

mod program;
mod program_words;
mod reading;
mod refusal;
mod telling;

pub use program::Program;
pub use program_words::{Question, words_of};
pub use reading::text_of;
pub use refusal::Refusal;
pub use telling::refused;
