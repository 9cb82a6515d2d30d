//! Two heaps joined by a queue: the threads of one send numbers, and what came of each is kept on
//! the other.
#![tactic(auto)]

mod exit;
mod keeping;
mod limits;
mod mail_post;
mod mail_runs;
mod printing;
mod reading;
mod running;
mod said_numbers;
mod top;

pub use exit::MailExit;
pub use mail_post::{Letter, Post, Sender, Taken, Taker};
pub use mail_runs::{deliver, deliver_through};
pub use said_numbers::{few_numbers_are_said, number_said, said_numbers_are_small, says_of};
pub use top::mail;
