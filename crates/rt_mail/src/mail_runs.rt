//! A job on threads that send the numbers which they say, and a caller that takes them.

mod letters;
mod mail_board;
mod mail_thread;
mod receiving;
mod spawned;

pub use letters::{deliver, deliver_through};
