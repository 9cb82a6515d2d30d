//! Letters from a few senders to one taker, through a queue of fixed room.

mod post;
mod rows;
mod rule;
mod views;

pub use post::{Post, Sender, Taken, Taker};
pub use views::Letter;
