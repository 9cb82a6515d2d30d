//! The jobs by which boards are tested, the pace by which two of their threads meet, and what the
//! logs of these jobs must be in any order of the threads.

mod exchanges;
mod meeting;
mod rounds;
mod traces;

pub use exchanges::{SHARING, TRIES, counting, swapping};
pub use meeting::{MEETING, Meeting, have_said, two_says};
pub use rounds::{RATE, TWO, are_right, job};
