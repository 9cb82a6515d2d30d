//! Heaps for programs in C: of one thread, and of several. Each export is a call that `c/rtheap.h`
//! or `c/rtheap_shared.h` declares.
#![tactic(auto)]

mod answer;
mod buffers;
mod exports;
mod handle;
mod laws;
mod link;
mod needs;
mod owned;
mod peeks;
mod saves;
mod shared;
mod texts;

pub use answer::{Answer, Refusal};
pub use handle::{Handle, OpenRefusal};
pub use laws::{
    calls_are_requests, handles_cross, numbers_read_back, openings_tell,
    registers_are_not_truncated, statuses_tell,
};
pub use needs::{Limits, RaiseRefusal};
pub use owned::{Executing, Group, Owned, Resting};
pub use peeks::PeekRefusal;
pub use saves::{LoadRefusal, SaveRefusal};
pub use texts::TextRefusal;
