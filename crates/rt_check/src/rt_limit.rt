//! Which heap a job needs: how many blocks are live at most, and how many blocks a rate costs.

mod blocks;
mod counts;
mod laws;
mod orders;
mod prices;
mod texts;
mod top;

pub use blocks::least_blocks;
pub use counts::Figures;
pub use laws::{enough_is_never_full, most_live_is_the_greatest};
pub use prices::{near_other_turns, near_turns};
pub use top::{LimitExit, limit};
