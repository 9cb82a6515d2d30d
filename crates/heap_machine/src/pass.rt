//! What a thread knows since it went in.

/// A pass of a thread: from where it goes in to where it goes out. `thread` is below `threads`, the
/// number of all threads, which is 1 to 16; `cycle`, 1 to 2^54 − 2, and `sweep` are what the phase
/// word said when it went in: whether the phase was Sweep, and not Mark.
#[derive(Clone, Copy, Debug, PartialEq, Eq)]
pub struct Pass {
    pub thread: u32,
    pub threads: u32,
    pub cycle: u64,
    pub sweep: bool,
}
