//! A heap that several threads of a program in C share, by calls that never wait.

pub(crate) mod closing;
pub(crate) mod coded;
mod exports;
pub(crate) mod group;
pub(crate) mod stamps;
pub(crate) mod worker;
