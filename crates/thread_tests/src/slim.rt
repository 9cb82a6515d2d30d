//! Calls of the libraries with no more of their contracts than the tests need: that a worker stays
//! that of its heap or table.

pub mod counters;
pub mod handles;
pub mod heap;
pub mod mail;
pub mod rings;
pub mod tags;
