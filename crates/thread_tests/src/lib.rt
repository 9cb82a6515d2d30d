//! Tests that need threads, or several workers: of `shared_heap`, of the live tables, and of the
//! crates of `mailrun`.
#![tactic(auto)]

#[cfg(test)]
mod counters;
#[cfg(test)]
mod handles;
#[cfg(test)]
mod heap;
#[cfg(test)]
mod letters;
#[cfg(test)]
mod mail;
#[cfg(test)]
mod orders;
#[cfg(test)]
mod pending;
#[cfg(test)]
mod rings;
#[cfg(test)]
mod slim;
#[cfg(test)]
mod tags;
