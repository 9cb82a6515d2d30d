//! Tests of whole calls over streams in memory: of `rtheap`, and of the programs on the heap.
#![tactic(auto)]

mod application_tests;
#[cfg(test)]
mod comparing;
#[cfg(test)]
mod fault_tests;
#[cfg(test)]
mod faults;
mod hostile_use;
#[cfg(test)]
mod many_threads;
#[cfg(test)]
mod paced;
#[cfg(test)]
mod recorded;
#[cfg(test)]
mod several;
mod starts;
#[cfg(test)]
mod stopping;
#[cfg(test)]
mod testing;
