//! Tests of crates without a machine: graphs of `never_heap`, histories by `test_kit`, texts of
//! `trace_text`, orders and needs by `rt_check`.
#![tactic(auto)]

#[cfg(test)]
mod accounts;
#[cfg(test)]
mod arrays;
#[cfg(test)]
mod faults;
#[cfg(test)]
mod graphs;
#[cfg(test)]
mod histories;
#[cfg(test)]
mod needs;
#[cfg(test)]
mod rates;
#[cfg(test)]
mod records;
mod stored;
mod text_tests;
#[cfg(test)]
mod words;
