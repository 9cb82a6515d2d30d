//! Times the commands of a job on a heap that its threads ask beside each other, and operations of
//! threads on a table of tags. `bench/shared`, `bench/longest`, `bench/preempted` and
//! `bench/live_tags` run it.

mod commands;
mod kinds;
mod slim;
mod tags;

use crate::stop::Stop;
use std::sync::Wait;
use std::thread::Threads;
use std::time::Clock;

/// Times commands, or operations on a table if the first of four words is `tags`.
pub fn run<R: Threads + Wait + Clock + Sync>(
    rt: &HostRuntime,
    threads: &R,
    words: &[String],
) -> Result<(), Stop> {
    match words.split_first() {
        Some((first, rest)) if first.as_str() == "tags" => tags::run(rt, threads, rest),
        _ => commands::run(rt, threads, words),
    }
}
