//! Measures how long requests to a heap take, by kind, and how late a loop of 1 kHz runs; prints
//! the most operations of each command; makes requests of one kind; and keeps readings on a heap
//! that it saves and renews. On a heap that threads share it times the commands of a job, and on a
//! table of tags operations. It has the examples of `docs/CONTROL.md`. Scripts of `bench/` run it.
#![tactic(auto)]

mod day;
mod examples;
mod help;
mod numbers;
mod shared;
mod slim;
mod steps;
mod stop;
mod times;

use block_store::{Config, Width};
use exit_statuses::{Question, words_of};
use help::{HELP, VERSION};
use slim::print_text;
use std::process::ExitCode;
use std::sync::Wait;
use std::thread::Threads;
use std::time::Clock;
use stop::Stop;

/// The heap, of blocks of eight words: at most 1,024 of its 4,096 blocks are live.
const HEAP: Config = Config {
    width: Width::Eight,
    threads: 1,
    blocks: 4096,
    live: 1024,
    object: 32,
    shared: 40,
};

fn main(rt: HostRuntime) -> ExitCode {
    match start(&rt, &rt) {
        Ok(()) => ExitCode::SUCCESS,
        Err(stop) => {
            stop.tell(&rt);
            ExitCode::from(stop.status())
        }
    }
}

/// The second handle is the same runtime, by which threads are started, wait and read the clock.
fn start<R: Threads + Wait + Clock + Sync>(rt: &HostRuntime, threads: &R) -> Result<(), Stop> {
    match words_of(rt) {
        Ok(words) => obey(rt, threads, &words),
        Err(_) => Err(Stop::NoMemory),
    }
}

fn obey<R: Threads + Wait + Clock + Sync>(
    rt: &HostRuntime,
    threads: &R,
    words: &[String],
) -> Result<(), Stop> {
    if let Some(question) = Question::of(words) {
        return print_text(rt, question.answer(HELP, VERSION));
    }
    let Some((first, rest)) = words.split_first() else {
        return Err(Stop::Usage);
    };
    match first.as_str() {
        "steps" => steps::most(rt, rest),
        "make" => steps::make(rt, rest),
        "day" => day::run(rt, rest),
        "shared" => shared::run(rt, threads, rest),
        "examples" => examples::run(rt, rest),
        _ => times::run(rt, words),
    }
}
