//! Runs a plant: readings from standard input, a controller, an alarm list and a history, in four
//! threads on one garbage-collected heap. Writes what they did in real time.
#![tactic(auto)]

mod help;

use exit_statuses::Program;
use help::{HELP, VERSION};
use plantrun_core::plant_with_status;
use std::alloc::AllocError;
use std::io::BufReader;
use std::process::ExitCode;
use std::sync::Wait;
use std::thread::Threads;
use std::time::Clock;
use trace_text::{Sink, StdSource};

fn main(rt: HostRuntime) -> ExitCode {
    let program = Program {
        name: b"plantrun",
        help: HELP,
        version: VERSION,
    };
    program.run_buffered(
        &rt,
        rt.stdout(),
        |words, sink| run_plant(&rt, &rt, words, sink),
    )
}

/// Runs a plant, and returns the exit status. The second handle is the same runtime, by which the
/// plant starts threads, waits and reads the clock.
fn run_plant<T: Threads + Wait + Clock + Sync, K: Sink>(
    rt: &HostRuntime,
    threads: &T,
    words: &[String],
    sink: &mut K,
) -> Result<u8, AllocError> {
    let input = BufReader::new(rt.alloc(), rt.stdin()).map_err(|_| AllocError)?;
    let mut source = StdSource::new(input);
    Ok(plant_with_status(threads, rt.alloc(), words, &mut source, sink).status)
}
