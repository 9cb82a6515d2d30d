//! Runs a job of commands on a garbage-collected heap, and prints how long its commands took.
#![tactic(auto)]

mod help;

use exit_statuses::Program;
use help::{HELP, VERSION};
use std::alloc::AllocError;
use std::process::ExitCode;
use timed_runs::timed;
use trace_text::StdSource;

fn main(rt: HostRuntime) -> ExitCode {
    let program = Program {
        name: b"rtheap",
        help: HELP,
        version: VERSION,
    };
    program.run_buffered(&rt, rt.stdout(), |words, sink| {
        let mut source = StdSource::new(rt.stdin());
        match timed(&rt, &rt, rt.alloc(), words, &mut source, sink) {
            Ok(ended) => Ok(ended.status),
            Err(_) => Err(AllocError),
        }
    })
}
