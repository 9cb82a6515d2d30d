//! Runs a job of commands on a garbage-collected heap and prints what each command answered.
#![tactic(auto)]

mod help;

use exit_statuses::Program;
use heap_system::NoPace;
use help::{HELP, VERSION};
use rtheap_core::rtheap;
use std::process::ExitCode;
use trace_text::StdSource;

fn main(rt: HostRuntime) -> ExitCode {
    let program = Program {
        name: b"rtheap",
        help: HELP,
        version: VERSION,
    };
    program.run_buffered(&rt, rt.stdout(), |words, sink| {
        let mut source = StdSource::new(rt.stdin());
        Ok(rtheap(&rt, rt.alloc(), words, &mut source, sink, &NoPace).status)
    })
}
