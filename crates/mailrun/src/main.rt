//! Runs a job on a garbage-collected heap, sends the numbers that its threads say through a queue,
//! keeps the last of them on a second heap, and prints them.
#![tactic(auto)]

mod help;

use exit_statuses::Program;
use heap_system::NoPace;
use help::{HELP, VERSION};
use rt_mail::mail;
use std::process::ExitCode;
use trace_text::StdSource;

fn main(rt: HostRuntime) -> ExitCode {
    let program = Program {
        name: b"rt_mail",
        help: HELP,
        version: VERSION,
    };
    program.run_buffered(&rt, rt.stdout(), |words, sink| {
        let mut source = StdSource::new(rt.stdin());
        Ok(mail(&rt, rt.alloc(), words, &mut source, sink, &NoPace).status)
    })
}
