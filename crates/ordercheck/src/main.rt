//! Checks a printed order of a job against a heap that never frees, and says whether it is
//! accepted.
#![tactic(auto)]

mod help;

use exit_statuses::Program;
use help::{HELP, VERSION};
use rt_check::check;
use std::process::ExitCode;
use trace_text::StdSource;

fn main(rt: HostRuntime) -> ExitCode {
    let program = Program {
        name: b"rt_check",
        help: HELP,
        version: VERSION,
    };
    program.run(&rt, rt.stdout(), |words, sink| {
        let mut source = StdSource::new(rt.stdin());
        Ok(check(rt.alloc(), words, &mut source, sink).status)
    })
}
