//! Tells which heap a job needs: how many blocks are live at most, and how many blocks a rate
//! costs.
#![tactic(auto)]

mod help;

use exit_statuses::Program;
use help::{HELP, VERSION};
use rt_check::limit;
use std::process::ExitCode;
use trace_text::StdSource;

fn main(rt: HostRuntime) -> ExitCode {
    let program = Program {
        name: b"rt_limit",
        help: HELP,
        version: VERSION,
    };
    program.run(&rt, rt.stdout(), |words, sink| {
        let mut source = StdSource::new(rt.stdin());
        Ok(limit(rt.alloc(), words, &mut source, sink).status)
    })
}
