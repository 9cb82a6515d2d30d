//! Keeps handles in slots of a garbage-collected heap, which the threads of a script share, and
//! prints what each operation answered.
#![tactic(auto)]

mod help;

use exit_statuses::Program;
use heap_system::NoPace;
use help::{HELP, VERSION};
use rt_handles::handles;
use std::process::ExitCode;
use trace_text::StdSource;

fn main(rt: HostRuntime) -> ExitCode {
    let program = Program {
        name: b"rt_handles",
        help: HELP,
        version: VERSION,
    };
    program.run_buffered(&rt, rt.stdout(), |words, sink| {
        let mut source = StdSource::new(rt.stdin());
        Ok(handles(&rt, rt.alloc(), words, &mut source, sink, &NoPace).status)
    })
}
