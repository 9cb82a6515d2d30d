//! Reads two limits and then one reading a line, and keeps the last 40 readings as objects on a
//! garbage-collected heap. After each reading it writes the least, the greatest and the mean of
//! those, and how many are outside the limits.
#![tactic(auto)]

mod help;

use exit_statuses::Program;
use help::{HELP, VERSION};
use historian_core::{report_with_status, start};
use std::alloc::AllocError;
use std::io::BufReader;
use std::process::ExitCode;
use trace_text::{Sink, StdSource, put_line};

/// The exit status of arguments, of which there may be none.
const USAGE: u8 = 2;

fn main(rt: HostRuntime) -> ExitCode {
    let program = Program {
        name: b"historian",
        help: HELP,
        version: VERSION,
    };
    program.run(
        &rt,
        rt.stdout(),
        |words, sink| report_readings(&rt, words, sink),
    )
}

/// Reports the readings from standard input, and returns the exit status.
fn report_readings<K: Sink>(
    rt: &HostRuntime,
    words: &[String],
    sink: &mut K,
) -> Result<u8, AllocError> {
    if !words.is_empty() {
        return Ok(put_line(b"historian: usage\n", USAGE, sink));
    }
    let input = BufReader::new(rt.alloc(), rt.stdin()).map_err(|_| AllocError)?;
    let mut source = StdSource::new(input);
    let Ok(mut heap) = start(rt.alloc()) else {
        return Err(AllocError);
    };
    Ok(report_with_status(&mut heap, &mut source, sink))
}
