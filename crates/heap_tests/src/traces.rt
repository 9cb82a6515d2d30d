//! `trace_of`: a trace of commands, each repeated a number of times.

ghost use Rattle.std.specs.Prelude.{IfOk};
ghost use Rattle.never_heap.specs.Jobs.{IsTraceInBounds};

use block_store::{Config, OutOfMemory};
use never_heap::Command;
use std::alloc::Global;

/// Lists of commands, each as often as said, one after the other: those that are in bounds, and no
/// more than a trace may have.
///
/// # Errors
///
/// `OutOfMemory` where there is no room for them.
pub fn trace_of(
    alloc: Global,
    c: &Config,
    parts: &[(u32, &[Command])],
) -> Result<Vec<Command>, OutOfMemory>
    ensures { IfOk result (λ v. IsTraceInBounds c.now v.items) }
{
    let mut trace = Vec::new(alloc);
    for (times, commands) in parts {
        for _round in 0..*times {
            for command in *commands {
                if command.in_bounds(c) && trace.len() < 131_072 {
                    trace.push(*command)?;
                }
            }
        }
    }
    Ok(trace)
}
