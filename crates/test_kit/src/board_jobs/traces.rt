//! A job whose threads are told their commands one by one.

ghost use Rattle.std.specs.Prelude.{◌≤◌, map, IfOk, IfSome};
ghost use Rattle.never_heap.specs.Jobs.{IsTraceInBounds};
ghost use Rattle.heap_system.specs.Machines.{IsJob};

use block_store::{Config, OutOfMemory};
use never_heap::Command;
use rate_plan::plan;
use std::alloc::Global;

/// What each thread is told to do.
pub(crate) trait Told {
    /// The command of a thread that has this number, from 0.
    fn command(&self, thread: u32, number: u32) -> Command;
}

// So many commands of a thread, where each is in its ranges.
fn trace<T: Told>(
    alloc: Global,
    c: &Config,
    told: &T,
    thread: u32,
    count: u32,
) -> Result<Option<Vec<Command>>, OutOfMemory>
    requires { count ≤ 131072 }
    ensures { IfOk result (λ o. IfSome o (λ v. IsTraceInBounds c.now v.items)) }
{
    let mut trace = Vec::new(alloc);
    for number in 0..count {
        let command = told.command(thread, number);
        if !command.in_bounds(c) {
            return Ok(None);
        }
        trace.push(command)?;
    }
    Ok(Some(trace))
}

/// So many commands for each thread, where the configuration has a rate, and it and all commands
/// are in their ranges.
///
/// # Errors
///
/// `OutOfMemory` where there is no room for them.
pub(crate) fn job_of<T: Told>(
    alloc: Global,
    c: &Config,
    told: &T,
    count: u32,
) -> Result<Option<Vec<Vec<Command>>>, OutOfMemory>
    requires { count ≤ 131072 }
    ensures { IfOk result (λ o. IfSome o (λ v. IsJob c.now (map (λ w. w.items) v.items))) }
{
    if !c.in_bounds() {
        return Ok(None);
    }
    let Ok(_rate) = plan(c) else {
        return Ok(None);
    };
    let mut traces = Vec::new(alloc);
    for thread in 0..c.threads {
        let Some(trace) = trace(alloc, c, told, thread, count)? else {
            return Ok(None);
        };
        traces.push(trace)?;
    }
    Ok(Some(traces))
}
