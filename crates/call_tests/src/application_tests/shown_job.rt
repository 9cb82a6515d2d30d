//! Whether what a run shows is a job.

ghost use Rattle.std.specs.Prelude.{◌≡◌, true, map};
ghost use Rattle.std.specs.List.{AllByRecursion};
ghost use Rattle.never_heap.specs.Bounds.{IsCommandInBounds};
ghost use Rattle.never_heap.specs.Jobs.{IsTraceInBounds, IsJobInBounds};

use block_store::Config;
use never_heap::Command;

/// Whether these are the traces of a job.
pub fn are_job(c: &Config, traces: &[Vec<Command>]) -> bool
    ensures { result ≡ true → IsJobInBounds c.now (map (λ v. v.items) traces.now) }
{
    c.in_bounds() && traces.len() == c.threads as usize && are_traces(c, traces)
}

fn are_traces(c: &Config, traces: &[Vec<Command>]) -> bool
    ensures { result ≡ true
        → AllByRecursion (IsTraceInBounds c.now) (map (λ v. v.items) traces.now) }
{
    let Some((trace, others)) = traces.split_first() else {
        return true;
    };
    trace.len() <= 131_072 && are_commands(c, trace) && are_traces(c, others)
}

fn are_commands(c: &Config, trace: &[Command]) -> bool
    ensures { result ≡ true → AllByRecursion (IsCommandInBounds c.now) trace.now }
{
    let Some((command, others)) = trace.split_first() else {
        return true;
    };
    command.in_bounds(c) && are_commands(c, others)
}
