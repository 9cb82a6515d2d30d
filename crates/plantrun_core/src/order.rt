//! All that the threads did, by the stamps that they drew.
#![tactic(auto)]

ghost use Rattle.std.specs.Prelude.{ℕ, ◌≡◌, ◌++◌, map, IfOk, OnOk};
ghost use Rattle.plantrun_core.specs.Logs.{step_by};
ghost use Rattle.plantrun_core.specs.PlantOrders.{IsByStamps, steps_of};

use crate::calls::{Done, Logs, Step};
use block_store::OutOfMemory;
use std::alloc::Global;

/// Appends what a thread did.
fn append(steps: &mut Vec<Step>, thread: u32, log: &[Done]) -> Result<(), OutOfMemory>
    ensures { OnOk result (steps.new.items ≡ steps.old.items ++ map (step_by thread) log.now) }
{
    for done in log {
        steps.push(Step {
            thread,
            done: *done,
        })?;
    }
    Ok(())
}

/// All that the threads did, thread by thread.
fn all_of(alloc: Global, logs: &Logs) -> Result<Vec<Step>, OutOfMemory>
    ensures { IfOk result (λ steps. steps.items ≡ steps_of logs.now) }
{
    let mut steps = Vec::new(alloc);
    append(&mut steps, 0, logs.input.as_slice())?;
    append(&mut steps, 1, logs.control.as_slice())?;
    append(&mut steps, 2, logs.alarms.as_slice())?;
    append(&mut steps, 3, logs.history.as_slice())?;
    Ok(steps)
}

/// All that the threads did, by the stamps that they drew.
pub(crate) fn by_stamps(alloc: Global, logs: &Logs) -> Result<Vec<Step>, OutOfMemory>
    ensures { IfOk result (λ steps. IsByStamps logs.now steps.items) }
{
    let mut steps = all_of(alloc, logs)?;
    steps.sort_by_key(|step| step.done.stamp)?;
    Ok(steps)
}
