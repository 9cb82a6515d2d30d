//! The commands of a job, one thread after the other.

ghost use Rattle.std.specs.Prelude.{◌≡◌, ◌++◌, IfOk, OnOk};
ghost use Rattle.trace_text.specs.Jobs.{IsJobInBounds};
ghost use Rattle.rt_check.specs.rt_limit.Moments.{by_threads, moves_of};

use crate::Move;
use block_store::OutOfMemory;
use never_heap::Command;
use std::alloc::Global;
use trace_text::Job;

/// All commands of a job: those of thread 0, then those of thread 1, and so on.
pub(crate) fn thread_by_thread(alloc: Global, job: &Job) -> Result<Vec<Move>, OutOfMemory>
    requires { IsJobInBounds job.now }
    ensures { IfOk result (λ v. v.items ≡ by_threads 0 job.now.traces) }
{
    let mut moves = Vec::new(alloc);
    for thread in 0..job.config.threads {
        push_trace(&mut moves, thread, job.trace(thread as usize))?;
    }
    Ok(moves)
}

// Adds the commands of a thread.
fn push_trace(moves: &mut Vec<Move>, thread: u32, trace: &[Command]) -> Result<(), OutOfMemory>
    ensures { OnOk result (moves.new.items ≡ moves.old.items ++ moves_of thread trace.now) }
{
    for command in trace {
        moves.push(Move {
            thread,
            command: *command,
        })?;
    }
    Ok(())
}
