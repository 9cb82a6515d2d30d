//! Goes through the lines of an order.

ghost use Rattle.std.specs.Prelude.{◌≡◌, ◌≢◌, ◌+◌, ◌^◌, ◌<◌, ◌≤◌, [], length, IfOk, MatchOption};
ghost use Rattle.trace_text.specs.Jobs.{IsJobInBounds};
ghost use Rattle.trace_text.specs.Lines.{lines_of};
ghost use Rattle.rt_check.specs.Good.{IsFound};

use crate::follower::{Follower, Verdict};
use block_store::OutOfMemory;
use std::alloc::Global;
use trace_text::{Job, LineBuffer, first_line};

/// The number of the first line that is not good, where the order is not accepted.
pub(crate) fn first_bad(
    alloc: Global,
    job: &Job,
    rate: u64,
    order: &[u8],
) -> Result<Option<u64>, OutOfMemory>
    requires job { IsJobInBounds job.now }
    requires rate { rate ≤ 131070 }
    requires short { length order.now ≤ 67108864 }
    ensures { IfOk result (IsFound job.now.config rate job.now.traces (lines_of order.now)) }
{
    let mut follower = Follower::start(alloc, job)?;
    let mut buffer = LineBuffer::new();
    let mut rest = order;
    let mut read = 0;
    while let Some((line, after)) = first_line(rest) {
        match follower.next(job, rate, line, &mut buffer)? {
            Verdict::Good => {}
            Verdict::Last => return Ok(behind_last(after, read)),
            Verdict::Bad => return Ok(Some(read + 1)),
        }
        rest = after;
        read += 1;
    }
    Ok(Some(read + 1))
}

/// The number of the line after that of the totals, where there is one: no line is good there. So
/// many lines come before that of the totals.
fn behind_last(after: &[u8], read: u64) -> Option<u64>
    requires { read < 2 ^ 32 }
    ensures { MatchOption result (lines_of after.now ≡ [])
        (λ n. (n ≡ read + 2) × (lines_of after.now ≢ [])) }
{
    if first_line(after).is_none() {
        return None;
    }
    Some(read + 2)
}
