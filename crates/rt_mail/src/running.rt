//! Running a job, sending its numbers, and keeping them on a second heap.

ghost use Rattle.std.specs.Prelude.{◌≡◌, map, [], IfOk, IfErr, OnOk};
ghost use Rattle.exit_statuses.specs.Sides.{sides};
ghost use Rattle.rt_mail.specs.MailCalls.{HasMail};
ghost use Rattle.rt_mail.specs.Recalled.{recalled_in};
ghost use Rattle.rt_mail.specs.RefusedTexts.{IsCause};

use crate::keeping::kept;
use crate::mail_post::Taken;
use crate::mail_runs::deliver;
use crate::reading::read_job;
use atom_board::Closed;
use exit_statuses::Refusal;
use heap_system::Pace;
use never_heap::Logs;
use std::alloc::Global;
use std::sync::Wait;
use std::thread::Threads;
use trace_text::Source;

/// The runs of the two heaps, what was taken of each thread of the first, and what those of the
/// second recalled.
#[derive(Drop)]
pub struct Delivered {
    pub first: Closed,
    pub taken: Taken,
    pub second: Closed,
    pub recalled: Vec<Vec<u64>>,
}

/// Reads a job, runs it with its threads sending what they say, and keeps what came.
pub fn mailed<R: Threads + Wait + Sync, S: Source, Q: Pace>(
    rt: &R,
    alloc: Global,
    source: &mut S,
    pace: &Q,
) -> Result<Delivered, Refusal>
    ensures mail { IfOk result (λ m. HasMail (sides S.left S.faults source.old source.new)
        m.first m.taken.taken m.second) }
    ensures recalled { IfOk result (λ m. map (λ v. v.items) m.recalled.items
        ≡ recalled_in m.taken.taken m.second.logs) }
    ensures refused { IfErr result
        (IsCause [] (sides S.left S.faults source.old source.new)) }
{
    let job = read_job(alloc, source)?;
    let (first, taken) = deliver(rt, alloc, job, pace)?;
    let (second, recalled) = kept(rt, alloc, first.threads(), &taken)?;
    Ok(Delivered {
        first,
        taken,
        second,
        recalled,
    })
}
