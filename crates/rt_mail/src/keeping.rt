//! The second heap: its job, its run, and what its threads recall.

ghost use Rattle.std.specs.Prelude.{◌≡◌, ◌≤◌, map, length, IfOk};
ghost use Rattle.std.specs.List.{AllByRecursion};
ghost use Rattle.array_tables.specs.number_rings.Rings.{IsKeepable, ring_traces};
ghost use Rattle.atom_board.specs.threaded_runs.EndedRuns.{commands_of};
ghost use Rattle.rt_mail.specs.Recalled.{HasRings, ring_job, recalled_in};

use crate::mail_post::Taken;
use array_tables::number_rings::{config_of_rings, recalled_numbers, trace_of_ring};
use atom_board::{Closed, run_job};
use block_store::OutOfMemory;
use heap_system::NoPace;
use never_heap::Logs;
use std::alloc::Global;
use std::sync::Wait;
use std::thread::Threads;
use trace_text::Job;

/// Keeps what was taken of so many threads in rings on a heap of its own, and gives the run and the
/// numbers that each thread of it recalled.
pub fn kept<R: Threads + Wait + Sync>(
    rt: &R,
    alloc: Global,
    threads: u32,
    taken: &Taken,
) -> Result<(Closed, Vec<Vec<u64>>), OutOfMemory>
    requires threads { (1 ≤ threads) × (threads ≤ 2) × (threads ≡ length taken.now.taken) }
    requires keepable { AllByRecursion IsKeepable taken.now.taken }
    ensures kept { IfOk result (λ x. HasRings taken.now.taken x.0) }
    ensures recalled { IfOk result (λ x. map (λ v. v.items) x.1.items
        ≡ recalled_in taken.now.taken x.0.logs) }
{
    let job = rings_of(alloc, threads, taken)?;
    let run = run_job(rt, alloc, job, &NoPace)?;
    let last = recalled(alloc, taken, &run)?;
    Ok((run, last))
}

/// The job that keeps what was taken of so many threads.
fn rings_of(alloc: Global, threads: u32, taken: &Taken) -> Result<Job, OutOfMemory>
    requires threads { (threads ≤ 2) × (threads ≡ length taken.now.taken) }
    requires keepable { AllByRecursion IsKeepable taken.now.taken }
    ensures { IfOk result (λ job. job ≡ ring_job taken.now.taken) }
{
    let mut traces = Vec::new(alloc);
    for t in 0..threads {
        traces.push(trace_of_ring(alloc, t, taken.numbers(t))?)?;
    }
    Ok(Job {
        config: config_of_rings(threads),
        traces,
    })
}

/// What each thread of a run of that job recalled, by its log.
fn recalled(alloc: Global, taken: &Taken, run: &Closed) -> Result<Vec<Vec<u64>>, OutOfMemory>
    requires { map commands_of run.now.logs ≡ ring_traces taken.now.taken }
    ensures { IfOk result (λ last. map (λ v. v.items) last.items
        ≡ recalled_in taken.now.taken run.now.logs) }
{
    let mut last = Vec::new(alloc);
    for t in 0..run.threads() {
        let kept = taken.numbers(t).len();
        let told = recalled_numbers(alloc, kept, run.entries(t))?;
        last.push(told)?;
    }
    Ok(last)
}
