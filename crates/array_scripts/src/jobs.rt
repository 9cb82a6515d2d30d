//! The job of a script, and what the logs of its run tell.

ghost use Rattle.std.specs.Prelude.{◌≡◌, ◌≤◌, ℕ, [], length, map, slice_index_or, MatchResult, IfOk};
ghost use Rattle.block_store.specs.Configs.{IsInBounds};
ghost use Rattle.exit_statuses.specs.declared.refusal.Refusal.TheVariants.{NoRate};
ghost use Rattle.never_heap.specs.declared.Entry.{Entry};
ghost use Rattle.rate_plan.specs.Rates.{IsAdmitted};
ghost use Rattle.array_scripts.specs.Answers.{traces_in, answers_in};
ghost use Rattle.array_scripts.specs.Kinds.{IsHeader, AreOfThread};
ghost use Rattle.array_scripts.specs.Runnable.{IsRunnable};
ghost use Rattle.array_scripts.specs.JobsOfScripts.{HasRoom, HasNoRoom};

use crate::header::Header;
use crate::runnable::Runnable;
use block_store::{Config, OutOfMemory};
use exit_statuses::Refusal;
use never_heap::{Command, Logs};
use rate_plan::plan;
use std::alloc::Global;

/// The heap of a script, if it has a rate.
pub fn planned<K: Runnable>(header: &Header) -> Result<Config, Refusal>
    requires runnable { IsRunnable K.kind K.commands }
    requires header { IsHeader K.kind header.now }
    requires bounds { IsInBounds (K.kind.config_of header.now) }
    ensures { MatchResult result
        (λ c. (c ≡ K.kind.config_of header.now) × IsAdmitted c × HasRoom K.kind header.now)
        (λ r. (r ≡ NoRate) × HasNoRoom K.kind header.now) }
{
    let config = K::config_of(header);
    match plan(&config) {
        Ok(_) => Ok(config),
        Err(_) => Err(Refusal::NoRate),
    }
}

/// The commands of each thread.
pub fn traces<K: Runnable>(
    alloc: Global,
    scripts: &[Vec<K::Operation>],
) -> Result<Vec<Vec<Command>>, OutOfMemory>
    requires few { length scripts.now ≤ 16 }
    requires fit { (t : ℕ)
        → AreOfThread K.kind (slice_index_or (map (λ ops. ops.items) scripts.now) t []) }
    ensures { IfOk result (λ traces. map (λ v. v.items) traces.items
        ≡ traces_in K.commands (map (λ ops. ops.items) scripts.now)) }
{
    let mut traces = Vec::new(alloc);
    for t in 0..scripts.len() {
        traces.push(K::trace_of(alloc, t as u32, &scripts[t])?)?;
    }
    Ok(traces)
}

/// The answers of all threads, by the logs of a run of their scripts.
pub fn all_answers<K: Runnable, L: Logs>(
    alloc: Global,
    scripts: &[Vec<K::Operation>],
    run: &L,
) -> Result<Vec<Vec<K::Answer>>, OutOfMemory>
    requires { map (λ log. map (λ (e : Entry). e.command) log) (L.logs run.now)
        ≡ traces_in K.commands (map (λ ops. ops.items) scripts.now) }
    ensures { IfOk result (λ told. map (λ v. v.items) told.items
        ≡ answers_in K.told (map (λ ops. ops.items) scripts.now) (L.logs run.now)) }
{
    let mut told = Vec::new(alloc);
    for t in 0..run.threads() {
        told.push(K::answers(alloc, t, &scripts[t as usize], run.entries(t))?)?;
    }
    Ok(told)
}
