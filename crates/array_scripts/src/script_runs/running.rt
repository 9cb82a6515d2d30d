//! Running the job of a script, and reading the answers off its logs.

ghost use Rattle.std.specs.Prelude.{◌≡◌, ℕ, map, [], slice_index_or, IfOk, IfErr, OnOk};
ghost use Rattle.array_scripts.specs.Answers.{traces_in, answers_in};
ghost use Rattle.array_scripts.specs.Kinds.{AreOfThread};
ghost use Rattle.array_scripts.specs.Runnable.{IsRunnable};
ghost use Rattle.array_scripts.specs.JobsOfScripts.{IsCause};
ghost use Rattle.exit_statuses.specs.Sides.{sides};
ghost use Rattle.never_heap.specs.Jobs.{IsJobInBounds};
ghost use Rattle.rate_plan.specs.Rates.{IsAdmitted};
ghost use Rattle.array_scripts.specs.script_runs.Runs.{IsRunOf, HasAnswers};
ghost use Rattle.atom_board.specs.threaded_runs.EndedRuns.{HasHistory};

use crate::{Runnable, all_answers, planned, read_script, traces};
use atom_board::{Closed, run_job};
use block_store::{Config, OutOfMemory};
use exit_statuses::Refusal;
use heap_system::Pace;
use std::alloc::Global;
use std::sync::Wait;
use std::thread::Threads;
use trace_text::{Job, Source};

/// Reads a script, runs its job, and reads the answers off the logs.
pub fn kept<K: Runnable, R: Threads + Wait + Sync, S: Source, Q: Pace>(
    rt: &R,
    alloc: Global,
    source: &mut S,
    pace: &Q,
) -> Result<(Closed, Vec<Vec<K::Answer>>), Refusal>
    requires { IsRunnable K.kind K.commands }
    ensures kept { IfOk result (λ x. HasAnswers K.kind K.commands K.told
        (sides S.left S.faults source.old source.new) x.0 (map (λ v. v.items) x.1.items)) }
    ensures still { OnOk result (S.faults source.new ≡ S.faults source.old) }
    ensures refused { IfErr result (IsCause K.kind []
        (sides S.left S.faults source.old source.new)) }
{
    let (header, scripts) = read_script::<K, S>(alloc, source)?;
    let config = planned::<K>(&header)?;
    let answered = answered::<K, R, Q>(rt, alloc, config, &scripts, pace)?;
    Ok(answered)
}

/// Runs the job of scripts, and reads the answers off its logs.
fn answered<K: Runnable, R: Threads + Wait + Sync, Q: Pace>(
    rt: &R,
    alloc: Global,
    config: Config,
    scripts: &[Vec<K::Operation>],
    pace: &Q,
) -> Result<(Closed, Vec<Vec<K::Answer>>), OutOfMemory>
    requires fit { (t : ℕ)
        → AreOfThread K.kind (slice_index_or (map (λ ops. ops.items) scripts.now) t []) }
    requires bounds { IsJobInBounds config
        (traces_in K.commands (map (λ ops. ops.items) scripts.now)) }
    requires admitted { IsAdmitted config }
    ensures job { IfOk result (λ x.
        IsRunOf K.commands config (map (λ ops. ops.items) scripts.now) x.0) }
    ensures ran { IfOk result (λ x. HasHistory x.0) }
    ensures told { IfOk result (λ x. map (λ v. v.items) x.1.items
        ≡ answers_in K.told (map (λ ops. ops.items) scripts.now) x.0.logs) }
{
    let traces = traces::<K>(alloc, scripts)?;
    let run = run_job(rt, alloc, Job { config, traces }, pace)?;
    let told = all_answers::<K, Closed>(alloc, scripts, &run)?;
    Ok((run, told))
}
