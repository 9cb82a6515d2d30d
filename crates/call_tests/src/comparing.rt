//! Runs of one thread whose commands are done on the heap that never frees too.

ghost use Rattle.std.specs.Prelude.{◌≡◌, ◌≤◌, length};
ghost use Rattle.block_store.specs.Configs.{IsInBounds};

use crate::starts::blocks_at_start;
use crate::testing::{Call, EACH_KIND, job, job_begun, made};
use block_store::Config;
use never_heap::{Entry, Graph, Logs};
use rtheap_core::RunEnd;
use std::alloc::{AllocError, Global};
use std::process::Abort;
use std::sync::Wait;
use std::test::Fail;
use std::thread::Threads;

/// Does the commands of a run on the heap that never frees, and compares each reply, and how many
/// blocks are reachable at these starts of cycles.
#[tactic(auto, using(never_heap::proofs::StepChanges::step_threads, never_heap::proofs::StepChanges::step_count))]
fn agrees(
    rt: &impl Abort,
    alloc: Global,
    config: &Config,
    entries: &[Entry],
    starts: &[(u64, u64)],
) -> Result<(), Fail>
    requires bounds { IsInBounds config.now }
    requires one_thread { config.now.threads ≡ 1 }
    requires few { length entries.now ≤ 131072 }
{
    let mut graph = Graph::start(alloc, config).ok().ok_or("memory")?;
    let mut units: u64 = 0;
    for k in 0..entries.len() {
        let entry = &entries[k];
        let after = units.saturating_add(entry.work);
        if let Some(blocks) = blocks_at_start(starts, units, after) {
            let counted = graph.reach_blocks().ok().ok_or("memory")?;
            assert_eq!(rt; counted, blocks, "entry {k}");
        }
        units = after;
        assert!(rt; entry.command.in_bounds(config));
        let reply = graph.apply(0, &entry.command).ok().ok_or("memory")?;
        assert_eq!(rt; reply, entry.reply, "entry {k}");
    }
    Ok(())
}

/// Runs a job, and its commands on the heap that never frees, with these starts of cycles.
fn runs_agree(
    rt: &(impl Abort + Threads + Wait + Sync),
    alloc: Global,
    input: &str,
    starts: &[(u64, u64)],
) -> Result<(), Fail> {
    let (exit, _sink) = made(rt, alloc, &Call::run(input))?;
    let Some(RunEnd::Ran(run)) = exit.run else {
        return Err("nothing was run".into());
    };
    assert!(rt; run.threads() == 1);
    let config = run.config();
    let entries = run.entries(0);
    assert!(rt; config.in_bounds() && config.threads == 1);
    assert!(rt; !entries.is_empty() && entries.len() <= 131_072);
    agrees(rt, alloc, config, entries, starts)
}

/// Objects that refer to each other in rings, an array in several registers, and a link that is
/// overwritten.
const RINGS: &str = "rtheap 1 threads 1 blocks 64 live 40 object 3 shared 17
thread 0
arr 1 5
new 2 2
put 2 0 2
put 1 4 2
put 2 1 1
get 3 1 4
same 3 2
get 4 3 1
same 4 1
mov 5 4
put 0 16 5
set 6 8
put 2 0 6
get 7 3 0
nil 2
nil 3
get 8 5 4
get 9 8 0
len 5
len 8
get 11 0 16
same 11 5
say 11
put 11 0 11
get 12 5 0
say 12
";

/// The same on blocks of eight payload words: an array of two leaves and a record of three blocks,
/// whose fields are exchanged and compared too.
const WIDE_RINGS: &str = "rtheap 2 threads 1 blocks 64 live 40 object 3 shared 17
thread 0
arr 1 16
new 2 21
put 1 15 2
put 2 20 1
put 2 7 2
get 3 1 15
get 4 3 20
same 4 1
same 4 2
put 0 16 3
get 5 0 16
get 6 5 7
same 6 2
set 7 8
put 1 8 7
get 8 4 8
get 8 4 7
len 1
len 2
len 0
get 7 2 21
put 0 17 1
say 5
say 4
swap 3 20 8
cas 1 14 9 2
idle 100
cas 1 14 1 9
swap 1 14 4
cas 0 16 4 3
swap 0 16 0
say 0
mov 0 3
cas 2 7 3 6
get 8 1 14
get 9 2 20
get 10 2 7
";

/// A job of rings, of allocations of which none is kept, and of looks at what the rings still hold.
fn ringed(alloc: Global, rings: &str, count: u32) -> Result<String, AllocError> {
    let mut text = String::from_str(alloc, rings)?;
    for _ in 0..count {
        text.push_str("new 13 2\n")?;
    }
    text.push_str(
        "get 12 5 0\nget 12 5 4\nget 12 5 20\nget 11 0 16\nsay 11\nlen 5\nsame 11 5\nend\n",
    )?;
    Ok(text)
}

#[test]
fn a_heap_of_words_answers_as_the_heap_that_never_frees(rt: HostRuntime) -> Result<(), Fail> {
    let text = job(rt.alloc(), EACH_KIND)?;
    runs_agree(&rt, rt.alloc(), text.as_str(), &[])?;
    for rings in [RINGS, WIDE_RINGS] {
        for count in [0, 300] {
            let text = ringed(rt.alloc(), rings, count)?;
            runs_agree(&rt, rt.alloc(), text.as_str(), &[])?;
        }
    }
    Ok(())
}

#[test]
fn each_cycle_of_a_growing_chain_starts_with_more_blocks(rt: HostRuntime) -> Result<(), Fail> {
    let alloc = rt.alloc();
    let mut text = job_begun(alloc)?;
    for _ in 0..58 {
        text.push_str("new 1 1\nput 1 0 2\nmov 2 1\n")?;
    }
    text.push_str("end\n")?;
    let starts = [(0, 6), (70, 16), (150, 27), (241, 40), (345, 55)];
    runs_agree(&rt, alloc, text.as_str(), &starts)
}
