//! Scripts of tags that are drawn, run by drawn turns, and judged by a plain table in the order in
//! which their deciding commands were answered.

use crate::application_tests::deeds::{Deed, walked};
use crate::application_tests::replaying::{Replayed, replay_of};
use array_tables::tag_table::{Operation, answers, trace_of};
use block_store::OutOfMemory;
use heap_system::NoPace;
use never_heap::{Entry, Logs};
use rand_core::utils::NextWord;
use rand_pcg::Lcg64Xsh32;
use rt_tags::{script_of, tags};
use std::alloc::{AllocError, Global};
use std::test::Fail;
use test_kit::{Call, Lent};

/// What is at a place of a table.
type Pair = Option<(u64, u64)>;

/// How many operations each thread has.
const OPERATIONS: u64 = 12;

/// A script of one to four threads on one to three places, on a heap that is nearly too small.
fn drawn_script(alloc: Global, key: u64) -> Result<String, AllocError> {
    let mut draws = Lcg64Xsh32::new(key, 2);
    let threads = 1 + draws.next_word() % 4;
    let tags = 1 + draws.next_word() % 3;
    let blocks = 6 * threads + tags + 3 + draws.next_word() % 8;
    let mut script = format!(in alloc; "tags 1 threads {threads} tags {tags} blocks {blocks}\n")?;
    for t in 0..threads {
        script.push_str(format!(in alloc; "thread {t}\n")?.as_str())?;
        for j in 0..OPERATIONS {
            let place = draws.next_word() % tags;
            let line = match draws.next_word() % 5 {
                0 => format!(in alloc; "clear {place}\n")?,
                1 | 2 => format!(in alloc; "read {place}\n")?,
                _ => format!(in alloc; "write {place} {j} {t}\n")?,
            };
            script.push_str(line.as_str())?;
        }
    }
    script.push_str("end\n")?;
    Ok(script)
}

impl Deed for Operation {
    type Place = Pair;

    type Answer = Pair;

    fn beside(&self) -> (usize, usize) {
        match self {
            Operation::Write { .. } => (5, 2),
            Operation::Clear { .. } => (1, 2),
            Operation::Read { .. } => (0, 2),
        }
    }

    fn done(&self, table: &mut [Pair]) -> Option<Pair> {
        let op = *self;
        let (place, new) = match op {
            Operation::Write {
                place,
                value,
                quality,
            } => (place, Some(Some((value, quality)))),
            Operation::Clear { place } => (place, Some(None)),
            Operation::Read { place } => (place, None),
        };
        let at = table.get_mut(place as usize)?;
        let old = *at;
        if let Some(new) = new {
            *at = new;
        }
        Some(old)
    }
}

/// The answers of a thread by its log, if that is long enough.
fn told_by(
    alloc: Global,
    ops: &[Operation],
    log: &[Entry],
) -> Result<Option<Vec<Pair>>, OutOfMemory> {
    if trace_of(alloc, ops)?.len() > log.len() {
        return Ok(None);
    }
    Ok(Some(answers(alloc, ops, log)?))
}

/// The answers of each thread by the logs, if they are long enough.
fn all_told(
    alloc: Global,
    scripts: &[Vec<Operation>],
    replay: &Replayed,
) -> Result<Option<Vec<Vec<Pair>>>, OutOfMemory> {
    let mut told = Vec::new(alloc);
    for (t, ops) in (0u32..).zip(scripts.iter()) {
        if t >= replay.run.threads() {
            return Ok(None);
        }
        let Some(lines) = told_by(alloc, ops, replay.run.entries(t))? else {
            return Ok(None);
        };
        told.push(lines)?;
    }
    Ok(Some(told))
}

#[test]
fn drawn_turns_answer_as_a_plain_table_does(rt: HostRuntime) -> Result<(), Fail> {
    let alloc = rt.alloc();
    for key in 0..200 {
        let script = drawn_script(alloc, key)?;
        let bytes = script.as_bytes();
        assert!(rt; bytes.len() < 1 << 39);
        let Ok((header, scripts)) = script_of(alloc, bytes) else {
            return Err("no script".into());
        };
        let mut lent = Lent::of(alloc, &Call::of(bytes)).ok().ok_or("memory")?;
        let exit = tags(&rt, alloc, &[], &mut lent.source, &mut lent.sink, &NoPace);
        let run = exit.run.ok_or("refused")?;
        let replay = replay_of(alloc, &run, key)
            .ok()
            .ok_or("memory")?
            .ok_or("not done")?;
        let told = all_told(alloc, &scripts, &replay)
            .ok()
            .ok_or("memory")?
            .ok_or("not told")?;
        let mut table = vec![in alloc; None; header.places as usize]?;
        let walks = walked(alloc, &scripts, &mut table, &replay.history)?.ok_or("another script")?;
        assert_eq!(rt; walks.len(), told.len());
        for (walk, told) in walks.iter().zip(told.iter()) {
            assert_eq!(rt; walk.told.as_slice(), told.as_slice(), "script {key}");
            assert_eq!(rt; told.len() as u64, OPERATIONS);
        }
        assert!(rt; !replay.has_full(), "script {key}");
    }
    Ok(())
}
