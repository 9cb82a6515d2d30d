//! Records of drawn programs, run: each reply is the one that the program saw.

use crate::testing::{Call, made};
use block_store::{Config, Width};
use control_heap::ControlHeap;
use never_heap::{Command, Entry, Logs, Reply};
use rand_core::utils::NextWord;
use rand_pcg::Lcg64Xsh32;
use rtheap_core::RunEnd;
use saved_heap::Recorder;
use std::alloc::Global;
use std::process::Abort;
use std::sync::Wait;
use std::test::Fail;
use std::thread::Threads;
use trace_text::MemSink;

/// A command that may be out of bounds or answered `Full`.
fn drawn_command(draws: &mut Lcg64Xsh32) -> Command {
    let (d, s) = (
        (draws.next_word() % 17) as u8,
        (draws.next_word() % 8) as u8,
    );
    let i = u64::from(draws.next_word() % 5);
    match draws.next_word() % 8 {
        0..=2 => Command::New {
            d,
            fields: draws.next_word() % 9,
        },
        3 => Command::Get { d, s, i },
        4 => Command::Put { s, i, v: d },
        5 => Command::Say { s: d },
        6 => Command::Nil { d },
        _ => Command::Swap { s, i, v: d },
    }
}

/// Whether the entries have these replies.
fn have_replies(entries: &[Entry], replies: &[Reply]) -> bool {
    if entries.len() != replies.len() {
        return false;
    }
    for (entry, reply) in entries.iter().zip(replies) {
        if entry.reply != *reply {
            return false;
        }
    }
    true
}

/// Records a drawn program, and runs its record.
fn runs_as_it_was_seen(
    rt: &(impl Abort + Threads + Wait + Sync),
    alloc: Global,
    width: Width,
    key: u64,
) -> Result<(), Fail> {
    let config = Config {
        width,
        threads: 1,
        blocks: 64,
        live: 20,
        object: 2,
        shared: 4,
    };
    let sink = MemSink::new(alloc, 100_000, Vec::new(alloc))
        .ok()
        .ok_or("memory")?;
    let mut recorder = match ControlHeap::open(alloc, config) {
        Ok(heap) => Recorder::new(heap, sink),
        Err(_) => return Err("it does not open".into()),
    };
    let mut draws = Lcg64Xsh32::new(key, 1);
    let mut replies = Vec::new(alloc);
    for _command in 0..400 {
        if let Ok(reply) = recorder.ask(drawn_command(&mut draws)) {
            replies.push(reply)?;
        }
    }
    let ended = recorder.end();
    let input = str::from_utf8(ended.sink.bytes()).ok().ok_or("text")?;
    let (exit, _sink) = made(rt, alloc, &Call::run(input))?;
    let Some(RunEnd::Ran(run)) = exit.run else {
        return Err("nothing was run".into());
    };
    assert!(rt; run.threads() == 1);
    assert!(rt;
        have_replies(run.entries(0), replies.as_slice()),
        "program {key}"
    );
    Ok(())
}

#[test]
fn a_record_runs_as_the_program_saw_it(rt: HostRuntime) -> Result<(), Fail> {
    for key in 0..20 {
        runs_as_it_was_seen(&rt, rt.alloc(), Width::Four, key)?;
        runs_as_it_was_seen(&rt, rt.alloc(), Width::Eight, key)?;
    }
    Ok(())
}
