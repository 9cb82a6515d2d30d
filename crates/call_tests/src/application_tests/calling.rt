//! Whole calls over sources and sinks in memory, by the program that is called.

use atom_board::Closed;
use heap_system::{NoPace, Pace};
use never_heap::{Command, Logs};
use rt_handles::handles;
use rt_tags::tags;
use std::alloc::Global;
use std::process::Abort;
use std::sync::Wait;
use std::sync::atomic::{AtomicU64, Ordering};
use std::test::Fail;
use std::thread::Threads;
use test_kit::{Call, Lent, Meeting};
use trace_text::MemSink;

/// A program by its top call.
#[derive(Clone, Copy)]
pub enum Program {
    Tags,
    Handles,
}

/// How a call ended: its status and that which was due, the run that it shows, and what it wrote.
#[derive(Drop)]
pub struct Ended {
    pub statuses: (u8, u8),
    pub run: Option<Closed>,
    pub sink: MemSink,
}

/// Makes a call at a pace.
pub fn made<R: Threads + Wait + Sync>(
    rt: &R,
    alloc: Global,
    program: Program,
    call: &Call<'_>,
    pace: &impl Pace,
) -> Result<Ended, Fail> {
    let Lent {
        words,
        mut source,
        mut sink,
    } = Lent::of(alloc, call).ok().ok_or("memory")?;
    let (statuses, run) = match program {
        Program::Tags => {
            let exit = tags(rt, alloc, &words, &mut source, &mut sink, pace);
            ((exit.status, exit.due), exit.run)
        }
        Program::Handles => {
            let exit = handles(rt, alloc, &words, &mut source, &mut sink, pace);
            ((exit.status, exit.due), exit.run)
        }
    };
    Ok(Ended {
        statuses,
        run,
        sink,
    })
}

/// Whether a call ends with these statuses and lines, and shows a run where nothing refused it.
pub fn ends<R: Threads + Wait + Sync + Abort>(
    rt: &R,
    alloc: Global,
    program: Program,
    call: &Call<'_>,
    statuses: (u8, u8),
    lines: &str,
) -> Result<(), Fail> {
    let ended = made(rt, alloc, program, call, &NoPace)?;
    assert_eq!(rt; ended.statuses, statuses);
    assert_eq!(rt; ended.run.is_some(), statuses.1 == 0);
    assert_eq!(rt; ended.sink.bytes(), lines.as_bytes());
    Ok(())
}

/// How many records a run made, if each made so many units, and no other command any.
pub fn records_at<L: Logs>(run: &L, units: u64) -> Option<u64> {
    let mut records = 0u64;
    for thread in 0..run.threads() {
        for entry in run.entries(thread) {
            let owed = match entry.command {
                Command::New { .. } => {
                    records = records.saturating_add(1);
                    units
                }
                _ => 0,
            };
            if entry.work != owed {
                return None;
            }
        }
    }
    Some(records)
}

/// Whether two threads of a script run beside each other, the pace is told of so many commands of
/// each, one after the other, and the call ends with these lines.
pub fn meets<R: Threads + Wait + Sync + Abort>(
    rt: &R,
    alloc: Global,
    program: Program,
    input: &str,
    commands: u64,
    lines: &str,
) -> Result<(), Fail> {
    let pace = InTurn::new();
    let ended = made(rt, alloc, program, &Call::of(input.as_bytes()), &pace)?;
    assert_eq!(rt; ended.statuses, (0, 0));
    assert_eq!(rt; ended.sink.bytes(), lines.as_bytes());
    assert!(rt; pace.meeting.took_place());
    assert_eq!(rt; pace.told(), Some((commands, commands)));
    Ok(())
}

/// A meeting of two threads at the first two commands of each, and how many commands each was told
/// of, if that was one after the other.
#[derive(Drop)]
struct InTurn {
    meeting: Meeting,
    first: AtomicU64,
    second: AtomicU64,
    /// How often a thread was told of another command than its next one.
    other: AtomicU64,
}

impl InTurn {
    fn new() -> InTurn {
        InTurn {
            meeting: Meeting::new(),
            first: AtomicU64::new(0),
            second: AtomicU64::new(0),
            other: AtomicU64::new(0),
        }
    }

    /// How many commands each thread was told of, if each was told of its commands 0, 1 and so on,
    /// each once.
    fn told(&self) -> Option<(u64, u64)> {
        if self.other.load(Ordering::SeqCst) > 0 {
            return None;
        }
        let first = self.first.load(Ordering::SeqCst);
        Some((first, self.second.load(Ordering::SeqCst)))
    }

    fn count(&self, counter: &AtomicU64, command: u64) {
        if counter.fetch_add(1, Ordering::SeqCst) != command {
            self.other.fetch_add(1, Ordering::SeqCst);
        }
    }
}

impl Pace for InTurn {
    fn before<R: Wait>(&self, rt: &R, thread: u32, command: u64) {
        match thread {
            0 => self.count(&self.first, command),
            1 => self.count(&self.second, command),
            _ => {
                self.other.fetch_add(1, Ordering::SeqCst);
            }
        }
        if command < 2 {
            self.meeting.before(rt, thread, command);
        }
    }
}
