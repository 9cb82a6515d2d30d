//! The times of a run, by kinds of commands and by threads.

ghost use Rattle.std.specs.Prelude.{◌≡◌, ◌<◌, ◌≤◌, ◌^◌, length, IfOk, IsPermutation};
ghost use Rattle.std.specs.List.{All, sum_by};
ghost use Rattle.timed_runs.specs.Lines.{line_in};
ghost use Rattle.timed_runs.specs.Samples.{is_among, is_thread, asked, times_of, longer_of};
ghost use Rattle.timed_runs.specs.Samples.{longest_of, count_of, count_in, IsCommandOf};

use crate::kinds::Kind;
use crate::stamps::Stamps;
use crate::time_histograms::Times;
use block_store::{OutOfMemory, Width};
use never_heap::{Command, Entry, Logs};
use std::alloc::Global;
use std::time::{Clock, CpuClock};

/// A command, and how long it took.
#[derive(Clone, Copy, Debug)]
pub struct TimedCommand {
    pub nanoseconds: u64,
    /// For how many of these its thread had a processor.
    pub used: Option<u64>,
    pub thread: u32,
    /// Its number among those of its thread, from 0.
    pub number: usize,
    pub command: Command,
}

/// Times of commands, in order, and the first command that took the longest of them.
#[derive(Drop)]
pub struct Sample {
    pub times: Times,
    pub longest: Option<TimedCommand>,
}

/// Which commands are looked at: those of one thread or of all, and of one kind or of all.
#[derive(Clone, Copy, Debug)]
pub struct Which {
    pub thread: Option<u32>,
    pub kind: Option<Kind>,
}

impl Which {
    fn has_thread(self, thread: u32) -> bool
        ensures { result ≡ is_thread self.thread thread }
    {
        match self.thread {
            Some(one) => one == thread,
            None => true,
        }
    }

    fn has(self, width: Width, command: &Command) -> bool
        ensures { result ≡ is_among width self.kind command.now }
    {
        match self.kind {
            Some(kind) => kind.has(width, command),
            None => true,
        }
    }
}

/// The commands of a run that have a time, by threads, and each thread's in their order.
pub fn timed_commands<L: Logs, C: Clock + CpuClock + Sync>(
    alloc: Global,
    run: &L,
    stamps: &Stamps<'_, C>,
) -> Result<Vec<TimedCommand>, OutOfMemory>
    ensures { IfOk result (λ v. All (IsCommandOf (L.logs run.now)) v.items) }
{
    let mut commands = Vec::new(alloc);
    for thread in 0..run.threads() {
        let entries = run.entries(thread);
        for number in 0..entries.len() {
            if let Some(nanoseconds) = stamps.elapsed(thread, number) {
                commands.push(TimedCommand {
                    nanoseconds,
                    used: stamps.used(thread, number),
                    thread,
                    number,
                    command: entries[number].command,
                })?;
            }
        }
    }
    Ok(commands)
}

/// The times of these commands.
pub fn sample_of(
    alloc: Global,
    width: Width,
    commands: &[TimedCommand],
    which: Which,
) -> Result<Sample, OutOfMemory>
    ensures times { IfOk result (λ s.
        IsPermutation (times_of (asked width which commands.now)) s.times) }
    ensures longest { IfOk result (λ s. s.longest ≡ longest_of (asked width which commands.now)) }
{
    let mut times = Vec::new(alloc);
    let mut longest = None;
    for one in commands {
        if which.has_thread(one.thread) && which.has(width, &one.command) {
            times.push(one.nanoseconds)?;
            longest = Some(longer(longest, *one));
        }
    }
    Ok(Sample {
        times: Times::new(times),
        longest,
    })
}

/// The one that took longer, and where they took as long the earlier.
fn longer(earlier: Option<TimedCommand>, one: TimedCommand) -> TimedCommand
    ensures { result ≡ longer_of earlier one }
{
    match earlier {
        Some(other) if other.nanoseconds >= one.nanoseconds => other,
        _ => one,
    }
}

/// How many commands of a run these are, timed or not.
pub fn count_commands<L: Logs>(width: Width, run: &L, which: Which) -> u64
    ensures { let count = count_in width which (L.logs run.now) in
        count < 2 ^ 64 → result ≡ count }
{
    match which.thread {
        Some(thread) if thread < run.threads() => count(width, which, run.entries(thread)),
        Some(_) => 0,
        None => count_all(width, run, which),
    }
}

fn count_all<L: Logs>(width: Width, run: &L, which: Which) -> u64
    ensures { let count = sum_by (count_of width which.kind) (L.logs run.now) in
        count < 2 ^ 64 → result ≡ count }
{
    let mut total: u64 = 0;
    for thread in 0..run.threads() {
        total = total.saturating_add(count(width, which, run.entries(thread)));
    }
    total
}

/// How many commands of a thread are of this kind, or how many there are.
fn count(width: Width, which: Which, entries: &[Entry]) -> u64
    ensures is { result ≡ count_of width which.kind entries.now }
    ensures few { result ≤ length entries.now }
{
    let mut count = 0;
    for entry in entries {
        if which.has(width, &entry.command) {
            count += 1;
        }
    }
    count
}

/// The line of the job that has this command: after the header, each thread has a line, and then
/// those of its commands.
pub fn line_of<L: Logs>(run: &L, thread: u32, number: usize) -> u64
    ensures { let line = line_in (L.logs run.now) thread number in
        thread < length (L.logs run.now) → line < 2 ^ 64 → result ≡ line }
{
    let mut line: u64 = 3;
    for other in 0..thread.min(run.threads()) {
        line = line
            .saturating_add(run.entries(other).len() as u64)
            .saturating_add(1);
    }
    line.saturating_add(number as u64)
}
