//! The times at which commands began.

use crate::time_histograms::Times;
use block_store::OutOfMemory;
use heap_system::Pace;
use std::alloc::Global;
use std::sync::Wait;
use std::sync::atomic::{AtomicU64, Ordering};
use std::time::{Clock, CpuClock, Duration};

/// The most threads of a job, and the most commands of a thread.
const THREADS: usize = 16;

const COMMANDS: usize = 131_072;

/// How often the clock is read to tell the time of one reading.
const READINGS: usize = 1_001;

/// A pace that reads the clocks before each command, and stores what it read in two words of that
/// command's own. All words are there before the run, so it takes no memory, no lock, and two
/// atomic operations a command. A word that is 0 was not written.
#[derive(Drop)]
pub struct Stamps<'a, C> {
    clock: &'a C,
    words: Vec<AtomicU64>,
    /// The processor time of the command's thread.
    used: Vec<AtomicU64>,
}

impl<'a, C: Clock + CpuClock + Sync> Stamps<'a, C> {
    pub fn new(alloc: Global, clock: &'a C) -> Result<Stamps<'a, C>, OutOfMemory> {
        Ok(Stamps {
            clock,
            words: zeros(alloc)?,
            used: zeros(alloc)?,
        })
    }

    /// How many nanoseconds lie between the beginning of this command of a thread, from 0, and that
    /// of the next, where both were told.
    pub fn elapsed(&self, thread: u32, command: usize) -> Option<u64> {
        between(&self.words, thread, command)
    }

    /// For how many of these nanoseconds the thread had a processor.
    pub fn used(&self, thread: u32, command: usize) -> Option<u64> {
        between(&self.used, thread, command)
    }
}

/// What lies between the stamp of a command and that of the next.
fn between(words: &[AtomicU64], thread: u32, command: usize) -> Option<u64> {
    let from = stamp(words, thread, command)?;
    let to = stamp(words, thread, command.saturating_add(1))?;
    Some(to.saturating_sub(from))
}

fn stamp(words: &[AtomicU64], thread: u32, command: usize) -> Option<u64> {
    let word = words.get(place(thread, command as u64)?)?;
    let stamp = word.load(Ordering::SeqCst);
    if stamp == 0 { None } else { Some(stamp) }
}

/// A word for each command of the largest job.
fn zeros(alloc: Global) -> Result<Vec<AtomicU64>, OutOfMemory> {
    let mut words = Vec::with_capacity(alloc, THREADS * COMMANDS)?;
    for _word in 0..THREADS * COMMANDS {
        words.push(AtomicU64::new(0))?;
    }
    Ok(words)
}

impl<'a, C: Clock + CpuClock + Sync> Pace for Stamps<'a, C> {
    fn before<R: Wait>(&self, _rt: &R, thread: u32, command: u64) {
        let Some(place) = place(thread, command) else {
            return;
        };
        if let Some(word) = self.used.get(place) {
            word.store(processor_nanoseconds(self.clock), Ordering::SeqCst);
        }
        if let Some(word) = self.words.get(place) {
            word.store(nanoseconds(self.clock), Ordering::SeqCst);
        }
    }
}

/// Where the word of a command is.
fn place(thread: u32, command: u64) -> Option<usize> {
    if thread < THREADS as u32 && command < COMMANDS as u64 {
        Some(thread as usize * COMMANDS + command as usize)
    } else {
        None
    }
}

/// What the clock reads; 0 where it cannot be read.
fn nanoseconds<C: Clock>(clock: &C) -> u64 {
    match clock.monotonic() {
        Ok(time) => nanoseconds_in(time),
        Err(_) => 0,
    }
}

/// What the clock of this thread's processor time reads; 0 where it cannot be read.
fn processor_nanoseconds<C: CpuClock>(clock: &C) -> u64 {
    match clock.thread_cpu_time() {
        Ok(time) => nanoseconds_in(time),
        Err(_) => 0,
    }
}

fn nanoseconds_in(time: Duration) -> u64 {
    let seconds = time.as_secs().saturating_mul(1_000_000_000);
    seconds.saturating_add(u64::from(time.subsec_nanos()))
}

/// The median of the times between two readings of both clocks, one directly after the other.
pub fn reading_time<C: Clock + CpuClock>(alloc: Global, clock: &C) -> Result<u64, OutOfMemory> {
    let mut times = Vec::with_capacity(alloc, READINGS)?;
    let mut before = nanoseconds(clock);
    for _reading in 0..READINGS {
        let _used = processor_nanoseconds(clock);
        let now = nanoseconds(clock);
        times.push(now.saturating_sub(before))?;
        before = now;
    }
    Ok(Times::new(times).percentile(500).unwrap_or(0))
}
