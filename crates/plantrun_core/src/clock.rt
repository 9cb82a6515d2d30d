//! Time: the ticks, and how long calls take.

use std::thread;
use std::time::{Clock, Duration};

/// When the ticks of a plant are.
#[derive(Clone, Copy)]
pub struct Ticks {
    /// When tick 0 is, in nanoseconds of the clock.
    pub start: u64,
    /// How many nanoseconds lie between two ticks.
    pub period: u64,
    /// How many ticks there are.
    pub count: u64,
}

impl Ticks {
    /// When a tick is.
    pub fn at(&self, tick: u64) -> u64 {
        self.start.saturating_add(self.period.saturating_mul(tick))
    }

    /// Waits for a tick.
    pub fn wait<C: Clock>(&self, clock: &C, tick: u64) {
        let left = self.at(tick).saturating_sub(nanoseconds(clock));
        if left > 0 {
            thread::sleep(clock, Duration::from_nanos(left));
        }
    }
}

/// What the clock reads; 0 where it cannot be read.
pub fn nanoseconds<C: Clock>(clock: &C) -> u64 {
    match clock.monotonic() {
        Ok(time) => u64::try_from(time.as_nanos()).unwrap_or(u64::MAX),
        Err(_) => 0,
    }
}
