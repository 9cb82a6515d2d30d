//! Calls of `live_tables`.

ghost use Rattle.live_tables.specs.rows.Workers.{IsOf};

use live_tables::counters::{CounterWorker, LiveCounters};
use std::marker::Model;
use std::sync::Wait;

/// A worker beside its counters.
#[derive(Drop)]
pub struct Seat<'t> {
    counters: &'t LiveCounters,
    who: CounterWorker,
}

impl<'t> Model for Seat<'t> {
    ghost use Rattle.live_tables.specs.counters.Counters.{CounterWorkerState};
    ghost use Rattle.live_tables.specs.rows.Workers.{IsOf};

    ghost Value = { CounterWorkerState };

    ghost view = { λ s. s.who };

    ghost invariant = { λ s. IsOf s.counters.now s.who };
}

impl<'t> Seat<'t> {
    pub fn of(counters: &'t LiveCounters, who: CounterWorker) -> Seat<'t>
        requires { IsOf counters.now who }
    {
        Seat { counters, who }
    }

    pub fn thread(&self) -> u32 {
        self.who.thread()
    }

    pub fn add<R: Wait>(&mut self, rt: &R, amount: u32) -> Option<u64> {
        if self.who.total() >= 1 << 61 {
            return None;
        }
        self.counters.add(rt, &mut self.who, u64::from(amount))
    }

    pub fn count<R: Wait>(&mut self, rt: &R, thread: u32) -> Option<Option<u64>> {
        if thread >= self.who.threads() {
            return None;
        }
        self.counters.count(rt, &mut self.who, thread)
    }
}
