//! Calls of `live_tables`.
#![tactic(auto, using(live_tables::proofs::rows::Crews::of_same))]

ghost use Rattle.std.specs.Prelude.{IfOk};
ghost use Rattle.live_tables.specs.rows.Workers.{AreEachOnce, AreInOrder, IsOf, IsSameWorker};

use live_tables::rings::{LiveRings, OpenFault, Refused, RingWorker};
use std::alloc::Global;
use std::marker::Model;
use std::sync::Wait;

pub fn open(alloc: Global, threads: u32) -> Result<(LiveRings, Vec<RingWorker>), OpenFault>
    ensures { IfOk result (λ r. AreInOrder r.0 r.1.items) }
{
    LiveRings::open(alloc, threads)
}

// Why rings are not opened.
pub fn fault_of(alloc: Global, threads: u32) -> Option<OpenFault> {
    LiveRings::open(alloc, threads).err()
}

pub fn keep<R: Wait>(
    rt: &R,
    rings: &LiveRings,
    who: &mut RingWorker,
    number: u64,
) -> Result<(), Refused>
    requires { IsOf rings.now who.old }
    ensures own { IsOf rings.now who.new }
    ensures same { IsSameWorker who.old who.new }
{
    rings.keep(rt, who, number)
}

pub fn recall<R: Wait>(
    rt: &R,
    rings: &LiveRings,
    who: &mut RingWorker,
    thread: u32,
    place: u32,
) -> Result<Option<u64>, Refused>
    requires { IsOf rings.now who.old }
    ensures own { IsOf rings.now who.new }
    ensures same { IsSameWorker who.old who.new }
{
    rings.recall(rt, who, thread, place)
}

pub fn close(rings: LiveRings, workers: Vec<RingWorker>) -> u64
    requires { AreEachOnce rings workers.items }
{
    rings.close(workers)
}

/// A worker beside its rings.
#[derive(Drop)]
pub struct Seat<'t> {
    rings: &'t LiveRings,
    who: RingWorker,
}

impl<'t> Model for Seat<'t> {
    ghost use Rattle.live_tables.specs.rings.Live.{RingWorkerState};
    ghost use Rattle.live_tables.specs.rows.Workers.{IsOf};

    ghost Value = { RingWorkerState };

    ghost view = { λ s. s.who };

    ghost invariant = { λ s. IsOf s.rings.now s.who };
}

/// What a worker is asked.
#[derive(Clone, Copy)]
pub enum Request {
    Keep { number: u64 },
    Recall { thread: u32, place: u32 },
    /// How many numbers it has kept.
    Count,
    /// To make a note and learn it.
    Note,
}

#[derive(Clone, Copy, Debug, PartialEq, Eq)]
pub enum Answer {
    Done,
    Found(Option<u64>),
    Refused(Refused),
    Kept(u64),
}

fn done(told: Result<(), Refused>) -> Answer {
    match told {
        Ok(()) => Answer::Done,
        Err(refused) => Answer::Refused(refused),
    }
}

fn found(told: Result<Option<u64>, Refused>) -> Answer {
    match told {
        Ok(number) => Answer::Found(number),
        Err(refused) => Answer::Refused(refused),
    }
}

impl<'t> Seat<'t> {
    pub fn of(rings: &'t LiveRings, who: RingWorker) -> Seat<'t>
        requires { IsOf rings.now who }
    {
        Seat { rings, who }
    }

    pub fn thread(&self) -> u32 {
        self.who.thread()
    }

    pub fn ask<R: Wait>(&mut self, rt: &R, request: Request) -> Answer {
        match request {
            Request::Keep { number } => self.keep(rt, number),
            Request::Recall { thread, place } => self.recall(rt, thread, place),
            Request::Count => Answer::Kept(self.who.kept()),
            Request::Note => self.learn_own_note(),
        }
    }

    fn keep<R: Wait>(&mut self, rt: &R, number: u64) -> Answer {
        done(self.rings.keep(rt, &mut self.who, number))
    }

    fn recall<R: Wait>(&mut self, rt: &R, thread: u32, place: u32) -> Answer {
        found(self.rings.recall(rt, &mut self.who, thread, place))
    }

    fn learn_own_note(&mut self) -> Answer {
        let note = self.rings.note(&mut self.who);
        self.rings.learn(&mut self.who, note);
        Answer::Done
    }
}
