//! Calls of `live_tables`.
#![tactic(auto, using(live_tables::proofs::rows::Crews::of_same))]

ghost use Rattle.std.specs.Prelude.{IfOk};
ghost use Rattle.live_tables.specs.rows.Workers.{AreEachOnce, AreInOrder, IsOf, IsSameWorker};

use live_tables::handles::{HandleWorker, LiveHandles, OpenFault, Refused};
use std::alloc::Global;
use std::marker::Model;
use std::sync::Wait;

// What a slot shows: the id of a handle, and its number.
pub type Shown = Option<(u64, u64)>;

pub fn open(
    alloc: Global,
    slots: u32,
    threads: u32,
) -> Result<(LiveHandles, Vec<HandleWorker>), OpenFault>
    ensures { IfOk result (λ r. AreInOrder r.0 r.1.items) }
{
    LiveHandles::open(alloc, slots, threads)
}

// Why slots are not opened.
pub fn fault_of(alloc: Global, slots: u32, threads: u32) -> Option<OpenFault> {
    LiveHandles::open(alloc, slots, threads).err()
}

pub fn make<R: Wait>(
    rt: &R,
    table: &LiveHandles,
    who: &mut HandleWorker,
    handle: u8,
    slot: u32,
    number: u64,
) -> Result<bool, Refused>
    requires { IsOf table.now who.old }
    ensures own { IsOf table.now who.new }
    ensures same { IsSameWorker who.old who.new }
{
    table.make(rt, who, handle, slot, number)
}

pub fn see<R: Wait>(
    rt: &R,
    table: &LiveHandles,
    who: &mut HandleWorker,
    handle: u8,
) -> Result<bool, Refused>
    requires { IsOf table.now who.old }
    ensures own { IsOf table.now who.new }
    ensures same { IsSameWorker who.old who.new }
{
    table.see(rt, who, handle)
}

pub fn release<R: Wait>(
    rt: &R,
    table: &LiveHandles,
    who: &mut HandleWorker,
    handle: u8,
) -> Result<bool, Refused>
    requires { IsOf table.now who.old }
    ensures own { IsOf table.now who.new }
    ensures same { IsSameWorker who.old who.new }
{
    table.release(rt, who, handle)
}

pub fn take<R: Wait>(
    rt: &R,
    table: &LiveHandles,
    who: &mut HandleWorker,
    slot: u32,
) -> Result<Shown, Refused>
    requires { IsOf table.now who.old }
    ensures own { IsOf table.now who.new }
    ensures same { IsSameWorker who.old who.new }
{
    table.take(rt, who, slot)
}

pub fn evict<R: Wait>(
    rt: &R,
    table: &LiveHandles,
    who: &mut HandleWorker,
    slot: u32,
) -> Result<Shown, Refused>
    requires { IsOf table.now who.old }
    ensures own { IsOf table.now who.new }
    ensures same { IsSameWorker who.old who.new }
{
    table.evict(rt, who, slot)
}

pub fn close(table: LiveHandles, workers: Vec<HandleWorker>) -> u64
    requires { AreEachOnce table workers.items }
{
    table.close(workers)
}

/// A worker beside its slots.
#[derive(Drop)]
pub struct Seat<'t> {
    table: &'t LiveHandles,
    who: HandleWorker,
}

impl<'t> Model for Seat<'t> {
    ghost use Rattle.live_tables.specs.handles.Live.{HandleWorkerState};
    ghost use Rattle.live_tables.specs.rows.Workers.{IsOf};

    ghost Value = { HandleWorkerState };

    ghost view = { λ s. s.who };

    ghost invariant = { λ s. IsOf s.table.now s.who };
}

/// What a worker is asked.
#[derive(Clone, Copy)]
pub enum Request {
    Make { handle: u8, slot: u32, number: u64 },
    See { handle: u8 },
    Release { handle: u8 },
    Take { slot: u32 },
    Evict { slot: u32 },
    /// To make a note and learn it.
    Note,
}

#[derive(Clone, Copy, Debug, PartialEq, Eq)]
pub enum Answer {
    Matched(bool),
    Found(Shown),
    Refused(Refused),
    Noted,
}

fn matched(told: Result<bool, Refused>) -> Answer {
    match told {
        Ok(yes) => Answer::Matched(yes),
        Err(refused) => Answer::Refused(refused),
    }
}

fn found(told: Result<Shown, Refused>) -> Answer {
    match told {
        Ok(shown) => Answer::Found(shown),
        Err(refused) => Answer::Refused(refused),
    }
}

impl<'t> Seat<'t> {
    pub fn of(table: &'t LiveHandles, who: HandleWorker) -> Seat<'t>
        requires { IsOf table.now who }
    {
        Seat { table, who }
    }

    pub fn thread(&self) -> u32 {
        self.who.thread()
    }

    pub fn ask<R: Wait>(&mut self, rt: &R, request: Request) -> Answer {
        match request {
            Request::Make {
                handle,
                slot,
                number,
            } => self.make(rt, handle, slot, number),
            Request::See { handle } => self.see(rt, handle),
            Request::Release { handle } => self.release(rt, handle),
            Request::Take { slot } => self.take(rt, slot),
            Request::Evict { slot } => self.evict(rt, slot),
            Request::Note => self.learn_own_note(),
        }
    }

    fn make<R: Wait>(&mut self, rt: &R, handle: u8, slot: u32, number: u64) -> Answer {
        matched(self.table.make(rt, &mut self.who, handle, slot, number))
    }

    fn see<R: Wait>(&mut self, rt: &R, handle: u8) -> Answer {
        matched(self.table.see(rt, &mut self.who, handle))
    }

    fn release<R: Wait>(&mut self, rt: &R, handle: u8) -> Answer {
        matched(self.table.release(rt, &mut self.who, handle))
    }

    fn take<R: Wait>(&mut self, rt: &R, slot: u32) -> Answer {
        found(self.table.take(rt, &mut self.who, slot))
    }

    fn evict<R: Wait>(&mut self, rt: &R, slot: u32) -> Answer {
        found(self.table.evict(rt, &mut self.who, slot))
    }

    fn learn_own_note(&mut self) -> Answer {
        let note = self.table.note(&mut self.who);
        self.table.learn(&mut self.who, note);
        Answer::Noted
    }
}
