//! Calls of `live_tables`.
#![tactic(auto, using(live_tables::proofs::rows::Crews::of_same))]

ghost use Rattle.std.specs.Prelude.{IfOk};
ghost use Rattle.live_tables.specs.rows.Workers.{AreEachOnce, AreInOrder, IsOf, IsSameWorker};

use live_tables::tags::{LiveTags, OpenFault, Refused, TagWorker};
use std::alloc::Global;
use std::marker::Model;
use std::sync::Wait;

pub type Tag = Option<(u64, u64)>;

pub fn open(alloc: Global, tags: u32, threads: u32) -> Result<(LiveTags, Vec<TagWorker>), OpenFault>
    ensures { IfOk result (λ r. AreInOrder r.0 r.1.items) }
{
    LiveTags::open(alloc, tags, threads)
}

// Why a table is not opened.
pub fn fault_of(alloc: Global, tags: u32, threads: u32) -> Option<OpenFault> {
    LiveTags::open(alloc, tags, threads).err()
}

pub fn write<R: Wait>(
    rt: &R,
    table: &LiveTags,
    who: &mut TagWorker,
    place: u32,
    tag: (u64, u64),
) -> Result<Tag, Refused>
    requires { IsOf table.now who.old }
    ensures own { IsOf table.now who.new }
    ensures same { IsSameWorker who.old who.new }
{
    table.write(rt, who, place, tag.0, tag.1)
}

pub fn clear<R: Wait>(
    rt: &R,
    table: &LiveTags,
    who: &mut TagWorker,
    place: u32,
) -> Result<Tag, Refused>
    requires { IsOf table.now who.old }
    ensures own { IsOf table.now who.new }
    ensures same { IsSameWorker who.old who.new }
{
    table.clear(rt, who, place)
}

pub fn read<R: Wait>(
    rt: &R,
    table: &LiveTags,
    who: &mut TagWorker,
    place: u32,
) -> Result<Tag, Refused>
    requires { IsOf table.now who.old }
    ensures own { IsOf table.now who.new }
    ensures same { IsSameWorker who.old who.new }
{
    table.read(rt, who, place)
}

pub fn close(table: LiveTags, workers: Vec<TagWorker>) -> u64
    requires { AreEachOnce table workers.items }
{
    table.close(workers)
}

/// A worker beside its table.
#[derive(Drop)]
pub struct Seat<'t> {
    table: &'t LiveTags,
    who: TagWorker,
}

impl<'t> Model for Seat<'t> {
    ghost use Rattle.live_tables.specs.tags.Live.{TagWorkerState};
    ghost use Rattle.live_tables.specs.rows.Workers.{IsOf};

    ghost Value = { TagWorkerState };

    ghost view = { λ s. s.who };

    ghost invariant = { λ s. IsOf s.table.now s.who };
}

/// What a worker is asked.
#[derive(Clone, Copy)]
pub enum Request {
    Read { place: u32 },
    Write { place: u32, tag: (u64, u64) },
    Clear { place: u32 },
    /// To make a note and learn it.
    Note,
    Stamp,
}

#[derive(Clone, Copy, Debug, PartialEq, Eq)]
pub enum Answer {
    Was(Tag),
    Refused(Refused),
    Noted,
    Drawn(u64),
}

fn was(told: Result<Tag, Refused>) -> Answer {
    match told {
        Ok(tag) => Answer::Was(tag),
        Err(refused) => Answer::Refused(refused),
    }
}

impl<'t> Seat<'t> {
    pub fn of(table: &'t LiveTags, who: TagWorker) -> Seat<'t>
        requires { IsOf table.now who }
    {
        Seat { table, who }
    }

    pub fn thread(&self) -> u32 {
        self.who.thread()
    }

    pub fn ask<R: Wait>(&mut self, rt: &R, request: Request) -> Answer {
        match request {
            Request::Read { place } => self.read(rt, place),
            Request::Write { place, tag } => self.write(rt, place, tag),
            Request::Clear { place } => self.clear(rt, place),
            Request::Note => self.learn_own_note(),
            Request::Stamp => self.stamp(),
        }
    }

    fn write<R: Wait>(&mut self, rt: &R, place: u32, tag: (u64, u64)) -> Answer {
        was(self.table.write(rt, &mut self.who, place, tag.0, tag.1))
    }

    fn clear<R: Wait>(&mut self, rt: &R, place: u32) -> Answer {
        was(self.table.clear(rt, &mut self.who, place))
    }

    fn read<R: Wait>(&mut self, rt: &R, place: u32) -> Answer {
        was(self.table.read(rt, &mut self.who, place))
    }

    fn learn_own_note(&mut self) -> Answer {
        let note = self.table.note(&mut self.who);
        self.table.learn(&mut self.who, note);
        Answer::Noted
    }

    #[tactic(auto, using(crate::proofs::WorkersOfHeap::of_drawn))]
    fn stamp(&mut self) -> Answer {
        Answer::Drawn(self.table.stamp(&mut self.who))
    }
}
