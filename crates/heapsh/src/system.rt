//! A system whose threads make their events one by one, and the job that it begins with.

ghost use Rattle.std.specs.Prelude.{IfOk};
ghost use Rattle.rate_plan.specs.Rates.{IsAdmitted};
ghost use Rattle.trace_text.specs.Jobs.{IsJobInBounds};

use block_store::{OutOfMemory, Places};
use heap_machine::Op;
use heap_system::{Finished, Local, System, Turn};
use never_heap::{Entry, Item, Logs};
use rate_plan::plan;
use rtheap_core::schedules::{Schedule, replay};
use std::alloc::Global;
use std::marker::Model;
use trace_text::{Job, MemSource, TraceFault, read_trace};

/// For so many turns the order is kept.
const TURNS: u64 = 1_000_000;

/// The most bytes of a read.
const PIECE: usize = 65_536;

/// A system that keeps its order, and for how many turns at least there is room.
#[derive(Drop)]
pub struct Held {
    system: System,
    left: u64,
}

impl Model for Held {
    ghost use Rattle.std.specs.Prelude.{◌≤◌, IfSome};
    ghost use Rattle.heap_system.specs.Systems.{Whole};

    ghost Value = { Whole };

    ghost view = { λ h. h.system };

    ghost invariant = { λ h. IfSome h.system.ordered (λ o. h.left ≤ o.left) };
}

/// Why a job has no system.
#[derive(Clone, Copy)]
pub enum NotOpened {
    NoMemory,
    /// The text is no job.
    Text(TraceFault),
    /// The configuration has no rate.
    Plan(&'static str),
}

impl From<OutOfMemory> for NotOpened {
    fn from(_e: OutOfMemory) -> NotOpened {
        NotOpened::NoMemory
    }
}

/// An event: the operation, the word that it found, and what became of it.
#[derive(Clone, Copy)]
pub struct Made {
    pub op: Op,
    pub found: u64,
    pub turn: Turn,
}

/// The system of the job of a text.
pub fn system_of(alloc: Global, text: Vec<u8>) -> Result<Held, NotOpened> {
    let job = job_in(alloc, text)?;
    match plan(&job.config) {
        Ok(_) => Ok(opened(alloc, job)?),
        Err(fault) => Err(NotOpened::Plan(fault.text())),
    }
}

fn job_in(alloc: Global, text: Vec<u8>) -> Result<Job, NotOpened>
    ensures { IfOk result IsJobInBounds }
{
    let mut source = MemSource::new(text, PIECE, Vec::new(alloc));
    match read_trace(alloc, &mut source) {
        Ok(job) => Ok(job),
        Err(fault) => Err(NotOpened::Text(fault)),
    }
}

/// The opening of a job.
fn opened(alloc: Global, job: Job) -> Result<Held, OutOfMemory>
    requires bounds { IsJobInBounds job }
    requires admitted { IsAdmitted job.config }
{
    let system = System::new_ordered(alloc, job.config, job.traces, TURNS)?;
    Ok(Held {
        system,
        left: TURNS,
    })
}

impl Held {
    /// A thread, if there is one of that number.
    pub fn local(&self, thread: u32) -> Option<&Local> {
        if thread < self.system.config().threads {
            Some(self.system.local(thread))
        } else {
            None
        }
    }

    /// Makes a turn of a thread, if there is one of that number and room for a turn.
    pub fn turn(&mut self, thread: u32) -> Option<Turn> {
        if self.left > 0 && thread < self.system.config().threads {
            let turn = self.system.turn(thread);
            self.left -= 1;
            Some(turn)
        } else {
            None
        }
    }

    /// Makes so many turns of a thread, and returns what the last was.
    pub fn turns(&mut self, thread: u32, turns: u64) -> Option<Turn> {
        let mut last = None;
        for _turn in 0..turns {
            last = self.turn(thread);
            if last.is_none() {
                break;
            }
        }
        last
    }

    pub fn has_thread(&self, thread: u32) -> bool {
        thread < self.system.config().threads
    }

    /// How many entries the log of a thread has.
    pub fn entries(&self, thread: u32) -> u64 {
        match self.local(thread) {
            Some(local) => entries(local),
            None => 0,
        }
    }

    /// The units that are paid for the command in hand.
    pub fn paid(&self, thread: u32) -> u64 {
        match self.local(thread) {
            Some(local) => local.paid(),
            None => 0,
        }
    }

    pub fn is_at_rest(&self, thread: u32) -> bool {
        match self.local(thread) {
            Some(local) => local.at_rest(),
            None => true,
        }
    }

    /// Whether a thread has so many entries, or is done.
    pub fn has_so_many(&self, thread: u32, entries: u64) -> bool {
        match self.local(thread) {
            Some(local) => local.done() || self.entries(thread) >= entries,
            None => true,
        }
    }

    /// The operation of a thread's next event. `None` where the thread is done, or none.
    pub fn next(&self, thread: u32) -> Option<Op> {
        match self.local(thread) {
            Some(local) => want(local),
            None => None,
        }
    }

    /// Makes a turn of a thread that is not done.
    pub fn event(&mut self, thread: u32) -> Option<Made> {
        let op = self.next(thread)?;
        let found = self.word(place_of(&op))?;
        let turn = self.turn(thread)?;
        Some(Made { op, found, turn })
    }

    /// Makes turns of a schedule, until all threads are done; no more can be made then. Returns the
    /// least thread that is not done.
    pub fn replay(&mut self, schedule: Schedule, turns: u64) -> Option<u32> {
        let turns = if turns < self.left { turns } else { self.left };
        self.left = 0;
        replay(&mut self.system, schedule, turns)
    }

    /// How many words the heap has.
    pub fn size(&self) -> usize {
        Places::new(self.system.config()).words()
    }

    /// The word at a place.
    pub fn word(&self, place: usize) -> Option<u64> {
        if place < Places::new(self.system.config()).words() {
            Some(self.system.word(place))
        } else {
            None
        }
    }

    /// The colour word of a block.
    pub fn colour(&self, block: u32) -> Option<u64> {
        if block < 1 || block > self.system.config().blocks {
            return None;
        }
        self.word(Places::new(self.system.config()).colour(block))
    }

    /// Which blocks are black. Black is 2.
    fn black(&self, alloc: Global) -> Result<Vec<u32>, OutOfMemory> {
        let mut blocks = Vec::new(alloc);
        for block in 1..self.system.config().blocks.saturating_add(1) {
            if self.colour(block) == Some(2) {
                blocks.push(block)?;
            }
        }
        Ok(blocks)
    }

    /// Makes a turn of a thread, and adds to a list the blocks that are black now.
    pub fn blacken(
        &mut self,
        alloc: Global,
        thread: u32,
        list: &mut Vec<u32>,
    ) -> Result<(), OutOfMemory> {
        let _turn = self.turn(thread);
        for block in self.black(alloc)?.iter() {
            if !list.contains(block) {
                list.push(*block)?;
            }
        }
        Ok(())
    }

    /// An entry of a thread's log.
    pub fn entry(&self, thread: u32, number: usize) -> Option<Entry> {
        match self.local(thread) {
            Some(local) => local.log().get(number).copied(),
            None => None,
        }
    }

    /// The order so far.
    pub fn order(&self) -> &[Item] {
        self.system.order().unwrap_or(&[])
    }

    /// Ends a run whose threads are done, and returns its cycles and units.
    pub fn finish(self) -> Result<(u64, u64), Held> {
        let left = self.left;
        match self.system.finish() {
            Ok(finished) => Ok(ended(&finished)),
            Err(unfinished) => Err(Held {
                system: unfinished.system,
                left,
            }),
        }
    }
}

fn ended(run: &Finished) -> (u64, u64) {
    (run.cycles(), run.units())
}

fn entries(local: &Local) -> u64 {
    local.log().len() as u64
}

fn want(local: &Local) -> Option<Op> {
    if local.done() {
        None
    } else {
        Some(local.want())
    }
}

fn place_of(op: &Op) -> usize {
    match *op {
        Op::Load { place }
        | Op::Exchange { place, .. }
        | Op::CompareExchange { place, .. }
        | Op::FetchAdd { place, .. }
        | Op::FetchSub { place, .. } => place,
    }
}
