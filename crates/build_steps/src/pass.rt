//! The part of a thread's work that builds an object.

ghost use Rattle.std.specs.Prelude.{◌≡◌, ◌+◌, ◌-◌, ◌^◌, ◌<◌, ◌≤◌, IsSome, [], length, vec_capacity};
ghost use Rattle.block_store.specs.Colours as colours;
ghost use Rattle.block_store.specs.Colours.{colour_of};
ghost use Rattle.block_store.specs.Places.{extent, index, PayloadOf, IsBlock};
ghost use Rattle.block_store.specs.Payloads as words;
ghost use Rattle.block_store.specs.Widths.{payloads};
ghost use Rattle.heap_machine.specs.Operations.{op_at};
ghost use Rattle.heap_machine.specs.Memories.{ReadsOnly, ActsOnce};
ghost use Rattle.never_heap.specs.Bounds.{IsCommandInRange};
ghost use Rattle.never_heap.specs.Steps.{blocks_of};
ghost use Rattle.build_steps.specs.Rows;
ghost use Rattle.build_steps.specs.Rows.{BuildState, build_want, build_got, build_step, build_reply, building, built_at, built_owner, built_payload, held_got, row_want, row_got, row_step, made_place};
ghost use Rattle.build_steps.specs.Fits.{BuildFits, BuildReads, IsOrdinal};

use crate::BuildRow;
use crate::objects::{link_at, made_register, made_shape};
use block_store::{
    Colour, Name, Payload, Places, WideOwner, Width, black, colour_word, payload_word, read_colour,
    wide_word,
};
use heap_machine::{Memory, Op, Step};
use never_heap::{Command, Reply};
use std::marker::Model;

/// The building of one object, done one event at a time while its thread is inside: its blocks are
/// reserved, collected from the free lists and written, and the object is published.
#[derive(Drop)]
pub struct BuildPass {
    thread: u32,
    threads: u32,
    cycle: u64,
    serial: u64,
    command: Command,
    blocks: u32,
    // The blocks that are held, in the order of their ordinals.
    room: Vec<u32>,
    row: BuildRow,
}

impl Model for BuildPass {
    ghost use Rattle.std.specs.Prelude.{vec_capacity};
    ghost use Rattle.build_steps.specs.Rows.{BuildState};

    ghost Value = { BuildState };

    ghost view = { λ p. record {
      thread = p.thread;
      threads = p.threads;
      cycle = p.cycle;
      serial = p.serial;
      command = p.command;
      blocks = p.blocks;
      held = p.room.items;
      capacity = vec_capacity p.room;
      row = p.row;
    } };
}

// The link in a colour word.
fn link_in(word: u64) -> u32
    requires { IsSome (colour_of word) }
    ensures { result ≡ colours.link word }
{
    match read_colour(word).unwrap() {
        Colour::Free(link) | Colour::Grey(link) => link,
        Colour::Even | Colour::Odd => 0,
    }
}

// The list that is taken as the u-th.
#[tactic(auto, unfolding(crate::specs::Rows::list_of))]
fn list_of(thread: u32, threads: u32, u: u32) -> u32
    requires { (thread < threads) × (threads ≤ 16) × (u < threads) }
    ensures list { result ≡ Rows.list_of thread threads u }
    ensures low { result < threads }
{
    let next = thread + u;
    if next < threads { next } else { next - threads }
}

// The next list, and after the last the first.
fn next_list(threads: u32, u: u32) -> u32
    requires { (u < threads) × (threads ≤ 16) }
    ensures { result ≡ Rows.next_list threads u }
{
    if u + 1 < threads { u + 1 } else { 0 }
}

// After the free count was read.
fn after_count(blocks: u32, count: u64) -> BuildRow
    ensures { result ≡ Rows.after_count blocks count }
{
    if count < blocks as u64 {
        BuildRow::Refused
    } else {
        BuildRow::Reserve { seen: count }
    }
}

// After the blocks were to be reserved.
fn after_reserve(seen: u64, count: u64) -> BuildRow
    ensures { result ≡ Rows.after_reserve seen count }
{
    if count == seen {
        BuildRow::TakeFree { u: 0 }
    } else {
        BuildRow::ReadCount
    }
}

// After the u-th list was taken, which began with this block.
fn after_take(threads: u32, u: u32, head: u64) -> BuildRow
    requires { (u < threads) × (threads ≤ 16) × (head ≤ 65535) }
    ensures { result ≡ Rows.after_take threads u head }
{
    if head == 0 {
        BuildRow::TakeFree {
            u: next_list(threads, u),
        }
    } else {
        BuildRow::Collect {
            list: head as u32,
            u,
        }
    }
}

// After the last block was collected, with the rest of its list in the private list.
fn after_last(blocks: u32, list: u32) -> BuildRow
    requires { 1 ≤ blocks }
    ensures { result ≡ Rows.after_last blocks list }
{
    if list == 0 {
        BuildRow::WriteOwner {
            ordinal: blocks - 1,
        }
    } else {
        BuildRow::PutRest { list }
    }
}

// After a block of the u-th list was collected, which is the count-th.
fn after_collect(blocks: u32, threads: u32, count: usize, list: u32, u: u32) -> BuildRow
    requires { (1 ≤ blocks) × (u < threads) × (threads ≤ 16) }
    ensures { result ≡ Rows.after_collect blocks threads count list u }
{
    if count == blocks as usize {
        after_last(blocks, list)
    } else if list == 0 {
        BuildRow::TakeFree {
            u: next_list(threads, u),
        }
    } else {
        BuildRow::Collect { list, u }
    }
}

// After payload j was written.
fn after_payload(width: u32, ordinal: u32, j: u32) -> BuildRow
    requires { j < width }
    ensures { result ≡ Rows.after_payload width ordinal j }
{
    if j + 1 < width {
        BuildRow::WritePayload { ordinal, j: j + 1 }
    } else {
        BuildRow::WriteColour { ordinal }
    }
}

// After the block of this ordinal became black.
fn after_colour(ordinal: u32) -> BuildRow
    ensures { result ≡ Rows.after_colour ordinal }
{
    if ordinal == 0 {
        BuildRow::Publish
    } else {
        BuildRow::WriteOwner {
            ordinal: ordinal - 1,
        }
    }
}

impl BuildPass {
    /// A builder that has nothing to do, with this room for the blocks that it will hold.
    pub fn idle(room: Vec<u32>) -> BuildPass
        ensures { result.capacity ≡ vec_capacity room }
    {
        BuildPass {
            thread: 0,
            threads: 1,
            cycle: 1,
            serial: 1,
            command: Command::Nil { d: 0 },
            blocks: 0,
            room,
            row: BuildRow::Built,
        }
    }

    /// Begins to build the object of the command, for the thread of this number, one of `threads`,
    /// 1 to 16, which is inside in this cycle, 1 to 2^54 − 2. The object's name has this serial, at
    /// least 1 and below 2^43. The command makes an object of 1 to 1,024 blocks of this width, for
    /// which there is room.
    pub fn begin(
        &mut self,
        width: Width,
        thread: u32,
        threads: u32,
        cycle: u64,
        serial: u64,
        command: Command,
    )
        requires thread { (thread < threads) × (threads ≤ 16) }
        requires cycle { (1 ≤ cycle) × (cycle ≤ 2 ^ 54 - 2) }
        requires serial { (1 ≤ serial) × (serial < 2 ^ 43) }
        requires range { IsCommandInRange command }
        requires blocks { (1 ≤ blocks_of width command) × (blocks_of width command ≤ 1024) }
        requires room { blocks_of width command ≤ self.old.capacity }
        ensures { self.new ≡ building width thread threads cycle serial command self.old.capacity }
    {
        self.thread = thread;
        self.threads = threads;
        self.cycle = cycle;
        self.serial = serial;
        self.command = command;
        self.blocks = command.blocks(width);
        self.room.clear();
        self.row = BuildRow::ReadCount;
    }

    /// The operation of the next event. A part that is over wants no more than a look at the phase.
    /// The places are those of a heap that has the part's threads, its width and the blocks that it
    /// holds, the same heap at all calls of one part.
    #[inline(never)]
    pub fn want(&self, places: &Places) -> Op
        requires { BuildFits places.now self.now }
        ensures { result ≡ op_at (extent places.now) (build_want (extent places.now) self.now) }
    {
        self.operation(places, self.row)
    }

    /// One event: this memory makes the operation of `want`, and the part moves on by the word that
    /// it read. The places are those that `want` was given. A part that is over stays as it is.
    #[inline(always)]
    pub fn event<M: Memory>(&mut self, places: &Places, memory: &mut M, shared: &M::Shared) -> Step
        requires fits { BuildFits places.now self.old }
        requires may { M.may memory.old shared.now
            (op_at (extent places.now) (build_want (extent places.now) self.old)) }
        requires reads { ReadsOnly M.acts memory.old shared.now
            (op_at (extent places.now) (build_want (extent places.now) self.old))
            (BuildReads places.now self.old) }
        ensures acted { ActsOnce M.acts memory.old shared.now
            (op_at (extent places.now) (build_want (extent places.now) self.old)) memory.new
            (λ w. (self.new ≡ build_got (extent places.now) self.old w)
            × (result ≡ build_step self.old w)) }
        ensures fits { BuildFits places.now self.new }
    {
        use BuildRow::*;

        // The row is made anew in each arm, so that the compiler leads each on its own way.
        match self.row {
            WritePayload { ordinal, j } => {
                self.makes(WritePayload { ordinal, j }, places, memory, shared)
            }
            WriteOwner { ordinal } => self.makes(WriteOwner { ordinal }, places, memory, shared),
            WriteShape { ordinal } => self.makes(WriteShape { ordinal }, places, memory, shared),
            WriteColour { ordinal } => self.makes(WriteColour { ordinal }, places, memory, shared),
            Collect { list, u } => self.makes(Collect { list, u }, places, memory, shared),
            ReadCount => self.makes(ReadCount, places, memory, shared),
            Reserve { seen } => self.makes(Reserve { seen }, places, memory, shared),
            TakeFree { u } => self.makes(TakeFree { u }, places, memory, shared),
            PutRest { list } => self.makes(PutRest { list }, places, memory, shared),
            Publish => self.makes(Publish, places, memory, shared),
            Built => self.makes(Built, places, memory, shared),
            Refused => self.makes(Refused, places, memory, shared),
        }
    }

    /// What the command answers, once that is decided: that the object was made, or that too few
    /// blocks were free, with the cycle before the part's, or 1 where there is none before it.
    pub fn reply(&self) -> Option<Reply>
        ensures { result ≡ build_reply self.now }
    {
        match self.row {
            BuildRow::Built => Some(Reply::New(Name {
                thread: self.thread,
                serial: self.serial,
            })),
            BuildRow::Refused => Some(Reply::Full(self.full_cycle())),
            _ => None,
        }
    }

    /// For how many blocks there is room.
    pub fn room(&self) -> usize
        ensures { result ≡ self.now.capacity }
    {
        self.room.capacity()
    }

    // The cycle before this one, or 1.
    fn full_cycle(&self) -> u64
        ensures { result ≡ Rows.full_cycle self.now.cycle }
    {
        if self.cycle == 1 {
            1
        } else {
            self.cycle.saturating_sub(1)
        }
    }

    // The block of this ordinal.
    fn block(&self, ordinal: u32) -> u32
        requires { ordinal < length self.now.held }
        ensures { result ≡ built_at self.now ordinal }
    {
        self.room[ordinal as usize]
    }

    // The owner word of the block of this ordinal.
    fn owner(&self, ordinal: u32) -> u64
        requires { (self.now.thread ≤ 16) × (self.now.serial < 2 ^ 43) × (ordinal ≤ 1023) }
        ensures { result ≡ built_owner self.now ordinal }
    {
        let (thread, serial) = (self.thread, self.serial);
        wide_word(WideOwner {
            thread,
            serial,
            ordinal,
        })
    }

    // A reference to the block of this ordinal.
    fn reference(&self, ordinal: u32) -> u64
        requires low { ordinal < length self.now.held }
        requires block { (1 ≤ built_at self.now ordinal) × (built_at self.now ordinal ≤ 65535) }
        ensures { result ≡ words.reference_word (built_at self.now ordinal) }
    {
        payload_word(Payload::Block(self.block(ordinal)))
    }

    // The word at payload j of the block of this ordinal.
    fn payload(&self, places: &Places, ordinal: u32, j: u32) -> u64
        requires fits { BuildFits places.now self.now }
        requires ordinal { IsOrdinal self.now.blocks self.now.held ordinal }
        requires payload { j < payloads places.now.width }
        ensures { result ≡ built_payload places.now.width self.now ordinal j }
    {
        match link_at(places.width(), self.command, self.blocks, ordinal, j) {
            Some(next) => self.reference(next),
            None => 0,
        }
    }

    // The place of the command's register.
    fn register(&self, places: &Places) -> usize
        requires { BuildFits places.now self.now }
        ensures { result ≡ index (extent places.now) (made_place places.now.width self.now) }
    {
        let r = made_register(self.command);
        let (block, slot) = places.width().register(self.thread, r as u32);
        places.payload(block, slot)
    }

    // The operation of this row, which is the part's.
    #[inline(always)]
    fn operation(&self, places: &Places, row: BuildRow) -> Op
        requires fits { BuildFits places.now self.now }
        requires row { self.now.row ≡ row }
        ensures { result ≡ op_at (extent places.now) (row_want places.now.width self.now row) }
    {
        use BuildRow::*;

        match row {
            ReadCount => Op::load(places.free_count()),
            Reserve { seen } => {
                let rest = seen - self.blocks as u64;
                Op::compare_exchange(places.free_count(), seen, rest)
            }
            TakeFree { u } => {
                Op::exchange(places.free_list(list_of(self.thread, self.threads, u)), 0)
            }
            Collect { list, .. } => Op::load(places.colour(list)),
            PutRest { list } => Op::exchange(places.free_list(self.thread), list as u64),
            WriteOwner { ordinal } => {
                Op::exchange(places.owner(self.block(ordinal)), self.owner(ordinal))
            }
            WriteShape { ordinal } => {
                Op::exchange(places.shape(self.block(ordinal)), made_shape(self.command))
            }
            WritePayload { ordinal, j } => Op::exchange(
                places.payload(self.block(ordinal), j),
                self.payload(places, ordinal, j),
            ),
            WriteColour { ordinal } => {
                Op::exchange(
                    places.colour(self.block(ordinal)),
                    colour_word(black(self.cycle)),
                )
            }
            Publish => Op::exchange(self.register(places), self.reference(0)),
            Built | Refused => Op::load(places.phase()),
        }
    }

    // One event at this row, which is the part's.
    #[inline(always)]
    fn makes<M: Memory>(
        &mut self,
        row: BuildRow,
        places: &Places,
        memory: &mut M,
        shared: &M::Shared,
    ) -> Step
        requires fits { BuildFits places.now self.old }
        requires row { self.old.row ≡ row }
        requires may { M.may memory.old shared.now
            (op_at (extent places.now) (build_want (extent places.now) self.old)) }
        requires reads { ReadsOnly M.acts memory.old shared.now
            (op_at (extent places.now) (build_want (extent places.now) self.old))
            (BuildReads places.now self.old) }
        ensures acted { ActsOnce M.acts memory.old shared.now
            (op_at (extent places.now) (build_want (extent places.now) self.old)) memory.new
            (λ w. (self.new ≡ build_got (extent places.now) self.old w)
            × (result ≡ build_step self.old w)) }
        ensures fits { BuildFits places.now self.new }
    {
        let word = memory.act(shared, &self.operation(places, row));
        self.moves(row, places, word)
    }

    // Moves on from this row, which is the part's, and of which the operation read the word.
    #[inline(always)]
    #[tactic(auto, using(crate::proofs::RowsFit::fits_next))]
    fn moves(&mut self, row: BuildRow, places: &Places, word: u64) -> Step
        requires fits { BuildFits places.now self.old }
        requires row { self.old.row ≡ row }
        requires word { BuildReads places.now self.old word }
        ensures state { self.new ≡ build_got (extent places.now) self.old word }
        ensures step { result ≡ build_step self.old word }
        ensures fits { BuildFits places.now self.new }
    {
        let step = self.step(places, row, word);
        let next = self.after(places, row, word);
        if let BuildRow::Collect { list, .. } = row {
            self.room.push_reserved(list);
        }
        self.row = next;
        step
    }

    // The row after the event of this row, which is the part's, where it read the word.
    #[inline(always)]
    fn after(&self, places: &Places, row: BuildRow, read: u64) -> BuildRow
        requires fits { BuildFits places.now self.now }
        requires row { self.now.row ≡ row }
        requires word { BuildReads places.now self.now read }
        ensures { result ≡ row_got places.now.width self.now row read }
    {
        use BuildRow::*;

        let width = places.width().payloads();
        match row {
            ReadCount => after_count(self.blocks, read),
            Reserve { seen } => after_reserve(seen, read),
            TakeFree { u } => after_take(self.threads, u, read),
            Collect { u, .. } => {
                let count = self.room.len() + 1;
                after_collect(self.blocks, self.threads, count, link_in(read), u)
            }
            PutRest { .. } => WriteOwner {
                ordinal: self.blocks - 1,
            },
            WriteOwner { ordinal } => WriteShape { ordinal },
            WriteShape { ordinal } => WritePayload { ordinal, j: 0 },
            WritePayload { ordinal, j } => after_payload(width, ordinal, j),
            WriteColour { ordinal } => after_colour(ordinal),
            Publish | Built => Built,
            Refused => Refused,
        }
    }

    // What the event of this row is, which is the part's, where it reads the word.
    #[inline(always)]
    fn step(&self, places: &Places, row: BuildRow, read: u64) -> Step
        requires fits { BuildFits places.now self.now }
        requires row { self.now.row ≡ row }
        ensures { result ≡ row_step self.now row read }
    {
        use BuildRow::*;

        let _places = places;
        match row {
            ReadCount if read < self.blocks as u64 => Step::Over,
            Reserve { seen } if read != seen => Step::Waited,
            TakeFree { u } if read == 0 && u + 1 >= self.threads => Step::Waited,
            Publish | Built | Refused => Step::Over,
            _ => Step::Went,
        }
    }
}
