//! The part of a thread's work that marks: it scans one grey block, or makes one block grey.

ghost use Rattle.std.specs.Prelude.{◌≡◌, ◌+◌, ◌-◌, ◌^◌, ◌<◌, ◌≤◌, false, if◌then◌else◌, IsSome};
ghost use Rattle.block_store.specs.Colours as colours;
ghost use Rattle.block_store.specs.Colours.{colour_of, colour_link, white_word, grey_word};
ghost use Rattle.block_store.specs.Payloads as words;
ghost use Rattle.block_store.specs.Payloads.{payload_of, payload_target};
ghost use Rattle.block_store.specs.Places.{extent, ColourOf, IsBlock};
ghost use Rattle.heap_machine.specs.Operations.{op_at, CompareExchange};
ghost use Rattle.heap_machine.specs.Memories.{ReadsOnly, ActsOnce};
ghost use Rattle.grey_steps.specs.Rows;
ghost use Rattle.grey_steps.specs.Rows.{GreyState, grey_want, grey_got, grey_step, grey_unit, grey_nothing, grey_over, scanning, shading};
ghost use Rattle.grey_steps.specs.MarkUnits.{is_blackening, grey_outcome};
ghost use Rattle.grey_steps.specs.Fits.{GreyFits, GreyReads};

use crate::GreyRow;
use block_store::{Colour, Payload, Places, black, colour_word, read_colour, read_payload, white};
use heap_machine::{Memory, Op, Outcome, Pass, Step};
use std::marker::Model;

/// Marking, done one event at a time while its thread is inside: a grey list is taken, one block of
/// it is scanned and the rest put back; or one block is made grey.
#[derive(Drop)]
pub struct GreyPass {
    pass: Pass,
    row: GreyRow,
}

impl Model for GreyPass {
    ghost use Rattle.grey_steps.specs.Rows.{GreyState};

    ghost Value = { GreyState };

    ghost view = { λ p. record { pass = p.pass; row = p.row } };
}

// The block to which a payload word refers, or 0.
fn target_of(word: u64) -> u32
    requires { IsSome (payload_of word) }
    ensures { result ≡ words.target word }
{
    match read_payload(word).unwrap() {
        Payload::Block(block) => block,
        Payload::Nil | Payload::Int(_) => 0,
    }
}

// The link in a colour word.
fn link_in(word: u64) -> u32
    requires { IsSome (colour_of word) }
    ensures { result ≡ colours.link word }
{
    match read_colour(word).unwrap() {
        Colour::Free(link) | Colour::Grey(link) => link,
        Colour::Even | Colour::Odd => 0,
    }
}

// The list that is taken as the u-th.
#[tactic(auto, unfolding(crate::specs::Rows::list_of))]
fn list_of(thread: u32, threads: u32, u: u32) -> u32
    requires { (thread < threads) × (threads ≤ 16) × (u < threads) }
    ensures list { result ≡ Rows.list_of thread threads u }
    ensures low { result < threads }
{
    let next = thread + u;
    if next < threads { next } else { next - threads }
}

// After the u-th list, which began with this block.
fn after_take(threads: u32, u: u32, head: u64) -> GreyRow
    requires { (u < threads) × (threads ≤ 16) × (head ≤ 65535) }
    ensures { result ≡ Rows.after_take threads u head }
{
    if head != 0 {
        GreyRow::Pop { list: head as u32 }
    } else if u + 1 < threads {
        GreyRow::Take { u: u + 1 }
    } else {
        GreyRow::NothingGrey
    }
}

// The scan of a block begins.
fn begin(block: u32, list: u32) -> GreyRow
    ensures { result ≡ GreyRow.ScanWord block 0 list }
{
    GreyRow::ScanWord { block, j: 0, list }
}

// After payload j was dealt with.
fn after_word(width: u32, block: u32, j: u32, list: u32) -> GreyRow
    requires { j < width }
    ensures { result ≡ Rows.after_word width block j list }
{
    if j + 1 < width {
        GreyRow::ScanWord {
            block,
            j: j + 1,
            list,
        }
    } else {
        GreyRow::Blacken { block, list }
    }
}

// After payload j, which refers to this block, or to none where it is 0.
fn after_scan(width: u32, block: u32, j: u32, list: u32, target: u32) -> GreyRow
    requires { j < width }
    ensures { result ≡ Rows.after_scan width block j list target }
{
    if target == 0 {
        after_word(width, block, j, list)
    } else {
        GreyRow::Shade {
            block,
            j,
            target,
            list,
        }
    }
}

// The private list after a block of this colour was to become grey.
fn shaded_list(cycle: u64, target: u32, list: u32, colour: u64) -> u32
    ensures { result ≡ Rows.shaded_list cycle target list colour }
{
    if colour == colour_word(white(cycle)) {
        target
    } else {
        list
    }
}

// After the block under scan was made black.
fn after_black(list: u32) -> GreyRow
    ensures { result ≡ Rows.after_black list }
{
    if list == 0 {
        GreyRow::Scanned
    } else {
        GreyRow::Put { list }
    }
}

// After the block to which a reference is about to be stored was to become grey.
fn after_stored(target: u32, list: u32) -> GreyRow
    ensures { result ≡ Rows.after_stored target list }
{
    if list == 0 {
        GreyRow::Shaded { target }
    } else {
        GreyRow::PutOwn { target, list }
    }
}

// After the own list was taken, which began with this block.
fn after_own(target: u32, head: u64) -> GreyRow
    requires { head ≤ 65535 }
    ensures { result ≡ GreyRow.ShadeStored target head }
{
    GreyRow::ShadeStored {
        target,
        list: head as u32,
    }
}

// The step of an event that led to this row.
#[inline(always)]
fn step_to(row: GreyRow) -> Step
    ensures { result ≡ (if grey_over row then Step.Over else Step.Went) }
{
    if is_end(row) { Step::Over } else { Step::Went }
}

// Whether the event at this row makes the block under scan black.
#[inline(always)]
fn blackens(row: GreyRow) -> bool
    ensures { result ≡ is_blackening row }
{
    matches!(row, GreyRow::Blacken { .. })
}

// Whether there is no event more at this row.
#[inline(always)]
fn is_end(row: GreyRow) -> bool
    ensures { result ≡ grey_over row }
{
    matches!(
        row,
        GreyRow::Scanned | GreyRow::NothingGrey | GreyRow::Shaded { .. }
    )
}

// A white block becomes grey, in front of the private list.
fn shading(places: &Places, cycle: u64, target: u32, list: u32) -> Op
    requires target { IsBlock places.now target }
    requires list { list ≤ 65535 }
    ensures { result
        ≡ op_at (extent places.now) (CompareExchange (ColourOf target) (white_word cycle)
        (grey_word list)) }
{
    let grey = colour_word(Colour::Grey(list));
    Op::compare_exchange(places.colour(target), colour_word(white(cycle)), grey)
}

// A pass of thread `thread` of these in Mark.
fn marking(thread: u32, threads: u32, cycle: u64) -> Pass
    ensures { result ≡ record { thread = thread; threads = threads; cycle = cycle; sweep = false } }
{
    Pass {
        thread,
        threads,
        cycle,
        sweep: false,
    }
}

impl GreyPass {
    /// The part that takes a grey list, scans one block of it and puts the rest back, for a thread
    /// that is inside. `threads` is 1 to 16 and `thread` is below it. The cycle, 1 to 2^54 − 2, is
    /// that of the phase word with which the thread entered.
    pub fn scan(thread: u32, threads: u32, cycle: u64) -> GreyPass
        requires thread { (thread < threads) × (threads ≤ 16) }
        requires cycle { (1 ≤ cycle) × (cycle ≤ 2 ^ 54 - 2) }
        ensures { result
            ≡ scanning
            (record { thread = thread; threads = threads; cycle = cycle; sweep = false }) }
    {
        GreyPass {
            pass: marking(thread, threads, cycle),
            row: GreyRow::Take { u: 0 },
        }
    }

    /// The part that takes the thread's own list, makes this block grey where it is white, in front
    /// of that list, and puts the list back; an empty list is not put. `block` is 1 to 65,535;
    /// `thread`, `threads` and `cycle` are as for `scan`.
    pub fn shade(thread: u32, threads: u32, cycle: u64, block: u32) -> GreyPass
        requires thread { (thread < threads) × (threads ≤ 16) }
        requires cycle { (1 ≤ cycle) × (cycle ≤ 2 ^ 54 - 2) }
        requires block { (1 ≤ block) × (block ≤ 65535) }
        ensures { result
            ≡ shading
            (record { thread = thread; threads = threads; cycle = cycle; sweep = false })
            block }
    {
        GreyPass {
            pass: marking(thread, threads, cycle),
            row: GreyRow::TakeOwn { target: block },
        }
    }

    /// The part of this pass that has come to this row.
    pub fn at_row(pass: Pass, row: GreyRow) -> GreyPass
        ensures { result ≡ record { pass = pass; row = row } }
    {
        GreyPass { pass, row }
    }

    /// The row to which the part has come.
    pub fn row(&self) -> GreyRow
        ensures { result ≡ self.now.row }
    {
        self.row
    }

    /// The operation of the next event. A part that is over wants no more than a look at the phase.
    /// The places are those of a heap that has the part's threads and its row's blocks, the same
    /// heap at all calls of one part.
    #[inline(never)]
    pub fn want(&self, places: &Places) -> Op
        requires { GreyFits places.now self.now }
        ensures { result ≡ op_at (extent places.now) (grey_want self.now) }
    {
        self.operation(places, self.row)
    }

    /// Moves on by one event, whose operation read the word: one that its place can hold. The
    /// places are those that `want` was given. A part that is over stays as it is.
    #[inline(never)]
    pub fn got(&mut self, places: &Places, word: u64) -> Step
        requires fits { GreyFits places.now self.old }
        requires word { GreyReads places.now self.old word }
        ensures state { self.new ≡ grey_got (extent places.now) self.old word }
        ensures step { result ≡ grey_step (extent places.now) self.old word }
        ensures fits { GreyFits places.now self.new }
    {
        self.row = self.after(places, self.row, word);
        step_to(self.row)
    }

    /// One event: `want` and `got` at once, with the operation made by this memory.
    #[inline(always)]
    pub fn event<M: Memory>(
        &mut self,
        places: &Places,
        memory: &mut M,
        shared: &M::Shared,
    ) -> Outcome
        requires fits { GreyFits places.now self.old }
        requires may { M.may memory.old shared.now
            (op_at (extent places.now) (grey_want self.old)) }
        requires reads { ReadsOnly M.acts memory.old shared.now
            (op_at (extent places.now) (grey_want self.old)) (GreyReads places.now self.old) }
        ensures acted { ActsOnce M.acts memory.old shared.now
            (op_at (extent places.now) (grey_want self.old)) memory.new
            (λ w. (self.new ≡ grey_got (extent places.now) self.old w)
            × (result ≡ grey_outcome (extent places.now) self.old w)) }
        ensures fits { GreyFits places.now self.new }
    {
        use GreyRow::*;

        // An arm for each row, so that the compiler leads each on its own way.
        match self.row {
            row @ ScanWord { .. } => self.makes(row, places, memory, shared),
            row @ Shade { .. } => self.makes(row, places, memory, shared),
            row @ Take { .. } => self.makes(row, places, memory, shared),
            row @ Pop { .. } => self.makes(row, places, memory, shared),
            row @ Blacken { .. } => self.makes(row, places, memory, shared),
            row @ Put { .. } => self.makes(row, places, memory, shared),
            row @ TakeOwn { .. } => self.makes(row, places, memory, shared),
            row @ ShadeStored { .. } => self.makes(row, places, memory, shared),
            row @ PutOwn { .. } => self.makes(row, places, memory, shared),
            row @ Scanned => self.makes(row, places, memory, shared),
            row @ NothingGrey => self.makes(row, places, memory, shared),
            row @ Shaded { .. } => self.makes(row, places, memory, shared),
        }
    }

    /// Whether the part has made a block black; it stays so from that event on.
    pub fn unit(&self) -> bool
        ensures { result ≡ grey_unit self.now.row }
    {
        matches!(self.row, GreyRow::Put { .. } | GreyRow::Scanned)
    }

    /// Whether the part is a scan that has found each list empty.
    pub fn nothing(&self) -> bool
        ensures { result ≡ grey_nothing self.now.row }
    {
        matches!(self.row, GreyRow::NothingGrey)
    }

    // The operation of this row, which is the part's.
    #[inline(always)]
    fn operation(&self, places: &Places, row: GreyRow) -> Op
        requires row { self.now.row ≡ row }
        requires fits { GreyFits places.now self.now }
        ensures { result ≡ op_at (extent places.now) (grey_want self.now) }
    {
        use GreyRow::*;

        let (thread, cycle) = (self.pass.thread, self.pass.cycle);
        match row {
            Take { u } => Op::exchange(places.grey_list(list_of(thread, self.pass.threads, u)), 0),
            Pop { list } => Op::load(places.colour(list)),
            ScanWord { block, j, .. } => Op::load(places.payload(block, j)),
            Shade { target, list, .. } | ShadeStored { target, list } => {
                shading(places, cycle, target, list)
            }
            Blacken { block, .. } => Op::exchange(places.colour(block), colour_word(black(cycle))),
            Put { list } | PutOwn { list, .. } => Op::exchange(
                places.grey_list(thread),
                list as u64,
            ),
            TakeOwn { .. } => Op::exchange(places.grey_list(thread), 0),
            Scanned | NothingGrey | Shaded { .. } => Op::load(places.phase()),
        }
    }

    // The row after one event at this row, which is the part's, where the operation read the word.
    #[inline(always)]
    fn after(&self, places: &Places, row: GreyRow, read: u64) -> GreyRow
        requires row { self.now.row ≡ row }
        requires fits { GreyFits places.now self.now }
        requires word { GreyReads places.now self.now read }
        ensures { result ≡ (grey_got (extent places.now) self.now read).row }
    {
        use GreyRow::*;

        let cycle = self.pass.cycle;
        let width = places.width().payloads();
        match row {
            Take { u } => after_take(self.pass.threads, u, read),
            Pop { list } => begin(list, link_in(read)),
            ScanWord { block, j, list } => after_scan(width, block, j, list, target_of(read)),
            Shade {
                block,
                j,
                target,
                list,
            } => after_word(width, block, j, shaded_list(cycle, target, list, read)),
            Blacken { list, .. } => after_black(list),
            Put { .. } | Scanned => Scanned,
            NothingGrey => NothingGrey,
            TakeOwn { target } => after_own(target, read),
            ShadeStored { target, list } => {
                after_stored(target, shaded_list(cycle, target, list, read))
            }
            PutOwn { target, .. } | Shaded { target } => Shaded { target },
        }
    }

    // The event of this row, which is the part's.
    #[inline(always)]
    #[tactic(auto, using(crate::proofs::RowsFit::next_fits))]
    fn makes<M: Memory>(
        &mut self,
        row: GreyRow,
        places: &Places,
        memory: &mut M,
        shared: &M::Shared,
    ) -> Outcome
        requires row { self.old.row ≡ row }
        requires fits { GreyFits places.now self.old }
        requires may { M.may memory.old shared.now
            (op_at (extent places.now) (grey_want self.old)) }
        requires reads { ReadsOnly M.acts memory.old shared.now
            (op_at (extent places.now) (grey_want self.old)) (GreyReads places.now self.old) }
        ensures acted { ActsOnce M.acts memory.old shared.now
            (op_at (extent places.now) (grey_want self.old)) memory.new
            (λ w. (self.new ≡ grey_got (extent places.now) self.old w)
            × (result ≡ grey_outcome (extent places.now) self.old w)) }
        ensures fits { GreyFits places.now self.new }
    {
        let word = memory.act(shared, &self.operation(places, row));
        let next = self.after(places, row, word);
        self.row = next;
        Outcome {
            step: step_to(next),
            unit: blackens(row),
        }
    }

    /// Whether there is no event more.
    pub fn over(&self) -> bool
        ensures { result ≡ grey_over self.now.row }
    {
        is_end(self.row)
    }
}
