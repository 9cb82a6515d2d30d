//! The part of a thread's work that sweeps: it claims a range of blocks and passes them.

ghost use Rattle.std.specs.Prelude.{◌≡◌, ◌+◌, ◌-◌, ◌^◌, ◌<◌, ◌≤◌};
ghost use Rattle.block_store.specs.Places.{extent, FreeCount};
ghost use Rattle.heap_machine.specs.Operations.{op_at, FetchAdd};
ghost use Rattle.heap_machine.specs.Memories.{ReadsOnly, ActsOnce};
ghost use Rattle.sweep_steps.specs.Rows;
ghost use Rattle.sweep_steps.specs.Rows.{SweepState, sweep_want, sweep_got, sweep_unit, sweep_passed, sweep_nothing, sweeping};
ghost use Rattle.sweep_steps.specs.SweepUnits.{sweep_outcome};
ghost use Rattle.sweep_steps.specs.Fits.{SweepFits, SweepReads};

use crate::SweepRow;
use block_store::{Colour, Places, colour_word, white};
use heap_machine::{Memory, Op, Outcome, Step};
use std::marker::Model;

// The most blocks that are claimed at once.
const RANGE: u64 = 8;

/// Sweeping, done one event at a time while its thread is inside: a range of blocks is claimed, and
/// each is passed. Those that are white are freed and put in the thread's own list.
#[derive(Drop)]
pub struct SweepPass {
    thread: u32,
    cycle: u64,
    blocks: u32,
    owed: u64,
    row: SweepRow,
}

impl Model for SweepPass {
    ghost use Rattle.sweep_steps.specs.Rows.{SweepState};

    ghost Value = { SweepState };

    ghost view = { λ p. record {
      thread = p.thread;
      cycle = p.cycle;
      blocks = p.blocks;
      owed = p.owed;
      row = p.row;
    } };
}

// After the cursor was read.
fn after_read(blocks: u32, owed: u64, cursor: u64) -> SweepRow
    requires { (blocks ≤ 65535) × (1 ≤ cursor) × (cursor ≤ blocks + 1) }
    ensures { result ≡ Rows.after_read blocks owed cursor }
{
    if cursor > blocks as u64 {
        return SweepRow::NothingLeft;
    }
    let left = blocks as u64 + 1 - cursor;
    let count = RANGE.min(left.min(owed));
    SweepRow::ClaimRange {
        block: cursor as u32,
        end: (cursor + count) as u32,
    }
}

// After the range was to be claimed.
fn after_claim(block: u32, end: u32, cursor: u64) -> SweepRow
    ensures { result ≡ Rows.after_claim block end cursor }
{
    if cursor == block as u64 {
        SweepRow::PassBlock {
            block,
            end,
            passed: 0,
            list: 0,
            freed: 0,
        }
    } else {
        SweepRow::ReadCursor
    }
}

// After the last block of the range was passed.
fn after_range(passed: u32, list: u32, freed: u32) -> SweepRow
    ensures { result ≡ Rows.after_range passed list freed }
{
    if freed == 0 {
        SweepRow::Swept { passed, freed }
    } else {
        SweepRow::PutFree {
            list,
            passed,
            freed,
        }
    }
}

// After the block was passed.
fn next_block(block: u32, end: u32, passed: u32, list: u32, freed: u32) -> SweepRow
    requires { (block ≤ 65535) × (passed < 8) }
    ensures { result ≡ Rows.next_block block end passed list freed }
{
    let passed = passed + 1;
    if block + 1 < end {
        SweepRow::PassBlock {
            block: block + 1,
            end,
            passed,
            list,
            freed,
        }
    } else {
        after_range(passed, list, freed)
    }
}

// Where the block is white.
fn before_free(block: u32, end: u32, passed: u32, list: u32, freed: u32) -> SweepRow
    ensures { result ≡ Rows.before_free block end passed list freed }
{
    if freed > 0 {
        SweepRow::FreeBlock {
            block,
            end,
            passed,
            list,
            freed,
        }
    } else {
        SweepRow::TakeFree { block, end, passed }
    }
}

// After the own list was taken, which began with this block.
fn after_take(block: u32, end: u32, passed: u32, head: u64) -> SweepRow
    requires { head ≤ 65535 }
    ensures { result ≡ SweepRow.FreeBlock block end passed head 0 }
{
    SweepRow::FreeBlock {
        block,
        end,
        passed,
        list: head as u32,
        freed: 0,
    }
}

// The freed blocks are added to the free count.
fn credit(places: &Places, freed: u32) -> Op
    ensures { result ≡ op_at (extent places.now) (FetchAdd FreeCount freed) }
{
    Op::FetchAdd {
        place: places.free_count(),
        by: freed as u64,
    }
}

// What the event was that led to this row.
fn step_to(row: SweepRow) -> Step
    ensures { result ≡ Rows.step_to row }
{
    match row {
        SweepRow::ReadCursor => Step::Waited,
        SweepRow::Swept { .. } | SweepRow::NothingLeft => Step::Over,
        SweepRow::ClaimRange { .. } | SweepRow::PassBlock { .. } => Step::Went,
        SweepRow::TakeFree { .. } | SweepRow::FreeBlock { .. } => Step::Went,
        SweepRow::PutFree { .. } | SweepRow::Credit { .. } => Step::Went,
    }
}

impl SweepPass {
    /// The part that claims a range of blocks and passes them, for the thread of this number below
    /// 16, which is inside in the Sweep phase of this cycle, 1 to 2^54 − 2. The heap has `blocks`
    /// blocks, 1 to 65,535. The range has at most eight blocks, and at most as many as the thread
    /// owes units of work; it owes one or more.
    pub fn new(thread: u32, cycle: u64, blocks: u32, owed: u64) -> SweepPass
        requires thread { thread < 16 }
        requires cycle { (1 ≤ cycle) × (cycle ≤ 2 ^ 54 - 2) }
        requires blocks { (1 ≤ blocks) × (blocks ≤ 65535) }
        requires owed { 1 ≤ owed }
        ensures { result ≡ sweeping thread cycle blocks owed }
    {
        SweepPass {
            thread,
            cycle,
            blocks,
            owed,
            row: SweepRow::ReadCursor,
        }
    }

    /// The part that has come to this row.
    pub fn at_row(thread: u32, cycle: u64, blocks: u32, owed: u64, row: SweepRow) -> SweepPass
        ensures { result ≡ record {
          thread = thread;
          cycle = cycle;
          blocks = blocks;
          owed = owed;
          row = row;
        } }
    {
        SweepPass {
            thread,
            cycle,
            blocks,
            owed,
            row,
        }
    }

    /// The row to which the part has come.
    pub fn row(&self) -> SweepRow
        ensures { result ≡ self.now.row }
    {
        self.row
    }

    /// The operation of the next event. A part that is over wants no more than a look at the phase.
    /// The places are those of a heap that has the part's thread and blocks, the same heap at all
    /// calls of one part.
    #[inline(never)]
    pub fn want(&self, places: &Places) -> Op
        requires { SweepFits places.now self.now }
        ensures { result ≡ op_at (extent places.now) (sweep_want self.now) }
    {
        self.operation(places, self.row)
    }

    /// One event: this memory makes the operation of `want`, and the part moves on by the word that
    /// it read. The places are those that `want` was given. A part that is over stays as it is.
    #[inline(always)]
    pub fn event<M: Memory>(
        &mut self,
        places: &Places,
        memory: &mut M,
        shared: &M::Shared,
    ) -> Outcome
        requires fits { SweepFits places.now self.old }
        requires may { M.may memory.old shared.now
            (op_at (extent places.now) (sweep_want self.old)) }
        requires reads { ReadsOnly M.acts memory.old shared.now
            (op_at (extent places.now) (sweep_want self.old)) (SweepReads places.now self.old) }
        ensures acted { ActsOnce M.acts memory.old shared.now
            (op_at (extent places.now) (sweep_want self.old)) memory.new
            (λ w. (self.new ≡ sweep_got self.old w) × (result ≡ sweep_outcome self.old w)) }
        ensures fits { SweepFits places.now self.new }
    {
        use SweepRow::*;

        // Each row has an arm, so that the compiler leads each on its own way.
        match self.row {
            row @ PassBlock { .. } => self.makes(row, places, memory, shared),
            row @ FreeBlock { .. } => self.makes(row, places, memory, shared),
            row @ ReadCursor => self.makes(row, places, memory, shared),
            row @ ClaimRange { .. } => self.makes(row, places, memory, shared),
            row @ TakeFree { .. } => self.makes(row, places, memory, shared),
            row @ PutFree { .. } => self.makes(row, places, memory, shared),
            row @ Credit { .. } => self.makes(row, places, memory, shared),
            row => self.makes(row, places, memory, shared),
        }
    }

    // One event at this row, which is the part's.
    #[inline(always)]
    #[tactic(auto, using(crate::proofs::RowsFit::fits_next))]
    fn makes<M: Memory>(
        &mut self,
        row: SweepRow,
        places: &Places,
        memory: &mut M,
        shared: &M::Shared,
    ) -> Outcome
        requires row { self.old.row ≡ row }
        requires fits { SweepFits places.now self.old }
        requires may { M.may memory.old shared.now
            (op_at (extent places.now) (sweep_want self.old)) }
        requires reads { ReadsOnly M.acts memory.old shared.now
            (op_at (extent places.now) (sweep_want self.old)) (SweepReads places.now self.old) }
        ensures acted { ActsOnce M.acts memory.old shared.now
            (op_at (extent places.now) (sweep_want self.old)) memory.new
            (λ w. (self.new ≡ sweep_got self.old w) × (result ≡ sweep_outcome self.old w)) }
        ensures fits { SweepFits places.now self.new }
    {
        let word = memory.act(shared, &self.operation(places, row));
        let unit = self.passes(row, word);
        let next = self.after(places, row, word);
        self.row = next;
        Outcome {
            step: step_to(next),
            unit,
        }
    }

    /// Whether the last event passed a block.
    pub fn unit(&self) -> bool
        ensures { result ≡ sweep_unit self.now.row }
    {
        use SweepRow::*;

        match self.row {
            PassBlock { passed, .. } => passed > 0,
            PutFree { .. } => true,
            Swept { freed, .. } => freed == 0,
            ReadCursor | ClaimRange { .. } | TakeFree { .. } | FreeBlock { .. } => false,
            Credit { .. } | NothingLeft => false,
        }
    }

    /// How many blocks the part has passed.
    pub fn passed(&self) -> u64
        ensures { result ≡ sweep_passed self.now.row }
    {
        use SweepRow::*;

        match self.row {
            PassBlock { passed, .. }
            | TakeFree { passed, .. }
            | FreeBlock { passed, .. }
            | PutFree { passed, .. }
            | Credit { passed, .. }
            | Swept { passed, .. } => passed as u64,
            ReadCursor | ClaimRange { .. } | NothingLeft => 0,
        }
    }

    /// Whether the cursor was read after the last block.
    pub fn nothing(&self) -> bool
        ensures { result ≡ sweep_nothing self.now.row }
    {
        matches!(self.row, SweepRow::NothingLeft)
    }

    // The operation at this row, which is the part's.
    #[inline(always)]
    fn operation(&self, places: &Places, row: SweepRow) -> Op
        requires row { self.now.row ≡ row }
        requires fits { SweepFits places.now self.now }
        ensures { result ≡ op_at (extent places.now) (sweep_want self.now) }
    {
        use SweepRow::*;

        match row {
            ReadCursor => Op::load(places.cursor()),
            ClaimRange { block, end } => {
                Op::compare_exchange(places.cursor(), block as u64, end as u64)
            }
            PassBlock { block, .. } => Op::load(places.colour(block)),
            TakeFree { .. } => Op::exchange(places.free_list(self.thread), 0),
            FreeBlock { block, list, .. } => {
                Op::exchange(places.colour(block), colour_word(Colour::Free(list)))
            }
            PutFree { list, .. } => Op::exchange(places.free_list(self.thread), list as u64),
            Credit { freed, .. } => credit(places, freed),
            Swept { .. } | NothingLeft => Op::load(places.phase()),
        }
    }

    // Whether the event at this row, which is the part's, passes a block where it read the word.
    #[inline(always)]
    fn passes(&self, row: SweepRow, read: u64) -> bool
        requires row { self.now.row ≡ row }
        ensures { result ≡ (sweep_outcome self.now read).unit }
    {
        use SweepRow::*;

        match row {
            PassBlock { .. } => read != colour_word(white(self.cycle)),
            FreeBlock { .. } => true,
            ReadCursor | ClaimRange { .. } | TakeFree { .. } => false,
            PutFree { .. } | Credit { .. } | Swept { .. } | NothingLeft => false,
        }
    }

    // The row after one event at this row, which is the part's, whose operation read the word.
    #[inline(always)]
    fn after(&self, places: &Places, row: SweepRow, read: u64) -> SweepRow
        requires row { self.now.row ≡ row }
        requires fits { SweepFits places.now self.now }
        requires word { SweepReads places.now self.now read }
        ensures { result ≡ (sweep_got self.now read).row }
    {
        use SweepRow::*;

        let _places = places;
        match row {
            ReadCursor => after_read(self.blocks, self.owed, read),
            ClaimRange { block, end } => after_claim(block, end, read),
            PassBlock {
                block,
                end,
                passed,
                list,
                freed,
            } => {
                if read == colour_word(white(self.cycle)) {
                    before_free(block, end, passed, list, freed)
                } else {
                    next_block(block, end, passed, list, freed)
                }
            },
            TakeFree { block, end, passed } => after_take(block, end, passed, read),
            FreeBlock {
                block,
                end,
                passed,
                freed,
                ..
            } => next_block(block, end, passed, block, freed + 1),
            PutFree { passed, freed, .. } => Credit { passed, freed },
            Credit { passed, freed } | Swept { passed, freed } => Swept { passed, freed },
            NothingLeft => NothingLeft,
        }
    }
}
