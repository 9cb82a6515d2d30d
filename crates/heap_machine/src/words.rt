//! The shared words as a list.

ghost use Rattle.std.specs.Prelude.{◌≡◌, ◌<◌, ℕ, List, length, slice_index, slice_set, replicate, IfOk};
ghost use Rattle.heap_machine.specs.Operations.{op_place, words_after, SumFits};

use crate::{Memory, Op};
use block_store::OutOfMemory;
use std::alloc::Global;
use std::marker::Model;

/// The words of a heap, by their places from 0.
#[derive(Drop)]
pub struct Words {
    cells: Vec<u64>,
}

impl Model for Words {
    ghost Value = { List ℕ };

    ghost view = { λ w. w.cells.items };
}

impl Words {
    /// `count` words, each 0.
    pub fn zeroed(alloc: Global, count: usize) -> Result<Words, OutOfMemory>
        ensures { IfOk result (λ w. w ≡ replicate count 0) }
    {
        let cells = vec![in alloc; 0; count]?;
        Ok(Words { cells })
    }

    /// How many words there are.
    pub fn len(&self) -> usize
        ensures { result ≡ length self.now }
    {
        self.cells.len()
    }

    /// The word at a place, which is below the number of words.
    pub fn word(&self, place: usize) -> u64
        requires { place < length self.now }
        ensures { result ≡ slice_index self.now place }
    {
        self.cells[place]
    }

    /// Puts a word at a place, which is below the number of words.
    pub fn put(&mut self, place: usize, new: u64)
        requires { place < length self.old }
        ensures { self.new ≡ slice_set self.old place new }
    {
        self.cells[place] = new;
    }

    /// Does one operation on one word, and answers the word that was there before. So a
    /// compare-exchange wrote exactly where the answer is its old word. The place is below the
    /// number of words, and a sum or difference stays in 64 bits.
    #[inline(always)]
    pub fn act(&mut self, op: &Op) -> u64
        requires place { op_place op.now < length self.old }
        requires sum { SumFits op.now (slice_index self.old (op_place op.now)) }
        ensures before { result ≡ slice_index self.old (op_place op.now) }
        ensures after { self.new ≡ words_after op.now self.old }
    {
        match *op {
            Op::Load { place } => self.cells[place],
            Op::Exchange { place, new } => {
                let before = self.cells[place];
                self.cells[place] = new;
                before
            }
            Op::CompareExchange { place, old, new } => {
                let before = self.cells[place];
                if before == old {
                    self.cells[place] = new;
                }
                before
            }
            Op::FetchAdd { place, by } => {
                let before = self.cells[place];
                self.cells[place] = before + by;
                before
            }
            Op::FetchSub { place, by } => {
                let before = self.cells[place];
                self.cells[place] = before - by;
                before
            }
        }
    }
}

impl Memory for Words {
    ghost use Rattle.heap_machine.specs.Operations.{MayAct, HasActed};

    // They are one thread's alone.
    type Shared = ();

    ghost may = { λ ws none op. MayAct ws op };

    ghost acts = { λ ws none op word after. HasActed ws op word after };

    #[inline(always)]
    fn act(&mut self, shared: &(), op: &Op) -> u64 {
        let _shared = shared;
        Words::act(self, op)
    }
}
