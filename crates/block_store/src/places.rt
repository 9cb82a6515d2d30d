//! Where the words of a heap lie.

ghost use Rattle.std.specs.Prelude.{◌≡◌, ◌≤◌, ◌<◌};
ghost use Rattle.block_store.specs.Configs.{IsInBounds};
ghost use Rattle.block_store.specs.declared.Config.{Config};
ghost use Rattle.block_store.specs.Widths.{payloads};
ghost use Rattle.block_store.specs.Places.{extent, index, block_size, words_count, IsBlock, Phase, Cursor, FreeCount, GreyList, FreeList, ColourOf, OwnerOf, ShapeOf, PayloadOf};

use crate::{Config, Width};
use std::marker::Model;

/// Where the words of a heap lie, by its configuration.
#[derive(Clone, Copy)]
pub struct Places {
    config: Config,
}

impl Model for Places {
    ghost Value = { Config };

    ghost view = { λ p. p.config };

    ghost invariant = { λ p. IsInBounds p.config };

    ghost inverse = { λ c. record { config = c } };
}

impl Places {
    /// The places of a configuration.
    pub fn new(c: &Config) -> Places
        requires { IsInBounds c.now }
        ensures { result ≡ c.now }
    {
        Places { config: *c }
    }

    /// How wide the heap's blocks are.
    pub fn width(&self) -> Width
        ensures { result ≡ self.now.width }
    {
        self.config.width
    }

    /// The place of the phase word.
    pub fn phase(&self) -> usize
        ensures { result ≡ index (extent self.now) Phase }
    {
        0
    }

    /// The place of the cursor of the sweep.
    pub fn cursor(&self) -> usize
        ensures { result ≡ index (extent self.now) Cursor }
    {
        1
    }

    /// The place of the free count.
    pub fn free_count(&self) -> usize
        ensures { result ≡ index (extent self.now) FreeCount }
    {
        2
    }

    /// The place of the grey list of thread `t`, which is one of the configuration's threads.
    pub fn grey_list(&self, t: u32) -> usize
        requires { t < self.now.threads }
        ensures { result ≡ index (extent self.now) (GreyList t) }
    {
        let _threads = self.config.threads;
        3 + t as usize
    }

    /// The place of the free list of thread `t`, which is one of the configuration's threads.
    pub fn free_list(&self, t: u32) -> usize
        requires { t < self.now.threads }
        ensures { result ≡ index (extent self.now) (FreeList t) }
    {
        3 + self.config.threads as usize + t as usize
    }

    /// The place of the colour of block `x`, 1 to the number of blocks.
    pub fn colour(&self, x: u32) -> usize
        requires { IsBlock self.now x }
        ensures { result ≡ index (extent self.now) (ColourOf x) }
    {
        self.block(x)
    }

    /// The place of the owner of block `x`, 1 to the number of blocks.
    pub fn owner(&self, x: u32) -> usize
        requires { IsBlock self.now x }
        ensures { result ≡ index (extent self.now) (OwnerOf x) }
    {
        self.block(x) + 1
    }

    /// The place of the shape of block `x`, 1 to the number of blocks.
    pub fn shape(&self, x: u32) -> usize
        requires { IsBlock self.now x }
        ensures { result ≡ index (extent self.now) (ShapeOf x) }
    {
        self.block(x) + 2
    }

    /// The place of payload `j` of block `x`; blocks are counted from 1, payloads from 0 to
    /// one less than the width has.
    pub fn payload(&self, x: u32, j: u32) -> usize
        requires block { IsBlock self.now x }
        requires payload { j < payloads self.now.width }
        ensures { result ≡ index (extent self.now) (PayloadOf x j) }
    {
        self.block(x) + 3 + j as usize
    }

    /// How many words the heap has.
    pub fn words(&self) -> usize
        ensures { result ≡ words_count (extent self.now) }
    {
        let threads = self.config.threads as usize;
        let blocks = self.config.blocks as usize;
        3 + 2 * threads + self.block_size() * blocks
    }

    // The place of the first word of block `x`.
    fn block(&self, x: u32) -> usize
        requires { IsBlock self.now x }
        ensures first { result ≡ index (extent self.now) (ColourOf x) }
        ensures low { result < 750000 }
    {
        let threads = self.config.threads as usize;
        3 + 2 * threads + self.block_size() * (x as usize - 1)
    }

    // How many words each block has.
    fn block_size(&self) -> usize
        ensures value { result ≡ block_size (extent self.now) }
        ensures few { result ≤ 11 }
    {
        3 + self.config.width.payloads() as usize
    }
}
