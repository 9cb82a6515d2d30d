//! Small heaps, and words of theirs, for the tests.

use block_store::{Config, Name, PhaseWord, Places, Value, Width};
use never_heap::Reply;

/// One thread, in blocks of either width. The registers are the blocks 1 to 5, or 1 to 3.
pub const SMALL: Config = Config {
    width: Width::Four,
    threads: 1,
    blocks: 20,
    live: 10,
    object: 1,
    shared: 5,
};

pub const WIDE: Config = Config {
    width: Width::Eight,
    ..SMALL
};

/// Two threads, whose registers are the blocks 1 to 10. Their grey lists are the words 3 and 4, and
/// their free lists 5 and 6.
pub const PAIR: Config = Config {
    threads: 2,
    object: 2,
    ..SMALL
};

/// The places of a heap, without their contracts: 0, that of the phase word, for one that it has
/// not.
#[derive(Clone, Copy)]
pub struct Spots<'c> {
    config: &'c Config,
}

impl<'c> Spots<'c> {
    pub fn of(config: &'c Config) -> Spots<'c> {
        Spots { config }
    }

    pub fn phase(&self) -> usize {
        0
    }

    pub fn cursor(&self) -> usize {
        1
    }

    pub fn grey_list(&self, thread: u32) -> usize {
        let c = self.config;
        if !c.in_bounds() || thread >= c.threads {
            return 0;
        }
        Places::new(c).grey_list(thread)
    }

    pub fn colour(&self, block: u32) -> usize {
        let c = self.config;
        if !c.in_bounds() || block == 0 || block > c.blocks {
            return 0;
        }
        Places::new(c).colour(block)
    }

    pub fn owner(&self, block: u32) -> usize {
        let c = self.config;
        if !c.in_bounds() || block == 0 || block > c.blocks {
            return 0;
        }
        Places::new(c).owner(block)
    }

    pub fn shape(&self, block: u32) -> usize {
        let c = self.config;
        if !c.in_bounds() || block == 0 || block > c.blocks {
            return 0;
        }
        Places::new(c).shape(block)
    }

    pub fn payload(&self, block: u32, number: u32) -> usize {
        let c = self.config;
        if !c.in_bounds() || block == 0 || block > c.blocks || number >= c.width.payloads() {
            return 0;
        }
        Places::new(c).payload(block, number)
    }
}

/// The phase words with which the thread went in.
pub const MARK: PhaseWord = PhaseWord {
    inside: 0,
    sweep: false,
    closed: false,
    cycle: 1,
};

pub const SWEEP: PhaseWord = PhaseWord {
    sweep: true,
    ..MARK
};

/// The phase words of cycle 1 in Mark, with the gate open: with nobody and with one thread inside.
pub const OPEN: u64 = 1024;

pub const INSIDE: u64 = 1025;

/// In cycle 1 a white block, a black one, and grey ones after which no block or block 6 is.
pub const WHITE: u64 = 1;

pub const BLACK: u64 = 2;

pub const GREY: u64 = 3;

pub const GREY_TO_6: u64 = 51;

/// Payloads: nil, numbers, and references to blocks.
pub const NIL: u64 = 0;

pub const THREE: u64 = 7;

pub const FOUR: u64 = 9;

pub const SEVEN: u64 = 15;

pub const TO_6: u64 = 12;

pub const TO_7: u64 = 14;

pub const TO_8: u64 = 16;

pub const TO_9: u64 = 18;

/// The shapes of a record of one field and of an array of five elements.
pub const ONE: u64 = 2;

pub const FIVE: u64 = 11;

/// The owner of the first block of the array that all of one thread share, and the reply with its
/// name.
pub const SHARED: u64 = 1 << 40;

pub const SHARED_NAME: Reply = Reply::Val(Value::Ref(Name {
    thread: 1,
    serial: 0,
}));
