//! What the words of the heap are and where they lie: configurations, names, values, the encodings
//! of words, and the places of words.
#![tactic(auto)]

ghost use Rattle.std.specs.Prelude.{◌≡◌, ◌<◌, ◌≤◌, ◌↔◌, IsTrue};
ghost use Rattle.block_store.specs.Configs.{IsInBounds};
ghost use Rattle.block_store.specs.Places.{bytes};
ghost use Rattle.block_store.specs.Registers.{root_block, register_block, register_slot, registers_end};
ghost use Rattle.block_store.specs.ErrorTexts.{out_of_memory_text};
ghost use Rattle.block_store.specs.Widths.{payloads, register_blocks};

mod colours;
mod laws;
mod places;
mod words;

pub use colours::{black, colour_word, phase_word, read_colour, read_phase, white};
pub use laws::{
    colours_turn, places_differ, registers_are_placed, wide_words_extend, words_are_written,
    words_read_back, writes_are_of_places,
};
pub use places::Places;
use std::alloc::{AllocError, AllocFailed};
use std::error::Error;
use std::fmt;
pub use words::{
    owner_word, payload_word, read_owner, read_payload, read_shape, read_wide, shape_word,
    wide_word,
};

/// How many registers each thread has.
pub const REGISTERS: u32 = 16;

/// How wide the blocks of a heap are.
#[derive(Clone, Copy, Debug, PartialEq, Eq)]
pub enum Width {
    /// Four payload words in each block.
    Four,
    /// Eight payload words in each block.
    Eight,
}

impl Width {
    /// How many payload words a block has, 4 or 8.
    pub fn payloads(self) -> u32
        ensures value { result ≡ payloads self }
        ensures some { 4 ≤ result }
        ensures few { result ≤ 8 }
    {
        match self {
            Width::Four => 4,
            Width::Eight => 8,
        }
    }

    /// How many blocks the registers of a thread take, 5 or 3.
    pub fn registers(self) -> u32
        ensures value { result ≡ register_blocks self }
        ensures some { 3 ≤ result }
        ensures few { result ≤ 5 }
    {
        match self {
            Width::Four => 5,
            Width::Eight => 3,
        }
    }

    /// The root of the register array of thread `t`, which is below 16.
    #[tactic(auto, using(crate::proofs::Registers::root_by))]
    pub fn root(self, t: u32) -> u32
        requires { t < 16 }
        ensures { result ≡ root_block self t }
    {
        self.registers() * t + 1
    }

    /// The last block of the register arrays of these threads, of which there are at most 16.
    #[tactic(auto, using(crate::proofs::Registers::end_by))]
    pub fn registers_end(self, threads: u32) -> u32
        requires { threads ≤ 16 }
        ensures { result ≡ registers_end self threads }
    {
        self.registers() * threads
    }

    /// The block of register `r` of thread `t`, and the payload at which it is. Both numbers
    /// are below 16.
    #[tactic(auto, using(crate::proofs::Registers::block_by, crate::proofs::Registers::slot_by))]
    pub fn register(self, t: u32, r: u32) -> (u32, u32)
        requires thread { t < 16 }
        requires register { r < REGISTERS }
        ensures block { result.0 ≡ register_block self t r }
        ensures slot { result.1 ≡ register_slot self r }
    {
        let payloads = self.payloads();
        (self.root(t) + 1 + r / payloads, r % payloads)
    }
}

/// Memory ran out.
#[derive(Clone, Copy, Debug, PartialEq, Eq)]
pub struct OutOfMemory;

impl OutOfMemory {
    /// The printed text: what is wrong, and what to do.
    pub fn text(self) -> &'static str
        ensures { result.now ≡ out_of_memory_text }
    {
        "memory ran out; free memory, or open a smaller heap"
    }
}

impl fmt::Display for OutOfMemory {
    ghost use Rattle.std.specs.Prelude.{Some};
    ghost use Rattle.block_store.specs.ErrorTexts.{out_of_memory_text};

    ghost output = { λ _. Some out_of_memory_text };

    fn fmt<W: fmt::Write>(&self, f: &mut fmt::Formatter<W>) -> fmt::Result {
        f.write_str(self.text())
    }
}

impl Error for OutOfMemory {}

impl From<AllocError> for OutOfMemory {
    fn from(_error: AllocError) -> OutOfMemory {
        OutOfMemory
    }
}

impl<T: Drop> From<AllocFailed<T>> for OutOfMemory {
    fn from(_error: AllocFailed<T>) -> OutOfMemory {
        OutOfMemory
    }
}

/// What fixes a heap: the width of its blocks, and five numbers.
#[derive(Clone, Copy, Debug, PartialEq, Eq)]
pub struct Config {
    /// How wide its blocks are.
    pub width: Width,
    /// How many threads share the heap, 1 to 16.
    pub threads: u32,
    /// How many blocks the heap has, 1 to 65,535.
    pub blocks: u32,
    /// The most blocks that a program keeps reachable, 0 to 65,535.
    pub live: u32,
    /// The most blocks that one object takes, 1 to 1,024.
    pub object: u32,
    /// How many elements the array that all threads share has, 0 to 1,024.
    pub shared: u32,
}

impl Config {
    /// Whether each of the five numbers is in its range.
    pub fn in_bounds(&self) -> bool
        ensures { IsTrue result ↔ IsInBounds self.now }
    {
        (1..=16).contains(&self.threads)
            && (1..=65_535).contains(&self.blocks)
            && self.live <= 65_535
            && (1..=1024).contains(&self.object)
            && self.shared <= 1024
    }

    /// How many bytes the words of the heap take.
    pub fn bytes(&self) -> u32
        requires { IsInBounds self.now }
        ensures value { result ≡ bytes self.now }
    {
        8 * (3 + 2 * self.threads + (3 + self.width.payloads()) * self.blocks)
    }
}

/// The name of an object: `t.s` is the s-th object that thread t allocated. The array that all of n
/// threads share is `n.0`.
#[derive(Clone, Copy, Debug, PartialEq, Eq)]
pub struct Name {
    /// The number of the thread, from 0.
    pub thread: u32,
    /// The number of the allocation, from 1; 0 for the shared array.
    pub serial: u64,
}

/// What a register or a field holds.
#[derive(Clone, Copy, Debug, PartialEq, Eq)]
pub enum Value {
    /// Nothing.
    Nil,
    /// A number below 2^62.
    Int(u64),
    /// A reference to the object of this name.
    Ref(Name),
}

/// What a payload word of a block holds.
#[derive(Clone, Copy, Debug, PartialEq, Eq)]
pub enum Payload {
    /// Nothing.
    Nil,
    /// A number below 2^62.
    Int(u64),
    /// A reference to this block, 1 to 65,535.
    Block(u32),
}

/// The colour of a block, and its place in a list.
#[derive(Clone, Copy, Debug, PartialEq, Eq)]
pub enum Colour {
    /// In no object; the number is the next block of its list, or 0, and at most 65,535.
    Free(u32),
    /// In an object, last made black in a cycle of an even number.
    Even,
    /// In an object, last made black in a cycle of an odd number.
    Odd,
    /// Reached and not yet scanned; the number is the next block of its list, or 0, and at most
    /// 65,535.
    Grey(u32),
}

/// Which block of which object a block is.
#[derive(Clone, Copy, Debug, PartialEq, Eq)]
pub struct Owner {
    /// The thread in the object's name, 0 to 16.
    pub thread: u32,
    /// The serial in the object's name, 0 to 131,072.
    pub serial: u32,
    /// The number of the block in its object, 0 to 1,023.
    pub ordinal: u32,
}

/// Which block of which object a block is, in a heap whose threads make more objects than those of
/// a job.
#[derive(Clone, Copy, Debug, PartialEq, Eq)]
pub struct WideOwner {
    /// The thread in the object's name, 0 to 16.
    pub thread: u32,
    /// The serial in the object's name, below 2^43.
    pub serial: u64,
    /// The number of the block in its object, 0 to 1,023.
    pub ordinal: u32,
}

/// What an object is, and how long.
#[derive(Clone, Copy, Debug, PartialEq, Eq)]
pub enum Shape {
    /// A record of this many fields, at most 65,535, in a list of blocks.
    List(u32),
    /// An array of this many elements, at most 65,535, in a tree of blocks.
    Tree(u32),
}

/// What the phase word of a heap says.
#[derive(Clone, Copy, Debug, PartialEq, Eq)]
pub struct PhaseWord {
    /// How many threads are inside.
    pub inside: u8,
    /// Whether the phase is Sweep, and not Mark.
    pub sweep: bool,
    /// Whether the gate is closed.
    pub closed: bool,
    /// The number of the cycle, below 2^54.
    pub cycle: u64,
}
