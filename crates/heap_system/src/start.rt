//! The words of a heap before the first event.

ghost use Rattle.std.specs.Prelude.{◌≡◌, ◌≤◌, ◌<◌, ◌+◌, ◌*◌, ◌&&◌, ◌==◌, ℕ, cond, true, length, IfOk};
ghost use Rattle.block_store.specs.declared.TheConstants.{REGISTERS};
ghost use Rattle.block_store.specs.Registers.{root_block, registers_end, register_thread, register_ordinal};
ghost use Rattle.block_store.specs.Widths.{payloads, register_blocks};
ghost use Rattle.block_store.specs.Configs.{IsInBounds};
ghost use Rattle.block_store.specs.Heaps.{heap_of};
ghost use Rattle.block_store.specs.Places.{Place, GreyList, ColourOf, OwnerOf, ShapeOf, PayloadOf, extent, in_range, words_count, block_size, IsBlock, FreeList, in_block, place_at};
ghost use Rattle.rate_plan.specs.Rates.{IsAdmitted};
ghost use Rattle.object_lists.specs.Parts.{link_in};
ghost use Rattle.array_trees.specs.Trees.{array_blocks};
ghost use Rattle.array_trees.specs.Levels.{array_part};
ghost use Rattle.heap_invariant.specs.graph_relation.Made.{link_word};
ghost use Rattle.array_trees.specs.InitialHeaps.{opening_blocks};
ghost use Rattle.heap_invariant.specs.graph_relation.InitialHeaps.{register_word, shared_word};
ghost use Rattle.heap_system.specs.InitialHeaps.{opening_colour, opening_heap};

use array_trees::{blocks_of_array, child_of};
use block_store::{
    Colour, Config, OutOfMemory, Payload, PhaseWord, Places, REGISTERS, Shape, WideOwner, Width,
    colour_word, payload_word, phase_word, shape_word, white, wide_word,
};
use heap_machine::Words;
use std::alloc::Global;

/// The words of the opening heap of a configuration that has a rate: each thread has its registers,
/// of which register 0 refers to the shared array, and all blocks after that are Free.
///
/// # Errors
///
/// `OutOfMemory` where there is no room for the words.
pub fn opening(alloc: Global, c: &Config) -> Result<Words, OutOfMemory>
    requires bounds { IsInBounds c.now }
    requires plan { IsAdmitted c.now }
    ensures count { IfOk result (λ w. length w ≡ words_count (extent c.now)) }
    ensures words { IfOk result (λ w. (p : Place) → in_range (extent c.now) p ≡ true
        → heap_of (extent c.now) w
        p ≡ opening_heap c.now p) }
{
    let count = Places::new(c).words();
    let mut words = Words::zeroed(alloc, count)?;
    for i in 0..count {
        words.put(i, word_at(c, i));
    }
    Ok(words)
}

// The word of this number.
fn word_at(c: &Config, i: usize) -> u64
    requires bounds { IsInBounds c.now }
    requires plan { IsAdmitted c.now }
    requires low { i < words_count (extent c.now) }
    ensures { result ≡ opening_heap c.now (place_at (extent c.now) i) }
{
    let places = Places::new(c);
    let first = places.colour(1);
    if i < places.grey_list(0) {
        head_at(c, i)
    } else if i < places.free_list(0) {
        c.width.root((i - places.grey_list(0)) as u32) as u64
    } else if i < first {
        free_list_at(c, i - places.free_list(0))
    } else {
        let size = places.payload(1, 0) - first + c.width.payloads() as usize;
        let behind = i - first;
        block_word(c, (behind / size + 1) as u32, behind % size)
    }
}

// The phase word, the cursor, and the free count.
fn head_at(c: &Config, i: usize) -> u64
    requires bounds { IsInBounds c.now }
    requires plan { IsAdmitted c.now }
    requires low { i < 3 }
    ensures { result ≡ opening_heap c.now (place_at (extent c.now) i) }
{
    let places = Places::new(c);
    if i == places.phase() {
        phase_word(PhaseWord {
            inside: 0,
            sweep: false,
            closed: false,
            cycle: 1,
        })
    } else if i == places.cursor() {
        c.blocks as u64 + 1
    } else {
        (c.blocks - last_block(c)) as u64
    }
}

// The free list of thread `t`.
fn free_list_at(c: &Config, t: usize) -> u64
    requires { IsInBounds c.now }
    ensures { result ≡ opening_heap c.now (FreeList t) }
{
    if t == 0 { last_block(c) as u64 + 1 } else { 0 }
}

// The word of block `x` that is `k` words after its colour.
fn block_word(c: &Config, x: u32, k: usize) -> u64
    requires bounds { IsInBounds c.now }
    requires plan { IsAdmitted c.now }
    requires block { IsBlock c.now x }
    requires low { k < 3 + payloads c.now.width }
    ensures { result ≡ opening_heap c.now (in_block x k) }
{
    let places = Places::new(c);
    let first = places.colour(x);
    if first + k == places.colour(x) {
        colour_at(c, x)
    } else if first + k == places.owner(x) {
        owner_at(c, x)
    } else if first + k == places.shape(x) {
        shape_at(c, x)
    } else {
        payload_at(c, x, (first + k - places.payload(x, 0)) as u32)
    }
}

// The last block of the shared array.
fn last_block(c: &Config) -> u32
    requires { IsInBounds c.now }
    ensures { result ≡ opening_blocks c.now }
{
    c.width.registers_end(c.threads) + blocks_of_array(c.width, c.shared)
}

// The thread whose register array has block `x`.
#[tactic(auto, using(block_store::proofs::Registers::thread_by))]
fn thread_of(width: Width, x: u32) -> u32
    requires { 1 ≤ x }
    ensures { result ≡ register_thread width x }
{
    (x - 1) / width.registers()
}

// Which block of that array it is.
#[tactic(auto, using(block_store::proofs::Registers::ordinal_by))]
fn ordinal_of(width: Width, x: u32) -> u32
    requires { 1 ≤ x }
    ensures { result ≡ register_ordinal width x }
{
    (x - 1) % width.registers()
}

// The colour word of block `x`.
fn colour_at(c: &Config, x: u32) -> u64
    requires bounds { IsInBounds c.now }
    requires block { IsBlock c.now x }
    ensures { result ≡ opening_colour c.now x }
{
    if x <= c.width.registers_end(c.threads) && ordinal_of(c.width, x) == 0 {
        colour_word(Colour::Grey(0))
    } else if x <= last_block(c) {
        colour_word(white(1))
    } else if x < c.blocks {
        colour_word(Colour::Free(x + 1))
    } else {
        colour_word(Colour::Free(0))
    }
}

// The owner word of block `x`.
fn owner_at(c: &Config, x: u32) -> u64
    requires bounds { IsInBounds c.now }
    requires block { IsBlock c.now x }
    ensures { result ≡ opening_heap c.now (OwnerOf x) }
{
    let registers = c.width.registers_end(c.threads);
    if x <= registers {
        wide_word(WideOwner {
            thread: thread_of(c.width, x),
            serial: 0,
            ordinal: ordinal_of(c.width, x),
        })
    } else if x <= last_block(c) {
        wide_word(WideOwner {
            thread: c.threads,
            serial: 0,
            ordinal: x - (registers + 1),
        })
    } else {
        0
    }
}

// The shape word of block `x`.
fn shape_at(c: &Config, x: u32) -> u64
    requires bounds { IsInBounds c.now }
    requires block { IsBlock c.now x }
    ensures { result ≡ opening_heap c.now (ShapeOf x) }
{
    if x <= c.width.registers_end(c.threads) {
        shape_word(Shape::Tree(REGISTERS))
    } else if x <= last_block(c) {
        shape_word(Shape::Tree(c.shared))
    } else {
        0
    }
}

// The word of payload `j` of an array of nils, whose ordinals are from block `first` on.
fn link_at(width: Width, elements: u32, first: u32, ordinal: u32, j: u32) -> u64
    requires few { elements ≤ 65535 }
    requires inside { ordinal < array_blocks width elements }
    requires child { j < payloads width }
    requires first { 1 ≤ first }
    requires low { first + array_blocks width elements ≤ 65536 }
    ensures { result ≡ link_word (λ o. first + o) (link_in (array_part width elements ordinal j)) }
{
    match child_of(width, elements, ordinal, j) {
        Some(child) => payload_word(Payload::Block(first + child)),
        None => 0,
    }
}

// Payload `j` of block `x`.
fn payload_at(c: &Config, x: u32, j: u32) -> u64
    requires bounds { IsInBounds c.now }
    requires plan { IsAdmitted c.now }
    requires block { IsBlock c.now x }
    requires payload { j < payloads c.now.width }
    ensures { result ≡ opening_heap c.now (PayloadOf x j) }
{
    let registers = c.width.registers_end(c.threads);
    if x <= registers {
        register_payload(c, thread_of(c.width, x), ordinal_of(c.width, x), j)
    } else if x <= last_block(c) {
        shared_payload(c, x - (registers + 1), j)
    } else {
        0
    }
}

// Payload `j` of ordinal `ordinal` of the register array of thread `t`: register 0 refers to the
// shared array, and the other registers are nil.
fn register_payload(c: &Config, t: u32, ordinal: u32, j: u32) -> u64
    requires bounds { IsInBounds c.now }
    requires plan { IsAdmitted c.now }
    requires thread { t < c.now.threads }
    requires ordinal { ordinal < register_blocks c.now.width }
    requires payload { j < payloads c.now.width }
    ensures { result ≡ register_word c.now t ordinal j }
{
    if ordinal == 1 && j == 0 {
        payload_word(Payload::Block(c.width.registers_end(c.threads) + 1))
    } else {
        link_at(c.width, REGISTERS, c.width.root(t), ordinal, j)
    }
}

// Payload `j` of ordinal `ordinal` of the shared array, whose elements are nil.
fn shared_payload(c: &Config, ordinal: u32, j: u32) -> u64
    requires bounds { IsInBounds c.now }
    requires plan { IsAdmitted c.now }
    requires ordinal { ordinal < array_blocks c.now.width c.now.shared }
    requires payload { j < payloads c.now.width }
    ensures { result ≡ shared_word c.now ordinal j }
{
    link_at(
        c.width,
        c.shared,
        c.width.registers_end(c.threads) + 1,
        ordinal,
        j,
    )
}
