//! An array is a tree of blocks: its leaves hold the elements, and each other block refers to as
//! many blocks of the level below as it has payload words, or to fewer.
#![tactic(auto)]

ghost use Rattle.std.specs.Prelude.{◌≡◌, ℕ, ◌+◌, ◌^◌, ◌<◌, ◌≤◌};
ghost use Rattle.block_store.specs.Widths.{payloads, register_blocks};
ghost use Rattle.block_store.specs.Registers.{root_block, register_block, register_slot};
ghost use Rattle.block_store.specs.declared.TheConstants.{REGISTERS};
ghost use Rattle.block_store.specs.declared.Width.{Width};
ghost use Rattle.object_lists.specs.Layouts.{IsLayout, IsWay};
ghost use Rattle.object_lists.specs.Parts.{Link, Field, link_in, link_below};
ghost use Rattle.array_trees.specs.Levels.{level_size, IsByLevels, IsDepth, array_part, array_slot, array_depth, array_way, array_turn};
ghost use Rattle.array_trees.specs.Trees.{blocks_over, leaves, tree, array_blocks, IsTree};

use block_store::Width;

/// The count of a tree's blocks is the one that two equations give: one block has no level over it,
/// and over more blocks is a level with one block per `w` of them.
pub fn tree_counts()
    ensures equations { (w : ℕ) → 1 < w → IsTree w }
    ensures all_levels { (w q : ℕ) → 1 < w → q ≤ tree w q }
{}

// How many blocks are right over a level of `q` blocks.
fn over(width: Width, q: u32) -> u32
    ensures { result ≡ blocks_over (payloads width) q }
{
    q.div_ceil(width.payloads())
}

// How many blocks hold the elements.
fn leaves_of(width: Width, e: u32) -> u32
    requires { e ≤ 65535 }
    ensures { result ≡ leaves (payloads width) e }
{
    over(width, e).max(1)
}

/// How many blocks an array of `e` elements takes, at most 21,845. `e` is at most 65,535.
#[tactic(auto, using(crate::proofs::Counts::counts))]
pub fn blocks_of_array(width: Width, e: u32) -> u32
    requires { e ≤ 65535 }
    ensures value { result ≡ array_blocks width e }
    ensures few { result ≤ 21845 }
{
    let mut level = leaves_of(width, e);
    let mut blocks = level;
    while level > 1 {
        level = over(width, level);
        blocks += level;
    }
    blocks
}

/// How many levels are above the leaves of an array of `e` elements, at most 7. `e` is at most
/// 65,535.
#[tactic(auto, using(crate::proofs::Depths::depths))]
pub fn depth_of(width: Width, e: u32) -> u32
    requires { e ≤ 65535 }
    ensures value { result ≡ array_depth width e }
    ensures few { result ≤ 7 }
{
    let mut level = leaves_of(width, e);
    let mut depth = 0;
    while level > 1 {
        level = over(width, level);
        depth += 1;
    }
    depth
}

// How many leaves are under a full block that is `height` levels above them.
#[tactic(auto, using(crate::proofs::Depths::depths))]
fn span(width: Width, e: u32, height: u32) -> u32
    requires few { e ≤ 65535 }
    requires height { height ≤ array_depth width e }
    ensures power { result ≡ payloads width ^ height }
    ensures some { 0 < result }
{
    width.payloads().pow(height)
}

/// The payload at which the way to element `i` goes on from its block of this level, where level 0
/// is the root. At level `depth_of(width, e)` the element is there. `e` is at most 65,535, `i`
/// is below `e`, and the level is at most `depth_of(width, e)`.
pub fn path_of(width: Width, e: u32, i: u32, level: u32) -> u32
    requires few { e ≤ 65535 }
    requires element { i < e }
    requires level { level ≤ array_depth width e }
    ensures turn { result ≡ array_turn width e i level }
    ensures on { level < array_depth width e
        → array_part width e (array_way width e i level) result
        ≡ Link (array_way width e i (level + 1)) }
    ensures ends { level ≡ array_depth width e
        → array_part width e (array_way width e i level) result ≡ Field i }
{
    i / span(width, e, depth_of(width, e) - level) % width.payloads()
}

// How many blocks has the level that is `height` levels above the leaves.
fn blocks_in_level(width: Width, e: u32, height: u32) -> u32
    requires few { e ≤ 65535 }
    requires height { height ≤ array_depth width e }
    ensures { result ≡ level_size (payloads width) e height }
{
    leaves_of(width, e).div_ceil(span(width, e, height))
}

/// The ordinal of child `j` of the block of this ordinal, in an array of `e` elements. `None` where
/// the block is a leaf or has no such child. `e` is at most 65,535, `j` is below the payload words
/// of the width, and the ordinal is below `blocks_of_array(width, e)`.
pub fn child_of(width: Width, e: u32, ordinal: u32, j: u32) -> Option<u32>
    requires few { e ≤ 65535 }
    requires inside { ordinal < array_blocks width e }
    requires child { j < payloads width }
    ensures { result ≡ link_in (array_part width e ordinal j) }
{
    let mut start = 0;
    for height in (0..depth_of(width, e)).rev() {
        // The level below begins where this one ends.
        let below = start + blocks_in_level(width, e, height + 1);
        if ordinal < below {
            let child = below + (ordinal - start) * width.payloads() + j;
            let end = below + blocks_in_level(width, e, height);
            return (child < end).then_some(child);
        }
        start = below;
    }
    None
}

/// Arrays have a layout: distinct elements have distinct places, each link goes to a larger
/// ordinal, and each block but the root is linked from one place. The ordinals go level by level
/// from the root, and the way to an element ends at its place.
pub fn array_layouts()
    ensures layout { (w : Width) (e : ℕ)
        → IsLayout (payloads w) e (array_blocks w e) (array_part w e) (array_slot w e) }
    ensures depth { (w : Width) (e : ℕ) → IsDepth (payloads w) e (array_depth w e) }
    ensures levels { (w : Width) (e : ℕ) → IsByLevels (payloads w) e }
    ensures way { (w : Width) (e i : ℕ) → i < e
        → IsWay (array_part w e) i (array_depth w e) (array_turn w e i (array_depth w e))
        (array_way w e i) (array_turn w e i) }
{}

/// The registers of a thread are laid out as an array of 16 elements: in as many blocks, each
/// register at its element's place, after a root that links to all other blocks.
pub fn registers_are_arrays()
    ensures blocks { (w : Width) → register_blocks w ≡ array_blocks w REGISTERS }
    ensures slot { (w : Width) (t r : ℕ) → r < REGISTERS
        → (register_block w t r ≡ root_block w t + (array_slot w REGISTERS r).0)
        × (register_slot w r ≡ (array_slot w REGISTERS r).1) }
    ensures root { (w : Width) (j : ℕ) → j < payloads w
        → array_part w REGISTERS 0 j ≡ link_below (1 + j) (register_blocks w) }
{}
