//! A record is a list of blocks, each of which refers to the next.
#![tactic(auto)]

ghost use Rattle.std.specs.Prelude.{◌≡◌, ℕ, ◌+◌, ◌<◌, ◌≤◌, SomeIff};
ghost use Rattle.object_lists.specs.Layouts.{IsLayout, IsWay, IsPath};
ghost use Rattle.object_lists.specs.Parts.{Part, link_in};
ghost use Rattle.object_lists.specs.Records.{record_blocks, record_part, record_slot};
ghost use Rattle.block_store.specs.declared.Width.{Width};
ghost use Rattle.block_store.specs.Widths.{payloads};

use block_store::Width;

/// How many blocks a record of `f` fields takes. `f` is at most 65,535.
pub fn blocks_of_record(width: Width, f: u32) -> u32
    requires { f ≤ 65535 }
    ensures { result ≡ record_blocks width f }
{
    // The first payload of a block is its link. A division by a constant takes no division.
    match width {
        Width::Four => f.div_ceil(3).max(1),
        Width::Eight => f.div_ceil(7).max(1),
    }
}

/// Where field `i` of a record is: the number of links to follow from the first block, which is
/// the ordinal of the field's block, and the payload there.
#[inline(always)]
pub fn walk_of(width: Width, i: u32) -> (u32, u32)
    ensures pair { result ≡ record_slot width i }
    ensures way { (f : ℕ) → i < f
        → IsWay (record_part width f) i result.0 result.1 (λ l. l) (λ l. 0) }
{
    match width {
        Width::Four if i < 3 => (0, 1 + i),
        Width::Four => (i / 3, 1 + i % 3),
        Width::Eight if i < 7 => (0, 1 + i),
        Width::Eight => (i / 7, 1 + i % 7),
    }
}

/// The ordinal to which the block of this ordinal refers, in a record of this many blocks. `None`
/// at the last. The ordinal is below `blocks`.
pub fn link_of(width: Width, blocks: u32, ordinal: u32) -> Option<u32>
    requires { ordinal < blocks }
    ensures next { SomeIff result (ordinal + 1 < blocks) (ordinal + 1) }
    ensures link { (f : ℕ) → record_blocks width f ≡ blocks
        → result ≡ link_in (record_part width f ordinal 0) }
{
    let next = ordinal + 1;
    (next < blocks).then_some(next)
}

/// Records have a layout: distinct fields have distinct places, each link goes to a larger ordinal,
/// and each block but the first is linked from one place.
pub fn record_layouts()
    ensures { (w : Width) (f : ℕ)
        → IsLayout (payloads w) f (record_blocks w f) (record_part w f) (record_slot w) }
{}

/// In every layout, of a record or of an array, each block is reached from the first along links,
/// in no more steps than its ordinal says.
pub fn blocks_are_reached()
    ensures { (w len blocks : ℕ) (part : ℕ → ℕ → Part) (slot : ℕ → ℕ × ℕ)
        → IsLayout w len blocks part slot → (o : ℕ) → o < blocks
        → (steps : ℕ) × (way : ℕ → ℕ) × (turn : ℕ → ℕ)
        × (steps ≤ o) × IsPath part o steps way turn }
{}
