//! What a heap has to allow so that a picture can be built in it.

ghost use Rattle.std.specs.Prelude.{◌≡◌, ◌≤◌, ◌<◌, ◌*◌, ◌↔◌, ◌⊎◌, IsTrue, length, map, max, true, false, IfSome, IfNone};
ghost use Rattle.std.specs.List.{sum_by};
ghost use Rattle.block_store.specs.declared.Config.{Config};
ghost use Rattle.block_store.specs.Registers.{registers_end};
ghost use Rattle.never_heap.specs.Graphs.{Array};
ghost use Rattle.never_heap.specs.LiveBlocks.{blocks_of_kind, object_blocks};
ghost use Rattle.saved_heap.specs.heap_pictures.Needs.{AreShort, IsRaised, Meets, largest, needs_of, table_blocks};
ghost use Rattle.saved_heap.specs.heap_pictures.Pictures.{content_of, is_sound, view};

use crate::heap_pictures::plans::make;
use crate::heap_pictures::{Item, Picture};
use block_store::{Config, Width};
use never_heap::Command;

/// What the configuration of a heap has to allow so that a picture can be built in it.
#[derive(Clone, Copy, Debug, PartialEq, Eq)]
pub struct Needs {
    /// The width of blocks for which this was computed.
    pub width: Width,
    /// The least `object`: the blocks of the largest object, or of the table of all objects.
    pub object: u32,
    /// A `live` that is enough: the blocks of the registers, the shared array, the table and the
    /// objects.
    pub live: u64,
    /// How many objects there are. At most 65,534 can be built.
    pub objects: u64,
}

// How many blocks of this width an object takes.
fn blocks_of(item: &Item, width: Width) -> u32
    requires { length item.now.fields.items ≤ 65535 }
    ensures { result ≡ object_blocks width (view item.now) }
{
    make(item).blocks(width)
}

// How many blocks an array of so many elements takes.
fn array_blocks(elements: u32, width: Width) -> u32
    requires { elements ≤ 65535 }
    ensures { result ≡ blocks_of_kind width Array elements }
{
    Command::Arr { d: 0, elements }.blocks(width)
}

fn larger(one: u32, other: u32) -> u32
    ensures { result ≡ max one other }
{
    if one > other { one } else { other }
}

// How many blocks the largest of these objects takes.
fn largest_of(items: &[Item], width: Width) -> u32
    requires { AreShort items.now }
    ensures { result ≡ largest width (map view items.now) }
{
    let mut most = 0;
    for item in items {
        most = larger(most, blocks_of(item, width));
    }
    most
}

// How many blocks these objects take.
fn blocks_of_all(items: &[Item], width: Width) -> u64
    requires short { AreShort items.now }
    requires few { length items.now ≤ 65534 }
    ensures value { result ≡ sum_by (object_blocks width) (map view items.now) }
    ensures few { result ≤ 65534 * 4294967295 }
{
    let mut total = 0;
    for item in items {
        total += u64::from(blocks_of(item, width));
    }
    total
}

impl Picture {
    /// What a heap with blocks of this width and a shared array of this many elements has to allow,
    /// so that the picture can be built in it.
    ///
    /// None exactly where no heap allows it: the picture is not sound, or has more than 65,534
    /// objects.
    pub fn needs(&self, width: Width, shared: u32) -> Option<Needs>
        requires { shared ≤ 65535 }
        ensures needs { IfSome result (λ n. n ≡ needs_of width shared (content_of self.now)) }
        ensures sound { IfSome result (λ n. is_sound (content_of self.now) ≡ true) }
        ensures few { IfSome result (λ n. length self.now.objects.items ≤ 65534) }
        ensures none { IfNone result ((is_sound (content_of self.now) ≡ false)
            ⊎ (65534 < length self.now.objects.items)) }
    {
        if self.objects.len() > 65_534 || !self.is_sound() {
            return None;
        }
        let objects = self.objects.len() as u32;
        let table = array_blocks(objects + 1, width);
        let opening = u64::from(width.registers_end(1)) + u64::from(array_blocks(shared, width));
        Some(Needs {
            width,
            object: larger(table, largest_of(&self.objects, width)),
            live: opening + u64::from(table) + blocks_of_all(&self.objects, width),
            objects: u64::from(objects),
        })
    }
}

impl Needs {
    /// Whether a configuration allows so much.
    pub fn are_met(&self, c: &Config) -> bool
        ensures { IsTrue result ↔ Meets c.now self.now }
    {
        c.width == self.width
            && self.object <= c.object
            && self.live <= u64::from(c.live)
            && self.objects <= 65_534
    }

    /// The configuration with `object` and `live` raised to this, and with as many blocks beyond them
    /// as before. Its rate is then at most the old one times the new number of blocks over the old
    /// one, rounded up; more blocks lower it.
    ///
    /// None exactly where there is no such configuration: a number would be too large, there are
    /// more than 65,534 objects, or this was computed for another width.
    pub fn raise(&self, c: Config) -> Option<Config>
        ensures raised { IfSome result (IsRaised c self.now) }
        ensures none { IfNone result ((d : Config) → IsRaised c self.now d → ⊥) }
    {
        let live = if self.live > u64::from(c.live) {
            self.live
        } else {
            u64::from(c.live)
        };
        let object = larger(c.object, self.object);
        if live > 65_535 || object > 1024 {
            return None;
        }
        let more = live - u64::from(c.live) + 2 * u64::from(object - c.object);
        let blocks = u64::from(c.blocks) + more;
        if blocks > 65_535 || self.width != c.width || self.objects > 65_534 {
            return None;
        }
        Some(Config {
            live: live as u32,
            object,
            blocks: blocks as u32,
            ..c
        })
    }
}
