//! The order of a system: its items as they come, with the room for all of them taken before.

ghost use Rattle.std.specs.Prelude.{ℕ, ◌≡◌, ◌≤◌, ◌<◌, ◌+◌, ◌-◌, ◌/◌, ◌^◌, ◌++◌, ◌∷◌, [], if◌then◌else◌, length, map, Option, IfOk, IfSome};
ghost use Rattle.std.specs.Vec.{vec_capacity};
ghost use Rattle.block_store.specs.declared.Config.{Config};
ghost use Rattle.block_store.specs.Phases.{bit};
ghost use Rattle.never_heap.specs.declared.Item.{Item};
ghost use Rattle.never_heap.specs.HistoryOfOrder.{item_of};
ghost use Rattle.heap_system.specs.Machines.{State, Run, next};
ghost use Rattle.heap_system.specs.Ordering.{ordered_of};
ghost use Rattle.heap_system.specs.Systems.{Ordered, items_added, ordered_after, commands_in, opening_order};

use block_store::{Config, OutOfMemory};
use never_heap::{Command, Item};
use std::alloc::Global;

/// A turn adds to the order of a run, as items, what it adds to the items of a system; and it
/// leaves one event less at most.
pub fn turns_add_their_items()
    ensures items { (c : Config) (t : ℕ) (r : Run)
        → map item_of (next c t r).order ≡ map item_of r.order ++ items_added c t r.state }
    ensures left { (c : Config) (t : ℕ) (s : State) (o : Option Ordered) (n : ℕ)
        → IfSome o (λ x. n < x.left) → IfSome (ordered_after c t s o) (λ x. n ≤ x.left) }
{}

// How many commands the traces have.
fn commands_of(traces: &[Vec<Command>]) -> usize
    requires { commands_in (map (λ v. v.items) traces.now) ≤ 2 ^ 32 }
    ensures { result ≡ commands_in (map (λ v. v.items) traces.now) }
{
    let mut sum = 0;
    for trace in traces {
        sum += trace.len();
    }
    sum
}

// The room for all items of an order with so many events: each command has one, and each cycle but
// the last takes an event for each block.
pub fn room_for(c: &Config, traces: &[Vec<Command>], turns: u64) -> usize
    requires blocks { 1 ≤ c.now.blocks }
    requires commands { commands_in (map (λ v. v.items) traces.now) ≤ 2 ^ 32 }
    requires turns { turns ≤ 2 ^ 32 }
    ensures { result ≡ commands_in (map (λ v. v.items) traces.now) + 2 + turns / c.now.blocks }
{
    commands_of(traces) + 2 + (turns / u64::from(c.blocks)) as usize
}

/// The items of an order so far, and how many events may still be made.
#[derive(Drop)]
pub struct KeptOrder {
    items: Vec<Item>,
    left: u64,
}

impl KeptOrder {
    /// The order of an opening, for so many events, with room for so many items.
    ///
    /// # Errors
    ///
    /// `OutOfMemory` where there is no room for them.
    pub fn opening(alloc: Global, room: usize, turns: u64) -> Result<KeptOrder, OutOfMemory>
        requires { 1 ≤ room }
        ensures order { IfOk result (λ o. ordered_of o ≡ opening_order turns) }
        ensures room { IfOk result (λ o. room ≤ vec_capacity o.items) }
    {
        let mut items = Vec::with_capacity(alloc, room)?;
        items.push_reserved(Item::Start);
        Ok(KeptOrder { items, left: turns })
    }

    /// The items so far.
    pub fn items(&self) -> &[Item]
        ensures { result.now ≡ self.now.items.items }
    {
        &self.items
    }

    // One item more, or none.
    fn put(&mut self, is: bool, item: Item)
        requires { length self.old.items.items + bit is ≤ vec_capacity self.old.items }
        ensures items { self.new.items.items
            ≡ self.old.items.items ++ (if is then item ∷ [] else []) }
        ensures room { vec_capacity self.new.items ≡ vec_capacity self.old.items }
        ensures left { self.new.left ≡ self.old.left }
    {
        if is {
            self.items.push_reserved(item);
        }
    }

    /// After an event of a thread: its next entry where the event decides a command, and a start
    /// where it starts a cycle. There is room for them.
    pub fn add(&mut self, thread: u8, decides: bool, starts: bool)
        requires left { 0 < self.old.left }
        requires room { length self.old.items.items + (bit decides + bit starts)
            ≤ vec_capacity self.old.items }
        ensures items { self.new.items.items
            ≡ self.old.items.items ++ ((if decides then Item.Entry thread ∷ [] else [])
            ++ (if starts then Item.Start ∷ [] else [])) }
        ensures room { vec_capacity self.new.items ≡ vec_capacity self.old.items }
        ensures left { self.new.left ≡ self.old.left - 1 }
    {
        self.left -= 1;
        self.put(decides, Item::Entry(thread));
        self.put(starts, Item::Start);
    }
}
