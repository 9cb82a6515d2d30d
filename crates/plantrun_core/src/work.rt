//! A thread that works at ticks.
#![tactic(auto, using(live_tables::proofs::rows::Crews::same_first, live_tables::proofs::rows::Crews::same_then, crate::proofs::WorkerLogs::plant_same))]

ghost use Rattle.std.specs.Prelude.{◌≡◌, ◌≤◌, ◌<◌, ◌+◌, IsNone, IsFalse};
ghost use Rattle.std.specs.Vec.{vec_capacity};
ghost use Rattle.plantrun_core.specs.declared.roles.Role.TheVariants.{History};
ghost use Rattle.live_tables.specs.rows.Workers.{IsSameWorker};
ghost use Rattle.plantrun_core.specs.Logs.{IsHandOf};
ghost use Rattle.plantrun_core.specs.Roles.{closed};
ghost use Rattle.plantrun_core.specs.Works.{HasActedAfter, HasControlledAll, HasGone, HasKeptAll, IsAtWork, first_of, most_in};

use crate::clock::{Ticks, nanoseconds};
use crate::hand::Hand;
use crate::places::{FIRST_KEPT, RING};
use crate::roles::{Role, control};
use array_tables::tag_table::Operation;
use live_tables::TableNote;
use live_tables::tags::LiveTags;
use std::sync::Wait;
use std::sync::atomic::{AtomicU64, Ordering};
use std::time::Clock;

/// A thread at work.
#[derive(Drop)]
pub(crate) struct Work {
    pub(crate) hand: Hand,
    /// What it does at its next tick.
    pub(crate) role: Role,
    /// How many ticks it did.
    pub(crate) ticks: u64,
}

impl Work {
    /// Does what is due at the next tick.
    fn tick<R: Wait + Clock>(&mut self, rt: &R, table: &LiveTags, ticks: Ticks)
        requires own { IsHandOf table.now self.old.hand }
        requires count { ticks.count ≤ 1048576 }
        requires more { self.old.ticks < ticks.count }
        requires work { IsAtWork ticks.count self.old }
        ensures own { IsHandOf table.now self.new.hand }
        ensures gone { HasGone ticks.count self.old self.new }
        ensures one { self.new.ticks ≡ self.old.ticks + 1 }
    {
        self.role = self.role.tick(rt, table, &mut self.hand, self.ticks);
        self.ticks += 1;
        self.hand.counts(nanoseconds(rt), ticks.at(self.ticks));
    }
}

/// Whether the plant is to be halted. No one halts it without a word for it.
fn is_halted(halt: Option<&AtomicU64>) -> bool
    ensures { IsNone halt.entry → IsFalse result }
{
    match halt {
        Some(halt) => halt.load(Ordering::SeqCst) != 0,
        None => false,
    }
}

/// Works at each tick that is left, or until the plant is halted.
pub(crate) fn works<R: Wait + Clock>(
    rt: &R,
    table: &LiveTags,
    ticks: Ticks,
    halt: Option<&AtomicU64>,
    work: &mut Work,
)
    requires own { IsHandOf table.now work.old.hand }
    requires count { ticks.count ≤ 1048576 }
    requires work { IsAtWork ticks.count work.old }
    ensures own { IsHandOf table.now work.new.hand }
    ensures gone { HasGone ticks.count work.old work.new }
    ensures whole { IsNone halt.entry → work.new.ticks ≡ ticks.count }
{
    for tick in work.ticks..ticks.count {
        ticks.wait(rt, tick);
        if is_halted(halt) {
            return;
        }
        work.tick(rt, table, ticks);
    }
}

/// Lets the controller do one tick more, after its others and after all that the note covers.
pub(crate) fn acts_last<R: Wait + Clock>(
    rt: &R,
    table: &LiveTags,
    count: u64,
    note: TableNote,
    work: Work,
) -> Hand
    requires own { IsHandOf table.now work.hand }
    requires note { note.heap ≡ table.now.id }
    requires count { count ≤ 1048576 }
    requires work { IsAtWork count work }
    requires control { first_of work.role ≡ closed }
    requires whole { work.ticks ≡ count }
    requires room { most_in closed count + 3 ≤ vec_capacity work.hand.calls }
    ensures own { IsHandOf table.now result }
    ensures same { IsSameWorker work.hand.who result.who }
    ensures worked { HasControlledAll count result.calls.items }
    ensures last { HasActedAfter note.seen result }
{
    let Work { hand, role, .. } = work;
    let Role::Control(before) = role else {
        unreachable!()
    };
    let mut hand = hand;
    table.learn(&mut hand.who, note);
    control(rt, table, &mut hand, before, count);
    hand
}

/// Reads all places of the ring, in the order of places, once the history did all its ticks.
pub(crate) fn rereads<R: Wait + Clock>(rt: &R, table: &LiveTags, count: u64, work: Work) -> Hand
    requires own { IsHandOf table.now work.hand }
    requires count { count ≤ 1048576 }
    requires work { IsAtWork count work }
    requires history { first_of work.role ≡ History }
    requires whole { work.ticks ≡ count }
    requires room { most_in History count + RING ≤ vec_capacity work.hand.calls }
    ensures own { IsHandOf table.now result }
    ensures same { IsSameWorker work.hand.who result.who }
    ensures kept { HasKeptAll count result.calls.items }
{
    let Work { hand, .. } = work;
    let mut hand = hand;
    for k in 0..RING {
        let op = Operation::Read {
            place: FIRST_KEPT + k,
        };
        hand.does(rt, table, op);
    }
    hand
}
