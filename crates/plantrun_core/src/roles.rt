//! What each thread does.
#![tactic(auto, using(live_tables::proofs::rows::Crews::same_first, live_tables::proofs::rows::Crews::same_then, crate::proofs::WorkerLogs::plant_same))]

ghost use Rattle.std.specs.Prelude.{◌≡◌, ◌≤◌, ◌<◌, ◌+◌, ◌^◌, length};
ghost use Rattle.std.specs.Vec.{vec_capacity};
ghost use Rattle.live_tables.specs.rows.Workers.{IsSameWorker};
ghost use Rattle.plantrun_core.specs.Roles.{HasControlled, HasStored, HasScanned, HasScannedTo, HasRecorded, HasTicked, HasWatched, IsFine};
ghost use Rattle.plantrun_core.specs.Logs.{HasGoneOn, IsHandOf};
ghost use Rattle.plantrun_core.specs.Works.{at_scan, most_at};

use crate::alarms::{Limits, act_of, limits_of, move_of};
use crate::hand::Hand;
use crate::law::{Loop, value_of};
use crate::places::{ACKNOWLEDGED, ALARMS, FIRST_KEPT, LARGEST, LISTED, OUTPUT, RING, SET_POINT};
use array_tables::tag_table::Operation;
use live_tables::tags::LiveTags;
use std::sync::Wait;
use std::time::Clock;

/// How many ticks lie between two scans of the alarms, and between two readings of the history.
const SCAN: u64 = 5;

/// Computes the output from the measured tag and the set point, and writes it.
pub(crate) fn control<R: Wait + Clock>(
    rt: &R,
    table: &LiveTags,
    hand: &mut Hand,
    before: Loop,
    tick: u64,
) -> Loop
    requires own { IsHandOf table.now hand.old }
    requires tick { tick ≤ 1048576 }
    requires integral { before.integral ≤ 16384000 }
    requires output { before.output ≤ 1000 }
    requires few { length hand.old.calls.items + 3 ≤ 2 ^ 24 }
    requires room { length hand.old.calls.items + 3 ≤ vec_capacity hand.old.calls }
    ensures own { IsHandOf table.now hand.new }
    ensures same { IsSameWorker hand.old.who hand.new.who }
    ensures capacity { vec_capacity hand.new.calls ≡ vec_capacity hand.old.calls }
    ensures integral { result.integral ≤ 16384000 }
    ensures output { result.output ≤ 1000 }
    ensures on { HasGoneOn hand.old.who hand.new.who }
    ensures did { HasControlled before tick hand.old.calls.items hand.new.calls.items result }
{
    let measured = value_of(hand.does(rt, table, Operation::Read { place: 0 }));
    let set = value_of(hand.does(rt, table, Operation::Read { place: SET_POINT }));
    let after = before.after(measured, set);
    let good = u64::from(measured.is_some() && set.is_some());
    let op = Operation::Write {
        place: OUTPUT,
        value: after.output,
        quality: tick.saturating_mul(2).saturating_add(good),
    };
    hand.does(rt, table, op);
    after
}

/// Looks at an alarm, and changes the list where it is to be changed.
fn scan<R: Wait + Clock>(rt: &R, table: &LiveTags, hand: &mut Hand, limits: &Limits, alarm: u32)
    requires own { IsHandOf table.now hand.old }
    requires alarm { alarm < ALARMS }
    requires few { length hand.old.calls.items + 4 ≤ 2 ^ 24 }
    requires room { length hand.old.calls.items + 4 ≤ vec_capacity hand.old.calls }
    ensures own { IsHandOf table.now hand.new }
    ensures same { IsSameWorker hand.old.who hand.new.who }
    ensures capacity { vec_capacity hand.new.calls ≡ vec_capacity hand.old.calls }
    ensures did { HasScanned limits.now alarm hand.old.calls.items hand.new.calls.items }
{
    let kept = hand.does(
        rt,
        table,
        Operation::Read {
            place: LISTED + alarm,
        },
    );
    let measured = hand.does(rt, table, Operation::Read { place: alarm });
    let told = hand.does(
        rt,
        table,
        Operation::Read {
            place: ACKNOWLEDGED + alarm,
        },
    );
    match act_of(move_of(limits, kept, measured, told), alarm, told) {
        Some(op) => {
            hand.does(rt, table, op);
        }
        None => {}
    }
}

/// Looks at all alarms.
fn scan_all<R: Wait + Clock>(rt: &R, table: &LiveTags, hand: &mut Hand)
    requires own { IsHandOf table.now hand.old }
    requires few { length hand.old.calls.items + 16 ≤ 2 ^ 24 }
    requires room { length hand.old.calls.items + 16 ≤ vec_capacity hand.old.calls }
    ensures own { IsHandOf table.now hand.new }
    ensures same { IsSameWorker hand.old.who hand.new.who }
    ensures capacity { vec_capacity hand.new.calls ≡ vec_capacity hand.old.calls }
    ensures did { HasScannedTo 4 hand.old.calls.items hand.new.calls.items }
{
    for alarm in 0..ALARMS {
        scan(rt, table, hand, &limits_of(alarm), alarm);
    }
}

/// Puts the measured tag into a place of the ring, where there is one.
fn keep<R: Wait + Clock>(rt: &R, table: &LiveTags, hand: &mut Hand, number: u64)
    requires own { IsHandOf table.now hand.old }
    requires few { length hand.old.calls.items + 2 ≤ 2 ^ 24 }
    requires room { length hand.old.calls.items + 2 ≤ vec_capacity hand.old.calls }
    ensures own { IsHandOf table.now hand.new }
    ensures same { IsSameWorker hand.old.who hand.new.who }
    ensures capacity { vec_capacity hand.new.calls ≡ vec_capacity hand.old.calls }
    ensures did { HasStored number hand.old.calls.items hand.new.calls.items }
{
    let Some((value, quality)) = hand.does(rt, table, Operation::Read { place: 0 }) else {
        return;
    };
    let op = Operation::Write {
        place: FIRST_KEPT + (number % u64::from(RING)) as u32,
        value: value.min(LARGEST),
        quality: quality.min(LARGEST),
    };
    hand.does(rt, table, op);
}

/// Looks at all alarms, if it is time for it.
fn watch<R: Wait + Clock>(rt: &R, table: &LiveTags, hand: &mut Hand, due: bool)
    requires own { IsHandOf table.now hand.old }
    requires few { length hand.old.calls.items + at_scan due 16 ≤ 2 ^ 24 }
    requires room { length hand.old.calls.items + at_scan due 16 ≤ vec_capacity hand.old.calls }
    ensures own { IsHandOf table.now hand.new }
    ensures same { IsSameWorker hand.old.who hand.new.who }
    ensures capacity { vec_capacity hand.new.calls ≡ vec_capacity hand.old.calls }
    ensures did { HasWatched due hand.old.calls.items hand.new.calls.items }
{
    if due {
        scan_all(rt, table, hand);
    }
}

/// Keeps a reading with this number, if it is time for it.
fn kept<R: Wait + Clock>(rt: &R, table: &LiveTags, hand: &mut Hand, number: u64, due: bool)
    requires own { IsHandOf table.now hand.old }
    requires few { length hand.old.calls.items + at_scan due 2 ≤ 2 ^ 24 }
    requires room { length hand.old.calls.items + at_scan due 2 ≤ vec_capacity hand.old.calls }
    ensures own { IsHandOf table.now hand.new }
    ensures same { IsSameWorker hand.old.who hand.new.who }
    ensures capacity { vec_capacity hand.new.calls ≡ vec_capacity hand.old.calls }
    ensures did { HasRecorded due number hand.old.calls.items hand.new.calls.items }
{
    if due {
        keep(rt, table, hand, number);
    }
}

/// What a thread does at a tick.
#[derive(Clone, Copy)]
pub(crate) enum Role {
    Control(Loop),
    Alarms,
    History,
}

impl Role {
    /// Does what is due at a tick, and returns what is to be done at the next.
    pub(crate) fn tick<R: Wait + Clock>(
        self,
        rt: &R,
        table: &LiveTags,
        hand: &mut Hand,
        tick: u64,
    ) -> Role
        requires own { IsHandOf table.now hand.old }
        requires tick { tick < 1048576 }
        requires fine { IsFine self }
        requires few { length hand.old.calls.items + most_at self tick ≤ 2 ^ 24 }
        requires room { length hand.old.calls.items + most_at self tick ≤ vec_capacity hand.old.calls }
        ensures own { IsHandOf table.now hand.new }
        ensures same { IsSameWorker hand.old.who hand.new.who }
        ensures capacity { vec_capacity hand.new.calls ≡ vec_capacity hand.old.calls }
        ensures fine { IsFine result }
        ensures did { HasTicked self tick hand.old.calls.items hand.new.calls.items result }
    {
        match self {
            Role::Control(before) => Role::Control(control(rt, table, hand, before, tick)),
            Role::Alarms => {
                watch(rt, table, hand, tick % SCAN == 0);
                Role::Alarms
            }
            Role::History => {
                kept(rt, table, hand, tick / SCAN, tick % SCAN == 0);
                Role::History
            }
        }
    }
}
