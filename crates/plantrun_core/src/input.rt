//! The thread that takes the readings of the input.
#![tactic(auto, using(live_tables::proofs::rows::Crews::same_first, live_tables::proofs::rows::Crews::same_then, crate::proofs::WorkerLogs::plant_same))]

ghost use Rattle.std.specs.Prelude.{◌≡◌, ◌≤◌, ◌<◌, ◌+◌, ◌∷◌, ◌++◌, ◌^◌, [], length, map};
ghost use Rattle.std.specs.Vec.{vec_capacity};
ghost use Rattle.live_tables.specs.rows.Workers.{IsSameWorker};
ghost use Rattle.plantrun_core.specs.Logs.{IsHandOf, operation_of};
ghost use Rattle.plantrun_core.specs.Readings.{puts, room};
ghost use Rattle.plantrun_core.specs.Works.{CountsInput, HasInput};

use crate::clock::Ticks;
use crate::hand::Hand;
use crate::places::INPUTS;
use crate::readings::{Reading, next_reading};
use crate::stops::Stop;
use array_tables::tag_table::Operation;
use live_tables::tags::LiveTags;
use std::sync::Wait;
use std::sync::atomic::{AtomicU64, Ordering};
use std::time::Clock;
use trace_text::Source;

/// Writes a reading, that of the line of this number from 1, into its tag. The word of the tag tells
/// the line.
fn put<R: Wait + Clock>(rt: &R, table: &LiveTags, hand: &mut Hand, reading: Reading, number: u64)
    requires own { IsHandOf table.now hand.old }
    requires tag { reading.tag < INPUTS }
    requires value { reading.value < 2 ^ 32 }
    requires number { number < 2 ^ 32 }
    requires few { length hand.old.calls.items < 2 ^ 24 }
    requires room { length hand.old.calls.items < vec_capacity hand.old.calls }
    ensures own { IsHandOf table.now hand.new }
    ensures same { IsSameWorker hand.old.who hand.new.who }
    ensures capacity { vec_capacity hand.new.calls ≡ vec_capacity hand.old.calls }
    ensures did { map operation_of hand.new.calls.items
        ≡ map operation_of hand.old.calls.items ++ puts number (reading ∷ []) }
{
    let op = Operation::Write {
        place: reading.tag,
        value: reading.value,
        quality: number
            .saturating_mul(2)
            .saturating_add(u64::from(reading.good)),
    };
    hand.does(rt, table, op);
}

/// Takes the readings of the input, each at its tick, and writes them into their tags, up to the
/// first that is of a later tick than the plant has. Returns why it ended before, if it did.
fn reads<R: Wait + Clock, S: Source>(
    rt: &R,
    table: &LiveTags,
    ticks: Ticks,
    source: &mut S,
    hand: &mut Hand,
) -> Option<Stop>
    requires own { IsHandOf table.now hand.old }
    requires count { ticks.count ≤ 1048576 }
    requires fresh { hand.old.calls.items ≡ [] }
    requires room { room ticks.count ≤ vec_capacity hand.old.calls }
    ensures own { IsHandOf table.now hand.new }
    ensures same { IsSameWorker hand.old.who hand.new.who }
    ensures input { HasInput ticks.count (S.left source.old) (S.left source.new) hand.new result }
    ensures counted { CountsInput (S.faults source.old) (S.faults source.new) result }
{
    let most = 2 * ticks.count + 64;
    for taken in 0..most {
        let reading = match next_reading(source, taken + 1, ticks.count) {
            Err(stop) => return Some(stop),
            Ok(None) => return None,
            Ok(Some(reading)) => reading,
        };
        ticks.wait(rt, reading.tick);
        put(rt, table, hand, reading, taken + 1);
        hand.counts(0, 0);
    }
    match next_reading(source, most + 1, ticks.count) {
        Err(stop) => Some(stop),
        Ok(None) => None,
        Ok(Some(_)) => Some(Stop::TooMany),
    }
}

/// The same, and halts the plant where the input ends before its end.
pub(crate) fn reads_or_halts<R: Wait + Clock, S: Source>(
    rt: &R,
    table: &LiveTags,
    ticks: Ticks,
    halt: &AtomicU64,
    source: &mut S,
    hand: &mut Hand,
) -> Option<Stop>
    requires own { IsHandOf table.now hand.old }
    requires count { ticks.count ≤ 1048576 }
    requires fresh { hand.old.calls.items ≡ [] }
    requires room { room ticks.count ≤ vec_capacity hand.old.calls }
    ensures own { IsHandOf table.now hand.new }
    ensures same { IsSameWorker hand.old.who hand.new.who }
    ensures input { HasInput ticks.count (S.left source.old) (S.left source.new) hand.new result }
    ensures counted { CountsInput (S.faults source.old) (S.faults source.new) result }
{
    let stop = reads(rt, table, ticks, source, hand);
    if stop.is_some() {
        halt.store(1, Ordering::SeqCst);
    }
    stop
}
