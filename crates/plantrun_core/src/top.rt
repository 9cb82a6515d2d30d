//! The top call: it alone starts threads and waits.

ghost use Rattle.std.specs.Prelude.{ℕ, ◌≡◌, ◌≢◌, ◌≤◌, None, IfErr, IfOk, IfSome, IsNone, OnOk, OnErr, map, string_bytes};
ghost use Rattle.trace_text.specs.Streams.{Appends, AppendsPrefix};
ghost use Rattle.plantrun_core.specs.declared.stops.Stop.TheVariants.{NoMemory};
ghost use Rattle.plantrun_core.specs.PlantWorkers.{HasPlant, HaveWorked};
ghost use Rattle.plantrun_core.specs.Exits.{IsExit};
ghost use Rattle.plantrun_core.specs.PlantOrders.{IsByStamps};
ghost use Rattle.plantrun_core.specs.Readings.{CountsRead, IsStop};
ghost use Rattle.plantrun_core.specs.PlantTexts.{parts_text, plant_text, IsTold};

use crate::calls::{Logs, Step};
use crate::clock::{Ticks, nanoseconds};
use crate::crew::{Closed, Gone, Opened, finished, new_table, ran, taken_apart};
use crate::order::by_stamps;
use crate::plans::{Plan, plan_of};
use crate::stops::Stop;
use crate::telling::{Cycles, Figures, write_all};
use std::alloc::Global;
use std::sync::Wait;
use std::thread::Threads;
use std::time::Clock;
use trace_text::{Failed, Sink, Source, WRITE_FAULT, put_line};

/// What became of a plant.
#[derive(Drop)]
pub struct Ended {
    /// What each thread did.
    pub logs: Logs,
    /// All of it, by ascending stamps.
    pub order: Vec<Step>,
    /// How many cycles of collection were started.
    pub cycles: u64,
    /// The figures of the threads, in the order of the logs.
    pub figures: [Figures; 4],
}

/// Runs a plant: a thread that writes the readings of the source into tags, each at its tick; a
/// controller; a thread that keeps the alarm list; and one that keeps the last 32 readings. All
/// tags lie in one table on one heap. At the end the controller acts once more, on the last readings.
/// Returns what the threads did. All of it has one order, in which each answer is that of a plain
/// table, and which keeps real time: what has a stamp comes before what its thread, or another,
/// began after a stamp that is no less.
///
/// # Errors
///
/// `BadLine` at the first line that spells no reading, `TooMany` at one reading more than 2 for
/// each tick and 64, and `ReadFault` where the source fails; these halt the plant. `NoMemory` if an
/// allocation failed.
pub fn plant<R: Threads + Wait + Clock + Sync, S: Source>(
    rt: &R,
    alloc: Global,
    plan: Plan,
    source: &mut S,
) -> Result<Ended, Stop>
    requires { plan.ticks ≤ 1048576 }
    ensures table { IfOk result (λ e. HasPlant e.logs e.cycles) }
    ensures worked { IfOk result (λ e. HaveWorked plan.ticks (S.left source.old) e.logs) }
    ensures order { IfOk result (λ e. IsByStamps e.logs e.order.items) }
    ensures stopped { IfErr result (λ stop.
        IsStop plan.ticks (S.left source.old) (S.left source.new) stop) }
    ensures counted { CountsRead (S.faults source.old) (S.faults source.new) result }
{
    let Some(Opened { table, crew, room }) = new_table(alloc, plan.ticks) else {
        return Err(Stop::NoMemory);
    };
    let ticks = Ticks {
        start: nanoseconds(rt).saturating_add(1_000_000),
        period: plan.period.saturating_mul(1_000),
        count: plan.ticks,
    };
    let ends = ran(rt, &table, ticks, source, crew);
    let Gone { crew, stop } = finished(rt, &table, ticks, ends);
    let closed = taken_apart(table, room, crew);
    match stop {
        Some(stop) => Err(stop),
        None => put_in_order(alloc, closed),
    }
}

/// What became of a plant that ran to its end.
fn put_in_order(alloc: Global, closed: Closed) -> Result<Ended, Stop>
    ensures order { IfOk result (λ e. IsByStamps e.logs e.order.items) }
    ensures same { IfOk result (λ e. (e.logs ≡ closed.logs) × (e.cycles ≡ closed.cycles)) }
    ensures memory { IfErr result (λ stop. stop ≡ NoMemory) }
{
    let Ok(order) = by_stamps(alloc, &closed.logs) else {
        return Err(Stop::NoMemory);
    };
    Ok(Ended {
        logs: closed.logs,
        order,
        cycles: closed.cycles,
        figures: closed.figures,
    })
}

/// Writes a line for each operation in the order, one for each thread's figures, and one for the
/// cycles of collection.
fn write_parts<K: Sink>(
    order: &[Step],
    figures: &[Figures],
    cycles: &[Cycles],
    sink: &mut K,
) -> Result<(), Failed>
    ensures written { OnOk result (Appends (K.held sink.old) (K.held sink.new)
        (parts_text order.now figures.now cycles.now)) }
    ensures prefix { OnErr result (AppendsPrefix (K.held sink.old) (K.held sink.new)
        (parts_text order.now figures.now cycles.now)) }
{
    write_all(order, sink)?;
    write_all(figures, sink)?;
    write_all(cycles, sink)
}

/// Writes what became of a plant.
fn write_ended<K: Sink>(ended: &Ended, sink: &mut K) -> Result<(), Failed>
    ensures written { OnOk result (Appends (K.held sink.old) (K.held sink.new)
        (plant_text ended.now.order.items ended.now.figures ended.now.cycles)) }
    ensures prefix { OnErr result (AppendsPrefix (K.held sink.old) (K.held sink.new)
        (plant_text ended.now.order.items ended.now.figures ended.now.cycles)) }
{
    let cycles = [Cycles {
        count: ended.cycles,
    }];
    write_parts(ended.order.as_slice(), &ended.figures, &cycles, sink)
}

/// How a plant ended: the exit status, and what became of it where it ran to its end.
#[derive(Drop)]
pub struct PlantExit {
    pub status: u8,
    pub ended: Option<Ended>,
}

/// Runs a plant as two words say, the ticks and the microseconds between them, and writes what
/// became of it, or one line that says why it stopped.
///
/// The status is 0 where all was written, 2 where the words are no plan, 6 where the sink failed,
/// and else that of the `Stop`: 3 for a wrong line, 4 for too many readings, 5 where the source
/// failed, and 7 where memory ran out.
pub fn plant_with_status<R: Threads + Wait + Clock + Sync, S: Source, K: Sink>(
    rt: &R,
    alloc: Global,
    words: &[String],
    source: &mut S,
    sink: &mut K,
) -> PlantExit
    ensures table { IfSome result.ended (λ e. HasPlant e.logs e.cycles) }
    ensures order { IfSome result.ended (λ e. IsByStamps e.logs e.order.items) }
    ensures told { IfSome result.ended (λ e. IsTold (K.held sink.old) (K.held sink.new)
        (plant_text e.order.items e.figures e.cycles) result.status) }
    ensures stopped { IsNone result.ended → result.status ≢ 0 }
    ensures exit { IsExit (map (λ w. string_bytes w) words.now) (S.left source.old)
        (S.left source.new) (K.held sink.old) (K.held sink.new) (S.faults source.old)
        (S.faults source.new) result.status result.ended }
{
    let Some(plan) = plan_of(words) else {
        return stopped(put_line(b"plantrun: usage\n", 2, sink));
    };
    match plant(rt, alloc, plan, source) {
        Ok(ended) => PlantExit {
            status: told(&ended, sink),
            ended: Some(ended),
        },
        Err(stop) => stopped(put_line(stop.line().bytes(), stop.status(), sink)),
    }
}

fn stopped(status: u8) -> PlantExit
    ensures ended { result.ended ≡ None }
    ensures status { result.status ≡ status }
{
    PlantExit {
        status,
        ended: None,
    }
}

/// Writes what became of a plant, and returns the status.
fn told<K: Sink>(ended: &Ended, sink: &mut K) -> u8
    ensures { IsTold (K.held sink.old) (K.held sink.new)
        (plant_text ended.now.order.items ended.now.figures ended.now.cycles) result }
{
    match write_ended(ended, sink) {
        Ok(()) => 0,
        Err(_) => WRITE_FAULT,
    }
}
