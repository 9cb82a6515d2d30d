//! The table with its four workers: how it is opened, used and closed.
#![tactic(auto, using(live_tables::proofs::rows::Crews::same_first, live_tables::proofs::rows::Crews::same_then, live_tables::proofs::rows::Crews::of_same, crate::proofs::WorkerLogs::plant_same))]

ghost use Rattle.std.specs.Prelude.{ℕ, List, Option, ◌≡◌, ◌+◌, ◌≤◌, ◌∷◌, [], length, IfSome};
ghost use Rattle.std.specs.Vec.{vec_capacity};
ghost use Rattle.live_tables.specs.tags.Live.{HaveOneTable, opened_config};
ghost use Rattle.live_tables.specs.rows.Workers.{AreFresh, AreInOrder, IsFresh, IsSameWorker};
ghost use Rattle.plantrun_core.specs.PlantWorkers.{AreAtWork, AreOfTable, AreTheirs, HaveEnded, HaveGone, IsCrew, IsGone, IsHandAt, IsNew, IsPlantOf, IsWorker, logs_of};
ghost use Rattle.plantrun_core.specs.Logs.{IsHandOf};
ghost use Rattle.plantrun_core.specs.Readings.{room};
ghost use Rattle.plantrun_core.specs.Roles.{IsFine};
ghost use Rattle.plantrun_core.specs.Works.{CountsInput, HasGone, HasInput, IsAtWork, first_of, most_in};

use crate::calls::Logs;
use crate::clock::Ticks;
use crate::hand::Hand;
use crate::input::reads_or_halts;
use crate::law::Loop;
use crate::places::{PLACES, RING};
use crate::roles::Role;
use crate::stops::Stop;
use crate::telling::Figures;
use crate::work::{Work, acts_last, rereads, works};
use live_tables::tags::{LiveTags, TagWorker};
use std::alloc::Global;
use std::sync::Wait;
use std::sync::atomic::AtomicU64;
use std::thread::{Threads, join_mut};
use std::time::Clock;
use trace_text::Source;

/// The workers of the four threads.
#[derive(Drop)]
pub(crate) struct Crew {
    pub(crate) input: Hand,
    pub(crate) control: Hand,
    pub(crate) alarms: Hand,
    pub(crate) history: Hand,
}

/// The threads that work at ticks.
#[derive(Drop)]
pub(crate) struct Works {
    pub(crate) control: Work,
    pub(crate) alarms: Work,
    pub(crate) history: Work,
}

/// The threads when each has ended or was halted, and why the input ended, if not at its end.
#[derive(Drop)]
pub(crate) struct Ends {
    pub(crate) input: Hand,
    pub(crate) stop: Option<Stop>,
    pub(crate) works: Works,
}

/// The hands of a plant that has ended, and why it stopped, if it did.
#[derive(Drop)]
pub(crate) struct Gone {
    pub(crate) crew: Crew,
    pub(crate) stop: Option<Stop>,
}

/// What is left of a plant: what its threads did, how many cycles of collection were started, and
/// the figures of each thread.
#[derive(Drop)]
pub struct Closed {
    pub logs: Logs,
    pub cycles: u64,
    pub figures: [Figures; 4],
}

/// A worker that has done nothing, with room in its log for so many operations.
fn hand_of(alloc: Global, table: &LiveTags, thread: u32, who: TagWorker, most: u64) -> Option<Hand>
    requires config { table.now.config ≡ opened_config 4 48 }
    requires own { IsWorker table.now thread who }
    requires fresh { IsFresh who }
    ensures worker { IfSome result (λ h. IsHandAt table.now thread h) }
    ensures none { IfSome result (λ h. h.calls.items ≡ []) }
    ensures room { IfSome result (λ h. most ≤ vec_capacity h.calls) }
{
    let Ok(calls) = Vec::with_capacity(alloc, most as usize) else {
        return None;
    };
    let mut who = who;
    table.stamp(&mut who);
    Some(Hand {
        who,
        calls,
        figures: Figures::none(thread),
    })
}

/// The workers of a vector of four.
fn four_of(workers: Vec<TagWorker>) -> (TagWorker, TagWorker, TagWorker, TagWorker)
    requires { length workers.items ≡ 4 }
    ensures { workers.items ≡ result.0 ∷ result.1 ∷ result.2 ∷ result.3 ∷ [] }
{
    let mut workers = workers;
    let first = workers.remove(0);
    let second = workers.remove(0);
    let third = workers.remove(0);
    let fourth = workers.remove(0);
    (first, second, third, fourth)
}

/// The four workers of a new table.
fn workers_of(
    _table: &LiveTags,
    workers: Vec<TagWorker>,
) -> (TagWorker, TagWorker, TagWorker, TagWorker)
    requires config { _table.now.config ≡ opened_config 4 48 }
    requires order { AreInOrder _table.now workers.items }
    requires fresh { AreFresh workers.items }
    ensures order { IsWorker _table.now 0 result.0 × IsWorker _table.now 1 result.1
        × IsWorker _table.now 2 result.2 × IsWorker _table.now 3 result.3 }
    ensures fresh { IsFresh result.0 × IsFresh result.1 × IsFresh result.2 × IsFresh result.3 }
{
    four_of(workers)
}

/// A new table, its crew, and a vector with room for its workers.
#[derive(Drop)]
pub(crate) struct Opened {
    pub(crate) table: LiveTags,
    pub(crate) crew: Crew,
    pub(crate) room: Vec<TagWorker>,
}

/// Opens a table with its four workers, for so many ticks. All memory of the run is taken here.
/// `None` if there is too little.
pub(crate) fn new_table(alloc: Global, ticks: u64) -> Option<Opened>
    requires { ticks ≤ 1048576 }
    ensures config { IfSome result (λ r. r.table.config ≡ opened_config 4 48) }
    ensures crew { IfSome result (λ r. IsCrew r.table r.crew) }
    ensures fresh { IfSome result (λ r. IsNew ticks r.crew) }
    ensures none { IfSome result (λ r. r.room.items ≡ []) }
    ensures room { IfSome result (λ r. 4 ≤ vec_capacity r.room) }
{
    let Ok((table, workers)) = LiveTags::open(alloc, PLACES, 4) else {
        return None;
    };
    let crew = crew_of(alloc, &table, workers, ticks)?;
    let Ok(room) = Vec::with_capacity(alloc, 4) else {
        return None;
    };
    Some(Opened { table, crew, room })
}

/// The crew of a new table. `None` if there is no memory for its logs.
fn crew_of(alloc: Global, table: &LiveTags, workers: Vec<TagWorker>, ticks: u64) -> Option<Crew>
    requires config { table.now.config ≡ opened_config 4 48 }
    requires order { AreInOrder table.now workers.items }
    requires fresh { AreFresh workers.items }
    requires ticks { ticks ≤ 1048576 }
    ensures crew { IfSome result (λ c. IsCrew table.now c) }
    ensures fresh { IfSome result (λ c. IsNew ticks c) }
{
    let (input, control, alarms, history) = workers_of(table, workers);
    let input = hand_of(alloc, table, 0, input, 2 * ticks + 64)?;
    let control = hand_of(alloc, table, 1, control, 3 * ticks + 3)?;
    let alarms = hand_of(alloc, table, 2, alarms, 4 * ticks + 16)?;
    let history = hand_of(alloc, table, 3, history, ticks + u64::from(RING) + 2)?;
    Some(Crew {
        input,
        control,
        alarms,
        history,
    })
}

/// A hand before its first tick.
fn before_ticks(hand: Hand, role: Role, _ticks: u64) -> Work
    requires none { hand.calls.items ≡ [] }
    requires first { first_of role ≡ role }
    requires fine { IsFine role }
    requires room { most_in role _ticks ≤ vec_capacity hand.calls }
    ensures work { IsAtWork _ticks result }
    ensures role { result.role ≡ role }
    ensures hand { result.hand ≡ hand }
{
    Work {
        hand,
        role,
        ticks: 0,
    }
}

/// Runs a thread until it ends or is halted.
fn shift<R: Wait + Clock>(rt: &R, table: &LiveTags, ticks: Ticks, halt: &AtomicU64, work: &mut Work)
    requires own { IsHandOf table.now work.old.hand }
    requires count { ticks.count ≤ 1048576 }
    requires work { IsAtWork ticks.count work.old }
    ensures own { IsHandOf table.now work.new.hand }
    ensures gone { HasGone ticks.count work.old work.new }
{
    works(rt, table, ticks, Some(halt), work);
}

/// Runs the alarms and the history.
fn both<R: Threads + Wait + Clock + Sync>(
    rt: &R,
    table: &LiveTags,
    ticks: Ticks,
    halt: &AtomicU64,
    alarms: &mut Work,
    history: &mut Work,
)
    requires own { IsHandOf table.now alarms.old.hand × IsHandOf table.now history.old.hand }
    requires count { ticks.count ≤ 1048576 }
    requires at { IsAtWork ticks.count alarms.old × IsAtWork ticks.count history.old }
    ensures own { IsHandOf table.now alarms.new.hand × IsHandOf table.now history.new.hand }
    ensures alarms { HasGone ticks.count alarms.old alarms.new }
    ensures history { HasGone ticks.count history.old history.new }
{
    join_mut(
        rt,
        &mut || shift(rt, table, ticks, halt, alarms),
        &mut || shift(rt, table, ticks, halt, history),
    );
}

/// Runs the three threads that work at ticks.
fn at_ticks<R: Threads + Wait + Clock + Sync>(
    rt: &R,
    table: &LiveTags,
    ticks: Ticks,
    halt: &AtomicU64,
    works: &mut Works,
)
    requires own { AreOfTable table.now works.old }
    requires count { ticks.count ≤ 1048576 }
    requires at { AreAtWork ticks.count works.old }
    ensures own { AreOfTable table.now works.new }
    ensures gone { HaveGone ticks.count works.old works.new }
{
    let Works {
        control,
        alarms,
        history,
    } = works;
    join_mut(
        rt,
        &mut || shift(rt, table, ticks, halt, control),
        &mut ||
            requires { (IsHandOf table.now alarms.now.hand × IsHandOf table.now history.now.hand)
                × (ticks.count ≤ 1048576)
                × (IsAtWork ticks.count alarms.now × IsAtWork ticks.count history.now) }
        { both(rt, table, ticks, halt, alarms, history) },
    );
}

/// Runs all four threads, until each has ended or was halted. Returns why the input ended, if not
/// at its end.
fn together<R: Threads + Wait + Clock + Sync, S: Source>(
    rt: &R,
    table: &LiveTags,
    ticks: Ticks,
    source: &mut S,
    works: &mut Works,
    input: &mut Hand,
) -> Option<Stop>
    requires own { AreOfTable table.now works.old }
    requires input { IsHandOf table.now input.old }
    requires count { ticks.count ≤ 1048576 }
    requires at { AreAtWork ticks.count works.old }
    requires fresh { input.old.calls.items ≡ [] }
    requires room { room ticks.count ≤ vec_capacity input.old.calls }
    ensures own { AreOfTable table.now works.new × IsHandOf table.now input.new }
    ensures works { HaveGone ticks.count works.old works.new }
    ensures same { IsSameWorker input.old.who input.new.who }
    ensures input { HasInput ticks.count (S.left source.old) (S.left source.new) input.new result }
    ensures counted { CountsInput (S.faults source.old) (S.faults source.new) result }
{
    let halt = AtomicU64::new(0);
    let halt = &halt;
    let ((), stop) = join_mut(
        rt,
        &mut ||
            requires { AreOfTable table.now works.now × (ticks.count ≤ 1048576)
                × AreAtWork ticks.count works.now }
        { at_ticks(rt, table, ticks, halt, works) },
        &mut || reads_or_halts(rt, table, ticks, halt, source, input),
    );
    stop
}

/// Runs all four threads, until each has ended or was halted.
pub(crate) fn ran<R: Threads + Wait + Clock + Sync, S: Source>(
    rt: &R,
    table: &LiveTags,
    ticks: Ticks,
    source: &mut S,
    crew: Crew,
) -> Ends
    requires config { table.now.config ≡ opened_config 4 48 }
    requires crew { IsCrew table.now crew }
    requires fresh { IsNew ticks.count crew }
    requires count { ticks.count ≤ 1048576 }
    ensures crew { AreTheirs table.now result }
    ensures ends { HaveEnded ticks.count result.works }
    ensures input { HasInput ticks.count (S.left source.old) (S.left source.new)
        result.input result.stop }
    ensures counted { CountsInput (S.faults source.old) (S.faults source.new) result.stop }
{
    let Crew {
        input,
        control,
        alarms,
        history,
    } = crew;
    let mut input = input;
    let mut works = Works {
        control: before_ticks(control, Role::Control(Loop::first()), ticks.count),
        alarms: before_ticks(alarms, Role::Alarms, ticks.count),
        history: before_ticks(history, Role::History, ticks.count),
    };
    let stop = together(rt, table, ticks, source, &mut works, &mut input);
    Ends { input, stop, works }
}

/// Lets each thread do what is left of its ticks, if the input was taken to its end. Then the
/// controller acts on the last readings, and the history reads the ring. No tick is left unless the
/// plant was halted, which the input does only where it stops.
pub(crate) fn finished<R: Wait + Clock>(rt: &R, table: &LiveTags, ticks: Ticks, ends: Ends) -> Gone
    requires config { table.now.config ≡ opened_config 4 48 }
    requires crew { AreTheirs table.now ends }
    requires count { ticks.count ≤ 1048576 }
    requires ends { HaveEnded ticks.count ends.works }
    ensures crew { IsCrew table.now result.crew }
    ensures gone { (all left : Option (List ℕ)) → HasInput ticks.count all left ends.input ends.stop
        → IsGone ticks.count all left result.crew result.stop }
    ensures stop { result.stop ≡ ends.stop }
{
    let Ends { input, stop, works } = ends;
    let Works {
        control,
        alarms,
        history,
    } = works;
    if stop.is_some() {
        return Gone {
            crew: Crew {
                input,
                control: control.hand,
                alarms: alarms.hand,
                history: history.hand,
            },
            stop,
        };
    }
    let mut input = input;
    let note = table.note(&mut input.who);
    let control = finishes(rt, table, ticks, control);
    let control = acts_last(rt, table, ticks.count, note, control);
    let alarms = finishes(rt, table, ticks, alarms);
    let history = rereads(rt, table, ticks.count, finishes(rt, table, ticks, history));
    Gone {
        crew: Crew {
            input,
            control,
            alarms: alarms.hand,
            history,
        },
        stop,
    }
}

/// Lets a thread do what is left of its ticks.
fn finishes<R: Wait + Clock>(rt: &R, table: &LiveTags, ticks: Ticks, work: Work) -> Work
    requires own { IsHandOf table.now work.hand }
    requires count { ticks.count ≤ 1048576 }
    requires work { IsAtWork ticks.count work }
    ensures own { IsHandOf table.now result.hand }
    ensures gone { HasGone ticks.count work result }
    ensures whole { result.ticks ≡ ticks.count }
{
    let mut work = work;
    works(rt, table, ticks, None, &mut work);
    work
}

/// Closes a table with its four workers. The vector has room for them.
fn close_all(
    table: LiveTags,
    room: Vec<TagWorker>,
    input: TagWorker,
    control: TagWorker,
    alarms: TagWorker,
    history: TagWorker,
) -> u64
    requires config { table.config ≡ opened_config 4 48 }
    requires room { (room.items ≡ []) × (4 ≤ vec_capacity room) }
    requires input { IsWorker table 0 input }
    requires control { IsWorker table 1 control }
    requires alarms { IsWorker table 2 alarms }
    requires history { IsWorker table 3 history }
    ensures { HaveOneTable (opened_config 4 48) (input ∷ control ∷ alarms ∷ history ∷ []) result }
{
    let mut workers = room;
    workers.push_reserved(input);
    workers.push_reserved(control);
    workers.push_reserved(alarms);
    workers.push_reserved(history);
    table.close(workers)
}

/// Takes the workers and the logs apart, and closes the table. The vector has room for the workers.
pub(crate) fn taken_apart(table: LiveTags, room: Vec<TagWorker>, crew: Crew) -> Closed
    requires config { table.config ≡ opened_config 4 48 }
    requires room { (room.items ≡ []) × (4 ≤ vec_capacity room) }
    requires crew { IsCrew table crew }
    ensures plant { IsPlantOf crew.input.who crew.control.who crew.alarms.who crew.history.who
        result.logs result.cycles }
    ensures logs { result.logs ≡ logs_of crew }
{
    let Crew {
        input,
        control,
        alarms,
        history,
    } = crew;
    let figures = [
        input.figures,
        control.figures,
        alarms.figures,
        history.figures,
    ];
    let cycles = close_all(table, room, input.who, control.who, alarms.who, history.who);
    Closed {
        logs: Logs {
            input: input.calls,
            control: control.calls,
            alarms: alarms.calls,
            history: history.calls,
        },
        cycles,
        figures,
    }
}
