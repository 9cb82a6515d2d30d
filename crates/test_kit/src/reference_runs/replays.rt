//! Histories on the heap that never frees.

ghost use Rattle.std.specs.Prelude.{◌↔◌, ◌<◌, ◌≤◌, ◌≡◌, IsTrue, IfOk, OnOk, length};
ghost use Rattle.std.specs.List.{AllByRecursion};
ghost use Rattle.never_heap.specs.Bounds.{IsCommandInRange};
ghost use Rattle.never_heap.specs.Cycles.{graph_at};
ghost use Rattle.never_heap.specs.Graphs.{count_of, with_graph};
ghost use Rattle.never_heap.specs.Histories.{Did, IsAnswered, Legal, after, replay};
ghost use Rattle.never_heap.specs.Licensed.{IsLicensedItem, Licensed};
ghost use Rattle.never_heap.specs.LiveBlocks.{live_blocks};
ghost use Rattle.never_heap.specs.Steps as steps;
ghost use Rattle.test_kit.specs.reference_runs.Happenings.{history, item, BeginsWithStart};
ghost use Rattle.test_kit.specs.reference_runs.HistoryBounds.{IsHistoryInBounds, CanFollow};

use crate::reference_runs::Happened;
use crate::reference_runs::counts::{before_start, starts};
use block_store::{Config, OutOfMemory};
use never_heap::{Command, Entry, Graph, Reply};
use std::alloc::Global;

/// Whether the first item is a start, and each entry is answered as the heap that never frees
/// answers it after the items before it, or with a full where it makes an object. The history is
/// in its ranges.
///
/// # Errors
///
/// `OutOfMemory` where there is no room for the heap that never frees.
pub fn is_legal(alloc: Global, c: &Config, h: &[Happened]) -> Result<bool, OutOfMemory>
    requires { IsHistoryInBounds c.now (history h.now) }
    ensures { IfOk result (λ b. IsTrue b ↔ Legal c.now (history h.now)) }
{
    if !begins_with_a_start(h) {
        return Ok(false);
    }
    let mut graph = Graph::start(alloc, c)?;
    for happened in h {
        if !follow(&mut graph, *happened)? {
            return Ok(false);
        }
    }
    Ok(true)
}

fn begins_with_a_start(h: &[Happened]) -> bool
    ensures { IsTrue result ↔ BeginsWithStart (history h.now) }
{
    matches!(h.first(), Some(Happened::Started))
}

/// Whether each full names the cycle before the present one, or the first, and more blocks were
/// live at its start than may be. The history is in its ranges.
///
/// # Errors
///
/// `OutOfMemory` where there is no room for the heap that never frees, or for its marks.
pub fn is_licensed(alloc: Global, c: &Config, h: &[Happened]) -> Result<bool, OutOfMemory>
    requires { IsHistoryInBounds c.now (history h.now) }
    ensures { IfOk result (λ b. IsTrue b ↔ Licensed c.now (history h.now)) }
{
    for i in 0..h.len() {
        if !is_licensed_item(alloc, c, &h[..i], h[i])? {
            return Ok(false);
        }
    }
    Ok(true)
}

// Whether an item is no full, or one that is licensed by the items before it.
fn is_licensed_item(
    alloc: Global,
    c: &Config,
    past: &[Happened],
    happened: Happened,
) -> Result<bool, OutOfMemory>
    requires { IsHistoryInBounds c.now (history past.now) }
    ensures { IfOk result (λ b.
        IsTrue b ↔ IsLicensedItem c.now (history past.now) (item happened)) }
{
    let Happened::Did(entry) = happened else {
        return Ok(true);
    };
    let Reply::Full(cycle) = entry.reply else {
        return Ok(true);
    };
    let before_present = starts(past).saturating_sub(1).max(1);
    let live = live_at(alloc, c, past, cycle)?;
    Ok(cycle == before_present && u64::from(c.live) < live)
}

/// How many blocks were live at the start of a cycle, which are counted from 1; and at the end of
/// the history, where that cycle did not start. The history is in its ranges.
///
/// # Errors
///
/// `OutOfMemory` where there is no room for the heap that never frees, or for its marks.
pub fn live_at(alloc: Global, c: &Config, h: &[Happened], cycle: u64) -> Result<u64, OutOfMemory>
    requires { IsHistoryInBounds c.now (history h.now) }
    ensures { IfOk result (λ k.
        k ≡ live_blocks c.now.width (graph_at c.now (history h.now) cycle)) }
{
    graph_after(alloc, c, before_start(h, cycle))?.reach_blocks()
}

// The graph that a history leaves.
fn graph_after(alloc: Global, c: &Config, h: &[Happened]) -> Result<Graph, OutOfMemory>
    requires { IsHistoryInBounds c.now (history h.now) }
    ensures { IfOk result (λ g.
        g ≡ record { width = c.now.width; graph = replay c.now (history h.now) }) }
{
    let mut graph = Graph::start(alloc, c)?;
    for happened in h {
        follow(&mut graph, *happened)?;
    }
    Ok(graph)
}

// Goes on by an item, and tells whether it is answered as it should be here.
fn follow(graph: &mut Graph, happened: Happened) -> Result<bool, OutOfMemory>
    requires { CanFollow graph.old.graph (item happened) }
    ensures answered { IfOk result (λ b.
        IsTrue b ↔ IsAnswered graph.old.graph (item happened)) }
    ensures after { OnOk result (graph.new
        ≡ with_graph graph.old (after graph.old.graph (item happened))) }
{
    match happened {
        Happened::Started => Ok(true),
        Happened::Did(entry) => answer(graph, &entry),
    }
}

// The same of an entry.
fn answer(graph: &mut Graph, entry: &Entry) -> Result<bool, OutOfMemory>
    requires { CanFollow graph.old.graph (Did entry.now) }
    ensures answered { IfOk result (λ b. IsTrue b ↔ IsAnswered graph.old.graph (Did entry.now)) }
    ensures after { OnOk result (graph.new
        ≡ with_graph graph.old (after graph.old.graph (Did entry.now))) }
{
    if let Reply::Full(_) = entry.reply {
        return Ok(makes_object(&entry.command));
    }
    let reply = graph.apply(entry.thread, &entry.command)?;
    Ok(reply == entry.reply)
}

fn makes_object(command: &Command) -> bool
    ensures { result ≡ steps.makes_object command.now }
{
    matches!(*command, Command::New { .. } | Command::Arr { .. })
}
