//! A run in order.

ghost use Rattle.std.specs.Prelude.{◌≡◌, ◌+◌, ◌≤◌, ℕ, List, [], length, slice_index, slice_index_or, OnOk, OnErr};
ghost use Rattle.std.specs.List.{AllByRecursion, flat_map};
ghost use Rattle.never_heap.specs.declared.Entry.{Entry};
ghost use Rattle.never_heap.specs.declared.Item.{Item};
ghost use Rattle.never_heap.specs.Histories.{HistoryItem, starts_in, work_in};
ghost use Rattle.never_heap.specs.HistoryOfOrder.{IsHistoryOf};
ghost use Rattle.trace_text.specs.Faults.{Rose};
ghost use Rattle.trace_text.specs.Lines.{ended};
ghost use Rattle.trace_text.specs.OrderTexts.{IsOrderOf, history_of, lines_from, order_text, text_in_order};
ghost use Rattle.trace_text.specs.Places.{HasNext, next_line, starts_after, told_after};
ghost use Rattle.trace_text.specs.Streams.{Appends, AppendsPrefix};

use crate::line_buffer::LineBuffer;
use crate::printing::{fill_entry, fill_start, fill_totals};
use crate::{Failed, Sink};
use never_heap::{Item, Logs};

/// How many threads an item can name.
const THREADS: usize = 256;

/// Writes a run in order: for each item the next entry of its thread, or the start of the next
/// cycle, as a line, and a last line with the totals. For example, a run of two threads may give
///
/// ```text
/// start 1
/// 1 new 1.1 work 36
/// 0 ok
/// end cycles 1 work 36
/// ```
///
/// Each line is one `put`. At the first one that fails it stops, and a prefix of the text is
/// written. The order has to name each thread as often as its log is long, and no other thread.
pub fn write_order<R: Logs, K: Sink>(run: &R, order: &[Item], sink: &mut K) -> Result<(), Failed>
    requires { IsOrderOf order.now (R.logs run.now) }
    ensures written { OnOk result (Appends (K.held sink.old) (K.held sink.new)
        (order_text order.now (R.logs run.now) (R.cycle_count run.now) (R.unit_count run.now))) }
    ensures prefix { OnErr result (AppendsPrefix (K.held sink.old) (K.held sink.new)
        (order_text order.now (R.logs run.now) (R.cycle_count run.now) (R.unit_count run.now))) }
    ensures rose { OnErr result (Rose (K.faults sink.old) (K.faults sink.new)) }
    ensures still { OnOk result (K.faults sink.new ≡ K.faults sink.old) }
{
    write_items(run, order, sink)?;
    let mut line = LineBuffer::new();
    fill_totals(&mut line, run.cycles(), run.units());
    sink.put(line.bytes())
}

/// A law: an order of logs makes a history, where each log has entries of its own thread; each
/// history that an order makes with logs is by an order of these logs; and the text of a run in an
/// order is that of its history.
pub fn orders_tell_histories()
    ensures history { (order : List Item) (logs : List (List Entry))
        → IsOrderOf order logs
        → ((t : ℕ) → AllByRecursion (λ e. e.thread ≡ t) (slice_index_or logs t []))
        → IsHistoryOf order logs (history_of order logs) }
    ensures order { (order : List Item) (logs : List (List Entry)) (h : List HistoryItem)
        → IsHistoryOf order logs h → IsOrderOf order logs }
    ensures text { (order : List Item) (logs : List (List Entry)) (h : List HistoryItem)
        → IsHistoryOf order logs h
        → order_text order logs (starts_in h) (work_in h) ≡ text_in_order h }
{}

/// Writes a line for each item.
fn write_items<R: Logs, K: Sink>(run: &R, order: &[Item], sink: &mut K) -> Result<(), Failed>
    requires { IsOrderOf order.now (R.logs run.now) }
    ensures written { OnOk result (Appends (K.held sink.old) (K.held sink.new)
        (flat_map ended (lines_from 0 (history_of order.now (R.logs run.now))))) }
    ensures prefix { OnErr result (AppendsPrefix (K.held sink.old) (K.held sink.new)
        (flat_map ended (lines_from 0 (history_of order.now (R.logs run.now))))) }
    ensures rose { OnErr result (Rose (K.faults sink.old) (K.faults sink.new)) }
    ensures still { OnOk result (K.faults sink.new ≡ K.faults sink.old) }
{
    let mut line = LineBuffer::new();
    let mut place = Place::new();
    for item in order {
        place.fill_next(run, *item, &mut line);
        sink.put(line.bytes())?;
    }
    Ok(())
}

/// How far a run in order was written.
#[derive(Drop)]
struct Place {
    /// How many entries of each thread were written.
    told: [usize; THREADS],
    /// How many starts were written.
    starts: u64,
}

impl Place {
    /// Nothing was written.
    fn new() -> Place
        ensures told { (t : ℕ) → slice_index result.told t ≡ 0 }
        ensures starts { result.starts ≡ 0 }
    {
        Place {
            told: [0; THREADS],
            starts: 0,
        }
    }

    /// Makes the line of the next item, in place of what the buffer held.
    fn fill_next<R: Logs>(&mut self, run: &R, item: Item, line: &mut LineBuffer)
        requires { HasNext (R.logs run.now) (slice_index self.old.told) self.old.starts item }
        ensures text { line.new
            ≡ next_line (R.logs run.now) (slice_index self.old.told) self.old.starts item }
        ensures told { (t : ℕ) → slice_index self.new.told t
            ≡ told_after (slice_index self.old.told) item t }
        ensures starts { self.new.starts ≡ starts_after self.old.starts item }
    {
        match item {
            Item::Start => {
                self.starts += 1;
                fill_start(line, self.starts);
            }
            Item::Entry(t) => {
                let thread = usize::from(t);
                let next = self.told[thread];
                fill_entry(line, &run.entries(u32::from(t))[next]);
                self.told[thread] = next + 1;
            }
        }
    }
}
