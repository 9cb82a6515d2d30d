//! Takes the commands of an order, whatever the rate and the limits of the heap that told it.

ghost use Rattle.std.specs.Prelude.{◌≡◌, ◌≢◌, ◌*◌, ◌+◌, ◌^◌, ◌<◌, ◌≤◌, ◌↔◌, true, ℕ, List, [], length, Some, None, IfOk, MatchResult};
ghost use Rattle.never_heap.specs.Histories.{HistoryItem};
ghost use Rattle.trace_text.specs.Jobs.{IsJobInBounds};
ghost use Rattle.trace_text.specs.Lines.{lines_of, tokens_of};
ghost use Rattle.exit_statuses.specs.declared.refusal.Refusal.TheVariants as refusals;
ghost use Rattle.rt_check.specs.Standing.{Stands, HasFollowed, HasNext, Begins};
ghost use Rattle.rt_check.specs.Taken.{AreMoves, IsLeftAt, TellsTotals};
ghost use Rattle.rt_check.specs.Taking.{SaysTaken, number_behind};

use crate::follower::{Follower, is_line};
use crate::moves::Move;
use block_store::OutOfMemory;
use exit_statuses::Refusal;
use never_heap::Command;
use std::alloc::Global;
use trace_text::{Job, LineBuffer, fill_totals, first_line, first_token, number_of};

/// The greatest rate that a heap has.
const MOST_RATE: u64 = 131_070;

/// What a line is, after the lines before it.
#[derive(Clone, Copy, Debug, PartialEq, Eq)]
pub(crate) enum Line {
    /// The start of the next cycle.
    Start,
    /// A command, with its reply.
    Entry(Move),
    /// The totals, after all commands.
    Last,
    /// None of these.
    Left,
}

/// The commands of an order, or the first of its lines that is not taken. Neither the live limit
/// and the number of blocks of the job are used, nor the units of work that the lines tell.
///
/// # Errors
///
/// `BadOrder` with the line's number, and `OutOfMemory`.
pub fn moves_of(alloc: Global, job: &Job, order: &[u8]) -> Result<Vec<Move>, Refusal>
    requires job { IsJobInBounds job.now }
    requires short { length order.now ≤ 67108864 }
    ensures { MatchResult result
        (λ v. AreMoves job.now.config job.now.traces (lines_of order.now) v.items)
        (IsLeftAt job.now.config job.now.traces (lines_of order.now)) }
{
    let mut follower = Follower::start(alloc, job)?;
    let mut moves = Vec::new(alloc);
    let mut buffer = LineBuffer::new();
    let mut rest = order;
    let mut read = 0;
    while let Some((line, after)) = first_line(rest) {
        match follower.take(job, line, &mut buffer)? {
            Line::Start => {}
            Line::Entry(next) => moves.push(next)?,
            Line::Last => return ended(moves, after, read),
            Line::Left => return Err(Refusal::BadOrder { line: read + 1 }),
        }
        rest = after;
        read += 1;
    }
    Err(Refusal::BadOrder { line: read + 1 })
}

/// The commands, where no line comes after that of the totals. So many lines come before it.
fn ended(moves: Vec<Move>, after: &[u8], read: u64) -> Result<Vec<Move>, Refusal>
    requires { read < 2 ^ 32 }
    ensures { MatchResult result (λ v. (v.items ≡ moves.items) × (lines_of after.now ≡ []))
        (λ r. (r ≡ refusals.BadOrder (read + 2)) × (lines_of after.now ≢ [])) }
{
    if first_line(after).is_none() {
        return Ok(moves);
    }
    Err(Refusal::BadOrder { line: read + 2 })
}

impl Follower {
    // Takes the next line, and says what it is. There are at most 67,108,864 lines.
    fn take(&mut self, job: &Job, line: &[u8], buffer: &mut LineBuffer) -> Result<Line, OutOfMemory>
        requires job { IsJobInBounds job.now }
        requires stands { HasFollowed job.now.config self.old }
        ensures { (past : List HistoryItem) → Stands job.now.config past self.old → IfOk result
            (λ v. SaysTaken job.now.config job.now.traces past line.now v self.new) }
    {
        match number_of(first_token(line).0) {
            Some(thread) => self.take_entry(job, thread, line, buffer),
            None => self.take_mark(job, line, buffer),
        }
    }

    // A line that begins with no number.
    fn take_mark(
        &mut self,
        job: &Job,
        line: &[u8],
        buffer: &mut LineBuffer,
    ) -> Result<Line, OutOfMemory>
        requires job { IsJobInBounds job.now }
        requires stands { HasFollowed job.now.config self.old }
        requires number { Begins line.now None }
        ensures { (past : List HistoryItem) → Stands job.now.config past self.old → IfOk result
            (λ v. SaysTaken job.now.config job.now.traces past line.now v self.new) }
    {
        if self.take_start(line, buffer)? {
            return Ok(Line::Start);
        }
        if tells_totals(line, buffer) && self.has_begun() && self.is_done(job) {
            return Ok(Line::Last);
        }
        Ok(Line::Left)
    }

    // A line that begins with the number of a thread.
    fn take_entry(
        &mut self,
        job: &Job,
        thread: u64,
        line: &[u8],
        buffer: &mut LineBuffer,
    ) -> Result<Line, OutOfMemory>
        requires job { IsJobInBounds job.now }
        requires stands { HasFollowed job.now.config self.old }
        requires number { Begins line.now (Some thread) }
        ensures { (past : List HistoryItem) → Stands job.now.config past self.old → IfOk result
            (λ v. SaysTaken job.now.config job.now.traces past line.now v self.new) }
    {
        if !self.has_begun() {
            return Ok(Line::Left);
        }
        let Some(command) = self.command(job, thread) else {
            return Ok(Line::Left);
        };
        self.take_command(job, thread, command, line, buffer)
    }

    // A line that begins with the number of a thread whose next command this is.
    fn take_command(
        &mut self,
        job: &Job,
        thread: u64,
        command: Command,
        line: &[u8],
        buffer: &mut LineBuffer,
    ) -> Result<Line, OutOfMemory>
        requires job { IsJobInBounds job.now }
        requires stands { HasFollowed job.now.config self.old }
        requires number { Begins line.now (Some thread) }
        requires begun { 1 ≤ length self.old.live.items }
        requires left { HasNext job.now.traces self.old thread command }
        ensures { (past : List HistoryItem) → Stands job.now.config past self.old → IfOk result
            (λ v. SaysTaken job.now.config job.now.traces past line.now v self.new) }
    {
        let rate = rate_shown(line, command.blocks(job.config.width));
        let thread = thread as u32;
        let entry = self.full_entry(job, rate, thread, command);
        if self.takes_step(&entry, line, buffer)? {
            return Ok(Line::Entry(Move { thread, command }));
        }
        Ok(Line::Left)
    }
}

// The rate at which the line of an allocation of so many blocks tells its units; 0 of another line.
fn rate_shown(line: &[u8], blocks: u32) -> u64
    ensures low { result ≤ MOST_RATE }
    ensures shown { (rate : ℕ) → rate ≤ MOST_RATE → 0 < blocks
        → number_behind 4 (tokens_of line.now) ≡ Some (rate * blocks) → result ≡ rate }
{
    if blocks == 0 {
        return 0;
    }
    match number_in(line, 4) {
        Some(units) => (units / u64::from(blocks)).min(MOST_RATE),
        None => 0,
    }
}

// Whether a line tells totals.
fn tells_totals(line: &[u8], buffer: &mut LineBuffer) -> bool
    ensures { result ≡ true ↔ TellsTotals line.now }
{
    let Some(cycles) = number_in(line, 2) else {
        return false;
    };
    let Some(units) = number_in(line, 4) else {
        return false;
    };
    fill_totals(buffer, cycles, units);
    is_line(buffer, line)
}

// The number after so many tokens of a line.
fn number_in(line: &[u8], before: usize) -> Option<u64>
    ensures { result ≡ number_behind before (tokens_of line.now) }
{
    let mut rest = line;
    for _passed in 0..before {
        rest = first_token(rest).1?;
    }
    number_of(first_token(rest).0)
}
