//! Follows an order, one line at a time, on a heap that never frees.

ghost use Rattle.std.specs.Prelude.{◌≡◌, ◌+◌, ◌-◌, ◌^◌, ◌<◌, ◌≤◌, ◌↔◌, ◌++◌, ◌∷◌, true, false, max, ℕ, List, [], length, slice_set, slice_index_or, Some, None, IfOk, MatchOption};
ghost use Rattle.never_heap.specs.Histories.{HistoryItem};
ghost use Rattle.never_heap.specs.Bounds.{IsCommandInRange};
ghost use Rattle.never_heap.specs.Graphs.{count_of};
ghost use Rattle.never_heap.specs.RightWork.{requested_units, units_owed};
ghost use Rattle.never_heap.specs.Steps.{length_made, blocks_of};
ghost use Rattle.never_heap.specs.declared.Reply.TheVariants.{Full};
ghost use Rattle.trace_text.specs.Jobs.{IsJobInBounds};
ghost use Rattle.trace_text.specs.Lines.{ended};
ghost use Rattle.trace_text.specs.RunTexts.{entry_text};
ghost use Rattle.block_store.specs.declared.Config.{Config};
ghost use Rattle.rt_check.specs.Standing.{Stands, Says, StartsHere, HasFollowed, HasNext, Begins, CanCount};
ghost use Rattle.rt_check.specs.Standing.{Counted, IsFullHere, entry_here, graph_here, rest_of};

use block_store::{Config, OutOfMemory, Width};
use never_heap::{Command, Entry, Graph, Reply, steps_answer};
use std::alloc::Global;
use trace_text::{Job, LineBuffer, fill_entry, fill_start, fill_totals, first_token, number_of};

/// What a line is, after the lines before it.
#[derive(Clone, Copy, Debug, PartialEq, Eq)]
pub(crate) enum Verdict {
    /// It is good, and others have to follow.
    Good,
    /// It is good as the last.
    Last,
    /// It is neither.
    Bad,
}

/// What the lines so far leave.
#[derive(Drop)]
pub(crate) struct Follower {
    /// The heap that never frees.
    graph: Graph,
    /// How many commands of each thread were answered.
    done: Vec<usize>,
    /// How many blocks were live at each start.
    live: Vec<u64>,
    /// The sum of the works.
    work: u64,
}

impl Follower {
    /// Before the first line.
    pub(crate) fn start(alloc: Global, job: &Job) -> Result<Follower, OutOfMemory>
        requires { IsJobInBounds job.now }
        ensures { IfOk result (Stands job.now.config []) }
    {
        Ok(Follower {
            graph: Graph::start(alloc, &job.config)?,
            done: vec![in alloc; 0; job.config.threads as usize]?,
            live: Vec::new(alloc),
            work: 0,
        })
    }

    /// Follows the next line. There are at most 67,108,864 lines.
    pub(crate) fn next(
        &mut self,
        job: &Job,
        rate: u64,
        line: &[u8],
        buffer: &mut LineBuffer,
    ) -> Result<Verdict, OutOfMemory>
        requires job { IsJobInBounds job.now }
        requires rate { rate ≤ 131070 }
        requires stands { HasFollowed job.now.config self.old }
        ensures { (past : List HistoryItem) → Stands job.now.config past self.old
            → IfOk result (λ v. Says job.now.config rate job.now.traces past line.now v self.new) }
    {
        match number_of(first_token(line).0) {
            Some(thread) => self.entry(job, rate, thread, line, buffer),
            None => self.mark(job, line, buffer),
        }
    }

    // A line that begins with no number: the start of a cycle, or the totals.
    fn mark(
        &mut self,
        job: &Job,
        line: &[u8],
        buffer: &mut LineBuffer,
    ) -> Result<Verdict, OutOfMemory>
        requires job { IsJobInBounds job.now }
        requires stands { HasFollowed job.now.config self.old }
        requires number { Begins line.now None }
        ensures { (rate : ℕ) (past : List HistoryItem) → Stands job.now.config past self.old
            → IfOk result (λ v. Says job.now.config rate job.now.traces past line.now v self.new) }
    {
        if self.take_start(line, buffer)? {
            return Ok(Verdict::Good);
        }
        fill_totals(buffer, self.live.len() as u64, self.work);
        if is_line(buffer, line) && self.has_begun() && self.is_done(job) {
            return Ok(Verdict::Last);
        }
        Ok(Verdict::Bad)
    }

    // Whether a line is the start of the next cycle; then it is followed.
    pub(crate) fn take_start(
        &mut self,
        line: &[u8],
        buffer: &mut LineBuffer,
    ) -> Result<bool, OutOfMemory>
        ensures taken { (c : Config) (past : List HistoryItem) → Stands c past self.old
            → IfOk result (λ b. StartsHere c past line.now b self.new) }
        ensures left { IfOk result (λ b. b ≡ false → self.new ≡ self.old) }
    {
        fill_start(buffer, self.live.len() as u64 + 1);
        if !is_line(buffer, line) {
            return Ok(false);
        }
        self.live.push(self.graph.count_live()?)?;
        Ok(true)
    }

    // Whether a cycle was started.
    pub(crate) fn has_begun(&self) -> bool
        ensures { result ≡ true ↔ (1 ≤ length self.now.live.items) }
    {
        !self.live.is_empty()
    }

    // Whether no command is left.
    pub(crate) fn is_done(&self, job: &Job) -> bool
        requires job { IsJobInBounds job.now }
        requires rows { length self.now.done.items ≡ job.now.config.threads }
        ensures { result ≡ true ↔ ((t : ℕ) → rest_of job.now.traces self.now.done.items t ≡ []) }
    {
        for t in 0..self.done.len() {
            if self.done[t] < job.trace(t).len() {
                return false;
            }
        }
        true
    }

    // The next command of a thread, where it has one left.
    pub(crate) fn command(&self, job: &Job, thread: u64) -> Option<Command>
        requires job { IsJobInBounds job.now }
        requires rows { length self.now.done.items ≡ job.now.config.threads }
        ensures { MatchOption result (rest_of job.now.traces self.now.done.items thread ≡ [])
            (HasNext job.now.traces self.now thread) }
    {
        if thread >= self.done.len() as u64 {
            return None;
        }
        let thread = thread as usize;
        job.trace(thread).get(self.done[thread]).copied()
    }

    // A line that begins with the number of a thread.
    fn entry(
        &mut self,
        job: &Job,
        rate: u64,
        thread: u64,
        line: &[u8],
        buffer: &mut LineBuffer,
    ) -> Result<Verdict, OutOfMemory>
        requires job { IsJobInBounds job.now }
        requires rate { rate ≤ 131070 }
        requires stands { HasFollowed job.now.config self.old }
        requires number { Begins line.now (Some thread) }
        ensures { (past : List HistoryItem) → Stands job.now.config past self.old
            → IfOk result (λ v. Says job.now.config rate job.now.traces past line.now v self.new) }
    {
        if !self.has_begun() {
            return Ok(Verdict::Bad);
        }
        let Some(command) = self.command(job, thread) else {
            return Ok(Verdict::Bad);
        };
        self.answered(job, rate, thread, command, line, buffer)
    }

    // A line that begins with the number of a thread whose next command this is.
    fn answered(
        &mut self,
        job: &Job,
        rate: u64,
        thread: u64,
        command: Command,
        line: &[u8],
        buffer: &mut LineBuffer,
    ) -> Result<Verdict, OutOfMemory>
        requires job { IsJobInBounds job.now }
        requires rate { rate ≤ 131070 }
        requires stands { HasFollowed job.now.config self.old }
        requires number { Begins line.now (Some thread) }
        requires begun { 1 ≤ length self.old.live.items }
        requires left { HasNext job.now.traces self.old thread command }
        ensures { (past : List HistoryItem) → Stands job.now.config past self.old
            → IfOk result (λ v. Says job.now.config rate job.now.traces past line.now v self.new) }
    {
        let entry = self.full_entry(job, rate, thread as u32, command);
        if self.takes_full(&job.config, &entry, line, buffer) {
            return Ok(Verdict::Good);
        }
        if self.takes_step(&entry, line, buffer)? {
            return Ok(Verdict::Good);
        }
        Ok(Verdict::Bad)
    }

    // Whether a line is this entry, which is answered full, and it may be so answered; then the
    // entry is counted.
    fn takes_full(
        &mut self,
        config: &Config,
        entry: &Entry,
        line: &[u8],
        buffer: &mut LineBuffer,
    ) -> bool
        requires begun { 1 ≤ length self.old.live.items }
        requires room { CanCount self.old entry.now }
        ensures taken { result ≡ true → IsFullHere config.now self.old entry.now.command
            × (line.now ≡ entry_text entry.now)
            × Counted self.old self.new self.old.graph entry.now }
        ensures left { result ≡ false → (self.new ≡ self.old)
            × (IsFullHere config.now self.old entry.now.command
            → line.now ≡ entry_text entry.now → ⊥) }
    {
        if !self.may_be_full(config, &entry.command) || !is_entry(entry, line, buffer) {
            return false;
        }
        self.count(entry);
        true
    }

    // Whether a line is this entry with the reply of the heap; then the entry is counted.
    pub(crate) fn takes_step(
        &mut self,
        entry: &Entry,
        line: &[u8],
        buffer: &mut LineBuffer,
    ) -> Result<bool, OutOfMemory>
        requires thread { entry.now.thread < length self.old.graph.graph.mutators }
        requires command { IsCommandInRange entry.now.command }
        requires made { count_of self.old.graph.graph entry.now.thread < 131072 }
        requires room { CanCount self.old entry.now }
        ensures taken { IfOk result (λ b. b ≡ true
            → (line.now ≡ entry_text (entry_here self.old entry.now))
            × Counted self.old self.new (graph_here self.old entry.now) entry.now) }
        ensures left { IfOk result (λ b. b ≡ false
            → line.now ≡ entry_text (entry_here self.old entry.now) → ⊥) }
    {
        let reply = self.graph.apply(entry.thread, &entry.command)?;
        let entry = Entry { reply, ..*entry };
        if !is_entry(&entry, line, buffer) {
            return Ok(false);
        }
        self.count(&entry);
        Ok(true)
    }

    // The entry of a command that is answered full, with the work that it owes.
    pub(crate) fn full_entry(&self, job: &Job, rate: u64, thread: u32, command: Command) -> Entry
        requires rate { rate ≤ 131070 }
        requires length { length_made command ≤ 65535 }
        requires told { requested_units command ≤ 131070 }
        ensures thread { result.thread ≡ thread }
        ensures command { result.command ≡ command }
        ensures work { result.work ≡ units_owed job.now.config.width rate command }
        ensures reply { result.reply ≡ Full (max 1 (length self.now.live.items - 1)) }
    {
        Entry {
            thread,
            command,
            reply: Reply::Full(self.full_cycle()),
            work: rate * u64::from(command.blocks(job.config.width)) + command.requested_units(),
        }
    }

    // The cycle that a full names: the one before the present one, or the first.
    fn full_cycle(&self) -> u64
        ensures { result ≡ max 1 (length self.now.live.items - 1) }
    {
        (self.live.len() as u64).saturating_sub(1).max(1)
    }

    // Whether a command may be answered full here: it takes blocks, and more blocks than may be
    // were live at the start of the cycle that the full names.
    fn may_be_full(&self, config: &Config, command: &Command) -> bool
        requires { 1 ≤ length self.now.live.items }
        ensures { result ≡ true ↔ IsFullHere config.now self.now command.now }
    {
        let allocates = allocates(config.width, command);
        allocates && self.live[self.full_cycle() as usize - 1] > u64::from(config.live)
    }

    // Counts an entry.
    fn count(&mut self, entry: &Entry)
        requires { CanCount self.old entry.now }
        ensures { Counted self.old self.new self.old.graph entry.now }
    {
        self.done[entry.thread as usize] += 1;
        self.work += entry.work;
    }
}

// Whether the command takes blocks of this width.
fn allocates(width: Width, command: &Command) -> bool
    ensures { result ≡ true ↔ (0 < blocks_of width command.now) }
{
    steps_answer();
    matches!(*command, Command::New { .. } | Command::Arr { .. })
}

// Whether a line is that of an entry.
fn is_entry(entry: &Entry, line: &[u8], buffer: &mut LineBuffer) -> bool
    ensures { result ≡ true ↔ (line.now ≡ entry_text entry.now) }
{
    fill_entry(buffer, entry);
    is_line(buffer, line)
}

// Whether a line is the one in the buffer, which has a line feed.
pub(crate) fn is_line(buffer: &LineBuffer, line: &[u8]) -> bool
    ensures { (text : List ℕ) → buffer.now ≡ ended text
        → (result ≡ true ↔ (line.now ≡ text)) }
{
    let made = buffer.bytes();
    made.len() == line.len() + 1 && &made[..line.len()] == line
}
