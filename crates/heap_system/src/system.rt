//! All threads with the words that they share, and what a finished run shows.

ghost use Rattle.std.specs.Prelude.{◌≡◌, ◌<◌, ◌≤◌, ◌^◌, ℕ, List, [], length, map, slice_index, slice_index_or, Some, None, IfOk, IfErr, IfSome, IfNone, true, false};
ghost use Rattle.std.specs.Option.{option_copied};
ghost use Rattle.block_store.specs.declared.Config.{Config};
ghost use Rattle.block_store.specs.Configs.{IsInBounds};
ghost use Rattle.block_store.specs.Heaps.{heap_of};
ghost use Rattle.block_store.specs.Phases.{cycle_of};
ghost use Rattle.block_store.specs.Places.{extent, words_count, Phase};
ghost use Rattle.never_heap.specs.declared.Command.{Command};
ghost use Rattle.heap_machine.specs.Readings.{CanHold};
ghost use Rattle.heap_system.specs.Locals.{LocalState, is_done};
ghost use Rattle.heap_system.specs.Machines.{turned, answer, heap_in, local_at, IsJob, IsOpening};
ghost use Rattle.heap_system.specs.Ordering.{ordered_of, IsInOrder};
ghost use Rattle.heap_system.specs.Systems.{Whole, Finish, after_event, ordered_after, opening_order, commands_in, items_kept, traces_of, logs_of, units_of, AllDone, IsReached, IsReachedInOrder, IsFinished, IsFinishedInOrder, IsLeastUndone};

use crate::Turn;
use crate::local::Local;
use crate::orders::{KeptOrder, room_for};
use crate::start::opening;
use block_store::{Config, OutOfMemory, Places, read_phase};
use heap_machine::Words;
use never_heap::{Command, Entry, Item, Logs};
use std::alloc::Global;
use std::marker::Model;

/// The words of a heap and its threads, after some turns of them; and the order of these turns,
/// where it is kept.
#[derive(Drop)]
pub struct System {
    config: Config,
    words: Words,
    locals: Vec<Local>,
    order: Option<KeptOrder>,
}

impl Model for System {
    ghost use Rattle.heap_system.specs.Systems.{Whole};
    ghost use Rattle.heap_system.specs.Ordering.{ordered, IsInOrder};

    ghost Value = { Whole };

    ghost view = { λ s. record {
      config = s.config;
      state = record { words = s.words; locals = s.locals.items };
      ordered = ordered s.order;
    } };

    ghost invariant = { λ s. IsInOrder s.config
        (record { words = s.words; locals = s.locals.items }) s.order };
}

/// What is left of a system after a run: its configuration, how many cycles were started, what its
/// threads answered, and the order where it was kept.
#[derive(Drop)]
pub struct Finished {
    config: Config,
    cycles: u64,
    locals: Vec<Local>,
    order: Option<KeptOrder>,
}

impl Model for Finished {
    ghost use Rattle.std.specs.Prelude.{◌≡◌, ◌≤◌, length, map};
    ghost use Rattle.heap_system.specs.Locals.{LocalState};
    ghost use Rattle.heap_system.specs.Systems.{Finish, items_kept};
    ghost use Rattle.heap_system.specs.Ordering.{ordered};

    ghost Value = { Finish };

    ghost view = { λ f. record {
      config = f.config;
      logs = map (λ (l : LocalState). l.log) f.locals.items;
      cycles = f.cycles;
      order = items_kept (ordered f.order);
    } };

    ghost invariant = { λ f. (length f.locals.items ≡ f.config.threads) × (f.config.threads ≤ 16) };
}

/// A system that is not finished.
#[derive(Drop)]
pub struct Unfinished {
    /// The system, as it was.
    pub system: System,
    /// The least thread that is not done.
    pub thread: u32,
}

// The least thread that is not done.
fn first_undone(locals: &[Local]) -> Option<usize>
    ensures none { IfNone result ((t : ℕ) (d : LocalState) → t < length locals.now
        → is_done (slice_index_or
        locals.now t d) ≡ true) }
    ensures there { IfSome result (λ t. t < length locals.now) }
    ensures undone { IfSome result (λ t. (d : LocalState)
        → is_done (slice_index_or locals.now t d) ≡ false) }
    ensures least { IfSome result (λ t. (u : ℕ) (d : LocalState) → u < t
        → is_done (slice_index_or locals.now u
        d) ≡ true) }
{
    locals.iter().position(|local| !local.done())
}

// A copy of these words.
fn copied(alloc: Global, words: &Words) -> Result<Vec<u64>, OutOfMemory>
    ensures { IfOk result (λ v. v.items ≡ words.now) }
{
    let mut copy = Vec::with_capacity(alloc, words.len())?;
    for i in 0..words.len() {
        copy.push(words.word(i))?;
    }
    Ok(copy)
}

// The cycle that the phase word says.
fn cycle_in(c: &Config, words: &Words) -> u64
    requires bounds { IsInBounds c.now }
    requires there { length words.now ≡ words_count (extent c.now) }
    requires phase { CanHold (extent c.now) Phase (heap_of (extent c.now) words.now Phase) }
    ensures { result ≡ cycle_of (heap_of (extent c.now) words.now Phase) }
{
    read_phase(words.word(Places::new(c).phase())).cycle
}

// Makes the event of a thread that is not done.
#[inline(always)]
fn event(c: &Config, words: &mut Words, locals: &mut Vec<Local>, thread: u32) -> Turn
    requires thread { thread < c.now.threads }
    requires reached { IsReached c.now (record { words = words.old; locals = locals.old.items }) }
    requires open { (d : LocalState) → is_done (slice_index_or locals.old.items thread d) ≡ false }
    ensures state { record { words = words.new; locals = locals.new.items }
        ≡ turned c.now thread (record { words = words.old; locals = locals.old.items }) }
    ensures answer { result
        ≡ answer c.now thread (record { words = words.old; locals = locals.old.items }) }
{
    locals[thread as usize].event(words, &())
}

// Makes the event of a thread that is not done, and adds to the order what the event adds.
fn ordered_event(
    c: &Config,
    words: &mut Words,
    locals: &mut Vec<Local>,
    order: &mut KeptOrder,
    thread: u32,
) -> Turn
    requires thread { thread < c.now.threads }
    requires kept { IsInOrder c.now (record { words = words.old; locals = locals.old.items })
        (Some order.old) }
    requires open { (d : LocalState) → is_done (slice_index_or locals.old.items thread d) ≡ false }
    requires left { 0 < order.old.left }
    ensures kept { IsInOrder c.now (record { words = words.new; locals = locals.new.items })
        (Some order.new) }
    ensures state { record { words = words.new; locals = locals.new.items }
        ≡ turned c.now thread (record { words = words.old; locals = locals.old.items }) }
    ensures answer { result
        ≡ answer c.now thread (record { words = words.old; locals = locals.old.items }) }
    ensures order { ordered_of order.new ≡ after_event c.now thread
        (record { words = words.old; locals = locals.old.items }) (ordered_of order.old) }
{
    let decided = locals[thread as usize].commands_decided();
    let cycle = cycle_in(c, words);
    let turn = event(c, words, locals, thread);
    let decides = locals[thread as usize].commands_decided() > decided;
    let starts = cycle_in(c, words) > cycle;
    order.add(thread as u8, decides, starts);
    turn
}

impl System {
    /// The system of a configuration that has a rate, with a trace for each thread: the opening
    /// words, and each thread at rest. A trace is one life: its commands are in bounds, owe at most
    /// 2^45 units, and fewer than 2^43 of them make an object. What the threads do from then on
    /// takes no memory.
    ///
    /// # Errors
    ///
    /// `OutOfMemory` where there is no room for the words, the threads, their logs or the blocks
    /// that they hold while they build an object.
    pub fn new(alloc: Global, c: Config, traces: Vec<Vec<Command>>) -> Result<System, OutOfMemory>
        requires { IsJob c (map (λ v. v.items) traces.items) }
        ensures config { IfOk result (λ s. s.config ≡ c) }
        ensures traces { IfOk result (λ s. traces_of s.state ≡ map (λ v. v.items) traces.items) }
        ensures opening { IfOk result (λ s. IsOpening c (map (λ v. v.items) traces.items) s.state) }
        ensures ordered { IfOk result (λ s. s.ordered ≡ None) }
    {
        let words = opening(alloc, &c)?;
        let mut locals = Vec::with_capacity(alloc, traces.len())?;
        for trace in traces {
            let thread = locals.len() as u32;
            locals.push(Local::new(alloc, &c, thread, trace)?)?;
        }
        Ok(System {
            config: c,
            words,
            locals,
            order: None,
        })
    }

    /// A system as `new` makes it that also keeps the order of what its threads do. As many events
    /// can be made as `turns` says, at most 1,000,000,000. The room is for all commands of the
    /// traces, at most 2^32, and for `2 + turns / blocks` starts.
    ///
    /// # Errors
    ///
    /// `OutOfMemory` as of `new`, and where there is no room for the order.
    pub fn new_ordered(
        alloc: Global,
        c: Config,
        traces: Vec<Vec<Command>>,
        turns: u64,
    ) -> Result<System, OutOfMemory>
        requires job { IsJob c (map (λ v. v.items) traces.items) }
        requires few { commands_in (map (λ v. v.items) traces.items) ≤ 2 ^ 32 }
        requires turns { turns ≤ 1000000000 }
        ensures config { IfOk result (λ s. s.config ≡ c) }
        ensures traces { IfOk result (λ s. traces_of s.state ≡ map (λ v. v.items) traces.items) }
        ensures opening { IfOk result (λ s. IsOpening c (map (λ v. v.items) traces.items) s.state) }
        ensures ordered { IfOk result (λ s. s.ordered ≡ Some (opening_order turns)) }
    {
        let order = KeptOrder::opening(alloc, room_for(&c, &traces, turns), turns)?;
        let system = System::new(alloc, c, traces)?;
        Ok(System {
            config: c,
            words: system.words,
            locals: system.locals,
            order: Some(order),
        })
    }

    /// Makes the event that a thread of the heap wants. Nothing changes where the thread is done.
    /// Where the order is kept, fewer events were made than it has room for.
    pub fn turn(&mut self, thread: u32) -> Turn
        requires thread { thread < self.old.config.threads }
        requires left { IfSome self.old.ordered (λ o. 0 < o.left) }
        ensures state { self.new ≡ record self.old {
          state = turned self.old.config thread self.old.state;
          ordered = ordered_after self.old.config thread self.old.state self.old.ordered;
        } }
        ensures traces { traces_of self.new.state ≡ traces_of self.old.state }
        ensures answer { result ≡ answer self.old.config thread self.old.state }
    {
        if self.locals[thread as usize].done() {
            return Turn::Done;
        }
        match &mut self.order {
            None => event(&self.config, &mut self.words, &mut self.locals, thread),
            Some(order) => ordered_event(
                &self.config,
                &mut self.words,
                &mut self.locals,
                order,
                thread,
            ),
        }
    }

    /// The configuration.
    pub fn config(&self) -> &Config
        ensures same { result.now ≡ self.now.config }
        ensures reached { IsReached self.now.config self.now.state }
    {
        &self.config
    }

    /// A thread of the heap.
    pub fn local(&self, thread: u32) -> &Local
        requires { thread < self.now.config.threads }
        ensures { result.now ≡ local_at self.now.config self.now.state thread }
    {
        &self.locals[thread as usize]
    }

    /// The word at a place, which is below the number of words of the configuration's heap.
    pub fn word(&self, place: usize) -> u64
        requires { place < words_count (extent self.now.config) }
        ensures { result ≡ slice_index self.now.state.words place }
    {
        self.words.word(place)
    }

    /// The order of the turns so far: each entry by its thread, and each start of a cycle. `None`
    /// exactly where the system was made by `new`.
    pub fn order(&self) -> Option<&[Item]>
        ensures same { option_copied result ≡ items_kept self.now.ordered }
        ensures reached { IsReachedInOrder self.now.config self.now.state
            (items_kept self.now.ordered) }
    {
        self.order.as_ref().map(|order| order.items())
    }

    /// A copy of all words, in the order of their places.
    ///
    /// # Errors
    ///
    /// `OutOfMemory` where there is no room for them.
    pub fn copied_words(&self, alloc: Global) -> Result<Vec<u64>, OutOfMemory>
        ensures { IfOk result (λ v. v.items ≡ self.now.state.words) }
    {
        copied(alloc, &self.words)
    }

    /// The threads, by their numbers.
    pub fn into_locals(self) -> Vec<Local>
        ensures { result.items ≡ self.state.locals }
    {
        self.locals
    }

    /// What a run shows whose threads are all done.
    ///
    /// # Errors
    ///
    /// The system, unchanged, where a thread is not done, with the least such thread.
    pub fn finish(self) -> Result<Finished, Unfinished>
        ensures done { IfOk result (λ f. AllDone self.config self.state) }
        ensures finished { IfOk result (λ f. (f.config ≡ self.config)
            × (f.logs ≡ logs_of self.state) × IsFinished
            self.config (traces_of self.state) f.logs f.cycles) }
        ensures cycles { IfOk result (λ f.
            f.cycles ≡ cycle_of (heap_in self.config self.state Phase)) }
        ensures order { IfOk result (λ f. f.order ≡ items_kept self.ordered) }
        ensures history { IfOk result (λ f. IsFinishedInOrder
            self.config (traces_of self.state) f.logs f.cycles f.order) }
        ensures unchanged { IfErr result (λ u. u.system ≡ self) }
        ensures least { IfErr result (λ u. IsLeastUndone self.config self.state u.thread) }
    {
        match first_undone(&self.locals) {
            Some(thread) => Err(Unfinished {
                system: self,
                thread: thread as u32,
            }),
            None => Ok(Finished {
                config: self.config,
                cycles: cycle_in(&self.config, &self.words),
                locals: self.locals,
                order: self.order,
            }),
        }
    }
}

impl Finished {
    /// The configuration of the run.
    pub fn config(&self) -> &Config
        ensures { result.now ≡ self.now.config }
    {
        &self.config
    }

    /// The order of the run: each entry by its thread, and each start of a cycle. With the logs it
    /// makes the history of the run. `None` exactly where the system was made by `System::new`.
    pub fn order(&self) -> Option<&[Item]>
        ensures { option_copied result ≡ self.now.order }
    {
        self.order.as_ref().map(|order| order.items())
    }
}

/// The sum of the works of all entries of these threads, of which there are at most 16.
pub fn sum_of_works(locals: &[Local]) -> u64
    requires { length locals.now ≤ 16 }
    ensures { result ≡ units_of (map (λ (l : LocalState). l.log) locals.now) }
{
    let mut sum = 0;
    for local in locals {
        sum += local.work();
    }
    sum
}

impl Logs for Finished {
    ghost logs = { λ f. f.logs };

    ghost cycle_count = { λ f. f.cycles };

    ghost unit_count = { λ f. units_of f.logs };

    fn threads(&self) -> u32 {
        self.locals.len() as u32
    }

    fn entries(&self, t: u32) -> &[Entry] {
        self.locals[t as usize].log()
    }

    fn cycles(&self) -> u64 {
        self.cycles
    }

    fn units(&self) -> u64 {
        sum_of_works(&self.locals)
    }
}
