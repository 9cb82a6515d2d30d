//! A heap for one thread: opening it, doing commands on it, and reading its state.

ghost use Rattle.std.specs.Prelude.{ℕ, ◌≡◌, ◌≤◌, ◌+◌, ◌-◌, ◌∷◌, ◌↔◌, [], length, true, false, IsTrue, IfOk, IfErr, OnOk, OnErr};
ghost use Rattle.block_store.specs.Configs.{IsInBounds};
ghost use Rattle.rate_plan.specs.Rates.{IsRate, IsAdmitted};
ghost use Rattle.never_heap.specs.declared.Command.{Command};
ghost use Rattle.never_heap.specs.declared.Reply.{Reply};
ghost use Rattle.never_heap.specs.Bounds.{IsCommandInBounds};
ghost use Rattle.never_heap.specs.Histories.{Started, replay, starts_in};
ghost use Rattle.never_heap.specs.LiveBlocks.{live_blocks};
ghost use Rattle.block_store.specs.Heaps.{heap_of};
ghost use Rattle.block_store.specs.Places.{Place, ColourOf, extent, in_range, words_count};
ghost use Rattle.heap_machine.specs.FreeBlocks.{count_free};
ghost use Rattle.heap_system.specs.Lives.{objects_of, most_units, most_objects};
ghost use Rattle.heap_system.specs.AtOnce.{MayBegin};
ghost use Rattle.heap_system.specs.Locals.{begun, is_done};
ghost use Rattle.heap_system.specs.Machines.{Run};
ghost use Rattle.heap_system.specs.ThreadMemories.{HasRunOn, MayRun, longest};
ghost use Rattle.heap_system.specs.InitialHeaps.{opening_heap};
ghost use Rattle.control_heap.specs.Controls.{ControlOf, CanOpen, HasLeft, Stands, HasAnswered, HasMade, ServedBy, HasBegun, asked, units};
ghost use Rattle.control_heap.specs.Calls.{MayAnswer};
ghost use Rattle.control_heap.specs.Gauges.{live_or_made, most_operations};
ghost use Rattle.control_heap.specs.Refusals.{IsOpenFault, IsRefused};
ghost use Rattle.control_heap.specs.Unused.{IsUnused};

mod peeks;
mod reads;
mod seen;
mod shown;
mod watch;

use crate::Store;
use crate::gauges::{allocation_operations, cycle_in, free_in, other_operations};
use block_store::{Config, OutOfMemory};
use heap_machine::Words;
use heap_system::{Local, Turn, opening};
use never_heap::{Command, Reply};
use rate_plan::{PlanFault, plan};
pub use seen::{Seen, Snapshot};
use std::alloc::Global;
use std::marker::Model;

// The most commands of a life.
const MOST_COMMANDS: u64 = 1 << 60;

// The most units of a life, and the most of its commands that make an object.
const MOST_UNITS: u64 = 1 << 45;

const MOST_OBJECTS: u64 = (1 << 43) - 1;

/// Why a heap could not be opened. Its printed text also says what to do.
#[derive(Clone, Copy, Debug, PartialEq, Eq)]
pub enum OpenFault {
    /// A number of the configuration is out of range. This is checked first.
    OutOfBounds,
    /// The configuration does not have exactly one thread.
    NotOneThread,
    /// The registers and the shared array take more blocks than the live limit.
    LiveTooSmall,
    /// The live limit leaves too few of the blocks: no rate is high enough.
    NoRate,
    /// Memory ran out.
    NoMemory,
}

/// Why a command is refused. The heap is then unchanged. Its printed text also says what to do.
#[derive(Clone, Copy, Debug, PartialEq, Eq)]
pub enum Refused {
    /// A register, number, index, length or count of units is out of range on this heap, or the
    /// heap's version lacks the command. This is checked first.
    OutOfBounds,
    /// What is left of the heap's life is too little for the command: for its units, for its
    /// object, or for one more command.
    NoLifeLeft,
}

/// A heap for one thread, which does one command at a time. Its words are in a memory of type `M`,
/// by default plain `Words`.
///
/// Its life is limited to 2^45 units of marking and sweeping, 2^43 - 1 commands that make an object
/// (also those answered `Full`), and 2^60 commands in all.
#[derive(Drop)]
pub struct ControlHeap<M: Store = Words> {
    config: Config,
    memory: M,
    thread: Local,
    // How many commands it has done.
    count: u64,
    // How many of them make an object.
    objects: u64,
}

impl<M: Store> Model for ControlHeap<M> {
    ghost use Rattle.heap_system.specs.Machines.{Run};
    ghost use Rattle.control_heap.specs.Controls.{ControlOf, Stands};

    ghost Value = { ControlOf M };

    ghost view = { λ h. record {
      config = h.config;
      memory = h.memory;
      words = M.shows h.memory;
      thread = h.thread;
      count = h.count;
      objects = h.objects;
    } };

    ghost invariant = { λ h. (r : Run) × Stands (record {
      config = h.config;
      memory = h.memory;
      words = M.shows h.memory;
      thread = h.thread;
      count = h.count;
      objects = h.objects;
    }) r };
}

// 1 for a command that makes an object, and 0 for any other.
#[inline(always)]
fn objects_of(command: Command) -> u64
    ensures { result ≡ objects_of command }
{
    match command {
        Command::New { .. } | Command::Arr { .. } => 1,
        _ => 0,
    }
}

// Whether there are no commands yet, and this is the first cycle.
fn is_first(commands: u64, cycle: u64) -> bool
    ensures { IsTrue result ↔ ((commands ≡ 0) × (cycle ≡ 1)) }
{
    commands == 0 && cycle == 1
}

// Begins a command and makes its next events. A command that owes nothing has code of its own,
// which makes all of them if no block is to be shaded. `serve_short` calls this for such alone.
#[inline(always)]
fn begins<M: Store>(memory: &mut M, thread: &mut Local, command: Command) -> Turn
    requires begins { MayBegin command thread.old }
    requires begun { HasBegun M
        (record { words = M.shows memory.old; thread = begun command thread.old }) }
    ensures { HasRunOn M.acts tt memory.old (begun command thread.old) memory.new thread.new result }
{
    use Command::*;

    match command {
        Set { d, value } => thread.run_set(d, value, memory, &()),
        Nil { d } => thread.run_nil(d, memory, &()),
        Mov { d, s } => thread.run_mov(d, s, memory, &()),
        Get { d, s, i } => thread.run_get(d, s, i, memory, &()),
        Put { s, i, v } => thread.run_put(s, i, v, memory, &()),
        Len { s } => thread.run_len(s, memory, &()),
        Same { a, b } => thread.run_same(a, b, memory, &()),
        Say { s } => thread.run_say(s, memory, &()),
        Swap { s, i, v } => thread.run_swap(s, i, v, memory, &()),
        Cas { s, i, a, v } => thread.run_cas(s, i, a, v, memory, &()),
        New { .. } | Arr { .. } | Idle { .. } => begins_any(memory, thread, command),
    }
}

// The same of any command.
#[inline(never)]
fn begins_any<M: Store>(memory: &mut M, thread: &mut Local, command: Command) -> Turn
    requires begins { MayBegin command thread.old }
    requires begun { HasBegun M
        (record { words = M.shows memory.old; thread = begun command thread.old }) }
    ensures { HasRunOn M.acts tt memory.old (begun command thread.old) memory.new thread.new result }
{
    thread.begin(command);
    goes_on(memory, thread)
}

// Makes events of a thread that is not done. It is a call, so that this code is no part of that of
// the short commands.
#[inline(never)]
fn goes_on<M: Store>(memory: &mut M, thread: &mut Local) -> Turn
    requires open { is_done thread.old ≡ false }
    requires may { MayRun M.may M.acts longest memory.old tt thread.old }
    ensures { HasRunOn M.acts tt memory.old thread.old memory.new thread.new result }
{
    thread.run(memory, &())
}

// Whether the command owes nothing and has code of its own.
fn is_short(command: &Command) -> bool {
    use Command::*;

    match command {
        New { .. } | Arr { .. } | Idle { .. } => false,
        Set { .. } | Nil { .. } | Mov { .. } | Get { .. } | Put { .. } => true,
        Swap { .. } | Cas { .. } | Len { .. } | Same { .. } | Say { .. } => true,
    }
}

// Begins a command, and makes the thread's events until that is done.
#[inline(always)]
fn serve<M: Store>(memory: &mut M, thread: &mut Local, command: Command)
    requires begins { MayBegin command thread.old }
    requires begun { HasBegun M
        (record { words = M.shows memory.old; thread = begun command thread.old }) }
    ensures { ServedBy M.acts M.shows memory.old (begun command thread.old) memory.new thread.new }
{
    if is_short(&command) {
        serve_short(memory, thread, command);
    } else {
        serve_any(memory, thread, command);
    }
}

// The same of a command that has code of its own.
#[inline(always)]
fn serve_short<M: Store>(memory: &mut M, thread: &mut Local, command: Command)
    requires begins { MayBegin command thread.old }
    requires begun { HasBegun M
        (record { words = M.shows memory.old; thread = begun command thread.old }) }
    ensures { ServedBy M.acts M.shows memory.old (begun command thread.old) memory.new thread.new }
{
    begins(memory, thread, command);
    for _run in 0..u64::MAX {
        if thread.done() {
            return;
        }
        goes_on(memory, thread);
    }
    unreachable!();
}

// Makes the thread's events until its command is done.
#[inline(never)]
fn serve_any<M: Store>(memory: &mut M, thread: &mut Local, command: Command)
    requires begins { MayBegin command thread.old }
    requires begun { HasBegun M
        (record { words = M.shows memory.old; thread = begun command thread.old }) }
    ensures { ServedBy M.acts M.shows memory.old (begun command thread.old) memory.new thread.new }
{
    thread.begin(command);
    for _run in 0..u64::MAX {
        if thread.done() {
            return;
        }
        thread.run(memory, &());
    }
    unreachable!();
}

impl<M: Store> ControlHeap<M> {
    /// Makes the opening heap of a configuration on a memory that holds the opening words.
    ///
    /// # Errors
    ///
    /// `OutOfMemory` where there is no memory for the thread's command, or for the list of blocks
    /// that it holds while it builds an object.
    pub fn on(alloc: Global, c: Config, memory: M) -> Result<ControlHeap<M>, OutOfMemory>
        requires can { CanOpen c }
        requires count { length (M.shows memory) ≡ words_count (extent c) }
        requires words { (p : Place) → in_range (extent c) p ≡ true
            → heap_of (extent c) (M.shows memory) p ≡ opening_heap c p }
        ensures config { IfOk result (λ h. h.config ≡ c) }
        ensures memory { IfOk result (λ h. h.memory ≡ memory) }
        ensures fresh { IfOk result (λ h. (asked h ≡ 0) × (units h ≡ 0) × (h.objects ≡ 0)) }
        ensures stands { IfOk result (λ h. (r : Run) × Stands h r × (r.order ≡ Started ∷ [])) }
    {
        let first = vec![in alloc; Command::Nil { d: 0 }]?;
        let thread = Local::new(alloc, &c, 0, first)?;
        Ok(ControlHeap {
            config: c,
            memory,
            thread,
            count: 0,
            objects: 0,
        })
    }
}

// The opening heap, on plain words, of a configuration that can be opened.
fn opened(alloc: Global, c: Config) -> Result<ControlHeap, OutOfMemory>
    requires { CanOpen c }
    ensures config { IfOk result (λ h. h.config ≡ c) }
    ensures fresh { IfOk result (λ h. (asked h ≡ 0) × (units h ≡ 0) × (h.objects ≡ 0)) }
    ensures stands { IfOk result (λ h. (r : Run) × Stands h r × (r.order ≡ Started ∷ [])) }
{
    let words = opening(alloc, &c)?;
    ControlHeap::on(alloc, c, words)
}

impl ControlHeap {
    /// Opens a heap on plain words. It represents a run in which no command is done yet. No later
    /// call allocates memory, which no clause states.
    ///
    /// # Errors
    ///
    /// The first that applies: `OutOfBounds` where a number of the configuration is out of range;
    /// `NotOneThread` where it does not have exactly one thread; `LiveTooSmall` and `NoRate` as for
    /// `rate_plan::plan`; `NoMemory` where memory runs out.
    pub fn open(alloc: Global, c: Config) -> Result<ControlHeap, OpenFault>
        ensures can { OnOk result (CanOpen c) }
        ensures config { IfOk result (λ h. h.config ≡ c) }
        ensures fresh { IfOk result (λ h. (asked h ≡ 0) × (units h ≡ 0) × (h.objects ≡ 0)) }
        ensures stands { IfOk result (λ h. (r : Run) × Stands h r × (r.order ≡ Started ∷ [])) }
        ensures refused { IfErr result (IsOpenFault c) }
    {
        if !c.in_bounds() {
            return Err(OpenFault::OutOfBounds);
        }
        if c.threads != 1 {
            return Err(OpenFault::NotOneThread);
        }
        match plan(&c) {
            Err(PlanFault::LiveTooSmall) => Err(OpenFault::LiveTooSmall),
            Err(PlanFault::NoRate) => Err(OpenFault::NoRate),
            Ok(_) => match opened(alloc, c) {
                Ok(heap) => Ok(heap),
                Err(_) => Err(OpenFault::NoMemory),
            },
        }
    }

    /// The number of the present collection cycle, from 1. Reads one word.
    pub fn cycle(&self) -> u64
        ensures { (r : Run) → Stands self.now r → result ≡ starts_in r.order }
    {
        cycle_in(&self.config, &self.memory)
    }

    /// Whether it is as `open` made it: no command was done on it. Reads one word.
    pub fn is_unused(&self) -> bool
        ensures { IsTrue result ↔ IsUnused self.now }
    {
        is_first(self.count, self.cycle())
    }

    /// How many blocks are free. Reads one word.
    pub fn free_blocks(&self) -> u64
        ensures { result ≡ count_free (extent self.now.config)
            (λ x. heap_of (extent self.now.config) self.now.words (ColourOf x)) }
    {
        free_in(&self.config, &self.memory)
    }

    /// How many blocks are not free. The live blocks are at most so many; the others are garbage
    /// that no sweep has freed yet. They are at most the blocks that were live when the cycle
    /// before the present one began, and those made since (`made`). Reads one word.
    pub fn blocks_in_use(&self) -> u64
        ensures live { (r : Run) → Stands self.now r
            → live_blocks self.now.config.width (replay self.now.config r.order) ≤ result }
        ensures made { (r : Run) → Stands self.now r
            → result ≤ live_or_made self.now.config r.order }
        ensures rest { result ≡ self.now.config.blocks - count_free (extent self.now.config)
            (λ x. heap_of (extent self.now.config) self.now.words (ColourOf x)) }
    {
        u64::from(self.config.blocks).saturating_sub(self.free_blocks())
    }
}

impl<M: Store> ControlHeap<M> {
    /// The configuration.
    pub fn config(&self) -> &Config
        ensures { result.now ≡ self.now.config }
    {
        &self.config
    }

    /// The memory. It shows the words of the heap.
    pub fn memory(&self) -> &M
        ensures memory { result.now ≡ self.now.memory }
        ensures words { M.shows result.now ≡ self.now.words }
    {
        &self.memory
    }

    /// How many commands it has done, at most 2^60.
    pub fn asked(&self) -> u64
        ensures { result ≡ asked self.now }
    {
        self.count
    }

    /// How many units are left of its life, at most 2^45.
    pub fn units_left(&self) -> u64
        ensures { result ≡ most_units - units self.now }
    {
        MOST_UNITS - self.thread.units_done()
    }

    /// How many commands that make an object are left of its life, at most 2^43 - 1.
    pub fn objects_left(&self) -> u64
        ensures { result ≡ most_objects - self.now.objects }
    {
        MOST_OBJECTS.saturating_sub(self.objects)
    }

    /// The rate: the units of marking or sweeping that an allocation makes for each of its blocks.
    pub fn rate(&self) -> u64
        ensures { IsRate self.now.config result }
    {
        self.thread.owes(&Command::New { d: 0, fields: 0 })
    }

    /// The most operations on the memory that a command takes. The command is in bounds.
    pub fn most_operations(&self, command: &Command) -> u64
        requires { IsCommandInBounds self.now.config command.now }
        ensures { (rate : ℕ) → IsRate self.now.config rate
            → result ≡ most_operations self.now.config rate command.now }
    {
        let units = self.thread.owes(command);
        let taken = command.blocks(self.config.width);
        if taken > 0 {
            allocation_operations(self.config.width, self.config.blocks, units, taken)
        } else {
            other_operations(&self.config, command, units)
        }
    }

    /// Whether what is left of the life is enough for a command: for its units, for its object, and
    /// for one more command. The command is in bounds.
    #[inline(always)]
    pub fn has_left(&self, command: &Command) -> bool
        requires { IsCommandInBounds self.now.config command.now }
        ensures { IsTrue result ↔ HasLeft self.now command.now }
    {
        let few = self.count < MOST_COMMANDS;
        let objects = self.objects.saturating_add(objects_of(*command)) <= MOST_OBJECTS;
        let units = self.has_units(self.thread.owes(command));
        few && objects && units
    }

    // Whether the life has room for so many units. Those of the commands before are added up only
    // where some are owed.
    #[inline(always)]
    fn has_units(&self, owed: u64) -> bool
        requires { owed ≤ most_units }
        ensures { IsTrue result ↔ (units self.now + owed ≤ most_units) }
    {
        owed == 0 || self.thread.units_done() + owed <= MOST_UNITS
    }

    /// Does a command and returns its reply. The command is in bounds, and the life has room for
    /// it. Whichever run the heap represented, it then represents that run followed by this command
    /// with this reply. The operations that the command takes lead from the memory before to that
    /// after.
    #[inline(always)]
    pub fn request(&mut self, command: Command) -> Reply
        requires bounds { IsCommandInBounds self.old.config command }
        requires left { HasLeft self.old command }
        ensures config { self.new.config ≡ self.old.config }
        ensures one_more { asked self.new ≡ asked self.old + 1 }
        ensures objects { self.new.objects ≡ self.old.objects + objects_of command }
        ensures answered { HasAnswered self.old command result self.new }
        ensures made { HasMade M.acts self.old command self.new }
        ensures fits { MayAnswer command result }
    {
        serve(&mut self.memory, &mut self.thread, command);
        self.count += 1;
        self.objects += objects_of(command);
        self.thread.log()[0].reply
    }

    /// Does any command as `request` does, or refuses it.
    ///
    /// # Errors
    ///
    /// `OutOfBounds` exactly where the command is not in bounds, and `NoLifeLeft` exactly where it
    /// is in bounds and the life has no room for it. The heap is then unchanged.
    #[inline(always)]
    pub fn ask(&mut self, command: Command) -> Result<Reply, Refused>
        ensures config { self.new.config ≡ self.old.config }
        ensures can { OnOk result
            (IsCommandInBounds self.old.config command × HasLeft self.old command) }
        ensures one_more { OnOk result (asked self.new ≡ asked self.old + 1) }
        ensures objects { OnOk result (self.new.objects ≡ self.old.objects + objects_of command) }
        ensures answered { IfOk result (λ reply. HasAnswered self.old command reply self.new) }
        ensures made { OnOk result (HasMade M.acts self.old command self.new) }
        ensures fits { IfOk result (MayAnswer command) }
        ensures refused { IfErr result (IsRefused self.old command) }
        ensures unchanged { OnErr result (self.new ≡ self.old) }
    {
        if !command.in_bounds(&self.config) {
            return Err(Refused::OutOfBounds);
        }
        if !self.has_left(&command) {
            return Err(Refused::NoLifeLeft);
        }
        Ok(self.request(command))
    }
}
