//! One thread's whole state.

mod at_once;
mod events;
mod lone;
mod runs;

ghost use Rattle.std.specs.Prelude.{◌≡◌, ◌≤◌, ◌<◌, ◌+◌, ◌^◌, [], true, length, IfOk};
ghost use Rattle.block_store.specs.Configs.{IsInBounds};
ghost use Rattle.rate_plan.specs.Rates.{IsRate, IsAdmitted};
ghost use Rattle.never_heap.specs.RightWork.{units_owed};
ghost use Rattle.never_heap.specs.Bounds.{IsCommandInBounds};
ghost use Rattle.heap_system.specs.Lives.{IsLife, objects_of, most_units, most_objects};
ghost use Rattle.heap_system.specs.Locals.{is_done, is_rest, at_start, works, commands_decided, begun, command_behind};

use crate::counting::{if_decided, sum_of_works};
use crate::rows::Row;
use barrier_steps::{FieldPass, FieldRow};
use block_store::{Config, OutOfMemory};
use build_steps::BuildPass;
use heap_machine::{Gate, Pass};
use never_heap::{Command, Entry};
use rate_plan::plan;
use std::alloc::Global;
use std::marker::Model;
use work_account::Account;

/// A thread's whole state: its commands, the entries of those that are done, and where it is in the
/// command in hand.
#[derive(Drop)]
pub struct Local {
    config: Config,
    // The units that an allocation owes for each of its blocks.
    rate: u64,
    thread: u32,
    // The units that were made for the commands before those of the trace.
    before: u64,
    trace: Vec<Command>,
    log: Vec<Entry>,
    // What is paid for the command in hand, and the units and blocks of the cycle entered last.
    account: Account,
    // The units that the command in hand owes.
    price: u64,
    // The units made for the command in hand. Those of an idle are not paid, and so no part of the
    // account; those of any other command are.
    spent: u64,
    // The objects made so far.
    made: u64,
    // The pass of the last entry at the gate.
    pass: Pass,
    row: Row,
    // What does the command at `Serve`, and what changes the phase at `PhaseChange`.
    field: FieldPass,
    gate: Gate,
    // What builds an object at `Build`. It has room for the blocks of the largest object.
    builder: BuildPass,
}

impl Model for Local {
    ghost use Rattle.std.specs.Prelude.{◌≡◌, ◌≤◌, length};
    ghost use Rattle.std.specs.Vec.{vec_capacity};
    ghost use Rattle.never_heap.specs.RightWork.{units_owed};
    ghost use Rattle.heap_system.specs.Locals.{LocalState, IsLocal, command_behind};
    ghost use Rattle.heap_system.specs.Parts.{part_at};

    ghost Value = { LocalState };

    ghost view = { λ l. record {
      config = l.config;
      rate = l.rate;
      thread = l.thread;
      before = l.before;
      trace = l.trace.items;
      log = l.log.items;
      balance = l.account.balance;
      spent = l.spent;
      made = l.made;
      space = l.builder.capacity;
      pass = l.pass;
      part = part_at l.config l.pass l.field l.gate l.builder l.row;
    } };

    ghost invariant = { λ l. IsLocal (record {
      config = l.config;
      rate = l.rate;
      thread = l.thread;
      before = l.before;
      trace = l.trace.items;
      log = l.log.items;
      balance = l.account.balance;
      spent = l.spent;
      made = l.made;
      space = l.builder.capacity;
      pass = l.pass;
      part = part_at l.config l.pass l.field l.gate l.builder l.row;
    }) × (l.account.rate ≡ l.rate) × (l.account.object ≡ l.config.object)
        × (length l.trace.items ≤ vec_capacity l.log)
        × (l.price ≡ units_owed l.config.width l.rate
        (command_behind l.trace.items l.log.items)) };
}

// The units that a command owes at this rate.
#[inline(always)]
fn price_of(c: &Config, rate: u64, command: &Command) -> u64
    requires bounds { IsInBounds c.now }
    requires command { IsCommandInBounds c.now command.now }
    requires rate { rate ≤ 131070 }
    ensures price { result ≡ units_owed c.now.width rate command.now }
    ensures few { result ≤ most_units }
{
    use Command::*;

    match command {
        New { .. } | Arr { .. } | Idle { .. } => price_in_full(c, rate, command),
        Set { .. } | Nil { .. } | Mov { .. } | Get { .. } | Put { .. } => 0,
        Swap { .. } | Cas { .. } | Len { .. } | Same { .. } | Say { .. } => 0,
    }
}

// The same, of a command that may owe some.
fn price_in_full(c: &Config, rate: u64, command: &Command) -> u64
    requires bounds { IsInBounds c.now }
    requires command { IsCommandInBounds c.now command.now }
    requires rate { rate ≤ 131070 }
    ensures price { result ≡ units_owed c.now.width rate command.now }
    ensures few { result ≤ most_units }
{
    rate * u64::from(command.blocks(c.width)) + command.requested_units()
}

// The units that the first command of a trace owes, where it has one.
fn first_price(c: &Config, rate: u64, trace: &[Command]) -> u64
    requires bounds { IsInBounds c.now }
    requires trace { IsLife c.now trace.now }
    requires rate { rate ≤ 131070 }
    ensures { result ≡ units_owed c.now.width rate (command_behind trace.now []) }
{
    match trace.first() {
        Some(command) => price_of(c, rate, command),
        None => 0,
    }
}

impl Local {
    /// A thread at rest before its first command, with room for all entries of its log and for the
    /// blocks of the largest object. The configuration has a rate, the thread is one of it, and the
    /// trace is one life: its commands are in bounds, owe at most 2^45 units, and fewer than 2^43
    /// of them make an object.
    ///
    /// # Errors
    ///
    /// `OutOfMemory` where there is no room for the log or the blocks.
    pub fn new(
        alloc: Global,
        c: &Config,
        thread: u32,
        trace: Vec<Command>,
    ) -> Result<Local, OutOfMemory>
        requires bounds { IsInBounds c.now }
        requires plan { IsAdmitted c.now }
        requires thread { thread < c.now.threads }
        requires trace { IsLife c.now trace.items }
        ensures { IfOk result (λ l. IsRate c.now l.rate × (c.now.object ≤ l.space)
            × (l ≡ at_start c.now l.rate l.space thread trace.items)) }
    {
        let log = Vec::with_capacity(alloc, trace.len())?;
        let room = Vec::with_capacity(alloc, c.object as usize)?;
        let Ok(rate) = plan(c) else {
            unreachable!();
        };
        let price = first_price(c, rate, &trace);
        let pass = Pass {
            thread,
            threads: c.threads,
            cycle: 0,
            sweep: false,
        };
        Ok(Local {
            config: *c,
            rate,
            thread,
            before: 0,
            trace,
            log,
            account: Account::new(rate, c.object),
            price,
            spent: 0,
            made: 0,
            pass,
            row: Row::Rest,
            field: FieldPass::at_row(pass, Command::Nil { d: 0 }, FieldRow::StoreConstant),
            gate: Gate::enter(),
            builder: BuildPass::idle(room),
        })
    }

    /// The number of the thread, from 0.
    pub fn thread(&self) -> u32
        ensures { result ≡ self.now.thread }
    {
        self.thread
    }

    /// The entries of the commands that are done, oldest first.
    pub fn log(&self) -> &[Entry]
        ensures { result.now ≡ self.now.log }
    {
        &self.log
    }

    /// How many units were paid for the command in hand. An idle pays none.
    pub fn paid(&self) -> u64
        ensures { result ≡ self.now.balance.paid }
    {
        self.account.paid()
    }

    /// How many units were made for the command in hand: those that were paid, or those of an idle.
    pub fn spent(&self) -> u64
        ensures { result ≡ self.now.spent }
    {
        self.spent
    }

    /// Whether the thread is at rest: before its first event of a command, and after its last.
    pub fn at_rest(&self) -> bool
        ensures { result ≡ is_rest self.now.part }
    {
        matches!(self.row, Row::Rest)
    }

    /// Whether the thread is at rest and has a log as long as its trace.
    pub fn done(&self) -> bool
        ensures { result ≡ is_done self.now }
    {
        self.at_rest() && self.log.len() == self.trace.len()
    }

    /// How many units were made for the commands that are done, also for those that are in the log
    /// no more.
    pub fn units_done(&self) -> u64
        ensures sum { result ≡ self.now.before + works self.now.log }
        ensures few { result ≤ most_units }
    {
        self.before + self.work()
    }

    /// How many units a command owes that is in bounds: the rate for each block of an allocation,
    /// and what an idle is told of.
    pub fn owes(&self, command: &Command) -> u64
        requires { IsCommandInBounds self.now.config command.now }
        ensures price { result ≡ units_owed self.now.config.width self.now.rate command.now }
        ensures few { result ≤ most_units }
    {
        price_of(&self.config, self.rate, command)
    }

    // The units of `units_done`, where the trace is one command.
    #[inline(always)]
    fn units_of_one(&self) -> u64
        requires one { length self.now.trace ≡ 1 }
        ensures { result ≡ self.now.before + works self.now.log }
    {
        match self.log.first() {
            Some(entry) => self.before + entry.work,
            None => self.before,
        }
    }

    /// Has one command more in place of its one command, which is done. The entry of that is let
    /// go.
    #[inline(always)]
    pub fn begin(&mut self, command: Command)
        requires one { length self.old.trace ≡ 1 }
        requires rest { is_rest self.old.part ≡ true }
        requires settled { self.old.spent ≡ 0 }
        requires bounds { IsCommandInBounds self.old.config command }
        requires units { self.old.before + works self.old.log
            + units_owed self.old.config.width self.old.rate command ≤ most_units }
        requires objects { self.old.made + objects_of command ≤ most_objects }
        ensures { self.new ≡ begun command self.old }
    {
        let price = price_of(&self.config, self.rate, &command);
        self.before = self.units_of_one();
        self.price = price;
        self.log.clear();
        self.trace[0] = command;
    }

    // The sum of the works of the log.
    pub(crate) fn work(&self) -> u64
        ensures sum { result ≡ works self.now.log }
        ensures small { result ≤ 2 ^ 45 }
    {
        sum_of_works(&self.log)
    }

    // How many commands are decided: those in the log, and the one in hand where it is.
    pub(crate) fn commands_decided(&self) -> usize
        ensures { result ≡ commands_decided self.now }
    {
        match self.row {
            Row::Access => if_decided(self.log.len(), self.field.decided()),
            _ => self.log.len(),
        }
    }
}
