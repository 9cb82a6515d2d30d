//! A thread's events in a row, with the row of a pass that pays in hand.

ghost use Rattle.std.specs.Prelude.{◌≡◌, ◌<◌, true, false, if◌then◌else◌};
ghost use Rattle.sweep_steps.specs.Rows.{sweep_nothing};
ghost use Rattle.heap_system.specs.declared.rows.Row.TheVariants as rows;
ghost use Rattle.heap_system.specs.ThreadMemories.{HasRunIn, HasRunOn, MayRun, goes_on, has_waited, longest};
ghost use Rattle.heap_system.specs.Locals.{is_at_gate, is_build, is_done, is_last, is_marking, is_on_way_out, is_serving, is_sweeping};

use super::Local;
use super::events::{after_pass, is_last, turn_after};
use crate::counting::count;
use crate::rows::Row;
use crate::{ThreadMemory, Turn};
use block_store::Places;
use grey_steps::GreyPass;
use heap_machine::{Memory, Outcome, Pass, Step};
use sweep_steps::SweepPass;

// The most events that are made in a row.
const LONGEST: u32 = 64;

// Whether the part goes on, and the step did not wait.
#[inline(always)]
fn goes_on(step: Step) -> bool
    ensures { result ≡ goes_on step }
{
    matches!(step, Step::Went)
}

// Whether the turn waited.
#[inline(always)]
fn waited(turn: Turn) -> bool
    ensures { result ≡ has_waited turn }
{
    matches!(turn, Turn::Waited)
}

// Where a thread comes after this step of a sweep that came in with so many units owed.
#[inline(always)]
fn behind(pass: &SweepPass, owed: u64, step: Step) -> Row
    ensures { result ≡ (if is_last step
        then (if sweep_nothing pass.now.row then rows.LeaveToChangePhase else rows.Retry)
        else rows.Sweep owed pass.now.row) }
{
    if is_last(step) {
        after_pass(pass.nothing())
    } else {
        Row::Sweep {
            owed,
            row: pass.row(),
        }
    }
}

impl Local {
    /// Makes events of the thread in a row, one at least: those of its part, up to 64 and to the
    /// first that waits; at the gate and outside it, one. The thread is not done. Tells what the
    /// last event was.
    #[inline(always)]
    pub fn events<C: ThreadMemory>(&mut self, memory: &mut C, shared: &C::Shared) -> Turn
        requires open { is_done self.old ≡ false }
        requires stands { C.stands memory.old shared.now self.old }
        ensures stands { C.stands memory.new shared.now self.new }
        ensures run { HasRunOn C.acts shared.now memory.old self.old memory.new self.new result }
    {
        self.run_whole(memory, shared)
    }

    // `run`, as memories of several threads have it: the compiler makes fewer instructions of this
    // for them, and of `run` for a heap of one thread.
    #[inline(always)]
    fn run_whole<M: Memory>(&mut self, memory: &mut M, shared: &M::Shared) -> Turn
        requires open { is_done self.old ≡ false }
        requires may { MayRun M.may M.acts longest memory.old shared.now self.old }
        ensures { HasRunOn M.acts shared.now memory.old self.old memory.new self.new result }
    {
        match self.row {
            Row::Mark(_) => self.marks(memory, shared, LONGEST),
            Row::Sweep { .. } => self.sweeps(memory, shared, LONGEST),
            Row::Access => self.serves_on(memory, shared),
            Row::Build => self.builds_on(memory, shared),
            Row::Rest => self.at_once(memory, shared),
            _ => self.event(memory, shared),
        }
    }

    /// Makes events as `events` does, on any memory that may make 64 of them one after the other.
    #[inline(always)]
    pub fn run<M: Memory>(&mut self, memory: &mut M, shared: &M::Shared) -> Turn
        requires open { is_done self.old ≡ false }
        requires may { MayRun M.may M.acts longest memory.old shared.now self.old }
        ensures { HasRunOn M.acts shared.now memory.old self.old memory.new self.new result }
    {
        match self.row {
            Row::Mark(_) => self.marks(memory, shared, LONGEST),
            Row::Sweep { .. } => self.sweeps(memory, shared, LONGEST),
            Row::Access => self.serves_on(memory, shared),
            Row::Build => self.builds_on(memory, shared),
            Row::Rest => self.at_once(memory, shared),
            Row::Look => self.at_gate_once(memory, shared),
            Row::Enter { .. } => self.at_gate_once(memory, shared),
            Row::PhaseChange => self.at_gate_once(memory, shared),
            Row::Retry => self.out_once(memory, shared),
            Row::LeaveToChangePhase => self.out_once(memory, shared),
            Row::Leave => self.out_once(memory, shared),
        }
    }

    // Makes one event, of a part outside.
    #[inline(always)]
    fn at_gate_once<M: Memory>(&mut self, memory: &mut M, shared: &M::Shared) -> Turn
        requires part { is_at_gate self.old.part ≡ true }
        requires open { is_done self.old ≡ false }
        requires may { MayRun M.may M.acts longest memory.old shared.now self.old }
        ensures { HasRunOn M.acts shared.now memory.old self.old memory.new self.new result }
    {
        self.wants_a_word();
        self.at_gate(memory, shared)
    }

    // Makes one event, of a part on its way out.
    #[inline(always)]
    fn out_once<M: Memory>(&mut self, memory: &mut M, shared: &M::Shared) -> Turn
        requires part { is_on_way_out self.old.part ≡ true }
        requires open { is_done self.old ≡ false }
        requires may { MayRun M.may M.acts longest memory.old shared.now self.old }
        ensures { HasRunOn M.acts shared.now memory.old self.old memory.new self.new result }
    {
        self.wants_a_word();
        self.out(memory, shared)
    }

    // Makes events of a part that marks, `most` at most.
    #[inline(always)]
    pub(super) fn marks<M: Memory>(&mut self, memory: &mut M, shared: &M::Shared, most: u32) -> Turn
        requires part { is_marking self.old.part ≡ true }
        requires some { 0 < most }
        requires may { MayRun M.may M.acts most memory.old shared.now self.old }
        ensures { HasRunIn most M.acts shared.now memory.old self.old memory.new self.new result }
    {
        let places = Places::new(&self.config);
        match self.row {
            Row::Mark(row) => {
                let mut scan = GreyPass::at_row(self.pass, row);
                for _ in 0..most {
                    let Outcome { step, unit } = scan.event(&places, memory, shared);
                    count(
                        &mut self.account,
                        &mut self.spent,
                        &self.trace,
                        &self.log,
                        unit,
                    );
                    if is_last(step) {
                        self.row = after_pass(scan.nothing());
                        return turn_after(step);
                    }
                }
                self.row = Row::Mark(scan.row());
                Turn::Went
            }
            _ => unreachable!(),
        }
    }

    // Makes events of a part that sweeps, `most` at most.
    #[inline(always)]
    pub(super) fn sweeps<M: Memory>(
        &mut self,
        memory: &mut M,
        shared: &M::Shared,
        most: u32,
    ) -> Turn
        requires part { is_sweeping self.old.part ≡ true }
        requires some { 0 < most }
        requires may { MayRun M.may M.acts most memory.old shared.now self.old }
        ensures { HasRunIn most M.acts shared.now memory.old self.old memory.new self.new result }
    {
        let places = Places::new(&self.config);
        match self.row {
            Row::Sweep { owed, row } => {
                let Pass { thread, cycle, .. } = self.pass;
                let mut pass = SweepPass::at_row(thread, cycle, self.config.blocks, owed, row);
                for _ in 0..most {
                    let Outcome { step, unit } = pass.event(&places, memory, shared);
                    count(
                        &mut self.account,
                        &mut self.spent,
                        &self.trace,
                        &self.log,
                        unit,
                    );
                    if !goes_on(step) {
                        self.row = behind(&pass, owed, step);
                        return turn_after(step);
                    }
                }
                let row = pass.row();
                self.row = Row::Sweep { owed, row };
                Turn::Went
            }
            _ => unreachable!(),
        }
    }

    // Makes events of a command that makes no object, 64 at most.
    fn serves_on<M: Memory>(&mut self, memory: &mut M, shared: &M::Shared) -> Turn
        requires part { is_serving self.old.part ≡ true }
        requires may { MayRun M.may M.acts longest memory.old shared.now self.old }
        ensures { HasRunIn longest M.acts shared.now memory.old self.old memory.new self.new result }
    {
        for _ in 0..LONGEST {
            self.wants_a_word();
            let turn = self.serves(memory, shared);
            if waited(turn) || !self.is_serving() {
                return turn;
            }
        }
        Turn::Went
    }

    // Makes events that build an object, 64 at most.
    fn builds_on<M: Memory>(&mut self, memory: &mut M, shared: &M::Shared) -> Turn
        requires part { is_build self.old.part ≡ true }
        requires may { MayRun M.may M.acts longest memory.old shared.now self.old }
        ensures { HasRunIn longest M.acts shared.now memory.old self.old memory.new self.new result }
    {
        for _ in 0..LONGEST {
            self.wants_a_word();
            let turn = self.builds(memory, shared);
            if waited(turn) || !self.is_building() {
                return turn;
            }
        }
        Turn::Went
    }

    // Whether the thread is in a command that makes no object.
    #[inline(always)]
    fn is_serving(&self) -> bool
        ensures { result ≡ is_serving self.now.part }
    {
        matches!(self.row, Row::Access)
    }

    // Whether it builds one.
    #[inline(always)]
    fn is_building(&self) -> bool
        ensures { result ≡ is_build self.now.part }
    {
        matches!(self.row, Row::Build)
    }
}
