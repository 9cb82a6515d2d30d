//! The events of a thread, one at a time.

ghost use Rattle.std.specs.Prelude.{◌≡◌, ◌≤◌, ◌<◌, ◌+◌, ◌^◌, ◌-◌, true, false, if◌then◌else◌, length, slice_index_or};
ghost use Rattle.block_store.specs.Places.{extent, words_count};
ghost use Rattle.never_heap.specs.RightWork.{units_owed};
ghost use Rattle.never_heap.specs.Steps.{blocks_of};
ghost use Rattle.work_account.specs.Accounts.{entered};
ghost use Rattle.heap_machine.specs.Memories.{ReadsOnly, ActsOnce};
ghost use Rattle.heap_machine.specs.Gates.{gate_want, gate_got, going_got, gate_step, GateAt};
ghost use Rattle.heap_machine.specs.Operations.{op_at, op_place, place_of};
ghost use Rattle.heap_machine.specs.Readings.{CanHold, IsPhaseWord};
ghost use Rattle.heap_machine.specs.Passes.{IsPass};
ghost use Rattle.heap_machine.specs.declared.gate.GateRow.{GateRow};
ghost use Rattle.never_heap.specs.declared.Command.{Command};
ghost use Rattle.heap_system.specs.Parts.{Part};
ghost use Rattle.heap_system.specs.declared.rows.Row.TheVariants as rows;
ghost use Rattle.heap_system.specs.Locals.{answered, LocalReads, HasGot, is_done, is_build, is_at_gate, is_serving, is_on_way_out, part_want, turn_of, is_last, pass_by, first_part, errand_of, command_of, op_wanted, owed};

use super::Local;
use crate::Turn;
use crate::counting::{made_after, settle};
use crate::rows::Row;
use barrier_steps::FieldPass;
use block_store::{PhaseWord, Places, read_phase};
use grey_steps::{GreyPass, GreyRow};
use heap_machine::{Gate, Memory, Op, Pass, Step, entering};
use never_heap::{Command, Entry, Reply};
use sweep_steps::{SweepPass, SweepRow};

// What a turn answers after this step of a part.
pub(super) fn turn_after(step: Step) -> Turn
    ensures { result ≡ turn_of step }
{
    match step {
        Step::Went | Step::Over => Turn::Went,
        Step::Waited | Step::WaitedOver => Turn::Waited,
    }
}

// Whether the step was the last of its part.
pub(super) fn is_last(step: Step) -> bool
    ensures { result ≡ is_last step }
{
    match step {
        Step::Over | Step::WaitedOver => true,
        Step::Went | Step::Waited => false,
    }
}

// On the way out after a pass that pays.
pub(super) fn after_pass(nothing: bool) -> Row
    ensures { result ≡ (if nothing then rows.LeaveToChangePhase else rows.Retry) }
{
    if nothing {
        Row::LeaveToChangePhase
    } else {
        Row::Retry
    }
}

// The part that changes the phase, after a pass that found nothing to do.
fn turning(pass: Pass) -> Gate
    requires { IsPass pass }
    ensures { result ≡ GateRow.CloseLook pass }
{
    Gate::turn_over(pass.thread, pass.threads, pass.cycle, pass.sweep)
}

// An event of a part that changes the phase, which comes once in many commands.
#[inline(never)]
fn turns_over<M: Memory>(
    gate: &mut Gate,
    places: &Places,
    memory: &mut M,
    shared: &M::Shared,
) -> Step
    requires places { GateAt places.now gate.old }
    requires may { M.may memory.old shared.now
        (op_at (extent places.now) (gate_want places.now.width gate.old)) }
    requires reads { ReadsOnly M.acts memory.old shared.now
        (op_at (extent places.now) (gate_want places.now.width gate.old))
        (CanHold (extent places.now) (place_of (gate_want places.now.width gate.old))) }
    ensures acted { ActsOnce M.acts memory.old shared.now
        (op_at (extent places.now) (gate_want places.now.width gate.old)) memory.new
        (λ w. (gate.new ≡ gate_got places.now.width gate.old w)
        × (result ≡ gate_step gate.old w)) }
    ensures places { GateAt places.now gate.new }
{
    let word = memory.act(shared, &gate.want(places));
    gate.got(places, word)
}

impl Local {
    /// The operation of the thread's next event, on one of the heap's words. The thread is not
    /// done.
    #[inline(always)]
    #[tactic(auto, using(crate::proofs::accounting::OwedAndPaid::going_at, crate::proofs::step_rows::WantedPlaces::want_low))]
    pub fn want(&self) -> Op
        requires { is_done self.now ≡ false }
        ensures wants { result ≡ op_at (extent self.now.config)
            (part_want self.now.config self.now.part) }
        ensures place { op_place result < words_count (extent self.now.config) }
    {
        let places = Places::new(&self.config);
        match &self.row {
            Row::Rest | Row::Look => Op::load(places.phase()),
            Row::Enter { seen } => entering(&places, *seen),
            Row::Access => self.field.want(&places),
            Row::Mark(row) => GreyPass::at_row(self.pass, *row).want(&places),
            Row::Sweep { owed, row } => {
                let Pass { thread, cycle, .. } = self.pass;
                SweepPass::at_row(thread, cycle, self.config.blocks, *owed, *row).want(&places)
            },
            Row::Build => self.builder.want(&places),
            Row::PhaseChange => self.gate.want(&places),
            Row::Retry | Row::LeaveToChangePhase | Row::Leave => Op::FetchSub {
                place: places.phase(),
                by: 1,
            },
        }
    }

    /// That the place of the thread's next event is one of the heap's words, as the memory of an
    /// `event` may ask. It does nothing.
    #[inline(always)]
    #[tactic(auto, using(crate::proofs::step_rows::WantedPlaces::want_low))]
    pub fn wants_a_word(&self)
        ensures { op_place (op_wanted self.now) < words_count (extent self.now.config) }
    {
        let _row = &self.row;
    }

    /// Makes the thread's next event by this memory. The thread is not done, and the memory reads
    /// no word that its row may not: on the way in a phase word of cycle 1 or later, and of none
    /// before the one that the thread entered last.
    #[inline(always)]
    pub fn event<M: Memory>(&mut self, memory: &mut M, shared: &M::Shared) -> Turn
        requires open { is_done self.old ≡ false }
        requires may { M.may memory.old shared.now (op_wanted self.old) }
        requires reads { ReadsOnly M.acts memory.old shared.now (op_wanted self.old)
            (LocalReads self.old.config self.old) }
        ensures { ActsOnce M.acts memory.old shared.now (op_wanted self.old) memory.new
            (λ w. HasGot self.old w self.new result) }
    {
        match self.row {
            Row::Rest => self.at_gate(memory, shared),
            Row::Look => self.at_gate(memory, shared),
            Row::Enter { .. } => self.at_gate(memory, shared),
            Row::PhaseChange => self.at_gate(memory, shared),
            Row::Access => self.serves(memory, shared),
            Row::Build => self.builds(memory, shared),
            Row::Mark(_) => self.marks(memory, shared, 1),
            Row::Sweep { .. } => self.sweeps(memory, shared, 1),
            Row::Retry => self.out(memory, shared),
            Row::LeaveToChangePhase => self.out(memory, shared),
            Row::Leave => self.out(memory, shared),
        }
    }

    // `event`, of a part outside.
    #[inline(always)]
    #[tactic(auto, using(crate::proofs::accounting::OwedAndPaid::turns_on, crate::proofs::accounting::OwedAndPaid::going_at))]
    pub(super) fn at_gate<M: Memory>(&mut self, memory: &mut M, shared: &M::Shared) -> Turn
        requires part { is_at_gate self.old.part ≡ true }
        requires open { is_done self.old ≡ false }
        requires may { M.may memory.old shared.now (op_wanted self.old) }
        requires reads { ReadsOnly M.acts memory.old shared.now (op_wanted self.old)
            (LocalReads self.old.config self.old) }
        ensures { ActsOnce M.acts memory.old shared.now (op_wanted self.old) memory.new
            (λ w. HasGot self.old w self.new result) }
    {
        let places = Places::new(&self.config);
        match self.row {
            Row::Rest => {
                let word = memory.act(shared, &Op::load(places.phase()));
                self.looked(word)
            }
            Row::Look => {
                let word = memory.act(shared, &Op::load(places.phase()));
                self.looked(word)
            }
            Row::Enter { seen } => {
                let word = memory.act(shared, &entering(&places, seen));
                if word == seen {
                    self.goes_in(read_phase(seen));
                    Turn::Went
                } else {
                    self.row = Row::Look;
                    Turn::Waited
                }
            }
            Row::PhaseChange => {
                let step = turns_over(&mut self.gate, &places, memory, shared);
                if is_last(step) {
                    self.row = Row::Look;
                    turn_after(step)
                } else {
                    turn_after(step)
                }
            }
            _ => unreachable!(),
        }
    }

    // A look whether the gate is closed read this word.
    #[inline(always)]
    fn looked(&mut self, word: u64) -> Turn
        requires word { IsPhaseWord word }
        requires command { length self.old.log < length self.old.trace }
        ensures part { self.new
            ≡ record self.old { part = Part.Enter (going_got GateRow.Look word) } }
        ensures turn { result ≡ turn_of (gate_step GateRow.Look word) }
    {
        if read_phase(word).closed {
            self.row = Row::Look;
            Turn::Waited
        } else {
            self.row = Row::Enter { seen: word };
            Turn::Went
        }
    }

    // `event`, of a command that makes no object.
    #[inline(always)]
    pub(super) fn serves<M: Memory>(&mut self, memory: &mut M, shared: &M::Shared) -> Turn
        requires part { is_serving self.old.part ≡ true }
        requires may { M.may memory.old shared.now (op_wanted self.old) }
        requires reads { ReadsOnly M.acts memory.old shared.now (op_wanted self.old)
            (LocalReads self.old.config self.old) }
        ensures { ActsOnce M.acts memory.old shared.now (op_wanted self.old) memory.new
            (λ w. HasGot self.old w self.new result) }
    {
        let places = Places::new(&self.config);
        match self.row {
            Row::Access => {
                let turn = turn_after(self.field.event(&places, memory, shared));
                match self.field.reply() {
                    Some(reply) => {
                        self.answer(reply);
                        turn
                    }
                    None => turn,
                }
            }
            _ => unreachable!(),
        }
    }

    // `event`, of an object that is built.
    #[inline(always)]
    pub(super) fn builds<M: Memory>(&mut self, memory: &mut M, shared: &M::Shared) -> Turn
        requires part { is_build self.old.part ≡ true }
        requires may { M.may memory.old shared.now (op_wanted self.old) }
        requires reads { ReadsOnly M.acts memory.old shared.now (op_wanted self.old)
            (LocalReads self.old.config self.old) }
        ensures { ActsOnce M.acts memory.old shared.now (op_wanted self.old) memory.new
            (λ w. HasGot self.old w self.new result) }
    {
        let places = Places::new(&self.config);
        match self.row {
            Row::Build => {
                let turn = turn_after(self.builder.event(&places, memory, shared));
                match self.builder.reply() {
                    Some(reply) => {
                        self.answer(reply);
                        turn
                    }
                    None => turn,
                }
            }
            _ => unreachable!(),
        }
    }

    // `event`, of a part on its way out.
    #[inline(always)]
    pub(super) fn out<M: Memory>(&mut self, memory: &mut M, shared: &M::Shared) -> Turn
        requires part { is_on_way_out self.old.part ≡ true }
        requires may { M.may memory.old shared.now (op_wanted self.old) }
        ensures { ActsOnce M.acts memory.old shared.now (op_wanted self.old) memory.new
            (λ w. HasGot self.old w self.new result) }
    {
        let place = Places::new(&self.config).phase();
        memory.act(shared, &Op::FetchSub { place, by: 1 });
        match self.row {
            Row::Retry => {
                self.row = Row::Look;
                Turn::Went
            }
            Row::LeaveToChangePhase => {
                self.gate = turning(self.pass);
                self.row = Row::PhaseChange;
                Turn::Went
            }
            Row::Leave => {
                self.row = Row::Rest;
                Turn::Went
            }
            _ => unreachable!(),
        }
    }

    // The command in hand.
    #[inline(always)]
    pub(super) fn command(&self) -> Command
        requires { length self.now.log < length self.now.trace }
        ensures { result ≡ command_of self.now }
    {
        self.trace[self.log.len()]
    }

    // The pass that begins by this phase word.
    pub(super) fn pass_by(&self, phase: PhaseWord) -> Pass
        requires { (1 ≤ phase.cycle) × (phase.cycle ≤ 2 ^ 54 - 2) }
        ensures is { result ≡ pass_by self.now.thread self.now.config.threads phase }
        ensures fits { IsPass result }
    {
        Pass {
            thread: self.thread,
            threads: self.config.threads,
            cycle: phase.cycle,
            sweep: phase.sweep,
        }
    }

    // The thread is inside by this phase word, and begins what it went in for.
    pub(super) fn goes_in(&mut self, phase: PhaseWord)
        requires command { length self.old.log < length self.old.trace }
        requires cycle { (1 ≤ phase.cycle) × (phase.cycle ≤ 2 ^ 54 - 2) }
        requires later { self.old.balance.cycle ≤ phase.cycle }
        ensures { self.new
            ≡ record self.old {
              balance = entered phase.cycle self.old.balance;
              pass = pass_by self.old.thread self.old.config.threads phase;
              part = first_part self.old.config
                  (pass_by self.old.thread self.old.config.threads phase) (errand_of self.old);
            } }
    {
        let due = self.price - self.spent;
        let command = self.command();
        let pass = self.pass_by(phase);
        self.account.enter(phase.cycle);
        self.pass = pass;
        if due > 0 {
            if phase.sweep {
                self.row = Row::Sweep {
                    owed: due,
                    row: SweepRow::ReadCursor,
                };
            } else {
                self.row = Row::Mark(GreyRow::Take { u: 0 });
            }
        } else if command.blocks(self.config.width) > 0 {
            self.builder.begin(
                self.config.width,
                pass.thread,
                pass.threads,
                pass.cycle,
                self.made + 1,
                command,
            );
            self.row = Row::Build;
        } else {
            self.field = FieldPass::new_in(pass, command);
            self.row = Row::Access;
        }
    }

    // The units that the command after the one in hand owes, where there is one.
    #[inline(always)]
    fn next_price(&self) -> u64
        requires { length self.now.log < length self.now.trace }
        ensures { result ≡ units_owed self.now.config.width self.now.rate
            (slice_index_or self.now.trace (length self.now.log + 1) (Command.Nil 0)) }
    {
        match self.trace.get(self.log.len() + 1) {
            Some(command) => self.owes(command),
            None => 0,
        }
    }

    // The command in hand is done.
    pub(super) fn answer(&mut self, reply: Reply)
        requires command { length self.old.log < length self.old.trace }
        requires paid { self.old.spent ≡ owed self.old }
        ensures { self.new ≡ answered self.old reply }
    {
        let command = self.command();
        let blocks = command.blocks(self.config.width);
        self.answer_to(command, blocks, reply);
    }

    // The command in hand, which is this one and takes so many blocks, is done.
    #[inline(always)]
    pub(super) fn answer_to(&mut self, command: Command, blocks: u32, reply: Reply)
        requires there { length self.old.log < length self.old.trace }
        requires command { command ≡ command_of self.old }
        requires blocks { blocks ≡ blocks_of self.old.config.width command }
        requires paid { self.old.spent ≡ owed self.old }
        ensures { self.new ≡ answered self.old reply }
    {
        let price = self.next_price();
        self.log.push_reserved(Entry {
            thread: self.thread,
            command,
            reply,
            work: self.spent,
        });
        settle(&mut self.account, reply, blocks);
        self.price = price;
        self.spent = 0;
        self.made = made_after(self.made, command, reply);
        self.row = Row::Leave;
    }
}
