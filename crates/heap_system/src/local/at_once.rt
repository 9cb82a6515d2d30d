//! A command that owes nothing, from the look at the gate to the way out, with its row in hand.

ghost use Rattle.std.specs.Prelude.{◌≡◌, ◌≤◌, ◌<◌, ◌+◌, ◌-◌, ◌^◌, true, false, length, IfSome};
ghost use Rattle.block_store.specs.Phases.{cycle_of, phase_of};
ghost use Rattle.barrier_steps.specs.declared.rows.FieldRow.{FieldRow};
ghost use Rattle.barrier_steps.specs.declared.rows.Purpose.{Purpose};
ghost use Rattle.barrier_steps.specs.Fits.{FitsAt};
ghost use Rattle.barrier_steps.specs.Rows.{first_row, field_reply};
ghost use Rattle.heap_machine.specs.Gates.{SeenOpen};
ghost use Rattle.heap_machine.specs.Readings.{IsPhaseWord};
ghost use Rattle.work_account.specs.Accounts.{entered};
ghost use Rattle.heap_system.specs.AtOnce.{GoesIn, HasRunUpTo, OwesNothing, come_to, entering_by, inside_by, serving_at};
ghost use Rattle.heap_system.specs.ThreadMemories.{HasRunOn, MayRun, longest};
ghost use Rattle.heap_system.specs.Locals.{answered, command_of, is_done, pass_by};
ghost use Rattle.heap_system.specs.Parts.{Part, Rest};
ghost use Rattle.heap_machine.specs.Passes.{IsPass};
ghost use Rattle.heap_machine.specs.declared.gate.GateRow.{GateRow};

use super::Local;
use crate::Turn;
use crate::rows::Row;
use barrier_steps::{FieldPass, FieldRow, FieldStore, Purpose, TreePath};
use block_store::{Places, read_phase};
use heap_machine::{Memory, Op, Pass, entering};
use never_heap::{Command, Reply};

impl Local {
    // Makes the events of a thread at rest in a row: those of a whole command, where that owes
    // nothing and finds the gate open and no block to shade; else those before the first that is
    // made another way.
    #[inline(always)]
    pub(super) fn at_once<M: Memory>(&mut self, memory: &mut M, shared: &M::Shared) -> Turn
        requires rest { self.old.part ≡ Rest }
        requires open { is_done self.old ≡ false }
        requires may { MayRun M.may M.acts longest memory.old shared.now self.old }
        ensures { HasRunOn M.acts shared.now memory.old self.old memory.new self.new result }
    {
        self.has_a_command();
        let places = self.places();
        let seen = memory.act(shared, &Op::load(places.phase()));
        if read_phase(seen).closed {
            self.looks_again();
            Turn::Waited
        } else {
            self.tries(seen, &places, memory, shared)
        }
    }

    // That a thread at rest which is not done has a command. It does nothing.
    #[inline(always)]
    pub(super) fn has_a_command(&self)
        requires rest { self.now.part ≡ Rest }
        requires open { is_done self.now ≡ false }
        ensures { length self.now.log < length self.now.trace }
    {
        let _row = &self.row;
    }

    // The places of the heap's words.
    #[inline(always)]
    pub(super) fn places(&self) -> Places
        ensures { result ≡ self.now.config }
    {
        Places::new(&self.config)
    }

    // The thread stays outside.
    pub(super) fn looks_again(&mut self)
        requires part { self.old.part ≡ Rest }
        requires low { length self.old.log < length self.old.trace }
        ensures { self.new ≡ record self.old { part = Part.Enter GateRow.Look } }
    {
        self.row = Row::Look;
    }

    // From where the thread has seen this phase word, of an open gate.
    #[inline(always)]
    fn tries<M: Memory>(
        &mut self,
        seen: u64,
        places: &Places,
        memory: &mut M,
        shared: &M::Shared,
    ) -> Turn
        requires rest { self.old.part ≡ Rest }
        requires low { length self.old.log < length self.old.trace }
        requires places { places.now ≡ self.old.config }
        requires seen { SeenOpen seen × (1 ≤ cycle_of seen) }
        requires may { MayRun M.may M.acts 63 memory.old shared.now (entering_by self.old seen) }
        ensures { HasRunUpTo 63 M.acts shared.now memory.old
            (entering_by self.old seen) memory.new self.new result }
    {
        let word = memory.act(shared, &entering(places, seen));
        if word == seen {
            let pass = self.pass_by(read_phase(seen));
            self.does(pass, seen, places, memory, shared)
        } else {
            self.looks_again();
            Turn::Waited
        }
    }

    // From where it is inside.
    #[inline(always)]
    fn does<M: Memory>(
        &mut self,
        pass: Pass,
        seen: u64,
        places: &Places,
        memory: &mut M,
        shared: &M::Shared,
    ) -> Turn
        requires rest { self.old.part ≡ Rest }
        requires low { length self.old.log < length self.old.trace }
        requires places { places.now ≡ self.old.config }
        requires seen { (cycle_of seen ≤ 2 ^ 54 - 2) × (1 ≤ cycle_of seen) }
        requires later { self.old.balance.cycle ≤ cycle_of seen }
        requires pass { pass
            ≡ pass_by self.old.thread self.old.config.threads (phase_of seen) }
        requires may { MayRun M.may M.acts 62 memory.old shared.now (inside_by self.old pass) }
        ensures { HasRunUpTo 62 M.acts shared.now memory.old
            (inside_by self.old pass) memory.new self.new result }
    {
        let command = self.command();
        match owing_nothing(command) {
            Some(row) => {
                self.goes_by(pass, command, row);
                self.first(pass, command, row, places, memory, shared)
            }
            None => {
                self.goes_in(read_phase(seen));
                Turn::Went
            }
        }
    }

    // That the command may be done from its first row on. It does nothing.
    #[inline(always)]
    pub(super) fn goes_by(&self, pass: Pass, command: Command, row: FieldRow)
        requires rest { self.now.part ≡ Rest }
        requires low { length self.now.log < length self.now.trace }
        requires cycle { (1 ≤ pass.cycle) × (pass.cycle ≤ 2 ^ 54 - 2) }
        requires later { self.now.balance.cycle ≤ pass.cycle }
        requires pass { (pass.thread ≡ self.now.thread)
            × (pass.threads ≡ self.now.config.threads) }
        requires command { command ≡ command_of self.now }
        requires nothing { OwesNothing command row }
        ensures goes { GoesIn self.now pass command }
        ensures fits { FitsAt self.now.config pass command row }
    {
        let _row = &self.row;
    }

    // From its first row.
    #[inline(always)]
    fn first<M: Memory>(
        &mut self,
        pass: Pass,
        command: Command,
        row: FieldRow,
        places: &Places,
        memory: &mut M,
        shared: &M::Shared,
    ) -> Turn
        requires goes { GoesIn self.old pass command }
        requires places { places.now ≡ self.old.config }
        requires fits { FitsAt places.now pass command row }
        requires may { MayRun M.may M.acts 6 memory.old shared.now
            (come_to self.old pass row) }
        ensures { HasRunUpTo 6 M.acts shared.now memory.old
            (come_to self.old pass row) memory.new self.new result }
    {
        match row {
            FieldRow::StoreConstant => self.constant(pass, command, places, memory, shared),
            FieldRow::LoadRegister { wanted } => {
                self.loads(pass, command, wanted, places, memory, shared)
            }
            row => self.ends(pass, command, row, places, memory, shared),
        }
    }

    // From the load of its first register.
    #[inline(always)]
    fn loads<M: Memory>(
        &mut self,
        pass: Pass,
        command: Command,
        wanted: Purpose,
        places: &Places,
        memory: &mut M,
        shared: &M::Shared,
    ) -> Turn
        requires goes { GoesIn self.old pass command }
        requires places { places.now ≡ self.old.config }
        requires fits { FitsAt places.now pass command (FieldRow.LoadRegister wanted) }
        requires may { MayRun M.may M.acts 6 memory.old shared.now
            (come_to self.old pass (FieldRow.LoadRegister wanted)) }
        ensures { HasRunUpTo 6 M.acts shared.now memory.old
            (come_to self.old pass (FieldRow.LoadRegister wanted)) memory.new self.new result }
    {
        match wanted {
            Purpose::Object => self.object(pass, command, places, memory, shared),
            Purpose::First => self.both(pass, command, places, memory, shared),
            Purpose::Copied => {
                self.register(pass, command, Purpose::Copied, places, memory, shared)
            }
            Purpose::Shown => self.register(pass, command, Purpose::Shown, places, memory, shared),
            wanted => {
                let row = FieldRow::LoadRegister { wanted };
                self.ends(pass, command, row, places, memory, shared)
            }
        }
    }

    // From the first load of `same`.
    #[inline(always)]
    pub(super) fn both<M: Memory>(
        &mut self,
        pass: Pass,
        command: Command,
        places: &Places,
        memory: &mut M,
        shared: &M::Shared,
    ) -> Turn
        requires goes { GoesIn self.old pass command }
        requires places { places.now ≡ self.old.config }
        requires fits { FitsAt places.now pass command (FieldRow.LoadRegister Purpose.First) }
        requires may { MayRun M.may M.acts 4 memory.old shared.now
            (come_to self.old pass (FieldRow.LoadRegister Purpose.First)) }
        ensures { HasRunUpTo 4 M.acts shared.now memory.old
            (come_to self.old pass (FieldRow.LoadRegister Purpose.First))
            memory.new self.new result }
    {
        let wanted = Purpose::First;
        match FieldPass::loads_register(pass, command, wanted, places, memory, shared) {
            FieldRow::LoadRegister { wanted } => {
                self.register(pass, command, wanted, places, memory, shared)
            }
            row => self.ends(pass, command, row, places, memory, shared),
        }
    }

    // From the load of any other register.
    #[inline(always)]
    pub(super) fn register<M: Memory>(
        &mut self,
        pass: Pass,
        command: Command,
        wanted: Purpose,
        places: &Places,
        memory: &mut M,
        shared: &M::Shared,
    ) -> Turn
        requires goes { GoesIn self.old pass command }
        requires places { places.now ≡ self.old.config }
        requires fits { FitsAt places.now pass command (FieldRow.LoadRegister wanted) }
        requires may { MayRun M.may M.acts 3 memory.old shared.now
            (come_to self.old pass (FieldRow.LoadRegister wanted)) }
        ensures { HasRunUpTo 3 M.acts shared.now memory.old
            (come_to self.old pass (FieldRow.LoadRegister wanted)) memory.new self.new result }
    {
        match FieldPass::loads_register(pass, command, wanted, places, memory, shared) {
            FieldRow::Store { store } => self.store(pass, command, store, places, memory, shared),
            row => self.ends(pass, command, row, places, memory, shared),
        }
    }

    // From the load of the object's shape.
    #[inline(always)]
    fn shape<M: Memory>(
        &mut self,
        pass: Pass,
        command: Command,
        block: u32,
        places: &Places,
        memory: &mut M,
        shared: &M::Shared,
    ) -> Turn
        requires goes { GoesIn self.old pass command }
        requires places { places.now ≡ self.old.config }
        requires fits { FitsAt places.now pass command (FieldRow.LoadShape block) }
        requires may { MayRun M.may M.acts 5 memory.old shared.now
            (come_to self.old pass (FieldRow.LoadShape block)) }
        ensures { HasRunUpTo 5 M.acts shared.now memory.old
            (come_to self.old pass (FieldRow.LoadShape block)) memory.new self.new result }
    {
        match FieldPass::loads_shape(pass, command, block, places, memory, shared) {
            FieldRow::LoadField { way } => self.field(pass, command, way, places, memory, shared),
            FieldRow::LoadRegister { wanted } => {
                self.register(pass, command, wanted, places, memory, shared)
            }
            row => self.ends(pass, command, row, places, memory, shared),
        }
    }

    // From the store of `set` and `nil`.
    #[inline(always)]
    pub(super) fn constant<M: Memory>(
        &mut self,
        pass: Pass,
        command: Command,
        places: &Places,
        memory: &mut M,
        shared: &M::Shared,
    ) -> Turn
        requires goes { GoesIn self.old pass command }
        requires places { places.now ≡ self.old.config }
        requires fits { FitsAt places.now pass command
            (FieldRow.StoreConstant) }
        requires may { MayRun M.may M.acts 2 memory.old shared.now
            (come_to self.old pass (FieldRow.StoreConstant)) }
        ensures { HasRunUpTo 2 M.acts shared.now memory.old
            (come_to self.old pass (FieldRow.StoreConstant)) memory.new self.new result }
    {
        let row = FieldPass::stores_constant(pass, command, places, memory, shared);
        self.ends(pass, command, row, places, memory, shared)
    }

    // From the load of the register that refers to the object.
    #[inline(always)]
    fn object<M: Memory>(
        &mut self,
        pass: Pass,
        command: Command,
        places: &Places,
        memory: &mut M,
        shared: &M::Shared,
    ) -> Turn
        requires goes { GoesIn self.old pass command }
        requires places { places.now ≡ self.old.config }
        requires fits { FitsAt places.now pass command
            (FieldRow.LoadRegister Purpose.Object) }
        requires may { MayRun M.may M.acts 6 memory.old shared.now
            (come_to self.old pass (FieldRow.LoadRegister Purpose.Object)) }
        ensures { HasRunUpTo 6 M.acts shared.now memory.old
            (come_to self.old pass (FieldRow.LoadRegister Purpose.Object))
            memory.new self.new result }
    {
        let wanted = Purpose::Object;
        match FieldPass::loads_register(pass, command, wanted, places, memory, shared) {
            FieldRow::LoadShape { block } => self.shape(
                pass, command, block, places, memory, shared,
            ),
            row => self.ends(pass, command, row, places, memory, shared),
        }
    }

    // From the load of the field of `get`.
    #[inline(always)]
    pub(super) fn field<M: Memory>(
        &mut self,
        pass: Pass,
        command: Command,
        way: TreePath,
        places: &Places,
        memory: &mut M,
        shared: &M::Shared,
    ) -> Turn
        requires goes { GoesIn self.old pass command }
        requires places { places.now ≡ self.old.config }
        requires fits { FitsAt places.now pass command
            (FieldRow.LoadField way) }
        requires may { MayRun M.may M.acts 4 memory.old shared.now
            (come_to self.old pass (FieldRow.LoadField way)) }
        ensures { HasRunUpTo 4 M.acts shared.now memory.old
            (come_to self.old pass (FieldRow.LoadField way)) memory.new self.new result }
    {
        match FieldPass::loads_field(pass, command, way, places, memory, shared) {
            FieldRow::Store { store } => self.store(pass, command, store, places, memory, shared),
            FieldRow::LoadOwner { word } => self.owner(pass, command, word, places, memory, shared),
            row => self.ends(pass, command, row, places, memory, shared),
        }
    }

    // From the load of the owner of what the field refers to.
    #[inline(always)]
    pub(super) fn owner<M: Memory>(
        &mut self,
        pass: Pass,
        command: Command,
        word: u64,
        places: &Places,
        memory: &mut M,
        shared: &M::Shared,
    ) -> Turn
        requires goes { GoesIn self.old pass command }
        requires places { places.now ≡ self.old.config }
        requires fits { FitsAt places.now pass command
            (FieldRow.LoadOwner word) }
        requires may { MayRun M.may M.acts 3 memory.old shared.now
            (come_to self.old pass (FieldRow.LoadOwner word)) }
        ensures { HasRunUpTo 3 M.acts shared.now memory.old
            (come_to self.old pass (FieldRow.LoadOwner word)) memory.new self.new result }
    {
        match FieldPass::loads_owner(pass, command, word, places, memory, shared) {
            FieldRow::Store { store } => self.store(pass, command, store, places, memory, shared),
            row => self.ends(pass, command, row, places, memory, shared),
        }
    }

    // From the store of a word that was loaded.
    #[inline(always)]
    pub(super) fn store<M: Memory>(
        &mut self,
        pass: Pass,
        command: Command,
        store: FieldStore,
        places: &Places,
        memory: &mut M,
        shared: &M::Shared,
    ) -> Turn
        requires goes { GoesIn self.old pass command }
        requires places { places.now ≡ self.old.config }
        requires fits { FitsAt places.now pass command
            (FieldRow.Store store) }
        requires may { MayRun M.may M.acts 2 memory.old shared.now
            (come_to self.old pass (FieldRow.Store store)) }
        ensures { HasRunUpTo 2 M.acts shared.now memory.old
            (come_to self.old pass (FieldRow.Store store)) memory.new self.new result }
    {
        let row = FieldPass::stores(pass, command, store, places, memory, shared);
        self.ends(pass, command, row, places, memory, shared)
    }

    // At a row at which the command is over, or another way goes on.
    #[inline(always)]
    pub(super) fn ends<M: Memory>(
        &mut self,
        pass: Pass,
        command: Command,
        row: FieldRow,
        places: &Places,
        memory: &mut M,
        shared: &M::Shared,
    ) -> Turn
        requires goes { GoesIn self.old pass command }
        requires places { places.now ≡ self.old.config }
        requires fits { FitsAt places.now pass command row }
        requires may { MayRun M.may M.acts 1 memory.old shared.now
            (come_to self.old pass row) }
        ensures { HasRunUpTo 1 M.acts shared.now memory.old
            (come_to self.old pass row) memory.new self.new result }
    {
        match reply_at(row) {
            Some(reply) => {
                let place = places.phase();
                memory.act(shared, &Op::FetchSub { place, by: 1 });
                self.is_out(pass, command, reply);
                Turn::Went
            }
            None => {
                self.is_at(pass, command, row);
                Turn::Went
            }
        }
    }

    // The thread, which the rows show as at rest, is inside in this pass.
    #[inline(always)]
    fn enters(&mut self, pass: Pass)
        requires rest { self.old.part ≡ Rest }
        requires pass { IsPass pass }
        requires later { self.old.balance.cycle ≤ pass.cycle }
        ensures { self.new ≡ record self.old {
          balance = entered pass.cycle self.old.balance;
          pass = pass;
        } }
    {
        self.account.enter(pass.cycle);
        self.pass = pass;
    }

    // It has done its command, and is at rest again.
    #[inline(always)]
    fn is_out(&mut self, pass: Pass, command: Command, reply: Reply)
        requires goes { GoesIn self.old pass command }
        ensures { self.new
            ≡ record (come_to self.old pass (FieldRow.Answered reply)) { part = Rest } }
    {
        self.enters(pass);
        self.answer_to(command, 0, reply);
        self.row = Row::Rest;
    }

    // It is at this row of its command: other code makes the rest.
    #[inline(always)]
    fn is_at(&mut self, pass: Pass, command: Command, row: FieldRow)
        requires goes { GoesIn self.old pass command }
        requires fits { FitsAt self.old.config pass command row }
        ensures { self.new ≡ serving_at self.old pass row }
    {
        self.enters(pass);
        self.field = FieldPass::at_row(pass, command, row);
        self.row = Row::Access;
    }
}

// The first row of a command that makes no object and no units. `swap` and `cas` have rows that are
// made elsewhere, and so are made there from the first on.
#[inline(always)]
fn owing_nothing(command: Command) -> Option<FieldRow>
    ensures { IfSome result (OwesNothing command) }
{
    use Command::*;

    match command {
        New { .. } | Arr { .. } | Idle { .. } | Swap { .. } | Cas { .. } => None,
        Set { .. } | Nil { .. } => Some(FieldRow::StoreConstant),
        Mov { .. } => Some(loading(Purpose::Copied)),
        Get { .. } | Put { .. } | Len { .. } => Some(loading(Purpose::Object)),
        Same { .. } => Some(loading(Purpose::First)),
        Say { .. } => Some(loading(Purpose::Shown)),
    }
}

// The load of a register.
#[inline(always)]
fn loading(wanted: Purpose) -> FieldRow
    ensures { result ≡ FieldRow.LoadRegister wanted }
{
    FieldRow::LoadRegister { wanted }
}

// The reply that a row has.
#[inline(always)]
fn reply_at(row: FieldRow) -> Option<Reply>
    ensures { result ≡ field_reply row }
{
    match row {
        FieldRow::Answered { reply } => Some(reply),
        _ => None,
    }
}
