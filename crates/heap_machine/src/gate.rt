//! The gate: a thread goes in where the gate is not closed, and is counted in the phase word while
//! it is inside. A thread outside closes it where nobody is inside, to change the phase or to
//! start the next cycle.

ghost use Rattle.std.specs.Prelude.{◌+◌, false, true, ◌≡◌, ◌<◌, ◌≤◌, ◌-◌, ◌^◌, IfSome};
ghost use Rattle.block_store.specs.Places.{extent, Phase};
ghost use Rattle.heap_machine.specs.Operations.{op_at, place_of, CompareExchange};
ghost use Rattle.heap_machine.specs.Passes.{IsPass};
ghost use Rattle.heap_machine.specs.Readings.{CanHold, IsPhaseWord};
ghost use Rattle.heap_machine.specs.Gates.{gate_want, gate_got, going_got, gate_step, gate_entered, gate_started, GateFits, GateAt, SeenOpen};

use crate::phase_changes::{
    check, close, flip, list_checked, look_to_close, put_roots, reopen, root_shaded, shade_root,
    start, tried_to_close,
};
use crate::{Op, Pass, Step};
use block_store::{PhaseWord, Places, read_phase};
use std::marker::Model;

/// The next event of a part of a thread's work at the gate, or how the part ended.
#[derive(Clone, Copy, Debug, PartialEq, Eq)]
pub enum GateRow {
    /// Looks whether the gate is closed.
    Look,
    /// Goes in, where the phase word is still the one that was seen.
    Enter { seen: u64 },
    /// Is over: the thread went in, from this phase word.
    Entered { seen: u64 },
    /// Goes out.
    Leave,
    /// Is over: the thread went out.
    Left,
    /// Looks whether the gate can be closed: in the pass's cycle and phase, open, with nobody
    /// inside.
    CloseLook { pass: Pass },
    /// Closes the gate, where the phase word is still the one that was seen.
    Close { pass: Pass, seen: u64 },
    /// Looks whether grey list `u` is empty, while the gate is closed.
    CheckList { pass: Pass, u: u32 },
    /// Each grey list was empty: puts the sweep cursor on the first block.
    SetCursor { pass: Pass },
    /// Begins Sweep in the pass's cycle, and opens the gate.
    Flip { pass: Pass },
    /// A grey list was not empty: opens the gate again, in Mark.
    Reopen { pass: Pass },
    /// Makes the root block of thread `u` grey for the next cycle, in front of the private list,
    /// after a Sweep pass. The private list is the root block that was made grey before it, or 0.
    ShadeRoot { pass: Pass, u: u32, list: u32 },
    /// Each root block is grey: puts them in the thread's own grey list.
    PutRoots { pass: Pass, list: u32 },
    /// Begins Mark in the next cycle, and opens the gate.
    Start { pass: Pass },
    /// Is over: the gate was closed, and is open again in the same cycle.
    TurnedOver,
    /// Is over: the gate was closed, and is open again in this cycle, which was started.
    StartedCycle { cycle: u64 },
    /// Is over: the gate was not closed.
    KeptOut,
}

/// A part of a thread's work at the gate.
#[derive(Drop)]
pub struct Gate {
    row: GateRow,
}

impl Model for Gate {
    ghost use Rattle.heap_machine.specs.declared.gate.GateRow.{GateRow};
    ghost use Rattle.heap_machine.specs.Gates.{GateFits};

    ghost Value = { GateRow };

    ghost view = { λ g. g.row };

    ghost invariant = { λ g. GateFits g.row };
}

/// Counts one thread more inside, where the phase word is still the open one that was seen.
#[tactic(auto, unfolding(block_store::specs::Phases::inside_of))]
pub fn entering(places: &Places, seen: u64) -> Op
    requires { SeenOpen seen }
    ensures { result ≡ op_at (extent places.now) (CompareExchange Phase seen (seen + 1)) }
{
    Op::compare_exchange(places.phase(), seen, seen + 1)
}

impl Gate {
    /// The part that goes in: it looks until the gate is open, and counts the thread as inside.
    pub fn enter() -> Gate
        ensures { result ≡ GateRow.Look }
    {
        Gate { row: GateRow::Look }
    }

    /// The part that goes out again.
    pub fn leave() -> Gate
        ensures { result ≡ GateRow.Leave }
    {
        Gate {
            row: GateRow::Leave,
        }
    }

    /// The part that closes the gate after this pass found nothing to do. After a Mark pass it
    /// changes the phase to Sweep where each grey list is empty, and else opens the gate again in
    /// Mark. After a Sweep pass it makes the root of each thread grey and starts the next cycle. It
    /// is over at once where the phase word says another cycle or phase than the pass had, the gate
    /// is closed, somebody is inside, or another thread changes the phase word first.
    pub fn turn_over(thread: u32, threads: u32, cycle: u64, sweep: bool) -> Gate
        requires thread { (thread < threads) × (threads ≤ 16) }
        requires cycle { (1 ≤ cycle) × (cycle ≤ 2 ^ 54 - 2) }
        ensures { result
            ≡ GateRow.CloseLook
            (record { thread = thread; threads = threads; cycle = cycle; sweep = sweep }) }
    {
        let pass = Pass {
            thread,
            threads,
            cycle,
            sweep,
        };
        Gate {
            row: GateRow::CloseLook { pass },
        }
    }

    /// The operation of the next event. A part that is over wants no more than a look. The places
    /// are those of a heap with the part's threads.
    pub fn want(&self, places: &Places) -> Op
        requires { GateAt places.now self.now }
        ensures { result ≡ op_at (extent places.now) (gate_want places.now.width self.now) }
    {
        use GateRow::*;

        let place = places.phase();
        match self.row {
            Look
            | Entered { seen: _ }
            | Left
            | CloseLook { pass: _ }
            | TurnedOver
            | StartedCycle { cycle: _ }
            | KeptOut => Op::load(place),
            Enter { seen } => entering(places, seen),
            Leave => Op::FetchSub { place, by: 1 },
            Close { pass: _, seen } => close(place, seen),
            CheckList { pass: _, u } => check(places, u),
            SetCursor { pass: _ } => Op::exchange(places.cursor(), 1),
            Flip { pass } => flip(place, pass),
            Reopen { pass } => reopen(place, pass),
            ShadeRoot { pass, u, list } => shade_root(places, pass, u, list),
            PutRoots { pass, list } => put_roots(places, pass, list),
            Start { pass } => start(place, pass),
        }
    }

    /// Moves on by one event, whose operation read the word: one that its place can hold. A part
    /// that is over stays as it is. `WaitedOver` comes exactly where the gate could not be closed
    /// in the pass's own cycle and phase, because it was closed, somebody was inside, or another
    /// thread changed the phase word first.
    pub fn got(&mut self, places: &Places, word: u64) -> Step
        requires places { GateAt places.now self.old }
        requires word { CanHold (extent places.now)
            (place_of (gate_want places.now.width self.old)) word }
        ensures row { self.new ≡ gate_got places.now.width self.old word }
        ensures step { result ≡ gate_step self.old word }
        ensures places { GateAt places.now self.new }
    {
        use GateRow::*;

        let width = places.width();
        match self.row {
            Look => self.looked(word),
            Enter { seen } => self.tried(seen, word),
            Entered { seen: _ } | Left | TurnedOver | StartedCycle { cycle: _ } | KeptOut =>
                Step::Over,
            Leave => self.goes(Left, Step::Over),
            CloseLook { pass } => self.goes_by(look_to_close(pass, word)),
            Close { pass, seen } => self.goes_by(tried_to_close(pass, seen, word)),
            CheckList { pass, u } => self.goes_by(list_checked(pass, u, word)),
            SetCursor { pass } => self.goes(Flip { pass }, Step::Went),
            Flip { pass: _ } | Reopen { pass: _ } => self.goes(TurnedOver, Step::Over),
            ShadeRoot { pass, u, list: _ } => self.goes(root_shaded(width, pass, u), Step::Went),
            PutRoots { pass, list: _ } => self.goes(Start { pass }, Step::Went),
            Start { pass } => self.goes(
                StartedCycle {
                    cycle: pass.cycle + 1,
                },
                Step::Over,
            ),
        }
    }

    // Goes on to this row.
    fn goes(&mut self, row: GateRow, step: Step) -> Step
        requires { GateFits row }
        ensures row { self.new ≡ row }
        ensures step { result ≡ step }
    {
        self.row = row;
        step
    }

    // Goes on to this row.
    fn goes_by(&mut self, next: (GateRow, Step)) -> Step
        requires { GateFits next.0 }
        ensures row { self.new ≡ next.0 }
        ensures step { result ≡ next.1 }
    {
        let (row, step) = next;
        self.row = row;
        step
    }

    // After the gate was looked at.
    fn looked(&mut self, word: u64) -> Step
        requires row { self.old ≡ GateRow.Look }
        requires word { IsPhaseWord word }
        ensures row { self.new ≡ going_got GateRow.Look word }
        ensures step { result ≡ gate_step GateRow.Look word }
    {
        if read_phase(word).closed {
            Step::Waited
        } else {
            self.row = GateRow::Enter { seen: word };
            Step::Went
        }
    }

    // After the phase word was to be counted up.
    fn tried(&mut self, seen: u64, word: u64) -> Step
        requires row { self.old ≡ GateRow.Enter seen }
        ensures row { self.new ≡ going_got (GateRow.Enter seen) word }
        ensures step { result ≡ gate_step (GateRow.Enter seen) word }
    {
        if word == seen {
            self.row = GateRow::Entered { seen };
            Step::Over
        } else {
            self.row = GateRow::Look;
            Step::Waited
        }
    }

    /// What the phase word said when the thread entered; `None` until a part that goes in is over.
    pub fn entered(&self) -> Option<PhaseWord>
        ensures word { result ≡ gate_entered self.now }
        ensures fits { IfSome result (λ p. (p.inside < 255) × (p.cycle < 2 ^ 54 - 1)
            × (p.closed ≡ false)) }
    {
        match self.row {
            GateRow::Entered { seen } => Some(read_phase(seen)),
            _ => None,
        }
    }

    /// The cycle that this part started; `None` where it started none, or has not yet.
    pub fn started(&self) -> Option<u64>
        ensures { result ≡ gate_started self.now }
    {
        match self.row {
            GateRow::StartedCycle { cycle } => Some(cycle),
            _ => None,
        }
    }
}
