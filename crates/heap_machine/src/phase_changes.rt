//! The rows of a part that closes the gate, and changes the phase or starts the next cycle.

ghost use Rattle.std.specs.Prelude.{◌≡◌, ◌<◌, ◌≤◌, ◌+◌, ◌^◌, ◌==◌, if◌then◌else◌, false, true};
ghost use Rattle.block_store.specs.Colours.{grey_word};
ghost use Rattle.block_store.specs.declared.Config.{Config};
ghost use Rattle.block_store.specs.Places.{extent, GreyList, ColourOf};
ghost use Rattle.block_store.specs.Registers.{root_block, registers_end};
ghost use Rattle.heap_machine.specs.Operations.{op_at, Load, Exchange};
ghost use Rattle.heap_machine.specs.Readings.{IsPhaseWord};
ghost use Rattle.heap_machine.specs.Gating.{closed_word, open_word};
ghost use Rattle.heap_machine.specs.Passes.{IsPass};
ghost use Rattle.heap_machine.specs.Gates.{gate_step, GateAt, GateFits, IsAt, IsIdle, IsSwept, SeenEmpty};
ghost use Rattle.heap_machine.specs.Gates as gates;
ghost use Rattle.heap_machine.specs.declared.gate.GateRow.{GateRow};

use crate::gate::GateRow;
use crate::{Op, Pass, Step};
use block_store::{Colour, PhaseWord, Places, Width, colour_word, phase_word, read_phase};

// Closes the gate, where the phase word is still the one that was seen.
pub fn close(place: usize, seen: u64) -> Op
    requires { IsPhaseWord seen }
    ensures { result ≡ Op.CompareExchange place seen (closed_word seen) }
{
    let closed = PhaseWord {
        closed: true,
        ..read_phase(seen)
    };
    Op::compare_exchange(place, seen, phase_word(closed))
}

// Looks at a grey list.
pub fn check(places: &Places, u: u32) -> Op
    requires { u < places.now.threads }
    ensures { result ≡ op_at (extent places.now) (Load (GreyList u)) }
{
    Op::load(places.grey_list(u))
}

// Opens the gate, with nobody inside.
fn open(place: usize, cycle: u64, sweep: bool) -> Op
    requires { cycle < 2 ^ 54 }
    ensures { result ≡ Op.Exchange place (open_word cycle sweep) }
{
    let opened = PhaseWord {
        inside: 0,
        sweep,
        closed: false,
        cycle,
    };
    Op::exchange(place, phase_word(opened))
}

// Opens the gate in Sweep.
pub fn flip(place: usize, pass: Pass) -> Op
    requires { IsIdle pass }
    ensures { result ≡ Op.Exchange place (open_word pass.cycle true) }
{
    open(place, pass.cycle, true)
}

// Opens the gate in Mark.
pub fn reopen(place: usize, pass: Pass) -> Op
    requires { IsIdle pass }
    ensures { result ≡ Op.Exchange place (open_word pass.cycle false) }
{
    open(place, pass.cycle, false)
}

// Opens the gate in Mark of the next cycle.
pub fn start(place: usize, pass: Pass) -> Op
    requires { IsSwept pass }
    ensures { result ≡ Op.Exchange place (open_word (pass.cycle + 1) false) }
{
    open(place, pass.cycle + 1, false)
}

// Makes the root block of thread u grey, in front of the private list.
pub fn shade_root(places: &Places, pass: Pass, u: u32, list: u32) -> Op
    requires pass { GateFits (GateRow.ShadeRoot pass u list) }
    requires places { GateAt places.now (GateRow.ShadeRoot pass u list) }
    ensures { result ≡ op_at (extent places.now)
        (Exchange (ColourOf (root_block places.now.width u)) (grey_word list)) }
{
    let root = places.width().root(u);
    Op::exchange(places.colour(root), colour_word(Colour::Grey(list)))
}

// Puts the roots in the own list.
pub fn put_roots(places: &Places, pass: Pass, list: u32) -> Op
    requires pass { IsSwept pass }
    requires places { IsAt places.now pass }
    ensures { result ≡ op_at (extent places.now) (Exchange (GreyList pass.thread) list) }
{
    Op::exchange(places.grey_list(pass.thread), list as u64)
}

// After the look whether the gate can be closed.
pub fn look_to_close(pass: Pass, word: u64) -> (GateRow, Step)
    requires pass { IsPass pass }
    requires word { IsPhaseWord word }
    ensures row { result.0 ≡ gates.look_to_close pass word }
    ensures step { result.1 ≡ gate_step (GateRow.CloseLook pass) word }
    ensures fits { GateFits result.0 }
{
    let phase = read_phase(word);
    if phase.cycle != pass.cycle || phase.sweep != pass.sweep {
        (GateRow::KeptOut, Step::Over)
    } else if phase.closed || phase.inside != 0 {
        (GateRow::KeptOut, Step::WaitedOver)
    } else {
        (GateRow::Close { pass, seen: word }, Step::Went)
    }
}

// Where the gate is closed: to the first grey list in Mark, and in Sweep to the first root.
fn closed_by(pass: Pass) -> GateRow
    requires { IsPass pass }
    ensures row { result ≡ gates.closed_by pass }
    ensures fits { GateFits result }
    ensures places { (c : Config) → IsAt c pass → GateAt c result }
{
    if pass.sweep {
        GateRow::ShadeRoot {
            pass,
            u: 0,
            list: 0,
        }
    } else {
        GateRow::CheckList { pass, u: 0 }
    }
}

// After the gate was to be closed.
pub fn tried_to_close(pass: Pass, seen: u64, word: u64) -> (GateRow, Step)
    requires pass { IsPass pass }
    requires seen { SeenEmpty pass seen }
    ensures row { result.0 ≡ (if word == seen then gates.closed_by pass else GateRow.KeptOut) }
    ensures step { result.1 ≡ gate_step (GateRow.Close pass seen) word }
    ensures fits { GateFits result.0 }
    ensures places { (c : Config) → IsAt c pass → GateAt c result.0 }
{
    if word == seen {
        (closed_by(pass), Step::Went)
    } else {
        (GateRow::KeptOut, Step::WaitedOver)
    }
}

// After grey list u was looked at.
pub fn list_checked(pass: Pass, u: u32, word: u64) -> (GateRow, Step)
    requires pass { IsIdle pass }
    requires list { u < pass.threads }
    ensures row { result.0 ≡ gates.list_checked pass u word }
    ensures step { result.1 ≡ gate_step (GateRow.CheckList pass u) word }
    ensures fits { GateFits result.0 }
{
    if word != 0 {
        (GateRow::Reopen { pass }, Step::Went)
    } else if u + 1 < pass.threads {
        (GateRow::CheckList { pass, u: u + 1 }, Step::Went)
    } else {
        (GateRow::SetCursor { pass }, Step::Went)
    }
}

// After the root block of thread u became grey.
pub fn root_shaded(width: Width, pass: Pass, u: u32) -> GateRow
    requires pass { IsSwept pass }
    requires thread { u < pass.threads }
    ensures row { result ≡ gates.root_shaded width pass u }
    ensures fits { GateFits result }
{
    let list = width.root(u);
    if u + 1 < pass.threads {
        GateRow::ShadeRoot {
            pass,
            u: u + 1,
            list,
        }
    } else {
        GateRow::PutRoots { pass, list }
    }
}
