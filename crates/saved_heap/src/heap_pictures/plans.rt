//! The commands that build what a picture shows, on a heap that was just opened.

ghost use Rattle.std.specs.Prelude.{◌≡◌, ◌<◌, ◌≤◌, ◌+◌, ◌-◌, ◌++◌, ◌∷◌, [], length, true, IfOk, IfErr, OnOk, OnErr};
ghost use Rattle.saved_heap.specs.heap_pictures.Pictures.{content_of, is_sound, view};
ghost use Rattle.saved_heap.specs.heap_pictures.Plans.{all_loads, filled, load, loads, made, make, make_table, plan_of, planned, store, stores, turns};

use crate::heap_pictures::{Item, Kind, Picture};
use block_store::{OutOfMemory, Value};
use never_heap::Command;
use std::alloc::Global;
use std::marker::Model;

// The register of the table, an array whose element `k` refers to object `k`, counted from 1.
const TABLE: u8 = 1;

// The register of the object that is made or filled.
const OBJECT: u8 = 2;

// The register of a value on its way.
const VALUE: u8 = 3;

// Loads a value into register `d`.
fn load(d: u8, value: Value) -> Command
    ensures { result ≡ load d value }
{
    match value {
        Value::Nil => Command::Nil { d },
        Value::Int(value) => Command::Set { d, value },
        Value::Ref(name) => Command::Get {
            d,
            s: TABLE,
            i: name.serial,
        },
    }
}

// Makes an object of nils.
pub(crate) fn make(item: &Item) -> Command
    requires { length item.now.fields.items ≤ 65535 }
    ensures { result ≡ make (view item.now) }
{
    let length = item.fields.len() as u32;
    match item.kind {
        Kind::Record => Command::New {
            d: OBJECT,
            fields: length,
        },
        Kind::Array => Command::Arr {
            d: OBJECT,
            elements: length,
        },
    }
}

// Makes object `k`, and notes it in the table.
fn plan_object(plan: &mut Vec<Command>, k: usize, item: &Item) -> Result<(), OutOfMemory>
    requires { length item.now.fields.items ≤ 65535 }
    ensures { OnOk result (plan.new.items ≡ plan.old.items ++ made k (view item.now)) }
{
    plan.push(make(item))?;
    plan.push(Command::Put {
        s: TABLE,
        i: k as u64,
        v: OBJECT,
    })?;
    Ok(())
}

// Stores what a field holds. It is nil at first.
fn plan_field(plan: &mut Vec<Command>, i: u64, value: Value) -> Result<(), OutOfMemory>
    ensures { OnOk result (plan.new.items ≡ plan.old.items ++ store i value) }
{
    if value == Value::Nil {
        return Ok(());
    }
    plan.push(load(VALUE, value))?;
    plan.push(Command::Put {
        s: OBJECT,
        i,
        v: VALUE,
    })?;
    Ok(())
}

fn plan_fields(plan: &mut Vec<Command>, fields: &[Value]) -> Result<(), OutOfMemory>
    ensures { OnOk result (plan.new.items ≡ plan.old.items ++ stores 0 fields.now) }
{
    for (i, value) in fields.iter().enumerate() {
        plan_field(plan, i as u64, *value)?;
    }
    Ok(())
}

// Fetches object `k`, and stores its fields.
fn plan_content(plan: &mut Vec<Command>, k: usize, item: &Item) -> Result<(), OutOfMemory>
    ensures { OnOk result (plan.new.items ≡ plan.old.items ++ filled k (view item.now)) }
{
    plan.push(Command::Get {
        d: OBJECT,
        s: TABLE,
        i: k as u64,
    })?;
    plan_fields(plan, &item.fields)
}

// Loads registers from `d` on.
fn plan_loads(plan: &mut Vec<Command>, d: u8, values: &[Value]) -> Result<(), OutOfMemory>
    requires { d + length values.now ≤ 255 }
    ensures { OnOk result (plan.new.items ≡ plan.old.items ++ loads d values.now) }
{
    for (i, value) in values.iter().enumerate() {
        plan.push(load(d + i as u8, *value))?;
    }
    Ok(())
}

// Loads the registers, that of the table last.
fn plan_registers(plan: &mut Vec<Command>, registers: &[Value]) -> Result<(), OutOfMemory>
    requires { length registers.now ≡ 16 }
    ensures { OnOk result (plan.new.items ≡ plan.old.items ++ all_loads registers.now) }
{
    plan.push(load(0, registers[0]))?;
    plan_loads(plan, 2, &registers[2..])?;
    plan.push(load(TABLE, registers[1]))?;
    Ok(())
}

// Makes the table.
fn plan_table(plan: &mut Vec<Command>, objects: usize) -> Result<(), OutOfMemory>
    requires { objects ≤ 65534 }
    ensures { OnOk result (plan.new.items ≡ plan.old.items ++ make_table objects ∷ []) }
{
    plan.push(Command::Arr {
        d: TABLE,
        elements: objects as u32 + 1,
    })?;
    Ok(())
}

// How many turns a plan of so many objects takes: one for the table, two for each object, which is
// made and then filled, and one for the registers.
fn turns(objects: usize) -> usize
    requires { objects ≤ 65534 }
    ensures { result ≡ turns objects }
{
    2 * objects + 2
}

// Does the next turn of a plan, after so many.
fn plan_turn(plan: &mut Vec<Command>, picture: &Picture, done: usize) -> Result<(), OutOfMemory>
    requires sound { is_sound (content_of picture.now) ≡ true }
    requires few { length picture.now.objects.items ≤ 65534 }
    requires left { done < turns (length picture.now.objects.items) }
    ensures { OnOk result (plan.old.items ≡ planned (content_of picture.now) done
        → plan.new.items ≡ planned (content_of picture.now) (done + 1)) }
{
    let objects = picture.objects.len();
    if done == 0 {
        return plan_table(plan, objects);
    }
    if done <= objects {
        return plan_object(plan, done, &picture.objects[done - 1]);
    }
    if done <= 2 * objects {
        let k = done - objects;
        return plan_content(plan, k, &picture.objects[k - 1]);
    }
    plan_registers(plan, &picture.registers)
}

// Does more turns of a plan.
fn plan_turns(
    plan: &mut Vec<Command>,
    picture: &Picture,
    done: usize,
    end: usize,
) -> Result<(), OutOfMemory>
    requires sound { is_sound (content_of picture.now) ≡ true }
    requires few { length picture.now.objects.items ≤ 65534 }
    requires left { end ≤ turns (length picture.now.objects.items) }
    requires order { done ≤ end }
    ensures { OnOk result (plan.old.items ≡ planned (content_of picture.now) done
        → plan.new.items ≡ planned (content_of picture.now) end) }
{
    for turn in done..end {
        plan_turn(plan, picture, turn)?;
    }
    Ok(())
}

/// The commands that build what a picture shows, on a heap that was just opened. They make one
/// object more, an array that refers to all objects; no register reaches it afterwards, nor the
/// heap's shared array. `Planning` does the same in pieces.
///
/// # Errors
///
/// `OutOfMemory` where there is no memory for them.
pub fn plan(alloc: Global, picture: &Picture) -> Result<Vec<Command>, OutOfMemory>
    requires sound { is_sound (content_of picture.now) ≡ true }
    requires few { length picture.now.objects.items ≤ 65534 }
    ensures { IfOk result (λ v. v.items ≡ plan_of (content_of picture.now)) }
{
    let mut plan = Vec::new(alloc);
    plan_turns(&mut plan, picture, 0, turns(picture.objects.len()))?;
    Ok(plan)
}

/// The commands that build what a picture shows, as `plan` returns them, planned in pieces.
#[derive(Drop)]
pub struct Planning {
    picture: Picture,
    commands: Vec<Command>,
    // How many turns are done.
    done: usize,
}

impl Model for Planning {
    ghost use Rattle.std.specs.Prelude.{◌-◌, length};
    ghost use Rattle.saved_heap.specs.heap_pictures.Pictures.{content_of};
    ghost use Rattle.saved_heap.specs.heap_pictures.Plans.{IsPlanning, Planned, turns};

    ghost Value = { Planned };

    ghost view = { λ s. record {
      picture = content_of s.picture;
      left = turns (length s.picture.objects.items) - s.done;
    } };

    ghost invariant = { λ s. IsPlanning (content_of s.picture) s.commands.items s.done };
}

impl Planning {
    /// Begins to plan what a picture shows. Nothing is planned yet.
    pub fn of(alloc: Global, picture: Picture) -> Planning
        requires sound { is_sound (content_of picture) ≡ true }
        requires few { length picture.objects.items ≤ 65534 }
        ensures picture { result.picture ≡ content_of picture }
        ensures left { result.left ≡ turns (length picture.objects.items) }
    {
        Planning {
            picture,
            commands: Vec::new(alloc),
            done: 0,
        }
    }

    /// How many turns are left. A plan of n objects takes 2n + 2: one makes the table, one makes
    /// each object, one fills it, and one loads the registers.
    pub fn left(&self) -> usize
        ensures { result ≡ self.now.left }
    {
        turns(self.picture.objects.len()) - self.done
    }

    /// Does at most `most` turns, and returns how many are left. A turn plans at most two commands,
    /// for the registers 16, and to fill an object one and two for each field that is not nil.
    ///
    /// # Errors
    ///
    /// `OutOfMemory` where there is no memory for the commands. Planning then begins again.
    pub fn step(&mut self, most: usize) -> Result<usize, OutOfMemory>
        ensures picture { self.new.picture ≡ self.old.picture }
        ensures left { IfOk result (λ n. n ≡ self.new.left) }
        ensures all { OnOk result (self.new.left ≡ self.old.left - most) }
        ensures again { OnErr result
            (self.new.left ≡ turns (length self.new.picture.objects)) }
    {
        let end = self.done + most.min(self.left());
        let planned = plan_turns(&mut self.commands, &self.picture, self.done, end);
        if planned.is_err() {
            self.commands.clear();
            self.done = 0;
            return Err(OutOfMemory);
        }
        self.done = end;
        Ok(self.left())
    }

    /// The commands that build what the picture shows (`plan`). The picture is dropped, which takes
    /// a time that grows with its objects.
    ///
    /// # Errors
    ///
    /// The planning, unchanged, where turns are left.
    pub fn finish(self) -> Result<Vec<Command>, Planning>
        ensures sound { is_sound self.picture ≡ true }
        ensures plan { IfOk result (λ v. v.items ≡ plan_of self.picture) }
        ensures all { OnOk result (self.left ≡ 0) }
        ensures left { OnErr result (1 ≤ self.left) }
        ensures same { IfErr result (λ n. n ≡ self) }
    {
        if self.left() > 0 {
            return Err(self);
        }
        Ok(self.commands)
    }
}
