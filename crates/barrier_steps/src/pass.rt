//! The part of a thread's work that does a command that allocates nothing.

ghost use Rattle.std.specs.Prelude.{◌≡◌, ◌+◌, ◌<◌, ◌≤◌, ◌==◌, false, if◌then◌else◌, IsSome};
ghost use Rattle.block_store.specs.WideOwners.{wide_of};
ghost use Rattle.block_store.specs.Places.{extent, index, PayloadOf};
ghost use Rattle.block_store.specs.Payloads as words;
ghost use Rattle.block_store.specs.Payloads.{payload_of, payload_target};
ghost use Rattle.block_store.specs.declared.TheConstants.{REGISTERS};
ghost use Rattle.block_store.specs.Registers.{register_block, register_slot};
ghost use Rattle.block_store.specs.Shapes.{IsShape, shape_of};
ghost use Rattle.never_heap.specs.Bounds.{IsCommandInRange};
ghost use Rattle.heap_machine.specs.Memories.{ReadsOnly, ActsOnce};
ghost use Rattle.heap_machine.specs.Operations.{op_at, Load, Exchange};
ghost use Rattle.grey_steps.specs.Fits.{GreyFits, GreyReads};
ghost use Rattle.grey_steps.specs.Rows.{grey_got};
ghost use Rattle.barrier_steps.specs.Operands as operands;
ghost use Rattle.barrier_steps.specs.Walks;
ghost use Rattle.barrier_steps.specs.Walks.{shape_length, links_to};
ghost use Rattle.barrier_steps.specs.Rows;
ghost use Rattle.barrier_steps.specs.Rows.{at_first_row, register_place, field_want, field_got, field_step, field_decided, field_reply};
ghost use Rattle.barrier_steps.specs.Fits.{IsThread, IsWalk, StoreFits, WantedFits, FitsAt, ReadsAt, FieldFits, FieldReads};

mod rows_known;

use crate::operands::{
    constant_word, expected_register, field_index, from_register, other_register, to_register,
};
use crate::walks::{field_at, length_of, link_at, links_to};
use crate::{FieldRow, FieldStore, Purpose, TreePath};
use block_store::{
    Name, Payload, PhaseWord, Places, Shape, Value, Width, read_payload, read_shape, read_wide,
};
use grey_steps::{GreyPass, GreyRow};
use heap_machine::{Memory, Op, Pass, Step};
use never_heap::{Command, Reply};
use std::marker::Model;

/// A command that allocates nothing, done one event at a time while its thread is inside.
#[derive(Drop)]
pub struct FieldPass {
    pass: Pass,
    command: Command,
    row: FieldRow,
}

impl Model for FieldPass {
    ghost use Rattle.barrier_steps.specs.Rows.{FieldState};

    ghost Value = { FieldState };

    ghost view = { λ p. record { pass = p.pass; command = p.command; row = p.row } };
}

// What a payload word holds.
#[inline(always)]
fn payload_in(word: u64) -> Payload
    requires { IsSome (payload_of word) }
    ensures is { result ≡ Rows.payload_in word }
    ensures target { payload_target result ≡ words.target word }
{
    read_payload(word).unwrap()
}

// The block to which a payload word refers, or 0.
#[inline(always)]
fn target(word: u64) -> u32
    requires { IsSome (payload_of word) }
    ensures { result ≡ words.target word }
{
    match payload_in(word) {
        Payload::Block(block) => block,
        Payload::Nil | Payload::Int(_) => 0,
    }
}

// What a shape word says.
#[inline(always)]
fn shape_in(word: u64) -> Shape
    requires { IsSome (shape_of word) }
    ensures is { result ≡ Rows.shape_in word }
    ensures fits { IsShape result }
{
    read_shape(word).unwrap()
}

// The object of which an owner word says that a block is part.
#[inline(always)]
fn object_in(word: u64) -> Value
    requires { IsSome (wide_of word) }
    ensures { result ≡ Rows.object_in word }
{
    let owner = read_wide(word).unwrap();
    Value::Ref(Name {
        thread: owner.thread,
        serial: owner.serial,
    })
}

// The place of a register.
#[inline(always)]
fn register(places: &Places, thread: u32, r: u8) -> usize
    requires thread { IsThread places.now thread }
    requires register { r < REGISTERS }
    ensures { result ≡ index (extent places.now) (register_place (extent places.now) thread r) }
{
    let (block, slot) = places.width().register(thread, r as u32);
    places.payload(block, slot)
}

// The word that is stored.
#[inline(always)]
fn word_of(store: FieldStore) -> u64
    ensures { result ≡ Rows.stored_word store }
{
    use FieldStore::*;

    match store {
        Moved { word } | Pending { word, .. } => word,
        InField { word, .. } | Exchanged { word, .. } | Compared { word, .. } => word,
    }
}

// Whether the value was taken before.
#[inline(always)]
fn is_taken(store: FieldStore) -> bool
    ensures { result ≡ Rows.is_taken store }
{
    match store {
        FieldStore::Pending { .. } => true,
        _ => false,
    }
}

// The row that stores it.
#[inline(always)]
fn storing(store: FieldStore) -> FieldRow
    ensures { result ≡ FieldRow.Store store }
{
    FieldRow::Store { store }
}

// The block that is shaded before this word is stored, or 0.
#[inline(always)]
fn shaded_for(pass: Pass, word: u64) -> u32
    requires { IsSome (payload_of word) }
    ensures { result ≡ Rows.shaded_for pass word }
{
    if pass.sweep { 0 } else { target(word) }
}

// Before a store: the write barrier, where a block is to be shaded.
#[inline(always)]
fn before_store(pass: Pass, store: FieldStore) -> FieldRow
    requires { IsSome (payload_of (Rows.stored_word store)) }
    ensures { result ≡ Rows.before_store pass store }
{
    let block = shaded_for(pass, word_of(store));
    if block == 0 {
        storing(store)
    } else {
        FieldRow::Shade {
            shade: GreyRow::TakeOwn { target: block },
            store,
        }
    }
}

// After an event of the barrier: once it is over the store follows.
fn in_barrier(places: &Places, pass: Pass, row: GreyRow, store: FieldStore, read: u64) -> FieldRow
    requires fits { GreyFits places.now (record { pass = pass; row = row }) }
    requires word { GreyReads places.now (record { pass = pass; row = row }) read }
    ensures { result
        ≡ Rows.in_barrier
        (grey_got (extent places.now) (record { pass = pass; row = row }) read).row store }
{
    let mut part = GreyPass::at_row(pass, row);
    part.got(places, read);
    if part.over() {
        storing(store)
    } else {
        FieldRow::Shade {
            shade: part.row(),
            store,
        }
    }
}

// The first row of a command.
fn first_row(command: Command) -> FieldRow
    requires { field_decided (Rows.first_row command) ≡ false }
    ensures { result ≡ Rows.first_row command }
{
    match command {
        Command::New { .. } | Command::Arr { .. } => unreachable!(),
        Command::Set { .. } | Command::Nil { .. } => FieldRow::StoreConstant,
        Command::Mov { .. } => loading(Purpose::Copied),
        Command::Get { .. } | Command::Put { .. } | Command::Len { .. } => loading(Purpose::Object),
        Command::Swap { .. } | Command::Cas { .. } => loading(Purpose::Object),
        Command::Idle { .. } => FieldRow::IdleLook,
        Command::Same { .. } => loading(Purpose::First),
        Command::Say { .. } => loading(Purpose::Shown),
    }
}

// The load of a register.
#[inline(always)]
fn loading(wanted: Purpose) -> FieldRow
    ensures { result ≡ FieldRow.LoadRegister wanted }
{
    FieldRow::LoadRegister { wanted }
}

// Which register it is.
#[inline(always)]
fn register_wanted(command: Command, wanted: Purpose) -> u8
    requires { IsCommandInRange command }
    ensures is { result ≡ Rows.register_wanted command wanted }
    ensures low { result < 16 }
{
    match wanted {
        Purpose::Expected { .. } => expected_register(command),
        Purpose::Stored { .. } | Purpose::Second { .. } => other_register(command),
        Purpose::Copied | Purpose::Object | Purpose::First | Purpose::Shown => from_register(
            command,
        ),
    }
}

// The end, with this reply.
fn answered(reply: Reply) -> FieldRow
    ensures { result ≡ FieldRow.Answered reply }
{
    FieldRow::Answered { reply }
}

// After the register that refers to the object.
#[inline(always)]
fn after_object(payload: Payload) -> FieldRow
    ensures { result ≡ Rows.after_object payload }
{
    match payload {
        Payload::Nil => answered(Reply::Null),
        Payload::Int(_) => answered(Reply::Kind),
        Payload::Block(block) => FieldRow::LoadShape { block },
    }
}

// At the block of the field.
#[inline(always)]
fn at_block(pass: Pass, command: Command, way: TreePath, word: u64) -> FieldRow
    requires { IsSome (payload_of word) }
    ensures { result ≡ Rows.at_block pass command way word }
{
    use Command::*;

    match command {
        Put { .. } => before_store(pass, FieldStore::InField { way, word }),
        Swap { .. } => before_store(pass, FieldStore::Exchanged { way, word }),
        Cas { .. } => before_store(pass, FieldStore::Compared { way, word }),
        New { .. } | Arr { .. } | Set { .. } | Nil { .. } => FieldRow::LoadField { way },
        Mov { .. } | Get { .. } | Len { .. } | Same { .. } | Say { .. } | Idle { .. } => {
            FieldRow::LoadField { way }
        }
    }
}

// The next link of the way, while there is one.
#[inline(always)]
fn on_way(places: &Places, pass: Pass, command: Command, way: TreePath, word: u64) -> FieldRow
    requires word { IsSome (payload_of word) }
    requires shape { IsShape way.shape }
    requires index { operands.field_index command < shape_length way.shape }
    ensures { result ≡ Rows.on_way (extent places.now) pass command way word }
{
    if way.level < links_to(places, way.shape, field_index(command, way.shape)) {
        FieldRow::LoadLink { way, word }
    } else {
        at_block(pass, command, way, word)
    }
}

// The way at its first block.
fn way_from(shape: Shape, block: u32) -> TreePath
    ensures { result ≡ Rows.way_from shape block }
{
    TreePath {
        shape,
        level: 0,
        block,
        expected: 0,
    }
}

// After the object's shape.
#[inline(always)]
#[tactic(auto, unfolding(block_store::specs::Payloads::payload_of))]
fn after_shape(places: &Places, pass: Pass, command: Command, block: u32, shape: Shape) -> FieldRow
    requires { IsShape shape }
    ensures { result ≡ Rows.after_shape (extent places.now) pass command block shape }
{
    use Command::*;

    let length = length_of(shape) as u64;
    let way = way_from(shape, block);
    match command {
        Get { i, .. } if i < length => on_way(places, pass, command, way, 0),
        Put { i, .. } | Swap { i, .. } if i < length => loading(Purpose::Stored { way }),
        Cas { i, .. } if i < length => loading(Purpose::Expected { way }),
        Get { .. } | Put { .. } | Swap { .. } | Cas { .. } => answered(Reply::Range),
        New { .. } | Arr { .. } | Set { .. } | Nil { .. } => answered(Reply::Len(length)),
        Mov { .. } | Len { .. } | Same { .. } | Say { .. } | Idle { .. } => {
            answered(Reply::Len(length))
        }
    }
}

// After a link.
fn after_link(
    places: &Places,
    pass: Pass,
    command: Command,
    way: TreePath,
    word: u64,
    block: u32,
) -> FieldRow
    requires word { IsSome (payload_of word) }
    requires shape { IsShape way.shape }
    requires index { operands.field_index command < shape_length way.shape }
    requires level { way.level < links_to (extent places.now) way.shape
        (operands.field_index command) }
    ensures { result ≡ Rows.on_way (extent places.now) pass command (Rows.way_on way block) word }
{
    let next = TreePath {
        level: way.level + 1,
        block,
        ..way
    };
    on_way(places, pass, command, next, word)
}

// The store of a field's word, once its value is known.
fn store_pending(word: u64, value: Value) -> FieldRow
    ensures { result ≡ FieldRow.Store (FieldStore.Pending word value) }
{
    storing(FieldStore::Pending { word, value })
}

// After the field that `get` loads.
#[inline(always)]
fn after_field(word: u64, payload: Payload) -> FieldRow
    ensures { result ≡ Rows.after_field word payload }
{
    match payload {
        Payload::Nil => store_pending(word, Value::Nil),
        Payload::Int(number) => store_pending(word, Value::Int(number)),
        Payload::Block(_) => FieldRow::LoadOwner { word },
    }
}

// After the register that `say` shows.
fn after_said(word: u64, payload: Payload) -> FieldRow
    ensures { result ≡ Rows.after_said word payload }
{
    match payload {
        Payload::Nil => answered(Reply::Val(Value::Nil)),
        Payload::Int(number) => answered(Reply::Val(Value::Int(number))),
        Payload::Block(_) => FieldRow::LoadOwner { word },
    }
}

// After both registers of `same`.
fn after_both(first: u64, second: u64) -> FieldRow
    ensures { result ≡ FieldRow.Answered (if first == second then Reply.Yes else Reply.No) }
{
    if first == second {
        answered(Reply::Yes)
    } else {
        answered(Reply::No)
    }
}

// After the owner of the block to which the word refers.
#[inline(always)]
fn after_owner(pass: Pass, command: Command, word: u64, value: Value) -> FieldRow
    requires { IsSome (payload_of word) }
    ensures { result ≡ Rows.after_owner pass command word value }
{
    match command {
        Command::Say { .. } => answered(Reply::Val(value)),
        _ => before_store(pass, FieldStore::Pending { word, value }),
    }
}

// After a store in whose place this word stood.
#[inline(always)]
fn after_store(store: FieldStore, read: u64) -> FieldRow
    requires { IsSome (payload_of read) }
    ensures { result ≡ Rows.after_store store read }
{
    match store {
        FieldStore::Moved { .. } | FieldStore::InField { .. } => answered(Reply::Stored),
        FieldStore::Pending { value, .. } => answered(Reply::Val(value)),
        FieldStore::Exchanged { .. } => after_field(read, payload_in(read)),
        FieldStore::Compared { way, .. } => after_both(read, way.expected),
    }
}

// The place of the next link on a way to the field of a command.
fn link(places: &Places, command: Command, way: TreePath) -> usize
    requires walk { IsWalk places.now (operands.field_index command) way }
    ensures { result
        ≡ index (extent places.now) (PayloadOf way.block (Walks.link_at (extent places.now)
        way.shape (operands.field_index command) way.level)) }
{
    places.payload(
        way.block,
        link_at(places, way, field_index(command, way.shape)),
    )
}

// The place of that field, at its block.
#[inline(always)]
fn field(places: &Places, command: Command, way: TreePath) -> usize
    requires walk { IsWalk places.now (operands.field_index command) way }
    ensures { result
        ≡ index (extent places.now) (PayloadOf way.block (Walks.field_at (extent places.now)
        way.shape (operands.field_index command))) }
{
    places.payload(
        way.block,
        field_at(places, way, field_index(command, way.shape)),
    )
}

// Whether an event that led to this row was the last.
fn step_at(row: FieldRow) -> Step
    ensures { result ≡ Rows.step_of (field_reply row) }
{
    match row {
        FieldRow::Answered { .. } => Step::Over,
        _ => Step::Went,
    }
}

impl FieldRow {
    /// Whether the command is past its linearization point.
    pub fn decided(&self) -> bool
        ensures { result ≡ field_decided self.now }
    {
        match *self {
            FieldRow::LoadOwner { .. } | FieldRow::Answered { .. } => true,
            FieldRow::Shade { store, .. } | FieldRow::Store { store } => is_taken(store),
            _ => false,
        }
    }
}

impl FieldPass {
    /// The part that does this command, which allocates nothing, for one of 1 to 16 threads that is
    /// inside. The command's registers are below 16, its numbers and indexes below 2^62. The phase
    /// word is the one with which the thread entered.
    pub fn new(thread: u32, threads: u32, phase: PhaseWord, command: Command) -> FieldPass
        requires thread { (thread < threads) × (threads ≤ 16) }
        requires range { IsCommandInRange command }
        requires allocates { field_decided (Rows.first_row command) ≡ false }
        ensures { result
            ≡ at_first_row
            (record {
              thread = thread;
              threads = threads;
              cycle = phase.cycle;
              sweep
                  = phase.sweep;
            }) command }
    {
        let pass = Pass {
            thread,
            threads,
            cycle: phase.cycle,
            sweep: phase.sweep,
        };
        FieldPass::new_in(pass, command)
    }

    /// The same in this pass of a thread.
    pub fn new_in(pass: Pass, command: Command) -> FieldPass
        requires thread { (pass.thread < pass.threads) × (pass.threads ≤ 16) }
        requires range { IsCommandInRange command }
        requires allocates { field_decided (Rows.first_row command) ≡ false }
        ensures { result ≡ at_first_row pass command }
    {
        FieldPass {
            pass,
            command,
            row: first_row(command),
        }
    }

    /// The part of this pass and command that has come to this row.
    pub fn at_row(pass: Pass, command: Command, row: FieldRow) -> FieldPass
        ensures { result ≡ record { pass = pass; command = command; row = row } }
    {
        FieldPass { pass, command, row }
    }

    /// The operation of the next event. A part that is over wants no more than a look at the phase.
    /// The places are those of a heap that has the part's thread and the row's blocks.
    #[inline(never)]
    pub fn want(&self, places: &Places) -> Op
        requires { FieldFits places.now self.now }
        ensures { result ≡ op_at (extent places.now) (field_want (extent places.now) self.now) }
    {
        self.operation(places, self.row)
    }

    // The operation of the event at this row.
    #[inline(always)]
    fn operation(&self, places: &Places, row: FieldRow) -> Op
        requires { FitsAt places.now self.now.pass self.now.command row }
        ensures { result
            ≡ op_at (extent places.now) (Rows.row_want (extent places.now)
            self.now.pass self.now.command row) }
    {
        use FieldRow::*;

        let command = self.command;
        match row {
            LoadRegister { wanted } => self.load(places, register_wanted(command, wanted)),
            LoadShape { block } => Op::load(places.shape(block)),
            LoadLink { way, .. } => Op::load(link(places, command, way)),
            LoadField { way } => Op::load(field(places, command, way)),
            LoadOwner { word } => Op::load(places.owner(target(word))),
            Shade { shade, .. } => GreyPass::at_row(self.pass, shade).want(places),
            Store { store } => self.store_of(places, store),
            StoreConstant => self.store(places, constant_word(command)),
            IdleLook | Answered { .. } => Op::load(places.phase()),
        }
    }

    // The store of a word that was loaded.
    #[inline(always)]
    fn store_of(&self, places: &Places, store: FieldStore) -> Op
        requires thread { IsThread places.now self.now.pass.thread }
        requires command { IsCommandInRange self.now.command }
        requires fits { StoreFits places.now self.now.command store }
        ensures { result
            ≡ op_at (extent places.now) (Rows.store_want (extent places.now)
            self.now.pass.thread self.now.command store) }
    {
        use FieldStore::*;

        match store {
            Moved { word } | Pending { word, .. } => self.store(places, word),
            InField { way, word } | Exchanged { way, word } => {
                Op::exchange(field(places, self.command, way), word)
            }
            Compared { way, word } => {
                Op::compare_exchange(field(places, self.command, way), way.expected, word)
            }
        }
    }

    // A store in the command's register.
    #[inline(always)]
    fn store(&self, places: &Places, word: u64) -> Op
        requires thread { IsThread places.now self.now.pass.thread }
        requires command { IsCommandInRange self.now.command }
        ensures { result
            ≡ op_at (extent places.now) (Exchange (register_place (extent places.now)
            self.now.pass.thread (operands.to_register self.now.command)) word) }
    {
        let place = register(places, self.pass.thread, to_register(self.command));
        Op::exchange(place, word)
    }

    // A load of a register.
    #[inline(always)]
    fn load(&self, places: &Places, r: u8) -> Op
        requires thread { IsThread places.now self.now.pass.thread }
        requires register { r < REGISTERS }
        ensures { result
            ≡ op_at (extent places.now) (Load (register_place (extent places.now)
            self.now.pass.thread r)) }
    {
        Op::load(register(places, self.pass.thread, r))
    }

    // The row after the event at this one, whose operation read the word.
    #[inline(always)]
    fn after(&self, places: &Places, row: FieldRow, read: u64) -> FieldRow
        requires fits { FitsAt places.now self.now.pass self.now.command row }
        requires word { ReadsAt places.now self.now.pass self.now.command row read }
        ensures { result
            ≡ Rows.row_got (extent places.now) self.now.pass self.now.command row read }
    {
        use FieldRow::*;

        let (pass, command) = (self.pass, self.command);
        match row {
            LoadRegister { wanted } => self.after_register(places, wanted, read),
            LoadShape { block } => after_shape(places, pass, command, block, shape_in(read)),
            LoadLink { way, word } => after_link(places, pass, command, way, word, target(read)),
            LoadField { .. } => after_field(read, payload_in(read)),
            LoadOwner { word } => after_owner(pass, command, word, object_in(read)),
            Shade { shade, store } => in_barrier(places, pass, shade, store, read),
            Store { store } => after_store(store, read),
            StoreConstant => answered(Reply::Stored),
            IdleLook => answered(Reply::Idle),
            Answered { reply } => answered(reply),
        }
    }

    // After a register in which this word is.
    #[inline(always)]
    fn after_register(&self, places: &Places, wanted: Purpose, read: u64) -> FieldRow
        requires word { IsSome (payload_of read) }
        requires fits { WantedFits places.now self.now.command wanted }
        ensures { result
            ≡ Rows.after_register (extent places.now) self.now.pass self.now.command wanted read }
    {
        use Purpose::*;

        match wanted {
            Copied => before_store(self.pass, FieldStore::Moved { word: read }),
            Object => after_object(payload_in(read)),
            Expected { way } => loading(Stored {
                way: TreePath {
                    expected: read,
                    ..way
                },
            }),
            Stored { way } => on_way(places, self.pass, self.command, way, read),
            First => loading(Second { word: read }),
            Second { word } => after_both(word, read),
            Shown => after_said(read, payload_in(read)),
        }
    }

    /// One event: this memory makes the operation of `want`, and the part moves on by the word that
    /// it read, which is one that its place can hold, and at a link a reference. A part that is
    /// over stays as it is.
    #[inline(always)]
    pub fn event<M: Memory>(&mut self, places: &Places, memory: &mut M, shared: &M::Shared) -> Step
        requires fits { FieldFits places.now self.old }
        requires may { M.may memory.old shared.now
            (op_at (extent places.now) (field_want (extent places.now) self.old)) }
        requires reads { ReadsOnly M.acts memory.old shared.now
            (op_at (extent places.now) (field_want (extent places.now) self.old))
            (FieldReads places.now self.old) }
        ensures acted { ActsOnce M.acts memory.old shared.now
            (op_at (extent places.now) (field_want (extent places.now) self.old)) memory.new
            (λ w. (self.new ≡ field_got (extent places.now) self.old w)
            × (result ≡ field_step (extent places.now) self.old w)) }
        ensures fits { FieldFits places.now self.new }
    {
        use FieldRow::*;
        use FieldStore::*;
        use Purpose::*;

        // The row is made anew in each arm, so that the compiler leads each on its own way.
        match self.row {
            LoadRegister { wanted: Object } => self.makes(loading(Object), places, memory, shared),
            LoadRegister {
                wanted: Stored { way },
            } => self.makes(loading(Stored { way }), places, memory, shared),
            LoadRegister { wanted: Copied } => self.makes(loading(Copied), places, memory, shared),
            LoadRegister { wanted: First } => self.makes(loading(First), places, memory, shared),
            LoadRegister {
                wanted: Second { word },
            } => self.makes(loading(Second { word }), places, memory, shared),
            LoadShape { block } => self.makes(LoadShape { block }, places, memory, shared),
            LoadLink { way, word } => self.makes(LoadLink { way, word }, places, memory, shared),
            LoadField { way } => self.makes(LoadField { way }, places, memory, shared),
            LoadOwner { word } => self.makes(LoadOwner { word }, places, memory, shared),
            Shade { shade, store } => self.makes(Shade { shade, store }, places, memory, shared),
            Store {
                store: InField { way, word },
            } => self.makes(storing(InField { way, word }), places, memory, shared),
            Store {
                store: Pending { word, value },
            } => self.makes(storing(Pending { word, value }), places, memory, shared),
            Store {
                store: Exchanged { way, word },
            } => self.makes(storing(Exchanged { way, word }), places, memory, shared),
            Store {
                store: Compared { way, word },
            } => self.makes(storing(Compared { way, word }), places, memory, shared),
            Store {
                store: Moved { word },
            } => self.makes(storing(Moved { word }), places, memory, shared),
            StoreConstant => self.makes(StoreConstant, places, memory, shared),
            row => self.makes(row, places, memory, shared),
        }
    }

    // One event at this row, which is the part's.
    #[inline(always)]
    fn makes<M: Memory>(
        &mut self,
        row: FieldRow,
        places: &Places,
        memory: &mut M,
        shared: &M::Shared,
    ) -> Step
        requires row { self.old.row ≡ row }
        requires fits { FieldFits places.now self.old }
        requires may { M.may memory.old shared.now
            (op_at (extent places.now) (field_want (extent places.now) self.old)) }
        requires reads { ReadsOnly M.acts memory.old shared.now
            (op_at (extent places.now) (field_want (extent places.now) self.old))
            (FieldReads places.now self.old) }
        ensures acted { ActsOnce M.acts memory.old shared.now
            (op_at (extent places.now) (field_want (extent places.now) self.old)) memory.new
            (λ w. (self.new ≡ field_got (extent places.now) self.old w)
            × (result ≡ field_step (extent places.now) self.old w)) }
        ensures fits { FieldFits places.now self.new }
    {
        let word = memory.act(shared, &self.operation(places, row));
        let next = self.after(places, row, word);
        self.row = next;
        step_at(next)
    }

    /// Whether the command is past its linearization point.
    pub fn decided(&self) -> bool
        ensures { result ≡ field_decided self.now.row }
    {
        self.row.decided()
    }

    /// The reply; `None` until the part is over.
    pub fn reply(&self) -> Option<Reply>
        ensures { result ≡ field_reply self.now.row }
    {
        match self.row {
            FieldRow::Answered { reply } => Some(reply),
            _ => None,
        }
    }
}
