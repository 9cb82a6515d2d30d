//! The model that every promise is measured against: commands, replies, a heap that never frees.
#![tactic(auto)]

ghost use Rattle.std.specs.Prelude.{◌≡◌, ◌<◌, ◌≤◌, ◌↔◌, IsTrue, ℕ, List, [], ◌∷◌, ◌++◌, length, slice_index_or};
ghost use Rattle.never_heap.specs.Bounds.{IsCommandInBounds, IsCommandInRange};
ghost use Rattle.never_heap.specs.RightWork.{requested_units};
ghost use Rattle.never_heap.specs.Signatures.{IsOfVersion, signature};
ghost use Rattle.never_heap.specs.Steps.{length_made, blocks_of};
ghost use Rattle.block_store.specs.declared.Config.{Config};
ghost use Rattle.never_heap.specs.declared.Entry.{Entry};
ghost use Rattle.never_heap.specs.Histories.{HistoryItem, after, replay, part, Legal, IsAnswered};

mod graph;
mod laws;
mod live;
mod marks;
mod mutator;
mod object;
mod reach;
mod read_laws;
mod run_laws;

use array_trees::blocks_of_array;
use block_store::{Config, Name, REGISTERS, Value, Width};
pub use graph::Graph;
pub use laws::{
    live_blocks_are_few, live_grows, names_stay, opening_blocks_are_live,
    reach_grows_by_new_objects, reachable_is_least, steps_answer, steps_leave,
};
pub use live::Scan;
use object_lists::blocks_of_record;
pub use read_laws::{
    commands_stand_in_trace_order, fields_hold_what_was_last_stored, gets_read_what_was_last_stored,
};
pub use run_laws::{
    blocks_are_given, cycles_start, fulls_need_live_blocks, orders_make_one_history,
    runs_are_items_that_may_come, runs_are_walked, runs_grow,
};

/// Numbers and indexes are below this.
pub const NUMBERS: u64 = 1 << 62;

/// An `Idle` makes at most this many units.
pub const MOST_UNITS: u64 = 131_070;

/// A record or array is at most this long.
pub const MOST_FIELDS: u32 = 65_535;

/// What a thread is told to do. `d`, `s`, `a`, `b` and `v` are registers, from 0 to 15.
#[derive(Clone, Copy, Debug, PartialEq, Eq)]
pub enum Command {
    /// Makes a record of nil fields, to which register `d` then refers.
    New { d: u8, fields: u32 },
    /// Makes an array of nil elements, to which register `d` then refers.
    Arr { d: u8, elements: u32 },
    /// Register `d` becomes this number, which is below 2^62.
    Set { d: u8, value: u64 },
    /// Register `d` becomes nil.
    Nil { d: u8 },
    /// Register `d` becomes what register `s` holds.
    Mov { d: u8, s: u8 },
    /// Register `d` becomes field `i` of the object in register `s`.
    Get { d: u8, s: u8, i: u64 },
    /// Field `i` of the object in register `s` becomes what register `v` holds.
    Put { s: u8, i: u64, v: u8 },
    /// How many fields or elements the object in register `s` has.
    Len { s: u8 },
    /// Whether registers `a` and `b` are both nil, the same number, or refer to the same object.
    Same { a: u8, b: u8 },
    /// Shows register `s`.
    Say { s: u8 },
    /// Field `i` of the object in register `s` and register `v` exchange their values.
    Swap { s: u8, i: u64, v: u8 },
    /// Where field `i` of the object in register `s` and register `a` hold the same, the field
    /// becomes what register `v` holds.
    Cas { s: u8, i: u64, a: u8, v: u8 },
    /// Makes this many units of marking or sweeping, at most 131,070.
    Idle { units: u64 },
}

impl Command {
    /// Whether registers are below `REGISTERS`, numbers and indexes below 2^62, an object that is
    /// made is at most 65,535 long and takes no more blocks than one object may, and an `Idle`
    /// makes at most `MOST_UNITS`. `Swap`, `Cas` and `Idle` are commands of version 2 alone, whose
    /// blocks are wide.
    #[inline(always)]
    #[tactic(auto, using(crate::proofs::CommandBounds::length_in_range, crate::proofs::CommandBounds::bounds_are))]
    pub fn in_bounds(&self, c: &Config) -> bool
        ensures { IsTrue result ↔ IsCommandInBounds c.now self.now }
    {
        self.is_in_range()
            && self.blocks(c.width) <= c.object
            && self.requested_units() <= MOST_UNITS
            && self.is_of_width(c.width)
    }

    /// Whether each operand is in its range.
    #[inline(always)]
    fn is_in_range(&self) -> bool
        ensures { IsTrue result ↔ IsCommandInRange self.now }
    {
        use Command::*;

        match *self {
            New { d, fields: n } | Arr { d, elements: n } => is_register(d) && n <= MOST_FIELDS,
            Set { d, value } => is_register(d) && value < NUMBERS,
            Nil { d: r } | Len { s: r } | Say { s: r } => is_register(r),
            Mov { d: r, s: q } | Same { a: r, b: q } => is_register(r) && is_register(q),
            Get { d, s, i } => is_register(d) && is_register(s) && i < NUMBERS,
            Put { s, i, v } | Swap { s, i, v } => is_register(s) && i < NUMBERS && is_register(v),
            Cas { s, i, a, v } => {
                is_register(s) && i < NUMBERS && is_register(a) && is_register(v)
            }
            Idle { units } => units < NUMBERS,
        }
    }

    /// Whether it is a command of the version whose blocks have this width.
    fn is_of_width(&self, width: Width) -> bool
        ensures { IsTrue result ↔ IsOfVersion (signature self.now).version width }
    {
        match *self {
            Command::Swap { .. } | Command::Cas { .. } | Command::Idle { .. } => is_wide(width),
            _ => true,
        }
    }

    /// How many blocks of this width the command allocates; 0 for one that makes no object. An
    /// object is at most 65,535 long.
    pub fn blocks(&self, width: Width) -> u32
        requires { length_made self.now ≤ 65535 }
        ensures { result ≡ blocks_of width self.now }
    {
        match *self {
            Command::New { fields, .. } => blocks_of_record(width, fields),
            Command::Arr { elements, .. } => blocks_of_array(width, elements),
            _ => 0,
        }
    }

    /// How many units the command is told to make; 0 for one that is no `Idle`.
    pub fn requested_units(&self) -> u64
        ensures { result ≡ requested_units self.now }
    {
        match *self {
            Command::Idle { units } => units,
            _ => 0,
        }
    }
}

/// Whether a thread has a register of this number.
fn is_register(r: u8) -> bool
    ensures { IsTrue result ↔ (r < REGISTERS) }
{
    u32::from(r) < REGISTERS
}

/// Whether blocks of this width are those of version 2.
fn is_wide(width: Width) -> bool
    ensures { IsTrue result ↔ (width ≡ Width.Eight) }
{
    matches!(width, Width::Eight)
}

/// What a command answers.
#[derive(Clone, Copy, Debug, PartialEq, Eq)]
pub enum Reply {
    /// The object of this name was made.
    New(Name),
    /// The heap had too few blocks; the number is the cycle that shows why.
    Full(u64),
    /// What was to be stored is stored.
    Stored,
    /// The value that was asked for; of a `Swap`, what the field held before.
    Val(Value),
    /// The number of fields or elements.
    Len(u64),
    /// The two registers are the same; of a `Cas`, the field and the register are, and it stored.
    Yes,
    /// They are not, and nothing is stored.
    No,
    /// The register is nil.
    Null,
    /// The register holds a number.
    Kind,
    /// The object has no such field.
    Range,
    /// The units that were asked for are made.
    Idle,
}

/// A command that was answered.
#[derive(Clone, Copy, Debug, PartialEq, Eq)]
pub struct Entry {
    /// Whose command it was.
    pub thread: u32,
    pub command: Command,
    pub reply: Reply,
    /// The units of marking or sweeping that were made for it.
    pub work: u64,
}

/// An item of an order: the next entry of a thread, or the start of the next cycle.
#[derive(Clone, Copy, Debug, PartialEq, Eq)]
pub enum Item {
    Entry(u8),
    Start,
}

/// What a finished run shows: each thread's entries, and two totals.
pub trait Logs {
    /// The entries of each thread, oldest first.
    ghost logs: { Self → List (List Entry) };

    /// How many cycles were started.
    ghost cycle_count: { Self → ℕ };

    /// How many units of marking and sweeping were made.
    ghost unit_count: { Self → ℕ };

    /// How many threads ran.
    fn threads(&self) -> u32
        ensures { result ≡ length (logs self.now) };

    /// The entries of thread `t`, oldest first.
    fn entries(&self, t: u32) -> &[Entry]
        requires { t < length (logs self.now) }
        ensures { result.now ≡ slice_index_or (logs self.now) t [] };

    /// How many cycles were started.
    fn cycles(&self) -> u64
        ensures { result ≡ cycle_count self.now };

    /// How many units of marking and sweeping were made.
    fn units(&self) -> u64
        ensures { result ≡ unit_count self.now };
}

/// Replay goes on by one item at the end, a legal history goes on by an item that is answered on
/// its replay, and each thread's part goes on by the part of what comes.
pub fn histories_grow()
    ensures replay { (c : Config) (h : List HistoryItem) (i : HistoryItem)
        → replay c (h ++ i ∷ []) ≡ after (replay c h) i }
    ensures legal { (c : Config) (h : List HistoryItem) (i : HistoryItem)
        → Legal c h → IsAnswered (replay c h) i → Legal c (h ++ i ∷ []) }
    ensures part { (t : ℕ) (h k : List HistoryItem) → part t (h ++ k) ≡ part t h ++ part t k }
{}
