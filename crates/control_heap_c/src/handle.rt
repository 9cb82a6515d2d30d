//! The handle that C keeps, and the heap of one thread that it owns.

ghost use Rattle.std.specs.Prelude.{◌≡◌, eqb, is_some, Some, None, MatchOption, IfOk, IfErr};
ghost use Rattle.control_heap.specs.Refusals.{IsOpenFault};
ghost use Rattle.control_heap_c.specs.Links.{open_mark};
ghost use Rattle.control_heap_c.specs.Outcomes.{Became, BecameOpen, IsOpened, Shut, config_of, counts_of, heap_in, lent_words, open_status, width_of};

use crate::answer::Refusal;
use crate::link::Link;
use crate::owned::Owned;
use block_store::{Config, Width};
use control_heap::{ControlHeap, OpenFault};
use never_heap::{Command, Entry, Reply};
use std::alloc::Global;
use std::mem::{replace, size_of};

// What a heap takes in lent memory besides its blocks and the list of an object's blocks, in words:
// the five words before the blocks, lists of one command and one entry, the heap itself, and gaps
// for alignment.
const OTHER_WORDS: u64 = 128;

const _: () = prove!(
    10 * 8 + size_of::<Command>() + size_of::<Entry>() + size_of::<Owned>()
        <= 8 * OTHER_WORDS as usize
);

// An open handle begins with this number, and a closed one with any other.
const OPEN: u64 = 7_238_540_126_943_155_201;

/// What C keeps: a mark that says whether the handle is open, and the pointer.
#[repr(C)]
#[derive(Drop)]
pub struct Handle {
    mark: u64,
    link: Link,
    ghost told: { eqb mark open_mark ≡ is_some link.value },
}

/// Why no heap was opened.
#[derive(Clone, Copy, Debug, PartialEq, Eq)]
pub enum OpenRefusal {
    /// The handle already has a heap.
    Open,
    /// There is no such version.
    Version,
    /// The heap's own cause.
    Heap(OpenFault),
}

impl Handle {
    // A handle that owns nothing.
    pub(crate) fn closed(alloc: Global) -> Handle
        ensures { result.link.value ≡ None }
    {
        Handle {
            mark: 0,
            link: Link::none(alloc),
        }
    }

    // A handle with this value.
    pub(crate) fn of(value: Box<Owned>) -> Handle
        ensures { result.link.value ≡ Some value.value }
    {
        Handle {
            mark: OPEN,
            link: Link::of(value),
        }
    }

    // Whether it owns something.
    pub(crate) fn is_open(&self) -> bool
        ensures { result ≡ is_some self.now.link.value }
    {
        self.mark == OPEN
    }

    // The value, if there is one.
    pub(crate) fn into_box(self) -> Option<Box<Owned>>
        ensures { MatchOption result (self.link.value ≡ None)
            (λ b. self.link.value ≡ Some b.value) }
    {
        if self.is_open() {
            Some(self.link.into_box())
        } else {
            None
        }
    }
}

/// Asks a command of the heap of a handle.
///
/// # Errors
///
/// `Closed` if the handle has no heap of one thread, and otherwise those of `ControlHeap::ask`.
/// Nothing has changed then.
pub fn ask(alloc: Global, handle: &mut Handle, command: Command) -> Result<Reply, Refusal>
    ensures { Became handle.old.link.value command result handle.new.link.value }
{
    match replace(handle, Handle::closed(alloc)).into_box() {
        None => Err(Refusal::Closed),
        Some(owned) => {
            let (owned, outcome) = ask_box(owned, command);
            *handle = Handle::of(owned);
            outcome
        }
    }
}

// Asks a command of a heap, if this is one.
fn ask_box(owned: Box<Owned>, command: Command) -> (Box<Owned>, Result<Reply, Refusal>)
    ensures { Became (Some owned.value) command result.1 (Some result.0.value) }
{
    let mut owned = owned;
    let outcome = ask_owned(&mut owned, command);
    (owned, outcome)
}

fn ask_owned(owned: &mut Owned, command: Command) -> Result<Reply, Refusal>
    ensures { Became (Some owned.old) command result (Some owned.new) }
{
    match owned {
        Owned::Heap(heap) => match heap.ask(command) {
            Ok(reply) => Ok(reply),
            Err(refused) => Err(Refusal::Heap(refused)),
        },
        _ => Err(Refusal::Closed),
    }
}

/// Opens a heap in a closed handle.
///
/// # Errors
///
/// The first of these that applies: `Open` if the handle has a heap; `Version` if the version is
/// neither 1 nor 2; and those of `ControlHeap::open`. Nothing has changed then.
pub fn open(
    alloc: Global,
    handle: &mut Handle,
    version: u32,
    blocks: u32,
    live: u32,
    object: u32,
    shared: u32,
) -> Option<OpenRefusal>
    ensures { BecameOpen handle.old.link.value (width_of version)
        (λ w. config_of w blocks live object shared) result handle.new.link.value }
{
    match replace(handle, Handle::closed(alloc)).into_box() {
        Some(owned) => {
            *handle = Handle::of(owned);
            Some(OpenRefusal::Open)
        }
        None => match width_of(version) {
            None => Some(OpenRefusal::Version),
            Some(width) => {
                let config = Config {
                    width,
                    threads: 1,
                    blocks,
                    live,
                    object,
                    shared,
                };
                match opened(alloc, config) {
                    Err(fault) => Some(OpenRefusal::Heap(fault)),
                    Ok(heap) => {
                        *handle = Handle::of(heap);
                        None
                    }
                }
            }
        },
    }
}

/// The status of an opening.
pub fn open_told(refusal: Option<OpenRefusal>) -> u32
    ensures { result ≡ open_status refusal }
{
    match refusal {
        None => 0,
        Some(OpenRefusal::Heap(OpenFault::OutOfBounds)) => 2,
        Some(OpenRefusal::Open) => 4,
        Some(OpenRefusal::Version) => 5,
        Some(OpenRefusal::Heap(OpenFault::LiveTooSmall)) => 6,
        Some(OpenRefusal::Heap(OpenFault::NoRate)) => 7,
        Some(OpenRefusal::Heap(OpenFault::NoMemory)) => 8,
        Some(OpenRefusal::Heap(OpenFault::NotOneThread)) => 9,
    }
}

/// The width of a version.
pub fn width_of(version: u32) -> Option<Width>
    ensures { result ≡ width_of version }
{
    if version == 1 {
        return Some(Width::Four);
    }
    if version == 2 {
        return Some(Width::Eight);
    }
    None
}

/// How many words of 8 bytes a heap takes in lent memory; 0 if there is no such version.
pub fn lent_words(version: u32, blocks: u32, object: u32) -> u64
    ensures { result ≡ lent_words (width_of version) blocks object }
{
    let of_block = match width_of(version) {
        None => return 0,
        Some(Width::Four) => 7,
        Some(Width::Eight) => 11,
    };
    OTHER_WORDS + of_block * u64::from(blocks) + (u64::from(object) + 1) / 2
}

// A new heap in a box.
fn opened(alloc: Global, config: Config) -> Result<Box<Owned>, OpenFault>
    ensures fresh { IfOk result (λ b. IsOpened (Some config.width) (λ w. config)
        (heap_in (Some b.value))) }
    ensures refused { IfErr result (IsOpenFault config) }
{
    let heap = ControlHeap::open(alloc, config)?;
    match Box::new(alloc, Owned::Heap(heap)) {
        Ok(heap) => Ok(heap),
        Err(_) => Err(OpenFault::NoMemory),
    }
}

/// Drops the heap of a handle. Returns the status.
pub fn close(alloc: Global, handle: &mut Handle) -> u32
    ensures { Shut handle.old.link.value result handle.new.link.value }
{
    match replace(handle, Handle::closed(alloc)).into_box() {
        None => 1,
        Some(owned) => {
            if is_heap(&owned) {
                drop(owned);
                return 0;
            }
            *handle = Handle::of(owned);
            1
        }
    }
}

fn is_heap(owned: &Owned) -> bool
    ensures { result ≡ is_some (heap_in (Some owned.now)) }
{
    matches!(owned, Owned::Heap(_))
}

/// What is left of a heap's life, and how many commands it was asked.
#[derive(Clone, Copy, Debug, PartialEq, Eq)]
pub struct Counts {
    pub units: u64,
    pub objects: u64,
    pub asked: u64,
}

/// The counts of the heap of a handle; 0 if it has none.
pub fn counts_at(alloc: Global, handle: &mut Handle) -> Counts
    ensures told { result ≡ counts_of (heap_in handle.old.link.value) }
    ensures unchanged { handle.new.link.value ≡ handle.old.link.value }
{
    match replace(handle, Handle::closed(alloc)).into_box() {
        None => NO_COUNTS,
        Some(owned) => {
            let counts = counts_of(&owned);
            *handle = Handle::of(owned);
            counts
        }
    }
}

const NO_COUNTS: Counts = Counts {
    units: 0,
    objects: 0,
    asked: 0,
};

fn counts_of(owned: &Owned) -> Counts
    ensures { result ≡ counts_of (heap_in (Some owned.now)) }
{
    match owned {
        Owned::Heap(heap) => Counts {
            units: heap.units_left(),
            objects: heap.objects_left(),
            asked: heap.asked(),
        },
        _ => NO_COUNTS,
    }
}
