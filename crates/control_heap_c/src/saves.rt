//! Heaps as bytes in memory of the caller, and heaps that are opened from such bytes.

ghost use Rattle.std.specs.Prelude.{◌≡◌, Some, IfOk, IfErr};
ghost use Rattle.control_heap_c.specs.Outcomes.{config_of, heap_in, open_status, width_of};
ghost use Rattle.control_heap_c.specs.Saves.{BecameLoaded, HasKept, HasSaved, IsLoaded, IsNotBuilt, build_number, build_status, bytes_number, bytes_status, load_number, load_status, save_length, save_status};
ghost use Rattle.control_heap_c.specs.declared.handle.OpenRefusal.TheVariants as opening;

use crate::buffers::copied;
use crate::handle::{Handle, OpenRefusal, open_told, width_of};
use crate::owned::Owned;
use block_store::Config;
use control_heap::{ControlHeap, OpenFault, Refused};
use saved_heap::{CopyFault, LoadFault, NotSaved, RenewFault, SaveFault, load, save};
use std::alloc::Global;
use std::mem::replace;

/// Why a heap was not saved.
#[derive(Clone, Copy, Debug, PartialEq, Eq)]
pub enum SaveRefusal {
    /// The handle has no heap.
    Closed,
    /// The heap's own cause.
    Heap(NotSaved),
    /// The caller's memory is too small for the bytes, which are so many.
    TooSmall(u64),
}

/// Saves the heap of a handle. Returns how many bytes that takes.
pub fn save_to(alloc: Global, handle: &mut Handle, out: &mut [u8]) -> Result<u64, SaveRefusal>
    ensures saved { HasSaved (heap_in handle.old.link.value) out.old out.new result }
    ensures unchanged { handle.new.link.value ≡ handle.old.link.value }
{
    match replace(handle, Handle::closed(alloc)).into_box() {
        None => Err(SaveRefusal::Closed),
        Some(owned) => {
            let outcome = saved_in(alloc, &owned, out);
            *handle = Handle::of(owned);
            outcome
        }
    }
}

fn saved_in(alloc: Global, owned: &Owned, out: &mut [u8]) -> Result<u64, SaveRefusal>
    ensures { HasSaved (heap_in (Some owned.now)) out.old out.new result }
{
    match owned {
        Owned::Heap(heap) => kept(alloc, heap, out),
        _ => Err(SaveRefusal::Closed),
    }
}

fn kept(alloc: Global, heap: &ControlHeap, out: &mut [u8]) -> Result<u64, SaveRefusal>
    ensures { HasKept heap.now out.old out.new result }
{
    match save(alloc, heap) {
        Err(cause) => Err(SaveRefusal::Heap(cause)),
        Ok(bytes) => match copied(&bytes, out) {
            Ok(count) => Ok(count),
            Err(count) => Err(SaveRefusal::TooSmall(count)),
        },
    }
}

/// Writes how many bytes there are, or of a heap that is too large how many objects, and returns
/// the status.
pub fn save_told(outcome: Result<u64, SaveRefusal>, length: &mut u64) -> u32
    ensures status { result ≡ save_status outcome }
    ensures length { length.new ≡ save_length outcome length.old }
{
    match outcome {
        Ok(count) => {
            *length = count;
            0
        }
        Err(SaveRefusal::Closed) => 1,
        Err(SaveRefusal::Heap(NotSaved::NoMemory)) => 8,
        Err(SaveRefusal::TooSmall(count)) => {
            *length = count;
            15
        }
        Err(SaveRefusal::Heap(NotSaved::TooLarge { objects })) => {
            *length = objects;
            31
        }
    }
}

/// Why no heap was loaded.
#[derive(Clone, Copy, Debug, PartialEq, Eq)]
pub enum LoadRefusal {
    /// The handle already has a heap.
    Open,
    /// There is no such version.
    Version,
    /// Why `load` opened none.
    Heap(LoadFault),
}

/// Opens in a closed handle a heap that shows what was saved as bytes.
pub fn load_from(
    alloc: Global,
    handle: &mut Handle,
    bytes: &[u8],
    version: u32,
    blocks: u32,
    live: u32,
    object: u32,
    shared: u32,
) -> Option<LoadRefusal>
    ensures { BecameLoaded handle.old.link.value bytes.now (width_of version)
        (λ w. config_of w blocks live object shared) result handle.new.link.value }
{
    match replace(handle, Handle::closed(alloc)).into_box() {
        Some(owned) => {
            *handle = Handle::of(owned);
            Some(LoadRefusal::Open)
        }
        None => match width_of(version) {
            None => Some(LoadRefusal::Version),
            Some(width) => {
                let config = Config {
                    width,
                    threads: 1,
                    blocks,
                    live,
                    object,
                    shared,
                };
                match loaded(alloc, bytes, config) {
                    Err(fault) => Some(LoadRefusal::Heap(fault)),
                    Ok(heap) => {
                        *handle = Handle::of(heap);
                        None
                    }
                }
            }
        },
    }
}

// A loaded heap in a box.
fn loaded(alloc: Global, bytes: &[u8], config: Config) -> Result<Box<Owned>, LoadFault>
    ensures shown { IfOk result (λ b. IsLoaded bytes.now config (heap_in (Some b.value))) }
    ensures refused { IfErr result (IsNotBuilt bytes.now config) }
{
    let heap = load(alloc, bytes, config)?;
    match Box::new(alloc, Owned::Heap(heap)) {
        Ok(heap) => Ok(heap),
        Err(_) => Err(LoadFault::Build(RenewFault::NoMemory)),
    }
}

/// Writes the number of a refusal that has one, and returns the status.
pub fn load_told(refusal: Option<LoadRefusal>, number: &mut u64) -> u32
    ensures status { result ≡ load_status refusal }
    ensures number { number.new ≡ load_number refusal number.old }
{
    match refusal {
        None => 0,
        Some(LoadRefusal::Open) => 4,
        Some(LoadRefusal::Version) => 5,
        Some(LoadRefusal::Heap(LoadFault::Bytes(fault))) => bytes_told(fault, number),
        Some(LoadRefusal::Heap(LoadFault::Build(fault))) => build_told(fault, number),
    }
}

fn bytes_told(fault: SaveFault, number: &mut u64) -> u32
    ensures status { result ≡ bytes_status fault }
    ensures number { number.new ≡ bytes_number fault number.old }
{
    match fault {
        SaveFault::NotASave => 32,
        SaveFault::Version(version) => {
            *number = version;
            33
        }
        SaveFault::Torn => 34,
        SaveFault::Checksum => 35,
        SaveFault::Malformed => 36,
    }
}

fn build_told(fault: RenewFault, number: &mut u64) -> u32
    ensures status { result ≡ build_status fault }
    ensures number { number.new ≡ build_number fault number.old }
{
    match fault {
        RenewFault::NoMemory => 8,
        RenewFault::Open(fault) => open_fault_told(fault),
        RenewFault::Unsound => 36,
        RenewFault::TooManyObjects { objects } => {
            *number = objects;
            31
        }
        RenewFault::ObjectTooLarge { needed, .. } => {
            *number = u64::from(needed);
            37
        }
        RenewFault::LiveTooSmall { needed, .. } => {
            *number = needed;
            38
        }
        RenewFault::Copy(CopyFault::Full(_)) => 11,
        RenewFault::Copy(CopyFault::Refused(Refused::OutOfBounds)) => 2,
        RenewFault::Copy(CopyFault::Refused(Refused::NoLifeLeft)) => 3,
    }
}

fn open_fault_told(fault: OpenFault) -> u32
    ensures { result ≡ open_status (Some (opening.Heap fault)) }
{
    open_told(Some(OpenRefusal::Heap(fault)))
}
