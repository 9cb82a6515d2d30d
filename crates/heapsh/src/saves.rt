//! Heaps that are saved, loaded and renewed.

use crate::replies::{Said, push, push_number, push_refused};
use block_store::{Config, OutOfMemory};
use control_heap::ControlHeap;
use never_heap::{Command, Reply};
use saved_heap::{NotSaved, RenewFault, Renewal, load, picture_of, renew, save};
use std::alloc::Global;
use std::fmt::Write;

/// The bytes that were saved last, and the renewal that is under way.
#[derive(Drop)]
pub struct Saves {
    bytes: Vec<u8>,
    renewal: Option<Renewal>,
}

impl Saves {
    pub fn none(alloc: Global) -> Saves {
        Saves {
            bytes: Vec::new(alloc),
            renewal: None,
        }
    }

    /// Saves a heap.
    pub fn save(
        &mut self,
        alloc: Global,
        heap: &ControlHeap,
        rest: &[&str],
        out: &mut String,
    ) -> Said {
        if !rest.is_empty() {
            return Ok(false);
        }
        match save(alloc, heap) {
            Ok(bytes) => {
                replace_bytes(&mut self.bytes, bytes);
                push(out, "ok")
            }
            Err(fault) => push_not_saved(out, fault),
        }
    }

    /// Prints the bytes that were saved.
    pub fn push_bytes(&self, out: &mut String) -> Said {
        for byte in self.bytes.iter() {
            write!(out, "{byte:02x}")?;
        }
        Ok(true)
    }

    /// Changes bits of a saved byte.
    pub fn flip(&mut self, n: &[u64], out: &mut String) -> Said {
        let [place, mask] = n else {
            return Ok(false);
        };
        match self.bytes.get_mut(*place as usize) {
            Some(byte) => {
                *byte ^= (*mask % 256) as u8;
                push(out, "ok")
            }
            None => push(out, "no such byte"),
        }
    }

    /// Keeps so many of the saved bytes.
    pub fn cut(&mut self, n: &[u64], out: &mut String) -> Said {
        let [length] = n else {
            return Ok(false);
        };
        self.bytes.truncate(*length as usize);
        push(out, "ok")
    }

    /// Opens a heap from the saved bytes.
    pub fn load(
        &self,
        alloc: Global,
        config: Config,
        out: &mut String,
    ) -> Result<Option<ControlHeap>, OutOfMemory> {
        match load(alloc, self.bytes.as_slice(), config) {
            Ok(heap) => {
                push(out, "ok")?;
                Ok(Some(heap))
            }
            Err(fault) => {
                push_refused(out, fault.text())?;
                Ok(None)
            }
        }
    }

    /// How many of the fronts of the saved bytes, and of the texts that have bits of one byte
    /// changed, are loaded.
    pub fn damage(&mut self, alloc: Global, config: Config, mask: u8, out: &mut String) -> Said {
        let (fronts, changed) = self.damaged(alloc, config, mask);
        push_damaged(out, self.bytes.len(), fronts, changed)
    }

    fn damaged(&mut self, alloc: Global, config: Config, mask: u8) -> (u64, u64) {
        let (mut fronts, mut changed) = (0u64, 0u64);
        let length = self.bytes.len();
        for place in 0..length {
            let Some(front) = self.bytes.as_slice().get(..place) else {
                break;
            };
            if loads(alloc, front, config) {
                fronts = fronts.saturating_add(1);
            }
            change(self.bytes.as_mut_slice(), place, mask);
            if loads(alloc, self.bytes.as_slice(), config) {
                changed = changed.saturating_add(1);
            }
            change(self.bytes.as_mut_slice(), place, mask);
        }
        (fronts, changed)
    }

    /// Begins to copy a heap to a new one.
    pub fn begin(
        &mut self,
        alloc: Global,
        heap: &ControlHeap,
        config: Config,
        out: &mut String,
    ) -> Said {
        match begun(alloc, heap, config)? {
            Ok(renewal) => {
                let left = renewal.left();
                self.go_on(renewal);
                push_left(out, left)
            }
            Err(fault) => push_refused(out, fault.text()),
        }
    }

    /// Goes on with this renewal.
    pub fn go_on(&mut self, renewal: Renewal) {
        replace_renewal(&mut self.renewal, renewal);
    }

    /// Notes a command of the heap that is being copied.
    pub fn follow(
        &mut self,
        command: Command,
        reply: Option<Reply>,
        out: &mut String,
    ) -> Result<(), OutOfMemory> {
        let (Some(renewal), Some(reply)) = (&mut self.renewal, reply) else {
            return Ok(());
        };
        if !follows(renewal, command, reply) {
            push(out, ", and the copy is behind")?;
        }
        Ok(())
    }

    /// Makes room for so many commands that the copy is to follow.
    pub fn make_room(&mut self, n: &[u64], out: &mut String) -> Said {
        let ([commands], Some(renewal)) = (n, &mut self.renewal) else {
            return no_copy(n.len() == 1, out);
        };
        renewal.make_room(*commands as usize)?;
        push(out, "ok")
    }

    /// Does so many commands of the copy.
    pub fn copy(&mut self, n: &[u64], out: &mut String) -> Said {
        let ([most], Some(renewal)) = (n, &mut self.renewal) else {
            return no_copy(n.len() == 1, out);
        };
        match renewal.copy(*most as usize) {
            Ok(left) => push_left(out, left),
            Err(fault) => push_refused(out, fault.text()),
        }
    }

    /// Ends the copy, if it is whole.
    pub fn finish(&mut self, out: &mut String) -> Result<Option<ControlHeap>, OutOfMemory> {
        let Some(renewal) = self.renewal.take() else {
            no_copy(true, out)?;
            return Ok(None);
        };
        match renewal.finish() {
            Ok(heap) => {
                push(out, "ok")?;
                Ok(Some(heap))
            }
            Err(renewal) => {
                let left = renewal.left();
                self.go_on(renewal);
                push_number(out, "not whole, left", left as u64)?;
                Ok(None)
            }
        }
    }
}

fn replace_bytes(place: &mut Vec<u8>, bytes: Vec<u8>) {
    *place = bytes;
}

fn replace_renewal(place: &mut Option<Renewal>, renewal: Renewal) {
    *place = Some(renewal);
}

fn push_not_saved(out: &mut String, fault: NotSaved) -> Said {
    if matches!(fault, NotSaved::NoMemory) {
        return Err(OutOfMemory);
    }
    write!(out, "refused: {fault}")?;
    Ok(true)
}

fn push_damaged(out: &mut String, length: usize, fronts: u64, changed: u64) -> Said {
    write!(
        out,
        "of {length} fronts {fronts} loaded, of {length} changed {changed} loaded"
    )?;
    Ok(true)
}

fn loads(alloc: Global, bytes: &[u8], config: Config) -> bool {
    load(alloc, bytes, config).is_ok()
}

fn begun(
    alloc: Global,
    heap: &ControlHeap,
    config: Config,
) -> Result<Result<Renewal, RenewFault>, OutOfMemory> {
    let picture = picture_of(alloc, heap)?;
    Ok(Renewal::of(alloc, &picture, config))
}

fn follows(renewal: &mut Renewal, command: Command, reply: Reply) -> bool {
    renewal.follow(command, reply).is_ok()
}

/// Says that no copy is under way, unless the words mean nothing.
fn no_copy(is_understood: bool, out: &mut String) -> Said {
    push(out, "no copy is under way")?;
    Ok(is_understood)
}

fn push_left(out: &mut String, left: usize) -> Said {
    push_number(out, "left", left as u64)
}

fn change(bytes: &mut [u8], place: usize, mask: u8) {
    if let Some(byte) = bytes.get_mut(place) {
        *byte ^= mask;
    }
}

/// A new heap with what another shows.
pub fn renewed(
    alloc: Global,
    heap: &ControlHeap,
    config: Config,
    out: &mut String,
) -> Result<Option<ControlHeap>, OutOfMemory> {
    match renew(alloc, heap, config) {
        Ok(heap) => {
            push(out, "ok")?;
            Ok(Some(heap))
        }
        Err(fault) => {
            push_refused(out, fault.text())?;
            Ok(None)
        }
    }
}

/// Whether two heaps show one graph, up to the names of their objects.
pub fn are_alike(alloc: Global, a: &ControlHeap, b: &ControlHeap, out: &mut String) -> Said {
    let (a, b) = (picture_of(alloc, a)?, picture_of(alloc, b)?);
    push(out, if a == b { "alike" } else { "different" })
}
