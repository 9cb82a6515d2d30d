//! A heap that is read, planned and copied in pieces, while it goes on.

use crate::replies::{Said, push, push_number, push_refused};
use block_store::OutOfMemory;
use control_heap::ControlHeap;
use never_heap::{Command, Reply};
use saved_heap::{NotBegun, Planning, Reading, Renewal};
use std::alloc::Global;

/// What is read or planned of a heap, and its commands since then.
#[derive(Drop)]
pub struct Pieces {
    reading: Option<Reading>,
    planning: Option<Planning>,
    // The commands of the copy, where its heap was refused.
    planned: Option<Vec<Command>>,
    kept: Vec<(Command, Reply)>,
}

impl Pieces {
    pub fn none(alloc: Global) -> Pieces {
        Pieces {
            reading: None,
            planning: None,
            planned: None,
            kept: Vec::new(alloc),
        }
    }

    /// Begins to read a heap.
    pub fn begin(&mut self, alloc: Global, heap: &ControlHeap, out: &mut String) -> Said {
        let reading = Reading::of(alloc, heap)?;
        self.forget();
        self.reading = Some(reading);
        push(out, "ok")
    }

    fn forget(&mut self) {
        self.reading = None;
        self.planning = None;
        self.planned = None;
        self.kept.clear();
    }

    /// Keeps a command of the heap for the copy, where one is under way.
    pub fn keep(&mut self, command: Command, reply: Option<Reply>) -> Result<(), OutOfMemory> {
        let is_going = self.reading.is_some() || self.planning.is_some() || self.planned.is_some();
        if let (true, Some(reply)) = (is_going, reply) {
            self.kept.push((command, reply))?;
        }
        Ok(())
    }

    /// Reads so many objects.
    pub fn read(&mut self, alloc: Global, n: &[u64], out: &mut String) -> Said {
        let ([most], Some(reading)) = (n, &mut self.reading) else {
            push(out, "nothing is read")?;
            return Ok(n.len() == 1);
        };
        let is_done = reading.step(alloc, *most as usize)?;
        push_number(out, "read", reading.read() as u64)?;
        push(
            out,
            if is_done {
                " and that is all"
            } else {
                " so far"
            },
        )
    }

    /// Plans so many turns of the copy of what was read.
    pub fn plan(&mut self, alloc: Global, n: &[u64], out: &mut String) -> Said {
        if let Some(reading) = self.reading.take() {
            self.turn_to_planning(alloc, reading);
        }
        let ([most], Some(planning)) = (n, &mut self.planning) else {
            push(out, "not all is read")?;
            return Ok(n.len() == 1);
        };
        push_number(out, "left", planning.step(*most as usize)? as u64)
    }

    fn turn_to_planning(&mut self, alloc: Global, reading: Reading) {
        match reading.finish() {
            Ok(picture) => {
                if picture.objects.len() <= 65_534 {
                    self.planning = Some(Planning::of(alloc, picture));
                }
            }
            Err(reading) => self.reading = Some(reading),
        }
    }

    /// The renewal that does what was planned on this heap, with room for the commands that were
    /// kept and for so many more. It returns the heap if it can't begin.
    pub fn onto(
        &mut self,
        spare: ControlHeap,
        room: usize,
        out: &mut String,
    ) -> Result<Result<Renewal, ControlHeap>, OutOfMemory> {
        let Some(commands) = self.take_plan() else {
            push(out, "not all is planned")?;
            return Ok(Err(spare));
        };
        match begun(spare, commands) {
            Ok(renewal) => {
                let renewal = self.followed(renewal, room)?;
                push_number(out, "left", renewal.left() as u64)?;
                Ok(Ok(renewal))
            }
            Err(
                NotBegun {
                    heap,
                    commands,
                    fault,
                },
            ) => {
                self.planned = Some(commands);
                push_refused(out, fault.text())?;
                Ok(Err(heap))
            }
        }
    }

    /// The renewal, which has followed the commands that were kept.
    fn followed(&mut self, renewal: Renewal, room: usize) -> Result<Renewal, OutOfMemory> {
        let mut renewal = renewal;
        renewal.make_room(self.kept.len().saturating_add(room))?;
        for (command, reply) in self.kept.iter() {
            follow(&mut renewal, *command, *reply);
        }
        self.kept.clear();
        Ok(renewal)
    }

    fn take_plan(&mut self) -> Option<Vec<Command>> {
        if let Some(commands) = self.planned.take() {
            return Some(commands);
        }
        match self.planning.take()?.finish() {
            Ok(commands) => Some(commands),
            Err(planning) => {
                self.planning = Some(planning);
                None
            }
        }
    }
}

fn begun(heap: ControlHeap, commands: Vec<Command>) -> Result<Renewal, NotBegun> {
    Renewal::on(heap, commands)
}

fn follow(renewal: &mut Renewal, command: Command, reply: Reply) {
    let _followed = renewal.follow(command, reply);
}
