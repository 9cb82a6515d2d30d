//! The state of the shell, and what each line of commands does.

use crate::crews::Crews;
use crate::one_heap::OneHeap;
use crate::recording::Recording;
use crate::replies::Said;
use crate::stepper::Stepper;
use crate::trends::Trends;
use crate::usage::{explain, help};
use crate::words::words_of;
use block_store::OutOfMemory;
use std::alloc::Global;

/// The heaps of the shell, one of each kind.
#[derive(Drop)]
pub struct Shell {
    alloc: Global,
    one: OneHeap,
    trends: Trends,
    crews: Crews,
    recording: Recording,
    stepper: Stepper,
}

impl Shell {
    pub fn new(alloc: Global) -> Shell {
        Shell {
            alloc,
            one: OneHeap::none(alloc),
            trends: Trends::none(),
            crews: Crews::none(),
            recording: Recording::none(),
            stepper: Stepper::none(alloc),
        }
    }

    /// Does what a line says, and prints the reply. Returns whether the line is understood; the reply
    /// to one that is not says what is expected.
    pub fn answer(&mut self, line: &str, out: &mut String) -> Said {
        let words = words_of(self.alloc, line)?;
        if self.obey(words.as_slice(), out)? {
            return Ok(true);
        }
        out.clear();
        explain(self.alloc, line, words.as_slice(), out)?;
        Ok(false)
    }

    /// Does what words say. Returns whether they are understood, as most functions here do.
    fn obey(&mut self, words: &[&str], out: &mut String) -> Said {
        let Some((word, rest)) = words.split_first() else {
            return Ok(true);
        };
        match *word {
            "help" => help(rest, out),
            "trend" => self.trends.trend(self.alloc, rest, out),
            "count" => self.trends.count(self.alloc, rest, out),
            "shared" => self.crews.shared(self.alloc, rest, out),
            "worker" => self.crews.worker(self.alloc, rest, out),
            "system" => self.stepper.answer(self.alloc, rest, out),
            "record" => self.record(rest, out),
            _ => self.one.obey(word, rest, out),
        }
    }

    fn record(&mut self, rest: &[&str], out: &mut String) -> Said {
        if !matches!(rest, [word] if *word == "end") {
            return self.recording.answer(self.alloc, rest, out);
        }
        match self.recording.end(out)? {
            Some(heap) => self.one.take(heap),
            None => return Ok(false),
        }
        Ok(true)
    }
}
