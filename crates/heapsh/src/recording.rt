//! A heap that writes down its commands as the text of a job.

use crate::heaps::one_command;
use crate::replies::{Said, push, push_number, push_refused, push_reply};
use crate::words::config_of;
use block_store::{Config, OutOfMemory};
use control_heap::{ControlHeap, OpenFault};
use never_heap::{Command, Reply};
use saved_heap::{Ended, RecordFault, Recorder};
use std::alloc::Global;
use std::fmt::Write;
use trace_text::MemSink;

/// The longest record, in bytes.
const ROOM: usize = 1 << 20;

/// The heap that records, if one is open.
#[derive(Drop)]
pub struct Recording {
    recorder: Option<Recorder<MemSink>>,
}

impl Recording {
    pub fn none() -> Recording {
        Recording { recorder: None }
    }

    /// Does what words say of a record. Returns whether they are understood.
    pub fn answer(&mut self, alloc: Global, words: &[&str], out: &mut String) -> Said {
        let Some((verb, rest)) = words.split_first() else {
            return Ok(false);
        };
        match *verb {
            "open" => self.open(alloc, None, rest, out),
            "failing" => self.open_failing(alloc, rest, out),
            _ => self.on_recorder(alloc, words, out),
        }
    }

    fn open_failing(&mut self, alloc: Global, words: &[&str], out: &mut String) -> Said {
        let Some((call, rest)) = words.split_first() else {
            return Ok(false);
        };
        match call.parse::<u64>() {
            Ok(call) => self.open(alloc, Some(call), rest, out),
            Err(_) => Ok(false),
        }
    }

    fn open(
        &mut self,
        alloc: Global,
        failing: Option<u64>,
        words: &[&str],
        out: &mut String,
    ) -> Said {
        let Some(config) = config_of(words) else {
            return Ok(false);
        };
        let sink = sink(alloc, failing)?;
        match opened(alloc, config, sink) {
            Ok(recorder) => {
                hold(&mut self.recorder, recorder);
                push(out, "ok")
            }
            Err(fault) => push_refused(out, fault.text()),
        }
    }

    fn on_recorder(&mut self, alloc: Global, words: &[&str], out: &mut String) -> Said {
        let Some(recorder) = &mut self.recorder else {
            return push(out, "no record is open");
        };
        if let [word] = words {
            return push_count(recorder, word, out);
        }
        match one_command(alloc, words)? {
            Some(command) => ask(recorder, command, out),
            None => Ok(false),
        }
    }

    /// Prints the record and returns its heap, if a record is open.
    pub fn end(&mut self, out: &mut String) -> Result<Option<ControlHeap>, OutOfMemory> {
        match self.recorder.take() {
            Some(recorder) => Ok(Some(ended(recorder, out)?)),
            None => Ok(None),
        }
    }
}

/// Takes a recorder in place of another.
fn hold(place: &mut Option<Recorder<MemSink>>, recorder: Recorder<MemSink>) {
    *place = Some(recorder);
}

fn ended(recorder: Recorder<MemSink>, out: &mut String) -> Result<ControlHeap, OutOfMemory> {
    let Ended { heap, sink, whole } = recorder.end();
    if let Ok(text) = str::from_utf8(sink.bytes()) {
        push(out, text)?;
    }
    push(out, if whole { "whole" } else { "not whole" })?;
    Ok(heap)
}

/// A sink of which one write may fail.
fn sink(alloc: Global, failing: Option<u64>) -> Result<MemSink, OutOfMemory> {
    let mut fail = Vec::new(alloc);
    if let Some(call) = failing {
        fail.push(call)?;
    }
    MemSink::new(alloc, ROOM, fail)
}

fn opened(alloc: Global, config: Config, sink: MemSink) -> Result<Recorder<MemSink>, OpenFault> {
    let heap = ControlHeap::open(alloc, config)?;
    Ok(Recorder::new(heap, sink))
}

fn push_count(recorder: &Recorder<MemSink>, word: &str, out: &mut String) -> Said {
    match word {
        "asked" => push_number(out, word, commands(recorder)),
        "recorded" => push_number(out, word, recorded(recorder)),
        _ => Ok(false),
    }
}

fn commands(recorder: &Recorder<MemSink>) -> u64 {
    recorder.heap().asked()
}

fn recorded(recorder: &Recorder<MemSink>) -> u64 {
    u64::from(recorder.recorded())
}

fn units(recorder: &Recorder<MemSink>) -> u64 {
    recorder.heap().units_made()
}

fn ask(recorder: &mut Recorder<MemSink>, command: Command, out: &mut String) -> Said {
    let before = units(recorder);
    match asked(recorder, command) {
        Ok(reply) => push_reply(out, reply, units(recorder).saturating_sub(before)),
        Err(fault) => push_fault(out, fault),
    }
}

fn push_fault(out: &mut String, fault: RecordFault) -> Said {
    write!(out, "refused: {fault}")?;
    Ok(true)
}

fn asked(recorder: &mut Recorder<MemSink>, command: Command) -> Result<Reply, RecordFault> {
    recorder.ask(command)
}
