//! The heap with its record: its beginning, asking, and its end.

ghost use Rattle.std.specs.Prelude.{◌≡◌, [], true, false, IfOk, IfErr, OnOk, OnErr};
ghost use Rattle.trace_text.specs.Faults.{Rose};
ghost use Rattle.trace_text.specs.Streams.{Appends, AppendsPrefix};
ghost use Rattle.trace_text.specs.Spellings.{command_line};
ghost use Rattle.trace_text.specs.JobTexts.{line_text};
ghost use Rattle.control_heap.specs.Controls.{CanOpen, asked};
ghost use Rattle.control_heap.specs.Calls.{MayAnswer};
ghost use Rattle.saved_heap.specs.recorded_heap.Recording.{IsOpened, IsWhole, RecordsOne, IsRecordFault, text_so_far};

use block_store::Config;
use control_heap::{ControlHeap, Refused};
use never_heap::{Command, Reply};
use std::error::Error;
use std::fmt;
use std::marker::Model;
use trace_text::{Failed, LineBuffer, Sink, fill_command, line_of_config, line_of_thread};

// The most commands of a job.
const MOST_COMMANDS: u32 = 131_072;

/// Why a recorder does not do a command. The heap is then unchanged. Its printed text also says
/// what to do.
#[derive(Clone, Copy, Debug, PartialEq, Eq)]
pub enum RecordFault {
    /// The heap refuses the command. Nothing is written.
    Refused(Refused),
    /// The record has 131,072 commands, the most of a job. Nothing is written.
    RecordFull,
    /// A write failed, in this call or in an earlier one. A prefix of a line may be written.
    Unwritten,
}

/// A heap that writes each command before it does it, so that what it did is always on record.
///
/// The record is the text of a job of one thread, which begins with the heap's configuration. The
/// sink is its own.
#[derive(Drop)]
pub struct Recorder<S> {
    heap: ControlHeap,
    sink: S,
    // How many commands are written.
    count: u32,
    // A write has failed.
    torn: bool,
}

impl<S> Model for Recorder<S> {
    ghost use Rattle.saved_heap.specs.recorded_heap.Recording.{RecorderOf};

    ghost Value = { RecorderOf S };

    ghost view = { λ r. record { heap = r.heap; sink = r.sink; count = r.count; torn = r.torn } };
}

/// What is left of a recorder: its heap and its sink, and whether the record is a whole job.
#[derive(Drop)]
pub struct Ended<S> {
    pub heap: ControlHeap,
    pub sink: S,
    pub whole: bool,
}

impl<S: Sink + Drop> Recorder<S> {
    /// Begins the record of a heap that has done no command: writes the first two lines. Where that
    /// fails, the recorder is torn, and does no command.
    pub fn new(heap: ControlHeap, sink: S) -> Recorder<S>
        requires can { CanOpen heap.config }
        requires fresh { asked heap ≡ 0 }
        ensures heap { result.heap ≡ heap }
        ensures recorded { IsOpened S.held S.faults sink result }
    {
        let mut sink = sink;
        let torn = write_first(heap.config(), &mut sink).is_err();
        Recorder {
            heap,
            sink,
            count: 0,
            torn,
        }
    }

    /// Writes a command, does it and returns its reply, or refuses it.
    ///
    /// # Errors
    ///
    /// The first that applies: `Unwritten` where an earlier write failed; `Refused` as for
    /// `ControlHeap::ask`; `RecordFull` where the record has 131,072 commands; `Unwritten` where
    /// the write fails. The heap is then unchanged.
    pub fn ask(&mut self, command: Command) -> Result<Reply, RecordFault>
        ensures config { self.new.heap.config ≡ self.old.heap.config }
        ensures fits { IfOk result (MayAnswer command) }
        ensures recorded { IfOk result (λ reply.
            RecordsOne S.held self.old command reply self.new) }
        ensures refused { IfErr result (λ fault.
            IsRecordFault S.held S.faults self.old command self.new fault) }
        ensures unchanged { OnErr result (self.new.heap ≡ self.old.heap) }
    {
        if self.torn {
            return Err(RecordFault::Unwritten);
        }
        if !command.in_bounds(self.heap.config()) {
            return Err(RecordFault::Refused(Refused::OutOfBounds));
        }
        if !self.heap.has_left(&command) {
            return Err(RecordFault::Refused(Refused::NoLifeLeft));
        }
        if self.count >= MOST_COMMANDS {
            return Err(RecordFault::RecordFull);
        }
        if write_command(&command, &mut self.sink).is_err() {
            self.torn = true;
            return Err(RecordFault::Unwritten);
        }
        self.count += 1;
        Ok(self.heap.request(command))
    }

    /// The heap, for its gauges.
    pub fn heap(&self) -> &ControlHeap
        ensures { result.now ≡ self.now.heap }
    {
        &self.heap
    }

    /// How many commands are on record, at most 131,072.
    pub fn recorded(&self) -> u32
        ensures { result ≡ self.now.count }
    {
        self.count
    }

    /// Whether a write has failed. Then no command is done any more.
    pub fn is_torn(&self) -> bool
        ensures { result ≡ self.now.torn }
    {
        self.torn
    }

    /// Writes the last line of the record. The heap is unchanged. Where a write failed, now or
    /// earlier, the record is not whole.
    pub fn end(self) -> Ended<S>
        ensures heap { result.heap ≡ self.heap }
        ensures whole { result.whole ≡ true → IsWhole S.held self result.sink }
        ensures torn { result.whole ≡ false → self.torn ≡ false
            → Rose (S.faults self.sink) (S.faults result.sink) }
    {
        let Recorder {
            heap,
            mut sink,
            count: _,
            torn,
        } = self;
        let whole = !torn && sink.put(b"end\n").is_ok();
        Ended { heap, sink, whole }
    }
}

// Writes the line of the configuration, and that of thread 0.
fn write_first<S: Sink>(c: &Config, sink: &mut S) -> Result<(), Failed>
    ensures written { OnOk result
        (Appends (S.held sink.old) (S.held sink.new) (text_so_far c.now [])) }
    ensures rose { OnErr result (Rose (S.faults sink.old) (S.faults sink.new)) }
{
    sink.put(line_of_config(c).bytes())?;
    sink.put(line_of_thread(0).bytes())
}

// Writes the line of a command.
fn write_command<S: Sink>(command: &Command, sink: &mut S) -> Result<(), Failed>
    ensures written { OnOk result
        (Appends (S.held sink.old) (S.held sink.new) (line_text (command_line command.now))) }
    ensures prefix { OnErr result
        (AppendsPrefix (S.held sink.old) (S.held sink.new) (line_text (command_line command.now))) }
    ensures rose { OnErr result (Rose (S.faults sink.old) (S.faults sink.new)) }
{
    let mut line = LineBuffer::new();
    fill_command(&mut line, command);
    sink.put(line.bytes())
}

impl fmt::Display for RecordFault {
    fn fmt<W: fmt::Write>(&self, f: &mut fmt::Formatter<W>) -> fmt::Result {
        match self {
            RecordFault::Refused(refused) => f.write_str(refused.text()),
            RecordFault::RecordFull => f.write_str(
                "record full: it has 131,072 commands; end it and ask the heap itself",
            ),
            RecordFault::Unwritten => f.write_str(
                "unwritten: a write failed; end the record and ask the heap itself",
            ),
        }
    }
}

impl Error for RecordFault {}
