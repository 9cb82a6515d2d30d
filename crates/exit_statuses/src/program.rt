//! What the `main` of each program does beside its top call.

ghost use Rattle.std.specs.Prelude.{◌≤◌, length};

use crate::program_words::{Question, words_of};
use crate::refusal::Refusal;
use crate::telling::refused;
use std::alloc::AllocError;
use std::io::{BufWriter, Write};
use std::process::ExitCode;
use std::rt::Env;
use trace_text::{Sink, StdSink, WRITE_FAULT, put_line};

/// The status of a question that was answered.
const DONE: u8 = 0;

/// What a program is called in its refusals, in at most 32 bytes, and what it says about itself.
#[derive(Clone, Copy, Debug)]
pub struct Program<'a> {
    pub name: &'a [u8],
    pub help: &'a str,
    pub version: &'a str,
}

impl Program<'_> {
    /// Answers a question about the program, or else makes the top call with the words after the
    /// program's name and a sink over the output. The call returns the status, or an error if
    /// memory ran out before it wrote anything: then the line of that refusal is written here.
    pub fn run<R: Env + AllocGlobal, W: Write + Drop, F>(
        self,
        rt: &R,
        output: W,
        call: F,
    ) -> ExitCode
    where
        F: FnOnce(&[String], &mut StdSink<W>) -> Result<u8, AllocError>,
        requires name { length self.name.now ≤ 32 }
        requires called { F.IsAlwaysCallable call }
    {
        let mut sink = StdSink::new(output);
        let answered = self.answer(rt, &mut sink, call);
        ExitCode::from(answered.unwrap_or_else(|_| self.without_memory(&mut sink)))
    }

    /// The same with a buffer: what is written goes out in large pieces, the last one at the end if
    /// no write failed.
    pub fn run_buffered<R: Env + AllocGlobal, W: Write + Drop, F>(
        self,
        rt: &R,
        mut output: W,
        call: F,
    ) -> ExitCode
    where
        F: FnOnce(&[String], &mut StdSink<&mut BufWriter<&mut W>>) -> Result<u8, AllocError>,
        requires name { length self.name.now ≤ 32 }
        requires called { F.IsAlwaysCallable call }
    {
        let answered = self.answer_buffered(rt, &mut output, call);
        let status = match answered {
            Ok(status) => status,
            Err(_) => self.without_memory(&mut StdSink::new(output)),
        };
        ExitCode::from(status)
    }

    fn answer<R: Env + AllocGlobal, W: Write + Drop, F>(
        self,
        rt: &R,
        sink: &mut StdSink<W>,
        call: F,
    ) -> Result<u8, AllocError>
    where
        F: FnOnce(&[String], &mut StdSink<W>) -> Result<u8, AllocError>,
        requires called { F.IsAlwaysCallable call }
    {
        let words = words_of(rt)?;
        match Question::of(&words) {
            Some(question) => Ok(self.reply(question, sink)),
            None => call(&words, sink),
        }
    }

    fn answer_buffered<R: Env + AllocGlobal, W: Write + Drop, F>(
        self,
        rt: &R,
        output: &mut W,
        call: F,
    ) -> Result<u8, AllocError>
    where
        F: FnOnce(&[String], &mut StdSink<&mut BufWriter<&mut W>>) -> Result<u8, AllocError>,
        requires called { F.IsAlwaysCallable call }
    {
        let words = words_of(rt)?;
        let mut out = BufWriter::new(rt.alloc(), output).map_err(|_| AllocError)?;
        let mut sink = StdSink::new(&mut out);
        let status = match Question::of(&words) {
            Some(question) => self.reply(question, &mut sink),
            None => call(&words, &mut sink)?,
        };
        if status != WRITE_FAULT && out.flush().is_err() {
            return Ok(WRITE_FAULT);
        }
        Ok(status)
    }

    fn reply<K: Sink>(self, question: Question, sink: &mut K) -> u8 {
        put_line(
            question.answer(self.help, self.version).as_bytes(),
            DONE,
            sink,
        )
    }

    fn without_memory<K: Sink>(self, sink: &mut K) -> u8
        requires name { length self.name.now ≤ 32 }
    {
        refused(Refusal::OutOfMemory, self.name, sink)
    }
}
