//! An interactive heap: reads commands, one a line, and prints the reply to each.
#![tactic(auto)]

mod calls;
mod crew;
mod crews;
mod heaps;
mod help;
mod one_heap;
mod pieces;
mod recording;
mod replies;
mod saves;
mod shell;
mod stepper;
mod structures;
mod system;
mod trends;
mod usage;
mod words;

use block_store::OutOfMemory;
use exit_statuses::{Question, words_of};
use help::{HELP, VERSION};
use shell::Shell;
use std::alloc::AllocError;
use std::fmt::Write;
use std::io::{BufRead, BufReader, IsTerminal};
use std::process::ExitCode;
use trace_text::{StdSink, put_line};

/// Why the shell stops before the end of its input.
#[derive(Clone, Copy)]
enum Stop {
    Usage,
    ReadFault,
    WriteFault,
    NoMemory,
}

impl From<OutOfMemory> for Stop {
    fn from(_e: OutOfMemory) -> Stop {
        Stop::NoMemory
    }
}

impl From<AllocError> for Stop {
    fn from(_e: AllocError) -> Stop {
        Stop::NoMemory
    }
}

impl Stop {
    fn status(self) -> u8 {
        match self {
            Stop::Usage => 2,
            Stop::ReadFault => 5,
            Stop::WriteFault => 6,
            Stop::NoMemory => 7,
        }
    }
}

/// What a line of the input is. Only where lines are plain, a line that is not understood is named by
/// its number: the others show the line.
#[derive(Clone, Copy)]
enum Form {
    /// A command.
    Plain,
    /// A command after a prompt.
    Prompted,
    /// A command if it begins with `> `; a remark if it is empty or begins with `#`, and otherwise
    /// what was replied before.
    Script,
}

fn main(rt: HostRuntime) -> ExitCode {
    match start(&rt) {
        Ok(()) => ExitCode::SUCCESS,
        Err(stop) => ExitCode::from(stop.status()),
    }
}

fn start(rt: &HostRuntime) -> Result<(), Stop> {
    let words = words_of(rt)?;
    if let Some(question) = Question::of(&words) {
        return say(rt, question.answer(HELP, VERSION));
    }
    match form_of(&words, rt.stdin().is_terminal()) {
        Some(form) => run(rt, form),
        None => {
            say(rt, "heapsh: usage\n")?;
            Err(Stop::Usage)
        }
    }
}

fn form_of(words: &[String], is_terminal: bool) -> Option<Form> {
    let Some(word) = words.first() else {
        return Some(if is_terminal {
            Form::Prompted
        } else {
            Form::Plain
        });
    };
    match word.as_str() {
        "prompt" => Some(Form::Prompted),
        "script" => Some(Form::Script),
        _ => None,
    }
}

fn run(rt: &HostRuntime, form: Form) -> Result<(), Stop> {
    let mut shell = Shell::new(rt.alloc());
    let Ok(mut input) = BufReader::new(rt.alloc(), rt.stdin()) else {
        return Err(Stop::NoMemory);
    };
    tell_all(rt, &mut shell, form, &mut input)
}

fn tell_all(
    rt: &HostRuntime,
    shell: &mut Shell,
    form: Form,
    input: &mut impl BufRead,
) -> Result<(), Stop> {
    for number in 1..u64::MAX {
        if !tell_next(rt, shell, form, number, input)? {
            break;
        }
    }
    Ok(())
}

/// Reads a line and does what it says. Returns whether there was one.
fn tell_next(
    rt: &HostRuntime,
    shell: &mut Shell,
    form: Form,
    number: u64,
    input: &mut impl BufRead,
) -> Result<bool, Stop> {
    if matches!(form, Form::Prompted) {
        say(rt, "> ")?;
    }
    let mut line = String::new(rt.alloc());
    match input.read_line(&mut line) {
        Ok(0) => return Ok(false),
        Ok(_) => {}
        Err(_) => return Err(Stop::ReadFault),
    }
    let line = line.as_str();
    let line = line.strip_suffix("\n").unwrap_or(line);
    match form {
        Form::Script => tell_script(rt, shell, line)?,
        Form::Prompted => tell(rt, shell, None, line)?,
        Form::Plain => tell(rt, shell, Some(number), line)?,
    }
    Ok(true)
}

/// Does what a line says and prints the reply. If the line is not understood, the reply names its
/// number.
fn tell(rt: &HostRuntime, shell: &mut Shell, number: Option<u64>, line: &str) -> Result<(), Stop> {
    let mut reply = String::new(rt.alloc());
    let is_understood = shell.answer(line, &mut reply)?;
    if let (false, Some(number)) = (is_understood, number) {
        let mut named = String::new(rt.alloc());
        write!(named, "line {number}: {reply}")?;
        return say_line(rt, named);
    }
    say_line(rt, reply)
}

/// Prints a line of a script, unless it is a reply, and does what it says.
fn tell_script(rt: &HostRuntime, shell: &mut Shell, line: &str) -> Result<(), Stop> {
    match line.strip_prefix("> ") {
        Some(said) => {
            say_lent(rt, line)?;
            let mut reply = String::new(rt.alloc());
            shell.answer(said, &mut reply)?;
            if reply.is_empty() {
                Ok(())
            } else {
                say_line(rt, reply)
            }
        }
        None if line.is_empty() || line.starts_with("#") => say_lent(rt, line),
        None => Ok(()),
    }
}

fn say_lent(rt: &HostRuntime, line: &str) -> Result<(), Stop> {
    say_line(rt, String::from_str(rt.alloc(), line)?)
}

fn say_line(rt: &HostRuntime, mut line: String) -> Result<(), Stop> {
    line.push_str("\n")?;
    say(rt, line.as_str())
}

fn say(rt: &HostRuntime, text: &str) -> Result<(), Stop> {
    let mut sink = StdSink::new(rt.stdout());
    match put_line(text.as_bytes(), 0, &mut sink) {
        0 => Ok(()),
        _ => Err(Stop::WriteFault),
    }
}
