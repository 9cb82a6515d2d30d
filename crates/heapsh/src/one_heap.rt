//! A heap of one thread, what is kept beside it, and what each word does to it.

use crate::heaps::{
    ask, commands_of, gauge, one_command, push_after, push_fields, push_gauge, push_live,
    push_most, push_register,
};
use crate::pieces::Pieces;
use crate::replies::{Said, push, push_refused, push_yes};
use crate::saves::{Saves, are_alike, renewed};
use crate::structures::Structures;
use crate::usage::is_known;
use crate::words::{command_of, config_of, numbers_of};
use block_store::{Config, OutOfMemory};
use control_heap::{ControlHeap, OpenFault};
use never_heap::{Command, Reply};
use std::alloc::Global;

const NO_HEAP: &str = "no heap is open";

const NO_NAME: &str = "no heap has this name";

/// A heap that is set aside.
#[derive(Drop)]
struct Aside {
    name: String,
    heap: ControlHeap,
}

/// A heap of one thread, with what is kept beside it.
#[derive(Drop)]
pub struct OneHeap {
    alloc: Global,
    heap: Option<ControlHeap>,
    structures: Structures,
    saves: Saves,
    pieces: Pieces,
    aside: Vec<Aside>,
}

impl OneHeap {
    pub fn none(alloc: Global) -> OneHeap {
        OneHeap {
            alloc,
            heap: None,
            structures: Structures::none(),
            saves: Saves::none(alloc),
            pieces: Pieces::none(alloc),
            aside: Vec::new(alloc),
        }
    }

    /// Does what words say. Returns whether they are understood, as most functions here do.
    pub fn obey(&mut self, word: &str, rest: &[&str], out: &mut String) -> Said {
        match word {
            "open" => self.open(rest, out),
            "close" => self.close(rest, out),
            "load" => self.load(rest, out),
            "aside" => self.set_aside(rest, out),
            "back" => self.take_back(rest, out),
            "repeat" => self.many(rest, out),
            "damage" => self.damage(rest, out),
            "onto" => self.onto(rest, out),
            _ => self.on_heap(word, rest, out),
        }
    }

    /// Takes this heap in place of its own.
    pub fn take(&mut self, heap: ControlHeap) {
        hold(&mut self.heap, heap);
    }

    fn damage(&mut self, rest: &[&str], out: &mut String) -> Said {
        match number_and_config(rest) {
            Some((mask, config)) => self.saves.damage(self.alloc, config, mask, out),
            None => Ok(false),
        }
    }

    /// Begins the copy that is planned: on a heap of its own, or on one that was set aside.
    fn onto(&mut self, rest: &[&str], out: &mut String) -> Said {
        match rest {
            [heap, name] if *heap == "heap" => self.onto_aside(name, out),
            _ => self.onto_new(rest, out),
        }
    }

    fn onto_new(&mut self, rest: &[&str], out: &mut String) -> Said {
        let Some((room, config)) = number_and_config(rest) else {
            return Ok(false);
        };
        match opened(self.alloc, config) {
            Ok(spare) => {
                let _used = self.begin_on(spare, usize::from(room), out)?;
                Ok(true)
            }
            Err(fault) => push_refused(out, fault.text()),
        }
    }

    fn onto_aside(&mut self, name: &str, out: &mut String) -> Said {
        let Some(found) = found_aside(&mut self.aside, name) else {
            return push(out, NO_NAME);
        };
        if let Some(heap) = self.begin_on(found.heap, 0, out)? {
            self.aside.push(Aside {
                name: found.name,
                heap,
            })?;
        }
        Ok(true)
    }

    /// Begins the copy that is planned on this heap, which it returns if it is refused.
    fn begin_on(
        &mut self,
        spare: ControlHeap,
        room: usize,
        out: &mut String,
    ) -> Result<Option<ControlHeap>, OutOfMemory> {
        match self.pieces.onto(spare, room, out)? {
            Ok(renewal) => {
                self.saves.go_on(renewal);
                Ok(None)
            }
            Err(spare) => Ok(Some(spare)),
        }
    }

    fn open(&mut self, words: &[&str], out: &mut String) -> Said {
        let Some(config) = config_of(words) else {
            return Ok(false);
        };
        match opened(self.alloc, config) {
            Ok(heap) => {
                hold(&mut self.heap, heap);
                push(out, "ok")
            }
            Err(fault) => push_refused(out, fault.text()),
        }
    }

    fn close(&mut self, rest: &[&str], out: &mut String) -> Said {
        self.heap = None;
        self.structures = Structures::none();
        push(out, "ok")?;
        Ok(rest.is_empty())
    }

    fn load(&mut self, words: &[&str], out: &mut String) -> Said {
        let Some(config) = config_of(words) else {
            return Ok(false);
        };
        if let Some(heap) = self.saves.load(self.alloc, config, out)? {
            hold(&mut self.heap, heap);
        }
        Ok(true)
    }

    /// Sets the heap aside under a name.
    fn set_aside(&mut self, words: &[&str], out: &mut String) -> Said {
        let [name] = words else {
            return Ok(false);
        };
        match self.heap.take() {
            Some(heap) => add_aside(self.alloc, &mut self.aside, name, heap, out),
            None => push(out, NO_HEAP),
        }
    }

    /// Takes back the heap of a name.
    fn take_back(&mut self, words: &[&str], out: &mut String) -> Said {
        let [name] = words else {
            return Ok(false);
        };
        match found_aside(&mut self.aside, name) {
            Some(found) => {
                hold(&mut self.heap, found.heap);
                push(out, "ok")
            }
            None => push(out, NO_NAME),
        }
    }

    fn on_heap(&mut self, word: &str, rest: &[&str], out: &mut String) -> Said {
        let alloc = self.alloc;
        let Some(heap) = &mut self.heap else {
            return no_heap(word, out);
        };
        match word {
            "text" => push_text(alloc, heap, rest, out),
            "dot" => push_dot(alloc, heap, rest, out),
            "save" => self.saves.save(alloc, heap, rest, out),
            "alike" => alike(alloc, heap, &self.aside, rest, out),
            "most" => most(alloc, heap, rest, out),
            "renew" => renew(alloc, heap, rest, out),
            "renewal" => begin(alloc, heap, &mut self.saves, rest, out),
            _ => self.with_numbers(word, rest, out),
        }
    }

    fn with_numbers(&mut self, word: &str, rest: &[&str], out: &mut String) -> Said {
        if let Some((verb, operands)) = rest.split_first() {
            if verb.parse::<u64>().is_err() {
                return self.on_structure(word, verb, operands, out);
            }
        }
        match numbers_of(self.alloc, rest)? {
            Some(numbers) => self.simple(word, numbers.as_slice(), out),
            None => Ok(false),
        }
    }

    fn on_structure(
        &mut self,
        kind: &str,
        verb: &str,
        operands: &[&str],
        out: &mut String,
    ) -> Said {
        let (Some(heap), Some(numbers)) = (&mut self.heap, numbers_of(self.alloc, operands)?) else {
            return Ok(false);
        };
        self.structures
            .call(heap, kind, verb, numbers.as_slice(), out)
    }

    fn simple(&mut self, word: &str, n: &[u64], out: &mut String) -> Said {
        if let Some(command) = command_of(word, n) {
            let _reply = self.ask(command, out)?;
            return Ok(true);
        }
        let Some(heap) = &mut self.heap else {
            return push(out, NO_HEAP);
        };
        match word {
            "register" => push_register(heap, n, out),
            "fields" => push_fields(heap, self.alloc, n, out),
            "reading" => self.pieces.begin(self.alloc, heap, out),
            "read" => self.pieces.read(self.alloc, n, out),
            "plan" => self.pieces.plan(self.alloc, n, out),
            "finish" => self.finish(out),
            _ => match gauge(heap, word) {
                Some(number) => push_gauge(word, number, n, out),
                None => self.on_saves(word, n, out),
            },
        }
    }

    fn on_saves(&mut self, word: &str, n: &[u64], out: &mut String) -> Said {
        match word {
            "bytes" => self.saves.push_bytes(out),
            "flip" => self.saves.flip(n, out),
            "cut" => self.saves.cut(n, out),
            "room" => self.saves.make_room(n, out),
            "copy" => self.saves.copy(n, out),
            _ => self.on_words(word, out),
        }
    }

    /// Prints a gauge that is no number.
    fn on_words(&mut self, word: &str, out: &mut String) -> Said {
        match (&self.heap, word) {
            (Some(heap), "live_at_start") => push_live(heap, out),
            (Some(heap), "unused") => push_yes(out, heap.is_unused()),
            _ => Ok(false),
        }
    }

    /// Does a command on the heap, and notes it for a copy that is under way. Returns the reply.
    fn ask(&mut self, command: Command, out: &mut String) -> Result<Option<Reply>, OutOfMemory> {
        let Some(heap) = &mut self.heap else {
            push(out, NO_HEAP)?;
            return Ok(None);
        };
        let reply = ask(heap, command, out)?;
        self.pieces.keep(command, reply)?;
        self.saves.follow(command, reply, out)?;
        Ok(reply)
    }

    /// Does some commands so many times.
    fn many(&mut self, words: &[&str], out: &mut String) -> Said {
        let Some((times, rest)) = words.split_first() else {
            return Ok(false);
        };
        let Ok(times) = times.parse::<u64>() else {
            return Ok(false);
        };
        match commands_of(self.alloc, rest)? {
            Some(commands) => self.repeat(times, commands.as_slice(), out),
            None => Ok(false),
        }
    }

    /// Does some commands so many times, up to the first `full` or refusal. Prints the last reply,
    /// and which command it is of.
    fn repeat(&mut self, times: u64, commands: &[Command], out: &mut String) -> Said {
        let mut asked = 0u64;
        for _ in 0..times {
            for command in commands {
                out.clear();
                asked = asked.saturating_add(1);
                let reply = self.ask(*command, out)?;
                if matches!(reply, None | Some(Reply::Full(_))) {
                    return push_after(out, asked);
                }
            }
        }
        push_after(out, asked)
    }

    fn finish(&mut self, out: &mut String) -> Said {
        if let Some(heap) = self.saves.finish(out)? {
            hold(&mut self.heap, heap);
        }
        Ok(true)
    }
}

/// Takes a heap in place of another.
fn hold(place: &mut Option<ControlHeap>, heap: ControlHeap) {
    *place = Some(heap);
}

fn opened(alloc: Global, config: Config) -> Result<ControlHeap, OpenFault> {
    ControlHeap::open(alloc, config)
}

/// Says that no heap is open, where the word is one of a heap.
fn no_heap(word: &str, out: &mut String) -> Said {
    if is_known(word) {
        push(out, NO_HEAP)
    } else {
        Ok(false)
    }
}

/// Sets a heap aside, in place of one of the same name.
fn add_aside(
    alloc: Global,
    aside: &mut Vec<Aside>,
    name: &str,
    heap: ControlHeap,
    out: &mut String,
) -> Said {
    let _old = found_aside(aside, name);
    let name = String::from_str(alloc, name)?;
    aside.push(Aside { name, heap })?;
    push(out, "ok")
}

/// Removes the heap that was set aside under a name.
fn found_aside(aside: &mut Vec<Aside>, name: &str) -> Option<Aside> {
    for place in 0..aside.len() {
        if aside[place].name.as_str() == name {
            return Some(aside.remove(place));
        }
    }
    None
}

fn push_text(alloc: Global, heap: &ControlHeap, rest: &[&str], out: &mut String) -> Said {
    push_trimmed(out, heap.text(alloc)?.as_str())?;
    Ok(rest.is_empty())
}

fn push_dot(alloc: Global, heap: &ControlHeap, rest: &[&str], out: &mut String) -> Said {
    push_trimmed(out, heap.dot(alloc)?.as_str())?;
    Ok(rest.is_empty())
}

/// A number below 256 and a configuration.
fn number_and_config(words: &[&str]) -> Option<(u8, Config)> {
    let (number, rest) = words.split_first()?;
    Some((number.parse::<u8>().ok()?, config_of(rest)?))
}

/// A text without its last line feed.
fn push_trimmed(out: &mut String, text: &str) -> Result<(), OutOfMemory> {
    out.push_str(text.strip_suffix("\n").unwrap_or(text))?;
    Ok(())
}

fn alike(
    alloc: Global,
    heap: &ControlHeap,
    aside: &[Aside],
    words: &[&str],
    out: &mut String,
) -> Said {
    let [name] = words else {
        return Ok(false);
    };
    for other in aside {
        if other.name.as_str() == *name {
            return are_alike(alloc, heap, &other.heap, out);
        }
    }
    push(out, NO_NAME)
}

fn most(alloc: Global, heap: &ControlHeap, words: &[&str], out: &mut String) -> Said {
    match one_command(alloc, words)? {
        Some(command) => push_most(heap, command, out),
        None => Ok(false),
    }
}

fn renew(alloc: Global, heap: &mut ControlHeap, words: &[&str], out: &mut String) -> Said {
    let Some(config) = config_of(words) else {
        return Ok(false);
    };
    if let Some(new) = renewed(alloc, heap, config, out)? {
        replace_heap(heap, new);
    }
    Ok(true)
}

fn replace_heap(place: &mut ControlHeap, heap: ControlHeap) {
    *place = heap;
}

fn begin(
    alloc: Global,
    heap: &ControlHeap,
    saves: &mut Saves,
    words: &[&str],
    out: &mut String,
) -> Said {
    match config_of(words) {
        Some(config) => saves.begin(alloc, heap, config, out),
        None => Ok(false),
    }
}
