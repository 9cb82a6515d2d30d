//! What words say of a shared heap and its workers.

use crate::crew::{Came, Crew, Deed};
use crate::heaps::one_command;
use crate::replies::{Said, push, push_line, push_number, push_refused, push_reply};
use crate::words::{config_of, numbers_of, one_number};
use block_store::OutOfMemory;
use never_heap::Command;
use std::alloc::Global;
use std::fmt::Write;

const AMID: &str = "a worker is amid a command, or lost; close it with some";

/// A command has no more events than this, unless it waits.
const MOST_EVENTS: u64 = 1_000_000_000;

/// In so many rounds the commands of all workers end, unless they wait for one that was lost.
const MOST_ROUNDS: u32 = 1_000_000;

/// The shared heap, if one is open.
#[derive(Drop)]
pub struct Crews {
    crew: Option<Crew>,
}

impl Crews {
    pub fn none() -> Crews {
        Crews { crew: None }
    }

    /// Does what words say of the heap. Returns whether they are understood.
    pub fn shared(&mut self, alloc: Global, words: &[&str], out: &mut String) -> Said {
        let Some((verb, rest)) = words.split_first() else {
            return Ok(false);
        };
        match *verb {
            "open" => self.open(alloc, rest, out),
            "close" => self.close(alloc, rest, out),
            "turns" => self.turns(alloc, rest, out),
            _ => Ok(false),
        }
    }

    fn open(&mut self, alloc: Global, words: &[&str], out: &mut String) -> Said {
        let Some(config) = config_of(words) else {
            return Ok(false);
        };
        match Crew::open(alloc, config) {
            Ok(crew) => {
                hold(&mut self.crew, crew);
                push(out, "ok")
            }
            Err(fault) => push_refused(out, fault.text()),
        }
    }

    fn close(&mut self, alloc: Global, words: &[&str], out: &mut String) -> Said {
        let Some((some, threads)) = words.split_first() else {
            return self.close_all(alloc, out);
        };
        let (true, Some(threads)) = (*some == "some", numbers_of(alloc, threads)?) else {
            return Ok(false);
        };
        let Some(crew) = self.crew.take() else {
            return no_heap(out);
        };
        push_closed(out, crew.close_some(alloc, threads.as_slice())?)
    }

    fn close_all(&mut self, alloc: Global, out: &mut String) -> Said {
        if let Some(crew) = &self.crew {
            if !crew.is_at_rest() {
                return push_refused(out, AMID);
            }
        }
        match self.crew.take() {
            Some(crew) => push_closed(out, crew.close()),
            None => no_heap(out),
        }
    }

    /// Lets all workers do a command, an event each in turn, so many times.
    fn turns(&mut self, alloc: Global, words: &[&str], out: &mut String) -> Said {
        let Some((times, rest)) = words.split_first() else {
            return Ok(false);
        };
        let (Ok(times), Some(command)) = (times.parse::<u32>(), one_command(alloc, rest)?) else {
            return Ok(false);
        };
        let Some(crew) = &mut self.crew else {
            return no_heap(out);
        };
        for _time in 0..times {
            out.clear();
            in_turns(alloc, crew, command, out)?;
        }
        Ok(true)
    }

    /// Does what words say of a worker. Returns whether they are understood.
    pub fn worker(&mut self, alloc: Global, words: &[&str], out: &mut String) -> Said {
        let Some(crew) = &mut self.crew else {
            return no_heap(out);
        };
        let Some((thread, rest)) = words.split_first() else {
            return Ok(false);
        };
        let (Ok(thread), Some((verb, rest))) = (thread.parse::<u32>(), rest.split_first()) else {
            return Ok(false);
        };
        match *verb {
            "start" => command(alloc, crew, thread, false, rest, out),
            "do" => command(alloc, crew, thread, true, rest, out),
            "poll" => poll(crew, thread, rest, out),
            _ => on_worker(crew, thread, verb, out),
        }
    }
}

fn no_heap(out: &mut String) -> Said {
    push(out, "no shared heap is open")
}

/// Prints how many cycles a heap had that is closed.
fn push_closed(out: &mut String, cycles: Option<u64>) -> Said {
    match cycles {
        Some(cycles) => push_number(out, "cycles", cycles),
        None => push(out, "closed without a worker"),
    }
}

/// Takes a heap in place of another.
fn hold(place: &mut Option<Crew>, crew: Crew) {
    *place = Some(crew);
}

/// Starts a command, and polls it to its end if that is wanted.
fn command(
    alloc: Global,
    crew: &mut Crew,
    thread: u32,
    is_polled: bool,
    words: &[&str],
    out: &mut String,
) -> Said {
    let Some(command) = one_command(alloc, words)? else {
        return Ok(false);
    };
    match crew.act(thread, Deed::Start(command))? {
        Came::Done if is_polled => act(crew, thread, Deed::Poll(MOST_EVENTS), out),
        came => push_came(out, came),
    }
}

/// Lets a worker act, and prints what came of it.
fn act(crew: &mut Crew, thread: u32, deed: Deed, out: &mut String) -> Said {
    push_came(out, crew.act(thread, deed)?)
}

fn poll(crew: &mut Crew, thread: u32, words: &[&str], out: &mut String) -> Said {
    match one_number(words) {
        Some(events) => act(crew, thread, Deed::Poll(events), out),
        None => Ok(false),
    }
}

fn on_worker(crew: &mut Crew, thread: u32, verb: &str, out: &mut String) -> Said {
    match verb {
        "stamp" => act(crew, thread, Deed::Stamp, out),
        "note" => act(crew, thread, Deed::Note, out),
        "learn" => act(crew, thread, Deed::Learn, out),
        "lose" => act(crew, thread, Deed::Lose, out),
        _ => push_gauge(crew, thread, verb, out),
    }
}

fn push_gauge(crew: &Crew, thread: u32, word: &str, out: &mut String) -> Said {
    match crew.gauge(thread, word) {
        Some(number) => push_number(out, word, number),
        None => Ok(false),
    }
}

fn push_came(out: &mut String, came: Came) -> Said {
    match came {
        Came::Replied(reply, work) => push_reply(out, reply, work),
        Came::Refused(refused) => push_refused(out, refused.text()),
        Came::Stamp(stamp) => push_number(out, "stamp", stamp),
        _ => push(out, text_of(came)),
    }
}

fn text_of(came: Came) -> &'static str {
    match came {
        Came::Waits => "not done",
        Came::NoWorker => "its worker is not between two commands",
        Came::NoCommand => "no command is under way",
        Came::NoNote => "no note was made",
        Came::NoThread => "no such thread",
        _ => "ok",
    }
}

/// All workers start a command and make an event each in turn, up to the end of the last. Prints
/// what came of it, thread by thread.
fn in_turns(alloc: Global, crew: &mut Crew, command: Command, out: &mut String) -> Said {
    let mut last = all_started(alloc, crew, command)?;
    go_round(crew, &mut last)?;
    push_each(out, last.as_slice())
}

fn all_started(alloc: Global, crew: &mut Crew, command: Command) -> Result<Vec<Came>, OutOfMemory> {
    let mut last = Vec::new(alloc);
    for thread in 0..crew.threads() {
        last.push(crew.act(thread, Deed::Start(command))?)?;
    }
    Ok(last)
}

/// Makes an event of each command under way in turn, until there is none.
fn go_round(crew: &mut Crew, last: &mut Vec<Came>) -> Result<(), OutOfMemory> {
    for _round in 0..MOST_ROUNDS {
        if !round(crew, last)? {
            break;
        }
    }
    Ok(())
}

/// An event of each command under way. Returns whether there was one.
fn round(crew: &mut Crew, last: &mut Vec<Came>) -> Result<bool, OutOfMemory> {
    let mut is_going = false;
    for thread in 0..crew.threads() {
        if crew.is_pending(thread) {
            is_going = true;
            let came = crew.act(thread, Deed::Poll(1))?;
            put(last, thread as usize, came);
        }
    }
    Ok(is_going)
}

fn put(list: &mut Vec<Came>, place: usize, came: Came) {
    if let Some(item) = list.get_mut(place) {
        *item = came;
    }
}

fn push_each(out: &mut String, last: &[Came]) -> Said {
    for thread in 0..last.len() {
        push_of_thread(out, thread, last[thread])?;
    }
    Ok(true)
}

fn push_of_thread(out: &mut String, thread: usize, came: Came) -> Said {
    push_line(out, "")?;
    write!(out, "{thread} ")?;
    push_came(out, came)
}
