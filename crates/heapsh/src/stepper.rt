//! What words say of a job whose threads make their events one by one.

use crate::heaps::commands_of;
use crate::replies::{
    Said, push, push_line, push_next, push_number, push_refused, push_reply, push_yes,
};
use crate::system::{Held, NotOpened, system_of};
use crate::words::{config_of, numbers_of};
use block_store::{Config, OutOfMemory, Width};
use heap_machine::Op;
use heap_system::Turn;
use never_heap::{Entry, Item};
use rtheap_core::schedules::Schedule;
use std::alloc::Global;
use std::fmt::Write;
use trace_text::TraceFault;

const NO_THREAD: &str = "no such thread";

const NOT_BEGUN: &str = "no system has begun";

const DONE_OR_NONE: &str = "done, or no such thread";

/// The most threads of a heap.
const MOST_THREADS: u32 = 16;

/// The longest trace, in bytes.
const LONGEST: usize = 4_000_000;

/// The job that is written, and the system that it began.
#[derive(Drop)]
pub struct Stepper {
    header: Option<Config>,
    traces: Vec<String>,
    held: Option<Held>,
}

impl Stepper {
    pub fn none(alloc: Global) -> Stepper {
        Stepper {
            header: None,
            traces: Vec::new(alloc),
            held: None,
        }
    }

    /// Does what words say of a system. Returns whether they are understood.
    pub fn answer(&mut self, alloc: Global, words: &[&str], out: &mut String) -> Said {
        let Some((verb, rest)) = words.split_first() else {
            return Ok(false);
        };
        match *verb {
            "open" => self.open(alloc, rest, out),
            "thread" => self.write(alloc, rest, out),
            "begin" => self.begin(alloc, rest, out),
            "finish" => self.finish(rest, out),
            _ => self.on_held(alloc, verb, rest, out),
        }
    }

    fn open(&mut self, alloc: Global, words: &[&str], out: &mut String) -> Said {
        let Some(config) = config_of(words) else {
            return Ok(false);
        };
        self.header = Some(config);
        self.traces.clear();
        let threads = if config.threads < MOST_THREADS {
            config.threads
        } else {
            MOST_THREADS
        };
        for _thread in 0..threads {
            self.traces.push(String::new(alloc))?;
        }
        push(out, "ok")
    }

    /// Appends commands to the trace of a thread.
    fn write(&mut self, alloc: Global, words: &[&str], out: &mut String) -> Said {
        let Some((thread, times, rest)) = thread_and_times(words) else {
            return Ok(false);
        };
        if commands_of(alloc, rest)?.is_none() {
            return Ok(false);
        }
        match self.traces.get_mut(thread) {
            Some(trace) => push_rounds(trace, times, rest, out),
            None => push(out, NO_THREAD),
        }
    }

    fn begin(&mut self, alloc: Global, words: &[&str], out: &mut String) -> Said {
        let Some(config) = &self.header else {
            return push(out, "no job is open");
        };
        let text = text_of(alloc, config, &self.traces)?;
        match system_of(alloc, text) {
            Ok(held) => {
                hold(&mut self.held, held);
                push(out, "ok")?;
            }
            Err(fault) => {
                push_not_opened(out, fault)?;
            }
        }
        Ok(words.is_empty())
    }

    fn on_held(&mut self, alloc: Global, verb: &str, words: &[&str], out: &mut String) -> Said {
        let Some(held) = &mut self.held else {
            return push(out, NOT_BEGUN);
        };
        match verb {
            "replay" => replay(held, words, out),
            "count" => count(alloc, held, words, out),
            _ => with_numbers(alloc, held, verb, words, out),
        }
    }

    fn finish(&mut self, words: &[&str], out: &mut String) -> Said {
        let Some(held) = self.held.take() else {
            return push(out, NOT_BEGUN);
        };
        match held.finish() {
            Ok((cycles, units)) => {
                push_number(out, "cycles", cycles)?;
                push_number(out, " units", units)?;
            }
            Err(held) => {
                hold(&mut self.held, held);
                push(out, "not all threads are done")?;
            }
        }
        Ok(words.is_empty())
    }
}

/// Takes a system in place of another.
fn hold(place: &mut Option<Held>, held: Held) {
    *place = Some(held);
}

fn with_numbers(
    alloc: Global,
    held: &mut Held,
    verb: &str,
    words: &[&str],
    out: &mut String,
) -> Said {
    let Some(numbers) = numbers_of(alloc, words)? else {
        return Ok(false);
    };
    match (verb, numbers.as_slice()) {
        ("turn", [thread]) => push_event(out, held, number(*thread)),
        ("turns", [thread, turns]) => push_turns(out, held, number(*thread), *turns),
        ("until", [thread, entries]) => push_until(out, held, number(*thread), *entries),
        ("black", [thread]) => push_black(alloc, out, held, number(*thread)),
        (_, numbers) => push_seen(out, held, verb, numbers),
    }
}

/// A thread, a number and other words.
fn thread_and_times<'a>(words: &'a [&'a str]) -> Option<(usize, u32, &'a [&'a str])> {
    let (thread, rest) = words.split_first()?;
    let (times, rest) = rest.split_first()?;
    Some((
        thread.parse::<usize>().ok()?,
        times.parse::<u32>().ok()?,
        rest,
    ))
}

/// Appends lines of commands to a trace, so many times.
fn push_rounds(trace: &mut String, times: u32, words: &[&str], out: &mut String) -> Said {
    for _time in 0..times {
        if trace.len() > LONGEST {
            return push_refused(out, "the trace is too long");
        }
        push_round(trace, words)?;
    }
    push(out, "ok")
}

/// Appends a line for each command; `;` stands between two.
fn push_round(trace: &mut String, words: &[&str]) -> Said {
    let mut mark = "";
    for word in words {
        if *word == ";" {
            mark = "\n";
        } else {
            trace.push_str(mark)?;
            trace.push_str(word)?;
            mark = " ";
        }
    }
    push(trace, "\n")
}

/// The text of a job.
fn text_of(alloc: Global, c: &Config, traces: &[String]) -> Result<Vec<u8>, OutOfMemory> {
    let mut text = String::new(alloc);
    let version = match c.width {
        Width::Four => 1,
        Width::Eight => 2,
    };
    let (threads, blocks) = (c.threads, c.blocks);
    let (live, object, shared) = (c.live, c.object, c.shared);
    write!(text, "rtheap {version} threads {threads} blocks {blocks} ")?;
    write!(text, "live {live} object {object} shared {shared}\n")?;
    for thread in 0..traces.len() {
        write!(text, "thread {thread}\n")?;
        text.push_str(traces[thread].as_str())?;
    }
    text.push_str("end\n")?;
    Ok(text.into_bytes())
}

fn push_not_opened(out: &mut String, fault: NotOpened) -> Said {
    match fault {
        NotOpened::NoMemory => Err(OutOfMemory),
        NotOpened::Text(TraceFault::BadLine { line, why }) => push_bad_line(out, line, why.text()),
        NotOpened::Text(_) => push_refused(out, "the job can't be read"),
        NotOpened::Plan(text) => push_refused(out, text),
    }
}

fn push_bad_line(out: &mut String, line: u64, why: &str) -> Said {
    write!(out, "refused: line {line} of the job: {why}")?;
    Ok(true)
}

fn replay(held: &mut Held, words: &[&str], out: &mut String) -> Said {
    let Some((schedule, turns)) = schedule_of(words) else {
        return Ok(false);
    };
    match held.replay(schedule, turns) {
        Some(thread) => push_not_done(out, thread),
        None => push(out, "all are done"),
    }
}

fn push_not_done(out: &mut String, thread: u32) -> Said {
    write!(out, "thread {thread} is not done")?;
    Ok(true)
}

fn schedule_of(words: &[&str]) -> Option<(Schedule, u64)> {
    let (turns, schedule) = words.split_last()?;
    let turns = turns.parse::<u64>().ok()?;
    match schedule {
        [word] if *word == "serial" => Some((Schedule::Serial, turns)),
        [word] if *word == "robin" => Some((Schedule::Robin, turns)),
        [word, key] if *word == "key" => Some((Schedule::Key(key.parse::<u64>().ok()?), turns)),
        _ => None,
    }
}

/// Makes an event and prints it.
fn push_event(out: &mut String, held: &mut Held, thread: u32) -> Said {
    match held.event(thread) {
        Some(made) => {
            push_operation(out, made.op)?;
            push_number(out, " finds", made.found)?;
            push(
                out,
                if matches!(made.turn, Turn::Waited) {
                    ", waits"
                } else {
                    ""
                },
            )
        }
        None => push(out, DONE_OR_NONE),
    }
}

/// Prints the next event, and does not make it.
fn push_want(out: &mut String, held: &Held, thread: u32) -> Said {
    match held.next(thread) {
        Some(op) => push_operation(out, op),
        None => push(out, DONE_OR_NONE),
    }
}

fn push_operation(out: &mut String, op: Op) -> Said {
    match op {
        Op::Load { place } => push_number(out, "load", place as u64),
        Op::Exchange { place, new } => push_words(out, "exchange", &[place as u64, new]),
        Op::CompareExchange { place, old, new } => {
            push_words(out, "compare_exchange", &[place as u64, old, new])
        }
        Op::FetchAdd { place, by } => push_words(out, "add", &[place as u64, by]),
        Op::FetchSub { place, by } => push_words(out, "subtract", &[place as u64, by]),
    }
}

/// A name and numbers behind it.
fn push_words(out: &mut String, name: &str, numbers: &[u64]) -> Said {
    push(out, name)?;
    for number in numbers {
        push_next(out, *number)?;
    }
    Ok(true)
}

/// The number of a thread or block, or one that none has.
fn number(number: u64) -> u32 {
    u32::try_from(number).unwrap_or(u32::MAX)
}

/// Gives a thread so many turns, and prints what the last was.
fn push_turns(out: &mut String, held: &mut Held, thread: u32, turns: u64) -> Said {
    push(out, turn_text(held.turns(thread, turns)))
}

fn turn_text(turn: Option<Turn>) -> &'static str {
    match turn {
        Some(Turn::Went) => "went",
        Some(Turn::Waited) => "waits",
        Some(Turn::Done) => "done",
        None => "no turn",
    }
}

/// Gives a thread turns until its log has so many entries or it is done.
fn push_until(out: &mut String, held: &mut Held, thread: u32, entries: u64) -> Said {
    for _turn in 0..1_000_000_u32 {
        if held.has_so_many(thread, entries) || held.turn(thread).is_none() {
            break;
        }
    }
    push_local(out, held, "entries", thread)
}

/// Gives a thread turns until it is done, and prints which blocks became black, in this order.
fn push_black(alloc: Global, out: &mut String, held: &mut Held, thread: u32) -> Said {
    let mut blocks = Vec::new(alloc);
    for _turn in 0..100_000_u32 {
        if held.has_so_many(thread, u64::MAX) {
            break;
        }
        held.blacken(alloc, thread, &mut blocks)?;
    }
    for block in blocks.iter() {
        push_next(out, u64::from(*block))?;
    }
    Ok(true)
}

/// The order: `start`, and the thread of each entry.
fn push_order(out: &mut String, held: &Held) -> Said {
    for item in held.order() {
        push_item(out, *item)?;
    }
    Ok(true)
}

/// The first item is a start.
fn push_item(out: &mut String, item: Item) -> Said {
    match item {
        Item::Start if out.is_empty() => push(out, "start"),
        Item::Start => push(out, " start"),
        Item::Entry(thread) => push_next(out, u64::from(thread)),
    }
}

fn push_seen(out: &mut String, held: &Held, verb: &str, n: &[u64]) -> Said {
    match (verb, n) {
        ("size", []) => push_number(out, verb, held.size() as u64),
        ("order", []) => push_order(out, held),
        ("words", [first, count]) => push_each(out, held, *first, *count, false),
        ("colours", [first, count]) => push_each(out, held, *first, *count, true),
        ("entry", [thread, place]) => push_entry(out, held, number(*thread), *place),
        (_, [thread]) => push_local(out, held, verb, number(*thread)),
        _ => Ok(false),
    }
}

/// So many words from a place on, or colour words from a block on, as far as there are.
fn push_each(out: &mut String, held: &Held, first: u64, count: u64, are_colours: bool) -> Said {
    for place in first..first.saturating_add(count) {
        let word = if are_colours {
            held.colour(number(place))
        } else {
            held.word(place as usize)
        };
        match word {
            Some(word) => push_next(out, word)?,
            None => return Ok(true),
        };
    }
    Ok(true)
}

fn push_entry(out: &mut String, held: &Held, thread: u32, place: u64) -> Said {
    match held.entry(thread, place as usize) {
        Some(entry) => push_reply(out, entry.reply, entry.work),
        None => push(out, "none"),
    }
}

fn push_local(out: &mut String, held: &Held, verb: &str, thread: u32) -> Said {
    if !held.has_thread(thread) {
        return push(out, NO_THREAD);
    }
    match verb {
        "entries" => push_number(out, verb, held.entries(thread)),
        "log" => push_log(out, held, thread),
        "paid" => push_number(out, verb, held.paid(thread)),
        "rest" => push_yes(out, held.is_at_rest(thread)),
        "next" => push_want(out, held, thread),
        _ => Ok(false),
    }
}

fn push_log(out: &mut String, held: &Held, thread: u32) -> Said {
    for place in 0..usize::MAX {
        match held.entry(thread, place) {
            Some(entry) => push_logged(out, entry)?,
            None => break,
        };
    }
    Ok(true)
}

fn push_logged(out: &mut String, entry: Entry) -> Said {
    push_line(out, "")?;
    push_reply(out, entry.reply, entry.work)
}

/// How many entries of a thread have a reply that is printed as these words.
fn count(alloc: Global, held: &Held, words: &[&str], out: &mut String) -> Said {
    let Some((thread, reply)) = words.split_first() else {
        return Ok(false);
    };
    let Ok(thread) = thread.parse::<u64>() else {
        return Ok(false);
    };
    let wanted = joined(alloc, reply)?;
    push_number(
        out,
        "count",
        counted(alloc, held, number(thread), wanted.as_str())?,
    )
}

fn counted(alloc: Global, held: &Held, thread: u32, wanted: &str) -> Result<u64, OutOfMemory> {
    let mut found = 0u64;
    for place in 0..usize::MAX {
        let Some(entry) = held.entry(thread, place) else {
            break;
        };
        if is_printed_so(alloc, entry, wanted)? {
            found = found.saturating_add(1);
        }
    }
    Ok(found)
}

/// Whether an entry is printed like this.
fn is_printed_so(alloc: Global, entry: Entry, wanted: &str) -> Said {
    let mut printed = String::new(alloc);
    push_reply(&mut printed, entry.reply, entry.work)?;
    Ok(printed.as_str() == wanted)
}

/// Words with blanks between them.
fn joined(alloc: Global, words: &[&str]) -> Result<String, OutOfMemory> {
    let mut text = String::new(alloc);
    let mut mark = "";
    for word in words {
        text.push_str(mark)?;
        text.push_str(word)?;
        mark = " ";
    }
    Ok(text)
}
