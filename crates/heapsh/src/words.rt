//! The words of a line: commands of a heap, configurations and numbers.

use block_store::{Config, OutOfMemory, Width};
use never_heap::Command;
use std::alloc::Global;

/// The words of a line. Any blanks separate them.
pub fn words_of<'a>(alloc: Global, line: &'a str) -> Result<Vec<&'a str>, OutOfMemory> {
    let mut words = Vec::new(alloc);
    for word in line.split_whitespace() {
        words.push(word)?;
    }
    Ok(words)
}

/// The numbers that some words spell, or `None` where one is no number below 2^64.
pub fn numbers_of(alloc: Global, words: &[&str]) -> Result<Option<Vec<u64>>, OutOfMemory> {
    let mut numbers = Vec::new(alloc);
    for word in words {
        match word.parse::<u64>() {
            Ok(number) => numbers.push(number)?,
            Err(_) => return Ok(None),
        }
    }
    Ok(Some(numbers))
}

/// The number that the only word spells.
pub fn one_number(words: &[&str]) -> Option<u64> {
    match words {
        [word] => word.parse::<u64>().ok(),
        _ => None,
    }
}

/// The number of a register, which may be none of a heap.
pub fn register(number: u64) -> Option<u8> {
    u8::try_from(number).ok()
}

/// A length, a key or a size.
pub fn length(number: u64) -> Option<u32> {
    u32::try_from(number).ok()
}

/// The operands of each command: `r` is a register, `l` a length, `n` any number.
const OPERANDS: [(&str, &str); 13] = [
    ("new", "rl"),
    ("arr", "rl"),
    ("set", "rn"),
    ("nil", "r"),
    ("mov", "rr"),
    ("get", "rrn"),
    ("put", "rnr"),
    ("len", "r"),
    ("same", "rr"),
    ("say", "r"),
    ("swap", "rnr"),
    ("cas", "rnrr"),
    ("idle", "n"),
];

/// Whether these may be the operands of a command that begins with a word.
fn are_operands(word: &str, n: &[u64]) -> bool {
    for (name, kinds) in OPERANDS.iter() {
        if *name == word {
            return are_of(kinds.as_bytes(), n);
        }
    }
    false
}

/// Whether each number is of its kind.
fn are_of(kinds: &[u8], n: &[u64]) -> bool {
    if kinds.len() != n.len() {
        return false;
    }
    for place in 0..n.len() {
        if n[place] > most_of(kinds[place]) {
            return false;
        }
    }
    true
}

fn most_of(kind: u8) -> u64 {
    match kind {
        b'r' => 255,
        b'l' => 4_294_967_295,
        _ => u64::MAX,
    }
}

fn number_at(n: &[u64], place: usize) -> u64 {
    n.get(place).copied().unwrap_or(0)
}

fn register_at(n: &[u64], place: usize) -> u8 {
    (number_at(n, place) % 256) as u8
}

fn length_at(n: &[u64], place: usize) -> u32 {
    (number_at(n, place) % 4_294_967_296) as u32
}

/// The command that a word and numbers are, whether or not a heap takes it.
pub fn command_of(word: &str, n: &[u64]) -> Option<Command> {
    if !are_operands(word, n) {
        return None;
    }
    let (a, b) = (register_at(n, 0), register_at(n, 1));
    let (c, e) = (register_at(n, 2), register_at(n, 3));
    let (x, y, z) = (number_at(n, 0), number_at(n, 1), number_at(n, 2));
    Some(match word {
        "new" => Command::New {
            d: a,
            fields: length_at(n, 1),
        },
        "arr" => Command::Arr {
            d: a,
            elements: length_at(n, 1),
        },
        "set" => Command::Set { d: a, value: y },
        "nil" => Command::Nil { d: a },
        "mov" => Command::Mov { d: a, s: b },
        "get" => Command::Get { d: a, s: b, i: z },
        "put" => Command::Put { s: a, i: y, v: c },
        "len" => Command::Len { s: a },
        "same" => Command::Same { a, b },
        "say" => Command::Say { s: a },
        "swap" => Command::Swap { s: a, i: y, v: c },
        "cas" => Command::Cas {
            s: a,
            i: y,
            a: c,
            v: e,
        },
        _ => Command::Idle { units: x },
    })
}

/// The configuration that words spell: `2 blocks 64 live 20 object 2 shared 0`, where `threads` may
/// are too and is otherwise 1. It may be none that a heap takes.
pub fn config_of(words: &[&str]) -> Option<Config> {
    let width = match *words.first()? {
        "1" => Width::Four,
        "2" => Width::Eight,
        _ => return None,
    };
    Some(Config {
        width,
        threads: named(words, "threads").unwrap_or(1),
        blocks: named(words, "blocks")?,
        live: named(words, "live")?,
        object: named(words, "object")?,
        shared: named(words, "shared")?,
    })
}

/// The number after a name.
fn named(words: &[&str], name: &str) -> Option<u32> {
    let mut is_next = false;
    for word in words {
        if is_next {
            return word.parse::<u32>().ok();
        }
        is_next = *word == name;
    }
    None
}
