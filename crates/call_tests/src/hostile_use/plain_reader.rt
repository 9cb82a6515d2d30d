//! A plain reader of inputs, which tells the first line that is wrong and why. It is written for
//! the tests after `docs/FORMAT.md`, and shares nothing with the reader that is proved.

use std::alloc::{AllocError, Global};

/// The words of commands, each with the kinds of its operands: a register `r`, a number `n`, the
/// length `f` of a record or `e` of an array, units `u`.
const WORDS: [(&[u8], &[u8]); 10] = [
    (b"new", b"rf"),
    (b"arr", b"re"),
    (b"set", b"rn"),
    (b"nil", b"r"),
    (b"mov", b"rr"),
    (b"get", b"rrn"),
    (b"put", b"rnr"),
    (b"len", b"r"),
    (b"same", b"rr"),
    (b"say", b"r"),
];

/// Those that are words of version 2 alone.
const WIDE_WORDS: [(&[u8], &[u8]); 3] = [(b"swap", b"rnr"), (b"cas", b"rnrr"), (b"idle", b"u")];

/// The names in a header, each with the least and the largest number after it.
const NAMES: [(&[u8], u64, u64); 5] = [
    (b"threads", 1, 16),
    (b"blocks", 1, 65_535),
    (b"live", 0, 65_535),
    (b"object", 1, 1_024),
    (b"shared", 0, 1_024),
];

/// The pieces of a text between the bytes of this value.
fn pieces(alloc: Global, text: &[u8], between: u8) -> Result<Vec<Vec<u8>>, AllocError> {
    let mut all = Vec::new(alloc);
    let mut piece = Vec::new(alloc);
    for byte in text {
        if *byte == between {
            all.push(piece)?;
            piece = Vec::new(alloc);
        } else {
            piece.push(*byte)?;
        }
    }
    all.push(piece)?;
    Ok(all)
}

/// The number that a piece spells, if it spells one.
fn number(piece: &[u8]) -> Option<u64> {
    let leading = piece.len() > 1 && piece.first() == Some(&b'0');
    if piece.is_empty() || piece.len() > 19 || leading {
        return None;
    }
    let mut value: u64 = 0;
    for byte in piece {
        if *byte < b'0' || *byte > b'9' {
            return None;
        }
        value = value
            .saturating_mul(10)
            .saturating_add(u64::from(*byte - b'0'));
    }
    Some(value)
}

/// The number that is at a place of a line.
fn number_at(pieces: &[Vec<u8>], place: usize) -> Option<u64> {
    match pieces.get(place) {
        Some(piece) => number(piece.as_slice()),
        None => None,
    }
}

/// Whether this piece is at a place of a line.
fn is_at(pieces: &[Vec<u8>], place: usize, wanted: &[u8]) -> bool {
    match pieces.get(place) {
        Some(piece) => piece.as_slice() == wanted,
        None => false,
    }
}

/// How many pieces of so much hold a length, one where it is 0.
fn parts(length: u64, each: u64) -> u64 {
    if each == 0 {
        return 1;
    }
    length.div_ceil(each).max(1)
}

/// How many blocks an object takes whose blocks have so many words for values.
fn blocks(kind: u8, length: u64, words: u64) -> u64 {
    if kind == b'f' {
        return parts(length, words.saturating_sub(1));
    }
    let mut level = parts(length, words);
    let mut sum = level;
    for _level in 0..64 {
        if level > 1 {
            level = parts(level, words);
            sum = sum.saturating_add(level);
        }
    }
    sum
}

/// What the lines so far say.
#[derive(Drop)]
struct Place {
    /// Whether the version is 2.
    wide: bool,
    threads: u64,
    /// How many blocks the largest object may take.
    object: u64,
    /// How many lines `thread` there were, and how many commands after the last of them.
    begun: u64,
    commands: u64,
    /// Whether the line `end` was read.
    ended: bool,
}

impl Place {
    /// Why the first line is wrong, if it is.
    fn header(&mut self, pieces: &[Vec<u8>]) -> Option<&'static str> {
        let wide = is_at(pieces, 1, b"2");
        let version = wide || is_at(pieces, 1, b"1");
        if pieces.len() != 12 || !is_at(pieces, 0, b"rtheap") || !version {
            return Some("header");
        }
        for (i, (name, _least, _most)) in NAMES.iter().enumerate() {
            if !is_at(pieces, i.saturating_mul(2).saturating_add(2), name) {
                return Some("header");
            }
        }
        let mut small = true;
        for (i, (_name, least, most)) in NAMES.iter().enumerate() {
            let Some(n) = number_at(pieces, i.saturating_mul(2).saturating_add(3)) else {
                return Some("number");
            };
            small &= *least <= n && n <= *most;
        }
        self.wide = wide;
        self.threads = number_at(pieces, 3).unwrap_or(0);
        self.object = number_at(pieces, 9).unwrap_or(0);
        if small { None } else { Some("size") }
    }

    /// Why a later line is wrong, if it is.
    fn line(&mut self, pieces: &[Vec<u8>]) -> Option<&'static str> {
        if self.ended {
            return Some("end");
        }
        if is_at(pieces, 0, b"thread") {
            return self.thread(pieces);
        }
        if is_at(pieces, 0, b"end") {
            return self.end(pieces);
        }
        for (word, kinds) in WORDS {
            if is_at(pieces, 0, word) {
                return self.command(pieces, kinds);
            }
        }
        for (word, kinds) in WIDE_WORDS {
            if self.wide && is_at(pieces, 0, word) {
                return self.command(pieces, kinds);
            }
        }
        Some("word")
    }

    fn thread(&mut self, pieces: &[Vec<u8>]) -> Option<&'static str> {
        if pieces.len() != 2 {
            return Some("count");
        }
        let Some(n) = number_at(pieces, 1) else {
            return Some("number");
        };
        if n != self.begun || self.begun == self.threads {
            return Some("order");
        }
        self.begun = self.begun.saturating_add(1);
        self.commands = 0;
        None
    }

    fn end(&mut self, pieces: &[Vec<u8>]) -> Option<&'static str> {
        if pieces.len() != 1 {
            return Some("count");
        }
        if self.begun != self.threads {
            return Some("order");
        }
        self.ended = true;
        None
    }

    fn command(&mut self, pieces: &[Vec<u8>], kinds: &[u8]) -> Option<&'static str> {
        if self.begun == 0 {
            return Some("order");
        }
        if pieces.len() != kinds.len().saturating_add(1) {
            return Some("count");
        }
        let words = if self.wide { 8 } else { 4 };
        let (mut registers, mut sizes) = (true, true);
        for (i, kind) in kinds.iter().enumerate() {
            let Some(n) = number_at(pieces, i.saturating_add(1)) else {
                return Some("number");
            };
            match *kind {
                b'r' => registers &= n <= 15,
                b'n' => sizes &= n < 1 << 62,
                b'u' => sizes &= n <= 131_070,
                kind => sizes &= n <= 65_535 && blocks(kind, n, words) <= self.object,
            }
        }
        if !registers {
            return Some("register");
        }
        if !sizes || self.commands == 131_072 {
            return Some("size");
        }
        self.commands = self.commands.saturating_add(1);
        None
    }
}

/// The first line that is wrong, counted from 1, and why. `None` for an input that is a job.
pub fn first_wrong(alloc: Global, input: &[u8]) -> Result<Option<(u64, &'static str)>, AllocError> {
    let mut place = Place {
        wide: false,
        threads: 0,
        object: 0,
        begun: 0,
        commands: 0,
        ended: false,
    };
    let mut lines = pieces(alloc, input, b'\n')?;
    if matches!(lines.last(), Some(line) if line.is_empty()) {
        lines.pop();
    }
    let mut at: u64 = 0;
    for line in &lines {
        at = at.saturating_add(1);
        let pieces = pieces(alloc, line, b' ')?;
        let why = if at == 1 {
            place.header(&pieces)
        } else {
            place.line(&pieces)
        };
        if let Some(why) = why {
            return Ok(Some((at, why)));
        }
    }
    if at == 0 {
        return Ok(Some((1, "header")));
    }
    if place.ended {
        return Ok(None);
    }
    Ok(Some((at.saturating_add(1), "end")))
}
