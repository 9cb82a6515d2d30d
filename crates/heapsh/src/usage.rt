//! What is said of a line that is not understood, and of a command by its first word.

use crate::help::{COMMANDS, FORMS};
use crate::replies::{Said, push};
use crate::words::words_of;
use block_store::OutOfMemory;
use std::alloc::Global;

const ALL_COMMANDS: &str = "help lists the commands";

const A_CONFIG: &str = "2 blocks 64 live 20 object 2 shared 0";

/// Answers `help` and `help WORD`.
pub fn help(words: &[&str], out: &mut String) -> Said {
    match words {
        [] => push(out, COMMANDS),
        [word] if is_known(word) => push_forms(word, "\n", true, out),
        [word] => push_four(out, "'", word, "' is unknown; ", ALL_COMMANDS),
        _ => Ok(false),
    }
}

/// The forms that begin with a word, with what they are for or without.
fn push_forms(word: &str, mark: &str, with_use: bool, out: &mut String) -> Said {
    for line in FORMS.lines() {
        if begins_with(line, word) {
            push_part(out, mark, if with_use { line } else { form_in(line) })?;
        }
    }
    Ok(true)
}

/// A part, with a mark between it and what was printed.
fn push_part(out: &mut String, mark: &str, part: &str) -> Said {
    if !out.is_empty() {
        out.push_str(mark)?;
    }
    push(out, part)
}

/// Whether a command begins with this word.
pub fn is_known(word: &str) -> bool {
    form_of(word).is_some()
}

/// The first form that begins with a word.
fn form_of(word: &str) -> Option<&'static str> {
    for line in FORMS.lines() {
        if begins_with(line, word) {
            return Some(form_in(line));
        }
    }
    None
}

fn begins_with(line: &str, word: &str) -> bool {
    match line.split_whitespace().next() {
        Some(first) => first == word,
        None => false,
    }
}

/// The form in a line, without what it is for.
fn form_in(line: &str) -> &str {
    match line.split_once(" : ") {
        Some((form, _use)) => form,
        None => line,
    }
}

/// Says what of a line is not understood, and what is expected.
pub fn explain(alloc: Global, line: &str, words: &[&str], out: &mut String) -> Said {
    match meant_form(alloc, words)? {
        Some(form) => explain_form(alloc, form, words, out),
        None => explain_unknown(alloc, line, words, out),
    }
}

fn explain_form(alloc: Global, form: &str, words: &[&str], out: &mut String) -> Said {
    let operands = words_of(alloc, form)?;
    explain_operands(form, operands.as_slice(), words, out)
}

fn explain_unknown(alloc: Global, line: &str, words: &[&str], out: &mut String) -> Said {
    let mut forms = String::new(alloc);
    if let Some(word) = words.first() {
        push_forms(word, ", ", false, &mut forms)?;
    }
    let forms = if forms.is_empty() {
        ALL_COMMANDS
    } else {
        forms.as_str()
    };
    push_four(out, "'", line.trim(), "' is unknown; ", forms)
}

/// Appends four parts.
fn push_four(out: &mut String, a: &str, b: &str, c: &str, d: &str) -> Said {
    out.push_str(a)?;
    out.push_str(b)?;
    out.push_str(c)?;
    push(out, d)
}

/// The first form whose words, apart from operands, are these.
fn meant_form(alloc: Global, words: &[&str]) -> Result<Option<&'static str>, OutOfMemory> {
    for line in FORMS.lines() {
        let form = form_in(line);
        let operands = words_of(alloc, form)?;
        if is_meant(operands.as_slice(), words) {
            return Ok(Some(form));
        }
    }
    Ok(None)
}

/// Whether the words are of this form, apart from its operands.
fn is_meant(form: &[&str], words: &[&str]) -> bool {
    for place in 0..form.len() {
        let is_same = match words.get(place) {
            Some(word) => *word == form[place],
            None => false,
        };
        if !is_same && !is_operand(form[place]) {
            return false;
        }
    }
    true
}

fn is_operand(word: &str) -> bool {
    matches!(word.as_bytes().first(), Some(b'A'..=b'Z'))
}

/// Says which operand is wrong.
fn explain_operands(form: &str, operands: &[&str], words: &[&str], out: &mut String) -> Said {
    let place = first_wrong(operands, words);
    match (operands.get(place), words.get(place)) {
        (Some(name), Some(word)) => push_wrong(form, name, word, out),
        (Some(name), None) => push_four(out, name, " is missing", "; ", form),
        (None, Some(word)) => push_four(out, "'", word, "' is too much; ", form),
        (None, None) => push_four(out, "not possible", " now", "; ", form),
    }
}

/// The place of the first operand that is missing or wrong, or the one behind them all.
fn first_wrong(operands: &[&str], words: &[&str]) -> usize {
    for place in 1..operands.len() {
        let Some(word) = words.get(place) else {
            return place;
        };
        if is_operand(operands[place]) && !is_in_range(operands[place], word) {
            return place;
        }
    }
    operands.len()
}

/// Says what an operand is, and that it is not this word.
fn push_wrong(form: &str, name: &str, word: &str, out: &mut String) -> Said {
    match (name, form_of(word)) {
        ("CONFIG", _) => push_four(out, "CONFIG is as in '", A_CONFIG, "'; ", form),
        ("COMMAND", Some(inner)) => push_four(out, "COMMAND is not as in '", inner, "'; ", form),
        _ => {
            push_four(out, name, " is ", range_of(name), ", not '")?;
            push_four(out, word, "'", "; ", form)
        }
    }
}

/// Operands that are registers, below 256, below 2^32, and of other kinds.
const REGISTERS: &str = "D S A B V R FROM TO BASE SPARE";

const BYTES: &str = "MASK ROOM";

const LENGTHS: &str = "FIELDS ELEMENTS SIZE I KEY VALUE THREAD";

const WORDS: &str = "WORD NAME REPLY";

const SEVERAL_WORDS: &str = "CONFIG COMMAND";

fn is_one_of(names: &str, name: &str) -> bool {
    for other in names.split_whitespace() {
        if other == name {
            return true;
        }
    }
    false
}

/// Whether an operand of this name may be this word.
fn is_in_range(name: &str, word: &str) -> bool {
    if is_one_of(WORDS, name) {
        return true;
    }
    match word.parse::<u64>() {
        Ok(number) => number <= most_of(name) && !is_one_of(SEVERAL_WORDS, name),
        Err(_) => false,
    }
}

/// The largest number that an operand of this name may be.
fn most_of(name: &str) -> u64 {
    if is_one_of(REGISTERS, name) || is_one_of(BYTES, name) {
        255
    } else if is_one_of(LENGTHS, name) {
        4_294_967_295
    } else {
        u64::MAX
    }
}

/// What an operand of this name may be.
fn range_of(name: &str) -> &'static str {
    if is_one_of(REGISTERS, name) {
        "a register, 0 to 15"
    } else if is_one_of(BYTES, name) {
        "a number from 0 to 255"
    } else if is_one_of(LENGTHS, name) {
        "a number from 0 to 4294967295"
    } else if name == "COMMAND" {
        "a command as in 'new 1 2'"
    } else {
        "a number from 0 to 18446744073709551615"
    }
}
