//! The graph of a heap as a text.

ghost use Rattle.std.specs.Prelude.{◌≡◌, length};
ghost use Rattle.block_store.specs.Configs.{IsInBounds};
ghost use Rattle.block_store.specs.Places.{extent, words_count};

use super::ControlHeap;
use crate::readings::{
    block_in, field_word, length_of, name_at, register_word, shape_at, value_of,
};
use block_store::{Config, OutOfMemory, REGISTERS, Shape, Value};
use heap_machine::Words;
use std::alloc::Global;
use std::fmt::Write;

// The first blocks of the objects that the registers reach, in the order in which a search by
// levels finds them.
fn reached(alloc: Global, c: &Config, words: &Words) -> Result<Vec<u32>, OutOfMemory>
    requires bounds { IsInBounds c.now }
    requires there { length words.now ≡ words_count (extent c.now) }
{
    let mut seen = vec![in alloc; false; c.blocks as usize + 1]?;
    let mut found = Vec::new(alloc);
    for r in 0..REGISTERS as u8 {
        visit(&mut seen, &mut found, register_word(c, words, r))?;
    }
    for next in 0..c.blocks as usize {
        if next >= found.len() {
            break;
        }
        let block = found[next];
        let shape = shape_at(c, words, block);
        for i in 0..length_of(shape) {
            visit(&mut seen, &mut found, field_word(c, words, block, shape, i))?;
        }
    }
    Ok(found)
}

// Notes the block to which a word refers, unless it was seen.
fn visit(seen: &mut [bool], found: &mut Vec<u32>, word: u64) -> Result<(), OutOfMemory>
    ensures { length seen.new ≡ length seen.old }
{
    let block = block_in(word) as usize;
    if block == 0 || block >= seen.len() || seen[block] {
        return Ok(());
    }
    seen[block] = true;
    found.push(block as u32)?;
    Ok(())
}

fn kind_of(shape: Shape) -> &'static str {
    match shape {
        Shape::List(_) => "record",
        Shape::Tree(_) => "array",
    }
}

// `nil`, a number, or an arrow to the number of an object.
fn push_value(out: &mut String, value: Value) -> Result<(), OutOfMemory> {
    match value {
        Value::Nil => out.push_str("nil")?,
        Value::Int(number) => write!(out, "{number}")?,
        Value::Ref(name) => {
            let serial = name.serial;
            write!(out, "->{serial}")?;
        }
    }
    Ok(())
}

// The number of the object of a block: the serial of its name.
fn number_at(c: &Config, words: &Words, block: u32) -> u64
    requires bounds { IsInBounds c.now }
    requires there { length words.now ≡ words_count (extent c.now) }
{
    match name_at(c, words, block) {
        Value::Ref(name) => name.serial,
        _ => 0,
    }
}

// An object as a line, `3: record 2 [7, ->5]`.
fn push_object(out: &mut String, c: &Config, words: &Words, block: u32) -> Result<(), OutOfMemory>
    requires bounds { IsInBounds c.now }
    requires there { length words.now ≡ words_count (extent c.now) }
{
    let shape = shape_at(c, words, block);
    let (number, kind, length) = (number_at(c, words, block), kind_of(shape), length_of(shape));
    write!(out, "{number}: {kind} {length} [")?;
    for i in 0..length {
        if i > 0 {
            out.push_str(", ")?;
        }
        push_value(
            out,
            value_of(c, words, field_word(c, words, block, shape, i)),
        )?;
    }
    out.push_str("]")?;
    Ok(())
}

// The registers as a line, `registers [->0, 7, nil, ..]`.
fn push_registers(out: &mut String, c: &Config, words: &Words) -> Result<(), OutOfMemory>
    requires bounds { IsInBounds c.now }
    requires there { length words.now ≡ words_count (extent c.now) }
{
    out.push_str("registers [")?;
    for r in 0..REGISTERS as u8 {
        if r > 0 {
            out.push_str(", ")?;
        }
        push_value(out, value_of(c, words, register_word(c, words, r)))?;
    }
    out.push_str("]")?;
    Ok(())
}

// An edge of a drawing, from a node to the object to which a word refers, if it refers to one.
fn push_edge(
    out: &mut String,
    c: &Config,
    words: &Words,
    from: &str,
    word: u64,
    label: u32,
) -> Result<(), OutOfMemory>
    requires bounds { IsInBounds c.now }
    requires there { length words.now ≡ words_count (extent c.now) }
{
    if let Value::Ref(name) = value_of(c, words, word) {
        let serial = name.serial;
        write!(out, "    {from} -> {serial} [label=\"{label}\"];\n")?;
    }
    Ok(())
}

// A node of a drawing for an object, and an edge for each reference in its fields.
fn push_node(
    alloc: Global,
    out: &mut String,
    c: &Config,
    words: &Words,
    block: u32,
) -> Result<(), OutOfMemory>
    requires bounds { IsInBounds c.now }
    requires there { length words.now ≡ words_count (extent c.now) }
{
    let shape = shape_at(c, words, block);
    let number = number_at(c, words, block);
    let from = format!(in alloc; "{number}")?;
    write!(out, "    {number} [label=\"")?;
    push_object(out, c, words, block)?;
    out.push_str("\"];\n")?;
    for i in 0..length_of(shape) {
        let word = field_word(c, words, block, shape, i);
        push_edge(out, c, words, from.as_str(), word, i)?;
    }
    Ok(())
}

// The text of a heap.
fn text_of(alloc: Global, c: &Config, words: &Words) -> Result<String, OutOfMemory>
    requires bounds { IsInBounds c.now }
    requires there { length words.now ≡ words_count (extent c.now) }
{
    let mut out = String::new(alloc);
    push_registers(&mut out, c, words)?;
    out.push_str("\n")?;
    for block in reached(alloc, c, words)? {
        push_object(&mut out, c, words, block)?;
        out.push_str("\n")?;
    }
    Ok(out)
}

// The drawing of a heap.
fn drawing_of(alloc: Global, c: &Config, words: &Words) -> Result<String, OutOfMemory>
    requires bounds { IsInBounds c.now }
    requires there { length words.now ≡ words_count (extent c.now) }
{
    let mut out = String::from_str(alloc, "digraph heap {\n    registers [label=\"")?;
    push_registers(&mut out, c, words)?;
    out.push_str("\"];\n")?;
    for r in 0..REGISTERS as u8 {
        let word = register_word(c, words, r);
        push_edge(&mut out, c, words, "registers", word, u32::from(r))?;
    }
    for block in reached(alloc, c, words)? {
        push_node(alloc, &mut out, c, words, block)?;
    }
    out.push_str("}\n")?;
    Ok(out)
}

impl ControlHeap {
    /// What the registers reach, as a text for a person: a line for the registers, and one for
    /// each object, such as `3: record 2 [7, ->5]`. An object's number is the serial of its name;
    /// the shared array has the number 0. Objects are in the order in which a search by levels
    /// finds them. No command is executed and nothing changes; the time grows with the graph. No
    /// clause says what the text is: tests do.
    ///
    /// # Errors
    ///
    /// `OutOfMemory` where memory for the text or for the search runs out.
    pub fn text(&self, alloc: Global) -> Result<String, OutOfMemory> {
        text_of(alloc, &self.config, &self.memory)
    }

    /// The same as a drawing in the language of Graphviz's `dot`: a node for the registers and for
    /// each object, and an edge for each reference, with the number of its register or field.
    ///
    /// # Errors
    ///
    /// As of `text`.
    pub fn dot(&self, alloc: Global) -> Result<String, OutOfMemory> {
        drawing_of(alloc, &self.config, &self.memory)
    }
}
