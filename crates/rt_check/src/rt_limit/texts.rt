//! What is written of a job's needs.

ghost use Rattle.std.specs.Prelude.{◌≡◌, ◌≤◌, ◌<◌, ◌++◌, ℕ, List, length, codes, decimal, take, IfOk, OnOk};
ghost use Rattle.block_store.specs.Configs.{IsInBounds};
ghost use Rattle.rt_check.specs.rt_limit.NeedTexts.{number_line, order_line, figures_text, heap_line, heap_text, IsRow, AreRows, IsText, rates};

use crate::rt_limit::blocks::least_heap;
use crate::rt_limit::counts::Figures;
use crate::rt_limit::prices::{turns, years};
use block_store::{Config, OutOfMemory};
use std::alloc::Global;
use trace_text::{LineBuffer, line_of_config};

/// The rates for which the least heaps are told.
const RATES: [u64; 14] = [5, 6, 7, 8, 9, 10, 12, 16, 24, 32, 48, 64, 128, 1024];

/// The text of a job's needs.
pub(crate) fn text_of(
    alloc: Global,
    config: &Config,
    given: bool,
    figures: &Figures,
) -> Result<Vec<u8>, OutOfMemory>
    requires { IsInBounds config.now }
    ensures { IfOk result (λ v. IsText config.now given figures.now v.items) }
{
    let mut text = Vec::new(alloc);
    text.extend_from_slice(order_of(given))?;
    add_line(&mut text, b"allocated ", figures.allocated)?;
    add_line(&mut text, b"reached ", figures.reached)?;
    add_line(&mut text, b"enough ", figures.enough)?;
    add_rows(&mut text, config, figures.enough)?;
    Ok(text)
}

// The line that says which order it was.
fn order_of(given: bool) -> &'static [u8]
    ensures { result.now ≡ order_line given }
{
    if given {
        b"order given\n"
    } else {
        b"order thread by thread\n"
    }
}

// Adds the line of a word and a number.
fn add_line(text: &mut Vec<u8>, word: &[u8], number: u64) -> Result<(), OutOfMemory>
    requires { length word.now ≤ 20 }
    ensures { OnOk result (text.new.items ≡ text.old.items ++ number_line word.now number) }
{
    let mut line = LineBuffer::new();
    line.prepend(b"\n");
    line.prepend_number(number);
    line.prepend(word);
    text.extend_from_slice(line.bytes())?;
    Ok(())
}

// Adds the lines of each heap once: of the least for each rate, where it has not the rate before.
fn add_rows(text: &mut Vec<u8>, config: &Config, live: u64) -> Result<(), OutOfMemory>
    requires { IsInBounds config.now }
    ensures { OnOk result ((rows : List ℕ) × AreRows config.now live 0 rates rows
        × (text.new.items ≡ text.old.items ++ rows)) }
{
    let mut before = 0;
    for rate in &RATES {
        add_row(text, config, live, before, *rate)?;
        before = *rate;
    }
    Ok(())
}

// Adds the lines of the least heap for one rate, where it has not the rate before.
fn add_row(
    text: &mut Vec<u8>,
    config: &Config,
    live: u64,
    before: u64,
    rate: u64,
) -> Result<(), OutOfMemory>
    requires { IsInBounds config.now }
    ensures { OnOk result ((row : List ℕ) × IsRow config.now live before rate row
        × (text.new.items ≡ text.old.items ++ row)) }
{
    match least_heap(config, live, before, rate) {
        Some(least) => add_heap(text, &least.heap, least.rate),
        None => Ok(()),
    }
}

// Adds what is told of a heap, and the header of a job with this heap.
fn add_heap(text: &mut Vec<u8>, heap: &Config, rate: u64) -> Result<(), OutOfMemory>
    requires heap { IsInBounds heap.now }
    requires rate { (1 ≤ rate) × (rate ≤ 131070) }
    ensures { OnOk result (text.new.items ≡ text.old.items ++ heap_text heap.now rate) }
{
    text.extend_from_slice(line_of_heap(heap, rate).bytes())?;
    text.extend_from_slice(line_of_config(heap).bytes())?;
    Ok(())
}

// What is told of a heap.
fn line_of_heap(heap: &Config, rate: u64) -> LineBuffer
    requires heap { IsInBounds heap.now }
    requires rate { (1 ≤ rate) × (rate ≤ 131070) }
    ensures { result ≡ heap_line heap.now rate }
{
    let mut line = LineBuffer::new();
    line.prepend(b"\n");
    line.prepend_short_number(years(rate));
    line.prepend(b" years ");
    line.prepend_number(turns(heap, rate, heap.object));
    line.prepend(b" largest ");
    line.prepend_number(turns(heap, rate, 1));
    line.prepend(b" turns ");
    line.prepend_short_number(heap.bytes());
    line.prepend(b" bytes ");
    line.prepend_short_number(rate as u32);
    line.prepend(b" rate ");
    line.prepend_short_number(heap.blocks);
    line.prepend(b"blocks ");
    line
}
