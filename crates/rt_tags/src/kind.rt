//! Scripts of tags, as a kind of scripts.

use crate::line::operation_of;
use array_scripts::{Header, Scripted, header_of};
use array_tables::tag_table::Operation;
use block_store::OutOfMemory;
use std::alloc::Global;
use trace_text::LineBuffer;

/// The most operations of a thread.
const MOST_OPERATIONS: usize = 16_384;

/// Scripts of tags.
pub struct Tags;

impl Scripted for Tags {
    ghost use Rattle.rt_tags.specs.Lines.{tag_kind};
    ghost use Rattle.rt_tags.specs.Tellings.{tag_text};

    type Operation = Operation;

    type Before = Vec<Operation>;

    type Answer = Option<(u64, u64)>;

    ghost kind = { tag_kind };

    ghost ops = { λ before. before.items };

    ghost text = { tag_text };

    fn header_of(line: &[u8]) -> Option<Header> {
        header_of(line, b"tags", b"tags", 1024)
    }

    fn operation_of(
        places: u32,
        _before: &Vec<Operation>,
        first: &[u8],
        operands: Option<&[u8]>,
    ) -> Option<Operation> {
        operation_of(places, first, operands)
    }

    fn none(alloc: Global) -> Vec<Operation> {
        Vec::new(alloc)
    }

    fn has_room(before: &Vec<Operation>) -> bool {
        before.len() < MOST_OPERATIONS
    }

    fn push(before: &mut Vec<Operation>, op: Operation) -> Result<(), OutOfMemory> {
        before.push(op)?;
        Ok(())
    }

    fn into_ops(before: Vec<Operation>) -> Vec<Operation> {
        before
    }

    fn prepend_answer(line: &mut LineBuffer, answer: &Option<(u64, u64)>) {
        match *answer {
            None => line.prepend(b"none"),
            Some((value, quality)) => {
                line.prepend_number(quality);
                line.prepend(b" ");
                line.prepend_number(value);
            }
        }
    }
}
