//! Scripts of handles, as a kind of scripts.

ghost use Rattle.std.specs.Prelude.{◌≡◌, ◌+◌, ◌++◌, ◌≤◌, length};
ghost use Rattle.rt_handles.specs.Tellings.{handle_text};

use crate::before::Before;
use crate::line::operation_of;
use array_scripts::{Header, Scripted, header_of};
use array_tables::handle_table::{Operation, Outcome};
use block_store::OutOfMemory;
use std::alloc::Global;
use trace_text::LineBuffer;

/// The most operations of a thread.
const MOST_OPERATIONS: usize = 14_000;

/// Scripts of handles.
pub struct Handles;

impl Scripted for Handles {
    ghost use Rattle.rt_handles.specs.Lines.{handle_kind};
    ghost use Rattle.rt_handles.specs.Tellings.{outcome_text};

    type Operation = Operation;

    type Before = Before;

    type Answer = Outcome;

    ghost kind = { handle_kind };

    ghost ops = { λ before. before };

    ghost text = { outcome_text };

    fn header_of(line: &[u8]) -> Option<Header> {
        header_of(line, b"handles", b"slots", 512)
    }

    fn operation_of(
        places: u32,
        before: &Before,
        first: &[u8],
        operands: Option<&[u8]>,
    ) -> Option<Operation> {
        operation_of(places, before, first, operands)
    }

    fn none(alloc: Global) -> Before {
        Before::new(alloc)
    }

    fn has_room(before: &Before) -> bool {
        before.len() < MOST_OPERATIONS
    }

    fn push(before: &mut Before, op: Operation) -> Result<(), OutOfMemory> {
        before.push(op)?;
        Ok(())
    }

    fn into_ops(before: Before) -> Vec<Operation> {
        before.into_ops()
    }

    fn prepend_answer(line: &mut LineBuffer, answer: &Outcome) {
        match *answer {
            Outcome::Made { thread, make } => {
                prepend_handle(line, thread, make);
                line.prepend(b"made ");
            }
            Outcome::Taken => line.prepend(b"taken"),
            Outcome::Live => line.prepend(b"live"),
            Outcome::Stale => line.prepend(b"stale"),
            Outcome::Dropped => line.prepend(b"dropped"),
            Outcome::Empty => line.prepend(b"none"),
            Outcome::Shown {
                thread,
                make,
                number,
            } => {
                line.prepend_number(number);
                line.prepend(b" ");
                prepend_handle(line, thread, make);
            }
        }
    }
}

fn prepend_handle(line: &mut LineBuffer, thread: u64, make: u64)
    requires { length line.old ≤ 22 }
    ensures text { line.new ≡ handle_text thread make ++ line.old }
    ensures length { length line.new ≤ 41 + length line.old }
{
    line.prepend_number(make);
    line.prepend(b".");
    line.prepend_number(thread);
}
