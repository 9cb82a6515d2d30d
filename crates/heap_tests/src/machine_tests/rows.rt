//! One event as a table of a test has it.

use heap_machine::{Op, Step};

/// What a test expects of an event: the operation that is wanted, the word that it reads, what the
/// event is to its part, and whether the part says after it that it made a unit.
#[derive(Clone, Copy)]
pub struct Row {
    pub op: Op,
    pub word: u64,
    pub step: Step,
    pub unit: bool,
}

/// An event with more to come, which waited for nothing.
pub fn went(op: Op, word: u64) -> Row {
    Row {
        op,
        word,
        step: Step::Went,
        unit: false,
    }
}

/// One that waited.
pub fn waited(op: Op, word: u64) -> Row {
    Row {
        step: Step::Waited,
        ..went(op, word)
    }
}

/// The last one.
pub fn over(op: Op, word: u64) -> Row {
    Row {
        step: Step::Over,
        ..went(op, word)
    }
}

/// The last one, which waited.
pub fn waited_over(op: Op, word: u64) -> Row {
    Row {
        step: Step::WaitedOver,
        ..went(op, word)
    }
}

/// The same with a unit.
pub fn unit(row: Row) -> Row {
    Row { unit: true, ..row }
}
