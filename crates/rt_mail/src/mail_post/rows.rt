//! The numbers that were taken, by sender.

ghost use Rattle.std.specs.Prelude.{◌≡◌, ◌<◌, ◌+◌, ◌∷◌, ◌++◌, [], ℕ, length, slice_index_or, OnOk};
ghost use Rattle.rt_mail.specs.mail_post.NumberRows.{no_row, rows_of, took};

use block_store::OutOfMemory;
use std::marker::Model;

/// The numbers that were taken of one sender.
#[derive(Drop)]
pub(crate) struct Row {
    numbers: Vec<u64>,
}

impl Model for Row {
    ghost use Rattle.std.specs.Prelude.{◌-◌};
    ghost use Rattle.std.specs.Vec.{vec_capacity, vec_len};
    ghost use Rattle.rt_mail.specs.mail_post.NumberRows.{Taken};

    ghost Value = { Taken };

    ghost view = { λ r. record {
      numbers = r.numbers.items;
      room = vec_capacity r.numbers - vec_len
          r.numbers;
    } };
}

impl Row {
    pub(crate) fn new(numbers: Vec<u64>) -> Row
        ensures { result.numbers ≡ numbers.items }
    {
        Row { numbers }
    }

    fn make_room(&mut self) -> Result<(), OutOfMemory>
        ensures same { self.new.numbers ≡ self.old.numbers }
        ensures room { OnOk result (0 < self.new.room) }
    {
        self.numbers.reserve(1)?;
        Ok(())
    }

    fn push(&mut self, number: u64)
        requires { 0 < self.old.room }
        ensures { self.new.numbers ≡ self.old.numbers ++ number ∷ [] }
    {
        self.numbers.push_reserved(number);
    }

    pub(crate) fn numbers(&self) -> &[u64]
        ensures { result.now ≡ self.now.numbers }
    {
        &self.numbers
    }
}

/// Makes room for one number more in each row.
pub(crate) fn make_room(rows: &mut Vec<Row>) -> Result<(), OutOfMemory>
    ensures same { rows_of rows.new.items ≡ rows_of rows.old.items }
    ensures room { OnOk result ((t : ℕ) → t < length rows.new.items
        → 0 < (slice_index_or rows.new.items t no_row).room) }
{
    for t in 0..rows.len() {
        rows[t].make_room()?;
    }
    Ok(())
}

/// Puts a number at the end of a row.
pub(crate) fn put_in(rows: &mut Vec<Row>, thread: u32, number: u64)
    requires thread { thread < length rows.old.items }
    requires room { 0 < (slice_index_or rows.old.items thread no_row).room }
    ensures { rows_of rows.new.items ≡ took (rows_of rows.old.items) thread number }
{
    rows[thread as usize].push(number);
}
