//! Tags as a kind of tables.

use crate::kind::Table;
use crate::table::{LiveTable, TableNote};
use crate::tags::commands::objects_in;
use crate::worker::TableWorker;
use array_tables::tag_table::Operation;

/// The kind of tables whose places are empty or have a value with its quality, two numbers below
/// 2^62.
#[derive(Drop)]
pub struct Tags;

/// A table of tags, which its workers use concurrently.
pub type LiveTags = LiveTable<Tags>;

/// One thread of a table of tags, between two operations. In memory it has only its last command.
pub type TagWorker = TableWorker<Tags>;

/// How much of the table's history a worker had seen when the note was made.
pub type TagNote = TableNote;

impl Table for Tags {
    ghost use Rattle.std.specs.Prelude.{List};
    ghost use Rattle.array_tables.specs.tag_table.Tables.{Row, Tag};
    ghost use Rattle.live_tables.specs.tags.Live.{tags};

    type Operation = Operation;

    type Answer = Option<(u64, u64)>;

    type Request = Operation;

    type Own = ();

    ghost Row = { Row };

    ghost Plain = { List Tag };

    ghost rows = { tags };

    ghost operation_of = { λ w op. op };

    ghost HasShape = { λ c. Unit {0} };

    ghost Keeps = { λ c t ops own. Unit {0} };

    fn start() {}

    fn objects_in(op: &Operation) -> u64 {
        objects_in(op)
    }

    fn next(_own: (), _op: &Operation) {}

    fn is_lawful() {}
}
