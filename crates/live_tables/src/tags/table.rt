//! A table of tags: how it is opened, used and closed.

ghost use Rattle.std.specs.Prelude.{◌≡◌, ◌∷◌, [], IfOk, IfErr, OnOk, OnErr, IfSome};
ghost use Rattle.shared_heap.specs.Workers.{CanOpen};
ghost use Rattle.live_tables.specs.tags.Live.{CanDo, HasDone, IsOpenFault, IsRefused, IsTableInRange, commands_of, opened_config};
ghost use Rattle.live_tables.specs.rows.Workers.{AreInOrder, AreFresh, AreEachOnce, IsOf, IsSameWorker};

use crate::table::{LiveTable, opened};
use crate::tags::commands::{clear_commands, in_range, pair, read_commands, write_commands};
use crate::tags::kind::{LiveTags, TagWorker, Tags};
use array_tables::tag_table::Operation;
use array_trees::blocks_of_array;
use block_store::{Config, Width};
use never_heap::Command;
use std::alloc::Global;
use std::sync::Wait;

/// Why a table is not opened. Its printed text also says what to do.
#[derive(Clone, Copy, Debug, PartialEq, Eq)]
pub enum OpenFault {
    /// There are more than 1,024 tags, no thread, or more than 16.
    OutOfRange,
    /// An allocation failed: of the heap, of its workers, or of the vector that `close` needs.
    NoMemory,
}

/// Why an operation is refused. Its printed text also says what to do.
#[derive(Clone, Copy, Debug, PartialEq, Eq)]
pub enum Refused {
    /// The table has no such place, or a number is 2^62 or more. This is checked first.
    OutOfRange,
    /// The commands of the operation exceed the worker's lifetime.
    NoLifeLeft,
}

// Does an operation by its commands.
fn done<R: Wait>(
    rt: &R,
    table: &LiveTags,
    who: &mut TagWorker,
    op: Operation,
    commands: &[Command],
) -> Result<Option<(u64, u64)>, Refused>
    requires own { IsOf table.now who.old }
    requires commands { commands.now ≡ commands_of (op ∷ []) }
    ensures same { IsSameWorker who.old who.new }
    ensures can { OnOk result (CanDo who.old op) }
    ensures did { IfOk result (λ tag. HasDone who.old op tag who.new) }
    ensures refused { IfErr result (IsRefused who.old op) }
    ensures unchanged { OnErr result (who.new ≡ who.old) }
{
    if !in_range(&op, who.worker.config().shared) {
        return Err(Refused::OutOfRange);
    }
    match table.does(rt, who, op, commands) {
        Some((_, value, quality)) => Ok(pair(value, quality)),
        None => Err(Refused::NoLifeLeft),
    }
}

// The configuration of a table's heap. It has four times as many blocks as may be live.
fn config_of(tags: u32, threads: u32) -> Config
    requires { IsTableInRange tags threads }
    ensures { result ≡ opened_config threads tags }
{
    let live = 4 * threads + blocks_of_array(Width::Eight, tags) + tags;
    Config {
        width: Width::Eight,
        threads,
        blocks: 4 * live,
        live,
        object: 1,
        shared: tags,
    }
}

// The heap of a table in range can be opened.
fn can_be_opened(tags: u32, threads: u32)
    requires { IsTableInRange tags threads }
    ensures { CanOpen (opened_config threads tags) }
{}

// Opens a table, with its workers. `None` if an allocation failed.
fn opened_tags(alloc: Global, tags: u32, threads: u32) -> Option<(LiveTags, Vec<TagWorker>)>
    requires { IsTableInRange tags threads }
    ensures can { CanOpen (opened_config threads tags) }
    ensures config { IfSome result (λ r. r.0.config ≡ opened_config threads tags) }
    ensures workers { IfSome result (λ r. AreInOrder r.0 r.1.items) }
    ensures each { IfSome result (λ r. AreEachOnce r.0 r.1.items) }
    ensures fresh { IfSome result (λ r. AreFresh r.1.items) }
{
    can_be_opened(tags, threads);
    opened(alloc, config_of(tags, threads))
}

impl LiveTable<Tags> {
    /// Opens a table of `tags` empty places, 0 to 1,024. Returns it with one worker for each of 1
    /// to 16 `threads`, in thread order. No worker has done an operation yet. No later call on the
    /// table or its workers allocates.
    ///
    /// # Errors
    ///
    /// `OutOfRange` exactly if `tags` or `threads` is out of range, and `NoMemory` if an
    /// allocation failed.
    pub fn open(
        alloc: Global,
        tags: u32,
        threads: u32,
    ) -> Result<(LiveTags, Vec<TagWorker>), OpenFault>
        ensures can { OnOk result (IsTableInRange tags threads) }
        ensures config { IfOk result (λ r. r.0.config ≡ opened_config threads tags) }
        ensures workers { IfOk result (λ r. AreInOrder r.0 r.1.items) }
        ensures each { IfOk result (λ r. AreEachOnce r.0 r.1.items) }
        ensures fresh { IfOk result (λ r. AreFresh r.1.items) }
        ensures refused { IfErr result (IsOpenFault tags threads) }
    {
        if tags > 1024 || threads == 0 || threads > 16 {
            return Err(OpenFault::OutOfRange);
        }
        match opened_tags(alloc, tags, threads) {
            Some(table) => Ok(table),
            None => Err(OpenFault::NoMemory),
        }
    }

    /// Stores a value with its quality at a place, and returns the pair that the place held before:
    /// `None` if it was empty. Both numbers are below 2^62, and places count from 0.
    ///
    /// Other threads may use other workers meanwhile. The call may wait for them.
    ///
    /// # Errors
    ///
    /// `OutOfRange` exactly if the table has no such place or a number is 2^62 or more, and
    /// `NoLifeLeft` exactly if the operation is in range and exceeds the worker's lifetime. The
    /// worker is then unchanged.
    pub fn write<R: Wait>(
        &self,
        rt: &R,
        who: &mut TagWorker,
        place: u32,
        value: u64,
        quality: u64,
    ) -> Result<Option<(u64, u64)>, Refused>
        requires { IsOf self.now who.old }
        ensures same { IsSameWorker who.old who.new }
        ensures can { OnOk result (CanDo who.old (Operation.Write place value quality)) }
        ensures did { IfOk result
            (λ tag. HasDone who.old (Operation.Write place value quality) tag who.new) }
        ensures refused { IfErr result (IsRefused who.old (Operation.Write place value quality)) }
        ensures unchanged { OnErr result (who.new ≡ who.old) }
    {
        let op = Operation::Write {
            place,
            value,
            quality,
        };
        let commands = write_commands(place, value, quality);
        done(rt, self, who, op, &commands)
    }

    /// Empties a place, and returns the pair that it held before, as `write` does.
    ///
    /// # Errors
    ///
    /// As of `write`.
    pub fn clear<R: Wait>(
        &self,
        rt: &R,
        who: &mut TagWorker,
        place: u32,
    ) -> Result<Option<(u64, u64)>, Refused>
        requires { IsOf self.now who.old }
        ensures same { IsSameWorker who.old who.new }
        ensures can { OnOk result (CanDo who.old (Operation.Clear place)) }
        ensures did { IfOk result (λ tag. HasDone who.old (Operation.Clear place) tag who.new) }
        ensures refused { IfErr result (IsRefused who.old (Operation.Clear place)) }
        ensures unchanged { OnErr result (who.new ≡ who.old) }
    {
        let op = Operation::Clear { place };
        let commands = clear_commands(place);
        done(rt, self, who, op, &commands)
    }

    /// Returns the pair that a place holds, or `None` if it is empty. A value comes with the
    /// quality that was written with it.
    ///
    /// # Errors
    ///
    /// As of `write`.
    pub fn read<R: Wait>(
        &self,
        rt: &R,
        who: &mut TagWorker,
        place: u32,
    ) -> Result<Option<(u64, u64)>, Refused>
        requires { IsOf self.now who.old }
        ensures same { IsSameWorker who.old who.new }
        ensures can { OnOk result (CanDo who.old (Operation.Read place)) }
        ensures did { IfOk result (λ tag. HasDone who.old (Operation.Read place) tag who.new) }
        ensures refused { IfErr result (IsRefused who.old (Operation.Read place)) }
        ensures unchanged { OnErr result (who.new ≡ who.old) }
    {
        let op = Operation::Read { place };
        let commands = read_commands(place);
        done(rt, self, who, op, &commands)
    }
}
