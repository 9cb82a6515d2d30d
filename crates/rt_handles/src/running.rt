//! How scripts of handles are run.

use crate::kind::Handles;
use array_scripts::{Header, Runnable};
use array_tables::handle_table::{Operation, Outcome, outcomes};
use array_trees::blocks_of_array;
use block_store::{Config, OutOfMemory, Width};
use never_heap::{Command, Entry};
use std::alloc::Global;

impl Runnable for Handles {
    ghost use Rattle.rt_handles.specs.Scripts as scripts;
    ghost use Rattle.rt_handles.specs.Tellings as tellings;

    ghost commands = { scripts.commands };

    ghost told = { tellings.told };

    fn config_of(header: &Header) -> Config {
        let Header {
            threads,
            places: slots,
            blocks,
        } = *header;
        Config {
            width: Width::Eight,
            threads,
            blocks,
            live: 22 * threads + blocks_of_array(Width::Eight, slots) + 2 * slots,
            object: 1,
            shared: slots,
        }
    }

    fn trace_of(
        alloc: Global,
        thread: u32,
        ops: &[Operation],
    ) -> Result<Vec<Command>, OutOfMemory> {
        array_tables::handle_table::trace_of(alloc, thread, ops)
    }

    fn answers(
        alloc: Global,
        thread: u32,
        ops: &[Operation],
        log: &[Entry],
    ) -> Result<Vec<Outcome>, OutOfMemory> {
        outcomes(alloc, thread, ops, log)
    }
}
