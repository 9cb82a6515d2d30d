//! How scripts of tags are run.

use crate::kind::Tags;
use array_scripts::{Header, Runnable};
use array_tables::tag_table::Operation;
use array_trees::blocks_of_array;
use block_store::{Config, OutOfMemory, Width};
use never_heap::{Command, Entry};
use std::alloc::Global;

impl Runnable for Tags {
    ghost use Rattle.rt_tags.specs.Scripts as scripts;
    ghost use Rattle.rt_tags.specs.Tellings as tellings;

    ghost commands = { scripts.commands };

    ghost told = { tellings.told };

    fn config_of(header: &Header) -> Config {
        let Header {
            threads,
            places: tags,
            blocks,
        } = *header;
        Config {
            width: Width::Eight,
            threads,
            blocks,
            live: 4 * threads + blocks_of_array(Width::Eight, tags) + tags,
            object: 1,
            shared: tags,
        }
    }

    fn trace_of(
        alloc: Global,
        _thread: u32,
        ops: &[Operation],
    ) -> Result<Vec<Command>, OutOfMemory> {
        array_tables::tag_table::trace_of(alloc, ops)
    }

    fn answers(
        alloc: Global,
        _thread: u32,
        ops: &[Operation],
        log: &[Entry],
    ) -> Result<Vec<Option<(u64, u64)>>, OutOfMemory> {
        array_tables::tag_table::answers(alloc, ops, log)
    }
}
