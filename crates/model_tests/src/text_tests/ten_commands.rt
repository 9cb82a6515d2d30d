//! A job of ten commands.

ghost use Rattle.std.specs.Prelude.{IfOk};
ghost use Rattle.trace_text.specs.Jobs.{IsJobInBounds};

use block_store::{Config, Width};
use never_heap::Command;
use std::alloc::{AllocError, Global};
use trace_text::Job;

/// Two threads and one command of each kind.
pub fn job(alloc: Global) -> Result<Job, AllocError>
    ensures { IfOk result (λ job. IsJobInBounds job) }
{
    let first = [
        Command::New { d: 3, fields: 5 },
        Command::Arr { d: 15, elements: 0 },
        Command::Set {
            d: 1,
            value: 4611686018427387903,
        },
        Command::Nil { d: 0 },
        Command::Mov { d: 4, s: 3 },
    ];
    let second = [
        Command::Get { d: 2, s: 0, i: 17 },
        Command::Put { s: 0, i: 1, v: 12 },
        Command::Len { s: 7 },
        Command::Same { a: 8, b: 9 },
        Command::Say { s: 10 },
    ];
    let mut traces = Vec::new(alloc);
    traces.push(Vec::from_slice(alloc, &first)?)?;
    traces.push(Vec::from_slice(alloc, &second)?)?;
    Ok(Job {
        config: Config {
            width: Width::Four,
            threads: 2,
            blocks: 65535,
            live: 0,
            object: 2,
            shared: 1024,
        },
        traces,
    })
}
