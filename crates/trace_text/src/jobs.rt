//! A job: a configuration, and a trace of commands for each thread.

ghost use Rattle.std.specs.Prelude.{◌≡◌, ◌<◌, [], length, slice_index_or};

use block_store::Config;
use never_heap::Command;
use std::marker::Model;

/// What an input asks for. Contracts see the traces as a list of lists.
#[derive(Debug, Drop)]
pub struct Job {
    pub config: Config,
    /// One trace of commands per thread, that of thread 0 first.
    pub traces: Vec<Vec<Command>>,
}

impl Model for Job {
    ghost use Rattle.std.specs.Prelude.{map};
    ghost use Rattle.trace_text.specs.Jobs.{Job as Seen};

    ghost Value = { Seen };

    ghost view = { λ j. record {
      config = j.config;
      traces = map (λ v. v.items) j.traces.items;
    } };
}

impl Job {
    // How many traces there are.
    pub(crate) fn threads(&self) -> usize
        ensures { result ≡ length self.now.traces }
    {
        self.traces.len()
    }

    /// The trace of thread `t`.
    pub fn trace(&self, t: usize) -> &[Command]
        requires { t < length self.now.traces }
        ensures { result.now ≡ slice_index_or self.now.traces t [] }
    {
        &self.traces[t]
    }
}
