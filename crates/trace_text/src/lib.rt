//! The text edges: sources and sinks of bytes, the reader of traces and the printer of runs.
#![tactic(auto)]

mod job_writer;
mod jobs;
mod line_buffer;
mod mem_sink;
mod mem_source;
mod order_writer;
mod printing;
mod reading;
mod short_lines;
mod sinks;
mod sources;
mod std_sink;
mod std_source;
mod trace_faults;

pub use job_writer::{fill_command, job_text_is_job, line_of_config, line_of_thread, write_job};
pub use jobs::Job;
pub use line_buffer::LineBuffer;
pub use mem_sink::MemSink;
pub use mem_source::MemSource;
pub use order_writer::{orders_tell_histories, write_order};
pub use printing::{fill_entry, fill_start, fill_totals, lines_are_short, write_run};
pub use reading::{
    INPUT_LIMIT, behind, first_line, first_token, input_of, inputs_are_told_apart, job_of,
    jobs_are_one, labelled, no_more, number_of, one_token, read_trace, three_tokens, two_tokens,
};
pub use short_lines::{LINE_ROOM, Next, ShortLine, next_line};
pub use sinks::{Sink, WRITE_FAULT, put_line};
pub use sources::Source;
pub use std_sink::StdSink;
pub use std_source::StdSource;
pub use trace_faults::{TraceFault, Why};

/// A source or sink did not do what it was asked, and counted a fault.
#[derive(Clone, Copy, Debug, PartialEq, Eq)]
pub struct Failed;
