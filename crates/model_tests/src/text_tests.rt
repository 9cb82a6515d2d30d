//! Tests of `trace_text`: the reader and the writers on whole texts, and its streams where they
//! give little, are interrupted or fail.

#[cfg(test)]
mod job_writer;
#[cfg(test)]
mod mem_streams;
#[cfg(test)]
mod order_writer;
#[cfg(test)]
mod printing;
#[cfg(test)]
mod reading;
#[cfg(test)]
mod short;
#[cfg(test)]
mod std_streams;
#[cfg(test)]
mod stopping;
mod ten_commands;
#[cfg(test)]
mod testing;
