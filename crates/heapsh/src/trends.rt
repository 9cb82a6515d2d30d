//! A trend, which has a heap of its own, and a heap that counts its operations.

use crate::heaps::one_command;
use crate::replies::{Said, push, push_fault, push_number, push_refused};
use crate::words::{config_of, length, numbers_of};
use block_store::Config;
use control_heap::{ControlHeap, Counted, Fault, operations_of};
use heap_structures::{Sample, Trend};
use heap_system::opening;
use never_heap::Command;
use rate_plan::plan;
use std::alloc::Global;

/// The trend, if one is open.
#[derive(Drop)]
pub struct Trends {
    trend: Option<Trend>,
    counted: Option<ControlHeap<Counted>>,
}

impl Trends {
    pub fn none() -> Trends {
        Trends {
            trend: None,
            counted: None,
        }
    }

    /// Opens a trend or does a call on it. Returns whether the words say such a thing.
    pub fn trend(&mut self, alloc: Global, words: &[&str], out: &mut String) -> Said {
        let Some((verb, rest)) = words.split_first() else {
            return Ok(false);
        };
        if *verb == "open" {
            return self.open(alloc, rest, out);
        }
        let (Some(trend), Some(numbers)) = (&mut self.trend, numbers_of(alloc, rest)?) else {
            return Ok(false);
        };
        call(trend, verb, numbers.as_slice(), out)
    }

    fn open(&mut self, alloc: Global, words: &[&str], out: &mut String) -> Said {
        let Some((size, rest)) = words.split_first() else {
            return Ok(false);
        };
        let (Ok(size), Some(config)) = (size.parse::<u32>(), config_of(rest)) else {
            return Ok(false);
        };
        self.trend = opened(alloc, config, size);
        if self.trend.is_some() {
            push(out, "ok")
        } else {
            push_refused(out, "the heap does not fit the trend")
        }
    }

    /// Opens a heap that counts, or does a command on it. Returns whether the words say such a
    /// thing.
    pub fn count(&mut self, alloc: Global, words: &[&str], out: &mut String) -> Said {
        if let Some((verb, rest)) = words.split_first() {
            if *verb == "open" {
                return self.open_counted(alloc, rest, out);
            }
        }
        let Some(heap) = &mut self.counted else {
            return push(out, "no heap is open that counts");
        };
        match one_command(alloc, words)? {
            Some(command) => push_operations(heap, command, out),
            None => Ok(false),
        }
    }

    fn open_counted(&mut self, alloc: Global, words: &[&str], out: &mut String) -> Said {
        let Some(config) = config_of(words) else {
            return Ok(false);
        };
        self.counted = counting(alloc, config);
        push(
            out,
            if self.counted.is_some() {
                "ok"
            } else {
                "refused"
            },
        )
    }
}

fn opened(alloc: Global, config: Config, size: u32) -> Option<Trend> {
    if !Trend::fits(&config, size) {
        return None;
    }
    Trend::open(alloc, config, size).ok()
}

fn call(trend: &mut Trend, verb: &str, n: &[u64], out: &mut String) -> Said {
    match (verb, n) {
        ("push", [value]) => push_sample(trend, *value, false, out),
        ("push_alarm", [value]) => push_sample(trend, *value, true, out),
        ("get", [i]) => push_maybe(out, value_at(trend, length(*i))),
        ("alarm", [i]) => push_maybe(out, alarm_at(trend, length(*i))),
        ("len", []) => push_number(out, "number", u64::from(trend.len())),
        ("alarms", []) => push_number(out, "number", u64::from(trend.alarms())),
        ("pushed", []) => push_number(out, "number", trend.pushed()),
        _ => Ok(false),
    }
}

fn push_sample(trend: &mut Trend, value: u64, alarm: bool, out: &mut String) -> Said {
    let Some(value) = length(value) else {
        return push_refused(out, "no number below 2^32");
    };
    match pushed(trend, value, alarm) {
        Ok(()) => push(out, "ok"),
        Err(fault) => push_fault(out, fault),
    }
}

fn pushed(trend: &mut Trend, value: u32, alarm: bool) -> Result<(), Fault> {
    trend.push(Sample { value, alarm })
}

fn value_at(trend: &mut Trend, i: Option<u32>) -> Option<u64> {
    match trend.get(i?) {
        Ok(Some(value)) => Some(u64::from(value)),
        _ => None,
    }
}

fn alarm_at(trend: &mut Trend, i: Option<u32>) -> Option<u64> {
    trend.alarm(i?).unwrap_or(None)
}

fn push_maybe(out: &mut String, number: Option<u64>) -> Said {
    match number {
        Some(number) => push_number(out, "number", number),
        None => push(out, "none"),
    }
}

fn counting(alloc: Global, config: Config) -> Option<ControlHeap<Counted>> {
    if !config.in_bounds() || config.threads != 1 || plan(&config).is_err() {
        return None;
    }
    let words = Counted::new(opening(alloc, &config).ok()?);
    ControlHeap::on(alloc, config, words).ok()
}

fn push_operations(heap: &mut ControlHeap<Counted>, command: Command, out: &mut String) -> Said {
    match operations(heap, command) {
        Some(operations) => push_number(out, "operations", operations),
        None => push(out, "refused"),
    }
}

fn operations(heap: &mut ControlHeap<Counted>, command: Command) -> Option<u64> {
    operations_of(heap, command)
}
