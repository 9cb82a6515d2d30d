//! The report of what was measured.

ghost use Rattle.std.specs.Prelude.{◌≡◌, ◌<◌, ◌^◌, ◌⊎◌, length, IfSome, IfNone};
ghost use Rattle.timed_runs.specs.time_histograms.Counts.{IsPercentile};

use crate::bounds::turns_alone;
use crate::kinds::{KINDS, Kind};
use crate::samples::{
    Sample, TimedCommand, Which, count_commands, line_of, sample_of, timed_commands,
};
use crate::stamps::Stamps;
use crate::time_histograms::{CLASSES, bucket_of, fullest, power};
use atom_board::Closed;
use block_store::OutOfMemory;
use never_heap::Logs;
use rate_plan::plan;
use std::alloc::Global;
use std::fmt;
use std::time::{Clock, CpuClock};

/// What is told of processor time.
const PROCESSOR: &str =
    "cpu ns: the processor time of the longest; for the rest of it its thread did not run\n";

/// The form of a report.
#[derive(Clone, Copy, Debug, PartialEq, Eq)]
pub enum Form {
    /// A table for all threads and each of several, with bars.
    Table,
    /// The rows of all tables as comma separated values, after a line of titles.
    Csv,
}

/// A run, with what its times are told by.
#[derive(Drop)]
pub struct Told<'a> {
    pub run: &'a Closed,
    pub commands: &'a [TimedCommand],
    pub rate: Option<u64>,
    pub form: Form,
}

/// The report of what was measured of a run: of all threads, and where there are several of each.
///
/// # Errors
///
/// `OutOfMemory` where there is no room for it, or for the times in order.
pub fn report_of<C: Clock + CpuClock + Sync>(
    alloc: Global,
    reading: u64,
    run: &Closed,
    stamps: &Stamps<'_, C>,
    form: Form,
) -> Result<String, OutOfMemory> {
    let config = run.config();
    let rate = if config.in_bounds() {
        plan(config).ok()
    } else {
        None
    };
    let commands = timed_commands(alloc, run, stamps)?;
    let told = Told {
        run,
        commands: commands.as_slice(),
        rate,
        form,
    };
    let mut report = head_of(alloc, reading, form)?;
    add_group(alloc, &told, None, &mut report)?;
    if run.threads() > 1 {
        for thread in 0..run.threads() {
            add_group(alloc, &told, Some(thread), &mut report)?;
        }
    }
    Ok(report)
}

/// The lines before the rows: what one reading of the clock takes, or the titles of the values.
fn head_of(alloc: Global, reading: u64, form: Form) -> Result<String, OutOfMemory> {
    match form {
        Form::Table => Ok(format!(in alloc;
            "clock: one reading takes {reading} ns, and is in each time\n{PROCESSOR}"
        )?),
        Form::Csv => Ok(String::from_str(alloc, CSV_TITLES)?),
    }
}

/// Adds what was measured of the commands of one thread, or of all: a row for each kind, and in a
/// table the histogram of all kinds.
fn add_group(
    alloc: Global,
    told: &Told<'_>,
    thread: Option<u32>,
    report: &mut String,
) -> Result<(), OutOfMemory> {
    if told.form == Form::Table {
        report.push_str(title_of(alloc, thread)?.as_str())?;
        report.push_str(TITLES)?;
    }
    for kind in KINDS {
        add_kind(alloc, told, thread, Some(kind), report)?;
    }
    let all = add_kind(alloc, told, thread, None, report)?;
    match told.form {
        Form::Table => add_histogram(alloc, all.times.as_slice(), report),
        Form::Csv => Ok(()),
    }
}

fn title_of(alloc: Global, thread: Option<u32>) -> Result<String, OutOfMemory> {
    match thread {
        Some(thread) => Ok(format!(in alloc; "\nthread {thread}\n")?),
        None => Ok(format!(in alloc; "\nall threads\n")?),
    }
}

/// The titles of the columns of a row.
const TITLES: &str = "kind                commands  median ns   99.9% ns longest ns     cpu ns  \
thread  command      line  most turns\n";

const CSV_TITLES: &str =
    "of,kind,commands,median ns,99.9% ns,longest ns,cpu ns,thread,command,line,most turns\n";

/// Adds the row of a kind, where there are commands of it.
fn add_kind(
    alloc: Global,
    told: &Told<'_>,
    thread: Option<u32>,
    kind: Option<Kind>,
    report: &mut String,
) -> Result<Sample, OutOfMemory> {
    let width = told.run.config().width;
    let which = Which { thread, kind };
    let sample = sample_of(alloc, width, told.commands, which)?;
    let row = Row {
        of: thread,
        name: name_of(kind),
        commands: count_commands(width, told.run, which),
        figures: figures_of(&sample),
        place: place_of(told, &sample),
    };
    if row.commands > 0 {
        let text = match told.form {
            Form::Table => format!(in alloc; "{row}")?,
            Form::Csv => csv_text(alloc, &row)?,
        };
        report.push_str(text.as_str())?;
    }
    Ok(sample)
}

fn name_of(kind: Option<Kind>) -> &'static str {
    match kind {
        Some(kind) => kind.name(),
        None => "all",
    }
}

/// What is told of the times of a kind, in nanoseconds.
#[derive(Clone, Copy, Debug)]
struct Figures {
    median: u64,
    most_of_thousand: u64,
    longest: u64,
}

fn figures_of(sample: &Sample) -> Option<Figures>
    ensures median { IfSome result (λ f. IsPercentile 500 sample.now.times f.median) }
    ensures most { IfSome result (λ f. IsPercentile 999 sample.now.times f.most_of_thousand) }
    ensures longest { IfSome result (λ f.
        IfSome sample.now.longest (λ one. f.longest ≡ one.nanoseconds)) }
    ensures none { IfNone result ((sample.now.longest ≡ None) ⊎ ((length sample.now.times ≡ 0)
        ⊎ (2 ^ 32 < length sample.now.times))) }
{
    let longest = sample.longest?;
    Some(Figures {
        median: sample.times.percentile(500)?,
        most_of_thousand: sample.times.percentile(999)?,
        longest: longest.nanoseconds,
    })
}

/// Which command took the longest, and how many turns it has at most when it alone has them.
#[derive(Clone, Copy, Debug)]
struct Place {
    used: Option<u64>,
    thread: u32,
    number: usize,
    line: u64,
    turns: Option<u64>,
}

fn place_of(told: &Told<'_>, sample: &Sample) -> Option<Place> {
    let one = sample.longest?;
    Some(Place {
        used: one.used,
        thread: one.thread,
        number: one.number.saturating_add(1),
        line: line_of(told.run, one.thread, one.number),
        turns: turns_of(told, &one),
    })
}

/// What is told of the commands of a kind, of one thread or of all.
#[derive(Clone, Copy, Debug)]
struct Row {
    /// The thread, where it is of one.
    of: Option<u32>,
    name: &'static str,
    commands: u64,
    figures: Option<Figures>,
    place: Option<Place>,
}

impl fmt::Display for Row {
    fn fmt<W: fmt::Write>(&self, f: &mut fmt::Formatter<W>) -> fmt::Result {
        let (name, commands) = (self.name, self.commands);
        write!(f, "{name:<18}{commands:>10}")?;
        if let Some(figures) = self.figures {
            let (median, most) = (figures.median, figures.most_of_thousand);
            let longest = figures.longest;
            write!(f, " {median:>10} {most:>10} {longest:>10}")?;
        }
        if let Some(place) = self.place {
            let (thread, number, line) = (place.thread, place.number, place.line);
            let used = place.used.unwrap_or(0);
            write!(f, " {used:>10} {thread:>7} {number:>8} {line:>9}")?;
            if let Some(turns) = place.turns {
                write!(f, " {turns:>11}")?;
            }
        }
        f.write_str("\n")
    }
}

/// The row as comma separated values. What a table leaves out is empty.
fn csv_text(alloc: Global, row: &Row) -> Result<String, OutOfMemory> {
    let (name, commands) = (row.name, row.commands);
    let of = match row.of {
        Some(thread) => format!(in alloc; "{thread}")?,
        None => format!(in alloc; "all")?,
    };
    let figures = match row.figures {
        Some(figures) => {
            let (median, most) = (figures.median, figures.most_of_thousand);
            let longest = figures.longest;
            format!(in alloc; "{median},{most},{longest}")?
        }
        None => format!(in alloc; ",,")?,
    };
    let place = match row.place {
        Some(place) => place_text(alloc, &place)?,
        None => format!(in alloc; ",,,,")?,
    };
    Ok(format!(in alloc; "{of},{name},{commands},{figures},{place}\n")?)
}

fn place_text(alloc: Global, place: &Place) -> Result<String, OutOfMemory> {
    let (thread, number, line) = (place.thread, place.number, place.line);
    let used = place.used.unwrap_or(0);
    match place.turns {
        Some(turns) => Ok(format!(in alloc; "{used},{thread},{number},{line},{turns}")?),
        None => Ok(format!(in alloc; "{used},{thread},{number},{line},")?),
    }
}

fn turns_of(told: &Told<'_>, one: &TimedCommand) -> Option<u64> {
    let config = told.run.config();
    if !config.in_bounds() {
        return None;
    }
    turns_alone(config, told.rate?, &one.command)
}

/// Adds how many times lie between each power of two and the next, with a row of marks each.
fn add_histogram(alloc: Global, times: &[u64], report: &mut String) -> Result<(), OutOfMemory> {
    let most = fullest(times);
    for class in 0..CLASSES {
        let bar = bucket_of(times, power(class), most);
        if bar.count > 0 {
            report.push_str(format!(in alloc; "{bar}")?.as_str())?;
        }
    }
    Ok(())
}
