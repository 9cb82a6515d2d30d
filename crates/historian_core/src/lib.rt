//! The last 40 readings of a number, kept as objects on a garbage-collected heap.
#![tactic(auto)]

ghost use Rattle.std.specs.Prelude.{◌≡◌, ◌<◌, ◌+◌, ◌^◌, ◌∷◌, ◌++◌, ◌↔◌, ℕ, min, max, List, [], length, IfOk, IfErr, OnOk, OnErr, IsOkAnd};
ghost use Rattle.never_heap.specs.declared.Command.TheVariants.{Arr};
ghost use Rattle.never_heap.specs.Licensed.{NoFulls};
ghost use Rattle.control_heap.specs.Controls.{HasLeft};
ghost use Rattle.control_heap.specs.Refusals.{IsOpenFault};
ghost use Rattle.heap_structures.specs.declared.trend.Sample.{Sample};
ghost use Rattle.trace_text.specs.Faults.{Rose};
ghost use Rattle.trace_text.specs.Streams.{Appends, AppendsPrefix};
ghost use Rattle.historian_core.specs.declared.Historian.{Historian};
ghost use Rattle.historian_core.specs.declared.Limits.{Limits};
ghost use Rattle.historian_core.specs.StoredReadings.{Fits, IsGiven, Stores, counted, counted_in, heap_config, heap_of};
ghost use Rattle.historian_core.specs.Windows as windows;

mod stops;
mod texts;

use block_store::{Config, Width};
use control_heap::{Fault, OpenFault, shown_heaps_met_no_full};
use heap_structures::{Sample, Trend};
use std::alloc::Global;
pub use stops::{Stop, Why, report_with_status, say_stop};
pub use texts::{limits_of, reading_of, report};
use trace_text::{Failed, LineBuffer, Sink};

/// How many readings are kept, and how many each line is about at most.
pub const KEPT: u32 = 40;

/// How many readings a heap keeps in its life: 7,036,874,417,754. The life has 2^45 units, and each
/// block takes 5: one block a reading, and 12 blocks for the trend's two arrays. At 1,000 readings
/// a second these are 223 years.
pub const LIFE: u64 = (1 << 45) / 5 - 12;

/// The heap. At most 64 of its 512 blocks are ever live.
const HEAP: Config = Config {
    width: Width::Eight,
    threads: 1,
    blocks: 512,
    live: 64,
    object: 6,
    shared: 1,
};

/// A reading below `low` or above `high` is an alarm.
#[derive(Clone, Copy, Debug, PartialEq, Eq)]
pub struct Limits {
    pub low: u32,
    pub high: u32,
}

/// The figures of the readings that are kept.
#[derive(Clone, Copy, Debug, PartialEq, Eq)]
pub struct Figures {
    pub least: u64,
    pub greatest: u64,
    pub total: u64,
    pub count: u64,
    /// How many of them are alarms.
    pub alarms: u64,
}

/// A heap with the last 40 readings.
#[derive(Drop)]
pub struct Historian {
    // These readings, the oldest first, and which of them are alarms.
    trend: Trend,
}

impl Limits {
    /// Whether a reading is an alarm.
    fn has_alarm(&self, reading: u32) -> bool
        ensures { result ≡ windows.is_alarm self.now reading }
    {
        reading < self.low || self.high < reading
    }
}

impl Figures {
    /// The figures of no reading, with this count of alarms.
    fn of_alarms(alarms: u64) -> Figures
        ensures { result ≡ counted alarms [] }
    {
        Figures {
            least: (1 << 32) - 1,
            greatest: 0,
            total: 0,
            count: 0,
            alarms,
        }
    }

    /// The figures with one more reading.
    fn with(self, value: u64) -> Figures
        requires total { self.total + value < 2 ^ 64 }
        requires count { self.count + 1 < 2 ^ 64 }
        ensures { result ≡ record {
          least = min value self.least;
          greatest = max value self.greatest;
          total = value + self.total;
          count = self.count + 1;
          alarms = self.alarms;
        } }
    {
        Figures {
            least: value.min(self.least),
            greatest: value.max(self.greatest),
            total: value + self.total,
            count: self.count + 1,
            alarms: self.alarms,
        }
    }

    /// Their line. The mean of no reading is written as 0.
    fn line(&self) -> LineBuffer
        ensures { result ≡ windows.figures_line self.now }
    {
        let mean = if self.count == 0 {
            0
        } else {
            self.total / self.count
        };
        let mut line = LineBuffer::new();
        line.prepend(b"\n");
        line.prepend_number(self.alarms);
        line.prepend(b" alarms ");
        line.prepend_number(mean);
        line.prepend(b" mean ");
        line.prepend_number(self.greatest);
        line.prepend(b" greatest ");
        line.prepend_number(self.least);
        line.prepend(b"least ");
        line
    }
}

/// Opens a heap for readings, which keeps none yet, whatever the limits will be.
///
/// # Errors
///
/// `NoMemory`: the configuration rules out the other causes of `ControlHeap::open`.
pub fn start(alloc: Global) -> Result<Historian, OpenFault>
    ensures kept { (l : Limits) → IfOk result (λ h. Stores h l []) }
    ensures refused { IfErr result (IsOpenFault heap_config) }
{
    let trend = Trend::open(alloc, HEAP, KEPT)?;
    Ok(Historian { trend })
}

/// Adds a reading to fewer than `LIFE` others, and writes the line of the last 40.
///
/// # Errors
///
/// `Failed` where the sink fails: then the reading is kept, and a prefix of the line is written.
pub fn tell<K: Sink>(
    historian: &mut Historian,
    limits: &Limits,
    reading: u32,
    sink: &mut K,
) -> Result<(), Failed>
    requires { (xs : List ℕ) × Stores historian.old limits.now xs × (length xs < LIFE) }
    ensures kept { (xs : List ℕ) → Stores historian.old limits.now xs
        → Stores historian.new limits.now (xs ++ reading ∷ []) }
    ensures written { (xs : List ℕ) → Stores historian.old limits.now xs
        → OnOk result (Appends (K.held sink.old) (K.held sink.new)
        (windows.told_line limits.now (xs ++ reading ∷ []))) }
    ensures prefix { (xs : List ℕ) → Stores historian.old limits.now xs
        → OnErr result (AppendsPrefix (K.held sink.old) (K.held sink.new)
        (windows.told_line limits.now (xs ++ reading ∷ []))) }
    ensures still { OnOk result (K.faults sink.new ≡ K.faults sink.old) }
    ensures rose { OnErr result (Rose (K.faults sink.old) (K.faults sink.new)) }
{
    let line = take(historian, limits, reading).line();
    sink.put(line.bytes())
}

/// No allocation of a heap that keeps readings was answered `Full`.
pub fn readings_met_no_full()
    ensures { (h : Historian) (l : Limits) (xs : List ℕ) (k : Stores h l xs)
        → NoFulls k.lays.has.shows.run.order }
{
    shown_heaps_met_no_full();
}

/// The life of the heap has room for the object of one more reading exactly where it has kept fewer
/// than `LIFE` readings.
pub fn lives_end_with_the_heap()
    ensures { (h : Historian) (l : Limits) (xs : List ℕ) → Stores h l xs
        → (length xs < LIFE) ↔ HasLeft (heap_of h) (Arr 1 1) }
{}

/// Adds a reading to fewer than `LIFE` others, and returns the figures of the last 40.
pub fn take(historian: &mut Historian, limits: &Limits, reading: u32) -> Figures
    requires { (xs : List ℕ) × Stores historian.old limits.now xs × (length xs < LIFE) }
    ensures { (xs : List ℕ) → Stores historian.old limits.now xs
        → (result ≡ windows.figures_of limits.now (windows.last_ones (xs ++ reading ∷ [])))
        × Stores historian.new limits.now (xs ++ reading ∷ []) }
{
    let Ok(figures) = historian.add(limits, reading) else {
        unreachable!();
    };
    figures
}

impl Historian {
    /// Does `take`. No command is refused.
    fn add(&mut self, limits: &Limits, reading: u32) -> Result<Figures, Fault>
        ensures { (xs : List ℕ) → Stores self.old limits.now xs → length xs < LIFE
            → IsOkAnd result (λ f.
            (f ≡ windows.figures_of limits.now (windows.last_ones (xs ++ reading ∷ [])))
            × Stores self.new limits.now (xs ++ reading ∷ [])) }
    {
        self.trend.push(Sample {
            value: reading,
            alarm: limits.has_alarm(reading),
        })?;
        self.figures()
    }

    /// The figures of the readings that are kept.
    fn figures(&mut self) -> Result<Figures, Fault>
        ensures { (most : ℕ) (xs : List Sample) → IsGiven self.old most xs → Fits most xs 80
            → IsOkAnd result (λ f. (f ≡ counted_in xs) × IsGiven self.new (most + 80) xs) }
    {
        let mut figures = Figures::of_alarms(u64::from(self.trend.alarms()));
        let kept = self.trend.len();
        for back in 0..kept {
            let number = self.trend.get(kept - 1 - back)?.unwrap_or(0);
            figures = figures.with(u64::from(number));
        }
        Ok(figures)
    }
}
