//! The last samples of a signal and the alarms among them, on a heap of their own.

ghost use Rattle.std.specs.Prelude.{◌≡◌, ◌≤◌, ◌<◌, ◌+◌, ◌-◌, ◌*◌, ◌^◌, ◌∷◌, ◌++◌, ◌↔◌, IsTrue, ℕ, Option, false, nat_lt, if◌then◌else◌, List, [], length, IfOk, IfErr, IsOkAnd, MatchResult};
ghost use Rattle.block_store.specs.declared.Config.{Config};
ghost use Rattle.never_heap.specs.declared.Command.TheVariants.{Arr};
ghost use Rattle.never_heap.specs.Licensed.{NoFulls};
ghost use Rattle.control_heap.specs.Controls.{HasLeft};
ghost use Rattle.control_heap.specs.Refusals.{IsOpenFault};
ghost use Rattle.control_heap.specs.declared.faults.Fault.TheVariants as faults;
ghost use Rattle.heap_structures.specs.Alarms.{cleared, stands};
ghost use Rattle.heap_structures.specs.Circles.{last_of};
ghost use Rattle.heap_structures.specs.Heaps.{HasRoom};
ghost use Rattle.heap_structures.specs.Trends.{HoldsTrend, IsTrend, LacksRoom, Lays, LaysAfter, Pushes, State, alarm_in, alarms_in, number_of, trend_heap, trend_size, value_at, with_alarm};
ghost use Rattle.heap_structures.specs.declared.trend.Sample.{Sample};
ghost use Rattle.heap_structures.specs.declared.trend.Trend.{Trend};

use crate::places::admit;
use crate::{Alarm, AlarmList, Records};
use array_trees::blocks_of_array;
use block_store::Config;
use control_heap::{ControlHeap, Fault, OpenFault, open, shown_heaps_met_no_full};
use object_lists::blocks_of_record;
use rate_plan::plan;
use std::alloc::Global;

// The register of the newest sample's object. It is also the spare register of the alarms: what it
// holds need not survive from one call to the next.
const OBJECT: u8 = 1;

const NUMBER: u8 = 2;

const NUMBERS: u8 = 3;

const ALARMS: u8 = 4;

/// A value of a signal, and whether it is an alarm.
#[derive(Clone, Copy, Debug, PartialEq, Eq)]
pub struct Sample {
    pub value: u32,
    pub alarm: bool,
}

/// The last samples of a signal, at most `size`, and the alarms among them. The heap is the trend's
/// own and large enough for them, so no allocation is answered `Full` (`heap`). An alarm goes with
/// its sample, not before: a trend shows the past, and its alarms are neither acknowledged nor
/// cleared.
#[derive(Drop)]
pub struct Trend {
    heap: ControlHeap,
    // The values of these samples, the oldest first.
    numbers: Records,
    // Which of them are alarms. Samples are counted from 0.
    alarms: AlarmList,
    // How many samples were pushed.
    pushed: u64,
}

impl Trend {
    /// Whether a heap of this configuration is known to hold a trend of `size` samples, from 2 to
    /// 65,535: it can be opened; `object` is at least the blocks of an array of `size` values; and
    /// `live` is at least the sum of the blocks of the registers and the shared array, twice the
    /// blocks of an array or a record of `size` values, whichever is larger, and `size` + 1.
    pub fn fits(config: &Config, size: u32) -> bool
        ensures { IsTrue result ↔ HoldsTrend config.now size }
    {
        if !config.in_bounds() || config.threads != 1 || !(2..=65_535).contains(&size) {
            return false;
        }
        let Ok(_rate) = plan(config) else {
            return false;
        };
        let array = blocks_of_array(config.width, size);
        let object = array.max(blocks_of_record(config.width, size));
        let opening = config.width.registers_end(1) + blocks_of_array(config.width, config.shared);
        array <= config.object && opening + 2 * object + size < config.live
    }

    /// Opens a trend of at most `size` samples, none pushed yet, on a new heap, by two commands.
    /// The configuration must be one that `fits` accepts.
    ///
    /// # Errors
    ///
    /// `NoMemory`, at any time: the configuration rules out the other causes of
    /// `ControlHeap::open`.
    pub fn open(alloc: Global, config: Config, size: u32) -> Result<Trend, OpenFault>
        requires { HoldsTrend config size }
        ensures trend { IfOk result (λ t. IsTrend t config size 2 []) }
        ensures refused { IfErr result (IsOpenFault config) }
    {
        let mut heap = open(alloc, config)?;
        let Ok(numbers) = Records::new(&mut heap, NUMBERS, NUMBER, size) else {
            unreachable!();
        };
        let Ok(alarms) = AlarmList::new(&mut heap, ALARMS, OBJECT, size) else {
            unreachable!();
        };
        Ok(Trend {
            heap,
            numbers,
            alarms,
            pushed: 0,
        })
    }

    /// Adds a sample; where `size` samples are there, the oldest goes, and its alarm with it. At
    /// most 3 × `size` + 7 commands, one of which makes an object of one block.
    ///
    /// # Errors
    ///
    /// `NoLifeLeft` exactly where the heap's life has no room for so many commands or for the
    /// object. The trend is then unchanged.
    pub fn push(&mut self, sample: Sample) -> Result<(), Fault>
        ensures { (c : Config) (n most : ℕ) (xs : List Sample) → IsTrend self.old c n most xs
            → Pushes self.old self.new c n most xs sample result }
    {
        admit(&self.heap, 3 * u64::from(self.size()) + 7, true)?;
        self.record(sample.value)?;
        self.clear_oldest()?;
        self.raise_newest(sample.alarm)?;
        self.pushed = self.pushed.saturating_add(1);
        Ok(())
    }

    /// The value of sample `i` of those that are there, counted from 0, the oldest first, or `None`
    /// where there is none. At most two commands.
    ///
    /// # Errors
    ///
    /// `NoLifeLeft` where the heap's life has no room for them. The trend is then unchanged.
    pub fn get(&mut self, i: u32) -> Result<Option<u32>, Fault>
        ensures { (c : Config) (n most : ℕ) (xs : List Sample) → IsTrend self.old c n most xs
            → MatchResult result
            (λ v. (v ≡ value_at n xs i) × IsTrend self.new c n (most + 2) xs)
            (LacksRoom 2 self.old self.new) }
    {
        self.numbers.get(&mut self.heap, i, OBJECT)
    }

    /// How many samples it shows.
    pub fn len(&self) -> u32
        ensures { (c : Config) (n most : ℕ) (xs : List Sample) → IsTrend self.now c n most xs
            → result ≡ length (last_of n xs) }
    {
        self.numbers.len()
    }

    /// How many of the samples shown are alarms.
    pub fn alarms(&self) -> u32
        ensures { (c : Config) (n most : ℕ) (xs : List Sample) → IsTrend self.now c n most xs
            → result ≡ alarms_in (last_of n xs) }
    {
        self.alarms.len()
    }

    /// The number of the sample that is alarm `i`, or `None` if there are fewer alarms. Alarms are
    /// counted from 0, the oldest first; samples from 0, the first that was pushed. At most one
    /// command.
    ///
    /// # Errors
    ///
    /// `NoLifeLeft` where the heap's life has no room for it. The trend is then unchanged.
    pub fn alarm(&mut self, i: u32) -> Result<Option<u64>, Fault>
        ensures { (c : Config) (n most : ℕ) (xs : List Sample) → IsTrend self.old c n most xs
            → MatchResult result
            (λ v. (v ≡ alarm_in n xs i) × IsTrend self.new c n (most + 1) xs)
            (LacksRoom 1 self.old self.new) }
    {
        let alarm = self.alarms.get(&mut self.heap, i)?;
        Ok(number_in(alarm))
    }

    /// How many samples were pushed, those that are gone among them.
    pub fn pushed(&self) -> u64
        ensures { (c : Config) (n most : ℕ) (xs : List Sample) → IsTrend self.now c n most xs
            → result ≡ length xs }
    {
        self.pushed
    }

    /// The heap, for its gauges. It has met no `Full`.
    pub fn heap(&self) -> &ControlHeap
        ensures heap { result.now ≡ trend_heap self.now }
        ensures full { (c : Config) (n most : ℕ) (xs : List Sample)
            → (is : IsTrend self.now c n most xs) → NoFulls is.lays.has.shows.run.order }
    {
        shown_heaps_met_no_full();
        &self.heap
    }

    /// How many samples it shows at most.
    pub fn size(&self) -> u32
        ensures size { result ≡ trend_size self.now }
        ensures shown { (c : Config) (n most : ℕ) (xs : List Sample)
            → IsTrend self.now c n most xs → result ≡ n }
    {
        self.numbers.cells().size()
    }

    /// Adds a value as an object, which takes the place of the oldest where there are `size`.
    fn record(&mut self, value: u32) -> Result<(), Fault>
        ensures pushed { self.new.pushed ≡ self.old.pushed }
        ensures lays { (s : State self.old) → HasRoom 4 self.old.heap
            → MatchResult result
            (λ _. LaysAfter s 4 self.new (s.made + 1) (last_of s.size (s.ys ++ value ∷ [])) s.ls
            × HasLeft self.old.heap (Arr 1 1))
            (λ f. (f ≡ faults.NoLifeLeft) × (self.new ≡ self.old)
            × ¬ HasLeft self.old.heap (Arr 1 1)) }
    {
        self.numbers.push(&mut self.heap, value, OBJECT)
    }

    /// Clears the alarm of the sample that the newest replaced, if it was one.
    fn clear_oldest(&mut self) -> Result<(), Fault>
        ensures pushed { self.new.pushed ≡ self.old.pushed }
        ensures lays { (s : State self.old) → HasRoom (2 * s.size + 1) self.old.heap
            → self.old.pushed < 2 ^ 60
            → IsOkAnd result (λ _. LaysAfter s (2 * s.size + 1) self.new s.made s.ys
            (if nat_lt self.old.pushed s.size then s.ls
            else cleared (self.old.pushed - s.size) s.ls)) }
    {
        let size = u64::from(self.size());
        if self.pushed < size {
            return Ok(());
        }
        self.alarms.clear(&mut self.heap, self.pushed - size)?;
        Ok(())
    }

    /// Raises the alarm of the newest sample, if it is one.
    fn raise_newest(&mut self, alarm: bool) -> Result<(), Fault>
        ensures pushed { self.new.pushed ≡ self.old.pushed }
        ensures lays { (s : State self.old) → HasRoom (s.size + 2) self.old.heap
            → self.old.pushed < 2 ^ 60 → stands self.old.pushed s.ls ≡ false
            → length s.ls < s.size
            → IsOkAnd result (λ _. Lays self.new s.config s.size (s.most + (s.size + 2)) s.made
            s.ys (s.ls ++ with_alarm alarm self.old.pushed [])) }
    {
        if !alarm {
            return Ok(());
        }
        self.alarms.raise(&mut self.heap, self.pushed)?;
        Ok(())
    }
}

/// The number of an alarm, if there is one.
fn number_in(alarm: Option<Alarm>) -> Option<u64>
    ensures { result ≡ number_of alarm }
{
    match alarm {
        Some(alarm) => Some(alarm.number),
        None => None,
    }
}
