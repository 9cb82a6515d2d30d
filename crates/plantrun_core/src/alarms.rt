//! The alarm list: when an alarm is raised, acknowledged and cleared.

ghost use Rattle.std.specs.Prelude.{◌≡◌, ◌<◌};
ghost use Rattle.plantrun_core.specs.Alarms as alarms;
ghost use Rattle.plantrun_core.specs.Roles as roles;

use crate::law::value_of;
use crate::places::{ALARMS, LARGEST, LISTED};
use array_tables::tag_table::Operation;

/// A good value below `low` or above `high` raises an alarm, which is cleared once a good value is
/// at least `dead` inside both.
#[derive(Clone, Copy)]
pub struct Limits {
    pub low: u64,
    pub high: u64,
    pub dead: u64,
}

/// The limits of a sensor, 0 to 3.
pub fn limits_of(sensor: u32) -> Limits
    ensures { result ≡ roles.limits_of sensor }
{
    match sensor {
        0 => bounds(100_000, 900_000, 20_000),
        1 => bounds(200_000, 700_000, 10_000),
        2 => bounds(0, 800_000, 30_000),
        _ => bounds(50_000, 950_000, 5_000),
    }
}

fn bounds(low: u64, high: u64, dead: u64) -> Limits
    ensures { result ≡ record { low = low; high = high; dead = dead } }
{
    Limits { low, high, dead }
}

/// What is done in the alarm list.
#[derive(Clone, Copy, Debug, PartialEq, Eq)]
pub enum Move {
    Stay,
    Raise,
    Acknowledge,
    Clear,
}

/// The states of an alarm that is in the list.
const RAISED: u64 = 1;

const ACKNOWLEDGED: u64 = 2;

impl Limits {
    /// Whether a tag is good and its value outside the limits.
    fn leaves(&self, tag: Option<(u64, u64)>) -> bool
        ensures { result ≡ alarms.leaves self.now tag }
    {
        match value_of(tag) {
            Some(value) => value < self.low || self.high < value,
            None => false,
        }
    }

    /// Whether a tag is good and its value well inside the limits.
    fn rests(&self, tag: Option<(u64, u64)>) -> bool
        ensures { result ≡ alarms.rests self.now tag }
    {
        match value_of(tag) {
            Some(value) => {
                self.low.saturating_add(self.dead) <= value
                    && value.saturating_add(self.dead) <= self.high
            }
            None => false,
        }
    }
}

/// What is done about an alarm. `kept` is its tag in the list: nothing, or its state and the word
/// that its acknowledgement had when it was raised. A new acknowledgement has another word.
pub fn move_of(
    limits: &Limits,
    kept: Option<(u64, u64)>,
    measured: Option<(u64, u64)>,
    told: Option<(u64, u64)>,
) -> Move
    ensures { result ≡ alarms.move_of limits.now kept measured told }
{
    match kept {
        None => raised(limits.leaves(measured)),
        Some((RAISED, word)) => acknowledged(word < word_of(told)),
        Some(_) => cleared(limits.rests(measured)),
    }
}

fn raised(leaves: bool) -> Move
    ensures { result ≡ alarms.raised leaves }
{
    if leaves { Move::Raise } else { Move::Stay }
}

fn acknowledged(told: bool) -> Move
    ensures { result ≡ alarms.acknowledged told }
{
    if told { Move::Acknowledge } else { Move::Stay }
}

fn cleared(rests: bool) -> Move
    ensures { result ≡ alarms.cleared rests }
{
    if rests { Move::Clear } else { Move::Stay }
}

/// The word of a tag, at most 2^62 - 1, which is the most that a table holds; 0 of none.
pub fn word_of(tag: Option<(u64, u64)>) -> u64
    ensures { result ≡ alarms.word_of tag }
{
    match tag {
        Some((_, word)) => word.min(LARGEST),
        None => 0,
    }
}

/// The operation by which the list is changed, where it is.
pub fn act_of(what: Move, alarm: u32, told: Option<(u64, u64)>) -> Option<Operation>
    requires { alarm < ALARMS }
    ensures { result ≡ alarms.act_of what alarm told }
{
    let place = LISTED + alarm;
    match what {
        Move::Stay => None,
        Move::Raise => Some(Operation::Write {
            place,
            value: RAISED,
            quality: word_of(told),
        }),
        Move::Acknowledge => Some(Operation::Write {
            place,
            value: ACKNOWLEDGED,
            quality: word_of(told),
        }),
        Move::Clear => Some(Operation::Clear { place }),
    }
}
