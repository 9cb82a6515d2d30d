//! How long a plant runs.

ghost use Rattle.std.specs.Prelude.{◌≡◌, ◌≤◌, map, string_bytes, IfSome};
ghost use Rattle.plantrun_core.specs.Readings.{plan_at};

use trace_text::number_of;

/// How long a plant runs.
#[derive(Clone, Copy)]
pub struct Plan {
    /// How many ticks, at most 2^20.
    pub ticks: u64,
    /// How many microseconds lie between two ticks, at most 1,000,000.
    pub period: u64,
}

/// The plan that two words spell; `None` of other words, and of numbers out of range.
#[tactic(auto, unfolding(crate::specs::Readings::plan_at))]
pub fn plan_of(words: &[String]) -> Option<Plan>
    ensures plan { result ≡ plan_at (map (λ w. string_bytes w) words.now) }
    ensures ticks { IfSome result (λ plan. plan.ticks ≤ 1048576) }
{
    let [ticks, period] = words else {
        return None;
    };
    let ticks = number_of(ticks.as_bytes())?;
    let period = number_of(period.as_bytes())?;
    if ticks <= 1 << 20 && period <= 1_000_000 {
        Some(Plan { ticks, period })
    } else {
        None
    }
}
