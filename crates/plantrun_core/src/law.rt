//! The control law: a PI controller in whole numbers.

ghost use Rattle.std.specs.Prelude.{◌≡◌, ◌≤◌, IfSome};
ghost use Rattle.plantrun_core.specs.Laws as laws;

/// The largest measured value and set point; a greater one counts as this.
pub const SPAN: u64 = 1_000_000;

/// The largest output, fully open.
pub const FULL: u64 = 1_000;

/// The gain of the error: 8 / 16,384 of the output for each unit.
const GAIN: u64 = 8;

/// What each tick adds to the integral for each unit of the error.
const RESET: u64 = 1;

/// By what the sum of both parts is divided.
const SCALE: u64 = 16_384;

/// The largest integral, which opens fully alone.
const MOST: u64 = FULL * SCALE;

/// The state of a controller.
#[derive(Clone, Copy, Debug, PartialEq, Eq)]
pub struct Loop {
    /// The integral of the error, 0 to `FULL * SCALE`.
    pub integral: u64,
    /// What it put out last, 0 to `FULL`.
    pub output: u64,
}

/// The value of a tag that is there and good, at most `SPAN`.
pub fn value_of(tag: Option<(u64, u64)>) -> Option<u64>
    ensures law { result ≡ laws.value_of tag }
    ensures span { IfSome result (λ v. v ≤ SPAN) }
{
    match tag {
        Some((value, word)) if word % 2 == 1 => Some(value.min(SPAN)),
        _ => None,
    }
}

impl Loop {
    /// The state before the first tick: the output is closed.
    pub fn first() -> Loop
        ensures { result ≡ record { integral = 0; output = 0 } }
    {
        Loop {
            integral: 0,
            output: 0,
        }
    }

    /// The state after a tick at which the measured tag and the set point were these. Where one of
    /// them is missing or bad, nothing changes.
    pub fn after(self, measured: Option<u64>, set: Option<u64>) -> Loop
        requires measured { IfSome measured (λ v. v ≤ SPAN) }
        requires set { IfSome set (λ v. v ≤ SPAN) }
        requires integral { self.integral ≤ MOST }
        ensures law { result ≡ laws.loop_after self measured set }
        ensures integral { result.integral ≤ MOST }
        ensures output { self.output ≤ FULL → result.output ≤ FULL }
    {
        match (measured, set) {
            (Some(measured), Some(set)) => self.driven(measured, set),
            _ => self,
        }
    }

    /// The state after a tick with both values.
    fn driven(self, measured: u64, set: u64) -> Loop
        requires measured { measured ≤ SPAN }
        requires set { set ≤ SPAN }
        requires integral { self.integral ≤ MOST }
        ensures law { result ≡ laws.driven self measured set }
        ensures integral { result.integral ≤ MOST }
        ensures output { result.output ≤ FULL }
    {
        let output = output_of(set, measured, self.integral);
        Loop {
            integral: integral_after(set, measured, self.integral, output),
            output,
        }
    }
}

/// The output for this set point, measured value and integral: proportional part and integral,
/// scaled, and clamped between 0 and `FULL`.
pub fn output_of(set: u64, measured: u64, integral: u64) -> u64
    requires set { set ≤ SPAN }
    requires integral { integral ≤ MOST }
    ensures law { result ≡ laws.output_of set measured integral }
    ensures clamped { result ≤ FULL }
{
    let wanted = (GAIN * set + integral).saturating_sub(GAIN.saturating_mul(measured));
    (wanted / SCALE).min(FULL)
}

/// The integral of the next tick. It stays as it is where the output is clamped and the error would
/// drive it further, and never leaves 0 to `MOST`.
pub fn integral_after(set: u64, measured: u64, integral: u64, output: u64) -> u64
    requires set { set ≤ SPAN }
    requires measured { measured ≤ SPAN }
    requires integral { integral ≤ MOST }
    ensures law { result ≡ laws.integral_after set measured integral output }
    ensures clamped { result ≤ MOST }
{
    let winds_up = output == FULL && measured < set;
    let winds_down = output == 0 && set < measured;
    if winds_up || winds_down {
        integral
    } else {
        (integral + RESET * set)
            .saturating_sub(RESET * measured)
            .min(MOST)
    }
}
