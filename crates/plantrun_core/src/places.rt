//! Where the tags of the plant lie in its table.

/// The largest number that a tag can have.
pub const LARGEST: u64 = (1 << 62) - 1;

/// How many tags the table has.
pub const PLACES: u32 = 48;

/// How many sensors have limits. Sensor `i` is tag `i`, and tag 0 is the one that is controlled.
pub const ALARMS: u32 = 4;

/// The set point of the controller.
pub const SET_POINT: u32 = 4;

/// The first of the tags by which alarms are acknowledged, one for each sensor.
pub const ACKNOWLEDGED: u32 = 5;

/// How many tags the input may write: sensors, set point and acknowledgements.
pub const INPUTS: u32 = 9;

/// The output of the controller.
pub const OUTPUT: u32 = 9;

/// The first tag of the alarm list, which has one for each sensor.
pub const LISTED: u32 = 10;

/// The first tag of the ring of readings, and how many it has.
pub const FIRST_KEPT: u32 = 14;

pub const RING: u32 = 32;
