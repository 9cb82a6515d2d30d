//! Structures for programs on a `ControlHeap`: each shows a plain list of values.
#![tactic(auto)]

mod alarms;
mod cells;
mod laws;
mod map;
mod places;
mod queue;
mod records;
mod ring;
mod table;
mod trend;

pub use alarms::{Alarm, AlarmList, NUMBERS, Raised, alarms_stand_once};
pub use cells::Cells;
pub use laws::{blocks_of, others_stay, quiet_commands_keep_graphs};
pub use map::{Insertion, Map, other_maps_stay};
pub use queue::Queue;
pub use records::{Records, few_blocks_live, other_records_stay};
pub use ring::Ring;
pub use trend::{Sample, Trend};
