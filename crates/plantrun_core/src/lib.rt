//! A plant: four threads on one table of tags, which lies on a heap that they share.
#![tactic(auto)]

mod alarms;
mod calls;
mod clock;
mod crew;
mod hand;
mod input;
mod law;
mod order;
mod places;
mod plans;
mod readings;
mod roles;
mod stops;
mod telling;
mod top;
mod work;

pub use alarms::{Limits, Move, limits_of, move_of};
pub use calls::{Done, Logs, Step};
pub use law::{Loop, output_of};
pub use plans::{Plan, plan_of};
pub use readings::{Reading, reading_of};
pub use stops::Stop;
pub use telling::Figures;
pub use top::{Ended, PlantExit, plant, plant_with_status};
