//! What the registers of a heap reach, as a plain value: its bytes, and the commands that build it.

mod command_laws;
mod faults;
mod laws;
mod needs;
mod picture;
mod plans;
mod reading;
mod writing;

pub use command_laws::{commands_keep_names, names_take_no_blocks};
pub use faults::{ReadError, SaveFault};
pub use laws::{names_follow_one_another, pictures_are_built};
pub use needs::Needs;
pub use picture::{Item, Kind, Picture};
pub use plans::{Planning, plan};
pub use reading::decode;
pub use writing::encode;
