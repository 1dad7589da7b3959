//! What is kept of changes in force. A [`Record`] is a change and its reply in few bytes, with what turns it; records in place,
//! one after another, are turned back and brought back, and tell what they have.
#![tactic(auto)]

mod alone;
mod deed;
mod footprint;
mod note;
mod op_note;
mod operated;
mod operation;
mod record;
mod reply_note;
mod retired;
mod rows;
mod serials;
mod turning;
mod whole;

pub use alone::{is_alone, place_of};
pub use bt_changes::{OfName, World};
pub use record::Record;
pub use retired::{retires_none, take_out_retired};
pub use rows::change_rows;
pub use serials::change_of;
pub use turning::{drop_front, has_serial, lay_down, lay_one, stand_one, stand_up};
