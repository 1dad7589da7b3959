//! Records of changes in place, and moments: each an exchange of those in place with others.
#![tactic(auto)]

mod base;
mod gone;
mod in_place;
mod moment;
mod moves;
mod room;
mod taken;

pub use base::give_up;
pub use gone::Gone;
pub use journal_record::{
    OfName, Record, World, change_of, change_rows, drop_front, has_serial, is_alone, lay_down,
    place_of, retires_none, take_out_retired,
};
pub use moment::{Moment, Taking};
pub use moves::{exchange, exchange_taking};
pub use room::make_room;
pub use taken::{first_taking_out, moment_rows};
