//! The commands on devices and the programs attached to them.

mod attach;
mod command;
mod state;

pub use command::NetCommand;
pub use state::NetState;
