//! The commands on programs.

mod command;
mod state;

pub use command::ProgCommand;
pub use state::ProgState;
