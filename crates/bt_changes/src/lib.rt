//! A host as one value: one change of it, with the undoing that takes the change back, and the answers to questions.
#![tactic(auto)]

mod devices;
mod dump;
pub mod named;
mod question;
mod running;
mod shown_progs;
pub mod world;

pub use host_state::{
    Ask, AskReply, Change, Code, DeviceRow, Element, Listing, MapRow, Origin, ProgRow, Refusal,
    Reply, TakenItem,
};
pub use host_undoing::Undoing;
pub use named::OfName;
pub use world::World;
