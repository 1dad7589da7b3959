//! Objects that come with their pins, and pins and devices that keep objects live or let them go.
#![tactic(auto)]

pub mod attach;
pub mod create;
pub mod load;
pub mod pin;
