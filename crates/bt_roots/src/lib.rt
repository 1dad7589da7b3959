//! The roots of a host's objects: the paths at which they are pinned and the devices to which programs
//! are attached. Each change answers the exchange that takes it back, and `live_set` tells which objects
//! are reachable from the roots.
#![tactic(auto)]

mod back;
mod device;
mod fault;
mod laws;
mod pins;
mod reach;
mod roots;
mod slots;
mod target;

pub use back::RootBack;
pub use device::{Device, devices_are_good};
pub use fault::RootFault;
pub use laws::{liveness_is_reachability, room_is_for_good, turning_twice_is_nothing};
pub use pins::Pins;
pub use roots::Roots;
pub use target::Target;
