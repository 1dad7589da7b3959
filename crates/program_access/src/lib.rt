//! What a running program asks of a map, an [`Access`], and what it is answered, an [`AccessReply`].
#![tactic(auto)]

mod access;
mod reply;

pub use access::Access;
pub use reply::{AccessReply, Expected};
