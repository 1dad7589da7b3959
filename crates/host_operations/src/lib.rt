//! Changes of one map: an operation on it, a link in it, and its freezing.
#![tactic(auto)]

pub mod freeze;
pub mod link;
pub mod operate;
