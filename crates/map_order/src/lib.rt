//! A list of row numbers in which a row comes and goes at any position with little work.
#![tactic(auto)]

mod blocks;
pub mod order;

pub use order::Order;
