//! Values of one size in one allocation: what arrays, hashes and rings keep their keys and values in.
#![tactic(auto)]

pub mod block;

pub use block::Block;
