//! Buckets of keys, and rows in their chains.
#![tactic(auto)]

pub mod bucket;
pub mod chains;
pub mod rows;

pub use bucket::{bucket_count, bucket_of};
pub use chains::Chains;
pub use rows::each_row;
