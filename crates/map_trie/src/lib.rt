//! Prefixes in a trie of bits, of which a key finds the longest that it begins with.
#![tactic(auto)]

mod keys;
mod links;
pub mod trie;

pub use trie::Trie;
