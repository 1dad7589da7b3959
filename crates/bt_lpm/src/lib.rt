//! LPM tries (Documentation/bpf/map_lpm_trie.rst): values under prefixes of keys, of which a look-up finds the longest.
#![tactic(auto)]

pub mod lpm;
mod prefix;

pub use lpm::LpmKind;
