//! The kind of map whose entries stand under addresses, and hash maps (Documentation/bpf/map_hash.rst), where the address of
//! a key is the key itself.
#![tactic(auto)]

pub mod address;
pub mod addressing;
pub mod entries;
pub mod hash;

pub use address::Address;
pub use addressing::Addressing;
pub use entries::EntriesKind;
pub use hash::HashKind;
pub use map_table::Table;
