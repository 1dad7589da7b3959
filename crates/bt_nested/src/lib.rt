//! Maps of ids (Documentation/bpf/map_of_maps.rst): arrays and hashes of maps, and program arrays.
#![tactic(auto)]

pub mod hash_outer;
pub mod outer;
pub mod prog_array;
mod slots;
mod slots_kind;

pub use hash_outer::HashOuterKind;
pub use outer::OuterKind;
pub use prog_array::ProgArrayKind;
