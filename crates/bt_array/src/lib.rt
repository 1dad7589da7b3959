//! Array maps (Documentation/bpf/map_array.rst): every index from 0 holds a value, which begins zero.
#![tactic(auto)]

pub mod array;

pub use array::ArrayKind;
