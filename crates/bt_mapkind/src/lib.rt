//! The vocabulary of a BPF map: its attributes, what it holds, an operation or a question on it, and the exchange
//! that takes an operation back. The trait [`MapKind`] is what every kind of map meets.
#![tactic(auto)]

pub mod atomic;
pub mod attr;
pub mod bytes;
pub mod errno;
pub mod exchange;
pub mod kept;
pub mod kind;
pub mod laws;
pub mod request;

pub use atomic::{AtomicOp, AtomicSize};
pub use attr::{MapAttr, MapType};
pub use bytes::Bytes;
pub use errno::Errno;
pub use exchange::Back;
pub use kept::KeptBack;
pub use kind::MapKind;
pub use request::{MapFault, MapOp, MapReply, NewFault, Query};
