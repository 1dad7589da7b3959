//! The frames of a host run from a capture, as tcpdump writes it: the classic file of pcap-savefile(5).
#![tactic(auto)]

mod capture;
mod fault;
mod order;
mod packet;

pub use capture::{frames_in, is_capture};
pub use fault::CaptureFault;
