//! The packets of a capture, and the frames that they are.

ghost use Rattle.std.specs.Prelude.{◌≡◌, ◌<◌, List, ℕ, length, IfSome, IfNone, IfOk};
ghost use Rattle.thread_frames.specs.Faults.{IsShort};
ghost use Rattle.thread_frames.specs.declared.frame.TheConstants.{MOST_BYTES};
ghost use Rattle.thread_capture.specs.Captures.{StandsFirst};
ghost use Rattle.thread_capture.specs.declared.fault.CaptureFault.TheVariants.{NotACapture};

use crate::fault::CaptureFault;
use crate::order::Order;
use host_words::Word;
use std::alloc::Global;
use thread_frames::{FrameIn, MOST_BYTES};

/// How many bytes the header of a packet has.
const HEADER_BYTES: usize = 16;

/// Where in it the number of captured bytes stands.
const CAPTURED: usize = 8;

/// The packet that stands first, and what comes after it; `None` if not all of it is there.
pub(crate) fn first_packet(order: Order, bytes: &[u8]) -> Option<(&[u8], &[u8])>
    ensures found { IfSome result (λ found. StandsFirst order bytes.now found.0.now found.1.now) }
    ensures none { IfNone result ((packet rest : List ℕ) → StandsFirst order bytes.now packet rest → ⊥) }
    ensures shorter { IfSome result (λ found. length found.1.now < length bytes.now) }
{
    if bytes.len() < HEADER_BYTES {
        return None;
    }
    let captured = order.u32_at(bytes, CAPTURED) as usize;
    let (_, rest) = bytes.split_at(HEADER_BYTES);
    rest.split_at_checked(captured)
}

/// The frame that a packet is, with its own copy of the device's name; `NotACapture` if it has more than 4,096 bytes.
pub(crate) fn frame_of(alloc: Global, device: &Word, packet: &[u8]) -> Result<FrameIn, CaptureFault>
    ensures on { IfOk result (λ frame. frame.device ≡ device.now) }
    ensures bytes { IfOk result (λ frame. frame.bytes.items ≡ packet.now) }
    ensures short { IfOk result IsShort }
    ensures long { result ≡ Err NotACapture → MOST_BYTES < length packet.now }
{
    if packet.len() > MOST_BYTES {
        return Err(CaptureFault::NotACapture);
    }
    let bytes = Vec::from_slice(alloc, packet)?;
    Ok(FrameIn {
        device: device.copy()?,
        bytes,
    })
}
