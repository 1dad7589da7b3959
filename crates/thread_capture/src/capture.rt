//! Captures, by their headers and their packets.

ghost use Rattle.std.specs.Prelude.{◌≡◌, ◌≤◌, List, None, length, is_some, IsTrue, IfOk};
ghost use Rattle.thread_frames.specs.Faults.{frames_fault};
ghost use Rattle.thread_frames.specs.declared.frame.FrameIn.{FrameIn};
ghost use Rattle.thread_capture.specs.Captures.{is_magic, order_of, is_header, HasFrames};
ghost use Rattle.thread_capture.specs.declared.fault.CaptureFault.TheVariants.{NotACapture};

use crate::fault::CaptureFault;
use crate::order::Order;
use crate::packet::{first_packet, frame_of};
use host_words::Word;
use std::alloc::Global;
use thread_frames::{FrameIn, MOST_FRAMES};

/// The magic number of a capture whose times are in microseconds.
const MICROSECONDS: u32 = 0xa1b2_c3d4;

/// The magic number of a capture whose times are in nanoseconds.
const NANOSECONDS: u32 = 0xa1b2_3c4d;

/// How many bytes the header of a capture has.
const HEADER_BYTES: usize = 24;

/// The link type of Ethernet.
const ETHERNET: u32 = 1;

fn is_magic(number: u32) -> bool
    ensures { result ≡ is_magic number }
{
    number == MICROSECONDS || number == NANOSECONDS
}

// The byte order in which a file begins with a magic number.
#[tactic(auto, unfolding(crate::specs::Captures::order_of))]
fn order_of(bytes: &[u8]) -> Option<Order>
    ensures { result ≡ order_of bytes.now }
{
    if bytes.len() < 4 {
        None
    } else if is_magic(Order::Little.u32_at(bytes, 0)) {
        Some(Order::Little)
    } else if is_magic(Order::Big.u32_at(bytes, 0)) {
        Some(Order::Big)
    } else {
        None
    }
}

// Whether the header is as it has to be after its magic number.
#[tactic(auto, unfolding(crate::specs::Captures::is_header))]
fn is_header(order: Order, bytes: &[u8]) -> bool
    ensures value { result ≡ is_header order bytes.now }
    ensures whole { IsTrue result → 24 ≤ length bytes.now }
{
    bytes.len() >= HEADER_BYTES
        && order.u16_at(bytes, 4) == 2
        && order.u16_at(bytes, 6) == 4
        && order.u32_at(bytes, 20) == ETHERNET
}

/// Whether a file begins as a capture does: its first four bytes are one of the four magic numbers, of microseconds or
/// nanoseconds in either byte order (pcap-savefile(5)).
pub fn is_capture(bytes: &[u8]) -> bool
    ensures { result ≡ is_some (order_of bytes.now) }
{
    order_of(bytes).is_some()
}

/// The frames of a capture, in order, each as it came in on this device, which need not exist. A packet of which only the
/// first bytes were captured is a frame of these bytes.
///
/// A capture is the classic file of pcap-savefile(5), not pcapng, in either byte order: a header of 24 bytes, with times in
/// microseconds or nanoseconds, version 2.4 and the link type of Ethernet, and then packets, each with a header of 16 bytes.
/// A header alone is a capture with no frames.
///
/// # Errors
/// `NotACapture` if the bytes are no capture, or one with a packet of more than 4,096 captured bytes or with more than
/// 65,536 packets; `NoMemory` if an allocation failed.
pub fn frames_in(alloc: Global, device: &Word, bytes: &[u8]) -> Result<Vec<FrameIn>, CaptureFault>
    ensures frames { IfOk result (λ frames. HasFrames bytes.now device.now frames.items) }
    ensures good { IfOk result (λ frames. frames_fault frames.items ≡ None) }
    ensures none { result ≡ Err NotACapture → (frames : List FrameIn) → HasFrames bytes.now device.now frames → ⊥ }
{
    let Some(order) = order_of(bytes) else {
        return Err(CaptureFault::NotACapture);
    };
    if !is_header(order, bytes) {
        return Err(CaptureFault::NotACapture);
    }
    let mut frames = Vec::new(alloc);
    let (_, mut rest) = bytes.split_at(HEADER_BYTES);
    'packets: while !rest.is_empty() {
        if frames.len() == MOST_FRAMES {
            return Err(CaptureFault::NotACapture);
        }
        let Some((packet, behind)) = first_packet(order, rest) else {
            return Err(CaptureFault::NotACapture);
        };
        let frame = frame_of(alloc, device, packet)?;
        if frames.push(frame).is_err() {
            return Err(CaptureFault::NoMemory);
        }
        rest = behind;
    }
    Ok(frames)
}
