//! Why the bytes of a file are no frames.

ghost use Rattle.thread_host_run.specs.FramesOf.{TellsNoFrames};

use crate::fault::RunHostFault;
use crate::frames::frames_in;
use host_words::Word;
use std::alloc::Global;
use std::fmt;
use thread_capture::is_capture;

/// Why the bytes of a file are no frames.
#[derive(Clone, Copy, PartialEq, Eq, Debug)]
pub enum NoFrames {
    /// The line of this number, counted from 1, spells none.
    Line(u64),
    /// There are more than 65,536.
    TooMany,
    /// It is a capture, and not a good one.
    Capture,
    /// There was no memory to find out.
    Unknown,
}

impl fmt::Display for NoFrames {
    fn fmt<W: fmt::Write>(&self, f: &mut fmt::Formatter<W>) -> fmt::Result {
        match self {
            NoFrames::Line(number) => write!(
                f,
                "line {number} is not a device, a space and hex: with the digits of a frame of at most 4096 bytes"
            ),
            NoFrames::TooMany => write!(f, "there are more than 65536"),
            NoFrames::Capture => write!(
                f,
                "the capture is cut off, is not of Ethernet, has a packet above 4096 bytes, or has more than 65536"
            ),
            NoFrames::Unknown => write!(
                f,
                "a line is not a device, a space and hex: with the digits of a frame of at most 4096 bytes, or there are more than 65536"
            ),
        }
    }
}

// The number of the first line of a text that spells no frame.
fn bad_line(alloc: Global, text: &[u8]) -> Result<Option<u64>, RunHostFault> {
    let Ok(device) = Word::new(alloc, b"eth0") else {
        return Err(RunHostFault::NoMemory);
    };
    let text = text.strip_suffix(b"\n").unwrap_or(text);
    let mut number = 0u64;
    for line in text.split(|byte| *byte == b'\n') {
        number = number.saturating_add(1);
        if line.is_empty() {
            return Ok(Some(number));
        }
        match frames_in(alloc, &device, line) {
            Ok(_frames) => {}
            Err(RunHostFault::BadFrames) => return Ok(Some(number)),
            Err(fault) => return Err(fault),
        }
    }
    Ok(None)
}

/// Why these bytes are no frames, of which [`frames_in`] made none.
pub fn why_none(alloc: Global, bytes: &[u8]) -> NoFrames
    ensures capture { TellsNoFrames bytes.now result }
{
    if is_capture(bytes) {
        return NoFrames::Capture;
    }
    match bad_line(alloc, bytes) {
        Ok(Some(number)) => NoFrames::Line(number),
        Ok(None) => NoFrames::TooMany,
        Err(_) => NoFrames::Unknown,
    }
}
