//! How many frames there may be, and how long.

use crate::books::{frames, word};
use bt_workers::{FrameIn, Frames, FramesFault};
use std::alloc::Global;
use std::process::Abort;
use std::sync::Wait;

// How many frames are shared if so many of one byte come before one of so many bytes, or why they are not.
fn shared<R: Wait + Abort>(
    rt: &R,
    alloc: Global,
    before: usize,
    bytes: usize,
) -> Result<usize, FramesFault> {
    let mut all = frames(rt, alloc, before);
    let last = FrameIn {
        device: word(rt, alloc, b"eth0"),
        bytes: vec![in alloc; 0; bytes].expect(rt, "a frame"),
    };
    assert!(rt; all.push(last).is_ok());
    match Frames::new(rt, alloc, all) {
        Ok((frames, _)) => Ok(frames.len()),
        Err(fault) => Err(fault),
    }
}

#[test]
fn how_many_frames_are_shared_and_how_long(rt: HostRuntime) {
    for (before, bytes, told) in [
        (65_535usize, 4_096usize, Ok(65_536usize)),
        (65_536, 4_096, Err(FramesFault::TooMany)),
        (65_536, 4_097, Err(FramesFault::TooMany)),
        (65_535, 4_097, Err(FramesFault::FrameTooLong(65_536))),
    ] {
        assert!(rt;
            shared(&rt, rt.alloc(), before, bytes) == told,
            "{before} {bytes}"
        );
    }
}
