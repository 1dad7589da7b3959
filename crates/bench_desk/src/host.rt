//! The hosts that are shared, and what is done to them.

ghost use Rattle.std.specs.Prelude.{◌≡◌, [], IfOk};
ghost use Rattle.thread_frames.specs.Takes.{IsTakeOf, taken_of, parts_of};
ghost use Rattle.thread_frames.specs.declared.deal.TheConstants.{MOST_PARTS};

mod making;

use bt_array::ArrayKind;
use bt_journal::Book;
use bt_mapkind::{Bytes, MapOp};
use bt_workers::{FrameIn, Frames, Take};
use host_state::{Change, Origin};
use host_words::Word;
use making::{attach_counter, attach_thinker, make_array, new_book};
use std::alloc::{AllocError, Global};
use std::io;
use std::sync::Wait;

pub(crate) fn refused() -> io::Error {
    AllocError.into()
}

/// A new host with the device `eth0`.
#[derive(Clone, Copy, PartialEq, Eq, Debug)]
pub(crate) enum Host {
    /// One with an array of one byte: a moment.
    OfAnArray,
    /// One whose program at eth0 adds 1 to the only entry of an array: three moments, and three calls a frame.
    OfACounter,
    /// One whose program at eth0 adds 4,000 times to a register, and passes the frame: two moments, and one call a frame.
    OfAThinker,
}

impl Host {
    // Makes what the host has; false for lack of memory.
    fn is_made(self, alloc: Global, book: &mut Book<ArrayKind>) -> bool {
        match self {
            Host::OfAnArray => make_array(alloc, book, 1),
            Host::OfACounter => attach_counter(alloc, book),
            Host::OfAThinker => attach_thinker(alloc, book),
        }
    }

    /// Its book, with room for so many moments.
    pub(crate) fn book(self, alloc: Global, journal: u64) -> io::Result<Book<ArrayKind>> {
        match new_book(alloc, journal) {
            Some(mut book) => {
                if self.is_made(alloc, &mut book) {
                    Ok(book)
                } else {
                    Err(refused())
                }
            }
            None => Err(refused()),
        }
    }
}

/// The only key of an array of one entry.
pub(crate) fn first_key(alloc: Global) -> Bytes {
    Bytes::short(alloc, &[0; 4])
}

/// A write to the only entry of map 1; none if the value has more than 256 bytes.
pub(crate) fn write(alloc: Global, value: &[u8]) -> Option<Change> {
    Some(Change::Operate {
        origin: Origin::Console,
        map: 1,
        op: MapOp::Update {
            key: first_key(alloc),
            value: Bytes::of(alloc, value)?,
            flag: 0,
        },
    })
}

// A frame of these bytes on `eth0`.
fn frame_in(alloc: Global, bytes: &[u8]) -> Option<FrameIn> {
    match Word::new(alloc, b"eth0") {
        Ok(device) => match Vec::from_slice(alloc, bytes) {
            Ok(bytes) => Some(FrameIn { device, bytes }),
            Err(_) => None,
        },
        Err(_) => None,
    }
}

// Puts a frame after the others.
fn push_frame(alloc: Global, frames: &mut Vec<FrameIn>, bytes: &[u8]) -> bool {
    match frame_in(alloc, bytes) {
        Some(frame) => frames.push(frame).is_ok(),
        None => false,
    }
}

// So many frames of these bytes on `eth0`.
fn frames_in(alloc: Global, count: usize, bytes: &[u8]) -> io::Result<Vec<FrameIn>> {
    let mut frames = Vec::new(alloc);
    for _ in 0..count {
        if !push_frame(alloc, &mut frames, bytes) {
            return Err(refused());
        }
    }
    Ok(frames)
}

/// So many frames of these bytes on `eth0`, and the first take of them.
pub(crate) fn frames_of<R: Wait>(
    rt: &R,
    alloc: Global,
    count: usize,
    bytes: &[u8],
) -> io::Result<(Frames, Take)>
    ensures { IfOk result (λ r. IsTakeOf r.0 r.1 × (parts_of r.1 ≡ MOST_PARTS) × (taken_of r.1 ≡ [])) }
{
    match Frames::new(rt, alloc, frames_in(alloc, count, bytes)?) {
        Ok(made) => Ok(made),
        Err(_) => Err(refused()),
    }
}
