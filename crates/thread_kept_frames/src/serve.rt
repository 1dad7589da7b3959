//! Frames served on a book, with the text of their ends held back.

ghost use Rattle.std.specs.Prelude.{◌≡◌, length, IfOk, IfErr};
ghost use Rattle.thread_host_run.specs.FrameTexts.{ends_text};
ghost use Rattle.thread_host_run.specs.HostRuns.{AreServed};
ghost use Rattle.thread_kept_frames.specs.Serving.{IsUnserved};

use crate::fault::{ServeFault, fault_of_run};
use bt_journal::Book;
use bt_mapkind::MapKind;
use bt_workers::{FrameIn, FrameResult, Frames};
use std::alloc::Global;
use std::sync::Wait;
use std::thread::Threads;
use thread_host_run::serve_frames;

/// A book on which frames were served, and how they ended.
#[derive(Drop)]
pub struct Served<K: MapKind> {
    pub book: Book<K>,
    /// The end of each frame, by ascending number.
    pub ends: Vec<FrameResult>,
    /// What there is to write of the ends: `frame N TEXT` for each, and `moments N` at last.
    pub text: Vec<u8>,
}

/// Has two workers serve frames on a book: the book that they left, and the ends with their text. Takes memory.
pub(crate) fn serve<K: MapKind + Send, R: Threads + Wait + Sync>(
    rt: &R,
    alloc: Global,
    book: Book<K>,
    frames: Vec<FrameIn>,
) -> Result<Served<K>, ServeFault>
    ensures served { IfOk result (λ it. AreServed book.plain frames.items it.ends.items it.book.plain) }
    ensures text { IfOk result (λ it. it.text.items ≡ ends_text it.ends.items (length it.book.plain.line.moments)) }
    ensures why { IfErr result (IsUnserved frames.items) }
{
    let frames = Frames::new(rt, alloc, frames)?;
    let mut text = Vec::new(alloc);
    match serve_frames(rt, alloc, book, frames, &mut text) {
        Ok((book, ends)) => Ok(Served { book, ends, text }),
        Err(fault) => Err(fault_of_run(fault)),
    }
}
