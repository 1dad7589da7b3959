//! A portion of frames on a kept book.

ghost use Rattle.std.specs.Prelude.{◌≡◌, ◌+◌, ◌^◌, ◌<◌, length, map, None, Err, IfOk, OnErr};
ghost use Rattle.sqlite.specs.State.{HasCleanDisk};
ghost use Rattle.sqlite.specs.Held.{state};
ghost use Rattle.thread_frames.specs.Faults.{frames_fault};
ghost use Rattle.kept_ledger.specs.TermsView.{PlainTerms};
ghost use Rattle.kept_ledger.specs.Ledger.{LeavesOnly};
ghost use Rattle.kept_file.specs.Keeps.{HoldsOne};
ghost use Rattle.kept_lines.specs.Kept.{IsOnDisk};
ghost use Rattle.thread_kept_frames.specs.Courses.{AreDue};
ghost use Rattle.thread_kept_frames.specs.Portions.{content_of, flowing, ServesPortion, BeforeOrBehind};

use crate::fault::ServeFault;
use crate::keeping::keep_portion;
use crate::live::course::Course;
use crate::live::flow::Flow;
use crate::serve::Served;
use bt_journal::Book;
use bt_mapkind::MapKind;
use host_words::NoMemory;
use kept_lines::Databases;
use sqlite::{Alter, Connection};
use std::alloc::Global;
use std::mem::ManuallyDrop;
use std::sync::Wait;
use std::thread::Threads;
use thread_frames::FrameIn;

// A copy of a frame.
fn copy_of(alloc: Global, frame: &FrameIn) -> Result<FrameIn, NoMemory>
    ensures { IfOk result (λ copy. content_of copy ≡ content_of frame.now) }
{
    let device = frame.device.copy()?;
    let bytes = Vec::from_slice(alloc, frame.bytes.as_slice())?;
    Ok(FrameIn { device, bytes })
}

// Copies of frames.
fn copies_of(alloc: Global, frames: &[FrameIn]) -> Result<Vec<FrameIn>, NoMemory>
    ensures { IfOk result (λ copies. map content_of copies.items ≡ map content_of frames.now) }
{
    let mut copies = Vec::new(alloc);
    for frame in frames {
        copies.push(copy_of(alloc, frame)?)?;
    }
    Ok(copies)
}

/// Has two workers serve copies of the next frames, and keeps what they changed in one transaction: the book that they left, and how
/// far the frames have come. A crash leaves the book before them, or the one after all of them.
///
/// # Errors
/// Those of [`keep_portion`], and `NoMemory` if there is none for the copies. The book is given up then.
pub(crate) fn keep_next<
    D: Alter,
    K: MapKind + Send,
    R: Databases + AllocGlobal + Threads + Wait + Sync,
>(
    rt: &R,
    conn: &mut Connection<D>,
    book: Book<K>,
    flow: &Flow,
    course: Course,
    count: usize,
) -> Result<(Book<K>, Course), ServeFault>
    requires due { AreDue (length flow.now.frames.items) flow.now.passes course count }
    requires bound { course.pass + 1 < 2 ^ 64 }
    ensures served { IfOk result (λ to. ServesPortion flow.now.frames.items flow.now.passes (flowing book.plain course) (flowing to.0.plain to.1)) }
    ensures clean { HasCleanDisk (state D.Store conn.new) → HasCleanDisk (state D.Store conn.old) }
    ensures kept { HasCleanDisk (state D.Store conn.new) → (t : PlainTerms) → IsOnDisk t (state D.Store conn.old) book.plain
        → IfOk result (λ to. IsOnDisk t (state D.Store conn.new) to.0.plain) }
    ensures left { OnErr result (HasCleanDisk (state D.Store conn.new) → (t : PlainTerms) → IsOnDisk t (state D.Store conn.old) book.plain
        → LeavesOnly (HoldsOne t (BeforeOrBehind flow.now.frames.items flow.now.passes (flowing book.plain course))) (state D.Store conn.new)) }
    ensures good { frames_fault flow.now.frames.items ≡ None → result ≡ Err ServeFault.BadFrames → ⊥ }
{
    let all = flow.frames.as_slice();
    let alloc = rt.alloc();
    let frames = match copies_of(alloc, &all[course.next..course.next + count]) {
        Ok(frames) => frames,
        Err(_) => {
            let _book = ManuallyDrop::new(book);
            return Err(ServeFault::NoMemory);
        }
    };
    match keep_portion(rt, alloc, conn, rt.milliseconds(), book, frames) {
        Ok(
            Served {
                book,
                ends,
                text: _text,
            },
        ) => {
            let course = course.further(all.len(), count, ends.as_slice());
            Ok((book, course))
        }
        Err(fault) => Err(fault),
    }
}
