//! Frames served on a book by two workers.

ghost use Rattle.std.specs.Prelude.{◌≡◌, [], IfOk};
ghost use Rattle.thread_frames.specs.Takes.{IsTakeOf, all_of, taken_of, parts_of};
ghost use Rattle.thread_frames.specs.declared.deal.TheConstants.{MOST_PARTS};
ghost use Rattle.thread_host_run.specs.HostRuns.{AreServed};

use bt_desk::{Desk, MOST_CALLS};
use bt_journal::Book;
use bt_mapkind::MapKind;
use bt_workers::{FrameResult, Frames, OpenGate, RunFault, Take, run_two};
use std::alloc::Global;
use std::mem::ManuallyDrop;
use std::sync::Wait;
use std::thread::Threads;

/// Shares the book at a desk, has two workers serve the frames on two threads, and gives the book back, with the end of each
/// frame by ascending number.
pub(crate) fn serve<K: MapKind + Send, R: Threads + Wait + Sync>(
    rt: &R,
    alloc: Global,
    book: Book<K>,
    frames: &Frames,
    take: Take,
) -> Result<(Book<K>, Vec<FrameResult>), RunFault>
    requires { IsTakeOf frames.now take × (parts_of take ≡ MOST_PARTS) × (taken_of take ≡ []) }
    ensures { IfOk result (λ r. AreServed book.plain (all_of take) r.1.items r.0.plain) }
{
    let (desk, mut first) = match Desk::open(alloc, book, MOST_CALLS) {
        Ok(opened) => opened,
        Err(book) => {
            let _book = ManuallyDrop::new(book);
            return Err(RunFault::NoMemory);
        }
    };
    let second = desk.split(&mut first);
    let (mut one, two, ends) = run_two(
        rt, alloc, &desk, first, second, frames, take, OpenGate, OpenGate,
    )?;
    desk.join(&mut one, two);
    Ok((desk.close(rt, one), ends))
}
