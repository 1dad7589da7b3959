//! Frames on a kept book.

ghost use Rattle.std.specs.Prelude.{◌≡◌, ◌⊎◌, None, Err, List, length, IfOk, IfErr, OnOk};
ghost use Rattle.std.specs.Io.KnownBytes.{Appends};
ghost use Rattle.sqlite.specs.State.{HasCleanDisk};
ghost use Rattle.sqlite.specs.Held.{state};
ghost use Rattle.thread_frames.specs.Faults.{frames_fault};
ghost use Rattle.thread_frames.specs.declared.frame.FrameIn.{FrameIn as Frame};
ghost use Rattle.thread_host_run.specs.FramesOf.{AreFramesOf};
ghost use Rattle.thread_host_run.specs.FrameTexts.{ends_text};
ghost use Rattle.thread_host_run.specs.HostRuns.{AreServed, AreToldOf};
ghost use Rattle.kept_ledger.specs.TermsView.{PlainTerms};
ghost use Rattle.kept_ledger.specs.Ledger.{LeavesOnly};
ghost use Rattle.kept_file.specs.Keeps.{HoldsOne};
ghost use Rattle.kept_lines.specs.Kept.{IsOnDisk, AddsAt};
ghost use Rattle.thread_kept_frames.specs.Serving.{BeforeOrServed, StopsPortion, BeforeOrAfter, Stops};

use crate::fault::ServeFault;
use crate::serve::{Served, serve};
use bt_journal::Book;
use bt_mapkind::MapKind;
use bt_workers::{FrameIn, FrameResult};
use console_text::{Output, put};
use host_words::Word;
use kept_file::{KeepFault, noted};
use kept_lines::{LinesFault, keep_events};
use sqlite::{Alter, Connection};
use std::alloc::Global;
use std::mem::ManuallyDrop;
use std::sync::Wait;
use std::thread::Threads;
use thread_host_run::{RunHostFault, frames_in};

/// The frames of a file: those of a capture of tcpdump if it begins as one, which come in at `eth0`, and else those that its lines
/// spell, each with its own device. Takes memory.
///
/// # Errors
/// `BadFrames` if the bytes are neither; and `NoMemory`.
pub fn read_frames(alloc: Global, bytes: &[u8]) -> Result<Vec<FrameIn>, RunHostFault>
    ensures frames { IfOk result (λ frames. AreFramesOf bytes.now frames.items) }
    ensures good { IfOk result (λ frames. frames_fault frames.items ≡ None) }
    ensures bad { result ≡ Err RunHostFault.BadFrames → (all : List Frame) → AreFramesOf bytes.now all → ⊥ }
    ensures only { IfErr result (λ fault. (fault ≡ RunHostFault.BadFrames) ⊎ (fault ≡ RunHostFault.NoMemory)) }
{
    let Ok(device) = Word::new(alloc, b"eth0") else {
        return Err(RunHostFault::NoMemory);
    };
    frames_in(alloc, &device, bytes)
}

// Why frames that were served are not kept. The book that they left is given up.
fn unkept<K: MapKind>(served: Served<K>, why: KeepFault) -> ServeFault
    ensures { result ≡ ServeFault.Lines (LinesFault.CannotKeep why) }
{
    let _served = ManuallyDrop::new(served);
    ServeFault::Lines(LinesFault::CannotKeep(why))
}

/// Has two workers serve frames on a kept book, as [`serve_frames`](thread_host_run::serve_frames) does on any, and keeps what they
/// changed in one transaction, at this time in milliseconds since 1970. The book that they left, the end of each frame, and what
/// there is to write of the ends, of which nothing is written here. A crash leaves the book before the frames, or the one after all
/// of them.
///
/// # Errors
/// `BadFrames`, `NoMemory` or `NoThread` if nothing is kept of any frame, and the database stays as it was. `Lines` with
/// `CannotKeep` if all were served and that is not kept, as when they recorded more changes than the journal keeps. The book is
/// given up then; if a fault of the disk shut the connection, it is to be closed.
pub fn keep_portion<D: Alter, K: MapKind + Send, R: Threads + Wait + Sync>(
    rt: &R,
    alloc: Global,
    conn: &mut Connection<D>,
    time: u64,
    book: Book<K>,
    frames: Vec<FrameIn>,
) -> Result<Served<K>, ServeFault>
    ensures clean { HasCleanDisk (state D.Store conn.new) → HasCleanDisk (state D.Store conn.old) }
    ensures served { IfOk result (λ it. AreServed book.plain frames.items it.ends.items it.book.plain) }
    ensures text { IfOk result (λ it. it.text.items ≡ ends_text it.ends.items (length it.book.plain.line.moments)) }
    ensures kept { HasCleanDisk (state D.Store conn.new) → (t : PlainTerms) → IsOnDisk t (state D.Store conn.old) book.plain
        → IfOk result (λ it. IsOnDisk t (state D.Store conn.new) it.book.plain) }
    ensures times { OnOk result (AddsAt time (state D.Store conn.old) (state D.Store conn.new)) }
    ensures left { HasCleanDisk (state D.Store conn.new) → (t : PlainTerms) → IsOnDisk t (state D.Store conn.old) book.plain
        → LeavesOnly (HoldsOne t (BeforeOrServed frames.items book.plain)) (state D.Store conn.new) }
    ensures stops { IfErr result (StopsPortion frames.items book.plain (λ t. IsOnDisk t (state D.Store conn.old) book.plain) (state D.Store conn.new)) }
{
    book.is_well();
    let since = book.last_serial();
    let served = match serve(rt, alloc, book, frames) {
        Ok(served) => served,
        Err(fault) => return Err(fault),
    };
    let events = match noted(alloc, since, &served.book) {
        Ok(events) => events,
        Err(why) => return Err(unkept(served, why)),
    };
    match keep_events(alloc, conn, time, events.as_slice()) {
        Ok(()) => Ok(served),
        Err(why) => Err(unkept(served, why)),
    }
}

/// Has two workers serve frames on a kept book, as [`keep_portion`] does: what they changed is kept in one transaction, at this time
/// in milliseconds since 1970, and then the end of each frame is written, `frame N TEXT` by ascending number, and `moments N` at
/// last. The book that they left, and the ends. A crash leaves the book before the frames, or the one after all of them.
///
/// # Errors
/// `BadFrames`, `NoMemory` or `NoThread` if nothing is kept or written of any frame, and the database stays as it was. `Lines` if
/// all were served: `CannotKeep` if that is not kept, with nothing written, as it is when they recorded more changes than the
/// journal keeps; and `Write` if it is kept, and a write of their ends failed or took no byte. The book is given up then; if a fault
/// of the disk shut the connection, it is to be closed.
pub fn keep_frames<D: Alter, K: MapKind + Send, R: Threads + Wait + Sync, W: Output>(
    rt: &R,
    alloc: Global,
    conn: &mut Connection<D>,
    time: u64,
    book: Book<K>,
    frames: Vec<FrameIn>,
    out: &mut W,
) -> Result<(Book<K>, Vec<FrameResult>), ServeFault>
    ensures clean { HasCleanDisk (state D.Store conn.new) → HasCleanDisk (state D.Store conn.old) }
    ensures served { IfOk result (λ r. AreToldOf book.plain frames.items r.1.items r.0.plain (Appends (W.contents out.old) (W.contents out.new))) }
    ensures kept { HasCleanDisk (state D.Store conn.new) → (t : PlainTerms) → IsOnDisk t (state D.Store conn.old) book.plain
        → IfOk result (λ r. IsOnDisk t (state D.Store conn.new) r.0.plain) }
    ensures times { OnOk result (AddsAt time (state D.Store conn.old) (state D.Store conn.new)) }
    ensures left { HasCleanDisk (state D.Store conn.new) → (t : PlainTerms) → IsOnDisk t (state D.Store conn.old) book.plain
        → LeavesOnly (HoldsOne t (BeforeOrAfter frames.items book.plain (W.contents out.old) (W.contents out.new))) (state D.Store conn.new) }
    ensures stops { IfErr result (Stops frames.items book.plain (λ t. IsOnDisk t (state D.Store conn.old) book.plain) (state D.Store conn.new) (W.contents out.old) (W.contents out.new)) }
    ensures refused { result ≡ Err (ServeFault.Lines LinesFault.Write) → W.has_refused out.new }
{
    let Served { book, ends, text } = match keep_portion(rt, alloc, conn, time, book, frames) {
        Ok(served) => served,
        Err(fault) => return Err(fault),
    };
    match put(out, text.as_slice()) {
        Ok(()) => Ok((book, ends)),
        Err(_) => {
            let _book = ManuallyDrop::new(book);
            Err(ServeFault::Lines(LinesFault::Write))
        }
    }
}
