//! A script on the book of a database, and frames that are served on the book that it left.

ghost use Rattle.std.specs.Prelude.{◌≡◌, OnOk};
ghost use Rattle.sqlite.specs.Held.{state};
ghost use Rattle.kept_lines.specs.Begun.{AddsToBook};
ghost use Rattle.thread_kept_frames.specs.Hosts.{ServesKept};

use crate::host_fault::HostRunFault;
use crate::keeping::keep_frames;
use bt_journal::Book;
use bt_syntax::Script;
use bt_workers::{FrameIn, FrameResult};
use console_script::{HostKind, HostSupply, Summary};
use console_text::Output;
use kept_file::Terms;
use kept_lines::{Hints, KeptFault, begin, keep_lines};
use sqlite::{Alter, Connection};
use std::alloc::Global;
use std::mem::ManuallyDrop;
use std::sync::Wait;
use std::thread::Threads;

/// What a script, and frames after it, came to.
#[derive(Drop)]
pub struct ServedHost {
    /// How many lines of the script were accepted and refused.
    pub summary: Summary,
    /// The end of each frame, by ascending number.
    pub ends: Vec<FrameResult>,
    /// How many moments the book has that the frames left.
    pub moments: u64,
}

/// Runs the lines of a script on the book that a database keeps, with a new map for each that they make, and then has two workers
/// serve frames on the book that the script left, as [`keep_frames`] does. In a database that has no table a book of these terms is
/// made first. What the lines did is kept, at this time in milliseconds since 1970, before it is answered, and what the frames
/// changed before their ends are written; of a line in which something went wrong is told after that. The book in memory is given
/// up with the process, and the connection is to be closed.
///
/// # Errors
/// `Script` with a fault of [`begin`], after which no line was run, or of [`keep_lines`]; and `Frames` with one of
/// [`keep_frames`], after which the script is kept and answered.
pub fn serve_kept<D: Alter, R: Threads + Wait + Sync, H: Hints<HostKind, W>, W: Output>(
    rt: &R,
    alloc: Global,
    conn: &mut Connection<D>,
    time: u64,
    terms: Terms,
    script: &Script,
    frames: Vec<FrameIn>,
    hints: &mut H,
    out: &mut W,
) -> Result<ServedHost, HostRunFault>
    ensures serves { ServesKept terms script.now.files.items script.now.text.items frames.items (state D.Store conn.old) (state D.Store conn.new) (W.contents out.old) (W.contents out.new) result }
    ensures times { OnOk result (AddsToBook terms time (state D.Store conn.old) (state D.Store conn.new)) }
{
    let mut book: Book<HostKind> = match begin(alloc, conn, terms) {
        Ok(book) => book,
        Err(fault) => return Err(HostRunFault::Script(fault)),
    };
    let mut supply = HostSupply::new(alloc);
    let ran = keep_lines(
        alloc,
        conn,
        time,
        &mut book,
        script,
        &mut supply,
        hints,
        out,
    );
    let summary = match ran {
        Ok(summary) => summary,
        Err(fault) => {
            let _book = ManuallyDrop::new(book);
            return Err(HostRunFault::Script(KeptFault::Lines(fault)));
        }
    };
    match keep_frames(rt, alloc, conn, time, book, frames, out) {
        Ok((book, ends)) => {
            let moments = book.moments();
            let _book = ManuallyDrop::new(book);
            Ok(ServedHost {
                summary,
                ends,
                moments,
            })
        }
        Err(fault) => Err(HostRunFault::Frames(fault)),
    }
}
