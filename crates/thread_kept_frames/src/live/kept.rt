//! A live host on the book of a database: a setup, and then lines that are answered while frames are served.

ghost use Rattle.std.specs.Prelude.{◌≡◌, length, None, Err};
ghost use Rattle.sqlite.specs.Held.{state};
ghost use Rattle.console_script.specs.Tallies.{both_counts};
ghost use Rattle.thread_frames.specs.Faults.{frames_fault};
ghost use Rattle.thread_kept_frames.specs.Lives.{LivesKept};

use crate::fault::ServeFault;
use crate::live::course::Course;
use crate::live::fault::{LiveFault, LiveHostFault};
use crate::live::flow::Flow;
use crate::live::lines::Lines;
use crate::live::{Lived, keep_live};
use bt_journal::Book;
use bt_syntax::Script;
use console_input::{FileReader, Terminal};
use console_script::{HostKind, HostSupply, Summary};
use console_talk::Manner;
use console_text::Output;
use kept_file::Terms;
use kept_host::Broken;
use kept_lines::{Asides, Databases, Hints, HostBoxes, KeptFault, LinesFault, begin, keep_lines};
use sqlite::{Alter, Connection};
use std::mem::ManuallyDrop;
use std::sync::Wait;
use std::thread::Threads;
use std::time::Clock;

/// What a live host on the book of a database came to.
#[derive(Clone, Copy, Debug, PartialEq, Eq)]
pub struct LivedHost {
    /// How many lines were accepted and refused, those of the setup among them.
    pub summary: Summary,
    /// How far its frames came, and how they ended.
    pub course: Course,
    /// How many moments the book has that it left.
    pub moments: u64,
}

// Why a setup was not run to its end on a book, which is given up.
fn stopped(book: Book<HostKind>, fault: LinesFault) -> LiveHostFault
    ensures { result ≡ LiveHostFault.Script (KeptFault.Lines fault) }
{
    let _book = ManuallyDrop::new(book);
    LiveHostFault::Script(KeptFault::Lines(fault))
}

// Why no line is asked for after a setup whose answers have not left the output. Its book is given up.
fn unwritten(book: Book<HostKind>) -> LiveHostFault
    ensures { result ≡ LiveHostFault.Live (LiveFault.Line (Broken.Lines LinesFault.Write)) }
{
    let _book = ManuallyDrop::new(book);
    LiveHostFault::Live(LiveFault::Line(Broken::Lines(LinesFault::Write)))
}

// What a live host came to, and its setup before it. Its book is given up.
fn ended(setup: Summary, lived: Lived<HostKind>) -> LivedHost
    ensures summary { result.summary ≡ both_counts setup lived.summary }
    ensures course { result.course ≡ lived.course }
    ensures moments { result.moments ≡ length lived.book.plain.line.moments }
{
    let Lived {
        book,
        summary,
        course,
    } = lived;
    let moments = book.moments();
    let _book = ManuallyDrop::new(book);
    LivedHost {
        summary: setup.plus(summary),
        course,
        moments,
    }
}

/// Runs the lines of a setup on the book that a database keeps, and then answers the lines of an input on the book that the setup
/// left, and serves frames while none has come, as [`keep_live`](crate::keep_live) does, with a new map for each that any of these
/// lines make. In a database that has no table a book of these terms is made first. What a line did is kept before it is answered,
/// and all that the setup answered has left the output before the first line is asked for. What goes wrong in the setup is told by
/// `hints`, and all that is told beside the answers of later lines by `asides`. The book in memory is given up with the process, and
/// the connection is to be closed.
///
/// # Errors
/// `Script` with a fault of [`begin`], after which no line was run, or of [`keep_lines`]. `Live` if the setup was run to its end and is
/// kept: with a fault of [`keep_live`](crate::keep_live), or with the Write of a line if what the setup answered has not left the
/// output.
pub fn live_kept<
    D: Alter,
    R: FileReader + Terminal + Eprint + Databases + AllocGlobal + Threads + Wait + Clock + Sync,
    H: Hints<HostKind, W>,
    A: Asides<HostKind, W>,
    L: Lines,
    W: Output,
>(
    rt: &R,
    conn: &mut Connection<D>,
    terms: Terms,
    setup: &Script,
    flow: &Flow,
    hints: &mut H,
    asides: &mut A,
    lines: &mut L,
    out: &mut W,
) -> Result<LivedHost, LiveHostFault>
    ensures lives { LivesKept terms setup.now.files.items setup.now.text.items flow.now.frames.items flow.now.passes (R.may_read rt.now) (L.remaining lines.old) (state D.Store conn.old) (state D.Store conn.new) (W.contents out.old) (W.contents out.new) result }
    ensures good { frames_fault flow.now.frames.items ≡ None → result ≡ Err (LiveHostFault.Live (LiveFault.Frames ServeFault.BadFrames)) → ⊥ }
{
    let alloc = rt.alloc();
    let mut book: Book<HostKind> = match begin(alloc, conn, terms) {
        Ok(book) => book,
        Err(fault) => return Err(LiveHostFault::Script(fault)),
    };
    let (mut supply, mut boxes) = (HostSupply::new(alloc), HostBoxes::new(alloc));
    let (supply, boxes, time) = (&mut supply, &mut boxes, rt.milliseconds());
    let ran = keep_lines(alloc, conn, time, &mut book, setup, supply, hints, out);
    let counts = match ran {
        Ok(counts) => counts,
        Err(fault) => return Err(stopped(book, fault)),
    };
    match out.flush_all() {
        Ok(()) => {}
        Err(_) => return Err(unwritten(book)),
    }
    Manner::Dialogue.greet(rt);
    match keep_live(rt, conn, book, supply, boxes, asides, lines, flow, out) {
        Ok(lived) => Ok(ended(counts, lived)),
        Err(fault) => Err(LiveHostFault::Live(fault)),
    }
}
