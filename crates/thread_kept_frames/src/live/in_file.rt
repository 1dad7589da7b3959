//! A live host on the book of a file.

ghost use Rattle.std.specs.Prelude.{◌≡◌, None, Err};
ghost use Rattle.thread_frames.specs.Faults.{frames_fault};
ghost use Rattle.thread_kept_frames.specs.Lives.{LivesInFile};

use crate::fault::ServeFault;
use crate::live::fault::{LiveFault, LiveHostFault, LiveInFileFault};
use crate::live::flow::Flow;
use crate::live::kept::{LivedHost, live_kept};
use crate::live::lines::Lines;
use bt_syntax::Script;
use console_input::{FileReader, Terminal};
use console_script::HostKind;
use console_text::Output;
use kept_file::Terms;
use kept_lines::{Asides, Databases, Hints};
use std::sync::Wait;
use std::thread::Threads;
use std::time::Clock;

/// Runs a setup on the book that the file of this path keeps, and then answers the lines of an input while frames are served, as
/// [`live_kept`] does on a connection to it. A file that is not there is made. For one that is in use it waits so many seconds. The
/// file is held until the host comes to its end.
///
/// # Errors
/// `Unopened` if the file is not opened, after which no line was run; else those of [`live_kept`].
pub fn live_in_file<
    R: FileReader + Terminal + Eprint + Databases + AllocGlobal + Threads + Wait + Clock + Sync,
    H: Hints<HostKind, W>,
    A: Asides<HostKind, W>,
    L: Lines,
    W: Output,
>(
    rt: &R,
    path: &str,
    seconds: u32,
    terms: Terms,
    setup: &Script,
    flow: &Flow,
    hints: &mut H,
    asides: &mut A,
    lines: &mut L,
    out: &mut W,
) -> Result<LivedHost, LiveInFileFault>
    ensures lives { LivesInFile (R.may_open rt.now path.now seconds) terms setup.now.files.items setup.now.text.items flow.now.frames.items flow.now.passes (R.may_read rt.now) (L.remaining lines.old) (W.contents out.old) (W.contents out.new) result }
    ensures good { frames_fault flow.now.frames.items ≡ None → result ≡ Err (LiveInFileFault.Kept (LiveHostFault.Live (LiveFault.Frames ServeFault.BadFrames))) → ⊥ }
{
    let mut it = match rt.open_database(path, seconds) {
        Ok(it) => it,
        Err(error) => return Err(LiveInFileFault::Unopened(error)),
    };
    let conn = &mut it.conn;
    let lived = live_kept(rt, conn, terms, setup, flow, hints, asides, lines, out);
    let _ = rt.close_database(it);
    match lived {
        Ok(lived) => Ok(lived),
        Err(fault) => Err(LiveInFileFault::Kept(fault)),
    }
}
