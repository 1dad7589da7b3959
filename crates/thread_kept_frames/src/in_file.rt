//! A script, and frames after it, on the book of a file.

ghost use Rattle.std.specs.Prelude.{◌≡◌};
ghost use Rattle.thread_kept_frames.specs.Hosts.{ServesInFile};

use crate::host_fault::HostInFileFault;
use crate::keeping::read_frames;
use crate::kept::{ServedHost, serve_kept};
use bt_syntax::Script;
use console_script::HostKind;
use console_text::Output;
use kept_file::Terms;
use kept_lines::{Databases, Hints};
use std::sync::Wait;
use std::thread::Threads;
use thread_host_run::RunHostFault;

/// Runs the lines of a script on the book that the file of this path keeps, and then has two workers serve the frames that the bytes
/// of another are, as [`serve_kept`] does on a connection to it. The frames are read first. A file that is not there is made. For one
/// that is in use it waits so many seconds.
///
/// # Errors
/// `BadFrames` if the bytes are neither lines that spell frames nor a capture, `NoMemory` if there is none for the frames, and
/// `Unopened` where the file is not opened: after each of these no line was run. Else those of [`serve_kept`].
pub fn serve_in_file<
    R: Databases + AllocGlobal + Threads + Wait + Sync,
    H: Hints<HostKind, W>,
    W: Output,
>(
    rt: &R,
    path: &str,
    seconds: u32,
    terms: Terms,
    script: &Script,
    frames: &[u8],
    hints: &mut H,
    out: &mut W,
) -> Result<ServedHost, HostInFileFault>
    ensures { ServesInFile (R.may_open rt.now path.now seconds) (R.may_be_time rt.now) terms script.now.files.items script.now.text.items frames.now (W.contents out.old) (W.contents out.new) result }
{
    let alloc = rt.alloc();
    let all = match read_frames(alloc, frames) {
        Ok(all) => all,
        Err(RunHostFault::BadFrames) => return Err(HostInFileFault::BadFrames),
        Err(_) => return Err(HostInFileFault::NoMemory),
    };
    let mut it = match rt.open_database(path, seconds) {
        Ok(it) => it,
        Err(error) => return Err(HostInFileFault::Unopened(error)),
    };
    let (conn, time) = (&mut it.conn, rt.milliseconds());
    let served = serve_kept(rt, alloc, conn, time, terms, script, all, hints, out);
    let _ = rt.close_database(it);
    match served {
        Ok(served) => Ok(served),
        Err(fault) => Err(HostInFileFault::Kept(fault)),
    }
}
