//! A script, and frames that two threads serve on the host that it left, on the book that a file keeps.

ghost use Rattle.std.specs.Prelude.{IfOk, IfErr, string_bytes};
ghost use Rattle.thread_kept_frames.specs.Hosts.{ServesInFile};
ghost use Rattle.bpfcon.specs.Book.{ServedOn};
ghost use Rattle.bpfcon.specs.Ends.{EndsServed};
ghost use Rattle.bpfcon.specs.Faults.{IsOfKept};

use crate::fault::Fault;
use crate::{read, read_script};
use bt_syntax::Script;
use console_input::{FileReader, MOST_FRAMES};
use console_script::{MOMENTS, Summary};
use console_text::Output;
use kept_host::{Databases, InFileFault, Terms, host_terms};
use std::alloc::Global;
use std::sync::Wait;
use std::thread::Threads;
use thread_asides::{Beside, LineOrigin, tell_frames};
use thread_host_run::{refused_in, why_none};
use thread_kept_frames::{HostInFileFault, HostRunFault, ServedHost, serve_in_file};

// Runs a script of this name on the book in the file of this path, and serves frames on the host that it left.
fn serve_at<R: FileReader + Eprint + Databases + AllocGlobal + Threads + Wait + Sync, W: Output>(
    rt: &R,
    path: &str,
    wait: u32,
    terms: Terms,
    name: &[u8],
    script: &Script,
    frames: &[u8],
    out: &mut W,
) -> Result<ServedHost, HostInFileFault>
    ensures { ServesInFile (R.may_open rt.now path.now wait) (R.may_be_time rt.now) terms script.now.files.items script.now.text.items frames.now (W.contents out.old) (W.contents out.new) result }
{
    let mut beside = Beside::new(rt, name, path, LineOrigin::Script);
    serve_in_file(rt, path, wait, terms, script, frames, &mut beside, out)
}

// Why script and frames did not come to their end on the book of a file.
fn fault_in_file(alloc: Global, file: String, frames: &[u8], fault: HostInFileFault) -> Fault
    ensures is { IsOfKept file frames.now fault result }
    ensures only { EndsServed ⊥ result }
{
    match fault {
        HostInFileFault::BadFrames => Fault::BadFrames(why_none(alloc, frames)),
        HostInFileFault::NoMemory => Fault::NoMemory,
        HostInFileFault::Unopened(error) => {
            let fault = InFileFault::Unopened(error);
            Fault::OfFile { file, fault }
        }
        HostInFileFault::Kept(HostRunFault::Script(fault)) => {
            let fault = InFileFault::Kept(fault);
            Fault::OfFile { file, fault }
        }
        HostInFileFault::Kept(HostRunFault::Frames(fault)) => Fault::OfFrames { file, fault },
    }
}

/// Runs the script in a file on the book that another file keeps, and then has two threads serve the frames of a third on the host
/// that it left. Standard error says what is wrong with each line that is refused, and of the frames if some were refused memory or
/// the journal is full.
///
/// # Errors
/// Those of a script or of frames that are not read, before which the file of the book is not opened; `OfFile` if the book was not
/// opened, or what a line did was not kept, or not answered; `OfFrames` if the frames were not served, or what they changed was not
/// kept, or how they ended was not told; and `CannotWrite`.
pub fn serve_on_book<
    R: FileReader + Eprint + Databases + AllocGlobal + Threads + Wait + Sync,
    W: Output,
>(rt: &R, file: String, wait: u32, path: &str, frames: &str, out: &mut W) -> Result<Summary, Fault>
    ensures ran { IfOk result (λ summary. ServedOn (R.may_be_there rt.now) (λ it. R.may_open rt.now it wait) (R.may_be_time rt.now) (R.may_read rt.now) (W.contents out.old) (W.contents out.new) summary (string_bytes file) path.now frames.now) }
    ensures only { IfErr result (EndsServed (W.has_refused out.new)) }
{
    let script = read_script(rt, path)?;
    let bytes = read(rt, frames, MOST_FRAMES)?;
    let terms = host_terms(rt.alloc())?;
    let (at, name) = (file.as_str(), path.as_bytes());
    match serve_at(rt, at, wait, terms, name, &script, bytes.as_slice(), out) {
        Ok(served) => {
            let is_full = served.moments == MOMENTS;
            match tell_frames(rt, refused_in(&served.ends), is_full, out) {
                Ok(()) => Ok(served.summary),
                Err(_) => Err(Fault::CannotWrite),
            }
        }
        Err(fault) => Err(fault_in_file(rt.alloc(), file, bytes.as_slice(), fault)),
    }
}
