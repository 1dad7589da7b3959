//! A live host on the book that a file keeps: a script, and then lines that are answered while frames are served.

ghost use Rattle.std.specs.Prelude.{◌≡◌, IfOk, IfErr, None, string_bytes};
ghost use Rattle.std.specs.Io.KnownBytes.{Appends};
ghost use Rattle.thread_frames.specs.Faults.{frames_fault};
ghost use Rattle.thread_host_run.specs.FramesOf.{AreFramesAt};
ghost use Rattle.thread_kept_frames.specs.Lives.{LivesInFile};
ghost use Rattle.thread_live.specs.Reports.{report_text};
ghost use Rattle.bpfcon.specs.Book.{LivedOn, report_of};
ghost use Rattle.bpfcon.specs.Ends.{EndsServed};
ghost use Rattle.bpfcon.specs.Faults.{unheard};
ghost use Rattle.bpfcon.specs.Live.{device_in};

use crate::fault::Fault;
use crate::live::device_of;
use crate::read_live;
use bt_syntax::Script;
use console_input::{FileReader, Live, LiveOptions, Terminal};
use console_script::{MOMENTS, Summary};
use console_text::Output;
use kept_host::{Databases, Terms, host_terms};
use std::alloc::Global;
use std::sync::Wait;
use std::thread::Threads;
use std::time::Clock;
use thread_asides::{Beside, LineOrigin};
use thread_host_run::{RunHostFault, frames_in, why_none};
use thread_kept_frames::{
    Flow, Lines, ListenFault, LiveInFileFault, LivedHost, ServeFault, listen, live_in_file,
};
use thread_live::{Report, State, put_report};

// The frames of a live host, and how they are served.
fn flow_of(alloc: Global, options: &LiveOptions, bytes: &[u8]) -> Result<Flow, Fault>
    ensures frames { IfOk result (λ flow. AreFramesAt (device_in options.now.device) bytes.now flow.frames.items) }
    ensures passes { IfOk result (λ flow. flow.passes ≡ options.now.repeat) }
    ensures only { IfErr result (EndsServed ⊥) }
{
    let device = device_of(alloc, options)?;
    let passes = match options.repeat {
        Some(passes) => Some(u64::from(passes)),
        None => None,
    };
    match frames_in(alloc, &device, bytes) {
        Ok(frames) => Ok(Flow {
            frames,
            passes,
            rate: u64::from(options.rate),
        }),
        Err(RunHostFault::BadFrames) => Err(Fault::BadFrames(why_none(alloc, bytes))),
        Err(_) => Err(Fault::NoMemory),
    }
}

// Runs the setup of a live host on the book in the file of this path, and answers lines there while frames are served.
fn live_at<
    R: FileReader + Terminal + Eprint + Databases + AllocGlobal + Threads + Wait + Clock + Sync,
    L: Lines,
    W: Output,
>(
    rt: &R,
    path: &str,
    wait: u32,
    terms: Terms,
    name: &[u8],
    setup: &Script,
    flow: &Flow,
    lines: &mut L,
    out: &mut W,
) -> Result<LivedHost, LiveInFileFault>
    ensures { LivesInFile (R.may_open rt.now path.now wait) terms setup.now.files.items setup.now.text.items flow.now.frames.items flow.now.passes (R.may_read rt.now) (L.remaining lines.old) (W.contents out.old) (W.contents out.new) result }
{
    let mut hints = Beside::new(rt, name, path, LineOrigin::Script);
    let mut beside = Beside::new(rt, b"stdin", "bpfcon", LineOrigin::Dialogue);
    live_in_file(
        rt,
        path,
        wait,
        terms,
        setup,
        flow,
        &mut hints,
        &mut beside,
        lines,
        out,
    )
}

// Writes how the frames of a live host ended, and how many moments its book has.
fn told<W: Output>(lived: LivedHost, out: &mut W) -> Result<Summary, Fault>
    ensures told { IfOk result (λ summary. Appends (W.contents out.old) (W.contents out.new) (report_text (report_of lived)) × (summary ≡ lived.summary)) }
    ensures only { IfErr result (EndsServed (W.has_refused out.new)) }
{
    let report = Report {
        workers: 2,
        state: State::Stopped,
        tally: lived.course.tally,
        moments: lived.moments,
        most_moments: MOMENTS,
        rate: None,
    };
    match put_report(out, &report) {
        Ok(()) => Ok(lived.summary),
        Err(_) => Err(Fault::CannotWrite),
    }
}

// Why nobody hears the lines of standard input. The file was not opened.
fn unheard(file: String, fault: ListenFault) -> Fault
    ensures is { result ≡ unheard file fault }
    ensures only { EndsServed ⊥ result }
{
    match fault {
        ListenFault::NoMemory => Fault::NoMemory,
        ListenFault::NoThread => {
            let fault = ServeFault::NoThread;
            Fault::OfFrames { file, fault }
        }
    }
}

/// Runs the script of a live host on the book that a file keeps, and then answers the lines of standard input, up to its end or a
/// `quit`, while frames are served there; at last it writes how the frames ended. Standard error says what is wrong with each line
/// that is refused.
///
/// # Errors
/// Those of a script or of frames that are not read, before which the file of the book is not opened; `OfFrames` if no thread could be
/// started for the lines, before it, too; `OfLive` if the host did not come to its end; and `CannotWrite`.
pub fn live_on_book<
    R: FileReader
        + Terminal
        + Input
        + Eprint
        + Databases
        + AllocGlobal
        + Threads
        + Wait
        + Clock
        + Copy
        + Send
        + Sync
        + 'static,
    W: Output,
>(rt: &R, file: String, wait: u32, live: &Live, out: &mut W) -> Result<Summary, Fault>
where
    R::Reader: Send + 'static,
    ensures ran { IfOk result (λ summary. LivedOn (R.may_be_there rt.now) (λ it. R.may_open rt.now it wait) (R.may_be_time rt.now) (R.may_read rt.now) (W.contents out.old) (W.contents out.new) summary (string_bytes file) live.now) }
    ensures only { IfErr result (EndsServed (W.has_refused out.new)) }
{
    let given = read_live(rt, live)?;
    let (setup, bytes) = (&given.0, given.1.as_slice());
    let flow = flow_of(rt.alloc(), &live.options, bytes)?;
    let terms = host_terms(rt.alloc())?;
    let mut lines = match listen(rt, rt.reader()) {
        Ok(lines) => lines,
        Err(fault) => return Err(unheard(file, fault)),
    };
    let (at, name) = (file.as_str(), live.setup.as_bytes());
    match live_at(rt, at, wait, terms, name, setup, &flow, &mut lines, out) {
        Ok(lived) => told(lived, out),
        Err(fault) => Err(Fault::OfLive { file, fault }),
    }
}
