//! A host run: a script, frames that two threads serve on the host that it made, and maybe a script after them.

ghost use Rattle.std.specs.Prelude.{Ok, IfOk, IfErr};
ghost use Rattle.thread_host_run.specs.HostRuns.{RunsNewHost};
ghost use Rattle.console_script.specs.Host.{device_names, limits};
ghost use Rattle.thread_host_run.specs.HostRun.{HasServed, HasServedThen};
ghost use Rattle.bpfcon.specs.Ends.{EndsFrames};

use crate::fault::Fault;
use crate::lines::run_lines;
use bt_journal::Book;
use bt_syntax::Script;
use console_input::FileReader;
use console_script::{HostKind, HostSupply, MOMENTS, Summary, new_book};
use console_text::Output;
use std::mem::ManuallyDrop;
use std::sync::Wait;
use std::thread::Threads;
use thread_asides::tell_frames;
use thread_host_run::{frames_of, refused_in, serve_frames};

// Runs a script of this name on a host in which nothing was done, and then has two threads serve frames on it: the host that they
// left, and how many lines were accepted and refused.
fn serve_script<R: FileReader + Eprint + AllocGlobal + Threads + Wait + Sync, W: Output>(
    rt: &R,
    file: &[u8],
    script: &Script,
    frames: &[u8],
    out: &mut W,
) -> Result<(Book<HostKind>, Summary), Fault>
    ensures ran { IfOk result (λ r. HasServed (W.contents out.old) (W.contents out.new) script.now.files.items script.now.text.items frames.now r.0.plain r.1) }
    ensures only { IfErr result (EndsFrames (W.has_refused out.new)) }
{
    let alloc = rt.alloc();
    let served = match frames_of(rt, alloc, frames) {
        Ok(served) => served,
        Err(fault) => return Err(Fault::of_serving(alloc, frames, fault)),
    };
    let mut book = match new_book(alloc, MOMENTS) {
        Ok(book) => book,
        Err(_) => return Err(Fault::NoMemory),
    };
    let mut supply = HostSupply::new(alloc);
    let summary = match run_lines(rt, file, script, &mut book, &mut supply, out) {
        Ok(summary) => summary,
        Err(fault) => {
            let _book = ManuallyDrop::new(book);
            return Err(fault);
        }
    };
    let (book, ends) = match serve_frames(rt, alloc, book, served, out) {
        Ok(served) => served,
        Err(fault) => return Err(Fault::of_serving(alloc, frames, fault)),
    };
    match tell_frames(rt, refused_in(&ends), book.moments() == MOMENTS, out) {
        Ok(()) => Ok((book, summary)),
        Err(_) => {
            let _book = ManuallyDrop::new(book);
            Err(Fault::CannotWrite)
        }
    }
}

/// Runs a script of this name on a host in which nothing was done, and then has two threads serve frames on it. Standard error
/// says what is wrong with each line that is refused, and of the frames if some were refused memory or the journal is full. The
/// book is given up with the process.
///
/// # Errors
/// `BadFrames` with the reason, and nothing was run; `NoMemory`, also after the script; `NoThread`, if no frame was served;
/// and `CannotWrite`.
pub fn serve_on_host<R: FileReader + Eprint + AllocGlobal + Threads + Wait + Sync, W: Output>(
    rt: &R,
    file: &[u8],
    script: &Script,
    frames: &[u8],
    out: &mut W,
) -> Result<Summary, Fault>
    ensures ran { IfOk result (λ summary. RunsNewHost (W.contents out.old) (W.contents out.new) device_names limits script.now.files.items script.now.text.items frames.now (Ok summary)) }
    ensures only { IfErr result (EndsFrames (W.has_refused out.new)) }
{
    let (book, summary) = serve_script(rt, file, script, frames, out)?;
    let _book = ManuallyDrop::new(book);
    Ok(summary)
}

/// As [`serve_on_host`], and then runs another script, of the name `next`, on the host that the frames left. What it prints stands
/// after what the frames do, and its counts are added.
pub fn serve_then_run<R: FileReader + Eprint + AllocGlobal + Threads + Wait + Sync, W: Output>(
    rt: &R,
    file: &[u8],
    script: &Script,
    frames: &[u8],
    next: &[u8],
    behind: &Script,
    out: &mut W,
) -> Result<Summary, Fault>
    ensures ran { IfOk result (λ summary. HasServedThen (W.contents out.old) (W.contents out.new) script.now.files.items script.now.text.items frames.now behind.now.files.items behind.now.text.items summary) }
    ensures only { IfErr result (EndsFrames (W.has_refused out.new)) }
{
    let (book, summary) = serve_script(rt, file, script, frames, out)?;
    let mut book = book;
    let mut supply = HostSupply::new(rt.alloc());
    let ran = run_lines(rt, next, behind, &mut book, &mut supply, out);
    let _book = ManuallyDrop::new(book);
    match ran {
        Ok(more) => Ok(summary.plus(more)),
        Err(fault) => Err(fault),
    }
}
