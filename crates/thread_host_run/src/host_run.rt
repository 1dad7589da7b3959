//! A host run: a script, and frames that two workers serve on the host that it made.

ghost use Rattle.std.specs.Prelude.{◌≡◌, [], Err, IfOk};
ghost use Rattle.std.specs.Io.KnownBytes.{Appends};
ghost use Rattle.thread_frames.specs.Takes.{IsTakeOf, all_of, taken_of, parts_of};
ghost use Rattle.thread_frames.specs.declared.deal.TheConstants.{MOST_PARTS};
ghost use Rattle.console_script.specs.Supplied.{AreSupplied};
ghost use Rattle.console_script.specs.Made.{IsMade, AllGetNew};
ghost use Rattle.thread_host_run.specs.HostRuns.{AreToldOf, TellsFrames, ended, RunsHost, RunsNewHost};
ghost use Rattle.thread_host_run.specs.declared.fault.RunHostFault.TheVariants.{Write};

use crate::fault::RunHostFault;
use crate::frames::frames_of;
use crate::serve::serve;
use crate::text::put_ends;
use bt_journal::Book;
use bt_mapkind::MapKind;
use bt_syntax::Script;
use bt_workers::{FrameResult, Frames, Take};
use console_script::{HostSupply, Output, Summary, Supply, run_script};
use host_words::Word;
use journal_model::Limits;
use std::alloc::Global;
use std::mem::ManuallyDrop;
use std::sync::Wait;
use std::thread::Threads;

/// Has two workers serve frames on a book, and writes how each ended, `frame N TEXT` by ascending number, and `moments N` at
/// last, as [`run_host`] does after its script: the book that they left, and the ends.
///
/// # Errors
/// `NoMemory` if an allocation failed before the first frame's line, `NoThread` if no second thread could be started, and
/// `Write` if a write failed or took no byte. The book is given up then.
pub fn serve_frames<K: MapKind + Send, R: Threads + Wait + Sync, W: Output>(
    rt: &R,
    alloc: Global,
    book: Book<K>,
    frames: (Frames, Take),
    out: &mut W,
) -> Result<(Book<K>, Vec<FrameResult>), RunHostFault>
    requires { IsTakeOf frames.0 frames.1 × (parts_of frames.1 ≡ MOST_PARTS) × (taken_of frames.1 ≡ []) }
    ensures served { IfOk result (λ r. AreToldOf book.plain (all_of frames.1) r.1.items r.0.plain (Appends (W.contents out.old) (W.contents out.new))) }
    ensures tells { TellsFrames (W.contents out.old) (W.contents out.new) book.plain (all_of frames.1) result }
    ensures refused { result ≡ Err Write → W.has_refused out.new }
{
    let (frames, take) = frames;
    let (book, ends) = serve(rt, alloc, book, &frames, take)?;
    match put_ends(out, &ends, book.moments()) {
        Ok(()) => Ok((book, ends)),
        Err(_) => {
            let _book = ManuallyDrop::new(book);
            Err(RunHostFault::Write)
        }
    }
}

// Has two workers serve the frames, and writes how each ended and how many moments the book then has. The book is given up.
fn tell_frames<K: MapKind + Send, R: Threads + Wait + Sync, W: Output>(
    rt: &R,
    alloc: Global,
    book: Book<K>,
    frames: (Frames, Take),
    out: &mut W,
) -> Result<(), RunHostFault>
    requires { IsTakeOf frames.0 frames.1 × (parts_of frames.1 ≡ MOST_PARTS) × (taken_of frames.1 ≡ []) }
    ensures tells { TellsFrames (W.contents out.old) (W.contents out.new) book.plain (all_of frames.1) result }
    ensures refused { result ≡ Err Write → W.has_refused out.new }
{
    match serve_frames(rt, alloc, book, frames, out) {
        Ok((book, _ends)) => {
            let _book = ManuallyDrop::new(book);
            Ok(())
        }
        Err(fault) => Err(fault),
    }
}

// What the frames came to, with the counts of the script in front of them.
fn ended(summary: Summary, told: Result<(), RunHostFault>) -> Result<Summary, RunHostFault>
    ensures { result ≡ ended summary told }
{
    match told {
        Ok(()) => Ok(summary),
        Err(fault) => Err(fault),
    }
}

/// Runs a script on a book and writes its transcript; then two workers serve the frames on two threads, and the end of each is
/// written, `frame N TEXT` by ascending number, and `moments N` at last: how many of the script's lines were accepted and
/// refused.
///
/// A frame's text is that of `frame` in a script; if its device is unknown, memory ran out at its start, or the desk's calls
/// are spent, the text is `Error: ` and the reason. The book is given up with the process and not taken apart.
///
/// # Errors
/// `BadFrames` if the bytes of the frames are neither lines that spell frames nor a capture: then nothing was run. `Write` if a write failed or took no byte.
/// `NoMemory` if an allocation failed before the script, or after it before the first frame's line, and `NoThread` if no
/// second thread could be started.
pub fn run_host<K: MapKind + Send, R: Threads + Wait + Sync, S: Supply<K>, W: Output>(
    rt: &R,
    alloc: Global,
    book: Book<K>,
    script: &Script,
    supply: &mut S,
    frames: &[u8],
    out: &mut W,
) -> Result<Summary, RunHostFault>
    ensures ran { RunsHost (W.contents out.old) (W.contents out.new) book.plain
        (λ run. AreSupplied S.gives K.seen supply.old run supply.new) script.now.files.items script.now.text.items frames.now result }
    ensures refused { result ≡ Err Write → W.has_refused out.new }
{
    let mut book = book;
    let frames = frames_of(rt, alloc, frames)?;
    match run_script(alloc, &mut book, script, supply, out) {
        Ok(summary) => ended(summary, tell_frames(rt, alloc, book, frames, out)),
        Err(_) => {
            let _book = ManuallyDrop::new(book);
            Err(RunHostFault::Write)
        }
    }
}

// A host run whose supplier makes a new map each time it is asked.
fn run_with_new_maps<K: MapKind + Send, R: Threads + Wait + Sync, S: Supply<K>, W: Output>(
    rt: &R,
    alloc: Global,
    book: Book<K>,
    script: &Script,
    supply: &mut S,
    frames: &[u8],
    out: &mut W,
) -> Result<Summary, RunHostFault>
    requires { (from : _) (attr : _) (told : _) (to : _) → S.gives from attr told to → IsMade K.seen attr told }
    ensures ran { RunsHost (W.contents out.old) (W.contents out.new) book.plain AllGetNew script.now.files.items script.now.text.items frames.now result }
    ensures refused { result ≡ Err Write → W.has_refused out.new }
{
    run_host(rt, alloc, book, script, supply, frames, out)
}

/// Runs a script on a new host of these devices and limits, and then has two workers serve the frames, as [`run_host`] does.
/// The box of a map is made when the script comes to its line, of this project's kind for its type.
///
/// # Errors
/// `BadDevices`, `BadLimits` or `NoMemory` if no book is made: then nothing was run. Else those of [`run_host`].
pub fn run_new_host<R: Threads + Wait + Sync, W: Output>(
    rt: &R,
    alloc: Global,
    devices: Vec<Word>,
    limits: Limits,
    script: &Script,
    frames: &[u8],
    out: &mut W,
) -> Result<Summary, RunHostFault>
    ensures ran { RunsNewHost (W.contents out.old) (W.contents out.new) devices.items limits script.now.files.items script.now.text.items frames.now result }
    ensures refused { result ≡ Err Write → W.has_refused out.new }
{
    let book = Book::new(alloc, devices, limits)?;
    let mut supply = HostSupply::new(alloc);
    run_with_new_maps(rt, alloc, book, script, &mut supply, frames, out)
}
