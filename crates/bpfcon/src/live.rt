//! A live host: a script runs, and then lines are answered while workers serve frames.

ghost use Rattle.std.specs.Prelude.{◌≡◌, IfOk, IfErr};
ghost use Rattle.bt_console.specs.Frames.{no_runs};
ghost use Rattle.thread_host_run.specs.FramesOf.{AreFramesAt};
ghost use Rattle.console_input.specs.Named.{AreFilesOf};
ghost use Rattle.bpfcon.specs.Live.{device_in, BeganLive, LivesOn, RanLive};
ghost use Rattle.bpfcon.specs.Ends.{EndsFrames, EndsLive, EndsReading};

use crate::fault::Fault;
use crate::lines::run_lines;
use crate::live_talk::{Left, Talk};
use bt_console::{Runs, Supply};
use bt_desk::{Desk, MOST_CALLS, Shared};
use bt_journal::Book;
use bt_mapkind::MapKind;
use bt_syntax::Script;
use console_input::{FileReader, Live, LiveOptions, MOST_SCRIPT, Terminal};
use console_script::{HostKind, HostSupply, Summary, new_book};
use console_talk::Manner;
use console_text::Output;
use host_words::Word;
use std::alloc::Global;
use std::io::{BufReader, Read};
use std::mem::ManuallyDrop;
use std::sync::Wait;
use std::thread::Threads;
use std::time::Clock;
use thread_host_run::frames_in;
use thread_live::{Operator, Session, Traffic, serve_beside};
use thread_lock::Sequential;

// A live host whose script was run: its book, the frames that its workers are to serve, and what its console keeps.
#[derive(Drop)]
struct Begun {
    book: Book<HostKind>,
    traffic: Traffic,
    operator: Operator<HostSupply>,
}

/// The device at which the frames of a capture come in.
pub(crate) fn device_of(alloc: Global, options: &LiveOptions) -> Result<Word, Fault>
    ensures ran { IfOk result (λ device. device ≡ device_in options.now.device) }
    ensures only { IfErr result EndsReading }
{
    let name = match &options.device {
        Some(name) => name.as_bytes(),
        None => b"eth0".as_slice(),
    };
    match Word::new(alloc, name) {
        Ok(device) => Ok(device),
        Err(_) => Err(Fault::NoMemory),
    }
}

// The frames in a file, and the workers that are to serve them.
fn traffic_of(alloc: Global, options: &LiveOptions, bytes: &[u8]) -> Result<Traffic, Fault>
    ensures ran { IfOk result (λ traffic. AreFramesAt (device_in options.now.device) bytes.now traffic.frames.items) }
    ensures only { IfErr result (EndsFrames ⊥) }
{
    let device = device_of(alloc, options)?;
    let frames = match frames_in(alloc, &device, bytes) {
        Ok(frames) => frames,
        Err(fault) => return Err(Fault::of_serving(alloc, bytes, fault)),
    };
    let passes = options.repeat.map(u64::from);
    let (workers, rate) = (u64::from(options.workers), u64::from(options.rate));
    let journal = u64::from(options.journal);
    Ok(Traffic::new(frames, workers.clamp(1, 64), rate, passes, journal))
}

// Runs the script of a live host on a host in which nothing was done, and reads the frames for its workers before that.
fn begin_live<R: FileReader + Eprint + AllocGlobal + Clock, W: Output>(
    rt: &R,
    live: &Live,
    script: &Script,
    frames: &[u8],
    out: &mut W,
) -> Result<Begun, Fault>
    ensures began { IfOk result (λ begun. BeganLive (W.contents out.old) (W.contents out.new) live.now.options script.now.files.items script.now.text.items frames.now
        begun.book.plain begun.traffic begun.operator.summary) }
    ensures operator { IfOk result (λ begun. (begun.operator.session.runs ≡ no_runs) × (begun.operator.most_moments ≡ live.now.options.journal)) }
    ensures only { IfErr result (EndsFrames (W.has_refused out.new)) }
{
    let alloc = rt.alloc();
    let options = &live.options;
    let traffic = traffic_of(alloc, options, frames)?;
    let journal = u64::from(options.journal);
    let mut book = match new_book(alloc, journal) {
        Ok(book) => book,
        Err(_) => return Err(Fault::NoMemory),
    };
    let mut supply = HostSupply::new(alloc);
    let file = live.setup.as_bytes();
    match run_lines(rt, file, script, &mut book, &mut supply, out) {
        Ok(summary) => {
            let runs = Runs::new(alloc);
            let operator = Operator::new(rt, Session { runs, supply }, summary, journal);
            Ok(Begun {
                book,
                traffic,
                operator,
            })
        }
        Err(fault) => {
            let _book = ManuallyDrop::new(book);
            Err(fault)
        }
    }
}

// Shares the book of a host at a desk, and has its workers serve while the lines of standard input are answered. The book is
// given up with the process.
fn go_live<
    R: FileReader + Terminal + Input + Eprint + AllocGlobal + Threads + Wait + Clock + Sync,
    W: Output + Drop,
>(rt: &R, begun: Begun, out: W) -> (W, Result<Summary, Fault>)
    ensures ran { IfOk result.1 (λ summary. LivesOn ⟦<Shared<HostKind> as Sequential>⟧ ⟦<HostSupply as Supply<HostKind>>⟧.gives ⟦<HostKind as MapKind>⟧.seen (AreFilesOf (R.may_read rt.now))
        begun.traffic begun.operator.most_moments begun.book.plain begun.operator.session begun.operator.summary (W.contents out) (W.contents result.0) summary) }
    ensures only { IfErr result.1 (EndsLive (W.has_refused result.0)) }
{
    let alloc = rt.alloc();
    let mut out = out;
    let Begun {
        book,
        traffic,
        operator,
    } = begun;
    match out.flush_all() {
        Ok(()) => {}
        Err(_) => return (out, Err(Fault::CannotWrite)),
    }
    let Ok(input) = BufReader::new(alloc, rt.reader().take(MOST_SCRIPT + 1)) else {
        return (out, Err(Fault::NoMemory));
    };
    let Ok(operator) = Box::new(alloc, operator) else {
        return (out, Err(Fault::NoMemory));
    };
    let (desk, seat) = match Desk::open(alloc, book, MOST_CALLS) {
        Ok(opened) => opened,
        Err(book) => {
            let _book = ManuallyDrop::new(book);
            return (out, Err(Fault::NoMemory));
        }
    };
    let talk = Talk {
        input,
        out,
        operator,
    };
    Manner::Dialogue.greet(rt);
    let (seat, told) = serve_beside(rt, alloc, &desk, &traffic, seat, talk);
    let _book = ManuallyDrop::new(desk.close(rt, seat));
    match told {
        Ok(left) => {
            let Left { out, ran } = left;
            (out, ran)
        }
        Err(talk) => {
            let Talk {
                input: _,
                out,
                operator: _,
            } = talk;
            (out, Err(Fault::NoThread))
        }
    }
}

/// Runs the script of a live host on a host in which nothing was done, and then has its workers serve the frames while the
/// lines of standard input are answered, up to its end or a `quit`: how many lines were accepted and refused in both. The output
/// comes back with it.
///
/// # Errors
/// `BadFrames` with the reason, and `NoMemory` if there is none for the frames or the host: nothing was run then. After
/// the script's transcript `NoMemory`, `NoThread`, `CannotWrite`, `Unread`, and `Spent`.
pub fn serve_live<
    R: FileReader + Terminal + Input + Eprint + AllocGlobal + Threads + Wait + Clock + Sync,
    W: Output + Drop,
>(rt: &R, live: &Live, script: &Script, frames: &[u8], out: W) -> (W, Result<Summary, Fault>)
    ensures ran { IfOk result.1 (λ summary. RanLive ⟦<Shared<HostKind> as Sequential>⟧ ⟦<HostSupply as Supply<HostKind>>⟧.gives ⟦<HostKind as MapKind>⟧.seen (R.may_read rt.now)
        (W.contents out) (W.contents result.0) live.now.options script.now.files.items script.now.text.items frames.now summary) }
    ensures only { IfErr result.1 (EndsLive (W.has_refused result.0)) }
{
    let mut out = out;
    match begin_live(rt, live, script, frames, &mut out) {
        Ok(begun) => go_live(rt, begun, out),
        Err(fault) => (out, Err(fault)),
    }
}
