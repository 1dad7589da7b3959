//! The console as a program: a script from standard input or a file, its transcript on standard output, and what is wrong with
//! the lines that are refused on standard error.
//!
//! `bpfcon` and `bpfcon run -` answer each line of standard input when it is given, and `bpfcon shell` so too, after a prompt.
//! `bpfcon run FILE` reads a file, and then the files that the script names. `bpfcon host SCRIPT FRAMES` runs a script from a
//! file and then has two threads serve the frames of another, and with a third file runs that script after them; `bpfcon live
//! SETUP FRAMES` answers the lines of standard input while frames are served. `bpfcon help` and `bpfcon version` say how the
//! program is called, and which one it is. The status is 0 if no line was refused, 1 if one was, and 2 with a text on standard error if
//! the run did not come to its end.
#![tactic(auto)]

ghost use Rattle.std.specs.Prelude.{◌≡◌, ◌<◌, ◌^◌, ◌-◌, Ok, Err, IfOk, IfErr, MatchResult};
ghost use Rattle.std.specs.Io.KnownBytes.{Appends};
ghost use Rattle.console_input.specs.declared.source.TheConstants.{MOST_SCRIPT};
ghost use Rattle.console_script.specs.Transcript.{no_counts};
ghost use Rattle.bpfcon.specs.Carried.{IsScriptOf, AreOfLive, RanFile, Served, ServedThen, CarriedLive, Carried};
ghost use Rattle.bpfcon.specs.Book.{Did, DidAsked};
ghost use Rattle.bpfcon.specs.Faults.{status_of};
ghost use Rattle.bpfcon.specs.declared.fault.Fault.TheVariants.{CannotWrite};
ghost use Rattle.bpfcon.specs.Ends.{EndsFrames, EndsLines, EndsLive, EndsProgram, EndsReading, EndsRun};

mod answered;
mod book;
mod explain;
mod fault;
mod host_run;
mod input;
mod kept_frames;
mod kept_live;
mod lines;
mod live;
mod live_talk;
mod log;
mod new_host;
mod range;
mod refused;
mod talk;

use book::run_on_book;
use bt_console::Supply;
use bt_desk::Shared;
use bt_mapkind::MapKind;
use bt_syntax::Script;
use console_input::{
    Arguments, FileReader, HELP, Live, MOST_FRAMES, MOST_SCRIPT, Order, Request, Surroundings,
    Terminal, VERSION, read_named, request_of_args,
};
use console_script::{HostKind, HostSupply, Summary};
use console_talk::Manner;
use console_text::{Output, put};
use explain::tell_count;
use fault::Fault;
use host_run::{serve_on_host, serve_then_run};
use input::talk;
use kept_host::Databases;
use live::serve_live;
use new_host::run_on_host;
use std::io;
use std::io::{BufWriter, Write};
use std::process::ExitCode;
use std::sync::Wait;
use std::thread::Threads;
use std::time::Clock;
use thread_lock::Sequential;

// All bytes of a file.
fn read<R: FileReader + AllocGlobal>(rt: &R, path: &str, most: u64) -> Result<Vec<u8>, Fault>
    requires { most < 2 ^ 64 - 1 }
    ensures ran { IfOk result (λ bytes. R.may_read rt.now path.now most (Ok bytes.items)) }
    ensures only { IfErr result EndsReading }
{
    match rt.read_whole(path, most) {
        Ok(bytes) => Ok(bytes),
        Err(fault) => Err(Fault::of_read(rt.alloc(), path, fault)),
    }
}

// The script in a file, with the files that it names.
fn read_script<R: FileReader + AllocGlobal>(rt: &R, path: &str) -> Result<Script, Fault>
    ensures ran { IfOk result (λ script. IsScriptOf (R.may_read rt.now) path.now script.text.items script.files.items) }
    ensures only { IfErr result EndsReading }
{
    let text = read(rt, path, MOST_SCRIPT)?;
    let files = read_named(rt, text.as_slice())?;
    Ok(Script { text, files })
}

// Writes a text; no line was refused.
fn say<W: Output>(out: &mut W, text: &str) -> Result<Summary, Fault>
    ensures said { IfOk result (λ summary. Appends (W.contents out.old) (W.contents out.new) text.now × (summary ≡ no_counts)) }
    ensures only { IfErr result (EndsLines (W.has_refused out.new)) }
{
    match put(out, text.as_bytes()) {
        Ok(()) => Ok(Summary {
            accepted: 0,
            refused: 0,
        }),
        Err(_) => Err(Fault::CannotWrite),
    }
}

// Runs the script in a file, and serves the frames of another.
fn serve<R: FileReader + Eprint + AllocGlobal + Threads + Wait + Sync, W: Output>(
    rt: &R,
    path: &str,
    frames: &str,
    out: &mut W,
) -> Result<Summary, Fault>
    ensures ran { IfOk result (λ summary. Served (R.may_read rt.now) (W.contents out.old) (W.contents out.new) summary path.now frames.now) }
    ensures only { IfErr result (EndsFrames (W.has_refused out.new)) }
{
    let script = read_script(rt, path)?;
    let text = read(rt, frames, MOST_FRAMES)?;
    serve_on_host(rt, path.as_bytes(), &script, &text, out)
}

// Runs the script in a file, serves the frames of another, and runs the script in a third after them.
fn serve_then<R: FileReader + Eprint + AllocGlobal + Threads + Wait + Sync, W: Output>(
    rt: &R,
    path: &str,
    frames: &str,
    after: &str,
    out: &mut W,
) -> Result<Summary, Fault>
    ensures ran { IfOk result (λ summary. ServedThen (R.may_read rt.now) (W.contents out.old) (W.contents out.new) summary path.now frames.now after.now) }
    ensures only { IfErr result (EndsFrames (W.has_refused out.new)) }
{
    let script = read_script(rt, path)?;
    let text = read(rt, frames, MOST_FRAMES)?;
    let behind = read_script(rt, after)?;
    let next = after.as_bytes();
    serve_then_run(rt, path.as_bytes(), &script, &text, next, &behind, out)
}

// What a live host is made of: the script of its setup, and the bytes of its frames.
fn read_live<R: FileReader + AllocGlobal>(rt: &R, live: &Live) -> Result<(Script, Vec<u8>), Fault>
    ensures ran { IfOk result (λ it. AreOfLive (R.may_read rt.now) live.now it.0.text.items it.0.files.items it.1.items) }
    ensures only { IfErr result EndsReading }
{
    let script = read_script(rt, live.setup.as_str())?;
    let frames = read(rt, live.frames.as_str(), MOST_FRAMES)?;
    Ok((script, frames))
}

// Runs the script of a live host, and answers the lines of standard input while its workers serve the frames of a file.
fn go_live<
    R: FileReader + Terminal + Input + Eprint + AllocGlobal + Threads + Wait + Clock + Sync,
    W: Output + Drop,
>(rt: &R, live: &Live, out: W) -> (W, Result<Summary, Fault>)
    ensures ran { IfOk result.1 (λ summary. CarriedLive ⟦<Shared<HostKind> as Sequential>⟧ ⟦<HostSupply as Supply<HostKind>>⟧.gives ⟦<HostKind as MapKind>⟧.seen (R.may_read rt.now)
        (W.contents out) (W.contents result.0) summary live.now) }
    ensures only { IfErr result.1 (EndsLive (W.has_refused result.0)) }
{
    match read_live(rt, live) {
        Ok((script, frames)) => serve_live(rt, live, &script, &frames, out),
        Err(fault) => (out, Err(fault)),
    }
}

// Runs the script in a file.
fn run_file<R: FileReader + Eprint + AllocGlobal, W: Output>(
    rt: &R,
    path: &str,
    out: &mut W,
) -> Result<Summary, Fault>
    ensures ran { IfOk result (λ summary. RanFile (R.may_read rt.now) (W.contents out.old) (W.contents out.new) summary path.now) }
    ensures only { IfErr result (EndsLines (W.has_refused out.new)) }
{
    let script = read_script(rt, path)?;
    run_on_host(rt, path.as_bytes(), &script, out)
}

// Does what was asked, and writes what is to be written. The output comes back with what came of it.
fn carry_out<
    R: FileReader + Terminal + Input + Eprint + AllocGlobal + Threads + Wait + Clock + Sync,
    W: Output + Drop,
>(rt: &R, order: Order, out: W) -> (W, Result<Summary, Fault>)
    ensures ran { IfOk result.1 (λ summary. Carried ⟦<Shared<HostKind> as Sequential>⟧ ⟦<HostSupply as Supply<HostKind>>⟧.gives ⟦<HostKind as MapKind>⟧.seen (R.may_read rt.now)
        (W.contents out) (W.contents result.0) summary order) }
    ensures only { IfErr result.1 (EndsLive (W.has_refused result.0)) }
{
    let mut out = out;
    match order {
        Order::Help => {
            let ran = say(&mut out, HELP);
            (out, ran)
        }
        Order::Version => {
            let ran = say(&mut out, VERSION);
            (out, ran)
        }
        Order::Shell => {
            let ran = talk(rt, Manner::Dialogue, rt.reader(), &mut out);
            (out, ran)
        }
        Order::RunInput => {
            let ran = talk(rt, Manner::Script, rt.reader(), &mut out);
            (out, ran)
        }
        Order::Run(path) => {
            let ran = run_file(rt, path.as_str(), &mut out);
            (out, ran)
        }
        Order::Host(script, frames) => {
            let ran = serve(rt, script.as_str(), frames.as_str(), &mut out);
            (out, ran)
        }
        Order::HostThen(script, frames, after) => {
            let ran = serve_then(
                rt,
                script.as_str(),
                frames.as_str(),
                after.as_str(),
                &mut out,
            );
            (out, ran)
        }
        Order::Live(live) => go_live(rt, &live, out),
    }
}

// Does what was asked, without a book in a file or on one.
fn answer_request<
    R: FileReader
        + Terminal
        + Input
        + Eprint
        + AllocGlobal
        + Threads
        + Wait
        + Clock
        + Databases
        + Copy
        + Send
        + Sync
        + 'static,
    W: Output + Drop,
>(rt: &R, request: Request, out: W) -> (W, Result<Summary, Fault>)
where
    R::Reader: Send + 'static,
    ensures ran { IfOk result.1 (λ summary. Did ⟦<Shared<HostKind> as Sequential>⟧ ⟦<HostSupply as Supply<HostKind>>⟧.gives ⟦<HostKind as MapKind>⟧.seen (R.may_be_there rt.now) (R.may_open rt.now) (R.may_be_time rt.now) (R.may_read rt.now)
        (W.contents out) (W.contents result.0) summary request) }
    ensures only { IfErr result.1 (EndsRun (W.has_refused result.0)) }
{
    match request {
        Request::Plain(order) => carry_out(rt, order, out),
        Request::Book(order) => {
            let mut out = out;
            let ran = run_on_book(rt, order, &mut out);
            (out, ran)
        }
    }
}

fn run<
    R: Arguments
        + Surroundings
        + FileReader
        + Terminal
        + Input
        + Print
        + Eprint
        + AllocGlobal
        + Threads
        + Wait
        + Clock
        + Databases
        + Copy
        + Send
        + Sync
        + 'static,
>(rt: &R) -> Result<Summary, Fault>
where
    R::Reader: Send + 'static,
    ensures ran { IfOk result (λ summary. DidAsked ⟦<Shared<HostKind> as Sequential>⟧ ⟦<HostSupply as Supply<HostKind>>⟧.gives ⟦<HostKind as MapKind>⟧.seen (R.may_be_there rt.now) (R.may_open rt.now) (R.may_be_time rt.now) (R.may_be rt.now) (R.may_name rt.now) (R.may_read rt.now) summary) }
    ensures only { IfErr result (EndsProgram (R.may_be rt.now) (R.may_name rt.now)) }
{
    let request = match request_of_args(rt) {
        Ok(request) => request,
        Err(fault) => return Err(Fault::of_args(rt.alloc(), fault)),
    };
    let Ok(out) = BufWriter::new(rt.alloc(), io::writer(rt)) else {
        return Err(Fault::NoMemory);
    };
    let (mut out, ran) = answer_request(rt, request, out);
    flushed(ran, out.flush())
}

// What a run came to, whose output was flushed so.
fn flushed(ran: Result<Summary, Fault>, flush: io::Result<()>) -> Result<Summary, Fault>
    ensures { MatchResult flush (λ _. result ≡ ran) (λ _. result ≡ Err CannotWrite) }
{
    match flush {
        Ok(()) => ran,
        Err(_) => Err(Fault::CannotWrite),
    }
}

// Tells how a run ended, and with which status the program is to end.
fn ended<R: Eprint>(rt: &R, ran: Result<Summary, Fault>) -> u8
    ensures { result ≡ status_of ran }
{
    match ran {
        Ok(summary) => {
            tell_count(rt, summary.refused);
            if summary.refused == 0 { 0 } else { 1 }
        }
        Err(fault) => {
            let _ = rt.eprintln(fault);
            2
        }
    }
}

fn main(rt: HostRuntime) -> ExitCode {
    let ran = run(&rt);
    ExitCode::from(ended(&rt, ran))
}
