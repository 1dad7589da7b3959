//! Lines on the book that a file keeps.

ghost use Rattle.std.specs.Prelude.{◌≡◌, Err, IfOk, IfErr, string_bytes};
ghost use Rattle.console_input.specs.Named.{AreFilesOf};
ghost use Rattle.console_operand.specs.Word.{words};
ghost use Rattle.console_looks.specs.LookGrammar.{look_in};
ghost use Rattle.kept_log.specs.LogGrammar.{log_line_in};
ghost use Rattle.kept_lines.specs.RangeGrammar.{range_in};
ghost use Rattle.kept_host.specs.Looks.{LooksInFile};
ghost use Rattle.kept_host.specs.Runs.{RunsInFile};
ghost use Rattle.bpfcon.specs.Book.{IsOfNone, RunsOn, LooksAnew, StopsAnew, LooksOn, DidLine, TalkedOn, RanBook};
ghost use Rattle.bpfcon.specs.Ends.{EndsBook, EndsLines, EndsReading, EndsServed};
ghost use Rattle.bpfcon.specs.declared.fault.Fault.TheVariants.{CannotWrite};

use crate::fault::Fault;
use crate::kept_frames::serve_on_book;
use crate::kept_live::live_on_book;
use crate::log::log_on_book;
use crate::new_host::run_on_host;
use crate::range::take_on_book;
use crate::read_script;
use crate::talk::INPUT;
use bt_syntax::Script;
use console_input::{
    BookLines, BookOrder, FileReader, MOST_SCRIPT, Terminal, read_all, read_named,
};
use console_looks::{Look, look_of};
use console_script::{MOMENTS, Summary, new_book};
use console_text::Output;
use kept_host::{
    Databases, InFileFault, TalkFault, Terms, host_terms, log_line, look_in_file, look_now,
    only_ask, range_of, run_in_file, talk_in_file,
};
use std::alloc::Global;
use std::io::{BufReader, Read};
use std::mem::ManuallyDrop;
use std::sync::Wait;
use std::thread::Threads;
use std::time::Clock;
use thread_asides::{Beside, LineOrigin};

// A text as a script, with the files that it names.
fn with_named<R: FileReader + AllocGlobal>(rt: &R, text: Vec<u8>) -> Result<Script, Fault>
    ensures ran { IfOk result (λ script. (script.text.items ≡ text.items) × AreFilesOf (R.may_read rt.now) script.text.items script.files.items) }
    ensures only { IfErr result EndsReading }
{
    let files = read_named(rt, text.as_slice())?;
    Ok(Script { text, files })
}

// The script from standard input.
fn read_input<R: FileReader + Input + AllocGlobal>(rt: &R) -> Result<Script, Fault>
    ensures ran { IfOk result (λ script. AreFilesOf (R.may_read rt.now) script.text.items script.files.items) }
    ensures only { IfErr result EndsReading }
{
    match read_all(rt.alloc(), rt.reader(), MOST_SCRIPT) {
        Ok(text) => with_named(rt, text),
        Err(fault) => Err(Fault::of_read(rt.alloc(), INPUT, fault)),
    }
}

// Whether a script only asks, of the book in a file that is not there.
fn is_of_none<R: Databases + AllocGlobal>(
    rt: &R,
    file: &str,
    script: &Script,
) -> Result<bool, Fault>
    ensures ran { IfOk result (IsOfNone (R.may_be_there rt.now file.now) script.now.text.items) }
    ensures only { IfErr result EndsReading }
{
    if rt.is_there(file) {
        return Ok(false);
    }
    match only_ask(rt.alloc(), script.text.as_slice()) {
        Ok(asks) => Ok(asks),
        Err(_) => Err(Fault::NoMemory),
    }
}

// Runs a script of this name, which comes from there, on the book in the file of this path.
fn run_at<R: FileReader + Eprint + Databases + AllocGlobal, W: Output>(
    rt: &R,
    path: &str,
    wait: u32,
    terms: Terms,
    name: &[u8],
    origin: LineOrigin,
    script: &Script,
    out: &mut W,
) -> Result<Summary, InFileFault>
    ensures { RunsInFile (R.may_open rt.now path.now wait) (R.may_be_time rt.now) terms script.now.files.items script.now.text.items (W.contents out.old) (W.contents out.new) result }
{
    let mut beside = Beside::new(rt, name, path, origin);
    run_in_file(rt, path, wait, terms, script, &mut beside, out)
}

// Runs a script of this name, which comes from there, on the book that a file keeps. If the file is not there and the script only
// asks, it runs on a new host, and no file is made.
fn run_script<R: FileReader + Eprint + Databases + AllocGlobal, W: Output>(
    rt: &R,
    file: String,
    wait: u32,
    name: &[u8],
    origin: LineOrigin,
    script: &Script,
    out: &mut W,
) -> Result<Summary, Fault>
    ensures ran { IfOk result (RunsOn (R.may_be_there rt.now (string_bytes file)) (R.may_open rt.now (string_bytes file) wait) (R.may_be_time rt.now) script.now.files.items script.now.text.items (W.contents out.old) (W.contents out.new)) }
    ensures only { IfErr result (EndsBook (W.has_refused out.new)) }
{
    if is_of_none(rt, file.as_str(), script)? {
        return run_on_host(rt, name, script, out);
    }
    let terms = host_terms(rt.alloc())?;
    let path = file.as_str();
    match run_at(rt, path, wait, terms, name, origin, script, out) {
        Ok(summary) => Ok(summary),
        Err(fault) => Err(Fault::OfFile { file, fault }),
    }
}

// Does what a line asks that only looks into the journal, on the book in the file of this path.
fn look_at<R: FileReader + Eprint + Databases + AllocGlobal, W: Output>(
    rt: &R,
    path: &str,
    wait: u32,
    terms: Terms,
    look: &Look<'_>,
    out: &mut W,
) -> Result<Summary, InFileFault>
    ensures { LooksInFile (R.may_open rt.now path.now wait) terms look.now (W.contents out.old) (W.contents out.new) result }
{
    let mut beside = Beside::new(rt, b"command", path, LineOrigin::Line);
    look_in_file(rt, path, wait, terms, look, &mut beside, out)
}

// Does what a line asks that only looks into the journal, on a host in which nothing was done. The book is given up with the process.
fn look_anew<R: FileReader + Eprint + AllocGlobal, W: Output>(
    rt: &R,
    path: &str,
    look: &Look<'_>,
    out: &mut W,
) -> Result<Summary, Fault>
    ensures ran { IfOk result (LooksAnew look.now (W.contents out.old) (W.contents out.new)) }
    ensures front { result ≡ Err CannotWrite → StopsAnew look.now (W.contents out.old) (W.contents out.new) }
    ensures only { IfErr result (EndsLines (W.has_refused out.new)) }
{
    let mut book = match new_book(rt.alloc(), MOMENTS) {
        Ok(book) => book,
        Err(_) => return Err(Fault::NoMemory),
    };
    let mut beside = Beside::new(rt, b"command", path, LineOrigin::Line);
    let looked = look_now(&mut book, look, &mut beside, out);
    let _book = ManuallyDrop::new(book);
    match looked {
        Ok(summary) => Ok(summary),
        Err(_) => Err(Fault::CannotWrite),
    }
}

// Does what a line asks that only looks into the journal, on the book that a file keeps. If the file is not there it looks at a new
// host, and no file is made.
fn look_on_book<R: FileReader + Eprint + Databases + AllocGlobal, W: Output>(
    rt: &R,
    file: String,
    wait: u32,
    look: &Look<'_>,
    out: &mut W,
) -> Result<Summary, Fault>
    ensures ran { IfOk result (LooksOn (R.may_be_there rt.now (string_bytes file)) (R.may_open rt.now (string_bytes file) wait) look.now (W.contents out.old) (W.contents out.new)) }
    ensures only { IfErr result (EndsBook (W.has_refused out.new)) }
{
    if !rt.is_there(file.as_str()) {
        return look_anew(rt, file.as_str(), look, out);
    }
    let terms = host_terms(rt.alloc())?;
    match look_at(rt, file.as_str(), wait, terms, look, out) {
        Ok(summary) => Ok(summary),
        Err(fault) => Err(Fault::OfFile { file, fault }),
    }
}

// Does what a line asks on the book that a file keeps: tells the log, takes a range of changes out, looks into the journal, or runs it
// as a command.
fn line_on_book<R: FileReader + Eprint + Databases + AllocGlobal, W: Output>(
    rt: &R,
    file: String,
    wait: u32,
    line: Vec<u8>,
    out: &mut W,
) -> Result<Summary, Fault>
    ensures ran { IfOk result (λ summary. DidLine (R.may_be_there rt.now) (λ it. R.may_open rt.now it wait) (R.may_be_time rt.now) (R.may_read rt.now) (W.contents out.old) (W.contents out.new) summary (string_bytes file) line.items (log_line_in (words line.items)) (range_in (words line.items)) (look_in (words line.items))) }
    ensures only { IfErr result (EndsBook (W.has_refused out.new)) }
{
    match log_line(line.as_slice()) {
        Some(asked) => return log_on_book(rt, file, wait, line.as_slice(), asked, out),
        None => {}
    }
    match range_of(line.as_slice()) {
        Some(range) => return take_on_book(rt, file, wait, line.as_slice(), range, out),
        None => {}
    }
    match look_of(line.as_slice()) {
        Some(look) => return look_on_book(rt, file, wait, &look, out),
        None => {}
    }
    let script = with_named(rt, line)?;
    run_script(rt, file, wait, b"command", LineOrigin::Line, &script, out)
}

// Answers the lines of standard input one by one on the book that a file keeps.
fn talk_on_book<R: FileReader + Terminal + Input + Eprint + Databases + AllocGlobal, W: Output>(
    rt: &R,
    file: String,
    wait: u32,
    out: &mut W,
) -> Result<Summary, Fault>
    ensures ran { IfOk result (λ summary. TalkedOn (R.may_be_there rt.now) (λ it. R.may_open rt.now it wait) (R.may_be_time rt.now) (R.may_read rt.now) (W.contents out.old) (W.contents out.new) summary (string_bytes file)) }
    ensures only { IfErr result (EndsBook (W.has_refused out.new)) }
{
    let alloc = rt.alloc();
    let mut input = match BufReader::new(alloc, rt.reader().take(MOST_SCRIPT + 1)) {
        Ok(input) => input,
        Err(_) => return Err(Fault::NoMemory),
    };
    let terms = host_terms(alloc)?;
    let mut beside = Beside::new(rt, b"stdin", "bpfcon", LineOrigin::Dialogue);
    match talk_in_file(rt, file.as_str(), wait, terms, &mut beside, &mut input, out) {
        Ok(summary) => Ok(summary),
        Err(TalkFault::InFile(fault)) => Err(Fault::OfFile { file, fault }),
        Err(TalkFault::Unread(fault)) => Err(Fault::of_read(alloc, INPUT, fault)),
    }
}

/// Runs the lines that are asked for on the book that a file keeps, and frames after them or between them if some are, or tells its log,
/// takes a range of changes out or looks into its journal if that is what one line asks, and tells on standard error what is wrong with
/// each line that is refused.
///
/// # Errors
/// Those of a script that is not read, before which the file is not opened; those of lines that are not read one by one; `OfFile`
/// if the book was not opened, or what a line did was not kept, or not answered; and those of [`serve_on_book`] and [`live_on_book`].
pub fn run_on_book<
    R: FileReader
        + Terminal
        + Input
        + Eprint
        + Databases
        + AllocGlobal
        + Threads
        + Wait
        + Clock
        + Copy
        + Send
        + Sync
        + 'static,
    W: Output,
>(rt: &R, order: BookOrder, out: &mut W) -> Result<Summary, Fault>
where
    R::Reader: Send + 'static,
    ensures ran { IfOk result (λ summary. RanBook (R.may_be_there rt.now) (R.may_open rt.now) (R.may_be_time rt.now) (R.may_read rt.now) (W.contents out.old) (W.contents out.new) summary order) }
    ensures only { IfErr result (EndsServed (W.has_refused out.new)) }
{
    let BookOrder { file, wait, lines } = order;
    match lines {
        BookLines::Line(line) => line_on_book(rt, file, wait, line, out),
        BookLines::Input => {
            let script = read_input(rt)?;
            run_script(rt, file, wait, b"stdin", LineOrigin::Script, &script, out)
        }
        BookLines::Script(path) => {
            let script = read_script(rt, path.as_str())?;
            let name = path.as_bytes();
            run_script(rt, file, wait, name, LineOrigin::Script, &script, out)
        }
        BookLines::Shell => talk_on_book(rt, file, wait, out),
        BookLines::Host(script, frames) => {
            let (path, frames) = (script.as_str(), frames.as_str());
            serve_on_book(rt, file, wait, path, frames, out)
        }
        BookLines::Live(live) => live_on_book(rt, file, wait, &live, out),
    }
}
