//! A script, a look into the journal, a dialogue and the log, on the book of a file.

ghost use Rattle.kept_host.specs.Logs.{LogsInFile};
ghost use Rattle.kept_host.specs.Looks.{LooksInFile};
ghost use Rattle.kept_host.specs.Runs.{RunsInFile};
ghost use Rattle.kept_host.specs.Talks.{TalksInFile};

use crate::fault::{LogInFileFault, TalkFault};
use crate::log::log_kept;
use crate::look::look_kept;
use crate::run::{run_kept, talk_kept};
use bt_syntax::Script;
use console_input::{FileReader, Terminal};
use console_looks::Look;
use console_script::{HostKind, Summary};
use console_text::Output;
use kept_file::Terms;
use kept_lines::{Asides, Databases, InFileFault};
use std::io::BufRead;

/// Runs the lines of a script on the book that the file of this path keeps, as [`run_kept`] does on a connection to it. A file
/// that is not there is made. For one that is in use it waits so many seconds.
///
/// # Errors
/// Unopened where the file is not opened, after which no line was run, and those of [`run_kept`].
pub fn run_in_file<R: Databases + AllocGlobal, A: Asides<HostKind, W>, W: Output>(
    rt: &R,
    path: &str,
    seconds: u32,
    terms: Terms,
    script: &Script,
    asides: &mut A,
    out: &mut W,
) -> Result<Summary, InFileFault>
    ensures { RunsInFile (R.may_open rt.now path.now seconds) (R.may_be_time rt.now) terms script.now.files.items script.now.text.items (W.contents out.old) (W.contents out.new) result }
{
    let mut it = match rt.open_database(path, seconds) {
        Ok(it) => it,
        Err(error) => return Err(InFileFault::Unopened(error)),
    };
    let time = rt.milliseconds();
    let ran = run_kept(rt.alloc(), &mut it.conn, time, terms, script, asides, out);
    let _ = rt.close_database(it);
    match ran {
        Ok(summary) => Ok(summary),
        Err(fault) => Err(InFileFault::Kept(fault)),
    }
}

/// Does what a line asks that only looks into the journal, on the book that the file of this path keeps, as [`look_kept`] does on a
/// connection to it. A file that is not there is made. For one that is in use it waits so many seconds.
///
/// # Errors
/// Unopened if the file is not opened, and then nothing was looked at, and those of [`look_kept`].
pub fn look_in_file<R: Databases + AllocGlobal, A: Asides<HostKind, W>, W: Output>(
    rt: &R,
    path: &str,
    seconds: u32,
    terms: Terms,
    look: &Look<'_>,
    asides: &mut A,
    out: &mut W,
) -> Result<Summary, InFileFault>
    ensures { LooksInFile (R.may_open rt.now path.now seconds) terms look.now (W.contents out.old) (W.contents out.new) result }
{
    let mut it = match rt.open_database(path, seconds) {
        Ok(it) => it,
        Err(error) => return Err(InFileFault::Unopened(error)),
    };
    let looked = look_kept(rt.alloc(), &mut it.conn, terms, look, asides, out);
    let _ = rt.close_database(it);
    match looked {
        Ok(summary) => Ok(summary),
        Err(fault) => Err(InFileFault::Kept(fault)),
    }
}

/// Answers the lines of an input one by one on the book that the file of this path keeps, as [`talk_kept`] does on a connection to
/// it. A file that is not there is made. For one that is in use it waits so many seconds. The file is held until the dialogue ends.
///
/// # Errors
/// Unopened if the file is not opened, after which no line was read, and those of [`talk_kept`].
pub fn talk_in_file<
    R: Databases + FileReader + Terminal + Eprint + AllocGlobal,
    A: Asides<HostKind, W>,
    I: BufRead,
    W: Output,
>(
    rt: &R,
    path: &str,
    seconds: u32,
    terms: Terms,
    asides: &mut A,
    input: &mut I,
    out: &mut W,
) -> Result<Summary, TalkFault>
    ensures { TalksInFile (R.may_open rt.now path.now seconds) terms (R.may_read rt.now) (I.remaining input.old) (W.contents out.old) (W.contents out.new) result }
{
    let mut it = match rt.open_database(path, seconds) {
        Ok(it) => it,
        Err(error) => return Err(TalkFault::InFile(InFileFault::Unopened(error))),
    };
    let talked = talk_kept(rt, &mut it.conn, terms, asides, input, out);
    let _ = rt.close_database(it);
    talked
}

/// Writes what was done to the book that the file of this path keeps, event by event, as [`log_kept`] does on a connection to it:
/// the last so many events, or all. The events are not done again. A file that is not there is made. For one that is in use it waits
/// so many seconds.
///
/// # Errors
/// Unopened if the file is not opened, after which nothing was written, and those of [`log_kept`].
pub fn log_in_file<R: Databases + AllocGlobal, W: Output>(
    rt: &R,
    path: &str,
    seconds: u32,
    most: Option<u64>,
    out: &mut W,
) -> Result<(), LogInFileFault>
    ensures { LogsInFile (R.may_open rt.now path.now seconds) most (W.contents out.old) (W.contents out.new) result }
{
    let mut it = match rt.open_database(path, seconds) {
        Ok(it) => it,
        Err(error) => return Err(LogInFileFault::Unopened(error)),
    };
    let told = log_kept(rt.alloc(), &mut it.conn, most, out);
    let _ = rt.close_database(it);
    match told {
        Ok(()) => Ok(()),
        Err(fault) => Err(LogInFileFault::Log(fault)),
    }
}
