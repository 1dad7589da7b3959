//! A script, and a dialogue, on the book of a database.

ghost use Rattle.std.specs.Prelude.{◌≡◌, OnOk};
ghost use Rattle.sqlite.specs.Held.{state};
ghost use Rattle.kept_lines.specs.Begun.{AddsToBook};
ghost use Rattle.kept_host.specs.Runs.{RunsKept};
ghost use Rattle.kept_host.specs.Talks.{fault_of, TalksKept};

use crate::fault::{Broken, TalkFault};
use crate::talk::keep_talk;
use bt_journal::Book;
use bt_syntax::Script;
use console_input::{FileReader, Terminal};
use console_script::{HostKind, HostSupply, Summary};
use console_talk::Manner;
use console_text::Output;
use kept_file::Terms;
use kept_lines::{Asides, Databases, HostBoxes, InFileFault, KeptFault, begin, keep_lines};
use sqlite::{Alter, Connection};
use std::alloc::Global;
use std::io::BufRead;
use std::mem::ManuallyDrop;

// Tells what lines turned that are all kept, if one was accepted.
fn told_turned<A: Asides<HostKind, W>, W: Output>(
    asides: &mut A,
    book: &Book<HostKind>,
    summary: Summary,
) {
    if summary.accepted > 0 {
        asides.turned(book);
    }
}

/// Runs the lines of a script on the book that a database keeps, with a new map for each that they make. In a database that has
/// no table a book of these terms is made first. What the lines did is kept, at this time in milliseconds since 1970, before it
/// is answered; of a line in which something went wrong is told after that, and beside all of them what they turned. The book in
/// memory is given up with the process, and the connection is to be closed.
///
/// # Errors
/// Those of [`begin`], after which no line was run, and of [`keep_lines`].
pub fn run_kept<D: Alter, A: Asides<HostKind, W>, W: Output>(
    alloc: Global,
    conn: &mut Connection<D>,
    time: u64,
    terms: Terms,
    script: &Script,
    asides: &mut A,
    out: &mut W,
) -> Result<Summary, KeptFault>
    ensures runs { RunsKept terms script.now.files.items script.now.text.items (state D.Store conn.old) (state D.Store conn.new) (W.contents out.old) (W.contents out.new) result }
    ensures times { OnOk result (AddsToBook terms time (state D.Store conn.old) (state D.Store conn.new)) }
{
    let mut book: Book<HostKind> = match begin(alloc, conn, terms) {
        Ok(book) => book,
        Err(fault) => return Err(fault),
    };
    let mut supply = HostSupply::new(alloc);
    asides.before(&book, script.text.as_slice());
    let ran = keep_lines(
        alloc,
        conn,
        time,
        &mut book,
        script,
        &mut supply,
        asides,
        out,
    );
    match ran {
        Ok(summary) => {
            told_turned::<A, W>(asides, &book, summary);
            let _book = ManuallyDrop::new(book);
            Ok(summary)
        }
        Err(fault) => {
            let _book = ManuallyDrop::new(book);
            Err(KeptFault::Lines(fault))
        }
    }
}

// Why a dialogue did not come to its end whose book was begun.
fn fault_of(broken: Broken) -> TalkFault
    ensures { result ≡ fault_of broken }
{
    match broken {
        Broken::Lines(fault) => TalkFault::InFile(InFileFault::Kept(KeptFault::Lines(fault))),
        Broken::Open(fault) => TalkFault::InFile(InFileFault::Kept(KeptFault::Open(fault))),
        Broken::Unread(fault) => TalkFault::Unread(fault),
    }
}

/// Answers the lines of an input one by one on the book that a database keeps, up to the end of the input or to a `quit` or `exit`,
/// with a new map for each that they make; a line that spells a range takes its changes out, as [`crate::take_range`] does. In a database that
/// has no table a book of these terms is made first. What a line did is kept before it is answered. Lines are asked for on standard
/// error. The book in memory is given up with the process, and the connection is to be closed.
///
/// # Errors
/// Open and Make of [`begin`], after which no line was read, and Open of [`crate::take_range`]; Unread if a read fails or more than
/// 16,777,216 bytes come, and if there is no memory for a line or a file; Lines if what a line did is not kept, or not answered. What
/// was answered before is on the disk.
pub fn talk_kept<
    D: Alter,
    R: FileReader + Terminal + Eprint + Databases + AllocGlobal,
    A: Asides<HostKind, W>,
    I: BufRead,
    W: Output,
>(
    rt: &R,
    conn: &mut Connection<D>,
    terms: Terms,
    asides: &mut A,
    input: &mut I,
    out: &mut W,
) -> Result<Summary, TalkFault>
    ensures { TalksKept terms (R.may_read rt.now) (I.remaining input.old) (state D.Store conn.old) (state D.Store conn.new) (W.contents out.old) (W.contents out.new) result }
{
    let alloc = rt.alloc();
    let mut book: Book<HostKind> = match begin(alloc, conn, terms) {
        Ok(book) => book,
        Err(fault) => return Err(TalkFault::InFile(InFileFault::Kept(fault))),
    };
    let mut supply = HostSupply::new(alloc);
    let mut boxes = HostBoxes::new(alloc);
    Manner::Dialogue.greet(rt);
    let talked = keep_talk(
        rt,
        conn,
        &mut book,
        &mut supply,
        &mut boxes,
        asides,
        input,
        out,
    );
    let _book = ManuallyDrop::new(book);
    match talked {
        Ok(summary) => Ok(summary),
        Err(broken) => Err(fault_of(broken)),
    }
}
