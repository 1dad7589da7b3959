//! A dialogue on the book of a database: its lines read, kept and answered one by one.

ghost use Rattle.std.specs.Prelude.{◌≡◌, ℕ, List, IfOk, OnOk, OnErr};
ghost use Rattle.std.specs.Io.KnownBytes.{Keeps};
ghost use Rattle.sqlite.specs.State.{HasCleanDisk};
ghost use Rattle.sqlite.specs.Held.{state};
ghost use Rattle.bt_syntax.specs.declared.files.FileText.{FileText as Named};
ghost use Rattle.console_input.specs.Named.{AreFilesOf};
ghost use Rattle.console_script.specs.Frames.{console_of};
ghost use Rattle.console_script.specs.Supplied.{AreSupplied};
ghost use Rattle.console_talk.specs.Talk.{standing, said, place, silent, TellsLook, IsAnswered, Goes};
ghost use Rattle.console_talk.specs.declared.manner.Manner.TheVariants.{Dialogue};
ghost use Rattle.kept_file.specs.Keeps.{HoldsOne};
ghost use Rattle.kept_ledger.specs.TermsView.{PlainTerms};
ghost use Rattle.kept_ledger.specs.Ledger.{LeavesOnly};
ghost use Rattle.kept_lines.specs.Kept.{IsOnDisk};
ghost use Rattle.kept_host.specs.Looks.{LooksFront};
ghost use Rattle.kept_host.specs.Talks.{StaysOnDisk, TookRange, GoesKept, TalkedThrough, IsRangePart, IsPart, IsTalkFront};

use crate::fault::Broken;
use crate::look::look_now;
use crate::range::{take_range, told as told_range};
use bt_journal::Book;
use bt_mapkind::MapKind;
use bt_syntax::{FileText, first_line};
use console_input::{FileReader, MOST_SCRIPT, ReadFault, Terminal, read_named};
use console_looks::Look;
use console_script::{Summary, Supply};
use console_talk::{Manner, read_line};
use console_text::Output;
use kept_file::MakeBox;
use kept_lines::{
    Asides, Databases, Hints, KeptDialogue, LinesFault, SerialRange, Wrong, range_of, wrong_in,
};
use sqlite::{Alter, Connection};
use std::io::BufRead;

// Tells of a line in which something went wrong, if something did.
fn told<K: MapKind, H: Hints<K, W>, W: Output>(
    hints: &mut H,
    book: &mut Book<K>,
    files: &[FileText],
    wrong: Option<Wrong<'_>>,
    out: &mut W,
)
    ensures same { book.new.plain ≡ book.old.plain }
    ensures kept { Keeps (W.contents out.old) (W.contents out.new) }
{
    match wrong {
        Some(wrong) => hints.tell(book, files, wrong, out),
        None => {}
    }
}

// Tells of a line, if it was accepted and is kept, what it turned, and of the open runs. `before` lines had been accepted before it.
fn told_after<K: MapKind, A: Asides<K, W>, W: Output>(
    asides: &mut A,
    book: &Book<K>,
    dialogue: &KeptDialogue,
    before: u64,
    line: &[u8],
    kept: &Result<(), Broken>,
) {
    if kept.is_ok() && dialogue.summary().accepted > before {
        asides.turned(book);
        asides.step(dialogue.runs(), line);
    }
}

// Does one line with the files that it names, keeps what it did, and has its answer stand on the output when it returns.
fn keep_now<
    D: Alter,
    R: FileReader + Databases + AllocGlobal,
    K: MapKind,
    S: Supply<K>,
    H: Hints<K, W>,
    W: Output,
>(
    rt: &R,
    conn: &mut Connection<D>,
    book: &mut Book<K>,
    dialogue: &mut KeptDialogue,
    supply: &mut S,
    hints: &mut H,
    number: u64,
    line: &[u8],
    out: &mut W,
) -> Result<(), Broken>
    ensures answered { IfOk result (λ _. (files : List Named) × IsAnswered (AreSupplied S.gives K.seen) (AreFilesOf (R.may_read rt.now)) (said line.now files) supply.old
        (standing (console_of book.old.plain dialogue.old.runs) dialogue.old.summary) (W.contents out.old) supply.new (standing (console_of book.new.plain dialogue.new.runs) dialogue.new.summary) (W.contents out.new)) }
    ensures clean { HasCleanDisk (state D.Store conn.new) → HasCleanDisk (state D.Store conn.old) }
    ensures kept { HasCleanDisk (state D.Store conn.new) → (t : PlainTerms) → IsOnDisk t (state D.Store conn.old) book.old.plain
        → OnOk result (IsOnDisk t (state D.Store conn.new) book.new.plain) }
    ensures part { OnErr result (HasCleanDisk (state D.Store conn.new) → (t : PlainTerms) → IsOnDisk t (state D.Store conn.old) book.old.plain
        → LeavesOnly (HoldsOne t (IsPart (AreFilesOf (R.may_read rt.now)) (standing (console_of book.old.plain dialogue.old.runs) dialogue.old.summary) line.now (W.contents out.old) (W.contents out.new)))
        (state D.Store conn.new)) }
{
    let files = match read_named(rt, line) {
        Ok(files) => files,
        Err(_) => return Err(Broken::Unread(ReadFault::NoMemory)),
    };
    let files = files.as_slice();
    let before = dialogue.summary();
    let (alloc, time) = (rt.alloc(), rt.milliseconds());
    let tally = match dialogue.keep(alloc, conn, time, book, supply, files, line, out) {
        Ok(tally) => tally,
        Err(fault) => return Err(Broken::Lines(fault)),
    };
    match out.flush_all() {
        Ok(()) => {}
        Err(_) => return Err(Broken::Lines(LinesFault::Write)),
    }
    let wrong = wrong_in(number, line, before, tally);
    told(hints, book, files, wrong, out);
    Ok(())
}

// Does what a line asks that only looks into the journal.
fn told_look<K: MapKind, A: Asides<K, W>, W: Output>(
    book: &mut Book<K>,
    look: &Look<'_>,
    asides: &mut A,
    out: &mut W,
) -> Result<(), Broken>
    ensures told { OnOk result (TellsLook look.now book.old.plain (W.contents out.old) (W.contents out.new)) }
    ensures front { OnErr result (LooksFront look.now book.old.plain (W.contents out.old) (W.contents out.new)) }
    ensures same { book.new.plain ≡ book.old.plain }
{
    match look_now(book, look, asides, out) {
        Ok(_counted) => Ok(()),
        Err(fault) => Err(Broken::Lines(fault)),
    }
}

// Gives help if a line asks for it, looks into the journal if it asks for that, and else keeps and answers the line, and tells what
// there is to tell beside its answer.
fn hear_line<
    D: Alter,
    R: FileReader + Databases + AllocGlobal,
    K: MapKind,
    S: Supply<K>,
    A: Asides<K, W>,
    W: Output,
>(
    rt: &R,
    conn: &mut Connection<D>,
    book: &mut Book<K>,
    dialogue: &mut KeptDialogue,
    supply: &mut S,
    asides: &mut A,
    number: u64,
    line: &[u8],
    out: &mut W,
) -> Result<(), Broken>
    ensures goes { IfOk result (λ _. (files : List Named) × Goes (AreSupplied S.gives K.seen) (AreFilesOf (R.may_read rt.now)) Dialogue (said line.now files) supply.old
        (standing (console_of book.old.plain dialogue.old.runs) dialogue.old.summary) (W.contents out.old) supply.new (standing (console_of book.new.plain dialogue.new.runs) dialogue.new.summary) (W.contents out.new)) }
    ensures clean { HasCleanDisk (state D.Store conn.new) → HasCleanDisk (state D.Store conn.old) }
    ensures kept { HasCleanDisk (state D.Store conn.new) → (t : PlainTerms) → IsOnDisk t (state D.Store conn.old) book.old.plain
        → OnOk result (IsOnDisk t (state D.Store conn.new) book.new.plain) }
    ensures part { OnErr result (HasCleanDisk (state D.Store conn.new) → (t : PlainTerms) → IsOnDisk t (state D.Store conn.old) book.old.plain
        → LeavesOnly (HoldsOne t (IsPart (AreFilesOf (R.may_read rt.now)) (standing (console_of book.old.plain dialogue.old.runs) dialogue.old.summary) line.now (W.contents out.old) (W.contents out.new)))
        (state D.Store conn.new)) }
{
    if Manner::Dialogue.is_asked_by(line) {
        asides.help(line);
        return Ok(());
    }
    match Manner::Dialogue.look_in(line) {
        Some(look) => told_look(book, &look, asides, out),
        None => {
            asides.before(book, line);
            let before = dialogue.summary().accepted;
            let kept = keep_now(rt, conn, book, dialogue, supply, asides, number, line, out);
            told_after::<K, A, W>(asides, book, dialogue, before, line, &kept);
            kept
        }
    }
}

// Takes the range of changes out that a line spells, or none of them, and has the answer stand on the output when it returns. Then it
// tells what there is to tell beside the answer.
fn take_now<
    D: Alter,
    R: Databases + AllocGlobal,
    K: MapKind,
    B: MakeBox<K>,
    A: Asides<K, W>,
    W: Output,
>(
    rt: &R,
    conn: &mut Connection<D>,
    book: &mut Book<K>,
    dialogue: &mut KeptDialogue,
    boxes: &mut B,
    asides: &mut A,
    number: u64,
    line: &[u8],
    range: SerialRange,
    out: &mut W,
) -> Result<(), Broken>
    ensures took { OnOk result (TookRange {S = Unit {0}} (StaysOnDisk (state D.Store conn.old) (state D.Store conn.new) book.old.plain) range
        (place tt (standing (console_of book.old.plain dialogue.old.runs) dialogue.old.summary) (W.contents out.old))
        (place tt (standing (console_of book.new.plain dialogue.new.runs) dialogue.new.summary) (W.contents out.new))) }
    ensures clean { HasCleanDisk (state D.Store conn.new) → HasCleanDisk (state D.Store conn.old) }
    ensures kept { HasCleanDisk (state D.Store conn.new) → (t : PlainTerms) → IsOnDisk t (state D.Store conn.old) book.old.plain
        → OnOk result (IsOnDisk t (state D.Store conn.new) book.new.plain) }
    ensures part { OnErr result (HasCleanDisk (state D.Store conn.new) → (t : PlainTerms) → IsOnDisk t (state D.Store conn.old) book.old.plain
        → LeavesOnly (HoldsOne t (IsRangePart range book.old.plain (W.contents out.old) (W.contents out.new))) (state D.Store conn.new)) }
{
    asides.before(book, line);
    let (alloc, time) = (rt.alloc(), rt.milliseconds());
    let taken = match take_range(alloc, conn, time, book, boxes, range, out) {
        Ok(taken) => taken,
        Err(fault) => return Err(Broken::of_range(fault)),
    };
    match out.flush_all() {
        Ok(()) => {}
        Err(_) => return Err(Broken::Lines(LinesFault::Write)),
    }
    dialogue.count(taken.counts());
    told_range(asides, book, number, line, taken, out);
    Ok(())
}

/// Answers one line of a dialogue on a kept book, which has this number. A line that spells a range takes its changes out, one that
/// asks for help or for a look gets it, and any other is done, with the files that it names, as they are now. What it did is on the
/// disk, and then it is answered.
///
/// # Errors
/// Unread if there is no memory for a file; Lines, as a script has them; and Open if the book is not opened again after a range that
/// was refused. The book may then be ahead of its database, and of no use.
pub fn hear<
    D: Alter,
    R: FileReader + Databases + AllocGlobal,
    K: MapKind,
    S: Supply<K>,
    B: MakeBox<K>,
    A: Asides<K, W>,
    W: Output,
>(
    rt: &R,
    conn: &mut Connection<D>,
    book: &mut Book<K>,
    dialogue: &mut KeptDialogue,
    supply: &mut S,
    boxes: &mut B,
    asides: &mut A,
    number: u64,
    line: &[u8],
    out: &mut W,
) -> Result<(), Broken>
    ensures goes { IfOk result (λ _. (files : List Named) × GoesKept (AreSupplied S.gives K.seen) (AreFilesOf (R.may_read rt.now)) (StaysOnDisk (state D.Store conn.old) (state D.Store conn.new) book.old.plain) (said line.now files)
        (place supply.old (standing (console_of book.old.plain dialogue.old.runs) dialogue.old.summary) (W.contents out.old))
        (place supply.new (standing (console_of book.new.plain dialogue.new.runs) dialogue.new.summary) (W.contents out.new))) }
    ensures clean { HasCleanDisk (state D.Store conn.new) → HasCleanDisk (state D.Store conn.old) }
    ensures kept { HasCleanDisk (state D.Store conn.new) → (t : PlainTerms) → IsOnDisk t (state D.Store conn.old) book.old.plain
        → OnOk result (IsOnDisk t (state D.Store conn.new) book.new.plain) }
    ensures part { OnErr result (HasCleanDisk (state D.Store conn.new) → (t : PlainTerms) → IsOnDisk t (state D.Store conn.old) book.old.plain
        → LeavesOnly (HoldsOne t (IsPart (AreFilesOf (R.may_read rt.now)) (standing (console_of book.old.plain dialogue.old.runs) dialogue.old.summary) line.now (W.contents out.old) (W.contents out.new)))
        (state D.Store conn.new)) }
{
    match range_of(line) {
        Some(range) => take_now(
            rt, conn, book, dialogue, boxes, asides, number, line, range, out,
        ),
        None => hear_line(rt, conn, book, dialogue, supply, asides, number, line, out),
    }
}

/// Answers the lines of an input one by one on a kept book, up to its end or to a `quit` or `exit`. The files that a line names are
/// read when it is given. It is done, what it did is on the disk, and then it is answered. After a range that is refused the book is
/// opened again if it was ahead of its database, with maps from `boxes`.
///
/// # Errors
/// Unread if a read fails or more than 16,777,216 bytes come, and if there is no memory for a line or a file; Lines, as a script
/// has them; and Open if the book is not opened again. What was answered before stands on the output, and is on the disk.
pub(crate) fn keep_talk<
    D: Alter,
    R: FileReader + Terminal + Eprint + Databases + AllocGlobal,
    K: MapKind,
    S: Supply<K>,
    B: MakeBox<K>,
    A: Asides<K, W>,
    I: BufRead,
    W: Output,
>(
    rt: &R,
    conn: &mut Connection<D>,
    book: &mut Book<K>,
    supply: &mut S,
    boxes: &mut B,
    asides: &mut A,
    input: &mut I,
    out: &mut W,
) -> Result<Summary, Broken>
    ensures talked { IfOk result (TalkedThrough (AreSupplied S.gives K.seen) (AreFilesOf (R.may_read rt.now)) (StaysOnDisk (state D.Store conn.old) (state D.Store conn.new) book.old.plain) (I.remaining input.old)
        (place supply.old (silent book.old.plain) (W.contents out.old)) book.new.plain supply.new (W.contents out.new)) }
    ensures clean { HasCleanDisk (state D.Store conn.new) → HasCleanDisk (state D.Store conn.old) }
    ensures kept { HasCleanDisk (state D.Store conn.new) → (t : PlainTerms) → IsOnDisk t (state D.Store conn.old) book.old.plain
        → OnOk result (IsOnDisk t (state D.Store conn.new) book.new.plain) }
    ensures left { OnErr result (HasCleanDisk (state D.Store conn.new) → (t : PlainTerms) → IsOnDisk t (state D.Store conn.old) book.old.plain
        → LeavesOnly (HoldsOne t (IsTalkFront (AreSupplied S.gives K.seen) (AreFilesOf (R.may_read rt.now)) (I.remaining input.old) (place supply.old (silent book.old.plain) (W.contents out.old)) (W.contents out.new)))
        (state D.Store conn.new)) }
{
    let mut dialogue = KeptDialogue::new(rt.alloc());
    let mut given = Vec::new(rt.alloc());
    let mut left = MOST_SCRIPT;
    let mut number = 0u64;
    'lines: loop {
        Manner::Dialogue.ask(rt);
        left = match read_line(input, &mut given, left) {
            Ok(left) => left,
            Err(fault) => return Err(Broken::Unread(fault)),
        };
        let text = given.as_slice();
        if text.is_empty() {
            break;
        }
        let (line, _) = first_line(text);
        if Manner::Dialogue.is_ended_by(line) {
            break;
        }
        number = number.saturating_add(1);
        match hear(
            rt,
            conn,
            book,
            &mut dialogue,
            supply,
            boxes,
            asides,
            number,
            line,
            out,
        ) {
            Ok(()) => {}
            Err(fault) => return Err(fault),
        }
    }
    Ok(dialogue.summary())
}
